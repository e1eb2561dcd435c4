ghost use Rattle.std.specs.Prelude.{◌≡◌, ◌<◌, [], length, map, IfOk, Contains, slice_get, Some};
ghost use Rattle.std.specs.Bool.{OnTrue};
ghost use Rattle.std.specs.Str.{bytes_eq};
ghost use Rattle.ly_join.specs.Private.Numbering.{with_one};
ghost use Rattle.ly_join.specs.Private.Tables.{IsFoundAs};

use crate::terminal::next_number;
use indexmap::IndexSet;
use ly_base::{OutOfMemory, Sym};
use std::alloc::{AllocError, Global};
use std::marker::Model;

/// The names of nonterminals, numbered in the order they are added, without duplicates. They are borrowed from the yacc
/// file.
#[derive(Drop)]
pub(crate) struct Nonterminals<'t> {
    /// The names.
    names: IndexSet<&'t [u8]>,
}

impl<'t> Model for Nonterminals<'t> {
    ghost use Rattle.std.specs.Prelude.{ℕ, List, map, length, ◌<◌, ◌^◌};

    ghost Value = { List (List ℕ) };

    ghost view = { λ n. map (λ k. k.now) n.names.keys };

    ghost invariant = { λ n. length n.names.keys < 2 ^ 32 };
}

impl<'t> Nonterminals<'t> {
    /// No names.
    pub(crate) fn new(alloc: Global) -> Nonterminals<'t>
        ensures { result ≡ [] }
    {
        Nonterminals {
            names: IndexSet::new(alloc),
        }
    }

    /// The number of names.
    pub(crate) fn count(&self) -> u32
        ensures { result ≡ length self.now }
    {
        self.names.len() as u32
    }

    /// The number of a name, if it has been added.
    pub(crate) fn find(&self, name: &[u8]) -> Option<Sym>
        ensures { IsFoundAs self.now name.now result }
    {
        let number = self.names.get_index_of(name)?;
        Some(Sym(number as u32))
    }

    /// The number of a name that has been added.
    pub(crate) fn number(&self, name: &[u8]) -> Sym
        requires { Contains self.now name.now }
        ensures { slice_get self.now result.0 ≡ Some name.now }
    {
        self.find(name).unwrap()
    }

    /// Adds a name. A new name gets the next number.
    pub(crate) fn with_name(mut self, name: &'t [u8]) -> Result<Nonterminals<'t>, OutOfMemory>
        ensures { IfOk result (λ n. n ≡ with_one bytes_eq self.entry name.now) }
    {
        // consecutive rules mostly share their left side, so its bytes need no second hash
        if self.is_last(name) {
            return Ok(self);
        }
        next_number(self.names.len())?;
        self.names.insert(name)?;
        Ok(self)
    }

    /// Whether this is the name that was added last.
    fn is_last(&self, name: &[u8]) -> bool
        ensures { OnTrue result (Contains self.now name.now) }
    {
        match self.names.as_slice().last() {
            Some(last) => *last == name,
            None => false,
        }
    }

    /// Owned copies of the names, by number.
    pub(crate) fn into_names(self, alloc: Global) -> Result<Vec<Vec<u8>>, AllocError>
        ensures { IfOk result (λ names. map (λ n. n.items) names.items ≡ self.entry) }
    {
        let mut names = Vec::with_capacity(alloc, self.names.len())?;
        let keys = self.names.as_slice();
        for name in keys {
            names.push(Vec::from_slice(alloc, name)?)?;
        }
        Ok(names)
    }
}
