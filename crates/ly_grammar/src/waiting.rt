ghost use Rattle.std.specs.Prelude.{◌≡◌, ◌<◌, [], ◌∷◌, ◌++◌, length, replicate, slice_index_or, slice_set, IfOk, OnOk};

use std::alloc::{AllocError, Global};
use std::marker::Model;
use std::mem;

/// For each nonterminal, the rules that wait until it is found.
#[derive(Drop)]
pub(crate) struct Waiting {
    /// The rules by number.
    lists: Vec<Vec<usize>>,
}

impl Model for Waiting {
    ghost use Rattle.std.specs.Prelude.{List, ℕ, map};

    ghost Value = { List (List ℕ) };

    ghost view = { λ w. map (λ rules. rules.items) w.lists.items };
}

impl Waiting {
    /// Lists for this many nonterminals, without rules.
    pub(crate) fn new(alloc: Global, nonterminals: usize) -> Result<Waiting, AllocError>
        ensures { IfOk result (λ w. w ≡ replicate nonterminals []) }
    {
        let mut lists = Vec::with_capacity(alloc, nonterminals)?;
        for _ in 0..nonterminals {
            lists.push(Vec::new(alloc))?;
        }
        Ok(Waiting { lists })
    }

    /// Makes a rule wait for a nonterminal.
    pub(crate) fn add(&mut self, nonterminal: usize, rule: usize) -> Result<(), AllocError>
        requires { nonterminal < length self.old }
        ensures { OnOk result (self.new ≡
            slice_set self.old nonterminal (slice_index_or self.old nonterminal [] ++ rule ∷ [])) }
    {
        self.lists[nonterminal].push(rule)?;
        Ok(())
    }

    /// Removes and returns the rules that wait for a nonterminal.
    pub(crate) fn take(&mut self, alloc: Global, nonterminal: usize) -> Vec<usize>
        requires { nonterminal < length self.old }
        ensures these { result.items ≡ slice_index_or self.old nonterminal [] }
        ensures gone { self.new ≡ slice_set self.old nonterminal [] }
    {
        mem::replace(&mut self.lists[nonterminal], Vec::new(alloc))
    }
}
