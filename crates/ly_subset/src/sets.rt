ghost use Rattle.std.specs.Prelude.{◌≡◌, ◌<◌, ◌++◌, [], ◌∷◌, length, slice_index_or, IfOk, MatchOption, OnOk};
ghost use Rattle.ly_base.specs.Keys.{IsAbsent};
ghost use Rattle.ly_subset.specs.Private.Members.{listed};
ghost use Rattle.ly_subset.specs.Private.Packed.{IsPacked, unpack};

use crate::keys::Keys;
use crate::members::Members;
use crate::packed::{unpack, unpack_run};
use std::alloc::{AllocError, Global};
use std::marker::Model;

/// Ascending lists of numbers, numbered in the order in which they were added and looked up by a hash. They are stored
/// as packed rows, so that many large ones take little memory.
#[derive(Drop)]
pub(crate) struct Sets {
    /// The packed rows.
    rows: Keys,
}

impl Model for Sets {
    ghost use Rattle.std.specs.Prelude.{ℕ, List, map};

    ghost Value = { List (List ℕ) };

    ghost use Rattle.ly_subset.specs.Private.Packed.{unpack, ArePacked};

    ghost view = { λ s. map unpack s.rows };

    ghost invariant = { λ s. ArePacked s.rows };
}

impl Sets {
    /// Returns no lists.
    pub(crate) fn new(alloc: Global) -> Self
        ensures { result ≡ [] }
    {
        Sets {
            rows: Keys::new(alloc),
        }
    }

    /// The number of lists.
    pub(crate) fn len(&self) -> usize
        ensures { result ≡ length self.now }
    {
        self.rows.len()
    }

    /// The list with this number.
    pub(crate) fn members(&self, alloc: Global, number: usize) -> Result<Members, AllocError>
        requires { number < length self.now }
        ensures { IfOk result (λ m. listed m ≡ slice_index_or self.now number []) }
    {
        let row = self.rows.key(number);
        match unpack_run(row) {
            Some(span) => Ok(Members::Span(span)),
            None => Ok(Members::List(unpack(alloc, row)?)),
        }
    }

    /// The number of a packed list, if it exists.
    pub(crate) fn find(&self, row: &[u32]) -> Option<usize>
        requires { IsPacked row.now }
        ensures { MatchOption result (IsAbsent self.now (unpack row.now))
            (λ n. (n < length self.now) × (slice_index_or self.now n [] ≡ unpack row.now)) }
    {
        self.rows.find(row)
    }

    /// Adds a new packed list, with the next number.
    pub(crate) fn push(&mut self, row: Vec<u32>) -> Result<(), AllocError>
        requires packed { IsPacked row.items }
        requires absent { IsAbsent self.old (unpack row.items) }
        ensures { OnOk result (self.new ≡ self.old ++ unpack row.items ∷ []) }
    {
        self.rows.push(row)
    }
}
