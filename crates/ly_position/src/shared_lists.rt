ghost use Rattle.std.specs.Prelude.{◌≡◌, ◌<◌, [], ◌∷◌, ◌++◌, length, OnOk, slice_index_or};

use crate::lists::Lists;
use std::alloc::{AllocError, Global};
use std::marker::Model;

/// Lists of numbers. A list that is marked as equal to an earlier one is stored once.
#[derive(Drop)]
pub struct SharedLists {
    /// The stored lists.
    kept: Lists,
    /// For each list its number among the stored ones.
    numbers: Vec<usize>,
}

impl Model for SharedLists {
    ghost use Rattle.std.specs.Prelude.{ℕ, List, ◌<◌, length, All};
    ghost use Rattle.std.specs.Coded.{coded_list, coded_ℕ};
    ghost use Rattle.ly_position.specs.Private.Grown.{picked};

    ghost Value = { List (List ℕ) };

    ghost coded = { coded_list (coded_list coded_ℕ) };

    ghost view = { λ l. picked l.kept l.numbers.items };

    ghost invariant = { λ l. All (λ n. n < length l.kept) l.numbers.items };
}

impl SharedLists {
    /// Returns no lists.
    pub(crate) fn new(alloc: Global) -> Self
        ensures { result ≡ [] }
    {
        SharedLists {
            kept: Lists::new(alloc),
            numbers: Vec::new(alloc),
        }
    }

    /// The number of lists.
    pub(crate) fn len(&self) -> usize
        ensures { result ≡ length self.now }
    {
        self.numbers.len()
    }

    /// Adds a list.
    pub(crate) fn push(&mut self, list: &[u32]) -> Result<(), AllocError>
        ensures { OnOk result (self.new ≡ self.old ++ list.now ∷ []) }
    {
        let number = self.kept.len();
        self.kept.push(list)?;
        self.numbers.push(number)?;
        Ok(())
    }

    /// Adds a list that equals the one with this number.
    pub(crate) fn push_again(&mut self, number: usize) -> Result<(), AllocError>
        requires { number < length self.old }
        ensures { OnOk result (self.new ≡ self.old ++ slice_index_or self.old number [] ∷ []) }
    {
        let kept = self.numbers[number];
        self.numbers.push(kept)?;
        Ok(())
    }

    /// The list with this number.
    pub(crate) fn list(&self, number: usize) -> &[u32]
        requires { number < length self.now }
        ensures { result.now ≡ slice_index_or self.now number [] }
    {
        self.kept.list(self.numbers[number])
    }
}
