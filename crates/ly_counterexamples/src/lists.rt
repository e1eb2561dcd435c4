ghost use Rattle.std.specs.Prelude.{◌≡◌, ◌<◌, ◌++◌, [], ◌∷◌, length, replicate, slice_index_or, slice_set, IfOk, OnOk};

use std::alloc::{AllocError, Global};
use std::marker::Model;

/// A list for each number below a count.
#[derive(Drop)]
pub(crate) struct Lists<T> {
    /// The lists.
    lists: Vec<Vec<T>>,
}

impl<T> Model for Lists<T> {
    ghost use Rattle.std.specs.Prelude.{List, map};

    ghost Value = { List (List T) };

    ghost view = { λ w. map (λ list. list.items) w.lists.items };
}

impl<T: Copy> Lists<T> {
    /// This many empty lists.
    pub(crate) fn new(alloc: Global, count: usize) -> Result<Lists<T>, AllocError>
        ensures { IfOk result (λ w. w ≡ replicate count []) }
    {
        let mut lists = Vec::with_capacity(alloc, count)?;
        for _ in 0..count {
            lists.push(Vec::new(alloc))?;
        }
        Ok(Lists { lists })
    }

    /// Adds a value to the list of a number.
    pub(crate) fn push(&mut self, number: usize, value: T) -> Result<(), AllocError>
        requires { number < length self.old }
        ensures { OnOk result (self.new ≡
            slice_set self.old number (slice_index_or self.old number [] ++ value ∷ [])) }
    {
        self.lists[number].push(value)?;
        Ok(())
    }

    /// The list of a number.
    pub(crate) fn of(&self, number: usize) -> &[T]
        requires { number < length self.now }
        ensures { result.now ≡ slice_index_or self.now number [] }
    {
        &self.lists[number]
    }
}
