ghost use Rattle.std.specs.Prelude.{◌≡◌, ◌<◌, ◌++◌, [], ◌∷◌, length, slice_index_or, MatchOption, OnOk};
ghost use Rattle.ly_base.specs.Keys.{IsAbsent};

use crate::item::Item;
use indexmap::IndexSet;
use std::alloc::{AllocError, Global};
use std::marker::Model;

/// Kernels of states, numbered in the order in which they are added, and looked up by a hash.
#[derive(Drop)]
pub(crate) struct Kernels {
    /// The kernels.
    kernels: IndexSet<Vec<Item>>,
}

impl Model for Kernels {
    ghost use Rattle.std.specs.Prelude.{List, map};
    ghost use Rattle.ly_lr0.specs.declared.item.Item as item;

    ghost Value = { List (List item.Item) };

    ghost view = { λ s. map (λ v. v.items) s.kernels.keys };
}

impl Kernels {
    /// No kernels.
    pub(crate) fn new(alloc: Global) -> Self
        ensures { result ≡ [] }
    {
        Kernels {
            kernels: IndexSet::new(alloc),
        }
    }

    /// The number of kernels.
    pub(crate) fn len(&self) -> usize
        ensures { result ≡ length self.now }
    {
        self.kernels.len()
    }

    /// The kernel with this number.
    pub(crate) fn kernel(&self, number: usize) -> &[Item]
        requires { number < length self.now }
        ensures { result.now ≡ slice_index_or self.now number [] }
    {
        match self.kernels.get_index(number) {
            Some(kernel) => kernel,
            None => &[],
        }
    }

    /// The number of a kernel, if it has been added.
    pub(crate) fn find(&self, kernel: &[Item]) -> Option<usize>
        ensures { MatchOption result (IsAbsent self.now kernel.now)
            (λ n. (n < length self.now) × (slice_index_or self.now n [] ≡ kernel.now)) }
    {
        self.kernels.get_index_of(kernel)
    }

    /// Adds a new kernel, with the next number.
    pub(crate) fn push(&mut self, kernel: Vec<Item>) -> Result<(), AllocError>
        requires { IsAbsent self.old kernel.items }
        ensures { OnOk result (self.new ≡ self.old ++ kernel.items ∷ []) }
    {
        self.kernels.insert(kernel)?;
        Ok(())
    }
}
