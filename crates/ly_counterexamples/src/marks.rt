ghost use Rattle.std.specs.Prelude.{◌≡◌, ◌↔◌, IfOk, IsTrue};
ghost use Rattle.ly_counterexamples.specs.Private.Marks.{AreAdded, AreMarked, IsMarked};

use std::alloc::{AllocError, Global};
use std::marker::Model;

/// Numbers below a count, each marked or not.
#[derive(Drop)]
pub(crate) struct Marks {
    /// For each number whether it is marked.
    marks: Vec<bool>,
}

impl Model for Marks {
    ghost use Rattle.std.specs.Prelude.{Bool, List};

    ghost Value = { List Bool };

    ghost view = { λ m. m.marks.items };
}

impl Marks {
    /// This many numbers, none of them marked.
    pub(crate) fn new(alloc: Global, count: usize) -> Result<Self, AllocError>
        ensures { IfOk result (AreMarked count (λ n. ⊥)) }
    {
        Ok(Marks {
            marks: vec![in alloc; false; count]?,
        })
    }

    /// Marks a number. A number that isn't below the count is ignored.
    pub(crate) fn set(&mut self, number: usize)
        ensures { AreAdded (λ n. n ≡ number) self.old self.new }
    {
        if number < self.marks.len() {
            self.marks[number] = true;
        }
    }

    /// Whether a number is marked.
    pub(crate) fn has(&self, number: usize) -> bool
        ensures { IsTrue result ↔ IsMarked self.now number }
    {
        number < self.marks.len() && self.marks[number]
    }
}
