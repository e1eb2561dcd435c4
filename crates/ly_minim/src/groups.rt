ghost use Rattle.std.specs.Prelude.{◌≡◌, ◌<◌, ◌+◌, ℕ, length, Option, IfOk, IfSome, OnOk};
ghost use Rattle.ly_minim.specs.Private.Groups.{AreChains, AreGrouped};

use crate::links::Links;
use std::alloc::{AllocError, Global};

/// The states of each key, as a linked list from the last one to the first.
#[derive(Drop)]
pub(crate) struct Groups {
    /// The last state of each key.
    pub(crate) last: Links,
    /// For each state the previous one with the same key.
    pub(crate) before: Links,
}

impl Groups {
    /// Returns no states, with this many keys.
    pub(crate) fn new(alloc: Global, keys: usize) -> Result<Self, AllocError>
        ensures keys { IfOk result (λ g. length g.last ≡ keys) }
        ensures chains { IfOk result (λ g. AreChains 0 g.last g.before) }
        ensures grouped { IfOk result (λ g. (key : ℕ → Option ℕ) → AreGrouped 0 key g.last g.before) }
    {
        Ok(Groups {
            last: Links::none(alloc, keys)?,
            before: Links::new(alloc),
        })
    }

    /// Adds the next state, with its key if it has one.
    pub(crate) fn push(&mut self, state: u32, key: Option<u32>) -> Result<(), AllocError>
        requires state { state < u32.MAX }
        requires chains { AreChains state self.old.last self.old.before }
        requires key { IfSome key (λ k. k < length self.old.last) }
        ensures chains { OnOk result (AreChains (state + 1) self.new.last self.new.before) }
        ensures keys { OnOk result (length self.new.last ≡ length self.old.last) }
        ensures grouped { OnOk result ((of : ℕ → Option ℕ) → of state ≡ key
            → AreGrouped state of self.old.last self.old.before
            → AreGrouped (state + 1) of self.new.last self.new.before) }
    {
        match key {
            Some(key) => {
                self.before.push(self.last.get(key as usize))?;
                self.last.set(key as usize, state);
            }
            None => self.before.push(None)?,
        }
        Ok(())
    }
}
