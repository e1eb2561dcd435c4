ghost use Rattle.std.specs.Prelude.{◌≡◌, ◌<◌, ◌≤◌, ◌++◌, [], ◌∷◌, ℕ, length, map, All, Contains, IfOk, IsErrOf, OnOk};
ghost use Rattle.std.specs.Prelude.{Ok};
ghost use Rattle.ly_position.specs.Nfa.{IsRoomFor};
ghost use Rattle.ly_base.specs.Entry.{target_of};
ghost use Rattle.ly_subset.specs.Private.Found.{AreKept, IsEntered, IsFull, IsKeptSet, IsNumbered, SomeKept};
ghost use Rattle.ly_subset.specs.Private.Packed.{IsPacked, run_of, unpack};

use crate::chains::Span;
use crate::fault::SubsetFault;
use crate::keys::{key_of, span_key};
use crate::sets::Sets;
use ly_base::Entry;
use ly_position::PositionSet;
use std::alloc::{AllocError, Global};

/// The sets found so far, and the entries that lead to them.
#[derive(Drop)]
pub(crate) struct Found {
    /// The allocator.
    pub(crate) alloc: Global,
    /// The sets, in the order of their states.
    pub(crate) keys: Sets,
    /// The entries so far: starts, then rows.
    pub(crate) entries: Vec<Entry>,
    /// The number of entries that are starts.
    pub(crate) starts: usize,
    /// The greatest number of sets.
    pub(crate) limit: u32,
}

impl Found {
    /// Returns no sets and no entries.
    pub(crate) fn new(alloc: Global, starts: usize, limit: u32) -> Self
        ensures keys { result.keys ≡ [] }
        ensures entries { result.entries.items ≡ [] }
        ensures starts { result.starts ≡ starts }
        ensures limit { result.limit ≡ limit }
    {
        Found {
            alloc,
            keys: Sets::new(alloc),
            entries: Vec::new(alloc),
            starts,
            limit,
        }
    }

    /// Appends the entry that leads to a set. A new set gets the next number.
    pub(crate) fn enter(&mut self, set: &PositionSet) -> Result<(), SubsetFault>
        requires { AreKept set.now.positions.below self.old.limit self.old.keys }
        ensures entered { OnOk result (IsEntered self.old set.now.positions.members self.new) }
        ensures kept { OnOk result (AreKept set.now.positions.below self.new.limit self.new.keys) }
        ensures starts { self.new.starts ≡ self.old.starts }
        ensures limit { self.new.limit ≡ self.old.limit }
        ensures full { IsErrOf result SubsetFault.TooManyStates →
            IsFull self.old.limit self.old.keys set.now.positions.members }
    {
        let members = set.members();
        if members.is_empty() {
            return self.enter_none();
        }
        let key = key_of(self.alloc, members)?;
        self.enter_key(key)
    }

    /// Appends the entry that leads to the set of a run.
    pub(crate) fn enter_span(&mut self, span: Span) -> Result<(), SubsetFault>
        requires rises { span.first ≤ span.last }
        requires kept { SomeKept self.old.limit self.old.keys }
        ensures entered { OnOk result (IsEntered self.old (run_of span.first span.last) self.new) }
        ensures kept { OnOk result ((below : ℕ) → AreKept below self.old.limit self.old.keys → span.last < below
            → AreKept below self.new.limit self.new.keys) }
        ensures starts { self.new.starts ≡ self.old.starts }
        ensures limit { self.new.limit ≡ self.old.limit }
        ensures full { IsErrOf result SubsetFault.TooManyStates →
            IsFull self.old.limit self.old.keys (run_of span.first span.last) }
    {
        let key = span_key(self.alloc, span)?;
        self.enter_key(key)
    }

    /// Appends an entry without a target.
    pub(crate) fn enter_none(&mut self) -> Result<(), SubsetFault>
        ensures entered { OnOk result (IsEntered self.old [] self.new) }
        ensures keys { self.new.keys ≡ self.old.keys }
        ensures starts { self.new.starts ≡ self.old.starts }
        ensures limit { self.new.limit ≡ self.old.limit }
        ensures room { IsErrOf result SubsetFault.TooManyStates → ⊥ }
    {
        self.entries.push(Entry::none())?;
        Ok(())
    }

    /// Appends the entry that leads to the set of a key.
    fn enter_key(&mut self, key: Vec<u32>) -> Result<(), SubsetFault>
        requires packed { IsPacked key.items }
        requires set { IsKeptSet (unpack key.items) }
        requires kept { SomeKept self.old.limit self.old.keys }
        ensures entered { OnOk result (IsEntered self.old (unpack key.items) self.new) }
        ensures kept { OnOk result ((below : ℕ) → AreKept below self.old.limit self.old.keys
            → All (λ p. p < below) (unpack key.items) → AreKept below self.new.limit self.new.keys) }
        ensures starts { self.new.starts ≡ self.old.starts }
        ensures limit { self.new.limit ≡ self.old.limit }
        ensures full { IsErrOf result SubsetFault.TooManyStates →
            IsFull self.old.limit self.old.keys (unpack key.items) }
    {
        let entry = number(&mut self.keys, self.limit, key)?;
        self.entries.push(entry)?;
        Ok(())
    }
}

/// Returns the entry that leads to the set of a key, and adds the set if it is new.
fn number(keys: &mut Sets, limit: u32, mut key: Vec<u32>) -> Result<Entry, SubsetFault>
    requires packed { IsPacked key.items }
    requires set { IsKeptSet (unpack key.items) }
    requires kept { SomeKept limit keys.old }
    ensures numbered { IfOk result (λ e. IsNumbered keys.old (unpack key.items) keys.new (target_of e)) }
    ensures kept { OnOk result ((below : ℕ) → AreKept below limit keys.old
        → All (λ p. p < below) (unpack key.items) → AreKept below limit keys.new) }
    ensures full { IsErrOf result SubsetFault.TooManyStates → IsFull limit keys.old (unpack key.items) }
{
    if let Some(known) = keys.find(&key) {
        return Ok(Entry::to(known as u32));
    }
    let count = keys.len();
    if count >= limit as usize {
        return Err(SubsetFault::TooManyStates);
    }
    key.shrink_to_fit();
    keys.push(key)?;
    Ok(Entry::to(count as u32))
}
