ghost use Rattle.std.specs.Prelude.{◌≡◌, ◌≢◌, ◌<◌, ◌≤◌, [], length, not, All, AllPairs, IfOk, nat_eq};
ghost use Rattle.std.specs.List.{list_any};

use std::alloc::{AllocError, Global};
use std::marker::Model;

/// A set of numbers below a bound. All memory is allocated at the start, and clearing takes one step (Briggs and
/// Torczon 1993).
#[derive(Drop)]
pub struct SparseSet {
    /// The members, in the first `size` slots.
    slots: Vec<u32>,
    /// The slot that each number was last written to.
    places: Vec<u32>,
    /// The number of members.
    size: usize,
}

impl Model for SparseSet {
    ghost use Rattle.ly_base.specs.SparseSet.{Chosen};

    ghost Value = { Chosen };

    ghost use Rattle.ly_base.specs.SparseSet.{chosen, IsPlaced};

    ghost view = { chosen };

    ghost invariant = { λ s. IsPlaced s.slots.items s.places.items s.size };
}

impl SparseSet {
    ghost use Rattle.ly_base.specs.SparseSet.{with_member, with_members};

    /// Returns the empty set of numbers below `bound`. Fails if memory runs out.
    pub fn new(alloc: Global, bound: usize) -> Result<Self, AllocError>
        ensures { IfOk result (λ s. s ≡ record { below = bound; members = [] }) }
    {
        Ok(SparseSet {
            slots: vec![in alloc; 0; bound]?,
            places: vec![in alloc; 0; bound]?,
            size: 0,
        })
    }

    /// The members, each once, in the order in which they were added.
    pub fn members(&self) -> &[u32]
        ensures these { result.now ≡ self.now.members }
        ensures within { All (λ m. m < self.now.below) result.now }
        ensures once { AllPairs (λ m n. m ≢ n) result.now }
    {
        &self.slots[..self.size]
    }

    /// Whether a number is a member.
    pub fn contains(&self, number: u32) -> bool
        requires { number < self.now.below }
        ensures { result ≡ list_any (nat_eq number) self.now.members }
    {
        let place = self.places[number as usize] as usize;
        place < self.size && self.slots[place] == number
    }

    /// Removes all members.
    pub fn clear(&mut self)
        ensures { self.new ≡ record self.old { members = [] } }
    {
        self.size = 0;
    }

    /// Adds a number. Returns whether it is new.
    pub fn insert(&mut self, number: u32) -> bool
        requires { number < self.old.below }
        ensures added { self.new ≡ record self.old { members = with_member self.old.members number } }
        ensures new { result ≡ not (list_any (nat_eq number) self.old.members) }
        ensures room { length self.new.members ≤ self.new.below }
    {
        if self.contains(number) {
            return false;
        }
        self.slots[self.size] = number;
        self.places[number as usize] = self.size as u32;
        self.size += 1;
        true
    }

    /// Adds some numbers.
    pub fn extend(&mut self, numbers: &[u32])
        requires { All (λ n. n < self.old.below) numbers.now }
        ensures { self.new ≡ record self.old { members = with_members self.old.members numbers.now } }
    {
        for number in numbers {
            self.insert(*number);
        }
    }
}
