ghost use Rattle.std.specs.Prelude.{◌≡◌, ◌≢◌, ◌<◌, ◌≤◌, [], length, All, AllPairs, IfOk};
ghost use Rattle.ly_base.specs.SparseSet.{with_members};
ghost use Rattle.ly_position.specs.Private.Targets.{Closes, SameRoom, with_target};
ghost use Rattle.ly_position.specs.Target.{ForkWithin, TargetWithin};

use crate::nfa::{Fork, Target};
use ly_base::SparseSet;
use std::alloc::{AllocError, Global};

/// A set of positions, with a buffer for the forks that a step visits. All memory is allocated with it.
#[derive(Drop)]
pub struct PositionSet {
    /// The members.
    positions: SparseSet,
    /// The forks that the last step visited. They form a queue of those whose sides are still to be added.
    forks: SparseSet,
}

impl PositionSet {
    /// Returns the empty set for this many positions and forks. Fails if memory runs out.
    pub(crate) fn new(alloc: Global, positions: usize, forks: usize) -> Result<Self, AllocError>
        ensures positions { IfOk result (λ s. s.positions ≡ record { below = positions; members = [] }) }
        ensures forks { IfOk result (λ s. s.forks ≡ record { below = forks; members = [] }) }
    {
        Ok(PositionSet {
            positions: SparseSet::new(alloc, positions)?,
            forks: SparseSet::new(alloc, forks)?,
        })
    }

    /// The members, each once.
    pub fn members(&self) -> &[u32]
        ensures these { result.now ≡ self.now.positions.members }
        ensures within { All (λ p. p < self.now.positions.below) result.now }
        ensures once { AllPairs (λ p q. p ≢ q) result.now }
    {
        self.positions.members()
    }

    /// Sets the members to these positions.
    pub fn fill(&mut self, positions: &[u32])
        requires { All (λ p. p < self.old.positions.below) positions.now }
        ensures { self.new ≡ record self.old {
          positions = record self.old.positions { members = with_members [] positions.now };
        } }
    {
        self.positions.clear();
        self.positions.extend(positions);
    }

    /// Removes all members and forks.
    pub(crate) fn clear(&mut self)
        ensures { self.new ≡ record {
          positions = record self.old.positions { members = [] };
          forks = record self.old.forks { members = [] };
        } }
    {
        self.positions.clear();
        self.forks.clear();
    }

    /// Adds a target: a position as a member, a fork to the queue.
    pub(crate) fn put(&mut self, target: Target)
        requires { TargetWithin self.old.positions.below self.old.forks.below target }
        ensures added { self.new ≡ with_target self.old target }
        ensures room { length self.old.forks.members ≤ self.old.forks.below
            → length self.new.forks.members ≤ self.new.forks.below }
    {
        match target {
            Target::Position(number) => self.positions.insert(number),
            Target::Fork(number) => self.forks.insert(number),
        };
    }

    /// Adds everything that the forks of the queue lead to. Each fork is visited once.
    pub(crate) fn follow(&mut self, forks: &[Fork])
        requires within { All (ForkWithin self.old.positions.below self.old.forks.below) forks.now }
        requires room { self.old.forks.below ≡ length forks.now }
        requires few { length self.old.forks.members ≤ self.old.forks.below }
        ensures room { SameRoom self.old self.new }
        ensures closed { Closes forks.now self.old self.new }
    {
        let mut done = 0;
        while done < self.forks.members().len() {
            let number = self.forks.members()[done];
            let fork = forks[number as usize];
            self.put(fork.first);
            self.put(fork.second);
            done += 1;
        }
    }
}
