ghost use Rattle.std.specs.Prelude.{◌≡◌, ◌⊎◌, ◌↔◌, ◌<◌, ◌≤◌, ◌+◌, ℕ, length, All, IfOk, OnOk, Option, Some};
ghost use Rattle.ly_minim.specs.Private.Groups.{AreChains, AreGrouped};
ghost use Rattle.ly_minim.specs.Private.Halves.{AreUnions};
ghost use Rattle.ly_minim.specs.Private.Partition.{AreClear, AreParts, AreSplitBy, AreTouched, HasSameBlocks, IsCut};
ghost use Rattle.ly_minim.specs.Private.Partition.{IsFiner, IsMarked, IsMarking, IsPartition, IsSplit, home};

use crate::groups::Groups;
use std::alloc::{AllocError, Global};

/// A partition of the states into blocks. States can be marked, and the marked states of a block split off (Valmari
/// 2012).
#[derive(Drop)]
pub(crate) struct Partition {
    /// The states, block by block. The marked states of a block come first.
    pub(crate) states: Vec<u32>,
    /// The index of each state in `states`.
    pub(crate) place: Vec<usize>,
    /// The block of each state.
    pub(crate) of: Vec<u32>,
    /// The start of each block.
    pub(crate) first: Vec<usize>,
    /// The end of the marked states of each block.
    pub(crate) middle: Vec<usize>,
    /// The end of each block.
    pub(crate) end: Vec<usize>,
}

/// A range of `states`.
#[derive(Clone, Copy)]
struct Run {
    /// The start.
    first: usize,
    /// The end.
    end: usize,
}

impl Partition {
    /// Returns one block with all states.
    pub(crate) fn whole(alloc: Global, states: u32) -> Result<Self, AllocError>
        requires { 0 < states }
        ensures laid { IfOk result IsPartition }
        ensures clear { IfOk result AreClear }
        ensures count { IfOk result (λ p. length p.of.items ≡ states) }
        ensures one { IfOk result (λ p. (s : ℕ) → s < states → home p s ≡ 0) }
    {
        let mut partition = Partition {
            states: Vec::with_capacity(alloc, states as usize)?,
            place: Vec::with_capacity(alloc, states as usize)?,
            of: Vec::with_capacity(alloc, states as usize)?,
            first: Vec::new(alloc),
            middle: Vec::new(alloc),
            end: Vec::new(alloc),
        };
        for state in 0..states {
            partition.states.push(state)?;
            partition.place.push(state as usize)?;
            partition.of.push(0)?;
        }
        partition.first.push(0)?;
        partition.middle.push(0)?;
        partition.end.push(states as usize)?;
        Ok(partition)
    }

    /// Splits each block into the states that have one of the keys and the rest. Appends the smaller half of each.
    pub(crate) fn split_by(
        &mut self,
        alloc: Global,
        groups: &Groups,
        keys: &[u32],
        halves: &mut Vec<Vec<u32>>,
    ) -> Result<(), AllocError>
        requires laid { IsPartition self.old }
        requires clear { AreClear self.old }
        requires chains { AreChains (length self.old.of.items) groups.now.last groups.now.before }
        requires keys { All (λ k. k < length groups.now.last) keys.now }
        requires halves { AreUnions self.old.of.items halves.old.items }
        ensures laid { OnOk result (IsPartition self.new) }
        ensures clear { OnOk result (AreClear self.new) }
        ensures count { OnOk result (length self.new.of.items ≡ length self.old.of.items) }
        ensures finer { OnOk result (IsFiner self.old self.new) }
        ensures apart { OnOk result ((key : ℕ → Option ℕ)
            → AreGrouped (length self.old.of.items) key groups.now.last groups.now.before
            → AreSplitBy key keys.now self.old self.new) }
        ensures halves { OnOk result (AreUnions self.new.of.items halves.new.items) }
        ensures more { OnOk result (length self.old.first.items ≤ length self.new.first.items) }
        ensures balance { OnOk result (length halves.new.items + length self.old.first.items
            ≡ length halves.old.items + length self.new.first.items) }
    {
        let mut touched = Vec::new(alloc);
        for key in keys {
            self.mark_group(groups, *key, &mut touched)?;
        }
        for block in &touched {
            self.split(alloc, *block, halves)?;
        }
        Ok(())
    }

    /// Marks the states of a key. Appends the blocks that had no marked state.
    fn mark_group(
        &mut self,
        groups: &Groups,
        key: u32,
        touched: &mut Vec<u32>,
    ) -> Result<(), AllocError>
        requires laid { IsPartition self.old }
        requires chains { AreChains (length self.old.of.items) groups.now.last groups.now.before }
        requires key { key < length groups.now.last }
        requires touched { AreTouched self.old 0 touched.old.items }
        ensures laid { OnOk result (IsPartition self.new) }
        ensures same { OnOk result (HasSameBlocks self.old self.new) }
        ensures touched { OnOk result (AreTouched self.new 0 touched.new.items) }
        ensures marked { OnOk result ((of : ℕ → Option ℕ)
            → AreGrouped (length self.old.of.items) of groups.now.last groups.now.before
            → (s : ℕ) → s < length self.old.of.items
            → (IsMarked self.new s ↔ (IsMarked self.old s ⊎ (of s ≡ Some key)))) }
    {
        let mut next = groups.last.get(key as usize);
        while let Some(state) = next {
            let block = self.of[state as usize];
            if self.middle[block as usize] == self.first[block as usize] {
                touched.push(block)?;
            }
            self.mark(state);
            next = groups.before.get(state as usize);
        }
        Ok(())
    }

    /// Marks a state: it is swapped with the first unmarked state of its block.
    fn mark(&mut self, state: u32)
        requires laid { IsPartition self.old }
        requires state { state < length self.old.of.items }
        ensures { IsMarking state self.old self.new }
    {
        let here = self.place[state as usize];
        let block = self.of[state as usize] as usize;
        let there = self.middle[block];
        if there <= here {
            let other = self.states[there];
            self.states[here] = other;
            self.place[other as usize] = here;
            self.states[there] = state;
            self.place[state as usize] = there;
            self.middle[block] = there + 1;
        }
    }

    /// Splits a block into its marked states and the rest, if it has both, and appends the smaller half. Afterwards
    /// none of them is marked.
    fn split(
        &mut self,
        alloc: Global,
        block: u32,
        halves: &mut Vec<Vec<u32>>,
    ) -> Result<(), AllocError>
        requires laid { IsPartition self.old }
        requires block { block < length self.old.first.items }
        requires halves { AreUnions self.old.of.items halves.old.items }
        ensures split { OnOk result (IsSplit block self.old self.new) }
        ensures halves { OnOk result (AreUnions self.new.of.items halves.new.items) }
        ensures balance { OnOk result (length halves.new.items + length self.old.first.items
            ≡ length halves.old.items + length self.new.first.items) }
    {
        let block = block as usize;
        let middle = self.middle[block];
        let marked = Run {
            first: self.first[block],
            end: middle,
        };
        let rest = Run {
            first: middle,
            end: self.end[block],
        };
        if marked.first == middle || middle == rest.end {
            self.middle[block] = marked.first;
            return Ok(());
        }
        if middle - marked.first <= rest.end - middle {
            self.split_off(alloc, block, rest, marked, halves)
        } else {
            self.split_off(alloc, block, marked, rest, halves)
        }
    }

    /// Makes a part of a block a new block, and appends its states.
    fn split_off(
        &mut self,
        alloc: Global,
        block: usize,
        kept: Run,
        part: Run,
        halves: &mut Vec<Vec<u32>>,
    ) -> Result<(), AllocError>
        requires laid { IsPartition self.old }
        requires block { block < length self.old.first.items }
        requires parts { AreParts block kept.first kept.end part.first part.end self.old }
        requires halves { AreUnions self.old.of.items halves.old.items }
        ensures cut { OnOk result (IsCut block kept.first kept.end part.first part.end self.old self.new) }
        ensures halves { OnOk result (AreUnions self.new.of.items halves.new.items) }
        ensures one { OnOk result (length halves.new.items ≡ length halves.old.items + 1) }
    {
        self.cut(block, kept, part)?;
        halves.push(self.states[part.first..part.end].to_vec(alloc)?)?;
        Ok(())
    }

    /// Makes a part of a block a new block; the old one keeps the other part.
    fn cut(&mut self, block: usize, kept: Run, part: Run) -> Result<(), AllocError>
        requires laid { IsPartition self.old }
        requires block { block < length self.old.first.items }
        requires parts { AreParts block kept.first kept.end part.first part.end self.old }
        ensures { OnOk result (IsCut block kept.first kept.end part.first part.end self.old self.new) }
    {
        let number = self.first.len() as u32;
        self.first[block] = kept.first;
        self.middle[block] = kept.first;
        self.end[block] = kept.end;
        self.first.push(part.first)?;
        self.middle.push(part.first)?;
        self.end.push(part.end)?;
        for place in part.first..part.end {
            self.of[self.states[place] as usize] = number;
        }
        Ok(())
    }
}
