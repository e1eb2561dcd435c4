ghost use Rattle.std.specs.Prelude.{◌≡◌, ℕ, ◌<◌, ◌≤◌, ◌+◌, ◌*◌, [], length, IfOk, OnOk, IfSome, None, All};
ghost use Rattle.ly_minim.specs.Private.Blocks.{AreBlocks};
ghost use Rattle.ly_minim.specs.Private.Signature.{block_of};
ghost use Rattle.ly_subset.specs.Automaton.{entry_at};
ghost use Rattle.ly_minim.specs.Private.Quotient.{AreNumbered, IsEntered, IsMet, IsQuotient};

use crate::blocks::Blocks;
use crate::links::Links;
use ly_base::{Entry, OutOfMemory};
use ly_subset::Dfa;
use std::alloc::{AllocError, Global};

/// A state for each block that was visited, numbered in the order of the visits.
#[derive(Drop)]
pub(crate) struct Quotient {
    /// For each block the number of its state, if it was visited.
    numbers: Links,
    /// For each number a representative: a state of its block.
    pub(crate) picked: Vec<u32>,
    /// The entries so far: starts, then rows.
    pub(crate) entries: Vec<Entry>,
}

/// Visits the blocks breadth first from the starts, numbers them, and records the entries between them.
pub(crate) fn blocks_met(alloc: Global, dfa: &Dfa, blocks: &Blocks) -> Result<Quotient, OutOfMemory>
    requires { AreBlocks (length dfa.now.rules) blocks.now.of.items blocks.now.count }
    ensures quotient { IfOk result (IsQuotient dfa.now blocks.now.of.items) }
    ensures numbered { IfOk result (AreNumbered blocks.now) }
    ensures whole { IfOk result (λ q. length q.entries.items
        ≡ dfa.now.starts + length q.picked.items * dfa.now.classes) }
{
    let mut quotient = Quotient {
        numbers: Links::none(alloc, blocks.count)?,
        picked: Vec::new(alloc),
        entries: Vec::new(alloc),
    };
    for place in 0..dfa.starts() {
        quotient.enter(blocks, dfa.entry(place))?;
    }
    let mut state = 0;
    while state < quotient.picked.len() {
        quotient.row(dfa, blocks, state)?;
        state += 1;
    }
    Ok(quotient)
}

impl Quotient {
    /// Adds the row of a state: the targets of its representative by each class.
    fn row(&mut self, dfa: &Dfa, blocks: &Blocks, state: usize) -> Result<(), AllocError>
        requires blocks { AreBlocks (length dfa.now.rules) blocks.now.of.items blocks.now.count }
        requires quotient { IsQuotient dfa.now blocks.now.of.items self.old }
        requires state { state < length self.old.picked.items }
        requires next { length self.old.entries.items ≡ dfa.now.starts + state * dfa.now.classes }
        requires numbered { AreNumbered blocks.now self.old }
        ensures quotient { OnOk result (IsQuotient dfa.now blocks.now.of.items self.new) }
        ensures more { OnOk result (length self.new.entries.items
            ≡ length self.old.entries.items + dfa.now.classes) }
        ensures longer { OnOk result (length self.old.picked.items ≤ length self.new.picked.items) }
        ensures numbered { OnOk result (AreNumbered blocks.now self.new) }
    {
        let from = self.picked[state];
        for class in 0..dfa.classes() {
            self.enter(blocks, dfa.next(from, class))?;
        }
        Ok(())
    }

    /// Appends the entry that leads to the block of a state.
    fn enter(&mut self, blocks: &Blocks, target: Option<u32>) -> Result<(), AllocError>
        requires numbered { AreNumbered blocks.now self.old }
        requires target { IfSome target (λ s. s < length blocks.now.of.items) }
        ensures entered { OnOk result (IsEntered blocks.now.of.items self.old target self.new) }
        ensures numbered { OnOk result (AreNumbered blocks.now self.new) }
    {
        let entry = match target {
            Some(state) => Entry::to(self.number(blocks, state)?),
            None => Entry::none(),
        };
        self.entries.push(entry)?;
        Ok(())
    }

    /// The number of the block of a state. A new block gets the next number, with the state as its representative.
    fn number(&mut self, blocks: &Blocks, state: u32) -> Result<u32, AllocError>
        requires numbered { AreNumbered blocks.now self.old }
        requires state { state < length blocks.now.of.items }
        ensures met { IfOk result (λ n. IsMet blocks.now.of.items self.old state self.new n) }
        ensures numbered { OnOk result (AreNumbered blocks.now self.new) }
        ensures entries { self.new.entries ≡ self.old.entries }
        ensures fits { IfOk result (λ n. n < u32.MAX) }
    {
        let block = blocks.of[state as usize] as usize;
        if let Some(number) = self.numbers.get(block) {
            return Ok(number);
        }
        let number = self.picked.len() as u32;
        self.picked.push(state)?;
        self.numbers.set(block, number);
        Ok(number)
    }
}
