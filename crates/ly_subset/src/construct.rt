ghost use Rattle.std.specs.Prelude.{◌≡◌, ◌<◌, ◌≤◌, ◌+◌, ◌*◌, ◌↔◌, ℕ, List, length, All, AllPairs, IfOk};
ghost use Rattle.std.specs.Prelude.{IsErrOf, OnOk};
ghost use Rattle.ly_position.specs.Nfa.{IsRoomFor};
ghost use Rattle.ly_subset.specs.Automaton.{IsAutomaton, start_place};
ghost use Rattle.ly_subset.specs.Private.Members.{listed};
ghost use Rattle.ly_subset.specs.Private.Found.{AreKept, IsFound, IsLed, IsLedPast, IsPast};
ghost use Rattle.ly_subset.specs.Private.Steps.{AreSteps};
ghost use Rattle.ly_subset.specs.Subsets.{AreSubsets, HasMoreSets};

use crate::chains::{chains, last_reader, span_after};
use crate::classes::{byte_classes, unread_byte};
use crate::dfa::Dfa;
use crate::fault::SubsetFault;
use crate::found::Found;
use crate::members::Members;
use crate::rules::rules_of;
use ly_base::Limits;
use ly_position::{PosNfa, PositionSet};
use std::alloc::Global;

/// Builds the DFA from the sets of positions that strings lead to, with starts for this many conditions.
///
/// Errors: `TooManyStates` if there are more sets than the limit, `OutOfMemory` if an allocation failed.
pub fn subsets(
    alloc: Global,
    nfa: &PosNfa,
    conditions: u32,
    limits: &Limits,
) -> Result<Dfa, SubsetFault>
    ensures subsets { IfOk result (AreSubsets nfa.now conditions) }
    ensures whole { IfOk result IsAutomaton }
    ensures few { IfOk result (λ d. length d.rules ≤ limits.now.scanner_states) }
    ensures many { IsErrOf result SubsetFault.TooManyStates
        → HasMoreSets nfa.now conditions limits.now.scanner_states }
{
    let classes = byte_classes(alloc, nfa)?;
    let mut found = Found::new(alloc, 2 * conditions as usize, limits.scanner_states());
    starts(nfa, &mut found, conditions)?;
    rows(nfa, &mut found, &classes.least)?;
    Ok(Dfa {
        rules: rules_of(alloc, nfa, &found.keys)?,
        class_of: classes.class_of,
        classes: classes.least.len(),
        starts: found.starts,
        entries: found.entries,
    })
}

/// Adds the start sets of all conditions.
fn starts(nfa: &PosNfa, found: &mut Found, conditions: u32) -> Result<(), SubsetFault>
    requires found { (least : List ℕ) → IsFound nfa.now least found.old }
    requires none { length found.old.entries.items ≡ 0 }
    requires starts { found.old.starts ≡ 2 * conditions }
    ensures found { OnOk result ((least : List ℕ) → IsFound nfa.now least found.new) }
    ensures all { OnOk result (length found.new.entries.items ≡ found.new.starts) }
    ensures starts { found.new.starts ≡ found.old.starts }
    ensures limit { found.new.limit ≡ found.old.limit }
    ensures past { IsErrOf result SubsetFault.TooManyStates
        → (least : List ℕ) → IsPast nfa.now found.old.starts least found.old.limit }
{
    let mut set = nfa.set(found.alloc)?;
    for condition in 0..conditions {
        start(nfa, found, &mut set, condition, false)?;
        start(nfa, found, &mut set, condition, true)?;
    }
    Ok(())
}

/// Adds the start set of a condition, at the start of a line or elsewhere.
fn start(
    nfa: &PosNfa,
    found: &mut Found,
    set: &mut PositionSet,
    condition: u32,
    at_line_start: bool,
) -> Result<(), SubsetFault>
    requires room { IsRoomFor nfa.now set.old }
    requires found { (least : List ℕ) → IsFound nfa.now least found.old }
    requires next { length found.old.entries.items ≡ start_place condition at_line_start }
    requires within { length found.old.entries.items < found.old.starts }
    ensures room { IsRoomFor nfa.now set.new }
    ensures found { OnOk result ((least : List ℕ) → IsFound nfa.now least found.new) }
    ensures more { OnOk result (length found.new.entries.items ≡ length found.old.entries.items + 1) }
    ensures starts { found.new.starts ≡ found.old.starts }
    ensures limit { found.new.limit ≡ found.old.limit }
    ensures past { IsErrOf result SubsetFault.TooManyStates
        → (least : List ℕ) → IsPast nfa.now found.old.starts least found.old.limit }
{
    set.fill(nfa.start(condition, at_line_start));
    found.enter(set)
}

/// Adds the rows of all states, including those of states that are found on the way.
fn rows(nfa: &PosNfa, found: &mut Found, least: &[u8]) -> Result<(), SubsetFault>
    requires found { IsFound nfa.now least.now found.old }
    requires starts { length found.old.entries.items ≡ found.old.starts }
    ensures found { OnOk result (IsFound nfa.now least.now found.new) }
    ensures all { OnOk result (length found.new.entries.items
        ≡ found.new.starts + length found.new.keys * length least.now) }
    ensures starts { found.new.starts ≡ found.old.starts }
    ensures limit { found.new.limit ≡ found.old.limit }
    ensures past { IsErrOf result SubsetFault.TooManyStates →
        IsPast nfa.now found.old.starts least.now found.old.limit }
{
    let mut into = nfa.set(found.alloc)?;
    let firsts = chains(found.alloc, nfa)?;
    let steps = SetSteps {
        nfa,
        least,
        firsts: &firsts,
        unread: unread_byte(nfa, least),
    };
    let mut state = 0;
    while state < found.keys.len() {
        steps.row(found, &mut into, state)?;
        state += 1;
    }
    Ok(())
}

/// The automaton of positions, with precomputed data that speeds up its steps.
#[derive(Clone, Copy)]
pub(crate) struct SetSteps<'a> {
    /// The automaton.
    pub(crate) nfa: &'a PosNfa,
    /// The least byte of each class.
    pub(crate) least: &'a [u8],
    /// For each position the first one of its chain, or 0 if it is in no chain.
    pub(crate) firsts: &'a [u32],
    /// A byte that no position reads, if there is one.
    pub(crate) unread: Option<u8>,
}

impl SetSteps<'_> {
    /// Adds the row of a state: for each class the set that its bytes lead to.
    fn row(self, found: &mut Found, into: &mut PositionSet, state: usize) -> Result<(), SubsetFault>
        requires steps { AreSteps self }
        requires room { IsRoomFor self.nfa.now into.old }
        requires found { IsFound self.nfa.now self.least.now found.old }
        requires state { state < length found.old.keys }
        requires next { length found.old.entries.items ≡ found.old.starts + state * length self.least.now }
        ensures room { IsRoomFor self.entry.nfa.now into.new }
        ensures found { OnOk result (IsFound self.entry.nfa.now self.entry.least.now found.new) }
        ensures more { OnOk result (length found.new.entries.items
            ≡ length found.old.entries.items + length self.entry.least.now) }
        ensures longer { OnOk result (length found.old.keys ≤ length found.new.keys) }
        ensures starts { found.new.starts ≡ found.old.starts }
        ensures limit { found.new.limit ≡ found.old.limit }
        ensures past { IsErrOf result SubsetFault.TooManyStates →
            IsPast self.entry.nfa.now found.old.starts self.entry.least.now found.old.limit }
    {
        let from = found.keys.members(found.alloc, state)?;
        for byte in self.least {
            self.lead(found, into, &from, *byte)?;
        }
        Ok(())
    }

    /// Adds the set of the positions that may come after some ascending ones once the byte is read.
    fn lead(
        self,
        found: &mut Found,
        into: &mut PositionSet,
        from: &Members,
        byte: u8,
    ) -> Result<(), SubsetFault>
        requires steps { AreSteps self }
        requires from { All (λ p. p < length self.nfa.now.positions) (listed from.now) }
        requires rising { AllPairs (λ p q. p < q) (listed from.now) }
        requires room { IsRoomFor self.nfa.now into.old }
        requires kept { AreKept (length self.nfa.now.positions) found.old.limit found.old.keys }
        ensures room { IsRoomFor self.entry.nfa.now into.new }
        ensures led { OnOk result (IsLed self.entry.nfa.now (listed from.now) byte found.old found.new) }
        ensures kept { OnOk result
            (AreKept (length self.entry.nfa.now.positions) found.new.limit found.new.keys) }
        ensures starts { found.new.starts ≡ found.old.starts }
        ensures limit { found.new.limit ≡ found.old.limit }
        ensures full { IsErrOf result SubsetFault.TooManyStates
            → IsLedPast self.entry.nfa.now (listed from.now) byte found.old.limit found.old.keys }
    {
        let Some(last) = last_reader(self.nfa, from, byte, self.unread) else {
            return found.enter_none();
        };
        if let Some(span) = span_after(self.nfa, self.firsts, from, byte, last) {
            return found.enter_span(span);
        }
        from.step(found.alloc, self.nfa, byte, into)?;
        found.enter(into)
    }
}
