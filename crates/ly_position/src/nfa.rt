ghost use Rattle.std.specs.Prelude.{◌≡◌, ℕ, ◌<◌, ◌↔◌, [], length, slice_get, Some, All, Contains, IfOk, IsTrue};
ghost use Rattle.std.specs.Prelude.{MatchBool};
ghost use Rattle.ly_position.specs.Private.Targets.{StepsTo, SameRoom, target_after};
ghost use Rattle.ly_position.specs.Private.Chain.{BeginsAt, GoesOnAt, IsBefore, next_of};
ghost use Rattle.ly_position.specs.Target.{GoOnWithin};

use crate::set::PositionSet;
use crate::shared_lists::SharedLists;
use ly_base::{ByteSet, RuleNo};
use std::alloc::{AllocError, Global};
use std::marker::Model;

/// A position of an expanded pattern.
#[derive(Clone, Copy, Debug, PartialEq, Eq)]
pub enum Position {
    /// It reads one byte of the set.
    Reads {
        /// The bytes.
        bytes: ByteSet,
    },
    /// The pattern of the rule ends here.
    Ends(RuleNo),
}

/// A successor in a run.
#[derive(Clone, Copy)]
pub enum Target {
    /// The position with this number.
    Position(u32),
    /// Both sides of the fork with this number.
    Fork(u32),
}

/// A fork: a run continues at either side.
#[derive(Clone, Copy)]
pub struct Fork {
    /// The target of the first side.
    pub first: Target,
    /// The target of the second side.
    pub second: Target,
}

/// A position as it is stored.
#[derive(Clone, Copy)]
pub enum Slot {
    /// It reads one byte of the set, and then the run continues.
    Reads {
        /// The bytes.
        bytes: ByteSet,
        /// The successor.
        next: Target,
    },
    /// The pattern of the rule ends here.
    Ends(RuleNo),
}

/// The positions of all rules, with those that may come first and after each (McNaughton and Yamada 1960). Positions
/// share the forks that lead to their successors, so the size is linear in the expanded patterns.
#[derive(Drop)]
pub struct PosNfa {
    /// The positions.
    slots: Vec<Slot>,
    /// The forks.
    forks: Vec<Fork>,
    /// For each condition the positions that may come first, in two lists: within a line, and at the start of a line.
    starts: SharedLists,
}

impl Model for PosNfa {
    ghost use Rattle.ly_position.specs.Nfa.{Nfa};

    ghost Value = { Nfa };

    ghost use Rattle.ly_position.specs.Position.{nfa_of};
    ghost use Rattle.ly_position.specs.Target.{TargetsExist};

    ghost view = { λ n. nfa_of n.slots.items n.forks.items n.starts };

    ghost invariant = { λ n. TargetsExist n.slots.items n.forks.items n.starts };
}

impl PosNfa {
    ghost use Rattle.ly_position.specs.Nfa.{BeginsChain, GoesOnChain, ReadsByte, Stepped, IsRoomFor};
    ghost use Rattle.ly_position.specs.Nfa.{follow_of, position_of, starts_of};
    ghost use Rattle.ly_position.specs.Position.{nfa_of, position_from};
    ghost use Rattle.ly_position.specs.Target.{TargetsExist};

    /// Makes the automaton of these positions, forks and start lists.
    pub(crate) fn of(slots: Vec<Slot>, forks: Vec<Fork>, starts: SharedLists) -> Self
        requires { TargetsExist slots.items forks.items starts }
        ensures { result ≡ nfa_of slots.items forks.items starts }
    {
        PosNfa {
            slots,
            forks,
            starts,
        }
    }

    /// The number of positions.
    pub fn len(&self) -> usize
        ensures { result ≡ length self.now.positions }
    {
        self.slots.len()
    }

    /// Whether there is no position.
    pub fn is_empty(&self) -> bool
        ensures { IsTrue result ↔ (length self.now.positions ≡ 0) }
    {
        self.slots.is_empty()
    }

    /// The position with this number.
    pub fn position(&self, number: u32) -> Position
        requires { number < length self.now.positions }
        ensures { slice_get self.now.positions number ≡ Some (position_from result
            (follow_of (position_of self.now number))) }
    {
        match self.slots[number as usize] {
            Slot::Reads { bytes, .. } => Position::Reads { bytes },
            Slot::Ends(rule) => Position::Ends(rule),
        }
    }

    /// Whether a position reads the byte.
    pub fn reads(&self, number: u32, byte: u8) -> bool
        requires { number < length self.now.positions }
        ensures { MatchBool result (ReadsByte self.now number byte) (ReadsByte self.now number byte → ⊥) }
    {
        match &self.slots[number as usize] {
            Slot::Reads { bytes, .. } => bytes.contains(byte),
            Slot::Ends(_) => false,
        }
    }

    /// Whether exactly the position before this one may come after it. It may return false if this holds.
    pub fn begins_chain(&self, number: u32) -> bool
        requires { number < length self.now.positions }
        ensures { IsTrue result → BeginsChain self.now number }
    {
        begins_chain(&self.slots, number)
    }

    /// Whether exactly the position before this one, and what may come after that one, may come after it. It may return
    /// false if this holds.
    pub fn goes_on_chain(&self, number: u32) -> bool
        requires { number < length self.now.positions }
        ensures { IsTrue result → GoesOnChain self.now number }
    {
        goes_on_chain(&self.slots, &self.forks, number)
    }

    /// The positions that may come first in a condition, at the start of a line or elsewhere, each once. Empty if there
    /// is no such condition.
    pub fn start(&self, condition: u32, at_line_start: bool) -> &[u32]
        ensures these { result.now ≡ starts_of self.now condition at_line_start }
        ensures within { All (λ q. q < length self.now.positions) result.now }
    {
        let key = 2 * condition as usize + usize::from(at_line_start);
        if key < self.starts.len() {
            self.starts.list(key)
        } else {
            &[]
        }
    }

    /// Returns an empty set for the positions of this automaton. Fails if memory runs out.
    pub fn set(&self, alloc: Global) -> Result<PositionSet, AllocError>
        ensures room { IfOk result (IsRoomFor self.now) }
        ensures none { IfOk result (λ s. s.positions.members ≡ []) }
    {
        PositionSet::new(alloc, self.slots.len(), self.forks.len())
    }

    /// Sets `into` to the positions that may come after those in `from`, once the byte is read. Allocates nothing, and
    /// visits each fork once.
    pub fn step(&self, from: &[u32], byte: u8, into: &mut PositionSet)
        requires from { All (λ p. p < length self.now.positions) from.now }
        requires into { IsRoomFor self.now into.old }
        ensures members { (q : ℕ) → Contains into.new.positions.members q
            ↔ Stepped self.now from.now byte q }
        ensures into { IsRoomFor self.now into.new }
    {
        step(&self.slots, &self.forks, from, byte, into);
    }
}

/// Sets `into` to the successors of the positions in `from`, once the byte is read.
fn step(slots: &[Slot], forks: &[Fork], from: &[u32], byte: u8, into: &mut PositionSet)
    requires within { GoOnWithin slots.now forks.now }
    requires from { All (λ p. p < length slots.now) from.now }
    requires into { (into.old.positions.below ≡ length slots.now) × (into.old.forks.below ≡ length forks.now) }
    ensures room { SameRoom into.old into.new }
    ensures members { (q : ℕ) → Contains into.new.positions.members q
        ↔ StepsTo slots.now forks.now from.now byte q }
{
    into.clear();
    for number in from {
        if let Some(next) = target_after(&slots[*number as usize], byte) {
            into.put(next);
        }
    }
    into.follow(forks);
}

/// The successor of a position, if it reads the byte.
fn target_after(slot: &Slot, byte: u8) -> Option<Target>
    ensures { result ≡ target_after byte slot.now }
{
    match slot {
        Slot::Reads { bytes, next } if bytes.contains(byte) => Some(*next),
        _ => None,
    }
}

/// Whether the successor of a position is the position before it.
fn begins_chain(slots: &[Slot], number: u32) -> bool
    requires { number < length slots.now }
    ensures { IsTrue result → BeginsAt slots.now number }
{
    match next_of(&slots[number as usize]) {
        Some(next) => is_before(next, number),
        None => false,
    }
}

/// Whether the successor of a position is a fork whose sides are the position before it and that one's successor.
fn goes_on_chain(slots: &[Slot], forks: &[Fork], number: u32) -> bool
    requires within { GoOnWithin slots.now forks.now }
    requires number { number < length slots.now }
    ensures { IsTrue result → GoesOnAt slots.now forks.now number }
{
    if number == 0 {
        return false;
    }
    let lower = next_of(&slots[number as usize - 1]);
    match (next_of(&slots[number as usize]), lower) {
        (Some(Target::Fork(fork)), Some(next)) => is_chained(forks[fork as usize], number, next),
        _ => false,
    }
}

/// Whether the sides of a fork are the position before this one and the target `next`.
fn is_chained(fork: Fork, number: u32, next: Target) -> bool
    ensures { IsTrue result → IsBefore fork.first number × (fork.second ≡ next) }
{
    is_before(fork.first, number) && is_same(fork.second, next)
}

/// The successor of a position, if it has one.
fn next_of(slot: &Slot) -> Option<Target>
    ensures { result ≡ next_of slot.now }
{
    match slot {
        Slot::Reads { next, .. } => Some(*next),
        Slot::Ends(_) => None,
    }
}

/// Whether a target is the position before this one.
fn is_before(target: Target, number: u32) -> bool
    ensures { IsTrue result → IsBefore target number }
{
    match target {
        Target::Position(before) => number > 0 && before == number - 1,
        Target::Fork(_) => false,
    }
}

/// Whether two targets are equal.
fn is_same(one: Target, other: Target) -> bool
    ensures { IsTrue result → one ≡ other }
{
    match (one, other) {
        (Target::Position(one), Target::Position(other)) => one == other,
        (Target::Fork(one), Target::Fork(other)) => one == other,
        _ => false,
    }
}
