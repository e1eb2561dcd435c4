//! Stacks of states that share their lower parts.
ghost use Rattle.std.specs.Prelude.{◌≡◌, ◌<◌, ◌+◌, [], ◌∷◌, IfOk, MatchOption, OnOk, drop, length};
ghost use Rattle.ly_repair.specs.Private.Stacks.{raised, stack_of, top_in, IsBelow, IsGrown, IsLevelAt};

use indexmap::IndexSet;
use ly_base::{OutOfMemory, StateNo};
use std::alloc::Global;
use std::marker::Model;

/// The number of a stack among `Stacks`.
#[derive(Clone, Copy, Debug, PartialEq, Eq, Hash)]
pub(crate) struct StackNo(pub(crate) u32);

/// The bottom alone. Its state is 0.
pub(crate) const BOTTOM: StackNo = StackNo(0);

/// A stack that isn't the bottom alone.
#[derive(Clone, Copy, Debug, PartialEq, Eq, Hash)]
struct Level {
    /// The state on top.
    state: StateNo,
    /// The stack below it.
    below: StackNo,
}

/// Stacks of states, each once. Number 0 is the bottom alone.
#[derive(Drop)]
pub(crate) struct Stacks {
    /// The other stacks: that with number `n` is at index `n - 1`, after the one below it.
    levels: IndexSet<Level>,
}

impl Model for Stacks {
    ghost use Rattle.std.specs.Prelude.{List, ℕ};

    ghost Value = { List (List ℕ) };

    ghost use Rattle.ly_repair.specs.Private.Stacks.{stacks_from, AreRaised};

    ghost view = { λ s. stacks_from s.levels.keys };

    ghost invariant = { λ s. AreRaised s.levels.keys };
}

impl Stacks {
    /// The bottom alone.
    pub(crate) fn new(alloc: Global) -> Stacks
        ensures { result ≡ (0 ∷ []) ∷ [] }
    {
        Stacks {
            levels: IndexSet::new(alloc),
        }
    }

    /// The state on top of a stack.
    pub(crate) fn top(&self, at: StackNo) -> StateNo
        requires { at.0 < length self.now }
        ensures top { result.0 ≡ top_in (stack_of self.now at.0) }
        ensures some { 0 < length (stack_of self.now at.0) }
    {
        match self.level(at) {
            Some(level) => level.state,
            None => StateNo(0),
        }
    }

    /// A stack without its top. None for the bottom alone.
    pub(crate) fn below(&self, at: StackNo) -> Option<StackNo>
        requires { at.0 < length self.now }
        ensures { MatchOption result (length (stack_of self.now at.0) ≡ 1) (IsBelow self.now at.0) }
    {
        match self.level(at) {
            Some(level) => Some(level.below),
            None => None,
        }
    }

    /// A stack without this many states. None if the bottom would be popped too.
    pub(crate) fn without(&self, at: StackNo, count: usize) -> Option<StackNo>
        requires { at.0 < length self.now }
        ensures { MatchOption result (drop count (stack_of self.now at.0) ≡ [])
            (λ left. (left.0 < length self.now) × (stack_of self.now left.0 ≡ drop count (stack_of self.now at.0))) }
    {
        let mut at = at;
        for _ in 0..count {
            match self.below(at) {
                Some(below) => at = below,
                None => return None,
            }
        }
        Some(at)
    }

    /// The stack with a state on top of another stack. It fails if an allocation fails, or if there are more stacks
    /// than numbers.
    pub(crate) fn push(&mut self, below: StackNo, state: StateNo) -> Result<StackNo, OutOfMemory>
        requires { below.0 < length self.old }
        ensures grown { OnOk result (IsGrown self.old self.new) }
        ensures within { IfOk result (λ at. at.0 < length self.new) }
        ensures pushed { IfOk result (λ at. stack_of self.new at.0 ≡ state.0 ∷ stack_of self.old below.0) }
    {
        let index = self.add(Level { state, below })?;
        number(index)
    }

    /// Adds a level, unless it is there. Returns its index.
    fn add(&mut self, level: Level) -> Result<usize, OutOfMemory>
        requires { level.below.0 < length self.old }
        ensures grown { OnOk result (IsGrown self.old self.new) }
        ensures within { IfOk result (λ index. index + 1 < length self.new) }
        ensures added { IfOk result (λ index. stack_of self.new (index + 1) ≡ raised self.old level) }
    {
        let (index, _) = self.levels.insert_full(level)?;
        Ok(index)
    }

    /// What a stack consists of. None for the bottom alone.
    fn level(&self, at: StackNo) -> Option<Level>
        requires { at.0 < length self.now }
        ensures { MatchOption result (stack_of self.now at.0 ≡ 0 ∷ []) (IsLevelAt self.now at.0) }
    {
        match at.0.checked_sub(1) {
            Some(index) => self.levels.get_index(index as usize).copied(),
            None => None,
        }
    }
}

/// The number of the stack of the level at an index. It fails if there are more stacks than numbers.
fn number(index: usize) -> Result<StackNo, OutOfMemory>
    ensures { IfOk result (λ at. at.0 ≡ index + 1) }
{
    match u32::try_from(index) {
        Ok(index) if index < u32::MAX => Ok(StackNo(index + 1)),
        _ => Err(OutOfMemory),
    }
}
