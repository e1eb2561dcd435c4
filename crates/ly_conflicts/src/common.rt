//! The properties that the conflicts of a group share.
ghost use Rattle.std.specs.Prelude.{◌≡◌, ◌++◌, [], ◌∷◌, Contains, MatchOption, OnOk, Some, slice_get};
ghost use Rattle.ly_conflicts.specs.Groups.{answer_from};
ghost use Rattle.ly_conflicts.specs.Private.Keys.{choice_from, common_from, key_from};

use indexmap::IndexSet;
use ly_counterexamples::Example;
use ly_resolve::{Action, Conflict, ConflictKind};
use std::alloc::{AllocError, Global};
use std::marker::Model;

/// The resolution of a conflict.
#[derive(Clone, Copy, PartialEq, Eq, Hash)]
pub(crate) enum Choice {
    /// The shift.
    Shift,
    /// A reduction by a rule.
    Reduction(usize),
    /// Neither: the terminal is a syntax error.
    Refusal,
}

/// The properties shared by conflicts that differ only in the terminal.
#[derive(Clone, Copy, PartialEq, Eq, Hash)]
pub(crate) struct Common {
    /// The state.
    pub(crate) state: u32,
    /// The rule.
    pub(crate) rule: usize,
    /// The resolution.
    pub(crate) choice: Choice,
    /// Whether the alternative to the rule is a shift.
    pub(crate) is_shift: bool,
}

/// The result of a search for a counterexample.
#[derive(Clone, Copy, PartialEq, Eq, Hash)]
pub(crate) enum ExampleKind {
    /// There is one.
    At,
    /// There is none: merging states makes the conflict.
    Merged,
    /// The search gave up.
    Unknown,
}

/// The key of a group of conflicts.
#[derive(Clone, Copy, PartialEq, Eq, Hash)]
pub(crate) struct Key {
    /// The shared properties.
    pub(crate) common: Common,
    /// The result of the search for a counterexample. `None` for shift/reduce conflicts: these always have one, whether
    /// it was found or not.
    pub(crate) answer: Option<ExampleKind>,
}

impl Common {
    /// The properties that a conflict shares with those that differ from it only in the terminal.
    pub(crate) fn of(conflict: &Conflict) -> Common
        ensures { result ≡ common_from conflict.now }
    {
        Common {
            state: conflict.state.0,
            rule: conflict.rule.0 as usize,
            choice: choice_of(conflict.choice),
            is_shift: matches!(conflict.kind, ConflictKind::ShiftReduce),
        }
    }
}

impl Key {
    /// The key of a conflict's group, given the result of the search for its counterexample.
    pub(crate) fn of(conflict: &Conflict, example: &Option<Example>) -> Key
        ensures { result ≡ key_from conflict.now example.now }
    {
        Key {
            common: Common::of(conflict),
            answer: match conflict.kind {
                ConflictKind::ShiftReduce => None,
                ConflictKind::ReduceReduce => answer_of(example),
            },
        }
    }
}

/// The resolution that an action represents.
fn choice_of(action: Action) -> Choice
    ensures { result ≡ choice_from action }
{
    match action {
        Action::Shift => Choice::Shift,
        Action::Reduce(rule) => Choice::Reduction(rule.0 as usize),
        Action::Error => Choice::Refusal,
    }
}

/// The result of a search for a counterexample, as part of a key.
fn answer_of(example: &Option<Example>) -> Option<ExampleKind>
    ensures { result ≡ answer_from example.now }
{
    match example {
        Some(Example::At(_)) => Some(ExampleKind::At),
        Some(Example::Merged) => Some(ExampleKind::Merged),
        Some(Example::Unknown) => Some(ExampleKind::Unknown),
        None => None,
    }
}

/// The keys of the groups, in the order of the groups.
#[derive(Drop)]
pub(crate) struct Keys {
    /// The keys, each once.
    keys: IndexSet<Key>,
}

impl Model for Keys {
    ghost use Rattle.std.specs.Prelude.{List};
    ghost use Rattle.ly_conflicts.specs.declared.common.Key as key;

    ghost Value = { List key.Key };

    ghost view = { λ k. k.keys.keys };
}

impl Keys {
    /// Returns no keys.
    pub(crate) fn new(alloc: Global) -> Keys
        ensures { result ≡ [] }
    {
        Keys {
            keys: IndexSet::new(alloc),
        }
    }

    /// The index of a key, if it exists.
    pub(crate) fn find(&self, key: Key) -> Option<usize>
        ensures { MatchOption result (Contains self.now key → ⊥) (λ place. slice_get self.now place ≡ Some key) }
    {
        self.keys.get_index_of(&key)
    }

    /// Adds a new key.
    pub(crate) fn push(&mut self, key: Key) -> Result<(), AllocError>
        requires { Contains self.old key → ⊥ }
        ensures { OnOk result (self.new ≡ self.old ++ key ∷ []) }
    {
        self.keys.insert(key)?;
        Ok(())
    }
}
