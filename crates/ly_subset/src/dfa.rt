ghost use Rattle.std.specs.Prelude.{◌≡◌, ◌<◌, ◌≤◌, ◌+◌, ◌*◌, ◌↔◌, length, map, slice_get, Some, IfSome, IsTrue};
ghost use Rattle.std.specs.Prelude.{option_map};

use ly_base::{Entry, RuleNo};
use std::marker::Model;

/// A deterministic automaton over classes of bytes. A step looks up the class of the byte and one entry.
#[derive(Drop)]
pub struct Dfa {
    /// The class of each byte.
    pub(crate) class_of: Vec<u8>,
    /// The number of classes.
    pub(crate) classes: usize,
    /// The accepted rule of each state, if it has one.
    pub(crate) rules: Vec<Option<RuleNo>>,
    /// The number of entries that are starts: two for each condition.
    pub(crate) starts: usize,
    /// The starts, followed by a row of all classes for each state.
    pub(crate) entries: Vec<Entry>,
}

impl Model for Dfa {
    ghost use Rattle.ly_subset.specs.Automaton.{Automaton};

    ghost Value = { Automaton };

    ghost use Rattle.ly_subset.specs.Automaton.{IsAutomaton};
    ghost use Rattle.ly_subset.specs.Dfa.{automaton_of};

    ghost view = { automaton_of };

    ghost invariant = { λ d. IsAutomaton (automaton_of d) };
}

impl Dfa {
    ghost use Rattle.ly_subset.specs.Automaton.{IsAutomaton, entry_at, next_by_class, next_of, rule_of, start_of};
    ghost use Rattle.ly_subset.specs.Dfa.{with_states};

    /// The number of states.
    pub fn len(&self) -> usize
        ensures count { result ≡ length self.now.rules }
        ensures whole { IsAutomaton self.now }
    {
        self.rules.len()
    }

    /// Whether there is no state.
    pub fn is_empty(&self) -> bool
        ensures { IsTrue result ↔ (length self.now.rules ≡ 0) }
    {
        self.rules.is_empty()
    }

    /// The number of classes of bytes.
    pub fn classes(&self) -> usize
        ensures { result ≡ self.now.classes }
    {
        self.classes
    }

    /// The class of a byte.
    pub fn class(&self, byte: u8) -> u8
        ensures class { slice_get self.now.class_of byte ≡ Some result }
        ensures within { result < self.now.classes }
    {
        self.class_of[usize::from(byte)]
    }

    /// The number of starts: two for each condition.
    pub fn starts(&self) -> usize
        ensures count { result ≡ self.now.starts }
        ensures within { result ≤ length self.now.entries }
    {
        self.starts
    }

    /// The start state of a condition, at the start of a line or elsewhere, if it has one.
    pub fn start(&self, condition: u32, at_line_start: bool) -> Option<u32>
        ensures state { result ≡ start_of self.now condition at_line_start }
        ensures within { IfSome result (λ s. s < length self.now.rules) }
    {
        let place = 2 * condition as usize + usize::from(at_line_start);
        if place < self.starts {
            self.entries[place].state()
        } else {
            None
        }
    }

    /// The target of a state by a class of bytes, if there is one.
    pub fn next(&self, state: u32, class: usize) -> Option<u32>
        requires state { state < length self.now.rules }
        requires class { class < self.now.classes }
        ensures state { result ≡ next_by_class self.now state class }
        ensures within { IfSome result (λ s. s < length self.now.rules) }
    {
        self.entries[self.starts + (state as usize * self.classes + class)].state()
    }

    /// The target of a state by a byte, if there is one.
    pub fn step(&self, state: u32, byte: u8) -> Option<u32>
        requires { state < length self.now.rules }
        ensures state { result ≡ next_of self.now (Some state) byte }
        ensures within { IfSome result (λ s. s < length self.now.rules) }
    {
        self.next(state, usize::from(self.class(byte)))
    }

    /// The rule that a state accepts, if there is one.
    pub fn rule(&self, state: u32) -> Option<RuleNo>
        requires { state < length self.now.rules }
        ensures { option_map (λ r. r.0) result ≡ rule_of self.now (Some state) }
    {
        self.rules[state as usize]
    }

    /// The entry at an index: the starts, two for each condition, followed by the rows of the states.
    pub fn entry(&self, index: usize) -> Option<u32>
        requires { index < length self.now.entries }
        ensures state { result ≡ entry_at self.now.entries index }
        ensures within { IfSome result (λ s. s < length self.now.rules) }
    {
        self.entries[index].state()
    }

    /// Returns an automaton with the same classes and number of starts, but other states.
    pub fn with_states(self, rules: Vec<Option<RuleNo>>, entries: Vec<Entry>) -> Dfa
        requires { IsAutomaton (with_states self rules.items entries.items) }
        ensures { result ≡ with_states self rules.items entries.items }
    {
        Dfa {
            class_of: self.class_of,
            classes: self.classes,
            rules,
            starts: self.starts,
            entries,
        }
    }
}
