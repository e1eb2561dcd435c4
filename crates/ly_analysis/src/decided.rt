//! Which precedences have an effect: those of a shift and a reduction that meet in a state, if both have one.
ghost use Rattle.std.specs.Prelude.{◌≡◌, ◌<◌, ◌↔◌, IfSome, IsTrue, Some, length, slice_get, true};
ghost use Rattle.ly_lookahead.specs.Lookaheads.{AreLookaheads, HasSet};
ghost use Rattle.ly_resolve.specs.Precedence.{rule_precedence, token_precedence};

use crate::bodies::body_of;
use ly_base::{OutOfMemory, StateNo, Sym};
use ly_join::{Associativity, Precedence, Spec, Symbol};
use ly_lookahead::Lookaheads;
use ly_lr0::{Item, Lr0};
use ly_resolve::Resolved;
use std::alloc::Global;

/// The precedences that have an effect.
#[derive(Drop)]
pub struct Decided {
    /// For each terminal whether its precedence meets that of a rule.
    terminals: Vec<bool>,
    /// For each rule whether its `%prec` settles some shift in another way than the last terminal of its body would.
    rules: Vec<bool>,
    /// For each precedence declaration whether a rule with its precedence has an effect.
    levels: Vec<bool>,
}

impl Decided {
    /// Computes which precedences of a specification have an effect.
    pub fn of(
        alloc: Global,
        resolved: &Resolved<'_>,
        sets: &Lookaheads,
    ) -> Result<Decided, OutOfMemory>
        requires { AreLookaheads resolved.now.automaton sets.now }
    {
        let (lr0, spec) = (resolved.lr0(), resolved.spec());
        let mut decided = Decided {
            terminals: vec![in alloc; false; spec.precedences().len()]?,
            rules: vec![in alloc; false; spec.notes().len()]?,
            levels: vec![in alloc; false; levels_of(spec)]?,
        };
        decided.mark_all(spec, lr0, sets);
        Ok(decided)
    }

    /// Marks the meetings in all states.
    fn mark_all(&mut self, spec: &Spec, lr0: &Lr0<'_>, sets: &Lookaheads)
        requires { AreLookaheads lr0.now sets.now }
    {
        for state in 0..lr0.states() {
            self.mark_state(spec, lr0, sets, StateNo(state as u32));
        }
    }

    /// Whether the precedence of a terminal has an effect, or that of a rule which has it from the same declaration.
    pub fn by_terminal(&self, spec: &Spec, terminal: Sym) -> bool {
        let number = terminal.0 as usize;
        if is_marked(&self.terminals, number) {
            return true;
        }
        match spec.precedences().get(number) {
            Some(Some(ranked)) => is_marked(&self.levels, ranked.level),
            _ => false,
        }
    }

    /// Whether the `%prec` of a rule has an effect.
    pub fn by_rule(&self, rule: usize) -> bool {
        is_marked(&self.rules, rule)
    }

    /// Marks the meetings in a state.
    fn mark_state(&mut self, spec: &Spec, lr0: &Lr0<'_>, sets: &Lookaheads, state: StateNo)
        requires state { state.0 < length lr0.now.states }
        requires sets { AreLookaheads lr0.now sets.now }
    {
        for rule in lr0.complete(state) {
            let dot = body_of(spec.grammar(), *rule).len();
            let item = Item { rule: *rule, dot };
            if let Some(place) = place_of(lr0, sets, state, item) {
                for transition in lr0.shifts(state) {
                    if let Symbol::Terminal(terminal) = transition.symbol {
                        if sets.contains(state, place, terminal) {
                            self.mark_meeting(spec, terminal, *rule);
                        }
                    }
                }
            }
        }
    }

    /// Marks the effect of the precedences of a terminal and a rule that meet.
    fn mark_meeting(&mut self, spec: &Spec, terminal: Sym, rule: usize) {
        let Some(of_terminal) = rank_of(spec, terminal) else {
            return;
        };
        let of_rule = precedence_of(spec, rule);
        if let Some(ranked) = of_rule {
            mark(&mut self.terminals, terminal.0 as usize);
            mark(&mut self.levels, ranked.level);
        }
        if outcome(of_rule, of_terminal) != outcome(last_rank(spec, rule), of_terminal) {
            mark(&mut self.rules, rule);
        }
    }
}

/// How a shift/reduce conflict is settled.
#[derive(Clone, Copy, PartialEq, Eq)]
enum Settled {
    /// It isn't.
    Not,
    /// By the shift.
    Shift,
    /// By the reduction.
    Reduce,
    /// By an error.
    Error,
}

/// How the shift of a terminal with a precedence is settled against a reduction.
fn outcome(rule: Option<Precedence>, terminal: Precedence) -> Settled {
    let Some(rule) = rule else {
        return Settled::Not;
    };
    if rule.level > terminal.level {
        return Settled::Reduce;
    }
    if rule.level < terminal.level {
        return Settled::Shift;
    }
    match terminal.associativity {
        Associativity::Left => Settled::Reduce,
        Associativity::Right => Settled::Shift,
        Associativity::Nonassociative => Settled::Error,
    }
}

/// The precedence of a terminal, if it has one.
pub fn rank_of(spec: &Spec, terminal: Sym) -> Option<Precedence>
    ensures { result ≡ token_precedence spec.now terminal.0 }
{
    match spec.precedences().get(terminal.0 as usize) {
        Some(precedence) => *precedence,
        None => None,
    }
}

/// The precedence that a rule has without its `%prec`: that of its last terminal, if this has one.
fn last_rank(spec: &Spec, rule: usize) -> Option<Precedence> {
    rank_of(spec, last_terminal(spec, rule)?)
}

/// The last terminal in the body of a rule, if it has one.
pub fn last_terminal(spec: &Spec, rule: usize) -> Option<Sym> {
    for symbol in body_of(spec.grammar(), rule).iter().rev() {
        if let Symbol::Terminal(terminal) = symbol {
            return Some(*terminal);
        }
    }
    None
}

/// The precedence of a rule, if it has one.
pub fn precedence_of(spec: &Spec, rule: usize) -> Option<Precedence>
    ensures { result ≡ rule_precedence spec.now rule }
{
    match spec.notes().get(rule) {
        Some(note) => note.precedence,
        None => None,
    }
}

/// The number of precedence declarations of a specification.
fn levels_of(spec: &Spec) -> usize {
    let mut levels = 0;
    for ranked in spec.precedences() {
        if let Some(ranked) = ranked {
            levels = ranked.level.saturating_add(1).max(levels);
        }
    }
    levels
}

/// Whether a number is marked.
pub fn is_marked(marks: &[bool], number: usize) -> bool
    ensures { IsTrue result ↔ (slice_get marks.now number ≡ Some true) }
{
    marks.get(number) == Some(&true)
}

/// Marks a number. A number outside the list is ignored.
fn mark(marks: &mut Vec<bool>, number: usize) {
    if let Some(place) = marks.get_mut(number) {
        *place = true;
    }
}

/// The index of an item with its dot at the end among the complete rules of a state.
pub fn place_of(lr0: &Lr0<'_>, lookaheads: &Lookaheads, state: StateNo, item: Item) -> Option<usize>
    requires state { state.0 < length lr0.now.states }
    requires sets { AreLookaheads lr0.now lookaheads.now }
    ensures { IfSome result (λ place. HasSet lookaheads.now state.0 place) }
{
    if body_of(lr0.reduced().grammar(), item.rule).len() != item.dot {
        return None;
    }
    let complete = lr0.complete(state);
    // The rules ascend, so the first one found by the search is the rule, however many there are.
    let first = complete.binary_search(&item.rule).ok()?;
    for place in first..complete.len() {
        if complete[place] == item.rule {
            return Some(place);
        }
    }
    None
}
