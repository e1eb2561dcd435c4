ghost use Rattle.std.specs.Prelude.{◌≡◌, ◌↔◌, ◌<◌, ◌≤◌, ℕ, List, Contains, IfOk, IfSome, Some, length, map, reverse};
ghost use Rattle.std.specs.Prelude.{slice_get, true};
ghost use Rattle.ly_base.specs.declared.numbers.StateNo as state_numbers;
ghost use Rattle.ly_join.specs.Grammar.{IsRule, GrammarRule, nonterminal, symbol_of, Symbol as GrammarSymbol};
ghost use Rattle.ly_lr0.specs.Automaton.{goto_of};
ghost use Rattle.ly_lr0.specs.declared.item.Item as items;
ghost use Rattle.ly_resolve.specs.Actions.{reduce};
ghost use Rattle.ly_resolve.specs.Resolved.{AreResolved};
ghost use Rattle.ly_resolve.specs.Values.{action_from, conflict_from, IsInside, kind_from};
ghost use Rattle.ly_counterexamples.specs.Demands.{IsAhead};
ghost use Rattle.ly_counterexamples.specs.Examples.{HasNoExample, IsSearchResult, IsPlaceOf, rival};
ghost use Rattle.ly_counterexamples.specs.Openings.{Opens};
ghost use Rattle.ly_counterexamples.specs.Private.Kept.{IsKeptDemand};
ghost use Rattle.ly_counterexamples.specs.Private.Met.{IsMet, IsProper};
ghost use Rattle.ly_counterexamples.specs.Private.Opening.{ClaimsRival};

use crate::budget::Budget;
use crate::claim::{Claim, Demand};
use crate::ground::{Ground, ground_of};
use crate::halt::Halt;
use crate::search::{Sought, shortest};
use ly_base::{OutOfMemory, RuleNo, StateNo, Sym};
use ly_join::{Spec, Symbol};
use ly_lr0::Item;
use ly_resolve::{Action, Conflict, ConflictKind, Resolved};
use std::alloc::Global;
use std::marker::Model;

/// Whether a string exists at which both actions of a conflict are possible.
#[derive(Debug, Drop)]
pub enum Example {
    /// They are possible at this string of symbols. Its first symbol comes first.
    At(Vec<Symbol>),
    /// No string exists: the conflict comes from merging alone.
    Merged,
    /// Unknown: the search found more demands than were allowed.
    Unknown,
}

/// Searches for counterexamples of the conflicts of a grammar.
#[derive(Drop)]
pub struct Examples<'a> {
    /// The conflicts.
    resolved: &'a Resolved<'a>,
    /// Their automaton with its backward edges.
    ground: Ground<'a>,
}

impl<'a> Model for Examples<'a> {
    ghost use Rattle.std.specs.Prelude.{◌≡◌};
    ghost use Rattle.ly_resolve.specs.Resolved as value;
    ghost use Rattle.ly_counterexamples.specs.Private.Lists.{IsGround};

    ghost Value = { value.Resolved };

    ghost view = { λ e. e.resolved.now };

    ghost invariant = { λ e. IsGround e.ground × (e.ground.lr0.now ≡ e.resolved.now.automaton) };
}

impl<'a> Examples<'a> {
    /// Prepares searches for counterexamples of these conflicts.
    ///
    /// Returns `OutOfMemory` if an allocation fails.
    pub fn new(alloc: Global, resolved: &'a Resolved<'a>) -> Result<Examples<'a>, OutOfMemory>
        ensures { IfOk result (λ e. e ≡ resolved.now) }
    {
        let ground = ground_of(alloc, resolved.lr0())?;
        Ok(Examples { resolved, ground })
    }

    /// The conflicts.
    pub fn resolved(&self) -> &'a Resolved<'a>
        ensures { result.now ≡ self.now }
    {
        self.resolved
    }

    /// The conflict with an index, if there is one.
    pub fn conflict(&self, index: usize) -> Option<Conflict>
        ensures these { IfSome result (λ c. slice_get self.now.conflicts index
            ≡ Some (conflict_from self.now.automaton c)) }
        ensures inside { IfSome result (λ c. IsInside self.now.automaton c) }
        ensures among { IfSome result (λ c. Contains self.now.conflicts (conflict_from self.now.automaton c)) }
    {
        self.resolved.conflicts().get(index)
    }

    /// The states with transitions to a state.
    pub fn predecessors(&self, state: StateNo) -> &[StateNo]
        requires { state.0 < length self.now.automaton.states }
        ensures { (q : state_numbers.StateNo) → Contains result.now q
            ↔ ((X : GrammarSymbol) × (goto_of self.now.automaton q.0 X ≡ Some state.0)) }
    {
        self.ground.predecessors.of(state.0 as usize)
    }

    /// The items that have a nonterminal after their dot. Only items of rules that are kept count.
    pub fn waiting(&self, left: Sym) -> &[Item]
        requires { left.0 ≤ self.now.automaton.grammar.accept }
        ensures { (i : items.Item) → Contains result.now i
            ↔ ((rest : List GrammarSymbol) × IsAhead self.now.automaton.grammar i (nonterminal left.0) rest) }
    {
        self.ground.waiting.of(left.0 as usize)
    }

    /// Returns true if the search proves that none of the conflicts with these indices has a counterexample. Each
    /// search may find at most this many demands, and none begins once the budget is used up.
    ///
    /// Returns `OutOfMemory` if an allocation fails.
    pub fn none_has_one(
        &self,
        alloc: Global,
        indices: &[usize],
        bound: usize,
        budget: &mut Budget,
    ) -> Result<bool, OutOfMemory>
        ensures { IfOk result (λ none. none ≡ true → (i : ℕ) → Contains indices.now i → HasNoExample self.now i) }
    {
        for index in indices {
            let Some(conflict) = self.conflict(*index) else {
                return Ok(false);
            };
            if budget.is_over() {
                return Ok(false);
            }
            let Example::Merged = self.of(alloc, &conflict, bound, budget)? else {
                return Ok(false);
            };
        }
        Ok(true)
    }

    /// Searches for a counterexample of a conflict over at most this many demands. The work is taken off the budget.
    ///
    /// Returns `OutOfMemory` if an allocation fails.
    pub fn of(
        &self,
        alloc: Global,
        conflict: &Conflict,
        bound: usize,
        budget: &mut Budget,
    ) -> Result<Example, OutOfMemory>
        requires inside { IsInside self.now.automaton conflict.now }
        requires conflict { Contains self.now.conflicts (conflict_from self.now.automaton conflict.now) }
        ensures { IfOk result
            (IsSearchResult self.now.automaton (conflict_from self.now.automaton conflict.now) bound) }
    {
        let demand = self.demand(conflict);
        let sought = Sought {
            ground: &self.ground,
            terminal: conflict.terminal,
            bound,
        };
        match shortest(alloc, &sought, demand, budget) {
            Ok(Some(string)) => Ok(Example::At(string)),
            Ok(None) => Ok(Example::Merged),
            Err(Halt::TooMany) => Ok(Example::Unknown),
            Err(Halt::OutOfMemory) => Err(OutOfMemory),
        }
    }

    /// Searches for a string of symbols at which the rule of a conflict is possible, over at most this many demands.
    /// Returns `None` if there are more. The work is taken off the budget.
    ///
    /// Returns `OutOfMemory` if an allocation fails.
    pub fn of_rule(
        &self,
        alloc: Global,
        conflict: &Conflict,
        bound: usize,
        budget: &mut Budget,
    ) -> Result<Option<Vec<Symbol>>, OutOfMemory>
        requires inside { IsInside self.now.automaton conflict.now }
        requires conflict { Contains self.now.conflicts (conflict_from self.now.automaton conflict.now) }
        ensures { IfOk result (λ found. IfSome found (λ string. IsPlaceOf self.now.automaton.grammar
            (conflict_from self.now.automaton conflict.now) (reduce conflict.now.rule.0)
            (reverse (map symbol_of string.items)))) }
    {
        let _ground = &self.ground;
        let demand = Demand {
            second: Claim::Settled,
            ..self.demand(conflict)
        };
        self.string_of(alloc, conflict, demand, bound, budget)
    }

    /// Searches for a string of symbols at which the rival of a conflict's rule is possible, over at most this many
    /// demands. Returns `None` if there are more. The work is taken off the budget.
    ///
    /// Returns `OutOfMemory` if an allocation fails.
    pub fn of_choice(
        &self,
        alloc: Global,
        conflict: &Conflict,
        bound: usize,
        budget: &mut Budget,
    ) -> Result<Option<Vec<Symbol>>, OutOfMemory>
        requires inside { IsInside self.now.automaton conflict.now }
        requires conflict { Contains self.now.conflicts (conflict_from self.now.automaton conflict.now) }
        ensures { IfOk result (λ found. IfSome found (λ string. IsPlaceOf self.now.automaton.grammar
            (conflict_from self.now.automaton conflict.now)
            (rival (kind_from conflict.now.kind) (action_from conflict.now.choice))
            (reverse (map symbol_of string.items)))) }
    {
        let _ground = &self.ground;
        let demand = Demand {
            first: Claim::Settled,
            ..self.demand(conflict)
        };
        self.string_of(alloc, conflict, demand, bound, budget)
    }

    /// Searches for a string of symbols that meets a demand before the terminal of a conflict, over at most this many
    /// demands. Returns `None` if there is none or there are more demands.
    fn string_of(
        &self,
        alloc: Global,
        conflict: &Conflict,
        demand: Demand,
        bound: usize,
        budget: &mut Budget,
    ) -> Result<Option<Vec<Symbol>>, OutOfMemory>
        requires inside { IsInside self.now.automaton conflict.now }
        requires kept { IsKeptDemand self.now.automaton demand }
        requires first { IsProper demand.first }
        requires second { IsProper demand.second }
        ensures { IfOk result (λ found. IfSome found (λ string. IsMet self.now.automaton conflict.now.terminal.0
            (reverse (map symbol_of string.items)) demand)) }
    {
        let sought = Sought {
            ground: &self.ground,
            terminal: conflict.terminal,
            bound,
        };
        match shortest(alloc, &sought, demand, budget) {
            Ok(string) => Ok(string),
            Err(Halt::TooMany) => Ok(None),
            Err(Halt::OutOfMemory) => Err(OutOfMemory),
        }
    }

    /// The specification.
    fn spec(&self) -> &'a Spec
        ensures these { result.now ≡ self.now.spec }
        ensures resolved { AreResolved self.now.spec self.now.automaton self.now }
    {
        self.resolved.spec()
    }

    /// The demand that a conflict's counterexamples meet.
    fn demand(&self, conflict: &Conflict) -> Demand
        requires inside { IsInside self.now.automaton conflict.now }
        requires conflict { Contains self.now.conflicts (conflict_from self.now.automaton conflict.now) }
        ensures state { result.state ≡ conflict.now.state }
        ensures opens { Opens self.now.automaton (conflict_from self.now.automaton conflict.now) result }
    {
        let _ground = &self.ground;
        let _spec = self.spec();
        Demand {
            state: conflict.state,
            first: Claim::With(self.whole(conflict.rule)),
            second: self.rival(conflict),
        }
    }

    /// The claim for the rival of a conflict's rule. A shift is possible at every string that leads to the state.
    fn rival(&self, conflict: &Conflict) -> Claim
        requires { Contains self.now.conflicts (conflict_from self.now.automaton conflict.now) }
        ensures { ClaimsRival self.now.automaton (conflict_from self.now.automaton conflict.now) result }
    {
        let _spec = self.spec();
        match (conflict.kind, conflict.choice) {
            (ConflictKind::ReduceReduce, Action::Reduce(rule)) => Claim::With(self.whole(rule)),
            _ => Claim::Settled,
        }
    }

    /// The item of a rule with its dot at the end.
    fn whole(&self, rule: RuleNo) -> Item
        requires { (r : GrammarRule) × IsRule self.now.automaton.grammar rule.0 r }
        ensures rule { result.rule ≡ rule.0 }
        ensures end { (r : GrammarRule) × IsRule self.now.automaton.grammar rule.0 r × (result.dot ≡ length r.body) }
    {
        let rule = rule.0 as usize;
        let grammar = self.ground.lr0.reduced().grammar();
        let dot = grammar.rule(rule).body().len();
        Item { rule, dot }
    }
}
