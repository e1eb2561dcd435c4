//! Computes includes and lookback in one walk for each transition and each rule of its nonterminal: forwards over the
//! body, from state to state, and backwards from its end, as long as the symbols passed are nullable.
ghost use Rattle.std.specs.Prelude.{◌≡◌, ◌<◌, ◌≤◌, ℕ, [], length, map, slice_get, slice_index_or, All, IfOk};
ghost use Rattle.std.specs.Prelude.{MatchOption};
ghost use Rattle.std.specs.Prelude.{Contains, OnOk, Some};
ghost use Rattle.ly_join.specs.Grammar.{symbol_of, IsRule, GrammarRule, Symbol as symbols};
ghost use Rattle.ly_relate.specs.Private.Walks.{AreBack, AreEdgesTo, IsIncludedAt, IsIncludingBy, IsLookingBack};
ghost use Rattle.ly_relate.specs.Private.Walks.{IsPassed, IsStopped, HasNumberTo};
ghost use Rattle.ly_relate.specs.Related as spec;
ghost use Rattle.ly_relate.specs.Related.{AreGathered, AreLookbacks, IsIncluding};
ghost use Rattle.ly_relate.specs.Private.Groups.{AreAllParted, AreGroups, IsRuleOf, solid_of};
ghost use Rattle.ly_relate.specs.Private.Walks.{AreBackBy, AreEdgesBy, BackFrom, EdgeFrom, IncludesByOne};
ghost use Rattle.ly_relate.specs.Private.Walks.{LooksBackByOne};
ghost use Rattle.ly_relate.specs.Values.{lookback_from};

use crate::gotos::Gotos;
use crate::groups::Groups;
use crate::includes::Includes;
use crate::parted_rules::PartedRules;
use crate::pieces::Pieces;
use ly_base::{OutOfMemory, StateNo};
use ly_join::Symbol;
use std::alloc::Global;

/// The transitions to which a rule that is complete in a state looks back.
#[derive(Clone, Copy, Debug, PartialEq, Eq)]
pub struct Lookback {
    /// The state.
    pub state: StateNo,
    /// The number of the rule.
    pub rule: u32,
    /// The node that represents them: the number of a transition, or past these a node with edges to each of them.
    pub node: u32,
}

impl Lookback {
    /// The lookback of a rule that is complete in a state, to the transitions that a node represents. The error is out
    /// of memory, for a number that doesn't fit in a `u32`; no graph has so many nodes, and no grammar so many rules.
    fn new(state: StateNo, rule: usize, node: usize) -> Result<Lookback, OutOfMemory>
        ensures { IfOk result (λ l. lookback_from l ≡ record { state = state.0; rule = rule; node = node }) }
    {
        match (u32::try_from(rule), u32::try_from(node)) {
            (Ok(rule), Ok(node)) => Ok(Lookback { state, rule, node }),
            _ => Err(OutOfMemory),
        }
    }
}

/// The results of the walks.
#[derive(Drop)]
pub(crate) struct Walks {
    /// The relation includes.
    pub(crate) includes: Includes,
    /// The transitions to which complete rules look back.
    pub(crate) lookbacks: Pieces<Lookback>,
    /// The states before each symbol of the body being walked.
    path: Vec<StateNo>,
}

impl Walks {
    /// Walks the rules of all transitions.
    pub(crate) fn new(alloc: Global, gotos: &Gotos<'_>) -> Result<Walks, OutOfMemory>
        ensures includes { IfOk result (λ w. AreGathered gotos.now.gotos
            (IsIncluding gotos.now.automaton gotos.now.gotos) w.includes) }
        ensures lookbacks { IfOk result (λ w. AreLookbacks gotos.now.automaton gotos.now.gotos w.includes
            (map lookback_from w.lookbacks)) }
    {
        let rules = PartedRules::new(alloc, gotos.lr0())?;
        let groups = Groups::new(alloc, gotos, &rules)?;
        let mut walks = Walks {
            includes: Includes::new(alloc, groups.len())?,
            lookbacks: Pieces::new(alloc),
            path: Vec::new(alloc),
        };
        walks.walk_all(gotos, &rules, &groups)?;
        Ok(walks)
    }

    /// Walks from all transitions.
    fn walk_all(
        &mut self,
        gotos: &Gotos<'_>,
        rules: &PartedRules,
        groups: &Groups,
    ) -> Result<(), OutOfMemory>
        requires rules { AreAllParted gotos.now.automaton rules.now }
        requires groups { AreGroups gotos.now (solid_of rules.now) (length gotos.now.gotos) groups.now }
        requires fresh { self.old.includes ≡ record { nodes = groups.now.end; edges = [] } }
        requires none { self.old.lookbacks ≡ [] }
        ensures includes { OnOk result (AreGathered gotos.now.gotos
            (IsIncluding gotos.now.automaton gotos.now.gotos) self.new.includes) }
        ensures lookbacks { OnOk result (AreLookbacks gotos.now.automaton gotos.now.gotos self.new.includes
            (map lookback_from self.new.lookbacks)) }
    {
        for goto in 0..gotos.len() {
            self.walk_from(gotos, rules, groups, goto)?;
        }
        Ok(())
    }

    /// Walks the rules of a transition's nonterminal. Those that begin with a terminal are walked only for the first
    /// transition that a node represents, on behalf of all of them.
    fn walk_from(
        &mut self,
        gotos: &Gotos<'_>,
        rules: &PartedRules,
        groups: &Groups,
        goto: usize,
    ) -> Result<(), OutOfMemory>
        requires goto { goto < length gotos.now.gotos }
        requires rules { AreAllParted gotos.now.automaton rules.now }
        requires groups { AreGroups gotos.now (solid_of rules.now) (length gotos.now.gotos) groups.now }
        requires nodes { self.old.includes.nodes ≡ groups.now.end }
        ensures nodes { OnOk result (self.new.includes.nodes ≡ self.old.includes.nodes) }
        ensures includes { OnOk result (AreEdgesBy (EdgeFrom gotos.now rules.now groups.now goto)
            self.old.includes self.new.includes) }
        ensures lookbacks { OnOk result (AreBackBy (BackFrom gotos.now rules.now groups.now goto)
            (map lookback_from self.old.lookbacks) (map lookback_from self.new.lookbacks)) }
    {
        let symbol = gotos.get(goto).symbol;
        self.walk_rules(gotos, goto, rules.others(symbol), goto)?;
        let node = groups.node(goto);
        if groups.leads(goto) {
            self.walk_rules(gotos, goto, rules.solid(symbol), node)?;
        }
        if node != goto {
            self.includes.add(node, goto)?;
        }
        Ok(())
    }

    /// Walks rules of a transition's nonterminal. The pairs found are recorded for this node.
    fn walk_rules(
        &mut self,
        gotos: &Gotos<'_>,
        goto: usize,
        rules: &[usize],
        node: usize,
    ) -> Result<(), OutOfMemory>
        requires rules { (x : spec.Goto) × (slice_get gotos.now.gotos goto ≡ Some x)
            × ((q : ℕ) → Contains rules.now q → IsRuleOf gotos.now.automaton x.symbol q) }
        requires node { node < self.old.includes.nodes }
        requires nodes { length gotos.now.gotos ≤ self.old.includes.nodes }
        ensures nodes { OnOk result (self.new.includes.nodes ≡ self.old.includes.nodes) }
        ensures includes { OnOk result (AreEdgesTo self.old.includes self.new.includes node
            (IncludesByOne gotos.now rules.now goto)) }
        ensures lookbacks { OnOk result (AreBack (map lookback_from self.old.lookbacks)
            (map lookback_from self.new.lookbacks) node (LooksBackByOne gotos.now rules.now goto)) }
    {
        for &rule in rules {
            self.walk(gotos, goto, rule, node)?;
        }
        Ok(())
    }

    /// Walks a rule from the state where a transition begins.
    fn walk(
        &mut self,
        gotos: &Gotos<'_>,
        goto: usize,
        rule: usize,
        node: usize,
    ) -> Result<(), OutOfMemory>
        requires rule { (x : spec.Goto) × (slice_get gotos.now.gotos goto ≡ Some x)
            × (r : GrammarRule) × IsRule gotos.now.automaton.grammar rule r × (r.left ≡ x.symbol) }
        requires node { node < self.old.includes.nodes }
        requires nodes { length gotos.now.gotos ≤ self.old.includes.nodes }
        ensures nodes { OnOk result (self.new.includes.nodes ≡ self.old.includes.nodes) }
        ensures includes { OnOk result (AreEdgesTo self.old.includes self.new.includes node
            (λ i. IsIncludingBy gotos.now.automaton gotos.now.gotos rule i goto)) }
        ensures lookbacks { OnOk result (AreBack (map lookback_from self.old.lookbacks)
            (map lookback_from self.new.lookbacks) node
            (λ s p. (p ≡ rule) × IsLookingBack gotos.now.automaton gotos.now.gotos goto s p)) }
    {
        let body = gotos.lr0().reduced().grammar().rule(rule).body();
        if let Some(state) = self.pass(gotos, gotos.get(goto).from, body)? {
            let lookback = Lookback::new(state, rule, node)?;
            self.lookbacks.push(lookback)?;
            self.include(gotos, node, body)?;
        }
        Ok(())
    }

    /// Walks over a body from a state, and returns the state it leads to.
    fn pass(
        &mut self,
        gotos: &Gotos<'_>,
        from: StateNo,
        body: &[Symbol],
    ) -> Result<Option<StateNo>, OutOfMemory>
        requires { from.0 < length gotos.now.automaton.states }
        ensures passed { IfOk result (λ end. MatchOption end
            (IsStopped gotos.now.automaton from.0 (map symbol_of body.now))
            (λ s. IsPassed gotos.now.automaton from.0 (map symbol_of body.now) (length body.now)
            (map (λ q. q.0) self.new.path.items) s.0)) }
        ensures within { IfOk result (λ end. All (λ q. q.0 < length gotos.now.automaton.states) self.new.path.items) }
        ensures includes { self.new.includes ≡ self.old.includes }
        ensures lookbacks { self.new.lookbacks ≡ self.old.lookbacks }
    {
        self.path.clear();
        let mut state = from;
        for symbol in body {
            self.path.push(state)?;
            match gotos.goto(state, *symbol) {
                Some(next) => state = next,
                None => return Ok(None),
            }
        }
        Ok(Some(state))
    }

    /// Walks backwards over a body, as long as the symbols passed are nullable. Each transition over a nonterminal
    /// found there includes the transitions that the node represents.
    fn include(
        &mut self,
        gotos: &Gotos<'_>,
        node: usize,
        body: &[Symbol],
    ) -> Result<(), OutOfMemory>
        requires node { node < self.old.includes.nodes }
        requires nodes { length gotos.now.gotos ≤ self.old.includes.nodes }
        requires count { length self.old.path.items ≡ length body.now }
        requires states { All (λ q. q.0 < length gotos.now.automaton.states) self.old.path.items }
        requires symbols { All (HasNumberTo gotos.now.automaton.grammar.accept) (map symbol_of body.now) }
        ensures nodes { OnOk result (self.new.includes.nodes ≡ self.old.includes.nodes) }
        ensures includes { OnOk result (AreEdgesTo self.old.includes self.new.includes node (λ i. (place : ℕ)
            × IsIncludedAt gotos.now.automaton.grammar gotos.now.gotos (map symbol_of body.now)
            (map (λ q. q.0) self.old.path.items) place i)) }
        ensures lookbacks { self.new.lookbacks ≡ self.old.lookbacks }
    {
        let mut at = body.len();
        while at > 0 {
            at -= 1;
            let Symbol::Nonterminal(part) = body[at] else {
                return Ok(());
            };
            if let Some(inner) = gotos.find(self.path[at], part) {
                self.includes.add(inner, node)?;
            }
            if !gotos.lr0().reduced().is_nullable(part) {
                return Ok(());
            }
        }
        Ok(())
    }
}
