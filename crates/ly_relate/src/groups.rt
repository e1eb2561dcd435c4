//! Groups transitions over the same nonterminal from which its rules that begin with a terminal lead to the same
//! states. One node represents a group, and these rules are walked from its first transition only.
ghost use Rattle.std.specs.Prelude.{◌≡◌, ◌<◌, ◌+◌, ◌++◌, ◌↔◌, ℕ, [], ◌∷◌, Contains, IfOk, IfSome, IsTrue, OnOk, length};
ghost use Rattle.std.specs.Prelude.{option_map};
ghost use Rattle.ly_join.specs.Grammar.{IsRule, GrammarRule, terminal};
ghost use Rattle.ly_lr0.specs.Automaton.{goto_of};
ghost use Rattle.ly_relate.specs.Private.Groups.{AreAllParted, AreGroupable, AreGroups, IsNodeBeside, IsNodeFor};
ghost use Rattle.ly_relate.specs.Private.Groups.{LeadAlike, LeadsAlike};
ghost use Rattle.ly_relate.specs.Private.Groups.{Leads, node_of, solid_of};

use crate::gotos::Gotos;
use crate::parted_rules::PartedRules;
use ly_base::{OutOfMemory, StateNo};
use ly_lr0::Lr0;
use std::alloc::Global;
use std::marker::Model;

/// With fewer rules that begin with a terminal, comparing takes as long as walking.
const FEWEST: usize = 8;

/// The nodes that represent transitions.
#[derive(Drop)]
pub(crate) struct Groups {
    /// The node of each transition: its own number, or one past all transitions for a group.
    nodes: Vec<usize>,
    /// For each group, its first transition.
    leaders: Vec<usize>,
    /// The number of nodes.
    end: usize,
}

impl Model for Groups {
    ghost use Rattle.ly_relate.specs.Private.Groups.{Grouping};

    ghost Value = { Grouping };

    ghost view = { λ g. record { nodes = g.nodes.items; leaders = g.leaders.items; end = g.end } };
}

impl Groups {
    /// The nodes of all transitions. Each transition is compared with the last one over the same nonterminal that
    /// wasn't added to a group.
    pub(crate) fn new(
        alloc: Global,
        gotos: &Gotos<'_>,
        rules: &PartedRules,
    ) -> Result<Groups, OutOfMemory>
        requires { AreAllParted gotos.now.automaton rules.now }
        ensures { IfOk result (AreGroups gotos.now (solid_of rules.now) (length gotos.now.gotos)) }
    {
        let mut groups = Groups {
            nodes: Vec::with_capacity(alloc, gotos.len())?,
            leaders: Vec::new(alloc),
            end: gotos.len(),
        };
        let mut last = vec![in alloc; None; rules.len()]?;
        for goto in 0..gotos.len() {
            let symbol = gotos.get(goto).symbol.0 as usize;
            let node = groups.node_for(gotos, rules, goto, last[symbol])?;
            if node == goto {
                last[symbol] = Some(goto);
            }
            groups.push(node)?;
        }
        Ok(groups)
    }

    /// The node of the next transition: that of an earlier one with the same targets, or else its own.
    fn node_for(
        &mut self,
        gotos: &Gotos<'_>,
        rules: &PartedRules,
        goto: usize,
        earlier: Option<usize>,
    ) -> Result<usize, OutOfMemory>
        requires rules { AreAllParted gotos.now.automaton rules.now }
        requires goto { goto < length gotos.now.gotos }
        requires earlier { IfSome earlier (λ e. e < goto) }
        requires before { AreGroups gotos.now (solid_of rules.now) goto self.old }
        ensures after { OnOk result (AreGroups gotos.now (solid_of rules.now) goto self.new) }
        ensures node { IfOk result (IsNodeFor gotos.now (solid_of rules.now) self.new goto) }
    {
        if let Some(leader) = earlier {
            if lead_alike(gotos, rules, leader, goto) {
                return Ok(self.node_beside(leader)?);
            }
        }
        Ok(goto)
    }

    /// The node of a transition that becomes the first of a group, if it isn't already.
    fn node_beside(&mut self, goto: usize) -> Result<usize, OutOfMemory>
        requires { goto < length self.old.nodes }
        ensures { IfOk result (IsNodeBeside self.old self.new goto) }
    {
        if self.nodes[goto] == goto {
            self.nodes[goto] = self.end;
            self.end = self.end.checked_add(1).ok_or(OutOfMemory)?;
            self.leaders.push(goto)?;
        }
        Ok(self.nodes[goto])
    }

    /// Adds the node of the next transition.
    fn push(&mut self, node: usize) -> Result<(), OutOfMemory>
        ensures { OnOk result (self.new ≡ record self.old { nodes = self.old.nodes ++ node ∷ [] }) }
    {
        self.nodes.push(node)?;
        Ok(())
    }

    /// The number of nodes.
    pub(crate) fn len(&self) -> usize
        ensures { result ≡ self.now.end }
    {
        self.end
    }

    /// The node of a transition.
    pub(crate) fn node(&self, goto: usize) -> usize
        requires { goto < length self.now.nodes }
        ensures { result ≡ node_of self.now goto }
    {
        self.nodes[goto]
    }

    /// Whether a transition is the first that its node represents.
    pub(crate) fn leads(&self, goto: usize) -> bool
        requires here { goto < length self.now.nodes }
        requires within { node_of self.now goto < length self.now.nodes + length self.now.leaders }
        ensures { IsTrue result ↔ Leads self.now goto }
    {
        let node = self.nodes[goto];
        let transitions = self.nodes.len();
        node < transitions || self.leaders[node - transitions] == goto
    }
}

/// Whether two transitions are over one nonterminal, and its rules that begin with terminals lead from both to the same
/// states.
fn lead_alike(gotos: &Gotos<'_>, rules: &PartedRules, one: usize, other: usize) -> bool
    requires rules { AreAllParted gotos.now.automaton rules.now }
    requires one { one < length gotos.now.gotos }
    requires other { other < length gotos.now.gotos }
    ensures { IsTrue result → AreGroupable gotos.now (solid_of rules.now) one other }
{
    let one = gotos.get(one);
    let other = gotos.get(other);
    if one.symbol.0 != other.symbol.0 {
        return false;
    }
    let lr0 = gotos.lr0();
    let solid = rules.solid(one.symbol);
    if solid.len() < FEWEST {
        return false;
    }
    shift_alike(lr0, one.from, other.from) || all_lead_alike(lr0, solid, one.from, other.from)
}

/// Whether two states have the same transitions over terminals.
fn shift_alike(lr0: &Lr0<'_>, one: StateNo, other: StateNo) -> bool
    requires one { one.0 < length lr0.now.states }
    requires other { other.0 < length lr0.now.states }
    ensures { IsTrue result → (t : ℕ) → goto_of lr0.now one.0 (terminal t) ≡ goto_of lr0.now other.0 (terminal t) }
{
    lr0.shifts(one) == lr0.shifts(other)
}

/// Whether the first symbols of rules lead from two states to the same states.
fn all_lead_alike(lr0: &Lr0<'_>, rules: &[usize], one: StateNo, other: StateNo) -> bool
    requires one { one.0 < length lr0.now.states }
    requires other { other.0 < length lr0.now.states }
    requires rules { (k : ℕ) → Contains rules.now k → (r : GrammarRule) × IsRule lr0.now.grammar k r }
    ensures { IsTrue result → LeadAlike lr0.now rules.now one.0 other.0 }
{
    let mut place = 0;
    let mut beside = 0;
    for &rule in rules {
        let Some(symbol) = lr0.reduced().grammar().rule(rule).body().first() else {
            return false;
        };
        let target = lr0.goto_near(one, *symbol, &mut place);
        let found = lr0.goto_near(other, *symbol, &mut beside);
        if !are_same(target, found) {
            return false;
        }
    }
    true
}

/// Whether both states exist and are equal.
fn are_same(one: Option<StateNo>, other: Option<StateNo>) -> bool
    ensures { IsTrue result → option_map (λ s. s.0) one ≡ option_map (λ s. s.0) other }
{
    match (one, other) {
        (Some(one), Some(other)) => one.0 == other.0,
        _ => false,
    }
}
