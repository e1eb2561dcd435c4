ghost use Rattle.std.specs.Prelude.{◌≡◌, ◌<◌, length, map, slice_get, Some, option_map};
ghost use Rattle.ly_pack.specs.Machine.{action_of, entry_at, goto_at, states_of, IsMachine, IsRuleNumber, IsTableRule};
ghost use Rattle.ly_pack.specs.Machine.{with_rules, HaveSizes, AreEntriesWithin};
ghost use Rattle.ly_pack.specs.Rows.{grid_of};
ghost use Rattle.ly_pack.specs.Values.{action_from, actions_from, gotos_from, machine_from, rule_from};

use crate::action::TableAction;
use crate::rows::Rows;
use crate::rule::TableRule;
use ly_base::{RuleNo, StateNo, Sym};
use std::marker::Model;

/// A parser's tables, borrowed, over any rows. All states, rules and symbols in its entries exist, and there is a row
/// for each state. State 0 is the bottom of the stack.
#[derive(Drop)]
pub struct MachineView<'a, A: Rows<TableAction> + Drop, G: Rows<StateNo> + Drop> {
    /// The number of terminals.
    terminals: usize,
    /// The number of nonterminals.
    nonterminals: usize,
    /// The actions of states before terminals, except defaults.
    actions: &'a A,
    /// The gotos of states by nonterminals.
    gotos: &'a G,
    /// The default reduction of each state.
    defaults: &'a [Option<RuleNo>],
    /// The rules without rule 0: the first is rule 1.
    rules: &'a [TableRule],
}

impl<'a, A: Rows<TableAction> + Drop, G: Rows<StateNo> + Drop> Model for MachineView<'a, A, G> {
    ghost use Rattle.std.specs.Prelude.{length};
    ghost use Rattle.ly_pack.specs.Machine as value;
    ghost use Rattle.ly_pack.specs.Machine.{HaveSizes, IsMachine};
    ghost use Rattle.ly_pack.specs.Values.{machine_from};

    ghost Value = { value.Machine };

    ghost view = { λ m. machine_from m.terminals m.nonterminals (A.entries m.actions.now) (G.entries m.gotos.now)
        m.defaults.now m.rules.now };

    ghost invariant = { λ m. IsMachine (machine_from m.terminals m.nonterminals (A.entries m.actions.now)
        (G.entries m.gotos.now) m.defaults.now m.rules.now)
        × HaveSizes (length m.defaults.now) m.terminals m.nonterminals (A.rows m.actions.now)
        (A.width m.actions.now) (G.rows m.gotos.now) (G.width m.gotos.now) };
}

impl<'a, A: Rows<TableAction> + Drop, G: Rows<StateNo> + Drop> MachineView<'a, A, G> {
    /// The machine with these parts: the numbers of terminals and nonterminals, the actions and gotos of states, their
    /// default reductions, and the rules without rule 0.
    pub fn new(
        terminals: usize,
        nonterminals: usize,
        actions: &'a A,
        gotos: &'a G,
        defaults: &'a [Option<RuleNo>],
        rules: &'a [TableRule],
    ) -> Self
        requires whole { IsMachine (machine_from terminals nonterminals (A.entries actions.now) (G.entries gotos.now)
            defaults.now rules.now) }
        requires sizes { HaveSizes (length defaults.now) terminals nonterminals (A.rows actions.now)
            (A.width actions.now) (G.rows gotos.now) (G.width gotos.now) }
        ensures { result ≡ machine_from terminals nonterminals (A.entries actions.now) (G.entries gotos.now)
            defaults.now rules.now }
    {
        MachineView {
            terminals,
            nonterminals,
            actions,
            gotos,
            defaults,
            rules,
        }
    }

    /// The same tables with other rules.
    pub fn with_rules(&self, rules: &'a [TableRule]) -> Self
        requires { IsMachine (with_rules self.now (map rule_from rules.now)) }
        ensures { result ≡ with_rules self.now (map rule_from rules.now) }
    {
        MachineView {
            terminals: self.terminals,
            nonterminals: self.nonterminals,
            actions: self.actions,
            gotos: self.gotos,
            defaults: self.defaults,
            rules,
        }
    }

    /// The number of terminals.
    pub fn terminals(&self) -> usize
        ensures { result ≡ self.now.terminals }
    {
        self.terminals
    }

    /// The number of nonterminals.
    pub fn nonterminals(&self) -> usize
        ensures { result ≡ self.now.nonterminals }
    {
        self.nonterminals
    }

    /// The number of states.
    pub fn states(&self) -> usize
        ensures count { result ≡ states_of self.now }
        ensures all { IsMachine self.now }
        ensures within { AreEntriesWithin self.now }
    {
        self.defaults.len()
    }

    /// The actions of states before terminals, except defaults, with the lifetime of the tables: a row for each state.
    pub fn actions(&self) -> &'a A
        ensures entries { self.now.actions
            ≡ grid_of (states_of self.now) self.now.terminals (actions_from (A.entries result.now)) }
        ensures rows { A.rows result.now ≡ states_of self.now }
        ensures width { A.width result.now ≡ self.now.terminals }
    {
        self.actions
    }

    /// The gotos of states by nonterminals, with the lifetime of the tables: a row for each state.
    pub fn gotos(&self) -> &'a G
        ensures entries { self.now.gotos
            ≡ grid_of (states_of self.now) self.now.nonterminals (gotos_from (G.entries result.now)) }
        ensures rows { G.rows result.now ≡ states_of self.now }
        ensures width { G.width result.now ≡ self.now.nonterminals }
    {
        self.gotos
    }

    /// The rules, in their order, without rule 0, with the lifetime of the tables.
    pub fn rules(&self) -> &'a [TableRule]
        ensures { self.now.rules ≡ map rule_from result.now }
    {
        self.rules
    }

    /// The default reduction of a state, if it has one.
    pub fn default(&self, state: StateNo) -> Option<RuleNo>
        requires { state.0 < states_of self.now }
        ensures { slice_get self.now.defaults state.0 ≡ Some (option_map (λ p. p.0) result) }
    {
        self.defaults[state.0 as usize]
    }

    /// The entry of a state before a terminal, if it has one that isn't the default.
    pub fn entry(&self, state: StateNo, terminal: Sym) -> Option<TableAction>
        requires state { state.0 < states_of self.now }
        requires terminal { terminal.0 < self.now.terminals }
        ensures { option_map action_from result ≡ entry_at self.now state.0 terminal.0 }
    {
        self.actions.entry(state, terminal.0 as usize)
    }

    /// The action of a state before a terminal: the entry, or else the default reduction, or else an error.
    pub fn action(&self, state: StateNo, terminal: Sym) -> TableAction
        requires state { state.0 < states_of self.now }
        requires terminal { terminal.0 < self.now.terminals }
        ensures { action_from result ≡ action_of self.now state.0 terminal.0 }
    {
        if let Some(action) = self.entry(state, terminal) {
            return action;
        }
        match self.default(state) {
            Some(rule) => TableAction::Reduce(rule),
            None => TableAction::Error,
        }
    }

    /// The goto of a state by a nonterminal, if it has one.
    pub fn goto(&self, state: StateNo, left: Sym) -> Option<StateNo>
        requires state { state.0 < states_of self.now }
        requires left { left.0 < self.now.nonterminals }
        ensures { option_map (λ s. s.0) result ≡ goto_at self.now state.0 left.0 }
    {
        self.gotos.entry(state, left.0 as usize)
    }

    /// The rule with this number, counted from 1, with the lifetime of the tables.
    pub fn rule(&self, rule: RuleNo) -> &'a TableRule
        requires { IsRuleNumber self.now rule.0 }
        ensures { IsTableRule self.now rule.0 (rule_from result.now) }
    {
        &self.rules[rule.0 as usize - 1]
    }
}
