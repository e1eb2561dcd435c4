ghost use Rattle.std.specs.Prelude.{◌≡◌, ◌<◌, length, map, slice_get, Some, option_map};
ghost use Rattle.ly_pack.specs.Machine.{action_of, entry_at, goto_at, states_of, IsMachine, IsRuleNumber, IsTableRule};
ghost use Rattle.ly_pack.specs.Machine.{HaveSizes, AreEntriesWithin};
ghost use Rattle.ly_pack.specs.Rows.{grid_of};
ghost use Rattle.ly_pack.specs.Values.{action_from, actions_from, gotos_from, machine_of_parts, rule_from};

use crate::action::TableAction;
use crate::machine_parts::MachineParts;
use crate::machine_view::MachineView;
use crate::rows::Rows;
use crate::rule::TableRule;
use ly_base::{RuleNo, StateNo, Sym};
use std::marker::Model;

/// A parser's tables, over any rows. All states, rules and symbols in its entries exist, and there is a row for each
/// state. State 0 is the bottom of the stack.
#[derive(Drop)]
pub struct Machine<A: Rows<TableAction> + Drop, G: Rows<StateNo> + Drop> {
    parts: MachineParts<A, G>,
}

impl<A: Rows<TableAction> + Drop, G: Rows<StateNo> + Drop> Model for Machine<A, G> {
    ghost use Rattle.std.specs.Prelude.{length};
    ghost use Rattle.ly_pack.specs.Machine as value;
    ghost use Rattle.ly_pack.specs.Machine.{HaveSizes, IsMachine};
    ghost use Rattle.ly_pack.specs.Values.{machine_of_parts};

    ghost Value = { value.Machine };

    ghost view = { λ m. machine_of_parts A.entries G.entries m.parts };

    ghost invariant = { λ m. IsMachine (machine_of_parts A.entries G.entries m.parts)
        × HaveSizes (length m.parts.defaults.items) m.parts.terminals m.parts.nonterminals (A.rows m.parts.actions)
        (A.width m.parts.actions) (G.rows m.parts.gotos) (G.width m.parts.gotos) };
}

impl<A: Rows<TableAction> + Drop, G: Rows<StateNo> + Drop> Machine<A, G> {
    /// The machine with these parts.
    pub fn new(parts: MachineParts<A, G>) -> Machine<A, G>
        requires whole { IsMachine (machine_of_parts A.entries G.entries parts) }
        requires sizes { HaveSizes (length parts.defaults.items) parts.terminals parts.nonterminals
            (A.rows parts.actions) (A.width parts.actions) (G.rows parts.gotos) (G.width parts.gotos) }
        ensures { result ≡ machine_of_parts A.entries G.entries parts }
    {
        Machine { parts }
    }

    /// The parts of the machine.
    pub fn into_parts(self) -> MachineParts<A, G>
        ensures same { machine_of_parts A.entries G.entries result ≡ self }
        ensures whole { IsMachine self }
        ensures sizes { HaveSizes (length result.defaults.items) result.terminals result.nonterminals
            (A.rows result.actions) (A.width result.actions) (G.rows result.gotos) (G.width result.gotos) }
    {
        let Machine { parts } = self;
        parts
    }

    /// The number of terminals.
    pub fn terminals(&self) -> usize
        ensures { result ≡ self.now.terminals }
    {
        self.parts.terminals
    }

    /// The number of nonterminals.
    pub fn nonterminals(&self) -> usize
        ensures { result ≡ self.now.nonterminals }
    {
        self.parts.nonterminals
    }

    /// The number of states.
    pub fn states(&self) -> usize
        ensures count { result ≡ states_of self.now }
        ensures all { IsMachine self.now }
        ensures within { AreEntriesWithin self.now }
    {
        self.view().states()
    }

    /// The actions of states before terminals, except defaults: a row for each state.
    pub fn actions(&self) -> &A
        ensures entries { self.now.actions
            ≡ grid_of (states_of self.now) self.now.terminals (actions_from (A.entries result.now)) }
        ensures rows { A.rows result.now ≡ states_of self.now }
        ensures width { A.width result.now ≡ self.now.terminals }
    {
        self.view().actions()
    }

    /// The gotos of states by nonterminals: a row for each state.
    pub fn gotos(&self) -> &G
        ensures entries { self.now.gotos
            ≡ grid_of (states_of self.now) self.now.nonterminals (gotos_from (G.entries result.now)) }
        ensures rows { G.rows result.now ≡ states_of self.now }
        ensures width { G.width result.now ≡ self.now.nonterminals }
    {
        self.view().gotos()
    }

    /// The machine, borrowed.
    pub fn view(&self) -> MachineView<'_, A, G>
        ensures { result ≡ self.now }
    {
        MachineView::new(
            self.parts.terminals,
            self.parts.nonterminals,
            &self.parts.actions,
            &self.parts.gotos,
            &self.parts.defaults,
            &self.parts.rules,
        )
    }

    /// The rules, in their order, without rule 0.
    pub fn rules(&self) -> &[TableRule]
        ensures { self.now.rules ≡ map rule_from result.now }
    {
        self.view().rules()
    }

    /// The default reduction of a state, if it has one.
    pub fn default(&self, state: StateNo) -> Option<RuleNo>
        requires { state.0 < states_of self.now }
        ensures { slice_get self.now.defaults state.0 ≡ Some (option_map (λ p. p.0) result) }
    {
        self.view().default(state)
    }

    /// The entry of a state before a terminal, if it has one that isn't the default.
    pub fn entry(&self, state: StateNo, terminal: Sym) -> Option<TableAction>
        requires state { state.0 < states_of self.now }
        requires terminal { terminal.0 < self.now.terminals }
        ensures { option_map action_from result ≡ entry_at self.now state.0 terminal.0 }
    {
        self.view().entry(state, terminal)
    }

    /// The action of a state before a terminal: the entry, or else the default reduction, or else an error.
    pub fn action(&self, state: StateNo, terminal: Sym) -> TableAction
        requires state { state.0 < states_of self.now }
        requires terminal { terminal.0 < self.now.terminals }
        ensures { action_from result ≡ action_of self.now state.0 terminal.0 }
    {
        self.view().action(state, terminal)
    }

    /// The goto of a state by a nonterminal, if it has one.
    pub fn goto(&self, state: StateNo, left: Sym) -> Option<StateNo>
        requires state { state.0 < states_of self.now }
        requires left { left.0 < self.now.nonterminals }
        ensures { option_map (λ s. s.0) result ≡ goto_at self.now state.0 left.0 }
    {
        self.view().goto(state, left)
    }

    /// The rule with this number, counted from 1.
    pub fn rule(&self, rule: RuleNo) -> &TableRule
        requires { IsRuleNumber self.now rule.0 }
        ensures { IsTableRule self.now rule.0 (rule_from result.now) }
    {
        self.view().rule(rule)
    }
}
