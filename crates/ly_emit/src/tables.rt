//! The tables of a parser, without defaults.
ghost use Rattle.std.specs.Prelude.{◌≡◌, ◌+◌, ◌<◌, length, map, replicate, IfOk, None, OnOk};
ghost use Rattle.ly_join.specs.Grammar.{IsGrammar};
ghost use Rattle.ly_lr0.specs.Automaton.{prefix_of, IsLr0Automaton};
ghost use Rattle.ly_pack.specs.Rows.{dense_entry};
ghost use Rattle.ly_pack.specs.Values.{action_from as entry_action, rule_from};
ghost use Rattle.ly_resolve.specs.Actions.{shift, IsRaw};
ghost use Rattle.ly_resolve.specs.Precedence.{judge_of};
ghost use Rattle.ly_resolve.specs.Resolved.{IsRow};
ghost use Rattle.ly_resolve.specs.Values.{action_from, terminal_action_from};
ghost use Rattle.ly_emit.specs.Private.Filling.{AreActionsTo, AreGotosTo, AreRulesTo};
ghost use Rattle.ly_emit.specs.Tables.{AreShapesWithin, AreTables, IsEntryFor};

use ly_base::{OutOfMemory, RuleNo, StateNo, Sym};
use ly_join::{Spec, Symbol};
use ly_lr0::Lr0;
use ly_pack::{Dense, Machine, MachineParts, TableAction, TableRule};
use ly_resolve::{Action, Resolved, TerminalAction};
use std::alloc::Global;

/// The tables of a parser's actions, without defaults.
///
/// `OutOfMemory` if an allocation fails.
pub fn machine(
    alloc: Global,
    resolved: &Resolved<'_>,
) -> Result<Machine<Dense<TableAction>, Dense<StateNo>>, OutOfMemory>
    requires { AreShapesWithin resolved.now.spec }
    ensures { IfOk result (AreTables resolved.now.spec resolved.now.automaton) }
{
    let spec = resolved.spec();
    let lr0 = resolved.lr0();
    let defaults = no_defaults(alloc, lr0.states())?;
    let actions = action_rows(alloc, resolved)?;
    let gotos = goto_rows(alloc, lr0)?;
    let rules = table_rules(alloc, spec)?;
    Ok(Machine::new(MachineParts {
        terminals: spec.grammar().terminals() as usize,
        nonterminals: spec.grammar().accept().0 as usize,
        actions,
        gotos,
        defaults,
        rules,
    }))
}

/// No default for any of this many states.
fn no_defaults(alloc: Global, states: usize) -> Result<Vec<Option<RuleNo>>, OutOfMemory>
    ensures { IfOk result (λ defaults. defaults.items ≡ replicate states None) }
{
    Ok(vec![in alloc; None; states]?)
}

/// The action of each state before each terminal.
fn action_rows(alloc: Global, resolved: &Resolved<'_>) -> Result<Dense<TableAction>, OutOfMemory>
    ensures filled { IfOk result (λ d. AreActionsTo resolved.now.automaton (judge_of resolved.now.spec)
        (length resolved.now.automaton.states) (dense_entry d)) }
    ensures rows { IfOk result (λ d. d.rows ≡ length resolved.now.automaton.states) }
    ensures width { IfOk result (λ d. d.width ≡ resolved.now.automaton.grammar.terminals) }
{
    let lr0 = resolved.lr0();
    let terminals = resolved.spec().grammar().terminals();
    let mut actions = Dense::new(alloc, lr0.states(), terminals as usize)?;
    for state in 0..lr0.states() {
        let state = StateNo(state as u32);
        fill_actions(resolved, state, resolved.row(state), &mut actions)?;
    }
    Ok(actions)
}

/// Fills in the actions of a state.
fn fill_actions(
    resolved: &Resolved<'_>,
    state: StateNo,
    row: &[TerminalAction],
    actions: &mut Dense<TableAction>,
) -> Result<(), OutOfMemory>
    requires lawful { IsLr0Automaton resolved.now.automaton }
    requires state { state.0 < length resolved.now.automaton.states }
    requires row { IsRow resolved.now.automaton.grammar (judge_of resolved.now.spec)
        (prefix_of resolved.now.automaton state.0) (map terminal_action_from row.now) }
    requires rows { actions.old.rows ≡ length resolved.now.automaton.states }
    requires width { actions.old.width ≡ resolved.now.automaton.grammar.terminals }
    requires before { AreActionsTo resolved.now.automaton (judge_of resolved.now.spec) state.0
        (dense_entry actions.old) }
    ensures rows { actions.new.rows ≡ actions.old.rows }
    ensures width { actions.new.width ≡ actions.old.width }
    ensures filled { OnOk result (AreActionsTo resolved.now.automaton (judge_of resolved.now.spec) (state.0 + 1)
        (dense_entry actions.new)) }
{
    let mut place = 0;
    actions.reserve(state, row.len())?;
    for entry in row {
        let action = table_action(resolved.lr0(), state, *entry, &mut place);
        actions.set(state, entry.terminal.0 as usize, Some(action))?;
    }
    actions.share(state)?;
    Ok(())
}

/// The table entry for an action. For a shift, `place` is a hint: the transition at this index is tried first, and
/// `place` becomes the index after it.
fn table_action(
    lr0: &Lr0<'_>,
    state: StateNo,
    entry: TerminalAction,
    place: &mut usize,
) -> TableAction
    requires lawful { IsLr0Automaton lr0.now }
    requires state { state.0 < length lr0.now.states }
    requires shifted { action_from entry.action ≡ shift
        → IsRaw lr0.now.grammar (prefix_of lr0.now state.0) entry.terminal.0 shift }
    ensures { IsEntryFor lr0.now state.0 entry.terminal.0 (action_from entry.action) (entry_action result) }
{
    match entry.action {
        Action::Shift => shift_action(lr0, state, entry.terminal, place),
        Action::Reduce(rule) => TableAction::Reduce(rule),
        Action::Error => TableAction::Error,
    }
}

/// The entry for a shift of a terminal: the state it leads to, or accepting for the end.
fn shift_action(lr0: &Lr0<'_>, state: StateNo, terminal: Sym, place: &mut usize) -> TableAction
    requires lawful { IsLr0Automaton lr0.now }
    requires state { state.0 < length lr0.now.states }
    requires shifted { IsRaw lr0.now.grammar (prefix_of lr0.now state.0) terminal.0 shift }
    ensures { IsEntryFor lr0.now state.0 terminal.0 shift (entry_action result) }
{
    if terminal.0 == 0 {
        return TableAction::Accept;
    }
    TableAction::Shift(
        lr0.goto_near(state, Symbol::Terminal(terminal), place)
            .unwrap(),
    )
}

/// The goto of each state by each nonterminal.
fn goto_rows(alloc: Global, lr0: &Lr0<'_>) -> Result<Dense<StateNo>, OutOfMemory>
    ensures filled { IfOk result (λ d. AreGotosTo lr0.now (length lr0.now.states) (dense_entry d)) }
    ensures rows { IfOk result (λ d. d.rows ≡ length lr0.now.states) }
    ensures width { IfOk result (λ d. d.width ≡ lr0.now.grammar.accept) }
{
    let nonterminals = lr0.reduced().grammar().accept().0;
    let mut gotos = Dense::new(alloc, lr0.states(), nonterminals as usize)?;
    for state in 0..lr0.states() {
        fill_gotos(lr0, StateNo(state as u32), &mut gotos)?;
    }
    Ok(gotos)
}

/// Fills in the gotos of a state.
fn fill_gotos(lr0: &Lr0<'_>, state: StateNo, gotos: &mut Dense<StateNo>) -> Result<(), OutOfMemory>
    requires lawful { IsLr0Automaton lr0.now }
    requires state { state.0 < length lr0.now.states }
    requires rows { gotos.old.rows ≡ length lr0.now.states }
    requires width { gotos.old.width ≡ lr0.now.grammar.accept }
    requires before { AreGotosTo lr0.now state.0 (dense_entry gotos.old) }
    ensures rows { gotos.new.rows ≡ gotos.old.rows }
    ensures width { gotos.new.width ≡ gotos.old.width }
    ensures filled { OnOk result (AreGotosTo lr0.now (state.0 + 1) (dense_entry gotos.new)) }
{
    for transition in lr0.gotos(state) {
        if let Symbol::Nonterminal(left) = transition.symbol {
            gotos.set(state, left.0 as usize, Some(transition.target))?;
        }
    }
    Ok(())
}

/// The rules without rule 0.
fn table_rules(alloc: Global, spec: &Spec) -> Result<Vec<TableRule>, OutOfMemory>
    ensures rules { IfOk result (λ rules. AreRulesTo spec.now (length spec.now.grammar.rules)
        (map rule_from rules.items)) }
    ensures lawful { IsGrammar spec.now.grammar }
{
    let grammar = spec.grammar();
    let notes = spec.notes();
    let mut rules = Vec::new(alloc);
    for number in 1..grammar.rules().len() {
        let rule = grammar.rule(number);
        rules.push(TableRule {
            left: rule.left(),
            body_length: rule.body().len(),
            tree: notes[number].tree.copied(alloc)?,
        })?;
    }
    Ok(rules)
}
