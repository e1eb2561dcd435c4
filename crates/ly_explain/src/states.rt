//! The states of the parser, as users of yacc know them: the items, the action before each terminal, and the gotos.
ghost use Rattle.std.specs.Prelude.{◌<◌, length};
ghost use Rattle.ly_lookahead.specs.Lookaheads.{AreLookaheads};

use ly_analysis::{Analysis, Cores, body_of, place_of, write_numbered, write_prefix};
use ly_base::{OutOfMemory, RuleNo, StateNo, Sym};
use ly_join::{Spec, Symbol};
use ly_lookahead::Lookaheads;
use ly_lr0::{Item, Lr0};
use ly_pack::{Dense, Machine, TableAction};
use ly_resolve::{Action, Resolved, TerminalAction};
use ly_text_buffer::TextBuffer;
use std::alloc::Global;

/// The tables of a parser.
pub(crate) type Tables = Machine<Dense<TableAction>, Dense<StateNo>>;

/// The data for printing states.
#[derive(Clone, Copy)]
struct Teller<'a> {
    /// The specification.
    spec: &'a Spec,
    /// The actions of each state.
    resolved: &'a Resolved<'a>,
    /// The lookaheads of the complete rules.
    lookaheads: &'a Lookaheads,
    /// The tables, which have the default reductions.
    tables: &'a Tables,
    /// The items of the states, and the strings that lead to them.
    cores: &'a Cores<'a>,
}

/// Prints each state of the parser.
pub(crate) fn write_states(
    alloc: Global,
    buffer: &mut TextBuffer,
    files: &Analysis<'_>,
    tables: &Tables,
) -> Result<(), OutOfMemory>
    requires { AreLookaheads files.now.resolved.now.automaton files.now.lookaheads.now }
{
    let lr0 = files.resolved.lr0();
    let teller = Teller {
        spec: files.spec,
        resolved: files.resolved,
        lookaheads: files.lookaheads,
        tables,
        cores: &Cores::of(alloc, lr0)?,
    };
    for state in 0..lr0.states() {
        teller.write_state(alloc, buffer, StateNo(state as u32))?;
    }
    Ok(())
}

impl Teller<'_> {
    /// Prints a state.
    fn write_state(
        &self,
        alloc: Global,
        buffer: &mut TextBuffer,
        state: StateNo,
    ) -> Result<(), OutOfMemory>
        requires state { state.0 < length self.now.resolved.now.automaton.states }
        requires sets { AreLookaheads self.now.resolved.now.automaton self.now.lookaheads.now }
    {
        let prefix = self.cores.prefix(alloc, state)?;
        write_numbered(buffer, b"State ", state.0 as u64, b"");
        if !prefix.front.is_empty() {
            buffer.push(b", after");
            write_prefix(buffer, self.spec, &prefix);
        }
        buffer.push(b"\n");
        for item in &self.cores.items(alloc, state)? {
            self.write_item(buffer, state, *item);
        }
        self.write_actions(buffer, state);
        self.write_gotos(buffer, state);
        buffer.push(b"\n");
        Ok(())
    }

    /// Prints an item, with its lookaheads if its dot is at the end.
    fn write_item(&self, buffer: &mut TextBuffer, state: StateNo, item: Item)
        requires state { state.0 < length self.now.resolved.now.automaton.states }
        requires sets { AreLookaheads self.now.resolved.now.automaton self.now.lookaheads.now }
    {
        let spec = self.spec;
        write_numbered(buffer, b"    ", item.rule as u64, b"  ");
        buffer.push_rule(spec, item.rule, Some(item.dot));
        if let Some(place) = place_of(self.resolved.lr0(), self.lookaheads, state, item) {
            buffer.push(b"   with");
            for terminal in 0..spec.grammar().terminals() {
                if self.lookaheads.contains(state, place, Sym(terminal)) {
                    buffer.push(b" ");
                    buffer.push_terminal(spec, Sym(terminal));
                }
            }
        }
        buffer.push(b"\n");
    }

    /// Prints the action before each terminal: each one that isn't the default reduction, then the default.
    fn write_actions(&self, buffer: &mut TextBuffer, state: StateNo)
        requires { state.0 < length self.now.resolved.now.automaton.states }
    {
        let mut default = None;
        if (state.0 as usize) < self.tables.states() {
            default = self.tables.default(state);
        }
        let _spec = self.resolved.spec();
        for entry in self.resolved.row(state) {
            if !is_default(entry, default) {
                self.write_action(buffer, state, entry);
            }
        }
        if let Some(rule) = default {
            write_numbered(buffer, b"    else rule ", rule.0 as u64, b"\n");
        }
    }

    /// Prints the action before a terminal.
    fn write_action(&self, buffer: &mut TextBuffer, state: StateNo, entry: &TerminalAction)
        requires { state.0 < length self.now.resolved.now.automaton.states }
    {
        buffer.push(b"    before ");
        buffer.push_terminal(self.spec, entry.terminal);
        match entry.action {
            Action::Shift => match self
                .resolved
                .lr0()
                .goto(state, Symbol::Terminal(entry.terminal))
            {
                Some(target) => {
                    write_numbered(buffer, b" shift, to state ", target.0 as u64, b"\n");
                }
                None => buffer.push(b" accept\n"),
            },
            Action::Reduce(rule) => write_numbered(buffer, b" rule ", rule.0 as u64, b"\n"),
            Action::Error => buffer.push(b" error, since it is nonassociative\n"),
        }
    }

    /// Prints the gotos of a state.
    fn write_gotos(&self, buffer: &mut TextBuffer, state: StateNo)
        requires { state.0 < length self.now.resolved.now.automaton.states }
    {
        for transition in self.resolved.lr0().gotos(state) {
            buffer.push(b"    ");
            buffer.push_symbol(self.spec, transition.symbol);
            write_numbered(buffer, b" to state ", transition.target.0 as u64, b"\n");
        }
    }
}

/// Whether an entry is the default reduction.
fn is_default(entry: &TerminalAction, default: Option<RuleNo>) -> bool {
    match (entry.action, default) {
        (Action::Reduce(rule), Some(default)) => rule == default,
        _ => false,
    }
}
