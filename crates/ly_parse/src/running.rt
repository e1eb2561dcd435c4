ghost use Rattle.std.specs.Prelude.{◌≡◌, ◌≢◌, ◌<◌, ◌+◌, ℕ, [], ◌∷◌, false, length, map, vec_capacity, IfOk, OnOk};
ghost use Rattle.ly_pack.specs.Machine.{action_of, shift};
ghost use Rattle.ly_pack.specs.Steady.{IsSteady};
ghost use Rattle.ly_parse.specs.Expected.{AreExpected};
ghost use Rattle.ly_parse.specs.Feeding.{top_of};
ghost use Rattle.ly_parse.specs.Parse.{Comes, IsTake, IsTellable};
ghost use Rattle.ly_parse.specs.Private.Answered.{with_note, IsAcceptance};
ghost use Rattle.ly_parse.specs.Private.Before.{before_on};
ghost use Rattle.ly_parse.specs.Private.Stack.{IsAccepted};
ghost use Rattle.ly_parse.specs.declared.token_outcome.TokenOutcome.TheVariants as answers;
ghost use Rattle.ly_parse.specs.declared.step.Step.TheVariants as step;
ghost use Rattle.ly_tree.specs.Costs.{IsBoundedBySize};
ghost use Rattle.ly_tree.specs.Forest.{no_terms, StandsFor};
ghost use Rattle.ly_tree.specs.Term.{Term, leaf};

use crate::before::Before;
use crate::fault::ParseFault;
use crate::landing::Landing;
use crate::level::Level;
use crate::listing::expected;
use crate::settled::Settled;
use crate::shortcut::Situation;
use crate::shortcuts::Shortcuts;
use crate::step::Step;
use crate::token::Token;
use crate::token_outcome::TokenOutcome;
use ly_base::{OutOfMemory, StateNo, Sym};
use ly_pack::{MachineView, Rows, TableAction};
use ly_print::Front;
use ly_tree::{Forest, TermRef};
use std::alloc::Global;
use std::marker::Model;

/// A parse with tables whose runs all end, without the notes on the stack before the current token.
#[derive(Drop)]
pub(crate) struct Running<'a, A: Rows<TableAction> + Drop, G: Rows<StateNo> + Drop> {
    /// The allocator.
    alloc: Global,
    /// The tables.
    pub(crate) machine: MachineView<'a, A, G>,
    /// The terms built so far.
    pub(crate) forest: Forest,
    /// The stack above the bottom, whose state is 0; its top is last.
    pub(crate) stack: Vec<Level>,
    /// The cached outcomes of runs of passes.
    pub(crate) shortcuts: Shortcuts<Situation>,
    /// The cached outcomes of gotos and the passes after them.
    pub(crate) landings: Shortcuts<Landing>,
    /// The number of tokens read.
    count: u64,
    /// Whether the parse has ended, successfully or not.
    over: bool,
}

impl<'a, A: Rows<TableAction> + Drop, G: Rows<StateNo> + Drop> Model for Running<'a, A, G> {
    ghost use Rattle.ly_parse.specs.Parse as value;
    ghost use Rattle.std.specs.Coded.{codes};
    ghost use Rattle.ly_parse.specs.ParseCode.{level_code};
    ghost use Rattle.ly_tree.specs.GrownCode.{grown_code};
    ghost use Rattle.ly_parse.specs.Private.Shortcuts.{AreKept};
    ghost use Rattle.ly_parse.specs.Private.Stack.{parse_from, IsParse};

    ghost Value = { value.Parse };

    ghost coded = { Prim.hlevel (codes, level_code, grown_code) };

    ghost view = { λ p. parse_from p.machine p.forest p.stack.items p.count p.over };

    ghost invariant = { λ p. IsParse p.machine p.forest p.stack.items
        × AreKept p.machine p.shortcuts p.landings };
}

impl<'a, A: Rows<TableAction> + Drop, G: Rows<StateNo> + Drop> Running<'a, A, G> {
    /// A parse that has read nothing: only the bottom is on its stack.
    pub(crate) fn new(alloc: Global, machine: MachineView<'a, A, G>) -> Self
        requires { IsSteady machine }
        ensures { result ≡ record {
          machine = machine.entry;
          forest = no_terms;
          stack = [];
          count = 0;
          over = false;
          asked = [];
        } }
    {
        // the call's contract requires that all states, rules and symbols in the tables exist
        let _states = machine.states();
        Running {
            alloc,
            machine,
            forest: Forest::new(alloc),
            stack: Vec::new(alloc),
            shortcuts: Shortcuts::new(alloc),
            landings: Shortcuts::new(alloc),
            count: 0,
            over: false,
        }
    }

    /// The terms built so far.
    pub(crate) fn forest(&self) -> &Forest
        ensures { result.now ≡ self.now.forest }
    {
        &self.forest
    }

    /// Drops the stack, and returns the terms.
    pub(crate) fn into_forest(self) -> Forest
        ensures { result ≡ self.entry.forest }
    {
        self.forest
    }

    /// Processes a token: makes the reductions before it, and then reads or rejects it. After any result other than
    /// `Reads` the parse has ended. If the token is rejected, the stack as it was is noted.
    #[inline(always)] // a call would cost a fifteenth more instructions per token
    pub(crate) fn feed(&mut self, token: &Token<'_>, before: &mut Before) -> TokenOutcome
        requires not_end { token.now.terminal.0 ≢ 0 }
        requires terminal { token.now.terminal.0 < self.old.machine.terminals }
        ensures { IsTake (with_note self.old before.old) (record {
          terminal = token.now.terminal.0;
          at = token.now.at;
          bytes = token.now.text;
        }) (with_note self.new before.new) result }
    {
        if self.over {
            return TokenOutcome::Over;
        }
        self.go_on(token, before)
    }

    /// Processes a token like `feed`. The parse must not have ended.
    #[inline(always)] // so that a token that is read gets the registers
    pub(crate) fn go_on(&mut self, token: &Token<'_>, before: &mut Before) -> TokenOutcome
        requires goes_on { self.old.over ≡ false }
        requires not_end { token.now.terminal.0 ≢ 0 }
        requires terminal { token.now.terminal.0 < self.old.machine.terminals }
        ensures { IsTake (with_note self.old before.old) (record {
          terminal = token.now.terminal.0;
          at = token.now.at;
          bytes = token.now.text;
        }) (with_note self.new before.new) result }
    {
        let answer = self.come(token, before);
        if answer.is_last() {
            self.over = true;
        }
        answer
    }

    /// The outcome for a token: reductions are made before it, and then it is read or rejected. If it is rejected, the
    /// stack as it was is noted.
    #[inline(always)] // so that the loop over tokens gets the registers
    fn come(&mut self, token: &Token<'_>, before: &mut Before) -> TokenOutcome
        requires not_end { token.now.terminal.0 ≢ 0 }
        requires terminal { token.now.terminal.0 < self.old.machine.terminals }
        ensures comes { Comes (with_note self.old before.old) (record {
          terminal = token.now.terminal.0;
          at = token.now.at;
          bytes = token.now.text;
        }) (with_note self.new before.new) result }
        ensures machine { self.new.machine ≡ self.old.machine }
        ensures over { self.new.over ≡ self.old.over }
    {
        // the invariant guarantees that the stack as it was can be reconstructed
        let _ = &self.machine;
        match self.settle(token.terminal, before) {
            Settled::Reads(state) => match self.read(state, token) {
                Ok(()) => TokenOutcome::Reads,
                Err(OutOfMemory) => TokenOutcome::OutOfMemory,
            },
            Settled::Accepts => self.acceptance(),
            Settled::Refuses => TokenOutcome::Refuses,
            Settled::FaultyTables => TokenOutcome::FaultyTables,
            Settled::OutOfMemory => TokenOutcome::OutOfMemory,
        }
    }

    /// Processes the end of the text: makes the reductions before it, and then accepts or rejects it. The parse has
    /// then ended. If the end is rejected, the stack as it was is noted.
    pub(crate) fn end(&mut self, before: &mut Before) -> TokenOutcome
        requires { 0 < self.old.machine.terminals }
        ensures call { (at : ℕ) → IsTake (with_note self.old before.old) (record {
          terminal = 0;
          at = at;
          bytes = [];
        }) (with_note self.new before.new) result }
        ensures last { result ≢ answers.Reads }
    {
        if self.over {
            return TokenOutcome::Over;
        }
        self.over = true;
        match self.settle(Sym(0), before) {
            Settled::Accepts => self.acceptance(),
            Settled::Refuses => TokenOutcome::Refuses,
            Settled::FaultyTables => TokenOutcome::FaultyTables,
            Settled::OutOfMemory => TokenOutcome::OutOfMemory,
            // the end is never shifted
            Settled::Reads(_) => unreachable!(),
        }
    }

    /// The outcome of a call if the tables accept: they are faulty if there is no term.
    fn acceptance(&self) -> TokenOutcome
        ensures { IsAcceptance self.now.stack result }
    {
        if self.stack.is_empty() {
            return TokenOutcome::FaultyTables;
        }
        TokenOutcome::Accepts
    }

    /// Pushes a token that is read onto the stack.
    #[inline(always)] // so that the loop over tokens gets the registers
    fn read(&mut self, state: StateNo, token: &Token<'_>) -> Result<(), OutOfMemory>
        requires { action_of self.old.machine (top_of self.old.stack) token.now.terminal.0 ≡ shift state.0 }
        ensures stack { OnOk result (self.new.stack ≡ record {
          state = state.0;
          term = leaf token.now.terminal.0 token.now.text;
        } ∷ self.old.stack) }
        ensures count { OnOk result (self.new.count ≡ self.old.count + 1) }
        ensures over { self.new.over ≡ self.old.over }
        ensures machine { self.new.machine ≡ self.old.machine }
    {
        self.count = self.number()?;
        make_room(&mut self.stack)?;
        let Some(term) = self.forest.leaf_as_block(token.terminal, &token.text) else {
            return self.read_long(state, token.terminal, token.text.bytes());
        };
        self.stack.push_reserved(Level { state, term });
        Ok(())
    }

    /// Pushes a token that is read and counted, and whose text isn't copied as a block, onto the stack.
    #[inline(never)] // so that the others get the registers; passing it the token would put that into memory
    fn read_long(&mut self, state: StateNo, terminal: Sym, text: &[u8]) -> Result<(), OutOfMemory>
        requires { action_of self.old.machine (top_of self.old.stack) terminal.0 ≡ shift state.0 }
        ensures stack { OnOk result (self.new.stack ≡ record {
          state = state.0;
          term = leaf terminal.0 text.now;
        } ∷ self.old.stack) }
        ensures count { self.new.count ≡ self.old.count }
        ensures over { self.new.over ≡ self.old.over }
        ensures machine { self.new.machine ≡ self.old.machine }
    {
        let text = Front::new(text, text.len());
        let term = self.forest.leaf_without_block(terminal, &text)?;
        self.stack.reserve(1)?;
        self.stack.push_reserved(Level { state, term });
        Ok(())
    }

    /// Accepts with the term on top of the stack, which uses no part of the forest twice.
    pub(crate) fn accept(&self) -> Result<Step, ParseFault>
        ensures accepted { IsAccepted self.now.forest self.now.stack result }
        ensures paid { (root : TermRef) (t : Term) → result ≡ Ok (step.Done root)
            → StandsFor self.now.forest root t → IsBoundedBySize self.now.forest t }
    {
        match self.stack.last() {
            Some(level) => Ok(Step::Done(level.term)),
            None => Err(ParseFault::FaultyTables),
        }
    }

    /// The terminals expected in place of the next token, with the stack as it was.
    pub(crate) fn expected(&self, before: &Before) -> Result<Vec<Sym>, OutOfMemory>
        requires { IsTellable (with_note self.now before.now) }
        ensures { IfOk result (λ ts. AreExpected self.now.machine (before_on self.now.stack before.now)
            (map (λ t. t.0) ts.items)) }
    {
        let states = before.states(self.alloc, &self.stack)?;
        expected(self.alloc, &self.machine, &states)
    }

    /// The number of the next token.
    pub(crate) fn number(&self) -> Result<u64, OutOfMemory>
        ensures { IfOk result (λ n. n ≡ self.now.count + 1) }
    {
        self.count.checked_add(1).ok_or(OutOfMemory)
    }
}

/// Reserves capacity for one more level, if there is none.
#[inline(always)] // like `read`
fn make_room(stack: &mut Vec<Level>) -> Result<(), OutOfMemory>
    ensures items { stack.new.items ≡ stack.old.items }
    ensures room { OnOk result (length stack.new.items < vec_capacity stack.new) }
{
    if stack.len() == stack.capacity() {
        return grow(stack);
    }
    Ok(())
}

/// Reserves capacity for one more level.
#[inline(never)] // so that most tokens get the registers
fn grow(stack: &mut Vec<Level>) -> Result<(), OutOfMemory>
    ensures items { stack.new.items ≡ stack.old.items }
    ensures room { OnOk result (length stack.new.items < vec_capacity stack.new) }
{
    stack.reserve(1)?;
    Ok(())
}
