ghost use Rattle.std.specs.Prelude.{◌≡◌, ◌≢◌, ◌+◌, ◌<◌, [], ◌∷◌, Ok, false, map, IfOk};
ghost use Rattle.ly_pack.specs.Steady.{IsSteady};
ghost use Rattle.ly_parse.specs.Expected.{AreExpected};
ghost use Rattle.ly_parse.specs.Parse.{IsCall, IsTake, IsTellable};
ghost use Rattle.ly_parse.specs.Private.Answered.{IsRefusal, IsTold};
ghost use Rattle.ly_parse.specs.declared.token_outcome.TokenOutcome.TheVariants as answers;
ghost use Rattle.ly_parse.specs.declared.step.Step.TheVariants as step;
ghost use Rattle.ly_tree.specs.Costs.{IsBoundedBySize};
ghost use Rattle.ly_tree.specs.Forest.{no_terms, StandsFor};
ghost use Rattle.ly_tree.specs.Term.{Term};

use crate::before::Before;
use crate::fault::ParseFault;
use crate::refusal::Refusal;
use crate::running::Running;
use crate::step::Step;
use crate::token::Token;
use crate::token_outcome::TokenOutcome;
use ly_base::{OutOfMemory, StateNo};
use ly_pack::{MachineView, Rows, TableAction};
use ly_tree::{Forest, TermRef};
use std::alloc::Global;
use std::marker::Model;

/// A parse with tables whose runs all end.
#[derive(Drop)]
pub struct Parser<'a, A: Rows<TableAction> + Drop, G: Rows<StateNo> + Drop> {
    /// The parse.
    running: Running<'a, A, G>,
    /// The stack as it was before the token that was rejected last.
    before: Before,
}

impl<'a, A: Rows<TableAction> + Drop, G: Rows<StateNo> + Drop> Model for Parser<'a, A, G> {
    ghost use Rattle.ly_parse.specs.Parse as value;
    ghost use Rattle.std.specs.Coded.{codes};
    ghost use Rattle.ly_parse.specs.ParseCode.{level_code};
    ghost use Rattle.ly_parse.specs.Private.Answered.{with_note};
    ghost use Rattle.ly_tree.specs.GrownCode.{grown_code};

    ghost Value = { value.Parse };

    ghost coded = { Prim.hlevel (codes, level_code, grown_code) };

    ghost view = { λ p. with_note p.running p.before };
}

impl<'a, A: Rows<TableAction> + Drop, G: Rows<StateNo> + Drop> Parser<'a, A, G> {
    /// A parse that has read nothing: only the bottom is on its stack.
    pub fn new(alloc: Global, machine: MachineView<'a, A, G>) -> Self
        requires { IsSteady machine }
        ensures { result ≡ record {
          machine = machine.entry;
          forest = no_terms;
          stack = [];
          count = 0;
          over = false;
          asked = 0 ∷ [];
        } }
    {
        Parser {
            running: Running::new(alloc, machine),
            before: Before::new(alloc),
        }
    }

    /// The terms built so far.
    pub fn forest(&self) -> &Forest
        ensures { result.now ≡ self.now.forest }
    {
        self.running.forest()
    }

    /// Drops the stack, and returns the terms.
    pub fn into_forest(self) -> Forest
        ensures { result ≡ self.entry.forest }
    {
        self.running.into_forest()
    }

    /// Processes a token: makes the reductions before it, and then reads or rejects it. After any result other than
    /// `Reads` the parse has ended. For a rejected token, `refusal` returns the details.
    #[inline(always)] // it is a single call
    pub fn take(&mut self, token: &Token<'_>) -> TokenOutcome
        requires not_end { token.now.terminal.0 ≢ 0 }
        requires terminal { token.now.terminal.0 < self.old.machine.terminals }
        ensures { IsTake self.old (record {
          terminal = token.now.terminal.0;
          at = token.now.at;
          bytes = token.now.text;
        }) self.new result }
    {
        self.running.feed(token, &mut self.before)
    }

    /// Processes a token like `take`. The parse must not have ended.
    #[inline(always)] // it is a single call
    pub fn go_on(&mut self, token: &Token<'_>) -> TokenOutcome
        requires goes_on { self.old.over ≡ false }
        requires not_end { token.now.terminal.0 ≢ 0 }
        requires terminal { token.now.terminal.0 < self.old.machine.terminals }
        ensures { IsTake self.old (record {
          terminal = token.now.terminal.0;
          at = token.now.at;
          bytes = token.now.text;
        }) self.new result }
    {
        self.running.go_on(token, &mut self.before)
    }

    /// Describes the token that was rejected last: its number, and the terminals that would have been read in its
    /// place, or accepted if it is the end, with the stack as it was before the token.
    ///
    /// It fails if an allocation fails, or if tokens have no more numbers.
    #[inline(never)] // so that only a rejected token pays for the list
    pub fn refusal(&self) -> Result<Refusal, OutOfMemory>
        requires { IsTellable self.now }
        ensures number { IfOk result (λ r. r.number ≡ self.now.count + 1) }
        ensures expected { IfOk result (λ r. AreExpected self.now.machine self.now.asked
            (map (λ s. s.0) r.expected.items)) }
    {
        Ok(Refusal {
            number: self.running.number()?,
            expected: self.running.expected(&self.before)?,
        })
    }

    /// Processes a token like `take`, and returns the details. A refusal lists the terminals that would have been read
    /// in its place, or accepted if it is the end, with the stack as it was before the call. After any result other
    /// than `More` the parse has ended.
    ///
    /// The errors are those of `ParseFault`.
    pub fn feed(&mut self, token: &Token<'_>) -> Result<Step, ParseFault>
        requires not_end { token.now.terminal.0 ≢ 0 }
        requires terminal { token.now.terminal.0 < self.old.machine.terminals }
        ensures { IsCall self.old (record {
          terminal = token.now.terminal.0;
          at = token.now.at;
          bytes = token.now.text;
        }) self.new result }
    {
        let answer = self.take(token);
        self.told(answer, token.at)
    }

    /// Processes the end of the text, which is at this offset: makes the reductions before it, and then accepts or
    /// rejects it, like `feed`. The parse has then ended. The term that it accepts with uses no part of the forest
    /// twice, so the forest bounds the length of its printed text.
    ///
    /// The errors are those of `ParseFault`.
    pub fn end(&mut self, at: u64) -> Result<Step, ParseFault>
        requires { 0 < self.old.machine.terminals }
        ensures call { IsCall self.old (record { terminal = 0; at = at; bytes = [] }) self.new result }
        ensures last { result ≢ Ok step.More }
        ensures paid { (root : TermRef) (t : Term) → result ≡ Ok (step.Done root)
            → StandsFor self.new.forest root t → IsBoundedBySize self.new.forest t }
    {
        let answer = self.running.end(&mut self.before);
        self.told(answer, at)
    }

    /// The result of a call with this outcome, whose token is at this offset. A term that is accepted uses no part of
    /// the forest twice.
    fn told(&self, answer: TokenOutcome, at: u64) -> Result<Step, ParseFault>
        requires { answer ≡ answers.Refuses → IsTellable self.now }
        ensures told { IsTold self.now at answer result }
        ensures paid { (root : TermRef) (t : Term) → result ≡ Ok (step.Done root)
            → StandsFor self.now.forest root t → IsBoundedBySize self.now.forest t }
    {
        match answer {
            TokenOutcome::Reads => Ok(Step::More),
            TokenOutcome::Accepts => self.running.accept(),
            TokenOutcome::Refuses => self.refuse(at),
            TokenOutcome::FaultyTables => Err(ParseFault::FaultyTables),
            TokenOutcome::Over => Err(ParseFault::Over),
            TokenOutcome::OutOfMemory => Err(ParseFault::OutOfMemory),
        }
    }

    /// The refusal of the last token, which is at this offset.
    fn refuse(&self, at: u64) -> Result<Step, ParseFault>
        requires { IsTellable self.now }
        ensures { IsRefusal self.now at result }
    {
        let refusal = self.refusal()?;
        Ok(Step::Refused {
            token: refusal.number,
            byte: at,
            expected: refusal.expected,
        })
    }
}
