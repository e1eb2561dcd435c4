ghost use Rattle.std.specs.Prelude.{◌≡◌, ℕ, List, [], Err, false, IfErr, IfOk, OnOk};
ghost use Rattle.std.specs.Io.KnownBytes.{Appends};
ghost use Rattle.ly_print.specs.Device.{next_count, IsFailedWrite, WroteNothing};
ghost use Rattle.ly_print.specs.TextWriter.{IsCutShort};
ghost use Rattle.ly_feed.specs.Held.{bytes_held, nothing_read, IsAnswerOf, IsFinish, IsOver, IsPiece, IsRestOf};
ghost use Rattle.ly_feed.specs.TextFault.{IsOfEnding, failed_write};
ghost use Rattle.ly_feed.specs.Verdict.{faulty};
ghost use Rattle.ly_feed.specs.declared.outcome.Outcome.{Outcome as Answered};

use crate::feed_fault::FeedFault;
use crate::lines::{told, write_ended};
use crate::need::Need;
use crate::outcome::Outcome;
use crate::prepared::Prepared;
use crate::running::{Halt, TableParser, run_on, run_to_end};
use crate::text_fault::TextFault;
use crate::window::Window;
use ly_parse::Parser;
use ly_print::{AnswerForm, MemSink, Sink};
use ly_scan::{Lexer, Matcher, RowStart};
use ly_tables::TableSet;
use std::alloc::Global;
use std::marker::Model;

/// A parser for a text that arrives in chunks, with a prepared table set. Of the text it holds only the bytes of the match that
/// isn't decided yet; of the tree, what is on the parser's stack.
///
/// The result doesn't depend on how the text is split into chunks.
#[derive(Drop)]
pub struct Feed<'a> {
    /// The allocator.
    alloc: Global,
    /// The table set.
    set: &'a TableSet,
    /// The form of the result.
    form: AnswerForm,
    /// The set's lexer.
    lexer: &'a Lexer,
    /// The facts of its states.
    facts: &'a [u32],
    /// The set's parser, with what it has read.
    parser: TableParser<'a>,
    /// The bytes of the match that isn't decided, and its position.
    window: Window,
    /// The scan over these bytes.
    matcher: Matcher<RowStart>,
    /// Whether the feed has ended.
    over: bool,
}

impl<'a> Model for Feed<'a> {
    ghost use Rattle.std.specs.Coded.{codes};
    ghost use Rattle.ly_feed.specs.Held as value;
    ghost use Rattle.ly_feed.specs.Private.Feeding.{held_from, IsFeed};
    ghost use Rattle.ly_parse.specs.ParseCode.{level_code};

    ghost Value = { value.Held };

    ghost coded = { Prim.hlevel (codes, level_code) };

    ghost view = { λ f. held_from f.set.now f.form f.window f.parser f.over };

    ghost invariant = { λ f. IsFeed f };
}

impl<'a> Feed<'a> {
    /// A feed without any text, whose result is written in this form.
    pub fn new(prepared: &'a Prepared<'a>, form: AnswerForm) -> Feed<'a>
        ensures { result ≡ nothing_read form prepared.now }
    {
        let alloc = prepared.alloc;
        let set = prepared.set;
        let lexer = &prepared.lexer;
        let window = Window::new(alloc);
        let matcher = lexer.matcher_at(&window.place());
        Feed {
            alloc,
            set,
            form,
            lexer,
            facts: &prepared.facts,
            parser: Parser::new(alloc, set.machine()),
            window,
            matcher,
            over: false,
        }
    }

    /// The number of bytes held: after `Need::More` those from the start of the match that isn't decided, and 0 once
    /// the feed has ended.
    pub fn held(&self) -> usize
        ensures { result ≡ bytes_held self.now }
    {
        if self.over { 0 } else { self.window.len() }
    }

    /// Takes the next bytes of the text: processes all matches that they decide, and returns the result if it is known,
    /// whatever follows. After any result other than `Need::More` the feed has ended.
    ///
    /// The errors are those of `FeedFault`.
    pub fn piece(&mut self, bytes: &[u8]) -> Result<Need, FeedFault>
        ensures { IsPiece self.old bytes.now self.new result }
    {
        if self.over {
            return Err(FeedFault::Over);
        }
        self.over = true;
        self.window.push(bytes)?;
        if self.lexer.goes_on(&mut self.matcher, bytes) {
            self.over = false;
            return Ok(Need::More);
        }
        let start = self.window.place();
        let place = match run_on(
            self.alloc,
            self.set,
            self.lexer,
            Some(self.facts),
            &mut self.parser,
            start,
            false,
        )? {
            Halt::At(place) => place,
            Halt::Stopped(syntax_error) => {
                let (outcome, lines) = told(self.alloc, self.set, self.form, syntax_error)?;
                return Ok(Need::Settled(outcome, lines));
            }
        };
        self.matcher = self.lexer.matcher_at(&place);
        let (at, line, condition) = (place.at(), place.at_line_start(), place.condition());
        self.window.give_up(at, line, condition);
        self.over = false;
        Ok(Need::More)
    }

    /// Ends the text, and returns its result. The feed has then ended.
    ///
    /// The errors are those of `FeedFault` except `TooLong`.
    pub fn finish(&mut self) -> Result<(Outcome, Vec<u8>), FeedFault>
        ensures { IsFinish self.old self.new result }
    {
        if self.over {
            return Err(FeedFault::Over);
        }
        let mut sink = MemSink::new(self.alloc);
        let outcome = self.finish_into(&mut sink)?;
        Ok((outcome, sink.into_bytes()))
    }

    /// Ends the text, and writes its result. Nothing is written before the outcome is known; after that nothing but a
    /// write can fail. A tree is written while it is printed. The feed has then ended.
    ///
    /// The errors are those of `TextFault` except `TooLong` and `Read`.
    pub fn finish_into<W: Sink>(&mut self, writer: &mut W) -> Result<Outcome, TextFault>
        requires { self.old.over ≡ false }
        ensures over { IsOver self.old self.new }
        ensures answered { IfOk result (λ o. (answer : List ℕ) × IsAnswerOf self.old o answer
            × Appends (W.contents writer.old) (W.contents writer.new) answer) }
        ensures beginning { (written : ℕ) → result ≡ Err (TextFault.Write written)
            → (answer : List ℕ) × (o : Answered) × IsAnswerOf self.old o answer
            × IsCutShort (W.contents writer.old) (W.contents writer.new) written answer }
        ensures faulty { result ≡ Err TextFault.FaultyTables → IsRestOf self.old [] faulty }
        ensures ending { IfErr result IsOfEnding }
        ensures write { IfErr result (λ e. IsFailedWrite (failed_write e)
            → W.failures writer.new ≡ next_count (W.failures writer.old)) }
        ensures writer_held { OnOk result (W.failures writer.new ≡ W.failures writer.old) }
        ensures untouched { IfErr result (λ e. WroteNothing (failed_write e) → writer.new ≡ writer.old) }
    {
        self.over = true;
        let place = self.window.place();
        let ended = run_to_end(
            self.alloc,
            self.set,
            self.lexer,
            Some(self.facts),
            &mut self.parser,
            place,
        )?;
        write_ended(
            self.alloc,
            self.set,
            self.form,
            self.parser.forest(),
            ended,
            writer,
        )
    }
}
