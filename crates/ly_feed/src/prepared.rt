ghost use Rattle.std.specs.Prelude.{◌≡◌, IfOk, false};
ghost use Rattle.ly_base.specs.Lexed.{start_of};
ghost use Rattle.ly_feed.specs.Closed.{progress_of, CanRun, IsClosed};
ghost use Rattle.ly_feed.specs.ScanPart.{scan_part_of};
ghost use Rattle.ly_feed.specs.TokenSpans.{AreSpansOf};

use crate::lexer_of_set::lexer_of;
use crate::running::{Ended, TableParser, run_to_end};
use crate::text_fault::TextFault;
use crate::token_spans::token_spans;
use crate::told::facts_of;
use ly_base::{OutOfMemory, Place};
use ly_scan::Lexer;
use ly_spans::Span;
use ly_tables::TableSet;
use std::alloc::Global;
use std::marker::Model;

/// A table set with what a run over a text needs of it: its lexer, and what the states of its scanner determine about
/// tokens. It is made once, in time linear in the size of the tables, and serves any number of texts.
#[derive(Drop)]
pub struct Prepared<'s> {
    /// The allocator.
    pub(crate) alloc: Global,
    /// The table set.
    pub(crate) set: &'s TableSet,
    /// Its lexer.
    pub(crate) lexer: Lexer,
    /// The facts of the lexer's states: what they determine about the lexemes whose scan ends there.
    pub(crate) facts: Vec<u32>,
}

impl<'s> Model for Prepared<'s> {
    ghost use Rattle.ly_feed.specs.LexerOf.{IsLexerOf};
    ghost use Rattle.ly_feed.specs.Private.Told.{AreFactsOf};
    ghost use Rattle.ly_feed.specs.ScanPart.{scan_part_of};
    ghost use Rattle.ly_tables.specs.TableSet as tables;

    ghost Value = { tables.TableSet };

    ghost view = { λ p. p.set.now };

    ghost invariant = { λ p. IsLexerOf (scan_part_of p.set.now) p.lexer
        × AreFactsOf (scan_part_of p.set.now) p.lexer.scanner p.facts.items };
}

impl<'s> Prepared<'s> {
    /// Prepares a table set. It fails if an allocation fails.
    pub fn new(alloc: Global, set: &'s TableSet) -> Result<Prepared<'s>, OutOfMemory>
        ensures { IfOk result (λ p. p ≡ set.now) }
    {
        let lexer = lexer_of(alloc, set)?;
        let facts = facts_of(alloc, set, &lexer)?;
        Ok(Prepared {
            alloc,
            set,
            lexer,
            facts,
        })
    }

    /// The table set.
    pub fn set(&self) -> &'s TableSet
        ensures { result.now ≡ self.now }
    {
        self.set
    }

    /// The allocator that it was made with.
    pub fn alloc(&self) -> Global {
        self.alloc
    }

    /// Runs the scanner and a parser over a whole text. The result is the verdict of the parser's tables on the text.
    ///
    /// The errors are `FaultyTables` and `OutOfMemory`.
    pub fn run<'t>(
        &self,
        parser: &mut TableParser<'_>,
        text: &'t [u8],
    ) -> Result<Ended<'t>, TextFault>
        requires runs { CanRun (scan_part_of self.now) parser.old.machine }
        requires goes_on { parser.old.over ≡ false }
        ensures closed { IsClosed (scan_part_of self.now) parser.old.machine
            (progress_of (start_of text.now) parser.old) parser.new.forest result }
        ensures machine { parser.new.machine ≡ parser.old.machine }
    {
        let start = Place::start(text);
        run_to_end(
            self.alloc,
            self.set,
            &self.lexer,
            Some(&self.facts),
            parser,
            start,
        )
    }

    /// The spans of the tokens of a text, up to the end of the lexer's run. It fails if an allocation fails.
    pub fn token_spans(&self, text: &[u8]) -> Result<Vec<Span>, OutOfMemory>
        ensures { IfOk result (λ spans. AreSpansOf (scan_part_of self.now) text.now spans.items) }
    {
        token_spans(self.alloc, self.set, &self.lexer, &self.facts, text)
    }
}
