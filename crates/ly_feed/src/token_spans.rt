ghost use Rattle.std.specs.Prelude.{◌≡◌, IfOk, OnOk};
ghost use Rattle.ly_feed.specs.LexerOf.{IsLexerOf};
ghost use Rattle.ly_feed.specs.Private.Told.{AreFactsOf, IsAhead};
ghost use Rattle.ly_feed.specs.Private.TokenSpans.{AreListedOn};
ghost use Rattle.ly_feed.specs.ScanPart.{scan_part_of};
ghost use Rattle.ly_feed.specs.TokenSpans.{AreSpansOf};

use crate::meaning::{action, terminal};
use crate::running_told::first_of;
use crate::told::told_terminal;
use ly_base::{OutOfMemory, Place, ScanAction};
use ly_print::Front;
use ly_scan::{KnownWalks, Lexer};
use ly_spans::Span;
use ly_tables::TableSet;
use std::alloc::Global;

/// The spans of the tokens of a text, up to the end of the lexer's run. It fails if an allocation fails.
pub(crate) fn token_spans(
    alloc: Global,
    set: &TableSet,
    lexer: &Lexer,
    facts: &[u32],
    text: &[u8],
) -> Result<Vec<Span>, OutOfMemory>
    requires lexer { IsLexerOf (scan_part_of set.now) lexer.now }
    requires facts { AreFactsOf (scan_part_of set.now) lexer.now.scanner facts.now }
    ensures { IfOk result (λ spans. AreSpansOf (scan_part_of set.now) text.now spans.items) }
{
    let mut known = KnownWalks::new(alloc);
    let mut place = Place::start(text);
    let mut spans = Vec::new(alloc);
    loop {
        told_spans(set, lexer, facts, &mut place, &known, &mut spans)?;
        let lexeme = match lexer.next(&mut place, &mut known, true) {
            Ok(Some(lexeme)) => lexeme,
            Err(_) => return Ok(spans),
            // each match of a complete text is decided
            Ok(None) => unreachable!(),
        };
        let ScanAction { begin, emits } = action(set, lexeme.rule);
        let start = place.at();
        let bytes = &place.rest()[..lexeme.taken];
        let has_token = terminal(set, emits, bytes).is_some();
        place.advance(lexeme.taken, begin);
        if !has_token {
            continue;
        }
        let end = place.at();
        spans.push(Span { start, end })?;
    }
}

/// Appends the spans of the tokens from a place on, as long as the facts of states determine the lexemes, and moves the
/// place after them.
fn told_spans(
    set: &TableSet,
    lexer: &Lexer,
    facts: &[u32],
    place: &mut Place<'_>,
    known: &KnownWalks,
    spans: &mut Vec<Span>,
) -> Result<(), OutOfMemory>
    requires lexer { IsLexerOf (scan_part_of set.now) lexer.now }
    requires facts { AreFactsOf (scan_part_of set.now) lexer.now.scanner facts.now }
    ensures listed { OnOk result (AreListedOn (scan_part_of set.now) spans.old.items place.old spans.new.items
        place.new) }
    ensures ahead { OnOk result (IsAhead place.old place.new) }
{
    while let Some(told) = lexer.tell(facts, place, known) {
        let text = Front::new(place.rest(), told.taken);
        let has_token = told_terminal(set.literals(), told.fact, first_of(&text)).is_some();
        let start = place.at();
        place.advance(told.taken, None);
        if has_token {
            let end = place.at();
            spans.push(Span { start, end })?;
        }
    }
    Ok(())
}
