ghost use Rattle.std.specs.Prelude.{◌≡◌, ◌≤◌, ◌+◌, length, map, IfOk};
ghost use Rattle.ly_feed.specs.SyntaxError.{token_of};
ghost use Rattle.ly_feed.specs.Vocabularies.{vocabulary_of};
ghost use Rattle.ly_spans.specs.Spans.{json_span, IsWithin};
ghost use Rattle.ly_places.specs.PlacedAnswer.{placed_line, refused, unmatched};
ghost use Rattle.ly_tree.specs.Shown.{Vocabulary};

use ly_base::{OutOfMemory, Sym};
use ly_feed::{json_refused_line, json_unmatched_line};
use ly_parse::Token;
use ly_spans::{LineStarts, Span, push_json_span};
use ly_tables::TableSet;
use std::alloc::Global;

/// The line of JSON for an unexpected token of a text, or its end, with its location. The number of the token is
/// counted from 1.
///
/// It fails if an allocation fails.
pub fn refused_line(
    alloc: Global,
    set: &TableSet,
    text: &[u8],
    number: u64,
    token: &Token<'_>,
    expected: &[Sym],
) -> Result<Vec<u8>, OutOfMemory>
    requires { token.now.at + length token.now.text ≤ length text.now }
    ensures { IfOk result (λ line. line.items ≡ placed_line (vocabulary_of set.now) text.now
        (refused number (token_of token.now) (map (λ t. t.0) expected.now))) }
{
    let start = token.at as usize;
    let end = start + token.text.len();
    let places = places(alloc, text, Span { start, end })?;
    json_refused_line(alloc, set, number, token, &places, expected)
}

/// The line of JSON for the byte of a text at which no rule matches, with its location.
///
/// It fails if an allocation fails.
pub fn unmatched_line(alloc: Global, text: &[u8], byte: u64) -> Result<Vec<u8>, OutOfMemory>
    requires { byte ≤ length text.now }
    ensures { (v : Vocabulary) → IfOk result (λ line. line.items ≡ placed_line v text.now (unmatched byte)) }
{
    let start = byte as usize;
    let places = places(alloc, text, Span { start, end: start })?;
    json_unmatched_line(alloc, byte, &places)
}

/// The members with the span of a part of a text. It fails if an allocation fails.
fn places(alloc: Global, text: &[u8], extent: Span) -> Result<Vec<u8>, OutOfMemory>
    requires { IsWithin (length text.now) extent }
    ensures { IfOk result (λ members. members.items ≡ json_span text.now extent) }
{
    let lines = LineStarts::of(alloc, text)?;
    let mut members = Vec::new(alloc);
    push_json_span(&mut members, &lines, extent)?;
    Ok(members)
}
