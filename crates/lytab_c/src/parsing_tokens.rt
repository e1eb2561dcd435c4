ghost use Rattle.std.specs.Prelude.{◌≡◌, None, false, length, map, true, All, IfErr, IfOk, IfSome};
ghost use Rattle.ly_places.specs.TokenAnswer.{IsTokenOver};
ghost use Rattle.lytab_c.specs.Private.TokenPutting.{AreTokensSaid, IsFaultOver, IsParsedOver};
ghost use Rattle.lytab_c.specs.Statuses.{status_number};
ghost use Rattle.lytab_c.specs.Tokens.{placed_from, AreTokensParsed, IsFirstWrong};
ghost use Rattle.lytab_c.specs.declared.status.Status.{Status as Code};

use crate::caller_token::CallerToken;
use crate::parsing::{put_parts, put_syntax_error};
use crate::part::Part;
use crate::report::Report;
use crate::status::Status;
use ly_base::OutOfMemory;
use ly_drive::DriveFault;
use ly_feed::TextFault;
use ly_places::{Parsed, PlacedToken, parse_tokens};
use ly_tables::{TableSet, read_tables};
use std::alloc::Global;

/// Parses tokens of a text with a table file and writes the parts of their tree. The parser reads exactly these tokens;
/// the scanner of the table file doesn't run. The blocks are written as by `lytab_parse`. The tokens may be in any
/// order.
#[unsafe(no_mangle)]
pub extern "C" fn lytab_parse_tokens(
    alloc: Global,
    tables: &[u8],
    text: &[u8],
    tokens: &[CallerToken],
    parts: &mut [Part],
    expected: &mut [u32],
    report: &mut Report,
) -> u32
    ensures parsed { (status : Code) × (result ≡ status_number status)
        × AreTokensParsed tables.now text.now tokens.now
        (record { parts = parts.old; expected = expected.old })
        (record { parts = parts.new; expected = expected.new }) report.new status }
    ensures parts { length parts.new ≡ length parts.old }
    ensures expected { length expected.new ≡ length expected.old }
{
    parse_tokens_into(alloc, tables, text, tokens, parts, expected, report).number()
}

/// Parses tokens of a text with a table file and writes the parts of their tree to blocks, if they fit.
fn parse_tokens_into(
    alloc: Global,
    tables: &[u8],
    text: &[u8],
    tokens: &[CallerToken],
    parts: &mut [Part],
    expected: &mut [u32],
    report: &mut Report,
) -> Status
    ensures { AreTokensParsed tables.now text.now tokens.now
        (record { parts = parts.old; expected = expected.old })
        (record { parts = parts.new; expected = expected.new }) report.new result }
{
    match read_tables(alloc, tables) {
        Ok((set, _version)) => answer_tokens(alloc, &set, text, tokens, parts, expected, report),
        Err(fault) => report.tell_fault(&DriveFault::Tables(fault)),
    }
}

/// Parses tokens of a text with a table set and writes the parts of their tree to blocks, if they fit.
fn answer_tokens(
    alloc: Global,
    set: &TableSet,
    text: &[u8],
    tokens: &[CallerToken],
    parts: &mut [Part],
    expected: &mut [u32],
    report: &mut Report,
) -> Status
    ensures { AreTokensSaid set.now text.now tokens.now
        (record { parts = parts.old; expected = expected.old })
        (record { parts = parts.new; expected = expected.new }) report.new result }
{
    if let Some(number) = wrong_token(tokens, set.terminals().len(), text.len()) {
        *report = Report::numbering(number);
        return Status::Misused;
    }
    match parse_by(alloc, set, text, tokens) {
        Ok(Parsed::Tree(list)) => put_parts(&list, parts, report),
        Ok(Parsed::Refused(syntax_error)) => put_syntax_error(&syntax_error, expected, report),
        Err(fault) => report.tell_fault(&DriveFault::Text(fault)),
    }
}

/// The number of the first token that has no valid terminal or isn't within the text. The first token has number 1.
fn wrong_token(tokens: &[CallerToken], terminals: usize, count: usize) -> Option<u64>
    ensures wrong { IfSome result (IsFirstWrong terminals count tokens.now) }
    ensures right { result ≡ None → All (λ t. IsTokenOver terminals count (placed_from t)) tokens.now }
{
    for (index, token) in tokens.iter().enumerate() {
        let is_right = is_over(token, terminals, count);
        if !is_right {
            return Some(index as u64 + 1);
        }
    }
    None
}

/// Whether a token's terminal is below a count and isn't the end, and its span is within this many bytes.
fn is_over(token: &CallerToken, terminals: usize, count: usize) -> bool
    ensures right { result ≡ true → IsTokenOver terminals count (placed_from token.now) }
    ensures wrong { result ≡ false → IsTokenOver terminals count (placed_from token.now) → ⊥ }
{
    token.terminal >= 1
        && (token.terminal as usize) < terminals
        && token.start <= token.end
        && token.end <= count as u64
}

/// The result of a table set for tokens of a text.
fn parse_by<'t>(
    alloc: Global,
    set: &TableSet,
    text: &'t [u8],
    tokens: &[CallerToken],
) -> Result<Parsed<'t>, TextFault>
    requires { All (λ t. IsTokenOver (length set.now.terminals) (length text.now) (placed_from t)) tokens.now }
    ensures parsed { IfOk result (IsParsedOver set.now text.now tokens.now) }
    ensures fault { IfErr result (IsFaultOver set.now text.now tokens.now) }
{
    let placed = placed_tokens(alloc, tokens)?;
    parse_tokens(alloc, set, text, &placed)
}

/// The same tokens as a parser takes them. Returns an error if memory runs out.
fn placed_tokens(alloc: Global, tokens: &[CallerToken]) -> Result<Vec<PlacedToken>, OutOfMemory>
    ensures { IfOk result (λ placed. placed.items ≡ map placed_from tokens.now) }
{
    Ok(tokens.iter().map(|token| token.placed()).collect(alloc)?)
}
