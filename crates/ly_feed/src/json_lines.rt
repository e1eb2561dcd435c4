ghost use Rattle.std.specs.Prelude.{◌≡◌, ◌++◌, IfOk, OnOk, map};
ghost use Rattle.ly_feed.specs.JsonLines.{behind_commas, json_expected, json_names, json_refusal, json_refused_with};
ghost use Rattle.ly_feed.specs.JsonLines.{json_token, json_unmatched_with};
ghost use Rattle.ly_feed.specs.SyntaxError.{token_of, verdict_of};
ghost use Rattle.ly_feed.specs.Private.Running.{words_of};
ghost use Rattle.ly_feed.specs.Verdict.{json_printed};
ghost use Rattle.ly_feed.specs.Vocabularies.{vocabulary_of};

use crate::names::Names;
use crate::syntax_error::SyntaxError;
use ly_base::{OutOfMemory, Sym};
use ly_parse::Token;
use ly_print::{push_json_content, push_json_name};
use ly_tables::TableSet;
use std::alloc::Global;
use std::io::Write;

/// The line of JSON for an error in a text.
pub(crate) fn json_line(
    alloc: Global,
    names: &Names<'_>,
    syntax_error: &SyntaxError<'_>,
) -> Result<Vec<u8>, OutOfMemory>
    ensures { IfOk result (λ line. line.items ≡ json_printed (words_of names.now) (verdict_of syntax_error.now)) }
{
    match syntax_error {
        SyntaxError::Refused {
            number,
            token,
            expected,
        } => refused_line(alloc, names, *number, token, b"", expected),
        SyntaxError::NoRule { byte } => json_unmatched_line(alloc, *byte, b""),
    }
}

/// The line of JSON for an unexpected token, or the end, by its number, counted from 1. The members `places` follow its
/// offset, and give its location.
///
/// It fails if an allocation fails.
pub fn json_refused_line(
    alloc: Global,
    set: &TableSet,
    number: u64,
    token: &Token<'_>,
    places: &[u8],
    expected: &[Sym],
) -> Result<Vec<u8>, OutOfMemory>
    ensures { IfOk result (λ line. line.items ≡ json_refused_with (vocabulary_of set.now) number (token_of token.now)
        places.now (map (λ t. t.0) expected.now)) }
{
    refused_line(alloc, &Names::of(set), number, token, places, expected)
}

/// The line of JSON for a byte at which no rule matches. The members `places` follow its offset, and give its location.
///
/// It fails if an allocation fails.
pub fn json_unmatched_line(alloc: Global, byte: u64, places: &[u8]) -> Result<Vec<u8>, OutOfMemory>
    ensures { IfOk result (λ line. line.items ≡ json_unmatched_with byte places.now) }
{
    let mut line = Vec::new(alloc);
    write!(line, "{{\"error\":\"unmatched\",\"byte\":{byte}").map_err(|_| OutOfMemory)?;
    line.extend_from_slice(places)?;
    line.extend_from_slice(b"}\n")?;
    Ok(line)
}

/// The line for an unexpected token, with these names.
fn refused_line(
    alloc: Global,
    names: &Names<'_>,
    number: u64,
    token: &Token<'_>,
    places: &[u8],
    expected: &[Sym],
) -> Result<Vec<u8>, OutOfMemory>
    ensures { IfOk result (λ line. line.items ≡ json_refused_with (words_of names.now) number (token_of token.now)
        places.now (map (λ t. t.0) expected.now)) }
{
    let mut line = refusal(alloc, number, token.at)?;
    line.extend_from_slice(places)?;
    push_token(&mut line, names, token)?;
    push_expected(&mut line, names, expected)?;
    line.extend_from_slice(b"}\n")?;
    Ok(line)
}

/// The members for an unexpected token, or the end: its number, counted from 1, and its offset.
fn refusal(alloc: Global, number: u64, byte: u64) -> Result<Vec<u8>, OutOfMemory>
    ensures { IfOk result (λ line. line.items ≡ json_refusal number byte) }
{
    let mut line = Vec::new(alloc);
    write!(
        line,
        "{{\"error\":\"refused\",\"number\":{number},\"byte\":{byte}"
    )
    .map_err(|_| OutOfMemory)?;
    Ok(line)
}

/// Appends the members of the token. The end has only a name.
fn push_token(line: &mut Vec<u8>, names: &Names<'_>, token: &Token<'_>) -> Result<(), OutOfMemory>
    ensures { OnOk result
        (line.new.items ≡ line.old.items ++ json_token (words_of names.now) (token_of token.now)) }
{
    if token.terminal.0 == 0 {
        line.extend_from_slice(b",\"token\":\"$end\"")?;
    } else {
        line.extend_from_slice(b",\"token\":")?;
        push_json_name(line, names.of_terminal(token.terminal))?;
        line.push(b',')?;
        push_json_content(line, token.text.bytes())?;
    }
    Ok(())
}

/// Appends the expected terminals.
fn push_expected(line: &mut Vec<u8>, names: &Names<'_>, expected: &[Sym]) -> Result<(), OutOfMemory>
    ensures { OnOk result (line.new.items
        ≡ line.old.items ++ json_expected (words_of names.now) (map (λ t. t.0) expected.now)) }
{
    line.extend_from_slice(b",\"expected\":[")?;
    push_names(line, names, expected)?;
    line.push(b']')?;
    Ok(())
}

/// Appends the names of terminals, a comma before each but the first.
fn push_names(line: &mut Vec<u8>, names: &Names<'_>, terminals: &[Sym]) -> Result<(), OutOfMemory>
    ensures { OnOk result (line.new.items
        ≡ line.old.items ++ json_names (words_of names.now) (map (λ t. t.0) terminals.now)) }
{
    match terminals.split_first() {
        Some((first, others)) => {
            push_json_name(line, names.of_terminal(*first))?;
            push_behind_commas(line, names, others)
        }
        None => Ok(()),
    }
}

/// Appends the names of terminals, a comma before each.
fn push_behind_commas(
    line: &mut Vec<u8>,
    names: &Names<'_>,
    terminals: &[Sym],
) -> Result<(), OutOfMemory>
    ensures { OnOk result (line.new.items
        ≡ line.old.items ++ behind_commas (words_of names.now) (map (λ t. t.0) terminals.now)) }
{
    for &terminal in terminals {
        line.push(b',')?;
        push_json_name(line, names.of_terminal(terminal))?;
    }
    Ok(())
}
