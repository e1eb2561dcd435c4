ghost use Rattle.std.specs.Prelude.{◌≡◌, ◌++◌, ◌<◌, ℕ, List, codes, IfErr, IfSome, MatchBool, MatchOption, length};
ghost use Rattle.ly_base.specs.Language.{NameBefore};
ghost use Rattle.ly_base.specs.declared.language.Language.TheVariants.{Lex};
ghost use Rattle.ly_lexread.specs.Definitions.{BlanksBefore, Declares, DeclaresAll, DirectiveLine, directive_of};
ghost use Rattle.ly_lexread.specs.Definitions.{begins_among, is_one_of, IsIdle, IsNumber};
ghost use Rattle.ly_lexread.specs.Faults.{IsAtMost};
ghost use Rattle.ly_lexread.specs.Lines.{left_in};
ghost use Rattle.ly_lexread.specs.Private.Definitions.{IsDirected};

use crate::blanks::{are_blanks, behind_blanks};
use crate::conditions::Conditions;
use crate::fault::{LexFault, LexFaultKind};
use crate::rest::Line;
use ly_base::{Language, leading_digits, leading_name};
use std::alloc::Global;

/// The kind of directive, by the word after `%`.
#[derive(Clone, Copy)]
pub(crate) enum Directed {
    /// The names of inclusive conditions.
    Inclusive,
    /// The names of exclusive conditions.
    Exclusive,
    /// The size of a table, which is ignored.
    Size,
    /// The type of `yytext`, which is ignored. Nothing follows the word.
    TextKind,
    /// An unknown word.
    Unknown,
}

/// Reads a line that begins with `%`. Returns the conditions including those that it declares.
pub(crate) fn read_directive(
    alloc: Global,
    line: Line<'_>,
    conditions: Conditions,
) -> Result<Conditions, LexFault>
    ensures these { IsDirected (DirectiveLine (left_in line.entry.text.bytes.now line.entry.bytes.now) conditions
        line.entry.bytes.now) result }
    ensures within { IfErr result (IsAtMost line.entry.text.whole) }
{
    let Some((word, rest)) = directive_word(line.bytes) else {
        return Err(line.fault(LexFaultKind::BadDefinition, behind_sign(line.bytes)));
    };
    let directed = directive_of(word);
    match directed {
        Directed::Inclusive => declare(alloc, rest, line, conditions, false),
        Directed::Exclusive => declare(alloc, rest, line, conditions, true),
        _ => {
            if is_idle(directed, rest) {
                Ok(conditions)
            } else {
                let misplaced = misplaced_in(directed, line.bytes, rest);
                Err(line.fault(LexFaultKind::BadDefinition, misplaced))
            }
        }
    }
}

/// Returns what follows the first byte.
fn behind_sign(line: &[u8]) -> &[u8] {
    match line.split_first() {
        Some((_sign, behind)) => behind,
        None => line,
    }
}

/// The rest of the line of an ignored directive from the first wrong byte on: the whole line if the word is unknown,
/// else what follows blanks, and a number if one is allowed.
fn misplaced_in<'t>(directed: Directed, line: &'t [u8], rest: &'t [u8]) -> &'t [u8] {
    let behind = behind_blanks(rest).unwrap_or(rest);
    match directed {
        Directed::Size => match leading_digits(behind) {
            Some((_digits, rest)) => behind_blanks(rest).unwrap_or(rest),
            None => behind,
        },
        Directed::TextKind => behind,
        _ => line,
    }
}

/// Whether this may follow the word of an ignored directive.
fn is_idle(directed: Directed, rest: &[u8]) -> bool
    ensures { MatchBool result (IsIdle directed rest.now) (IsIdle directed rest.now → ⊥) }
{
    match directed {
        Directed::Size => is_number(rest),
        Directed::TextKind => are_blanks(rest),
        _ => false,
    }
}

/// Splits the text after the `%` into the word and what follows it.
fn directive_word(line: &[u8]) -> Option<(&[u8], &[u8])>
    ensures { MatchOption result
        ((behind word rest : List ℕ) → line.now ≡ codes "%" ++ behind → NameBefore Lex behind word rest → ⊥)
        (λ found. (behind : List ℕ) × (line.now ≡ codes "%" ++ behind)
        × NameBefore Lex behind found.0.now found.1.now) }
{
    leading_name(line.strip_prefix(b"%")?, Language::Lex)
}

/// The kind of directive that this word begins.
fn directive_of(word: &[u8]) -> Directed
    ensures { result ≡ directive_of word.now }
{
    if word.contains(&b'_') {
        return Directed::Unknown;
    }
    if begins_among(word, b"sS") {
        Directed::Inclusive
    } else if begins_among(word, b"xX") {
        Directed::Exclusive
    } else if is_one_of(word, b"pnaeko") {
        Directed::Size
    } else if word == b"array".as_slice() || word == b"pointer".as_slice() {
        Directed::TextKind
    } else {
        Directed::Unknown
    }
}

/// Whether the word begins with one of these bytes.
fn begins_among(word: &[u8], bytes: &[u8]) -> bool
    ensures { result ≡ begins_among bytes.now word.now }
{
    match word.split_first() {
        Some((first, _behind)) => bytes.contains(first),
        None => false,
    }
}

/// Whether the word is a single byte, one of these.
fn is_one_of(word: &[u8], bytes: &[u8]) -> bool
    ensures { result ≡ is_one_of bytes.now word.now }
{
    match word {
        [byte] => bytes.contains(byte),
        _ => false,
    }
}

/// Whether the text is blanks, a decimal number, and perhaps blanks.
fn is_number(text: &[u8]) -> bool
    ensures { MatchBool result (IsNumber text.now) (IsNumber text.now → ⊥) }
{
    let Some(number) = behind_blanks(text) else {
        return false;
    };
    match leading_digits(number) {
        Some((_digits, rest)) => are_blanks(rest),
        None => false,
    }
}

/// Adds the conditions that a line declares, at least one.
fn declare(
    alloc: Global,
    names: &[u8],
    line: Line<'_>,
    conditions: Conditions,
    exclusive: bool,
) -> Result<Conditions, LexFault>
    ensures these { IsDirected (Declares exclusive (left_in line.entry.text.bytes.now line.entry.bytes.now) conditions
        names.now) result }
    ensures within { IfErr result (IsAtMost line.entry.text.whole) }
{
    if are_blanks(names) {
        return Err(line.fault(LexFaultKind::BadDefinition, b""));
    }
    declare_all(alloc, names, line, conditions, exclusive)
}

/// Adds the conditions on a line, each after blanks.
fn declare_all(
    alloc: Global,
    names: &[u8],
    line: Line<'_>,
    conditions: Conditions,
    exclusive: bool,
) -> Result<Conditions, LexFault>
    ensures these { IsDirected (DeclaresAll exclusive (left_in line.entry.text.bytes.now line.entry.bytes.now)
        conditions names.now) result }
    ensures within { IfErr result (IsAtMost line.entry.text.whole) }
{
    let mut all = conditions;
    let mut left = names;
    while !are_blanks(left) {
        let Some((here, name, behind)) = next_name(left) else {
            let misplaced = behind_blanks(left).unwrap_or(left);
            return Err(line.fault(LexFaultKind::BadDefinition, misplaced));
        };
        if all.find(name).is_some() {
            return Err(line.fault(LexFaultKind::ConditionTwice, here));
        }
        all = all.with_condition(alloc, name, exclusive, line.left_from(here))?;
        left = behind;
    }
    Ok(all)
}

/// Skips the blanks at the start and reads a name. Returns the text after the blanks, the name, and what follows it.
fn next_name(text: &[u8]) -> Option<(&[u8], &[u8], &[u8])>
    ensures these { MatchOption result ((behind name rest : List ℕ) → BlanksBefore text.now behind
        → NameBefore Lex behind name rest → ⊥)
        (λ found. BlanksBefore text.now found.0.now × NameBefore Lex found.0.now found.1.now found.2.now) }
    ensures shorter { IfSome result (λ found. length found.2.now < length text.now) }
{
    let here = behind_blanks(text)?;
    let (name, behind) = leading_name(here, Language::Lex)?;
    Some((here, name, behind))
}
