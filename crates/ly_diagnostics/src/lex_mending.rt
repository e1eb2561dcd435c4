//! Fixes errors of a lex file so that what follows can be read.
use crate::edit::push_all;
use crate::lex_names::{defined_names, known_conditions};
use crate::lex_units::{Kind, Unit, first_line};
use crate::location::{from_offset, is_blank_byte, is_newline, line_start};
use crate::nearest::MOST_NAMES;
use ly_base::{Language, OutOfMemory, leading_name};
use ly_lexread::LexFaultKind;
use std::alloc::Global;

/// The text with an error fixed, by the lines of its unit. A rule becomes one that does nothing, a definition becomes
/// one byte, and anything else is removed.
pub(crate) fn mended(
    alloc: Global,
    text: &[u8],
    unit: Unit,
    fault: LexFaultKind,
) -> Result<Vec<u8>, OutOfMemory> {
    let by = match unit.kind {
        Kind::Rule => Vec::from_slice(alloc, b"x ;")?,
        Kind::Definition => plain_definition(alloc, text, unit)?,
        Kind::Directive if matches!(fault, LexFaultKind::ConditionTwice) => {
            new_conditions(alloc, text, unit)?
        }
        _ => Vec::new(alloc),
    };
    let last = if unit.kind == Kind::Block {
        last_before_mark(text, unit.first)
    } else {
        unit.last
    };
    with_lines(alloc, text, unit.first, last, &by)
}

/// A line that defines the name of a line as one byte. Empty if the line has no name, or an earlier line defines it.
fn plain_definition(alloc: Global, text: &[u8], unit: Unit) -> Result<Vec<u8>, OutOfMemory> {
    let (before, rest) = text.split_at(line_start(text, unit.first).min(text.len()));
    match leading_name(first_line(rest), Language::Lex) {
        Some((name, _)) if !defined_names(alloc, before)?.contains(&name) => {
            Ok([name, b" x"].concat(alloc)?)
        }
        _ => Ok(Vec::new(alloc)),
    }
}

/// A line that declares the new conditions of a line. Empty if there are none.
fn new_conditions(alloc: Global, text: &[u8], unit: Unit) -> Result<Vec<u8>, OutOfMemory> {
    let (before, rest) = text.split_at(line_start(text, unit.first).min(text.len()));
    let mut known = known_conditions(alloc, before)?;
    let mut declaration = Vec::new(alloc);
    push_declaration(&mut declaration, &mut known, first_line(rest))?;
    if !declaration.contains(&b' ') {
        declaration.clear();
    }
    Ok(declaration)
}

/// Adds the first word of a line, and those after it that are names of new conditions.
fn push_declaration<'t>(
    declaration: &mut Vec<u8>,
    known: &mut Vec<&'t [u8]>,
    line: &'t [u8],
) -> Result<(), OutOfMemory> {
    let mut words = line.split(is_blank_byte).filter(|word| !word.is_empty());
    declaration.extend_from_slice(words.next().unwrap_or(b""))?;
    for word in words.take(MOST_NAMES - 1) {
        push_new(declaration, known, word)?;
    }
    Ok(())
}

/// Adds the name of a condition after a space, if it is new. Then it is known.
fn push_new<'t>(
    declaration: &mut Vec<u8>,
    known: &mut Vec<&'t [u8]>,
    name: &'t [u8],
) -> Result<(), OutOfMemory> {
    if known.contains(&name) {
        return Ok(());
    }
    known.push(name)?;
    push_all(declaration, &[b" ", name])
}

/// The last line before the next one that begins with `%%`, from a line on. It is the last line of the text if there is
/// no such line.
fn last_before_mark(text: &[u8], first: u64) -> u64 {
    let behind = from_offset(text, line_start(text, first));
    let lines = behind
        .split(is_newline)
        .take_while(|line| !line.starts_with(b"%%"))
        .count() as u64;
    first.saturating_add(lines.saturating_sub(1))
}

/// The text with lines replaced: the first of them by this text, the others by empty lines.
fn with_lines(
    alloc: Global,
    text: &[u8],
    first: u64,
    last: u64,
    by: &[u8],
) -> Result<Vec<u8>, OutOfMemory> {
    let mut edited = Vec::new(alloc);
    let mut number: u64 = 0;
    for line in text.split_inclusive(is_newline) {
        number = number.saturating_add(1);
        if number < first || number > last {
            edited.extend_from_slice(line)?;
            continue;
        }
        let by = if number == first { by } else { b"" };
        push_all(&mut edited, &[by, b"\n"])?;
    }
    Ok(edited)
}
