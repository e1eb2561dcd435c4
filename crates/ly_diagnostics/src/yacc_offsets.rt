//! Locations in a yacc file of what an error of both files names.
use crate::join_mending::is_name;
use crate::location::{bytes_before, from_offset};
use ly_base::{Language, Location, OutOfMemory, after_gap, is_blank, locate};
use ly_join::{JoinFault, TerminalName};
use ly_yaccread::{DeclarationKind, SymbolName, WordSpan, YaccFault, YaccFile, read_yacc};
use std::alloc::Global;

/// The location in a yacc file, with these word spans, of what an error of both files names: its first occurrence, or
/// where it is named again.
pub(crate) fn symbol_location(
    file: &YaccFile,
    words: &[WordSpan],
    text: &[u8],
    fault: &JoinFault,
) -> Option<Location> {
    let words = Words { words, text };
    let offset = match fault {
        JoinFault::NoRules => words.offset_of(0, b"", b"%%"),
        JoinFault::PrecedenceTwice(terminal) => given_offset(file, terminal, 1),
        JoinFault::UnknownStart(name) => words.offset_of(0, b"%start", name),
        JoinFault::TokenOnLeft(name) => left_side_offset(file, name),
        JoinFault::UndefinedSymbol(name) => words.offset_of(
            offset_of_body_with(file, name)?,
            b"",
            name,
        ),
        JoinFault::PrecUnknown(name) => words.offset_of(
            offset_of_body_ranked_by(file, name)?,
            b"%prec",
            name,
        ),
        JoinFault::ReturnUndeclared(_) | JoinFault::LimitPassed { .. } | JoinFault::OutOfMemory =>
            None,
    };
    Some(locate(text, offset?))
}

/// The location of the first rule of the start symbol in a yacc file.
pub(crate) fn start_location(alloc: Global, text: &[u8]) -> Result<Option<Location>, OutOfMemory> {
    let Some(file) = readable(alloc, text)? else {
        return Ok(None);
    };
    let offset = match &file.start {
        Some(name) => left_side_offset(&file, name),
        None => file.rule_offsets.first().map(|rule| rule.left as usize),
    };
    Ok(offset.map(|offset| locate(text, offset)))
}

/// The offset of the first word of a rule's body, or of the word after the body if it is empty.
pub(crate) fn body_offset(file: &YaccFile, text: &[u8], rule: usize) -> Option<usize> {
    let body = file.rule_offsets.get(rule)?.body as usize;
    let behind = after_gap(from_offset(text, body), Language::Yacc);
    Some(text.len().saturating_sub(behind.len()))
}

/// A yacc file as it is read; `None` if it is rejected.
pub(crate) fn readable(alloc: Global, text: &[u8]) -> Result<Option<YaccFile>, OutOfMemory> {
    match read_yacc(alloc, text) {
        Ok(file) => Ok(Some(file)),
        Err(YaccFault::OutOfMemory) => Err(OutOfMemory),
        Err(YaccFault::Refused { .. }) => Ok(None),
    }
}

/// The offset of the first rule with this left side.
fn left_side_offset(file: &YaccFile, name: &[u8]) -> Option<usize> {
    let rule = file
        .rules
        .iter()
        .position(|rule| rule.left.as_slice() == name)?;
    Some(file.rule_offsets.get(rule)?.left as usize)
}

/// Whether the first left side with this name follows another word on its line, which isn't a `;`. Then the name was
/// meant as the last symbol of a body, and the `:` as a `|`.
pub(crate) fn ends_body(file: &YaccFile, text: &[u8], name: &[u8]) -> bool {
    let Some(offset) = left_side_offset(file, name) else {
        return false;
    };
    let start = offset.saturating_sub(bytes_before(locate(text, offset)));
    let line = text.get(start..offset).unwrap_or_default();
    match line.iter().rev().find(|byte| !is_blank(**byte)) {
        Some(last) => !matches!(*last, b';' | b'%' | b'/'),
        None => false,
    }
}

/// The offset of the first body that contains this name.
fn offset_of_body_with(file: &YaccFile, name: &[u8]) -> Option<usize> {
    let rule = file
        .rules
        .iter()
        .position(|rule| has_name(&rule.body, name))?;
    Some(file.rule_offsets.get(rule)?.body as usize)
}

/// Whether a name is one of these symbols.
fn has_name(symbols: &[SymbolName], name: &[u8]) -> bool {
    for symbol in symbols {
        if is_name(symbol, name) {
            return true;
        }
    }
    false
}

/// The offset of the first body that has this name after its `%prec`.
fn offset_of_body_ranked_by(file: &YaccFile, name: &[u8]) -> Option<usize> {
    let rule = file.rules.iter().position(|rule| match &rule.precedence {
        Some(symbol) => is_name(symbol, name),
        None => false,
    })?;
    Some(file.rule_offsets.get(rule)?.body as usize)
}

/// The offset at which a terminal gets a precedence, after it got this many others.
pub(crate) fn given_offset(
    file: &YaccFile,
    terminal: &TerminalName,
    before: usize,
) -> Option<usize> {
    let mut given = 0;
    let mut offsets = file.token_offsets.iter();
    for declaration in &file.declarations {
        for symbol in &declaration.symbols {
            let offset = offsets.next()?;
            if declaration.kind == DeclarationKind::Token || !terminal.is_symbol(symbol) {
                continue;
            }
            if given == before {
                return Some(*offset as usize);
            }
            given = given.saturating_add(1);
        }
    }
    None
}

/// The words of a text.
#[derive(Clone, Copy)]
struct Words<'t> {
    /// Their spans.
    words: &'t [WordSpan],
    /// The text.
    text: &'t [u8],
}

impl Words<'_> {
    /// The offset of the first such word from an offset on. If `previous` isn't empty, that word must precede it.
    fn offset_of(&self, from: usize, previous: &[u8], word: &[u8]) -> Option<usize> {
        let mut before: &[u8] = b"";
        for span in self.words {
            let found = span.word(self.text);
            let behind = previous.is_empty() || before == previous;
            if span.start >= from && behind && found == word {
                return Some(span.start);
            }
            before = found;
        }
        None
    }
}
