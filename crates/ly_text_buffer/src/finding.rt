//! A finding as data: where it is, how severe it is, and what it says. The spans are those of the words that begin at
//! locations.
ghost use Rattle.ly_text_buffer.specs.TextBuffer.{SaysMore};

use crate::buffer::TextBuffer;
use crate::named_file::NamedFile;
use ly_base::{Language, Location};

/// How far a span goes from its start.
#[derive(Clone, Copy, Debug, PartialEq, Eq)]
pub enum Extent {
    /// To the end of the word.
    Word,
    /// To the end of the line.
    Line,
}

/// The place of a finding.
#[derive(Clone, Copy)]
pub struct FindingPlace<'f> {
    /// The file.
    pub file: NamedFile<'f>,
    /// Where the span starts, if it is known.
    pub at: Option<Location>,
    /// How far the span goes.
    pub extent: Extent,
}

impl TextBuffer {
    /// Appends the members of a JSON object that each finding has, after others: `severity`, `code`, `start`, `end` and
    /// `message`.
    pub fn push_json_finding(
        &mut self,
        severity: &[u8],
        code: &[u8],
        place: FindingPlace<'_>,
        message: TextBuffer,
    )
        ensures { SaysMore self.old self.new }
    {
        let mut members = self.beside();
        members.push_json_key(b"severity");
        members.push_json(severity);
        members.push_json_key(b"code");
        members.push_json(code);
        push_span(&mut members, place);
        members.push_json_key(b"message");
        members.push_json_buffer(message);
        self.push_buffer(members);
    }

    /// Appends an object with a place and what is there, as an element of the list `related`.
    pub fn push_json_related(&mut self, place: FindingPlace<'_>, message: TextBuffer)
        ensures { SaysMore self.old self.new }
    {
        let mut related = self.beside();
        related.push(b"{\"file\":");
        related.push_json(place.file.name.as_bytes());
        push_span(&mut related, place);
        related.push_json_key(b"message");
        related.push_json_buffer(message);
        related.push(b"}");
        self.push_buffer(related);
    }

    /// Appends the list `fixes` with one fix, which replaces the word at a place, if there is a word.
    pub fn push_json_fix(&mut self, place: FindingPlace<'_>, replacement: &[u8])
        ensures { SaysMore self.old self.new }
    {
        let mut fixes = self.beside();
        if is_replaceable_at(place) {
            fixes.push_json_key(b"fixes");
            fixes.push(b"[{\"file\":");
            fixes.push_json(place.file.name.as_bytes());
            push_span(&mut fixes, place);
            fixes.push_json_key(b"replacement");
            fixes.push_json(replacement);
            fixes.push(b"}]");
        }
        self.push_buffer(fixes);
    }
}

/// Whether a suggested name can replace the word at a place.
pub(crate) fn is_replaceable_at(place: FindingPlace<'_>) -> bool {
    place
        .at
        .is_some_and(|at| is_replaceable(bytes_at(place.file, at)))
}

/// The number of bytes of a span that starts at this location.
pub(crate) fn length_of(place: FindingPlace<'_>, at: Location) -> usize {
    let rest = bytes_at(place.file, at);
    match place.extent {
        Extent::Word => word_length(rest),
        Extent::Line => rest.len(),
    }
}

/// Appends the members `start` and `end`: offset, line and column, or null if there is no location.
fn push_span(buffer: &mut TextBuffer, place: FindingPlace<'_>) {
    let Some(at) = place.at else {
        buffer.push(b",\"start\":null,\"end\":null");
        return;
    };
    let offset = offset_of(place.file, at);
    let length = length_of(place, at);
    buffer.push_json_key(b"start");
    push_position(buffer, offset, at);
    buffer.push_json_key(b"end");
    let end = Location {
        column: at.column.saturating_add(length as u64),
        ..at
    };
    push_position(buffer, offset.saturating_add(length as u64), end);
}

/// Appends an offset, a line and a column.
fn push_position(buffer: &mut TextBuffer, offset: u64, at: Location) {
    buffer.push(b"[");
    buffer.push_number(offset);
    buffer.push(b",");
    buffer.push_number(at.line);
    buffer.push(b",");
    buffer.push_number(at.column);
    buffer.push(b"]");
}

/// The offset of a location.
fn offset_of(file: NamedFile<'_>, at: Location) -> u64 {
    let lines = usize::try_from(at.line.saturating_sub(1)).unwrap_or(usize::MAX);
    let mut offset = at.column.saturating_sub(1);
    for line in file.bytes.split(|byte| *byte == b'\n').take(lines) {
        offset = offset.saturating_add(line.len() as u64).saturating_add(1);
    }
    offset
}

/// The rest of the line from a location on.
fn bytes_at<'f>(file: NamedFile<'f>, at: Location) -> &'f [u8] {
    let before = usize::try_from(at.column.saturating_sub(1)).unwrap_or(usize::MAX);
    file.line(at.line)
        .and_then(|line| line.get(before..))
        .unwrap_or_default()
}

/// The length of the word at the start: a name, one in braces or after `%`, a literal, a byte after a backslash, or a
/// character.
fn word_length(rest: &[u8]) -> usize {
    let Some((first, behind)) = rest.split_first() else {
        return 0;
    };
    let name = name_length(behind);
    match *first {
        b'%' => name.saturating_add(1),
        b'{' if name > 0 && behind.get(name) == Some(&b'}') => name.saturating_add(2),
        b'\'' => literal_length(rest),
        b'\\' if !behind.is_empty() => 2,
        first if Language::Yacc.continues_name(first) => name.saturating_add(1),
        _ => continuations(behind).saturating_add(1),
    }
}

/// The number of bytes at the start that names may have.
fn name_length(rest: &[u8]) -> usize {
    rest.iter()
        .take_while(|byte| Language::Yacc.continues_name(**byte))
        .count()
}

/// The length of a literal in single quotes, or 1 if it isn't closed.
fn literal_length(rest: &[u8]) -> usize {
    let mut escaped = true;
    for (place, byte) in rest.iter().enumerate() {
        if *byte == b'\'' && !escaped {
            return place.saturating_add(1);
        }
        escaped = *byte == b'\\' && !escaped;
    }
    1
}

/// The number of bytes at the start that continue a UTF-8 character.
fn continuations(rest: &[u8]) -> usize {
    rest.iter()
        .take_while(|byte| matches!(**byte, 0x80..=0xBF))
        .count()
}

/// Whether a suggested name can replace the word at the start: it is a name, or one in braces or after `%`.
fn is_replaceable(rest: &[u8]) -> bool {
    match rest.first() {
        Some(first) => matches!(*first, b'%' | b'{') || Language::Yacc.continues_name(*first),
        None => false,
    }
}
