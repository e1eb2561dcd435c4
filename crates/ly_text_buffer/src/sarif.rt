//! Findings as results of SARIF 2.1.0 (OASIS, Static Analysis Results Interchange Format). Columns count characters, as
//! `columnKind` says; a byte that belongs to no character counts as one.
ghost use Rattle.ly_text_buffer.specs.TextBuffer.{SaysMore};

use crate::buffer::TextBuffer;
use crate::finding::{FindingPlace, is_replaceable_at, length_of};
use crate::shown_text::next_unit;
use ly_base::Location;

impl TextBuffer {
    /// Appends the start of a result, an object that isn't closed yet: the rule, the level, the message and the
    /// location. A result without a location is put at the first line of its file, since code scanning asks for a line.
    pub fn push_sarif_result(
        &mut self,
        level: &[u8],
        rule: &[u8],
        place: FindingPlace<'_>,
        message: TextBuffer,
    )
        ensures { SaysMore self.old self.new }
    {
        let mut result = self.beside();
        result.push(b"{\"ruleId\":");
        result.push_json(rule);
        result.push_json_key(b"level");
        result.push_json(level);
        result.push_json_key(b"message");
        push_message(&mut result, message);
        result.push_json_key(b"locations");
        result.push(b"[{");
        push_physical(&mut result, place);
        result.push(b"}]");
        self.push_buffer(result);
    }

    /// Appends a further location, as an element of the list `relatedLocations`.
    pub fn push_sarif_related(&mut self, place: FindingPlace<'_>, message: TextBuffer)
        ensures { SaysMore self.old self.new }
    {
        let mut related = self.beside();
        related.push(b"{");
        push_physical(&mut related, place);
        related.push_json_key(b"message");
        push_message(&mut related, message);
        related.push(b"}");
        self.push_buffer(related);
    }

    /// Appends the list `fixes` with one fix, which replaces the word at a place, if there is a word.
    pub fn push_sarif_fix(&mut self, place: FindingPlace<'_>, replacement: &[u8])
        ensures { SaysMore self.old self.new }
    {
        let mut fixes = self.beside();
        if is_replaceable_at(place) {
            fixes.push_json_key(b"fixes");
            fixes.push(b"[{\"description\":{\"text\":\"replace the name\"},\"artifactChanges\":[{");
            push_artifact(&mut fixes, place);
            fixes.push_json_key(b"replacements");
            fixes.push(b"[{\"deletedRegion\":");
            push_region(&mut fixes, place);
            fixes.push_json_key(b"insertedContent");
            fixes.push(b"{\"text\":");
            fixes.push_json(replacement);
            fixes.push(b"}}]}]}]");
        }
        self.push_buffer(fixes);
    }
}

/// Appends a message as an object.
fn push_message(buffer: &mut TextBuffer, message: TextBuffer) {
    buffer.push(b"{\"text\":");
    buffer.push_json_buffer(message);
    buffer.push(b"}");
}

/// Appends the member `physicalLocation`: the file and the region.
fn push_physical(buffer: &mut TextBuffer, place: FindingPlace<'_>) {
    buffer.push(b"\"physicalLocation\":{");
    push_artifact(buffer, place);
    buffer.push_json_key(b"region");
    push_region(buffer, place);
    buffer.push(b"}");
}

/// Appends the member `artifactLocation`: the path of the file as a URI.
fn push_artifact(buffer: &mut TextBuffer, place: FindingPlace<'_>) {
    let path = place.file.name.as_bytes();
    buffer.push(b"\"artifactLocation\":{\"uri\":\"");
    buffer.push(if path.starts_with(b"/") {
        b"file://"
    } else {
        b""
    });
    for byte in path {
        push_uri_byte(buffer, *byte);
    }
    buffer.push(b"\"}");
}

/// Appends a byte of a path: letters, digits and some marks as they are, any other byte after a percent sign.
fn push_uri_byte(buffer: &mut TextBuffer, byte: u8) {
    match byte {
        b'A'..=b'Z' | b'a'..=b'z' | b'0'..=b'9' | b'-' | b'.' | b'_' | b'~' | b'/' => {
            buffer.push(&[byte]);
        }
        _ => buffer.push(&[b'%', digit(byte / 16), digit(byte % 16)]),
    }
}

/// The hexadecimal digit with a value.
fn digit(value: u8) -> u8 {
    b"0123456789ABCDEF"
        .get(value as usize)
        .copied()
        .unwrap_or(b'?')
}

/// Appends the region of a place: its line and its columns, from the first character to the one after the last.
fn push_region(buffer: &mut TextBuffer, place: FindingPlace<'_>) {
    let Some(at) = place.at else {
        buffer.push(b"{\"startLine\":1}");
        return;
    };
    let line = place.file.line(at.line).unwrap_or_default();
    let start = usize::try_from(at.column.saturating_sub(1)).unwrap_or(usize::MAX);
    let end = start.saturating_add(length_of(place, at));
    buffer.push(b"{\"startLine\":");
    buffer.push_number(at.line);
    buffer.push_json_number(b"startColumn", column_of(line, start));
    buffer.push_json_number(b"endLine", at.line);
    buffer.push_json_number(b"endColumn", column_of(line, end));
    buffer.push(b"}");
}

/// The column of an offset in a line, counted in characters from 1.
fn column_of(line: &[u8], offset: usize) -> u64 {
    let mut rest = line.get(..offset).unwrap_or(line);
    let mut column = 1;
    for _ in 0..line.len() {
        let Some((_, behind)) = next_unit(rest) else {
            return column;
        };
        rest = behind;
        column = 1_u64.saturating_add(column);
    }
    column
}
