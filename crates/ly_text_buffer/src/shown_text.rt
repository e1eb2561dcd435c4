//! Bytes of files as a terminal may show them: nothing of them moves its cursor, changes its state or the order of what
//! it shows, or is invisible.
use crate::buffer::TextBuffer;

/// A part of a text that is printed as a whole.
#[derive(Clone, Copy)]
pub(crate) enum Unit<'t> {
    /// A tab, or a character that is printed as it is.
    Plain(&'t [u8]),
    /// A control byte of ASCII, which is printed as `?`.
    Control,
    /// A character that isn't printed as it is, or a byte that belongs to none. Each byte is printed as `\x` and two
    /// hexadecimal digits.
    Escaped(&'t [u8]),
}

impl Unit<'_> {
    /// How many characters are printed for it.
    pub(crate) fn width(self) -> usize {
        match self {
            Unit::Plain(_) | Unit::Control => 1,
            Unit::Escaped(bytes) => bytes.len().saturating_mul(4),
        }
    }
}

/// Whether a character is printed as it is. Not so are control characters, the separators of lines and paragraphs,
/// characters that change the direction of a text, and format characters without a width of their own.
pub fn is_printable(character: char) -> bool {
    !character.is_control()
        && !matches!(
            character,
            '\u{ad}'
                | '\u{61c}'
                | '\u{180e}'
                | '\u{200b}'..='\u{200f}'
                | '\u{2028}'..='\u{202e}'
                | '\u{2060}'..='\u{206f}'
                | '\u{feff}'
                | '\u{fff9}'..='\u{fffb}'
                | '\u{e0000}'..='\u{e007f}'
        )
}

/// Appends bytes of a line as they are shown.
pub(crate) fn push_shown(buffer: &mut TextBuffer, line: &[u8]) {
    let mut rest = line;
    for _ in 0..line.len() {
        let Some((unit, behind)) = next_unit(rest) else {
            return;
        };
        match unit {
            Unit::Plain(bytes) => buffer.push(bytes),
            Unit::Control => buffer.push(b"?"),
            Unit::Escaped(bytes) => push_escapes(buffer, bytes),
        }
        rest = behind;
    }
}

/// Appends the escapes of bytes.
fn push_escapes(buffer: &mut TextBuffer, bytes: &[u8]) {
    for byte in bytes {
        buffer.push(&[b'\\', b'x', digit(*byte / 16), digit(*byte % 16)]);
    }
}

/// The hexadecimal digit with a value.
fn digit(value: u8) -> u8 {
    b"0123456789abcdef"
        .get(value as usize)
        .copied()
        .unwrap_or(b'?')
}

/// The first unit of bytes, and the rest. `None` if there are no bytes.
pub(crate) fn next_unit(bytes: &[u8]) -> Option<(Unit<'_>, &[u8])> {
    let (first, behind) = bytes.split_first()?;
    if first.is_ascii() {
        let unit = if *first == b'\t' || !first.is_ascii_control() {
            Unit::Plain(bytes.get(..1).unwrap_or_default())
        } else {
            Unit::Control
        };
        return Some((unit, behind));
    }
    let (length, is_plain) = match first_character(bytes) {
        Some(character) => (character.len_utf8(), is_printable(character)),
        None => (1, false),
    };
    let (unit, behind) = bytes.split_at(length.min(bytes.len()));
    Some((
        if is_plain {
            Unit::Plain(unit)
        } else {
            Unit::Escaped(unit)
        },
        behind,
    ))
}

/// The character of several bytes at the start, if the bytes there are UTF-8.
fn first_character(bytes: &[u8]) -> Option<char> {
    let length = match bytes.first()? {
        0xC2..=0xDF => 2,
        0xE0..=0xEF => 3,
        0xF0..=0xF4 => 4,
        _ => return None,
    };
    str::from_utf8(bytes.get(..length)?).ok()?.chars().next()
}

/// The offset of the first byte of the character at an offset, or the offset itself if no character is there.
pub(crate) fn start_of_unit(line: &[u8], offset: usize) -> usize {
    for back in 0..4 {
        let start = offset.saturating_sub(back);
        let rest = line.get(start..).unwrap_or_default();
        if first_character(rest).is_some_and(|found| found.len_utf8() > back) {
            return start;
        }
    }
    offset
}
