//! Scans text that may be anything, like C code, one unit at a time.
use crate::location::{from_offset, line_length};
use ly_base::after_comment;

/// The text after its first unit: a comment, a string or a character in quotes, or else one byte. An unclosed comment
/// extends to the end of the text, and unclosed quotes to the end of the line.
pub(crate) fn behind_piece(text: &[u8]) -> &[u8] {
    if let Some(inside) = text.strip_prefix(b"/*") {
        return after_comment(inside).unwrap_or(b"");
    }
    let length = match text.first() {
        Some(b'"' | b'\'') => quoted_length(text).unwrap_or(line_length(text)),
        _ => 1,
    };
    from_offset(text, length)
}

/// The length of the quoted text at the start, including both quotes. It ends at the next quote of the same kind that
/// isn't escaped. `None` if there is none on its line.
pub(crate) fn quoted_length(text: &[u8]) -> Option<usize> {
    let (quote, inside) = text.split_first()?;
    let mut escaped = false;
    for (at, byte) in inside.iter().enumerate() {
        if *byte == b'\n' {
            return None;
        }
        if *byte == *quote && !escaped {
            return Some(at.saturating_add(2));
        }
        escaped = *byte == b'\\' && !escaped;
    }
    None
}

/// The length of the text in braces at the start, including both braces. `None` if it isn't closed.
pub(crate) fn braces_length(text: &[u8]) -> Option<usize> {
    let mut depth: usize = 0;
    let mut rest = text;
    for _ in 0..text.len() {
        match rest.first()? {
            b'{' => depth = depth.saturating_add(1),
            b'}' => depth = depth.saturating_sub(1),
            _ => {}
        }
        rest = behind_piece(rest);
        if depth == 0 {
            return Some(text.len().saturating_sub(rest.len()));
        }
    }
    None
}
