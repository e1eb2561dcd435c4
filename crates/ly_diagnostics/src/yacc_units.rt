//! The units of a rejected yacc file that its words belong to. Its words needn't be valid.
use crate::location::is_newline;
use crate::pieces::behind_piece;
use ly_base::{Language, after_gap, is_blank, leading_name};

/// How much of a file is fixed together.
#[derive(Clone, Copy, PartialEq, Eq)]
pub(crate) enum Unit {
    /// A body of a rule, or the rest of one: up to a `|` or a `;`, which isn't included.
    Body,
    /// All bodies of a left side: up to a `;`, which is included.
    Rule,
}

impl Unit {
    /// The length of the unit at the start of a text of the rules. It also ends before a line that begins with `%%`, a
    /// `|`, a `;`, or a name and a `:`, even if braces are open.
    pub(crate) fn length(self, text: &[u8]) -> usize {
        let mut rest = text;
        let mut depth: usize = 0;
        let mut begins_line = false;
        for _ in 0..text.len() {
            let Some(first) = rest.first() else {
                break;
            };
            if begins_line && begins_unit(self, rest) || depth == 0 && self.ends_before(*first) {
                break;
            }
            if depth == 0 && *first == b';' {
                return text.len().saturating_sub(rest.len()).saturating_add(1);
            }
            depth = depth_behind(depth, *first);
            let stays = is_blank(*first) || rest.starts_with(b"/*");
            begins_line = *first == b'\n' || begins_line && stays;
            rest = behind_piece(rest);
        }
        text.len().saturating_sub(rest.len())
    }

    /// Whether the unit ends before this byte, if no brace is open.
    fn ends_before(self, byte: u8) -> bool {
        self == Unit::Body && matches!(byte, b'|' | b';')
    }
}

/// How many braces are open after a byte.
fn depth_behind(depth: usize, byte: u8) -> usize {
    match byte {
        b'{' => depth.saturating_add(1),
        b'}' => depth.saturating_sub(1),
        _ => depth,
    }
}

/// Whether a line, without its leading blanks, begins with what ends a unit before it.
fn begins_unit(unit: Unit, line: &[u8]) -> bool {
    let bar = unit == Unit::Body && line.starts_with(b"|") && !line.starts_with(b"||");
    let semicolon = unit == Unit::Body && line.starts_with(b";");
    bar || semicolon || line.starts_with(b"%%") || begins_rule(line)
}

/// Whether a text begins with a name and a `:`.
pub(crate) fn begins_rule(text: &[u8]) -> bool {
    match leading_name(text, Language::Yacc) {
        Some((name, rest)) => {
            let behind = after_gap(rest, Language::Yacc);
            behind.starts_with(b":") && !behind.starts_with(b"::") && name != b"default".as_slice()
        }
        None => false,
    }
}

/// The length of the declaration at the start: up to the next line that begins with `%` while no brace is open.
pub(crate) fn declaration_length(text: &[u8]) -> usize {
    let mut rest = text;
    let mut depth: usize = 0;
    let mut begins_line = false;
    for _ in 0..text.len() {
        let Some(first) = rest.first() else {
            break;
        };
        if begins_line && (rest.starts_with(b"%%") || depth == 0 && *first == b'%') {
            break;
        }
        depth = depth_behind(depth, *first);
        begins_line = *first == b'\n' || begins_line && is_blank(*first);
        rest = behind_piece(rest);
    }
    text.len().saturating_sub(rest.len())
}

/// How many bytes precede the next line that begins with `%` but not with `%}`; all bytes if there is none.
pub(crate) fn length_to_percent(text: &[u8]) -> usize {
    let mut length: usize = 0;
    for (index, line) in text.split(is_newline).enumerate() {
        if index > 0 && line.starts_with(b"%") && !line.starts_with(b"%}") {
            return length.saturating_sub(1);
        }
        length = length.saturating_add(line.len()).saturating_add(1);
    }
    text.len()
}

/// The length of the word at the start: a name, digits, or one byte.
pub(crate) fn word_length(text: &[u8]) -> usize {
    text.iter()
        .position(|byte| !Language::Yacc.continues_name(*byte))
        .unwrap_or(text.len())
        .max(1)
}
