ghost use Rattle.std.specs.Prelude.{◌≡◌, ◌++◌, OnOk};
ghost use Rattle.ly_print.specs.Text.{escape_for, escaped, is_plain, leaf_of, name_of, named, no_rule_line};

use crate::room::{NO_RULE_ROOM, put_escape, put_no_rule_line};
use std::alloc::AllocError;

/// A terminal, as it is printed.
#[derive(Clone, Copy, Debug, PartialEq, Eq)]
pub enum Terminal<'a> {
    /// A token, by its name.
    Token(&'a [u8]),
    /// A literal byte of the grammar.
    Literal(u8),
}

/// Appends a leaf: the terminal's name, then the token's text in double quotes, as `NUM"12"`. The name of a literal is
/// its byte in single quotes, as `'+'`.
///
/// Fails if memory runs out. How much is appended by then is unspecified.
pub fn push_leaf(out: &mut Vec<u8>, terminal: Terminal<'_>, text: &[u8]) -> Result<(), AllocError>
    ensures { OnOk result (out.new.items ≡ out.old.items ++ leaf_of (named terminal.entry) text.now) }
{
    push_name(out, terminal)?;
    out.push(b'"')?;
    push_escaped(out, b'"', text)?;
    out.push(b'"')?;
    Ok(())
}

/// Appends a terminal's name.
///
/// Fails if memory runs out. How much is appended by then is unspecified.
pub fn push_name(out: &mut Vec<u8>, terminal: Terminal<'_>) -> Result<(), AllocError>
    ensures { OnOk result (out.new.items ≡ out.old.items ++ name_of (named terminal.entry)) }
{
    match terminal {
        Terminal::Token(name) => out.extend_from_slice(name),
        Terminal::Literal(byte) => {
            out.push(b'\'')?;
            push_escaped(out, b'\'', &[byte])?;
            out.push(b'\'')?;
            Ok(())
        }
    }
}

/// Appends bytes as the inside of a quoted string. Bytes 32 to 126 are written as they are, but `\` and `quote` have a
/// backslash before them. Byte 10 is `\n`, byte 9 is `\t`, and any other byte is `\x` with two lower-case hexadecimal
/// digits.
///
/// Fails if memory runs out. How much is appended by then is unspecified.
pub fn push_escaped(out: &mut Vec<u8>, quote: u8, bytes: &[u8]) -> Result<(), AllocError>
    ensures { OnOk result (out.new.items ≡ out.old.items ++ escaped quote bytes.now) }
{
    // Bytes without an escape are copied a run at a time.
    let mut start = 0;
    for (at, byte) in bytes.iter().enumerate() {
        if !is_plain(quote, *byte) {
            out.extend_from_slice(&bytes[start..at])?;
            push_escape(out, *byte)?;
            start = at + 1;
        }
    }
    out.extend_from_slice(&bytes[start..])
}

/// Whether the byte needs no escape between these quotes.
pub(crate) fn is_plain(quote: u8, byte: u8) -> bool
    ensures { result ≡ is_plain quote byte }
{
    (32..=126).contains(&byte) && byte != b'\\' && byte != quote
}

/// Appends the escape of a byte.
fn push_escape(out: &mut Vec<u8>, byte: u8) -> Result<(), AllocError>
    ensures { OnOk result (out.new.items ≡ out.old.items ++ escape_for byte) }
{
    let mut room = [0u8; 4];
    let end = put_escape(&mut room, 0, byte);
    out.extend_from_slice(&room[..end])
}

/// Appends the line that reports at which byte no rule matches. The byte is counted from 0.
///
/// Fails if memory runs out. How much is appended by then is unspecified.
pub fn push_no_rule_line(out: &mut Vec<u8>, byte: u64) -> Result<(), AllocError>
    ensures { OnOk result (out.new.items ≡ out.old.items ++ no_rule_line byte) }
{
    let mut room = [0u8; NO_RULE_ROOM];
    let end = put_no_rule_line(&mut room, 0, byte);
    out.extend_from_slice(&room[..end])
}
