ghost use Rattle.std.specs.Prelude.{◌≡◌, ◌<◌, ◌≤◌, ◌+◌, ◌*◌, ◌++◌, ◌∷◌, [], length, take, OnErr, OnOk};
ghost use Rattle.std.specs.Bool.{OnTrue};
ghost use Rattle.std.specs.Fmt.{decimal};
ghost use Rattle.std.specs.Str.{is_utf8};
ghost use Rattle.ly_print.specs.Json.{control_escape, json_content, json_located, json_name, json_string, numbers};
ghost use Rattle.ly_print.specs.Json.{other_number, string_body, string_byte};

use crate::front::{BLOCK, Front};
use crate::room::{hex_digit, is_plain_block, put, put_bytes, put_plain};
use itoa::Buffer;
use ly_base::Location;
use std::alloc::AllocError;

/// The number of bytes of a string that are written at a time.
const STRETCH: usize = 64;

/// The greatest number of bytes that `STRETCH` bytes of a string take, with a block after them.
const STRETCH_ROOM: usize = 400;

/// The greatest number of bytes that an offset with its location takes.
pub(crate) const LOCATION_ROOM: usize = 64;

/// Appends a name as a JSON string. Each of its bytes becomes the character with that number: a byte above 127 is
/// written as two bytes of UTF-8.
///
/// Fails if memory runs out. How much is appended by then is unspecified.
pub fn push_json_name(out: &mut Vec<u8>, name: &[u8]) -> Result<(), AllocError>
    ensures { OnOk result (out.new.items ≡ out.old.items ++ json_name name.now) }
{
    out.push(b'"')?;
    for byte in name {
        let mut room = [0u8; 4];
        push_string_body(out, char::from(*byte).encode_utf8(&mut room).as_bytes())?;
    }
    out.push(b'"')?;
    Ok(())
}

/// Appends bytes as a JSON string. The string is valid Unicode if the bytes are UTF-8.
///
/// Fails if memory runs out. How much is appended by then is unspecified.
pub fn push_json_string(out: &mut Vec<u8>, bytes: &[u8]) -> Result<(), AllocError>
    ensures { OnOk result (out.new.items ≡ out.old.items ++ json_string bytes.now) }
{
    out.push(b'"')?;
    push_string_body(out, bytes)?;
    out.push(b'"')?;
    Ok(())
}

/// Appends the text of a token as a member of a JSON object. If the text is UTF-8, the member is `"text":` and a
/// string. Otherwise it is `"bytes":` and a list of the bytes' numbers.
///
/// Fails if memory runs out. How much is appended by then is unspecified.
pub fn push_json_content(out: &mut Vec<u8>, text: &[u8]) -> Result<(), AllocError>
    ensures { OnOk result (out.new.items ≡ out.old.items ++ json_content text.now) }
{
    if is_utf8(text) {
        out.extend_from_slice(b"\"text\":")?;
        push_json_string(out, text)?;
    } else {
        out.extend_from_slice(b"\"bytes\":[")?;
        push_numbers(out, text)?;
        out.push(b']')?;
    }
    Ok(())
}

/// Appends an offset of a text with its line and column, as `[4,1,5]`.
///
/// Fails if memory runs out. Then nothing is appended.
pub fn push_json_location(
    out: &mut Vec<u8>,
    offset: u64,
    location: Location,
) -> Result<(), AllocError>
    ensures ok { OnOk result
        (out.new.items ≡ out.old.items ++ json_located offset location.line location.column) }
    ensures err { OnErr result (out.new.items ≡ out.old.items) }
{
    let mut room = [0u8; LOCATION_ROOM];
    let end = put_location(&mut room, 0, offset, location);
    out.extend_from_slice(&room[..end])
}

/// Whether the bytes are UTF-8.
pub fn is_utf8(bytes: &[u8]) -> bool
    ensures { result ≡ is_utf8 bytes.now }
{
    str::from_utf8(bytes).is_ok()
}

/// Whether a text is UTF-8. For most texts the check of one block decides it.
#[inline(always)] // so that the block is loaded once
pub(crate) fn is_utf8_front(text: &Front<'_>) -> bool
    ensures { result ≡ is_utf8 text.now }
{
    is_plain_block(text) || is_utf8(text.bytes())
}

/// Appends bytes as the inside of a JSON string.
fn push_string_body(out: &mut Vec<u8>, bytes: &[u8]) -> Result<(), AllocError>
    ensures { OnOk result (out.new.items ≡ out.old.items ++ string_body bytes.now) }
{
    let mut done = 0;
    while done < bytes.len() {
        let mut room = [0u8; STRETCH_ROOM];
        let count = STRETCH.min(bytes.len() - done);
        let end = put_string_body(&mut room, 0, &bytes[done..], count);
        out.extend_from_slice(&room[..end])?;
        done += count;
    }
    Ok(())
}

/// Appends numbers, separated by commas.
fn push_numbers(out: &mut Vec<u8>, bytes: &[u8]) -> Result<(), AllocError>
    ensures { OnOk result (out.new.items ≡ out.old.items ++ numbers bytes.now) }
{
    let Some((first, others)) = bytes.split_first() else {
        return Ok(());
    };
    let mut digits = Buffer::new();
    out.extend_from_slice(digits.format(*first).as_bytes())?;
    for byte in others {
        let mut room = [0u8; 4];
        let end = put_other_number(&mut room, 0, *byte);
        out.extend_from_slice(&room[..end])?;
    }
    Ok(())
}

/// Whether `left` bytes hold `count` bytes of a JSON string. It may return false if they do.
pub(crate) fn fits_in_string(left: usize, count: usize) -> bool
    ensures { OnTrue result (6 * count + 16 ≤ left) }
{
    STRETCH_ROOM <= left && count <= (left - BLOCK) / 6
}

/// Writes the first `count` bytes as the inside of a JSON string into `room` at `at`. Bytes without an escape are
/// copied run by run. Returns the position after them.
pub(crate) fn put_string_body(room: &mut [u8], at: usize, bytes: &[u8], count: usize) -> usize
    requires within { count ≤ length bytes.now }
    requires room { at + 6 * count + 16 ≤ length room.old }
    ensures bytes { take result room.new ≡ take at room.old ++ string_body (take count bytes.now) }
    ensures within { result ≤ at + 6 * count }
    ensures room { length room.new ≡ length room.old }
{
    let mut end = at;
    let mut done = 0;
    while done < count {
        let run = put_plain(room, end, &bytes[done..], count - done);
        end += run;
        done += run;
        if done < count {
            end = put_string_byte(room, end, bytes[done]);
            done += 1;
        }
    }
    end
}

/// Writes a byte as the inside of a JSON string into `room` at `at`. Returns the position after it.
pub(crate) fn put_string_byte(room: &mut [u8], at: usize, byte: u8) -> usize
    requires { at + 6 ≤ length room.old }
    ensures bytes { take result room.new ≡ take at room.old ++ string_byte byte }
    ensures within { result ≤ at + 6 }
    ensures room { length room.new ≡ length room.old }
{
    match byte {
        b'"' | b'\\' => put_bytes(room, at, &[b'\\', byte]),
        0..=31 => put_control(room, at, byte),
        _ => put(room, at, byte),
    }
}

/// Writes a control byte as the inside of a JSON string into `room` at `at`. Returns the position after it.
#[cold]
fn put_control(room: &mut [u8], at: usize, byte: u8) -> usize
    requires control { byte < 32 }
    requires room { at + 6 ≤ length room.old }
    ensures bytes { take result room.new ≡ take at room.old ++ control_escape byte }
    ensures within { result ≤ at + 6 }
    ensures room { length room.new ≡ length room.old }
{
    let letter = match byte {
        8 => b'b',
        b'\t' => b't',
        b'\n' => b'n',
        12 => b'f',
        b'\r' => b'r',
        _ => {
            let digits = [hex_digit(byte / 16), hex_digit(byte % 16)];
            let end = put_bytes(room, at, b"\\u00");
            return put_bytes(room, end, &digits);
        }
    };
    put_bytes(room, at, &[b'\\', letter])
}

/// Writes the number of a byte into `room` at `at`. Returns the position after it.
pub(crate) fn put_number(room: &mut [u8], at: usize, byte: u8) -> usize
    requires { at + 3 ≤ length room.old }
    ensures bytes { take result room.new ≡ take at room.old ++ decimal byte }
    ensures within { result ≤ at + 3 }
    ensures room { length room.new ≡ length room.old }
{
    let mut digits = Buffer::new();
    put_bytes(room, at, digits.format(byte).as_bytes())
}

/// Writes a comma and the number of a byte into `room` at `at`. Returns the position after them.
pub(crate) fn put_other_number(room: &mut [u8], at: usize, byte: u8) -> usize
    requires { at + 4 ≤ length room.old }
    ensures bytes { take result room.new ≡ take at room.old ++ other_number byte }
    ensures within { result ≤ at + 4 }
    ensures room { length room.new ≡ length room.old }
{
    let end = put(room, at, b',');
    put_number(room, end, byte)
}

/// Writes an offset of a text with its line and column, as `[4,1,5]`, into `room` at `at`. Returns the position after
/// it.
pub(crate) fn put_location(room: &mut [u8], at: usize, offset: u64, location: Location) -> usize
    requires { at + 64 ≤ length room.old }
    ensures bytes { take result room.new
        ≡ take at room.old ++ json_located offset location.line location.column }
    ensures within { result ≤ at + 64 }
    ensures room { length room.new ≡ length room.old }
{
    let counted = put_marked(room, at, b'[', offset);
    let lined = put_marked(room, counted, b',', location.line);
    let columned = put_marked(room, lined, b',', location.column);
    put(room, columned, b']')
}

/// Writes a mark and a number into `room` at `at`. Returns the position after them.
fn put_marked(room: &mut [u8], at: usize, mark: u8, number: u64) -> usize
    requires { at + 21 ≤ length room.old }
    ensures bytes { take result room.new ≡ take at room.old ++ mark ∷ decimal number }
    ensures within { result ≤ at + 21 }
    ensures room { length room.new ≡ length room.old }
{
    let mut digits = Buffer::new();
    let marked = put(room, at, mark);
    put_bytes(room, marked, digits.format(number).as_bytes())
}
