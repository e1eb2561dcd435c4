ghost use Rattle.std.specs.Prelude.{◌≡◌, ◌<◌, ◌≤◌, ◌+◌, ◌*◌, ◌++◌, [], ◌∷◌, false, length, take, IfSome, None};
ghost use Rattle.std.specs.Prelude.{IsAscii};
ghost use Rattle.std.specs.Bool.{OnTrue};
ghost use Rattle.std.specs.Fmt.{digit_glyph};
ghost use Rattle.std.specs.List.{prefix_len};
ghost use Rattle.ly_base.specs.Bytes.{double_quote};
ghost use Rattle.ly_print.specs.Text.{escape_for, escaped, escaped_byte, is_plain, no_rule_line, quoted};
ghost use lib.Lanes.{put_chunk};
ghost use Rattle.ly_print.specs.Private.Room.{quoted_room};

use crate::front::{BLOCK, Front};
use crate::label::Label;
use crate::text::is_plain;
use itoa::Buffer;
use std::simd::prelude::*;

/// The greatest number of bytes of a label and a text that are printed as one block each, with a quote and a newline.
pub(crate) const SHORT_ROOM: usize = 34;

/// The greatest length in bytes of the line that reports at which byte no rule matches.
pub(crate) const NO_RULE_ROOM: usize = 45;

/// The greatest length in bytes of a label or a text that is printed into a buffer at once.
const SHORT: usize = 512;

/// Whether `left` bytes hold a label and a text of these lengths and one more byte. It may return false if they do.
pub(crate) fn fits(left: usize, label: usize, text: usize) -> bool
    ensures { OnTrue result (quoted_room label text + 1 ≤ left) }
{
    label <= SHORT && text <= SHORT && 5 * SHORT + BLOCK + 2 <= left
}

/// Writes a label and a text into `room` at `at`. Returns the position after them.
#[inline(always)] // a call would cost a tenth of a short text
pub(crate) fn put_quoted(room: &mut [u8], at: usize, label: &Front<'_>, text: &Front<'_>) -> usize
    requires { at + quoted_room (length label.now) (length text.now) ≤ length room.old }
    ensures bytes { take result room.new ≡ take at room.old ++ quoted label.now text.now }
    ensures within { result ≤ at + quoted_room (length label.now) (length text.now) }
    ensures room { length room.new ≡ length room.old }
{
    let labelled = put_front(room, at, label);
    let end = put_text(room, labelled, text);
    put(room, end, b'"')
}

/// Writes a label and a text into `room` at `at`, if the label is short and the text fits. Returns the position after
/// them. A short text without escapes is copied as one block. If nothing is written, the bytes before `at` are
/// unchanged.
#[inline(always)] // leaves the registers to the loop that prints
pub(crate) fn put_short(
    room: &mut [u8],
    at: usize,
    label: &Label,
    text: &Front<'_>,
) -> Option<usize>
    requires { at + 34 ≤ length room.old }
    ensures bytes { IfSome result (λ end. take end room.new ≡ take at room.old ++ quoted label.now text.now) }
    ensures within { IfSome result (λ end. end + 1 ≤ length room.old) }
    ensures kept { result ≡ None → take at room.new ≡ take at room.old }
    ensures room { length room.new ≡ length room.old }
{
    let Some(block) = label.block() else {
        return None;
    };
    put_block(room, at, block);
    let labelled = at + label.len();
    if text.bytes.len() < BLOCK {
        return None;
    }
    let run = plain_run(text.bytes);
    if text.count <= run {
        put_block(room, labelled, text.bytes);
        return Some(put(room, labelled + text.count, b'"'));
    }
    if SHORT < text.count || room.len() - labelled < 4 * SHORT + 2 * BLOCK + 1 {
        return None;
    }
    put_block(room, labelled, text.bytes);
    let end = put_runs(room, labelled + run, &text.bytes[run..], text.count - run);
    Some(put(room, end, b'"'))
}

/// Writes a prefix as it is into `room` at `at`. Returns the position after it. A short one is copied as one block.
#[inline(always)]
fn put_front(room: &mut [u8], at: usize, front: &Front<'_>) -> usize
    requires { at + length front.now + 16 ≤ length room.old }
    ensures bytes { take result room.new ≡ take at room.old ++ front.now }
    ensures end { result ≡ at + length front.now }
    ensures room { length room.new ≡ length room.old }
{
    let Some(block) = front.block() else {
        return put_bytes(room, at, front.bytes());
    };
    put_front_of(room, at, block, front.len())
}

/// Writes a text as the inside of a double-quoted string into `room` at `at`. Returns the position after it. A short
/// text is copied as one block, without a branch on its length.
#[inline(always)]
fn put_text(room: &mut [u8], at: usize, text: &Front<'_>) -> usize
    requires { at + 4 * length text.now + 16 ≤ length room.old }
    ensures bytes { take result room.new ≡ take at room.old ++ escaped double_quote text.now }
    ensures within { result ≤ at + 4 * length text.now }
    ensures room { length room.new ≡ length room.old }
{
    let run = put_plain(room, at, text.bytes, text.count);
    if run == text.count {
        return at + run;
    }
    put_runs(room, at + run, &text.bytes[run..], text.count - run)
}

/// Writes the first `count` bytes as the inside of a double-quoted string into `room` at `at`. Bytes without an escape
/// are copied run by run. Returns the position after them.
#[inline(never)] // leaves the registers to a text without an escape
fn put_runs(room: &mut [u8], at: usize, bytes: &[u8], count: usize) -> usize
    requires within { count ≤ length bytes.now }
    requires room { at + 4 * count + 16 ≤ length room.old }
    ensures bytes { take result room.new ≡ take at room.old ++ escaped double_quote (take count bytes.now) }
    ensures within { result ≤ at + 4 * count }
    ensures room { length room.new ≡ length room.old }
{
    let mut end = at;
    let mut done = 0;
    while done < count {
        end = put_one(room, end, bytes[done]);
        done += 1;
        let run = put_plain(room, end, &bytes[done..], count - done);
        end += run;
        done += run;
    }
    end
}

/// Writes a byte as the inside of a double-quoted string into `room` at `at`. Returns the position after it.
#[inline(always)]
fn put_one(room: &mut [u8], at: usize, byte: u8) -> usize
    requires { at + 4 ≤ length room.old }
    ensures byte { take result room.new ≡ take at room.old ++ escaped_byte double_quote byte }
    ensures within { result ≤ at + 4 }
    ensures room { length room.new ≡ length room.old }
{
    if byte == b'"' || byte == b'\\' {
        let escaped = put(room, at, b'\\');
        return put(room, escaped, byte);
    }
    if is_plain(b'"', byte) {
        return put(room, at, byte);
    }
    put_escape(room, at, byte)
}

/// Copies the first bytes that need no escape between double quotes into `room` at `at`, at most `most` and at most a
/// block. Returns how many. It copies none if less than a block is left.
#[inline(always)]
pub(crate) fn put_plain(room: &mut [u8], at: usize, bytes: &[u8], most: usize) -> usize
    requires { at + 16 ≤ length room.old }
    ensures bytes { take (at + result) room.new ≡ take at room.old ++ escaped double_quote (take result bytes.now) }
    ensures plain { result ≤ prefix_len (is_plain double_quote) (take 16 bytes.now) }
    ensures most { result ≤ most }
    ensures within { result ≤ length bytes.now }
    ensures room { length room.new ≡ length room.old }
{
    if bytes.len() < BLOCK {
        return 0;
    }
    // checking before copying loads the block only once
    let run = plain_run(bytes);
    put_block(room, at, bytes);
    run.min(most)
}

/// Copies a block into `room` at `at`. Returns the position after the first `count` of its bytes.
pub(crate) fn put_front_of(room: &mut [u8], at: usize, block: &[u8], count: usize) -> usize
    requires block { length block.now ≡ 16 }
    requires within { at + 16 ≤ length room.old }
    requires count { count ≤ 16 }
    ensures bytes { take result room.new ≡ take at room.old ++ take count block.now }
    ensures end { result ≡ at + count }
    ensures room { length room.new ≡ length room.old }
{
    put_block(room, at, block);
    at + count
}

/// Copies a block into `room` at `at`.
fn put_block(room: &mut [u8], at: usize, bytes: &[u8])
    requires block { 16 ≤ length bytes.now }
    requires within { at + 16 ≤ length room.old }
    ensures { room.new ≡ put_chunk at room.old (take 16 bytes.now) }
{
    u8x16::from_slice(bytes).copy_to_slice(&mut room[at..]);
}

/// The number of bytes at the start of a block that need no escape between double quotes.
fn plain_run(bytes: &[u8]) -> usize
    requires { 16 ≤ length bytes.now }
    ensures { result ≡ prefix_len (is_plain double_quote) (take 16 bytes.now) }
{
    let block = u8x16::from_slice(bytes);
    let special = block.simd_lt(u8x16::splat(b' '))
        | block.simd_gt(u8x16::splat(b'~'))
        | block.simd_eq(u8x16::splat(b'\\'))
        | block.simd_eq(u8x16::splat(b'"'));
    BLOCK.min(special.to_bitmask().trailing_zeros() as usize)
}

/// Whether a text is no longer than a block and needs no escape between double quotes, which implies that it is ASCII.
/// It may return false if this holds.
pub(crate) fn is_plain_block(text: &Front<'_>) -> bool
    ensures { OnTrue result (IsAscii text.now) }
{
    BLOCK <= text.bytes.len() && text.count <= plain_run(text.bytes)
}

/// Writes the escape of a byte into `room` at `at`. Returns the position after it.
#[cold]
pub(crate) fn put_escape(room: &mut [u8], at: usize, byte: u8) -> usize
    requires { at + 4 ≤ length room.old }
    ensures escape { take result room.new ≡ take at room.old ++ escape_for byte }
    ensures within { result ≤ at + 4 }
    ensures room { length room.new ≡ length room.old }
{
    match byte {
        b'\n' => put_bytes(room, at, b"\\n"),
        b'\t' => put_bytes(room, at, b"\\t"),
        32..=126 => put_bytes(room, at, &[b'\\', byte]),
        _ => put_bytes(
            room,
            at,
            &[b'\\', b'x', hex_digit(byte / 16), hex_digit(byte % 16)],
        ),
    }
}

/// The lower-case hexadecimal digit of a number below 16.
pub(crate) fn hex_digit(value: u8) -> u8
    requires { value < 16 }
    ensures { result ≡ digit_glyph false value }
{
    if value < 10 {
        b'0' + value
    } else {
        b'a' + (value - 10)
    }
}

/// Writes the line that reports at which byte no rule matches into `room` at `at`. The byte is counted from 0. Returns
/// the position after the line.
pub(crate) fn put_no_rule_line(room: &mut [u8], at: usize, byte: u64) -> usize
    requires { at + 45 ≤ length room.old }
    ensures bytes { take result room.new ≡ take at room.old ++ no_rule_line byte }
    ensures within { result ≤ at + 45 }
    ensures room { length room.new ≡ length room.old }
{
    let mut digits = Buffer::new();
    let said = put_bytes(room, at, b"no rule matches at byte ");
    let counted = put_bytes(room, said, digits.format(byte).as_bytes());
    put(room, counted, b'\n')
}

/// Writes bytes as they are into `room` at `at`. Returns the position after them.
pub(crate) fn put_bytes(room: &mut [u8], at: usize, bytes: &[u8]) -> usize
    requires { at + length bytes.now ≤ length room.old }
    ensures bytes { take result room.new ≡ take at room.old ++ bytes.now }
    ensures end { result ≡ at + length bytes.now }
    ensures room { length room.new ≡ length room.old }
{
    let end = at + bytes.len();
    room[at..end].copy_from_slice(bytes);
    end
}

/// Writes a byte into `room` at `at`. Returns the next position.
pub(crate) fn put(room: &mut [u8], at: usize, byte: u8) -> usize
    requires { at + 1 ≤ length room.old }
    ensures byte { take result room.new ≡ take at room.old ++ byte ∷ [] }
    ensures end { result ≡ at + 1 }
    ensures room { length room.new ≡ length room.old }
{
    room[at] = byte;
    at + 1
}
