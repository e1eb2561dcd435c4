ghost use Rattle.std.specs.Prelude.{◌≡◌, ◌≤◌, ◌+◌, ◌++◌, length, take};
ghost use Rattle.ly_print.specs.Private.ByteForm.{written_as};

use crate::json::{put_other_number, put_string_byte};
use crate::room::{put, put_escape};
use crate::text::is_plain;

/// The greatest number of bytes that are written for one byte.
pub(crate) const BYTE_ROOM: usize = 6;

/// How a byte of a list of bytes is printed.
#[derive(Clone, Copy)]
pub(crate) enum ByteForm {
    /// As in a string between double quotes.
    Quoted,
    /// As in a JSON string.
    InString,
    /// As its number, after a comma.
    OtherNumber,
}

/// Writes a byte in the given form into `room` at `at`. Returns the position after it.
pub(crate) fn put_byte(room: &mut [u8], at: usize, form: ByteForm, byte: u8) -> usize
    requires { at + 6 ≤ length room.old }
    ensures bytes { take result room.new ≡ take at room.old ++ written_as form byte }
    ensures within { result ≤ at + 6 }
    ensures room { length room.new ≡ length room.old }
{
    match form {
        ByteForm::Quoted if is_plain(b'"', byte) => put(room, at, byte),
        ByteForm::Quoted => put_escape(room, at, byte),
        ByteForm::InString => put_string_byte(room, at, byte),
        ByteForm::OtherNumber => put_other_number(room, at, byte),
    }
}
