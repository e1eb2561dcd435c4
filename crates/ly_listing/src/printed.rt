//! An offset with its line and column, as JSON prints it.
ghost use Rattle.std.specs.Prelude.{◌≡◌, ◌≤◌, ◌++◌, codes, length, take};
ghost use Rattle.ly_print.specs.Json.{json_located};

use crate::decimal::{Decimal, put_bytes};
use ly_base::Location;
use std::marker::Model;

/// The greatest number of bytes of an offset as it is printed, with what follows it.
const ROOM: usize = 80;

/// An offset with its line and column, as `[4,1,5],"end":`.
#[derive(Drop)]
pub(crate) struct Printed {
    /// The offset.
    offset: Decimal,
    /// The line.
    line: Decimal,
    /// The column.
    column: Decimal,
    /// What is printed, followed by padding.
    room: [u8; ROOM],
    /// The number of bytes that are printed.
    count: usize,
}

impl Model for Printed {
    ghost use Rattle.std.specs.Prelude.{◌≡◌, ◌≤◌, ◌++◌, codes, length, take};
    ghost use Rattle.ly_listing.specs.Private.Spot as value;
    ghost use Rattle.ly_print.specs.Json.{json_located};

    ghost Value = { value.Located };

    ghost view = { λ p. record { offset = p.offset; line = p.line; column = p.column } };

    ghost invariant = { λ p. (take p.count p.room
        ≡ json_located p.offset p.line p.column ++ codes ",\"end\":") × (p.count ≤ 80) × (length p.room ≡ 80) };
}

impl Printed {
    /// Prints the start of a text.
    pub(crate) fn start() -> Printed
        ensures { result ≡ record { offset = 0; line = 1; column = 1 } }
    {
        let mut room = [0u8; ROOM];
        let offset = Decimal::new(0);
        let line = Decimal::new(1);
        let column = Decimal::new(1);
        let count = put_located(&mut room, &offset, &line, &column);
        Printed {
            offset,
            line,
            column,
            room,
            count,
        }
    }

    /// Prints another offset.
    #[inline(always)] // likewise
    pub(crate) fn set(&mut self, offset: u64, location: Location)
        ensures { self.new ≡ record { offset = offset; line = location.line; column = location.column } }
    {
        self.offset.set(offset);
        self.line.set(location.line);
        self.column.set(location.column);
        self.count = put_located(&mut self.room, &self.offset, &self.line, &self.column);
    }

    /// The offset.
    pub(crate) fn offset(&self) -> u64
        ensures { result ≡ self.now.offset }
    {
        self.offset.get()
    }

    /// The line and column.
    pub(crate) fn location(&self) -> Location
        ensures line { result.line ≡ self.now.line }
        ensures column { result.column ≡ self.now.column }
    {
        Location {
            line: self.line.get(),
            column: self.column.get(),
        }
    }

    /// What is printed for the start of a token, up to its end.
    pub(crate) fn before_end(&self) -> &[u8]
        ensures short { length result.now ≤ 80 }
        ensures is { result.now ≡ json_located self.now.offset self.now.line self.now.column ++ codes ",\"end\":" }
    {
        &self.room[..self.count]
    }

    /// What is printed for the end of a token, up to its text.
    pub(crate) fn before_text(&self) -> &[u8]
        ensures { result.now ≡ json_located self.now.offset self.now.line self.now.column ++ codes "," }
    {
        &self.room[..self.count - 6]
    }

    /// What is printed for the offset alone.
    pub(crate) fn alone(&self) -> &[u8]
        ensures short { length result.now ≤ 80 }
        ensures is { result.now ≡ json_located self.now.offset self.now.line self.now.column }
    {
        &self.room[..self.count - 7]
    }
}

/// Prints an offset, its line and its column. Returns the number of bytes.
#[inline(always)] // so that the room's length is known
fn put_located(room: &mut [u8], offset: &Decimal, line: &Decimal, column: &Decimal) -> usize
    requires { 80 ≤ length room.old }
    ensures bytes { take result room.new ≡ json_located offset.now line.now column.now ++ codes ",\"end\":" }
    ensures within { result ≤ 80 }
    ensures room { length room.new ≡ length room.old }
{
    let opened = put_bytes(room, 0, b"[");
    let counted = offset.put(room, opened);
    let first = put_bytes(room, counted, b",");
    let lined = line.put(room, first);
    let second = put_bytes(room, lined, b",");
    let columned = column.put(room, second);
    put_bytes(room, columned, b"],\"end\":")
}
