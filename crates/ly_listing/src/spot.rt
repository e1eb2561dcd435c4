//! The positions of tokens in a text, as JSON prints them.
ghost use Rattle.std.specs.Prelude.{◌≡◌, ◌<◌, ◌≤◌, ◌+◌, ◌^◌, count_by, length, take};
ghost use Rattle.ly_base.specs.Location.{column_behind, is_newline, line_behind};
ghost use Rattle.ly_listing.specs.Labels.{before_end, before_text};
ghost use Rattle.ly_listing.specs.Private.Spot.{column_on};
ghost use Rattle.ly_spans.specs.Spans.{json_location};

use crate::printed::Printed;
use ly_base::{Location, locate};
use std::marker::Model;

/// An offset of a text, with its line and column. It is kept as it is printed, since a token mostly starts where the
/// one before ends, or a few bytes after it.
#[derive(Drop)]
pub(crate) struct Spot<'t> {
    /// The text.
    text: &'t [u8],
    /// The offset, as it is printed.
    printed: Printed,
}

impl<'t> Model for Spot<'t> {
    ghost use Rattle.std.specs.Prelude.{◌≡◌, ◌<◌, ◌≤◌, ◌^◌, length, take};
    ghost use Rattle.ly_base.specs.Location.{column_behind, line_behind};
    ghost use Rattle.ly_listing.specs.Private.Spot as value;

    ghost Value = { value.Spot };

    ghost view = { λ s. record { text = s.text.now; at = s.printed.offset } };

    ghost invariant = { λ s. (length s.text.now < 2 ^ 63) × (s.printed.offset ≤ length s.text.now)
        × (s.printed.line ≡ line_behind (take s.printed.offset s.text.now))
        × (s.printed.column ≡ column_behind (take s.printed.offset s.text.now)) };
}

impl<'t> Spot<'t> {
    /// The start of a text.
    pub(crate) fn start(text: &'t [u8]) -> Spot<'t>
        requires { length text.now < 2 ^ 63 }
        ensures { result ≡ record { text = text.now; at = 0 } }
    {
        Spot {
            text,
            printed: Printed::start(),
        }
    }

    /// Moves to an offset.
    pub(crate) fn move_to(&mut self, offset: usize)
        requires { offset ≤ length self.old.text }
        ensures { self.new ≡ record { text = self.old.text; at = offset } }
    {
        let here = self.printed.offset() as usize;
        if offset == here {
            return;
        }
        let there = if here < offset {
            location_after(self.printed.location(), &self.text[here..offset])
        } else {
            locate(self.text, offset)
        };
        self.printed.set(offset as u64, there);
    }

    /// Moves on by this many bytes.
    pub(crate) fn move_on(&mut self, count: usize)
        requires { self.old.at + count ≤ length self.old.text }
        ensures { self.new ≡ record { text = self.old.text; at = self.old.at + count } }
    {
        let here = self.printed.offset() as usize;
        self.move_to(here + count);
    }

    /// What is printed for the start of a token, up to its end.
    pub(crate) fn before_end(&self) -> &[u8]
        ensures is { result.now ≡ before_end self.now.text self.now.at }
        ensures short { length result.now ≤ 80 }
    {
        self.printed.before_end()
    }

    /// What is printed for the end of a token, up to its text.
    pub(crate) fn before_text(&self) -> &[u8]
        ensures { result.now ≡ before_text self.now.text self.now.at }
    {
        self.printed.before_text()
    }

    /// What is printed for the offset alone.
    pub(crate) fn alone(&self) -> &[u8]
        ensures is { result.now ≡ json_location self.now.text self.now.at }
        ensures short { length result.now ≤ 80 }
    {
        self.printed.alone()
    }
}

/// The location after bytes that follow a location.
fn location_after(location: Location, bytes: &[u8]) -> Location
    requires line { location.line + length bytes.now < 2 ^ 64 }
    requires column { location.column + length bytes.now < 2 ^ 64 }
    ensures line { result.line ≡ location.line + count_by is_newline bytes.now }
    ensures column { result.column ≡ column_on location.column bytes.now }
{
    let mut line = location.line;
    let mut column = location.column;
    for byte in bytes {
        if *byte == b'\n' {
            line += 1;
            column = 1;
        } else {
            column += 1;
        }
    }
    Location { line, column }
}
