ghost use Rattle.std.specs.Prelude.{◌≡◌, ◌<◌, ◌≤◌, ◌+◌, ◌^◌, length};
ghost use Rattle.ly_base.specs.Lexed.{after_line};

use std::marker::Model;

/// The state of a scan over a text: the offset, the start condition, and whether a line begins here. The first bytes of
/// the text may have been discarded.
#[derive(Drop)]
pub struct Place<'t> {
    /// The number of discarded bytes.
    given_up: usize,
    /// Whether a line begins after the discarded bytes.
    line: bool,
    /// The text after the discarded bytes.
    text: &'t [u8],
    /// The bytes of `text` that aren't scanned yet.
    rest: &'t [u8],
    /// The number of the start condition.
    condition: u32,
}

impl<'t> Model for Place<'t> {
    ghost use Rattle.ly_base.specs.Lexed as lexed;

    ghost Value = { lexed.Place };

    ghost use Rattle.ly_base.specs.Place.{spot_of, EndsText};

    ghost view = { spot_of };

    ghost invariant = { EndsText };
}

impl<'t> Place<'t> {
    ghost use Rattle.ly_base.specs.Lexed.{moved, start_of};

    /// Returns the start of a text: the start of a line, in the initial condition.
    pub fn start(text: &'t [u8]) -> Self
        ensures { result ≡ start_of text.now }
    {
        Place {
            given_up: 0,
            line: true,
            text,
            rest: text,
            condition: 0,
        }
    }

    /// Returns the start of `text`, which follows `given_up` discarded bytes.
    pub fn behind(text: &'t [u8], given_up: usize, line: bool, condition: u32) -> Self
        requires { given_up + length text.now < 2 ^ 64 }
        ensures { result ≡ record { line = line; condition = condition; at = given_up; rest = text.now } }
    {
        Place {
            given_up,
            line,
            text,
            rest: text,
            condition,
        }
    }

    /// The offset in the whole text, including the discarded bytes.
    pub fn at(&self) -> usize
        ensures { result ≡ self.now.at }
    {
        self.given_up + (self.text.len() - self.rest.len())
    }

    /// The number of the start condition.
    pub fn condition(&self) -> u32
        ensures { result ≡ self.now.condition }
    {
        self.condition
    }

    /// Whether a line begins here. It is computed on each call, since few patterns need it.
    pub fn at_line_start(&self) -> bool
        ensures { result ≡ self.now.line }
    {
        line_starts_behind(self.line, &self.text[..self.text.len() - self.rest.len()])
    }

    /// The bytes that aren't scanned yet.
    pub fn rest(&self) -> &'t [u8]
        ensures { result.now ≡ self.now.rest }
    {
        self.rest
    }

    /// Moves forward by `count` bytes and sets the condition if `begin` has one.
    pub fn advance(&mut self, count: usize, begin: Option<u32>)
        requires { count ≤ length self.old.rest }
        ensures { self.new ≡ moved self.old count begin }
    {
        self.condition = begin.unwrap_or(self.condition);
        self.rest = &self.rest[count..];
    }
}

/// Whether a line begins after `passed`. `before` is whether one began before it.
fn line_starts_behind(before: bool, passed: &[u8]) -> bool
    ensures { result ≡ after_line before passed.now }
{
    match passed.last() {
        Some(byte) => *byte == b'\n',
        None => before,
    }
}
