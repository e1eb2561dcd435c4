//! Numbers with their decimal digits.
ghost use Rattle.std.specs.Prelude.{◌≡◌, ◌≤◌, ◌+◌, ◌++◌, length, take};
ghost use Rattle.std.specs.Fmt.{decimal};

use itoa::Buffer;
use std::marker::Model;

/// The greatest number of digits of a u64.
const DIGITS: usize = 20;

/// A number and its decimal digits. Consecutive numbers mostly differ in the last digit only, so `set` writes just that
/// one.
#[derive(Drop)]
pub(crate) struct Decimal {
    /// The number.
    value: u64,
    /// The digits, followed by padding.
    digits: [u8; DIGITS],
    /// The number of digits.
    count: usize,
}

impl Model for Decimal {
    ghost use Rattle.std.specs.Prelude.{◌≡◌, ◌≤◌, ℕ, take};
    ghost use Rattle.std.specs.Fmt.{decimal};

    ghost Value = { ℕ };

    ghost view = { λ d. d.value };

    ghost invariant = { λ d. (take d.count d.digits ≡ decimal d.value) × (d.count ≤ 20) };
}

impl Decimal {
    /// The number.
    #[inline(always)]
    pub(crate) fn get(&self) -> u64
        ensures { result ≡ self.now }
    {
        self.value
    }

    /// Makes a number.
    #[inline(never)] // leaves the registers to numbers that differ in the last digit
    pub(crate) fn new(value: u64) -> Decimal
        ensures { result ≡ value }
    {
        let mut buffer = Buffer::new();
        let text = buffer.format(value).as_bytes();
        let count = text.len();
        let mut digits = [0u8; DIGITS];
        digits[..count].copy_from_slice(text);
        Decimal {
            value,
            digits,
            count,
        }
    }

    /// Changes the number.
    #[inline(always)] // a call would cost more than the digit
    pub(crate) fn set(&mut self, value: u64)
        ensures { self.new ≡ value }
    {
        if value == self.value {
            return;
        }
        if 10 <= value && value / 10 == self.value / 10 {
            self.digits[self.count - 1] = b'0' + (value % 10) as u8;
            self.value = value;
        } else {
            *self = Decimal::new(value);
        }
    }

    /// Writes the digits into `room` at `at`, and padding after them. Returns the position after the digits.
    #[inline(always)] // so that the room's length is known
    pub(crate) fn put(&self, room: &mut [u8], at: usize) -> usize
        requires { at + 20 ≤ length room.old }
        ensures bytes { take result room.new ≡ take at room.old ++ decimal self.now }
        ensures within { result ≤ at + 20 }
        ensures room { length room.new ≡ length room.old }
    {
        put_bytes(room, at, &self.digits);
        at + self.count
    }
}

/// Writes bytes into `room` at `at`. Returns the position after them.
#[inline(always)] // so that the number of bytes is known
pub(crate) fn put_bytes(room: &mut [u8], at: usize, bytes: &[u8]) -> usize
    requires { at + length bytes.now ≤ length room.old }
    ensures bytes { take result room.new ≡ take at room.old ++ bytes.now }
    ensures end { result ≡ at + length bytes.now }
    ensures room { length room.new ≡ length room.old }
{
    let end = at + bytes.len();
    room[at..end].copy_from_slice(bytes);
    end
}
