ghost use Rattle.std.specs.Prelude.{◌≡◌, ◌≢◌, ◌⊎◌, ℕ, ◌<◌, ◌≤◌, ◌+◌, List, drop, length, min, slice_index, IfOk, IfErr};
ghost use Rattle.std.specs.Prelude.{IfSome, IsErrOf};
ghost use Rattle.ly_base.specs.Private.Escapes.{base_of, counts, digits, test_of};
ghost use Rattle.ly_base.specs.Escapes.{Escape, meaning, number};

use thiserror::Error;

/// Why an escape is rejected.
#[derive(Clone, Copy, Debug, PartialEq, Eq, Error)]
pub enum EscapeFault {
    /// The text or the line ends after the backslash.
    #[error("nothing after the backslash")]
    Unfinished,
    /// Its value is above 255.
    #[error("a value above 255")]
    TooLarge,
}

/// Reads the escape at the start of `text` (POSIX, lex, "Escape Sequences in lex"). The first byte is a backslash and
/// isn't checked. Returns the byte that the escape denotes and the number of bytes read. One to three octal digits, or
/// `x` with the longest run of hexadecimal digits, denote a byte by its value; `\x` without digits denotes `x`. Before
/// any other byte the backslash removes that byte's special meaning.
pub fn escape(text: &[u8]) -> Result<(u8, usize), EscapeFault>
    ensures first { IfOk result (λ found. 2 ≤ found.1) }
    ensures within { IfOk result (λ found. found.1 ≤ length text.now) }
    ensures escape { IfOk result (λ found. Escape (drop 1 text.now) found.0 (drop found.1 text.now)) }
    ensures refused { IfErr result (λ _. (byte : ℕ) (rest : List ℕ) → Escape (drop 1 text.now) byte rest → ⊥) }
    ensures unfinished { IsErrOf result EscapeFault.Unfinished → (length text.now ≤ 1) ⊎ (slice_index text.now 1 ≡ 10) }
    ensures large { IsErrOf result EscapeFault.TooLarge → (1 < length text.now) × (slice_index text.now 1 ≢ 10) }
{
    let Some(&letter) = text.get(1) else {
        return Err(EscapeFault::Unfinished);
    };
    if letter == b'\n' {
        return Err(EscapeFault::Unfinished);
    }
    let octal = Digits::leading(&text[1..], Radix::Octal, 3);
    if octal.count > 0 {
        return Ok((octal.byte()?, 1 + octal.count));
    }
    if letter == b'x' {
        let digits = &text[2..];
        let hexadecimal = Digits::leading(digits, Radix::Hexadecimal, digits.len());
        if hexadecimal.count > 0 {
            return Ok((hexadecimal.byte()?, 2 + hexadecimal.count));
        }
    }
    Ok((meaning_of(letter), 2))
}

/// The byte that a backslash and this byte denote, if the byte begins no number.
fn meaning_of(letter: u8) -> u8
    ensures { result ≡ meaning letter }
{
    match letter {
        b'a' => 7,
        b'b' => 8,
        b'f' => 12,
        b'n' => 10,
        b'r' => 13,
        b't' => 9,
        b'v' => 11,
        other => other,
    }
}

#[derive(Clone, Copy)]
enum Radix {
    Octal,
    Hexadecimal,
}

impl Radix {
    /// The value of a digit.
    fn digit(self, byte: u8) -> Option<u16>
        ensures below { IfSome result (λ digit. digit < 16) }
        ensures value { result ≡ counts (test_of self byte) byte }
    {
        match (self, byte) {
            (_, b'0'..=b'7') => Some(u16::from(byte - b'0')),
            (Radix::Hexadecimal, b'8' | b'9') => Some(u16::from(byte - b'0')),
            (Radix::Hexadecimal, b'a'..=b'f') => Some(u16::from(byte - b'a') + 10),
            (Radix::Hexadecimal, b'A'..=b'F') => Some(u16::from(byte - b'A') + 10),
            _ => None,
        }
    }

    fn base(self) -> u16
        ensures below { result ≤ 16 }
        ensures base { result ≡ base_of self }
    {
        match self {
            Radix::Octal => 8,
            Radix::Hexadecimal => 16,
        }
    }
}

/// The first value that is no byte. Digits with a greater value count as this one.
const TOO_LARGE: u16 = 256;

/// A run of digits.
#[derive(Clone, Copy)]
struct Digits {
    /// The value of the digits, at most `TOO_LARGE`.
    value: u16,
    /// The number of digits.
    count: usize,
}

impl Digits {
    /// Reads the digits at the start of a text, at most `most` of them.
    fn leading(text: &[u8], radix: Radix, most: usize) -> Self
        ensures within { result.count ≤ length text.now }
        ensures count { result.count ≡ length (digits (test_of radix) most text.now) }
        ensures value { result.value ≡ min (number (base_of radix) (digits (test_of radix) most text.now)) 256 }
    {
        let mut value = 0u16;
        for (count, byte) in text.iter().enumerate() {
            let digit = match radix.digit(*byte) {
                Some(digit) if count < most => digit,
                _ => return Digits { value, count },
            };
            value = (value * radix.base() + digit).min(TOO_LARGE);
        }
        Digits {
            value,
            count: text.len(),
        }
    }

    /// Returns the value as a byte.
    fn byte(self) -> Result<u8, EscapeFault>
        ensures ok { IfOk result (λ byte. byte ≡ self.value) }
        ensures small { IfOk result (λ byte. byte < 256) }
        ensures refused { IfErr result (λ _. 256 ≤ self.value) }
        ensures large { IsErrOf result EscapeFault.Unfinished → ⊥ }
    {
        u8::try_from(self.value).map_err(|_| EscapeFault::TooLarge)
    }
}
