ghost use Rattle.std.specs.Prelude.{◌≡◌, ◌≤◌, ℕ, List, length, MatchOption};
ghost use Rattle.std.specs.List.{prefix_len};
ghost use Rattle.ly_base.specs.Language.{continues_name, DigitsBefore, is_decimal, NameBefore};
ghost use Rattle.ly_base.specs.Private.Names.{name_length};

use crate::language::Language;

/// Splits `text` into the name at its start and the rest, if it starts with a name.
pub fn leading_name(text: &[u8], language: Language) -> Option<(&[u8], &[u8])>
    ensures { MatchOption result ((name rest : List ℕ) → NameBefore language text.now name rest → ⊥)
        (λ found. NameBefore language text.now found.0.now found.1.now) }
{
    let length = name_length(text, language);
    if length == 0 {
        return None;
    }
    Some(text.split_at(length))
}

/// Splits `text` into the decimal digits at its start and the rest, if it starts with a digit.
pub fn leading_digits(text: &[u8]) -> Option<(&[u8], &[u8])>
    ensures { MatchOption result ((digits rest : List ℕ) → DigitsBefore text.now digits rest → ⊥)
        (λ found. DigitsBefore text.now found.0.now found.1.now) }
{
    let length = digits_length(text);
    if length == 0 {
        return None;
    }
    Some(text.split_at(length))
}

/// The length in bytes of the name at the start, or 0 if there is none.
fn name_length(text: &[u8], language: Language) -> usize
    ensures within { result ≤ length text.now }
    ensures value { result ≡ name_length language text.now }
{
    match text.first() {
        Some(first) if language.starts_name(*first) => continued_length(text, language),
        _ => 0,
    }
}

/// The number of bytes at the start that can continue a name.
fn continued_length(text: &[u8], language: Language) -> usize
    ensures { result ≡ prefix_len (continues_name language) text.now }
{
    text.iter()
        .position(|byte| !language.continues_name(*byte))
        .unwrap_or(text.len())
}

/// The number of digits at the start.
fn digits_length(text: &[u8]) -> usize
    ensures within { result ≤ length text.now }
    ensures value { result ≡ prefix_len is_decimal text.now }
{
    text.iter()
        .position(|byte| !is_digit(*byte))
        .unwrap_or(text.len())
}

/// Whether the byte is a decimal digit.
fn is_digit(byte: u8) -> bool
    ensures { result ≡ is_decimal byte }
{
    byte.is_ascii_digit()
}
