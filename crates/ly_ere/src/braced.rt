ghost use Rattle.std.specs.Prelude.{◌≡◌, ◌<◌, ◌≤◌, ℕ, List, ◌∷◌, Option, drop, length, slice_index, IfErr, IfSome};
ghost use Rattle.std.specs.Prelude.{MatchOption};
ghost use Rattle.ly_base.specs.Escapes.{AllPass, number};
ghost use Rattle.ly_base.specs.Language.{is_decimal, NameBefore};
ghost use Rattle.ly_base.specs.declared.language.Language.TheVariants.{Lex};
ghost use Rattle.ly_ere.specs.Elements.{Bounds, Times};
ghost use Rattle.ly_ere.specs.Private.Elements.{ReadsElement};
ghost use Rattle.ly_ere.specs.Private.Faults.{IsLeftIn};

use crate::element::Element;
use crate::fault::{SyntaxFault, SyntaxKind};
use crate::front::behind_byte;
use ly_base::{Language, leading_digits, leading_name};

/// Reads the name or the interval at the start, whose first byte is `{`. If a letter or `_` follows, it is a name.
pub(crate) fn braced(text: &[u8]) -> Result<(Element<'_>, usize), SyntaxFault>
    requires some { 0 < length text.now }
    requires opening { slice_index text.now 0 ≡ 123 }
    ensures element { ReadsElement text.entry.now result }
    ensures within { IfErr result (IsLeftIn text.entry.now) }
{
    match leading_name(&text[1..], Language::Lex) {
        Some((name, behind)) => closed_name(text, name, behind),
        None => interval(text),
    }
}

/// Returns the name at the start if a `}` closes it. `behind` is the text after the name.
fn closed_name<'t>(
    text: &'t [u8],
    name: &'t [u8],
    behind: &'t [u8],
) -> Result<(Element<'t>, usize), SyntaxFault>
    requires some { 0 < length text.now }
    requires opening { slice_index text.now 0 ≡ 123 }
    requires name { NameBefore Lex (drop 1 text.now) name.now behind.now }
    ensures element { ReadsElement text.entry.now result }
    ensures within { IfErr result (IsLeftIn text.entry.now) }
{
    match behind_byte(behind, b'}') {
        Some(_rest) => Ok((Element::Name(name), name.len() + 2)),
        None => Err(SyntaxFault::at(SyntaxKind::UnknownName, text)),
    }
}

/// Reads the interval at the start, whose first byte is `{`.
fn interval(text: &[u8]) -> Result<(Element<'_>, usize), SyntaxFault>
    requires some { 0 < length text.now }
    requires opening { slice_index text.now 0 ≡ 123 }
    requires no_name { (name rest : List ℕ) → NameBefore Lex (drop 1 text.now) name rest → ⊥ }
    ensures element { ReadsElement text.entry.now result }
    ensures within { IfErr result (IsLeftIn text.entry.now) }
{
    match bounds(&text[1..]) {
        Some((least, most, rest)) => {
            let length = text.len() - rest.len();
            Ok((Element::Interval { least, most }, length))
        }
        None => Err(SyntaxFault::at(SyntaxKind::BadInterval, text)),
    }
}

/// Reads the bounds of an interval after its `{`. Returns them and the text after its `}`.
fn bounds(text: &[u8]) -> Option<(u8, Option<u8>, &[u8])>
    ensures shorter { IfSome result (λ found. length found.2.now ≤ length text.now) }
    ensures bounds { MatchOption result ((m : ℕ) (n : Option ℕ) (rest : List ℕ) → Bounds text.now m n rest → ⊥)
        (λ found. Bounds text.now found.0 found.1 found.2.now) }
{
    let Some((least, behind)) = times(text) else {
        return None;
    };
    if let Some(rest) = behind_byte(behind, b'}') {
        return Some((least, Some(least), rest));
    }
    let Some(behind) = behind_byte(behind, b',') else {
        return None;
    };
    if let Some(rest) = behind_byte(behind, b'}') {
        return Some((least, None, rest));
    }
    let Some((most, rest)) = upper_bound(behind, least) else {
        return None;
    };
    Some((least, Some(most), rest))
}

/// Reads the second number of an interval. Returns it and the text after the `}`, if the number is at least the first
/// one and a `}` follows.
fn upper_bound(text: &[u8], least: u8) -> Option<(u8, &[u8])>
    ensures { MatchOption result ((n : ℕ) (rest : List ℕ) → Times text.now n (125 ∷ rest) → least ≤ n → ⊥)
        (λ found. Times text.now found.0 (125 ∷ found.1.now) × (least ≤ found.0)) }
{
    let Some((most, behind)) = times(text) else {
        return None;
    };
    match behind_byte(behind, b'}') {
        Some(rest) if least <= most => Some((most, rest)),
        _ => None,
    }
}

/// Reads the number at the start, if there is one and it is at most 255. Returns it and the text after it.
fn times(text: &[u8]) -> Option<(u8, &[u8])>
    ensures { MatchOption result ((m : ℕ) (rest : List ℕ) → Times text.now m rest → ⊥)
        (λ found. Times text.now found.0 found.1.now) }
{
    let Some((digits, rest)) = leading_digits(text) else {
        return None;
    };
    let Some(times) = number(digits) else {
        return None;
    };
    Some((times, rest))
}

/// The value of decimal digits, if it is at most 255.
fn number(digits: &[u8]) -> Option<u8>
    requires { AllPass is_decimal digits.now }
    ensures { MatchOption result (255 < number 10 digits.now) (λ n. n ≡ number 10 digits.now) }
{
    let mut number: u32 = 0;
    for digit in digits {
        number = number * 10 + u32::from(*digit - b'0');
        if number > 255 {
            return None;
        }
    }
    u8::try_from(number).ok()
}
