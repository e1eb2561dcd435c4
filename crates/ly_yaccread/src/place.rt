ghost use Rattle.std.specs.Prelude.{◌≡◌, ◌<◌, ◌^◌, ℕ, List, MatchOption, MatchResult};
ghost use Rattle.ly_base.specs.Escapes.{AllPass, number};
ghost use Rattle.ly_base.specs.Language.{is_decimal};
ghost use Rattle.ly_yaccread.specs.Actions.{IsPlace, PlaceFirst};
ghost use Rattle.ly_yaccread.specs.Private.Read.{left as words_left};
ghost use Rattle.ly_yaccread.specs.Words.{Word};

use crate::cursor::Cursor;
use crate::expected::Expected;
use crate::fault::YaccFaultKind;
use crate::refusal::Refusal;
use crate::words::Mark;

/// Reads a `$` and a place of a body of this many symbols. Returns the place and the words after it.
pub(crate) fn read_place(words: Cursor<'_>, symbols: usize) -> Result<(u32, Cursor<'_>), Refusal>
    ensures { MatchResult result (λ found. PlaceFirst symbols (words_left words.entry) found.0 (words_left found.1))
        (λ _. (p : ℕ) (rest : List Word) → PlaceFirst symbols (words_left words.entry) p rest → ⊥) }
{
    let Some(inside) = words.after(Mark::Dollar) else {
        return Err(words.refusal(Expected::Action));
    };
    let Some((digits, rest)) = inside.number() else {
        return Err(inside.refusal(Expected::Action));
    };
    match place_of(digits, symbols) {
        Some(place) => Ok((place, rest)),
        None => Err(no_place(digits, inside)),
    }
}

/// The error for digits that are no place. Leading zeros aren't allowed.
fn no_place(digits: &[u8], words: Cursor<'_>) -> Refusal {
    words.refused(if digits.len() > 1 && digits.starts_with(b"0") {
        YaccFaultKind::BadAction
    } else {
        YaccFaultKind::DollarRange
    })
}

/// The place that the digits spell, in a body of this many symbols.
fn place_of(digits: &[u8], symbols: usize) -> Option<u32>
    ensures { MatchOption result ((p : ℕ) → IsPlace symbols digits.now p → ⊥) (IsPlace symbols digits.now) }
{
    if digits.starts_with(b"0") {
        return None;
    }
    let place = decimal(digits)?;
    (1 <= place && place as usize <= symbols).then_some(place)
}

/// The number that decimal digits spell, if it fits in 32 bits.
fn decimal(digits: &[u8]) -> Option<u32>
    ensures { MatchOption result (AllPass is_decimal digits.now → number 10 digits.now < 2 ^ 32 → ⊥)
        (λ value. AllPass is_decimal digits.now × (number 10 digits.now ≡ value)) }
{
    let mut value: u32 = 0;
    for digit in digits {
        if !digit.is_ascii_digit() {
            return None;
        }
        value = value
            .checked_mul(10)?
            .checked_add(u32::from(*digit - b'0'))?;
    }
    Some(value)
}
