ghost use Rattle.std.specs.Prelude.{◌≡◌, ◌≤◌, ◌<◌, ℕ, List, length, IfSome, MatchBool, MatchOption};
ghost use Rattle.std.specs.List.{prefix_len};
ghost use Rattle.ly_base.specs.Blank.{is_blank};
ghost use Rattle.ly_base.specs.Escapes.{AllPass};
ghost use Rattle.ly_lexread.specs.Definitions.{BlanksBefore};

use ly_base::is_blank;

/// Returns what follows the blanks at the start, if there are any.
pub(crate) fn behind_blanks(text: &[u8]) -> Option<&[u8]>
    ensures these { MatchOption result ((rest : List ℕ) → BlanksBefore text.now rest → ⊥)
        (λ rest. BlanksBefore text.now rest.now) }
    ensures shorter { IfSome result (λ rest. length rest.now < length text.now) }
{
    let length = blanks_length(text);
    if length == 0 {
        return None;
    }
    let (_blanks, rest) = text.split_at(length);
    Some(rest)
}

/// Whether the text consists of blanks.
pub(crate) fn are_blanks(text: &[u8]) -> bool
    ensures { MatchBool result (AllPass is_blank text.now) (AllPass is_blank text.now → ⊥) }
{
    blanks_length(text) == text.len()
}

/// The number of blanks at the start.
fn blanks_length(text: &[u8]) -> usize
    ensures within { result ≤ length text.now }
    ensures value { result ≡ prefix_len is_blank text.now }
{
    text.iter()
        .position(|byte| !is_blank(*byte))
        .unwrap_or(text.len())
}
