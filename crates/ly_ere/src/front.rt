ghost use Rattle.std.specs.Prelude.{◌≡◌, ◌≢◌, ◌≤◌, ◌∷◌, ℕ, List, drop, length, IfErr, IfOk, MatchOption};
ghost use Rattle.ly_base.specs.Escapes.{Escape};
ghost use Rattle.ly_ere.specs.Elements.{begins, stands_at};
ghost use Rattle.ly_ere.specs.Private.Faults.{IsLeftIn};

use crate::fault::{SyntaxFault, SyntaxKind};
use ly_base::{EscapeFault, escape};

/// Whether a text has this byte at an index.
pub(crate) fn stands_at(text: &[u8], at: usize, byte: u8) -> bool
    ensures { result ≡ stands_at text.now at byte }
{
    match text.get(at) {
        Some(found) => *found == byte,
        None => false,
    }
}

/// Whether a text starts with `[` and this mark.
pub(crate) fn begins(text: &[u8], mark: u8) -> bool
    ensures { result ≡ begins text.now mark }
{
    stands_at(text, 0, b'[') && stands_at(text, 1, mark)
}

/// The text after this byte, if the text starts with it.
pub(crate) fn behind_byte(text: &[u8], byte: u8) -> Option<&[u8]>
    ensures { MatchOption result ((rest : List ℕ) → text.now ≢ byte ∷ rest) (λ rest. text.now ≡ byte ∷ rest.now) }
{
    match text.split_first() {
        Some((first, rest)) if *first == byte => Some(rest),
        _ => None,
    }
}

/// Reads the escape at the start of a text, whose first byte is the backslash. Returns its byte and the number of bytes
/// read.
pub(crate) fn leading_escape(text: &[u8]) -> Result<(u8, usize), SyntaxFault>
    ensures first { IfOk result (λ found. 2 ≤ found.1) }
    ensures within { IfOk result (λ found. found.1 ≤ length text.now) }
    ensures escape { IfOk result (λ found. Escape (drop 1 text.now) found.0 (drop found.1 text.now)) }
    ensures refused { IfErr result (λ _. (byte : ℕ) (rest : List ℕ) → Escape (drop 1 text.now) byte rest → ⊥) }
    ensures at { IfErr result (IsLeftIn text.now) }
{
    let kind = match escape(text) {
        Ok(found) => return Ok(found),
        Err(EscapeFault::Unfinished) => SyntaxKind::StrayOperator,
        Err(EscapeFault::TooLarge) => SyntaxKind::EscapeTooLarge,
    };
    Err(SyntaxFault::at(kind, text))
}
