ghost use Rattle.std.specs.Prelude.{◌≡◌, ℕ, List, drop, slice_get, Some, IfErr, IfOk, IfSome};
ghost use Rattle.std.specs.Option.{IfNone};
ghost use Rattle.ly_ere.specs.Private.Faults.{IsLeftIn};
ghost use Rattle.ly_ere.specs.Private.Front.{BeginsNo, IsTaken};
ghost use Rattle.ly_ere.specs.Elements.{Quoted};
ghost use Rattle.ly_ere.specs.Private.Front.{IsQuotedByte};

use crate::fault::{SyntaxFault, SyntaxKind};
use crate::front::leading_escape;

/// The length of a string, up to and including the closing quote. `behind` is the text after the opening quote.
pub(crate) fn quoted_length(behind: &[u8]) -> Result<usize, SyntaxFault>
    ensures front { IfOk result (IsTaken behind.now) }
    ensures quoted { IfOk result (λ end. (bs : List ℕ) × Quoted behind.now bs (drop end behind.now)) }
    ensures refused { IfErr result (λ _. BeginsNo Quoted behind.now) }
    ensures at { IfErr result (IsLeftIn behind.now) }
{
    let mut at = 0;
    while let Some((_, length)) = quoted_byte(&behind[at..])? {
        at += length;
    }
    Ok(at + 1)
}

/// Reads the next byte or escape inside a string. Returns its byte and the number of bytes read, or `None` at the end
/// of the string.
pub(crate) fn quoted_byte(text: &[u8]) -> Result<Option<(u8, usize)>, SyntaxFault>
    ensures end { IfOk result (λ found. IfNone found (slice_get text.now 0 ≡ Some 34)) }
    ensures front { IfOk result (λ found. IfSome found (λ part. IsTaken text.now part.1)) }
    ensures byte { IfOk result (λ found. IfSome found (λ part. IsQuotedByte text.now part.0 part.1)) }
    ensures refused { IfErr result (λ _. BeginsNo Quoted text.now) }
    ensures at { IfErr result (IsLeftIn text.now) }
{
    let Some(&byte) = text.first() else {
        return Err(SyntaxFault::at(SyntaxKind::UnclosedQuote, text));
    };
    match byte {
        b'"' => Ok(None),
        b'\n' => Err(SyntaxFault::at(SyntaxKind::UnclosedQuote, text)),
        b'\\' => Ok(Some(leading_escape(text)?)),
        _ => Ok(Some((byte, 1))),
    }
}
