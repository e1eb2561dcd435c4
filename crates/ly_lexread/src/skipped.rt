ghost use Rattle.std.specs.Prelude.{◌≡◌, ◌<◌, ◌≤◌, ℕ, List, length, codes, drop, IfSome, MatchBool, MatchOption};
ghost use Rattle.ly_lexread.specs.Definitions.{CommentEnds};
ghost use Rattle.ly_lexread.specs.Lines.{BeginsWith, BlockEnds, LineOf};

use crate::rest::{Rest, behind_newline, line_length};
use ly_base::after_comment;

/// Returns what follows a block. `inside` begins after the line that opens it. `None` if no line begins with `%}`.
pub(crate) fn behind_block(inside: Rest<'_>) -> Option<Rest<'_>>
    ensures these { MatchOption result ((rest : List ℕ) → BlockEnds inside.entry.bytes.now rest → ⊥)
        (λ rest. BlockEnds inside.entry.bytes.now rest.bytes.now) }
    ensures shorter { IfSome result (λ rest. length rest.bytes.now ≤ length inside.entry.bytes.now) }
    ensures whole { IfSome result (λ rest. rest.whole ≡ inside.entry.whole) }
{
    let mut left = inside;
    while let Some((line, behind)) = left.first_line() {
        if closes_block(line) {
            return Some(behind);
        }
        left = behind;
    }
    None
}

/// Whether a line ends a block.
fn closes_block(line: &[u8]) -> bool
    ensures { MatchBool result (BeginsWith line.now (codes "%}")) (BeginsWith line.now (codes "%}") → ⊥) }
{
    line.starts_with(b"%}")
}

/// Returns what follows the comment at the start and the rest of its last line. `None` if the comment isn't closed.
pub(crate) fn behind_comment(text: Rest<'_>) -> Option<Rest<'_>>
    ensures these { MatchOption result ((rest : List ℕ) → CommentEnds text.entry.bytes.now rest → ⊥)
        (λ rest. CommentEnds text.entry.bytes.now rest.bytes.now) }
    ensures shorter { IfSome result (λ rest. length rest.bytes.now < length text.entry.bytes.now) }
    ensures whole { IfSome result (λ rest. rest.whole ≡ text.entry.whole) }
{
    let inside = text.bytes.strip_prefix(b"/*")?;
    let behind = after_comment(inside)?;
    let bytes = behind_line(behind);
    Some(Rest { bytes, ..text })
}

/// Returns what follows the first line.
fn behind_line(text: &[u8]) -> &[u8]
    ensures these { (line end : List ℕ) × LineOf text.now line end × (result.now ≡ drop 1 end) }
    ensures within { length result.now ≤ length text.now }
{
    let (_line, end) = text.split_at(line_length(text));
    behind_newline(end)
}
