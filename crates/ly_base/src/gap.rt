ghost use Rattle.std.specs.Prelude.{◌<◌, ◌≤◌, ℕ, List, codes, length, IfSome, MatchOption};
ghost use Rattle.ly_base.specs.Gap.{Closes, EndBefore, GapBefore, GapEnds, HasNo};

use crate::language::Language;

/// Skips the whitespace and comments at the start of `text` and returns the rest. An unclosed comment isn't skipped.
pub fn after_gap(text: &[u8], language: Language) -> &[u8]
    ensures before { GapBefore language text.now result.now }
    ensures stops { GapEnds language result.now }
{
    let mut rest = text;
    while let Some(after) = after_space_or_comment(rest, language) {
        rest = after;
    }
    rest
}

/// Skips one whitespace byte or one comment at the start and returns the rest, if there is one to skip.
fn after_space_or_comment(text: &[u8], language: Language) -> Option<&[u8]>
    ensures these { MatchOption result (GapEnds language text.now) (λ rest. GapBefore language text.now rest.now) }
    ensures shorter { IfSome result (λ rest. length rest.now < length text.now) }
{
    if let Some(inside) = text.strip_prefix(b"/*") {
        return after_comment(inside);
    }
    match text.split_first() {
        Some((first, rest)) if language.is_space(*first) => Some(rest),
        _ => None,
    }
}

/// Returns what follows the first `*/`, the end of a comment.
pub fn after_comment(inside: &[u8]) -> Option<&[u8]>
    ensures { MatchOption result (HasNo (codes "*/") inside.now)
        (λ rest. EndBefore (codes "*/") inside.now rest.now) }
{
    after_end(inside, b"*/")
}

/// Returns what follows the first `%}`, the end of a block in a yacc file.
pub fn after_block(inside: &[u8]) -> Option<&[u8]>
    ensures { MatchOption result (HasNo (codes "%}") inside.now)
        (λ rest. EndBefore (codes "%}") inside.now rest.now) }
{
    after_end(inside, b"%}")
}

/// Returns what follows the first occurrence of `end`.
fn after_end<'t>(inside: &'t [u8], end: &[u8]) -> Option<&'t [u8]>
    requires some { 0 < length end.now }
    ensures { MatchOption result (HasNo end.now inside.now) (λ rest. EndBefore end.now inside.now rest.now) }
{
    for at in 0..inside.len() {
        if let Some(rest) = inside[at..].strip_prefix(end) {
            return Some(rest);
        }
    }
    None
}

/// Returns what follows the brace that closes an already open one. Nested braces are matched.
pub fn after_braces(inside: &[u8]) -> Option<&[u8]>
    ensures { MatchOption result ((rest : List ℕ) → Closes 0 inside.now rest → ⊥)
        (λ rest. Closes 0 inside.now rest.now) }
{
    let mut depth: usize = 0;
    for at in 0..inside.len() {
        match inside[at] {
            b'{' => depth += 1,
            b'}' => {
                if depth == 0 {
                    return Some(&inside[at + 1..]);
                }
                depth -= 1;
            }
            _ => {}
        }
    }
    None
}
