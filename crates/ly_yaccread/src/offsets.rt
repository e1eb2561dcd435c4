//! Offsets of words in a file, computed from the number of words left.
ghost use Rattle.std.specs.Prelude.{◌≡◌, map, IfOk};
ghost use Rattle.ly_yaccread.specs.Offsets.{kept, rule_offsets, token_offset, word_offset};
ghost use Rattle.ly_yaccread.specs.Private.Words.{offsets_of};

use crate::file::RuleOffsets;
use crate::standing::Standing;
use crate::words::FileWord;
use std::alloc::{AllocError, Global};

/// The offset of each of these tokens. A token is given by the number of words left from it on.
pub(crate) fn token_offsets(
    alloc: Global,
    words: &[FileWord<'_>],
    tokens: &[usize],
) -> Result<Vec<u32>, AllocError>
    ensures { IfOk result (λ offsets. offsets.items ≡ map (token_offset (offsets_of words.now)) tokens.now) }
{
    tokens
        .iter()
        .map(|left| token_offset(words, *left))
        .collect(alloc)
}

/// The offsets of each of these rules in the file with these words.
pub(crate) fn rule_offsets(
    alloc: Global,
    words: &[FileWord<'_>],
    standings: &[Standing],
) -> Result<Vec<RuleOffsets>, AllocError>
    ensures { IfOk result (λ offsets. offsets.items ≡ map (rule_offsets (offsets_of words.now)) standings.now) }
{
    standings
        .iter()
        .map(|standing| offsets_of_rule(words, *standing))
        .collect(alloc)
}

/// The offsets of a rule.
fn offsets_of_rule(words: &[FileWord<'_>], standing: Standing) -> RuleOffsets
    ensures { result ≡ rule_offsets (offsets_of words.now) standing }
{
    let mark = word_offset(words, standing.body.saturating_add(1));
    RuleOffsets {
        left: token_offset(words, standing.left),
        body: kept_offset(mark.saturating_add(1)),
    }
}

/// The offset, as stored, of the word from which this many are left.
fn token_offset(words: &[FileWord<'_>], left: usize) -> u32
    ensures { result ≡ token_offset (offsets_of words.now) left }
{
    kept_offset(word_offset(words, left))
}

/// The offset of the word from which this many are left.
fn word_offset(words: &[FileWord<'_>], left: usize) -> usize
    ensures { result ≡ word_offset (offsets_of words.now) left }
{
    let word = words.get(words.len().saturating_sub(left));
    word.map_or(0, |word| word.offset)
}

/// The offset in 32 bits, or `u32::MAX` if it is larger.
fn kept_offset(offset: usize) -> u32
    ensures { result ≡ kept offset }
{
    u32::try_from(offset).unwrap_or(u32::MAX)
}
