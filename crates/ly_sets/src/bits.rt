//! Rows of words as sets of numbers: number `n` is bit `n % 64` of word `n / 64`.
//!
//! A row consists of whole blocks of four words, so a union needs no special case for the last words. Bits past the
//! width are never set.
ghost use Rattle.std.specs.Prelude.{◌≡◌, ◌+◌, ◌*◌, ◌-◌, ◌/◌, ◌<◌, ◌≤◌, ◌↔◌, ◌⊎◌, ℕ, length, true, false, slice_index};
ghost use Rattle.std.specs.Prelude.{IsTrue};
ghost use Rattle.std.specs.FinSet as set;
ghost use Rattle.ly_sets.specs.NumberSet.{row_set, AllBelow};
ghost use Rattle.ly_sets.specs.Union.{IsUnited, united_block};
ghost use lib.Lanes.{chunk, put_chunk};

use std::simd::u64x4;

/// The number of words in a block: those of one vector register.
const LANES: usize = 4;

const WORD_BITS: usize = 64;

/// The number of words for the numbers below `width`, in whole blocks.
pub(crate) fn words_for(width: usize) -> usize
    ensures room { width ≤ 64 * result }
    ensures blocks { (result / 4) * 4 ≡ result }
{
    width.div_ceil(LANES * WORD_BITS) * LANES
}

/// Whether a number is in the row of `len` words from `start` on.
pub(crate) fn contains_bit(words: &[u64], start: usize, len: usize, number: usize) -> bool
    requires inside { start + len ≤ length words.now }
    requires below { number < 64 * len }
    ensures { result ≡ set.contains (row_set start len words.now) number }
{
    words[start + number / WORD_BITS] >> (number % WORD_BITS) & 1 == 1
}

/// Adds a number to the row of `len` words from `start` on.
pub(crate) fn insert_bit(words: &mut [u64], start: usize, len: usize, number: usize)
    requires inside { start + len ≤ length words.old }
    requires below { number < 64 * len }
    ensures added { row_set start len words.new ≡ set.insert (row_set start len words.old) number }
    ensures others { (k : ℕ) → (k < start) ⊎ (start + len ≤ k) → slice_index words.new k ≡ slice_index words.old k }
{
    words[start + number / WORD_BITS] |= 1 << (number % WORD_BITS);
}

/// The number of members of the row of `len` words from `start` on.
pub(crate) fn count_bits(words: &[u64], start: usize, len: usize, width: usize) -> usize
    requires inside { start + len ≤ length words.now }
    requires below { AllBelow width (row_set start len words.now) }
    ensures { result ≡ set.len (row_set start len words.now) }
{
    let mut count = 0;
    for word in &words[start..start + len] {
        count += word.count_ones() as usize;
    }
    count
}

/// Whether the row from `of` on contains all members of the row from `from` on.
pub(crate) fn holds_row(words: &[u64], of: usize, from: usize, len: usize) -> bool
    requires of_inside { of + len ≤ length words.now }
    requires from_inside { from + len ≤ length words.now }
    ensures { IsTrue result ↔
        (set.union (row_set of len words.now) (row_set from len words.now) ≡ row_set of len words.now) }
{
    for word in 0..len {
        if words[of + word] | words[from + word] != words[of + word] {
            return false;
        }
    }
    true
}

/// Adds the row from `from` on to the row from `to` on. Returns whether that row grew.
pub(crate) fn union_rows(words: &mut [u64], to: usize, from: usize, len: usize) -> bool
    requires to_inside { to + len ≤ length words.old }
    requires from_inside { from + len ≤ length words.old }
    requires apart { (to + len ≤ from) ⊎ ((from + len ≤ to) ⊎ (to ≡ from)) }
    requires blocks { (len / 4) * 4 ≡ len }
    ensures united { row_set to len words.new ≡ set.union (row_set to len words.old) (row_set from len words.old) }
    ensures grew { (result ≡ false) ↔ (row_set to len words.new ≡ row_set to len words.old) }
    ensures others { (k : ℕ) → (k < to) ⊎ (to + len ≤ k) → slice_index words.new k ≡ slice_index words.old k }
{
    union_words(words, to, from, len)
}

/// Adds a row of words to another, word by word. Returns whether the other grew.
fn union_words(words: &mut [u64], to: usize, from: usize, len: usize) -> bool
    requires to_inside { to + len ≤ length words.old }
    requires from_inside { from + len ≤ length words.old }
    requires apart { (to + len ≤ from) ⊎ ((from + len ≤ to) ⊎ (to ≡ from)) }
    requires blocks { (len / 4) * 4 ≡ len }
    ensures { IsUnited words.old words.new to from len result }
{
    let mut grew = false;
    for block in 0..len / LANES {
        let at = block * LANES;
        if union_block(words, to + at, from + at) {
            grew = true;
        }
    }
    grew
}

/// Adds one block of words to another. Returns whether the other grew.
fn union_block(words: &mut [u64], to: usize, from: usize) -> bool
    requires to_inside { to + 4 ≤ length words.old }
    requires from_inside { from + 4 ≤ length words.old }
    ensures { IsUnited words.old words.new to from 4 result }
{
    union_lanes(words, to, from)
}

/// Adds one block of words to another as two vectors. Returns whether the other grew.
fn union_lanes(words: &mut [u64], to: usize, from: usize) -> bool
    requires to_inside { to + 4 ≤ length words.old }
    requires from_inside { from + 4 ≤ length words.old }
    ensures united { words.new ≡ put_chunk to words.old (united_block words.old to from) }
    ensures grew { result ≡ true → united_block words.old to from ≡ chunk to 4 words.old → ⊥ }
    ensures stayed { result ≡ false → united_block words.old to from ≡ chunk to 4 words.old }
{
    let old = u64x4::from_slice(&words[to..]);
    let new = old | u64x4::from_slice(&words[from..]);
    new.copy_to_slice(&mut words[to..]);
    new.to_array() != old.to_array()
}
