//! A bit for each used slot, and the first position where a row fits: 64 bases are tested at a time.
ghost use Rattle.std.specs.Prelude.{◌≡◌, ◌≢◌, ◌+◌, ◌*◌, ◌^◌, ◌<◌, ◌≤◌, ℕ, length, slice_index, OnOk};
ghost use Rattle.std.specs.Int.{bit_at};
ghost use Rattle.ly_pack.specs.Private.Bits.{taken, IsFreeAt, IsTakenAt};

use std::alloc::{AllocError, Global};
use std::cmp::max;

/// The number of bits in a word.
const WORD_BITS: usize = 64;

/// A set of positions, one bit each.
#[derive(Drop)]
pub(crate) struct BitRow {
    /// The bits: position `k` is bit `k % 64` of word `k / 64`.
    words: Vec<u64>,
    /// The number of words, from the first on, that are known to be full.
    full: usize,
    ghost small: { length words.items ≤ 2 ^ 27 },
    ghost within: { full ≤ length words.items },
    ghost are_full: { (k : ℕ) → k < 64 * full → taken words.items k ≡ 1 },
}

impl BitRow {
    /// An empty set.
    pub(crate) fn new(alloc: Global) -> BitRow
        ensures { (k : ℕ) → taken result.words.items k ≡ 0 }
    {
        BitRow {
            words: Vec::new(alloc),
            full: 0,
        }
    }

    /// Adds a position.
    #[inline(always)] // called for each entry
    pub(crate) fn insert(&mut self, place: usize) -> Result<(), AllocError>
        requires { place < 2 ^ 33 }
        ensures same { OnOk result (taken self.new.words.items place ≡ 1) }
        ensures others { OnOk result ((k : ℕ) → k ≢ place → taken self.new.words.items k
            ≡ taken self.old.words.items k) }
    {
        let word = place / WORD_BITS;
        while self.words.len() <= word {
            self.words.push(0)?;
        }
        self.words[word] |= 1 << (place % WORD_BITS);
        self.skip_full();
        Ok(())
    }

    /// Recounts the full words.
    fn skip_full(&mut self)
        ensures { self.new.words ≡ self.old.words }
    {
        while self.full < self.words.len() && self.words[self.full] == u64::MAX {
            self.full += 1;
        }
    }

    /// The least base at which the position of every column is free. No base below `refused` fits.
    pub(crate) fn first_fit(&self, columns: &[u32], refused: usize) -> usize
        requires some { 0 < length columns.now }
        requires refused { (lower : ℕ) → lower < refused → IsTakenAt self.now.words.items columns.now lower }
        ensures free { IsFreeAt self.now.words.items columns.now result }
        ensures least { (lower : ℕ) → lower < result → IsTakenAt self.now.words.items columns.now lower }
    {
        let full = (WORD_BITS * self.full).saturating_sub(columns[0] as usize);
        for word in max(full, refused) / WORD_BITS..self.words.len() {
            let taken = self.taken_bases(word, columns);
            if taken != u64::MAX {
                return WORD_BITS * word + taken.trailing_ones() as usize;
            }
        }
        WORD_BITS * self.words.len()
    }

    /// The bases of a word, of 64, at which the position of some column is used.
    fn taken_bases(&self, word: usize, columns: &[u32]) -> u64
        requires { word < length self.now.words.items }
        ensures taken { (i : ℕ) → i < 64 → bit_at result i ≡ 1
            → IsTakenAt self.now.words.items columns.now (64 * word + i) }
        ensures free { (i : ℕ) → i < 64 → bit_at result i ≡ 0
            → IsFreeAt self.now.words.items columns.now (64 * word + i) }
    {
        let mut taken = 0;
        for column in columns {
            taken |= self.window(WORD_BITS * word + *column as usize);
            if taken == u64::MAX {
                return taken;
            }
        }
        taken
    }

    /// The 64 bits from a position on.
    fn window(&self, place: usize) -> u64
        ensures { (i : ℕ) → i < 64 → bit_at result i ≡ taken self.now.words.items (place + i) }
    {
        let word = place / WORD_BITS;
        let shift = place % WORD_BITS;
        let low = self.word(word) >> shift;
        if shift == 0 {
            return low;
        }
        low | self.word(word + 1) << (WORD_BITS - shift)
    }

    /// A word; 0 past the end.
    fn word(&self, index: usize) -> u64
        ensures { result ≡ slice_index self.now.words.items index }
    {
        match self.words.get(index) {
            Some(word) => *word,
            None => 0,
        }
    }
}
