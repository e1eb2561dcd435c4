//! Rows of words. Rows with the same members may share a stored row.
//!
//! A row refers to a stored row, and several rows may refer to the same one. When one of them gets a new member, it
//! gets a copy of its own. So a row that takes all of another's members, and has no others, costs no words.
ghost use Rattle.std.specs.Prelude.{◌≡◌, ◌+◌, ◌*◌, ◌<◌, ◌≤◌, ◌↔◌, ◌++◌, ◌∷◌, [], ℕ, length, true, false, replicate};
ghost use Rattle.std.specs.Prelude.{slice_index};
ghost use Rattle.std.specs.Prelude.{slice_index_or, slice_set, slice_range, IsTrue, IfOk, OnOk, OnErr};
ghost use Rattle.std.specs.FinSet as set;

use crate::bits::{contains_bit, count_bits, holds_row, insert_bit, union_rows, words_for};
use ly_base::OutOfMemory;
use std::alloc::Global;

/// Rows of sets of numbers below one width.
#[derive(Drop)]
pub(crate) struct Rows {
    /// For each row the number of its stored row.
    stored: Vec<u32>,
    /// For each stored row whether several rows may refer to it.
    shared: Vec<bool>,
    /// The bits of the stored rows, one after another.
    words: Vec<u64>,
    /// The number of words of a stored row, in whole blocks.
    stride: usize,
}

impl Rows {
    ghost use Rattle.ly_sets.specs.NumberSet.{AllBelow, row_set};
    ghost use Rattle.ly_sets.specs.SetMatrix.{row};
    ghost use Rattle.ly_sets.specs.Rows.{sets_of, IsLaidOut, IsAlone, IsCopied, HasRow};

    /// Makes this many empty rows for numbers below `width`.
    pub(crate) fn new(alloc: Global, rows: usize, width: usize) -> Result<Rows, OutOfMemory>
        ensures laid { IfOk result IsLaidOut }
        ensures room { IfOk result (λ r. width ≤ 64 * r.stride) }
        ensures sets { IfOk result (λ r. sets_of r ≡ replicate rows set.empty) }
    {
        let stride = words_for(width);
        Ok(Rows {
            stored: vec![in alloc; 0u32; rows]?,
            shared: vec![in alloc; true; 1]?,
            words: vec![in alloc; 0u64; stride]?,
            stride,
        })
    }

    /// The number of rows.
    pub(crate) fn len(&self) -> usize
        ensures { result ≡ length (sets_of self.now) }
    {
        self.stored.len()
    }

    /// Whether a number is in row `i`.
    pub(crate) fn contains(&self, i: usize, number: usize) -> bool
        requires laid { IsLaidOut self.now }
        requires row { HasRow self.now i }
        requires below { number < 64 * self.now.stride }
        ensures { result ≡ set.contains (row (sets_of self.now) i) number }
    {
        contains_bit(&self.words, self.start(i), self.stride, number)
    }

    /// The number of members of row `i`.
    pub(crate) fn count(&self, i: usize, width: usize) -> usize
        requires laid { IsLaidOut self.now }
        requires row { HasRow self.now i }
        requires below { AllBelow width (row (sets_of self.now) i) }
        ensures { result ≡ set.len (row (sets_of self.now) i) }
    {
        count_bits(&self.words, self.start(i), self.stride, width)
    }

    /// Adds a number to row `i`. On an error the sets are unchanged.
    pub(crate) fn insert(&mut self, i: usize, number: usize) -> Result<(), OutOfMemory>
        requires laid { IsLaidOut self.old }
        requires row { HasRow self.old i }
        requires below { number < 64 * self.old.stride }
        ensures laid { IsLaidOut self.new }
        ensures stride { self.new.stride ≡ self.old.stride }
        ensures ok { OnOk result (sets_of self.new ≡
            slice_set (sets_of self.old) i (set.insert (row (sets_of self.old) i) number)) }
        ensures err { OnErr result (sets_of self.new ≡ sets_of self.old) }
    {
        self.own(i)?;
        self.insert_alone(i, number);
        Ok(())
    }

    /// Adds row `j` to row `i`. Returns whether row `i` grew. If all members of row `i` are in row `j`, it shares the
    /// other's words. On an error the sets are unchanged.
    pub(crate) fn unite(&mut self, i: usize, j: usize) -> Result<bool, OutOfMemory>
        requires laid { IsLaidOut self.old }
        requires to { HasRow self.old i }
        requires from { HasRow self.old j }
        ensures laid { IsLaidOut self.new }
        ensures stride { self.new.stride ≡ self.old.stride }
        ensures united { OnOk result (sets_of self.new ≡ slice_set (sets_of self.old) i
            (set.union (row (sets_of self.old) i) (row (sets_of self.old) j))) }
        ensures grew { IfOk result (λ grew. (grew ≡ false) ↔
            (set.union (row (sets_of self.old) i) (row (sets_of self.old) j) ≡ row (sets_of self.old) i)) }
        ensures err { OnErr result (sets_of self.new ≡ sets_of self.old) }
    {
        if self.is_shared(i) {
            if self.holds(i, j) {
                return Ok(false);
            }
            if self.holds(j, i) {
                self.share(i, j);
                return Ok(true);
            }
            self.own(i)?;
        }
        Ok(self.unite_alone(i, j))
    }

    /// The index of the first word of row `i`.
    fn start(&self, i: usize) -> usize
        requires laid { IsLaidOut self.now }
        requires row { HasRow self.now i }
        ensures value { result ≡ slice_index self.now.stored.items i * self.now.stride }
        ensures inside { result + self.now.stride ≤ length self.now.words.items }
    {
        self.stored[i] as usize * self.stride
    }

    /// Whether another row may refer to the stored row of row `i`.
    fn is_shared(&self, i: usize) -> bool
        requires laid { IsLaidOut self.now }
        requires row { HasRow self.now i }
        ensures { result ≡ false → IsAlone self.now i }
    {
        self.shared[self.stored[i] as usize]
    }

    /// Whether row `i` contains all members of row `j`.
    fn holds(&self, i: usize, j: usize) -> bool
        requires laid { IsLaidOut self.now }
        requires of { HasRow self.now i }
        requires from { HasRow self.now j }
        ensures { IsTrue result ↔
            (set.union (row (sets_of self.now) i) (row (sets_of self.now) j) ≡ row (sets_of self.now) i) }
    {
        self.stored[i] == self.stored[j]
            || holds_row(&self.words, self.start(i), self.start(j), self.stride)
    }

    /// Adds a number to a row that shares its words with no other row.
    fn insert_alone(&mut self, i: usize, number: usize)
        requires laid { IsLaidOut self.old }
        requires row { HasRow self.old i }
        requires alone { IsAlone self.old i }
        requires below { number < 64 * self.old.stride }
        ensures laid { IsLaidOut self.new }
        ensures stride { self.new.stride ≡ self.old.stride }
        ensures sets { sets_of self.new ≡
            slice_set (sets_of self.old) i (set.insert (row (sets_of self.old) i) number) }
    {
        let start = self.start(i);
        insert_bit(&mut self.words, start, self.stride, number);
    }

    /// Adds row `j` to row `i`, which shares its words with no other row. Returns whether row `i` grew.
    fn unite_alone(&mut self, i: usize, j: usize) -> bool
        requires laid { IsLaidOut self.old }
        requires to { HasRow self.old i }
        requires from { HasRow self.old j }
        requires alone { IsAlone self.old i }
        ensures laid { IsLaidOut self.new }
        ensures stride { self.new.stride ≡ self.old.stride }
        ensures united { sets_of self.new ≡ slice_set (sets_of self.old) i
            (set.union (row (sets_of self.old) i) (row (sets_of self.old) j)) }
        ensures grew { (result ≡ false) ↔
            (set.union (row (sets_of self.old) i) (row (sets_of self.old) j) ≡ row (sets_of self.old) i) }
    {
        let to = self.start(i);
        let from = self.start(j);
        union_rows(&mut self.words, to, from, self.stride)
    }

    /// Makes row `i` refer to the stored row of row `j`.
    fn share(&mut self, i: usize, j: usize)
        requires laid { IsLaidOut self.old }
        requires to { HasRow self.old i }
        requires from { HasRow self.old j }
        ensures laid { IsLaidOut self.new }
        ensures stride { self.new.stride ≡ self.old.stride }
        ensures sets { sets_of self.new ≡ slice_set (sets_of self.old) i (row (sets_of self.old) j) }
    {
        let stored = self.stored[j];
        self.shared[stored as usize] = true;
        self.stored[i] = stored;
    }

    /// Makes row `i` the only one that refers to its stored row. Copies that row if others may refer to it. The sets
    /// are unchanged.
    fn own(&mut self, i: usize) -> Result<(), OutOfMemory>
        requires laid { IsLaidOut self.old }
        requires row { HasRow self.old i }
        ensures laid { IsLaidOut self.new }
        ensures stride { self.new.stride ≡ self.old.stride }
        ensures rows { length self.new.stored.items ≡ length self.old.stored.items }
        ensures sets { sets_of self.new ≡ sets_of self.old }
        ensures alone { OnOk result (IsAlone self.new i) }
    {
        if self.is_shared(i) {
            let start = self.start(i);
            let stored = self.push_copy(start)?;
            self.stored[i] = stored;
        }
        Ok(())
    }

    /// Adds a stored row with a copy of the words from `start` on. Returns its number.
    fn push_copy(&mut self, start: usize) -> Result<u32, OutOfMemory>
        requires { start + self.old.stride ≤ length self.old.words.items }
        ensures ok { IfOk result (IsCopied self.old self.new start) }
        ensures words { OnErr result (self.new.words.items ≡ self.old.words.items) }
        ensures shared { OnErr result (self.new.shared.items ≡ self.old.shared.items) }
        ensures stored { self.new.stored ≡ self.old.stored }
        ensures stride { self.new.stride ≡ self.old.stride }
    {
        let number = self.shared.len();
        let Ok(stored) = u32::try_from(number) else {
            return Err(OutOfMemory);
        };
        self.shared.push(false)?;
        match self.words.extend_from_within(start..start + self.stride) {
            Ok(()) => Ok(stored),
            Err(refused) => {
                self.shared.truncate(number);
                Err(refused.into())
            }
        }
    }
}
