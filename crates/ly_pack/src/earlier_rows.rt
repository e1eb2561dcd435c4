//! The bases of the placed rows, by their columns.
ghost use Rattle.std.specs.Prelude.{◌<◌, ℕ, List, OnOk};
ghost use Rattle.ly_pack.specs.Private.Bits.{AreTakenBelow, IsTakenAt};

use indexmap::IndexMap;
use ly_base::OutOfMemory;
use std::alloc::Global;

/// For each list of columns of placed rows, the base of the last row with these columns. Slots are never freed, so a
/// base where a row didn't fit doesn't fit later rows with the same columns either.
#[derive(Drop)]
pub(crate) struct EarlierRows {
    /// The bases.
    bases: IndexMap<Vec<u32>, u32>,
}

impl EarlierRows {
    /// No rows.
    pub(crate) fn new(alloc: Global) -> EarlierRows
        ensures { (words : List ℕ) → AreTakenBelow words result.bases.entries }
    {
        EarlierRows {
            bases: IndexMap::new(alloc),
        }
    }

    /// The base of the last row with these columns, or 0 if there is none.
    pub(crate) fn base(&self, columns: &[u32]) -> u32
        ensures { (words : List ℕ) → AreTakenBelow words self.now.bases.entries → (lower : ℕ) → lower < result
            → IsTakenAt words columns.now lower }
    {
        match self.bases.get(columns) {
            Some(base) => *base,
            None => 0,
        }
    }

    /// Adds a row with these columns. It fails if an allocation fails.
    pub(crate) fn insert(&mut self, columns: Vec<u32>, base: u32) -> Result<(), OutOfMemory>
        ensures { OnOk result ((words : List ℕ) → AreTakenBelow words self.old.bases.entries
            → ((lower : ℕ) → lower < base → IsTakenAt words columns.items lower)
            → AreTakenBelow words self.new.bases.entries) }
    {
        self.bases.insert(columns, base)?;
        Ok(())
    }
}
