//! Places rows as a comb: first fit, the rows with the most entries first (Tarjan and Yao 1979). The search for a row
//! begins at the base of the last one with the same columns, because no base below it fits.
//!
//! Not done here: anything that would make combs shorter than first fit does.
ghost use Rattle.std.specs.Prelude.{◌≡◌, ◌≢◌, ◌⊎◌, ◌<◌, ◌≤◌, ◌^◌, ℕ, suc, length, IfOk, OnOk, Some};
ghost use Rattle.ly_pack.specs.Placement.{IsPlaced};
ghost use Rattle.ly_pack.specs.Private.Bits.{AreStillTaken, IsTakenAt};
ghost use Rattle.ly_pack.specs.Private.Order.{columns_of};
ghost use Rattle.ly_pack.specs.Private.Placing.{slot_at, table_of, AreAllLaid, AreTied, IsFilled, IsRowPlaced};
ghost use Rattle.ly_pack.specs.Rows.{comb_entry, dense_entry};

use crate::bit_row::BitRow;
use crate::comb_rows::{Comb, Slot};
use crate::comb_slot::CombSlot;
use crate::dense::Dense;
use crate::earlier_rows::EarlierRows;
use crate::order::{columns_of_row, rows_in_order};
use ly_base::{OutOfMemory, StateNo};
use std::alloc::{AllocError, Global};

/// Lays rows over one another. Each begins at the least base where it shares no slot with a row of more entries, or of
/// equally many and a lower number. It fails if an allocation fails, or if a base or a column doesn't fit in a `u32`.
pub fn comb<E: Copy>(alloc: Global, dense: &Dense<E>) -> Result<Comb<E>, OutOfMemory>
    ensures placed { IfOk result (IsPlaced (record {
      entries = dense_entry dense.now;
      rows = dense.now.rows;
      width = dense.now.width;
    })) }
    ensures entries { IfOk result (λ c. (row column : ℕ) → comb_entry c row column
        ≡ dense_entry dense.now row column) }
{
    if dense.rows() > u32::MAX as usize || dense.width() > u32::MAX as usize {
        return Err(OutOfMemory);
    }
    let (bases, slots) = place_rows(alloc, dense)?;
    Ok(Comb::new(dense.width(), bases, slots))
}

/// The bases of the rows, and the slots.
fn place_rows<E: Copy>(
    alloc: Global,
    dense: &Dense<E>,
) -> Result<(Vec<u32>, Vec<CombSlot<E>>), OutOfMemory>
    requires rows { dense.now.rows < 2 ^ 32 }
    requires width { dense.now.width < 2 ^ 32 }
    ensures { IfOk result (λ placed. AreAllLaid (table_of dense.now) placed.0.items placed.1.items) }
{
    let order = rows_in_order(alloc, dense)?;
    let mut bases = vec![in alloc; 0u32; dense.rows()]?;
    let mut placing = Placing {
        slots: Vec::new(alloc),
        used: BitRow::new(alloc),
    };
    let mut earlier = EarlierRows::new(alloc);
    for row in &order {
        let columns = columns_of_row(alloc, dense, StateNo(*row))?;
        let refused = earlier.base(&columns);
        let base = placing.place(dense, StateNo(*row), &columns, refused)?;
        bases[*row as usize] = base;
        earlier.insert(columns, base)?;
    }
    Ok((bases, placing.slots))
}

/// The rows placed so far, with a bit for each used slot.
#[derive(Drop)]
struct Placing<E> {
    /// The slots.
    slots: Vec<CombSlot<E>>,
    /// A bit for each used slot.
    used: BitRow,
}

impl<E: Copy> Placing<E> {
    /// Places a row, which doesn't fit below some base, and returns its base.
    fn place(
        &mut self,
        dense: &Dense<E>,
        row: StateNo,
        columns: &[u32],
        refused: u32,
    ) -> Result<u32, OutOfMemory>
        requires row { row.0 < dense.now.rows }
        requires columns { columns.now ≡ columns_of (dense_entry dense.now) dense.now.width row.0 }
        requires tied { AreTied self.old.used.words.items self.old.slots.items }
        requires refused { (lower : ℕ) → lower < refused
            → IsTakenAt self.old.used.words.items columns.now lower }
        ensures placed { IfOk result (λ base. IsRowPlaced (table_of dense.now) row.0 self.old.slots.items
            self.new.slots.items base) }
        ensures tied { OnOk result (AreTied self.new.used.words.items self.new.slots.items) }
        ensures still { OnOk result (AreStillTaken self.old.used.words.items self.new.used.words.items) }
        ensures refused { IfOk result (λ base. (lower : ℕ) → lower < base
            → IsTakenAt self.old.used.words.items columns.now lower) }
    {
        if columns.is_empty() {
            return Ok(0);
        }
        let base = self.used.first_fit(columns, refused as usize);
        if base > u32::MAX as usize {
            return Err(OutOfMemory);
        }
        self.fill(dense, row, base)?;
        Ok(base as u32)
    }

    /// Fills the slots from a base on with the entries of a row.
    fn fill(&mut self, dense: &Dense<E>, row: StateNo, base: usize) -> Result<(), OutOfMemory>
        requires row { row.0 < dense.now.rows }
        requires base { base < 2 ^ 32 }
        requires tied { AreTied self.old.used.words.items self.old.slots.items }
        ensures filled { OnOk result (IsFilled (table_of dense.now) row.0 self.old.slots.items
            self.new.slots.items base) }
        ensures tied { OnOk result (AreTied self.new.used.words.items self.new.slots.items) }
    {
        for cell in dense.row(row) {
            let entry = cell.entry;
            self.take(base + cell.column as usize, Slot { row, entry })?;
        }
        Ok(())
    }

    /// Marks a slot as used, and fills it.
    fn take(&mut self, place: usize, slot: Slot<E>) -> Result<(), AllocError>
        requires place { place < 2 ^ 33 }
        requires tied { AreTied self.old.used.words.items self.old.slots.items }
        ensures same { OnOk result (slot_at self.new.slots.items place ≡ Some slot) }
        ensures others { OnOk result ((k : ℕ) → k ≢ place → slot_at self.new.slots.items k
            ≡ slot_at self.old.slots.items k) }
        ensures tied { OnOk result (AreTied self.new.used.words.items self.new.slots.items) }
        ensures grows { OnOk result (length self.old.slots.items ≤ length self.new.slots.items) }
        ensures short { OnOk result ((k : ℕ) → suc k ≡ length self.new.slots.items
            → (k ≡ place) ⊎ (suc k ≡ length self.old.slots.items)) }
    {
        let used = CombSlot::used(slot)?;
        while self.slots.len() <= place {
            self.slots.push(CombSlot::free(slot.entry))?;
        }
        self.slots[place] = used;
        self.used.insert(place)
    }
}
