ghost use Rattle.std.specs.Prelude.{◌≡◌, None, Some, IfOk};

use crate::comb_rows::Slot;
use ly_base::StateNo;
use std::alloc::AllocError;
use std::marker::Model;

/// A slot of a comb: used, or free. It takes no more bytes than a used slot, because combs have millions.
#[derive(Drop)]
pub struct CombSlot<E> {
    /// The number of the row that uses it, or the greatest number if it is free.
    row: u32,
    /// The entry of the row there. Meaningless if the slot is free.
    entry: E,
}

impl<E> Model for CombSlot<E> {
    ghost use Rattle.std.specs.Prelude.{Option, None, Some, nat_eq, if◌then◌else◌};
    ghost use Rattle.ly_pack.specs.declared.comb_rows.Slot.{Slot};

    ghost Value = { Option (Slot E) };

    ghost view = { λ s. if nat_eq s.row 4294967295 then None else Some (record {
      row = record { 0 = s.row };
      entry = s.entry;
    }) };
}

impl<E: Copy> CombSlot<E> {
    /// A free slot. The entry only fills its bytes.
    pub fn free(entry: E) -> Self
        ensures { result ≡ None }
    {
        CombSlot {
            row: u32::MAX,
            entry,
        }
    }

    /// A used slot. It fails if the number of its row is the greatest one; no memory holds so many rows.
    pub fn used(slot: Slot<E>) -> Result<Self, AllocError>
        ensures { IfOk result (λ s. s ≡ Some slot) }
    {
        let row = slot.row.0;
        if row == u32::MAX {
            return Err(AllocError);
        }
        let entry = slot.entry;
        Ok(CombSlot { row, entry })
    }

    /// The row and the entry, if the slot is used.
    #[inline(always)]
    pub fn get(&self) -> Option<Slot<E>>
        ensures { result ≡ self.now }
    {
        if self.row == u32::MAX {
            return None;
        }
        Some(Slot {
            row: StateNo(self.row),
            entry: self.entry,
        })
    }
}
