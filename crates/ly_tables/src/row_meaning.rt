//! Converts the numbers of rows.
ghost use Rattle.std.specs.Prelude.{◌≡◌, IfOk, length, map};
ghost use Rattle.std.specs.List.{zip};
ghost use Rattle.std.specs.Option.{option_map};
ghost use Rattle.ly_pack.specs.Combs.{slots_from, used_from};
ghost use Rattle.ly_pack.specs.Rows.{IsComb};
ghost use Rattle.ly_tables.specs.Private.Meaning.{comb_meant, slot_meant};
ghost use Rattle.ly_tables.specs.Private.RawValues.{comb_raw};
ghost use Rattle.ly_tables.specs.Ranges.{width_of};

use crate::combs::CombEntry;
use crate::numbers::none;
use crate::raw_tables::RawComb;
use ly_base::{StateNo, Version};
use ly_pack::{Comb, CombSlot, Slot};
use std::alloc::{AllocError, Global};

/// A comb with this many columns.
pub(crate) fn comb<E: CombEntry>(
    alloc: Global,
    version: Version,
    columns: usize,
    raw: RawComb,
) -> Result<Comb<E>, AllocError>
    requires long { length raw.rows.items ≡ length raw.entries.items }
    requires comb { IsComb (comb_meant (width_of version) (E.meant version) columns (comb_raw raw)) }
    ensures { IfOk result (λ c. c ≡ comb_meant (width_of version) (E.meant version) columns (comb_raw raw)) }
{
    let slots = slots(alloc, version, &raw.entries, &raw.rows)?;
    Ok(Comb::new(columns, raw.bases, slots))
}

/// The slots with these entries and rows.
fn slots<E: CombEntry>(
    alloc: Global,
    version: Version,
    entries: &[u32],
    rows: &[u32],
) -> Result<Vec<CombSlot<E>>, AllocError>
    requires { length rows.now ≡ length entries.now }
    ensures { IfOk result (λ out. slots_from out.items
        ≡ map (λ p. slot_meant (width_of version) (E.meant version) p.0 p.1) (zip entries.now rows.now)) }
{
    let mut out = Vec::with_capacity(alloc, entries.len())?;
    for number in 0..entries.len() {
        out.push(slot(version, entries[number], rows[number])?)?;
    }
    Ok(out)
}

/// A slot. It is free if its row is none.
fn slot<E: CombEntry>(version: Version, entry: u32, row: u32) -> Result<CombSlot<E>, AllocError>
    ensures { IfOk result (λ s. option_map used_from s
        ≡ slot_meant (width_of version) (E.meant version) entry row) }
{
    let entry = E::of(version, entry);
    if row == none(version) {
        return Ok(CombSlot::free(entry));
    }
    let row = StateNo(row);
    CombSlot::used(Slot { row, entry })
}
