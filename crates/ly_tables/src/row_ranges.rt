//! The ranges of the sections of rows.
ghost use Rattle.std.specs.Prelude.{◌≡◌, ◌+◌, ◌<◌, ◌≤◌, ◌↔◌, ℕ, IsTrue, Some, length, slice_get, slice_index};
ghost use Rattle.ly_tables.specs.Private.RawValues.{comb_raw, raw_from};
ghost use Rattle.ly_tables.specs.Ranges.{width_of};
ghost use Rattle.ly_tables.specs.RawSections.{AreRowsWithin, IsActionWithin, IsSlotWithin};
ghost use Rattle.ly_tables.specs.Spelling.{least_reduction, least_shift};

use crate::bounds::{are_at_most, is_count_within};
use crate::numbers::{none, reduction, shift};
use crate::raw_tables::{RawComb, RawTables};
use ly_base::Version;

/// The allowed entries of rows.
trait Legal {
    /// Whether the entry is allowed in the column.
    ghost IsLegal: { Self → ℕ → ℕ → Type 0 };

    /// Whether the entry is allowed in the column.
    fn is_legal(&self, column: usize, entry: u32) -> bool
        ensures { IsTrue result ↔ IsLegal self.now column entry };
}

/// Entries are states. This is their number.
#[derive(Clone, Copy)]
struct States(usize);

impl Legal for States {
    ghost IsLegal = { λ states column entry. entry < states.0 };

    fn is_legal(&self, column: usize, entry: u32) -> bool {
        (entry as usize) < self.0
    }
}

/// Entries are actions of these tables, as numbers of a version.
#[derive(Clone, Copy)]
struct Actions<'a>(Version, &'a RawTables);

impl<'a> Legal for Actions<'a> {
    ghost IsLegal = { λ actions column entry. IsActionWithin (width_of actions.0) (raw_from actions.1.now) column
        entry };

    fn is_legal(&self, column: usize, entry: u32) -> bool {
        entry == 0
            || entry == 1 && column == 0
            || is_shift(self.0, entry, column, self.1.defaults.len())
            || is_reduction(self.0, entry, self.1.rules.len())
    }
}

/// Whether a number is that of a shift, allowed in this column, to a state that exists.
fn is_shift(version: Version, entry: u32, column: usize, states: usize) -> bool
    ensures { IsTrue result ↔ ((s : ℕ) × (entry ≡ least_shift (width_of version) + s) × (s < states)
        × (1 ≤ column)) }
{
    match entry.checked_sub(shift(version)) {
        Some(state) => (state as usize) < states && 1 <= column,
        None => false,
    }
}

/// Whether a number is that of a reduction by a rule that exists.
fn is_reduction(version: Version, entry: u32, rules: usize) -> bool
    ensures { IsTrue result ↔ ((p : ℕ) × (entry ≡ least_reduction (width_of version) + p) × (1 ≤ p)
        × (p ≤ rules)) }
{
    match entry.checked_sub(reduction(version)) {
        Some(rule) => is_count_within(rule as usize, rules),
        None => false,
    }
}

/// Whether the scanner's rows are within their ranges.
pub(crate) fn scan_rows_within(version: Version, raw: &RawTables) -> bool
    requires { length raw.now.scan_rows.rows.items ≡ length raw.now.scan_rows.entries.items }
    ensures { IsTrue result ↔ AreRowsWithin (width_of version) raw.now.class_count
        (λ column s. s < length raw.now.accepted.items) (comb_raw raw.now.scan_rows) }
{
    are_rows_within(
        version,
        &raw.scan_rows,
        raw.class_count as usize,
        &States(raw.accepted.len()),
    )
}

/// Whether the actions are within their ranges.
pub(crate) fn actions_within(version: Version, raw: &RawTables) -> bool
    requires { length raw.now.actions.rows.items ≡ length raw.now.actions.entries.items }
    ensures { IsTrue result ↔ AreRowsWithin (width_of version) (length (raw_from raw.now).terminals)
        (IsActionWithin (width_of version) (raw_from raw.now)) (comb_raw raw.now.actions) }
{
    are_rows_within(
        version,
        &raw.actions,
        raw.terminals.len(),
        &Actions(version, raw),
    )
}

/// Whether the gotos are within their ranges.
pub(crate) fn gotos_within(version: Version, raw: &RawTables) -> bool
    requires { length raw.now.gotos.rows.items ≡ length raw.now.gotos.entries.items }
    ensures { IsTrue result ↔ AreRowsWithin (width_of version) raw.now.nonterminals
        (λ column s. s < length raw.now.defaults.items) (comb_raw raw.now.gotos) }
{
    are_rows_within(
        version,
        &raw.gotos,
        raw.nonterminals as usize,
        &States(raw.defaults.len()),
    )
}

/// Whether a comb with this many columns is within its ranges.
fn are_rows_within<L: Legal>(version: Version, rows: &RawComb, columns: usize, legal: &L) -> bool
    requires { length rows.now.rows.items ≡ length rows.now.entries.items }
    ensures { IsTrue result ↔ AreRowsWithin (width_of version) columns (L.IsLegal legal.now) (comb_raw rows.now) }
{
    are_at_most(&rows.bases, rows.entries.len()) && are_slots_within(version, rows, columns, legal)
}

/// Whether each slot is within its row, with an entry that is allowed there, or free.
fn are_slots_within<L: Legal>(version: Version, rows: &RawComb, columns: usize, legal: &L) -> bool
    requires { length rows.now.rows.items ≡ length rows.now.entries.items }
    ensures { IsTrue result ↔ ((slot : ℕ) → slot < length rows.now.entries.items
        → IsSlotWithin (width_of version) columns (L.IsLegal legal.now) (comb_raw rows.now) slot
        (slice_index rows.now.entries.items slot) (slice_index rows.now.rows.items slot)) }
{
    for slot in 0..rows.entries.len() {
        if !is_slot_within(version, rows, columns, legal, slot) {
            return false;
        }
    }
    true
}

/// Whether a slot is within its row, with an entry that is allowed there, or free.
fn is_slot_within<L: Legal>(
    version: Version,
    rows: &RawComb,
    columns: usize,
    legal: &L,
    slot: usize,
) -> bool
    requires count { length rows.now.rows.items ≡ length rows.now.entries.items }
    requires slot { slot < length rows.now.entries.items }
    ensures { IsTrue result ↔ IsSlotWithin (width_of version) columns (L.IsLegal legal.now) (comb_raw rows.now)
        slot (slice_index rows.now.entries.items slot) (slice_index rows.now.rows.items slot) }
{
    let (entry, row) = (rows.entries[slot], rows.rows[slot]);
    let is_free = row == none(version) && entry == 0;
    is_free || is_in_row(rows, columns, legal, slot, entry, row)
}

/// Whether a slot is within a row that exists, with an entry that is allowed there.
fn is_in_row<L: Legal>(
    rows: &RawComb,
    columns: usize,
    legal: &L,
    slot: usize,
    entry: u32,
    row: u32,
) -> bool
    ensures { IsTrue result ↔ ((base column : ℕ) × (slice_get rows.now.bases.items row ≡ Some base)
        × (column < columns) × (slot ≡ base + column) × L.IsLegal legal.now column entry) }
{
    let Some(base) = rows.bases.get(row as usize) else {
        return false;
    };
    match slot.checked_sub(*base as usize) {
        Some(column) => column < columns && legal.is_legal(column, entry),
        None => false,
    }
}
