//! Combs.
ghost use Rattle.std.specs.Prelude.{◌≡◌, ◌++◌, ◌<◌, ◌^◌, ℕ, All, OnOk, length, map};
ghost use Rattle.std.specs.List.{flat_map};
ghost use Rattle.std.specs.Option.{option_map};
ghost use Rattle.std.specs.Int.{w32, to_be_bytes};
ghost use Rattle.ly_pack.specs.Combs.{slots_from, used_from};
ghost use Rattle.ly_base.specs.declared.version.Version.{Version as AnyVersion};
ghost use Rattle.ly_tables.specs.Private.Short.{IsSlotShort};
ghost use Rattle.ly_tables.specs.Ranges.{width_of};
ghost use Rattle.ly_tables.specs.RawSet.{Fits};
ghost use Rattle.ly_tables.specs.Spelling.{check_of, comb, next_of, number};

use crate::numbers::{Numbering, none, push_numbers, push_wide, reduction, shift};
use ly_base::{RuleNo, StateNo, Version};
use ly_pack::{Comb, CombSlot, TableAction};
use std::alloc::AllocError;

/// An entry of rows, which a number of each version represents.
pub(crate) trait CombEntry: Copy {
    /// Its number in a version.
    ghost code: { AnyVersion → Self → ℕ };

    /// The entry that a number of a version represents.
    ghost meant: { AnyVersion → ℕ → Self };

    /// The entry with this number in a version.
    fn of(version: Version, number: u32) -> Self
        ensures { result ≡ meant version number };

    /// Its number in a version.
    fn number(self, version: Version) -> u32
        requires { Fits (width_of version) (code version self) }
        ensures { result ≡ code version self };
}

impl CombEntry for StateNo {
    ghost use Rattle.ly_tables.specs.Private.Meaning.{state_meant};

    ghost code = { λ v s. s.0 };

    ghost meant = { λ v. state_meant };

    fn of(_version: Version, number: u32) -> StateNo {
        StateNo(number)
    }

    fn number(self, _version: Version) -> u32 {
        self.0
    }
}

impl CombEntry for TableAction {
    ghost use Rattle.ly_pack.specs.Values.{action_from};
    ghost use Rattle.ly_tables.specs.Private.Meaning.{action_meant};
    ghost use Rattle.ly_tables.specs.Spelling.{action_number};

    ghost code = { λ v a. action_number (width_of v) (action_from a) };

    ghost meant = { λ v. action_meant (width_of v) };

    fn of(version: Version, number: u32) -> TableAction {
        if number >= shift(version) {
            TableAction::Shift(StateNo(number - shift(version)))
        } else if number >= reduction(version) {
            TableAction::Reduce(RuleNo(number - reduction(version)))
        } else if number == 0 {
            TableAction::Error
        } else {
            TableAction::Accept
        }
    }

    fn number(self, version: Version) -> u32 {
        match self {
            TableAction::Error => 0,
            TableAction::Accept => 1,
            TableAction::Shift(state) => shift(version) + state.0,
            TableAction::Reduce(rule) => reduction(version) + rule.0,
        }
    }
}

/// A comb: the bases of its rows, the number of slots, their entries, and their rows.
pub(crate) fn push_comb<E: CombEntry>(
    out: &mut Vec<u8>,
    version: Version,
    rows: &Comb<E>,
) -> Result<(), AllocError>
    requires count { length rows.now.slots < 2 ^ 32 }
    requires slots { All (IsSlotShort (width_of version) (E.code version)) rows.now.slots }
    ensures { OnOk result (out.new.items ≡ out.old.items ++ comb (width_of version) (E.code version) rows.now) }
{
    push_bases(out, rows.bases())?;
    let slots = rows.slots();
    push_wide(out, slots.len() as u32)?;
    push_entries(out, version, slots)?;
    push_checks(out, version, slots)
}

/// Numbers as they are.
struct Itself;

/// Slots, numbered by their entries.
struct Entries;

/// Slots, numbered by their rows.
struct Rows;

impl Numbering<u32> for Itself {
    ghost has = { λ v n. Fits (width_of v) n };

    ghost code = { λ v n. n };

    fn number(_version: Version, number: &u32) -> u32 {
        *number
    }
}

impl<E: CombEntry> Numbering<CombSlot<E>> for Entries {
    ghost has = { λ v s. IsSlotShort (width_of v) (E.code v) (option_map used_from s) };

    ghost code = { λ v s. next_of (E.code v) (option_map used_from s) };

    fn number(version: Version, slot: &CombSlot<E>) -> u32 {
        match slot.get() {
            Some(slot) => slot.entry.number(version),
            None => 0,
        }
    }
}

impl<E: CombEntry> Numbering<CombSlot<E>> for Rows {
    ghost has = { λ v s. IsSlotShort (width_of v) (E.code v) (option_map used_from s) };

    ghost code = { λ v s. check_of (width_of v) (option_map used_from s) };

    fn number(version: Version, slot: &CombSlot<E>) -> u32 {
        match slot.get() {
            Some(slot) => slot.row.0,
            None => none(version),
        }
    }
}

/// The bases of rows.
fn push_bases(out: &mut Vec<u8>, bases: &[u32]) -> Result<(), AllocError>
    ensures { OnOk result (out.new.items ≡ out.old.items ++ flat_map (to_be_bytes w32) bases.now) }
{
    push_numbers::<u32, Itself>(out, Version::V2, bases)
}

/// The entries of slots; 0 for a free one.
fn push_entries<E: CombEntry>(
    out: &mut Vec<u8>,
    version: Version,
    slots: &[CombSlot<E>],
) -> Result<(), AllocError>
    requires { All (IsSlotShort (width_of version) (E.code version)) (slots_from slots.now) }
    ensures { OnOk result (out.new.items ≡ out.old.items
        ++ flat_map (λ u. number (width_of version) (next_of (E.code version) u)) (slots_from slots.now)) }
{
    push_numbers::<CombSlot<E>, Entries>(out, version, slots)
}

/// The rows of slots.
fn push_checks<E: CombEntry>(
    out: &mut Vec<u8>,
    version: Version,
    slots: &[CombSlot<E>],
) -> Result<(), AllocError>
    requires { All (IsSlotShort (width_of version) (E.code version)) (slots_from slots.now) }
    ensures { OnOk result (out.new.items ≡ out.old.items
        ++ flat_map (λ u. number (width_of version) (check_of (width_of version) u)) (slots_from slots.now)) }
{
    push_numbers::<CombSlot<E>, Rows>(out, version, slots)
}
