//! Sets with vector lanes compared with plain sets, at widths around the ends of words and blocks.

use ly_base::{OutOfMemory, Sym};
use ly_sets::{SetMatrix, TermSet};
use std::alloc::Global;
use std::test::Fail;

const WIDTHS: [u32; 8] = [0, 1, 63, 64, 65, 255, 257, 4_095];

/// What rows may hold: nothing, every third number, every fifth, and both.
const NONE: (bool, bool) = (false, false);

const THIRDS: (bool, bool) = (true, false);

const FIFTHS: (bool, bool) = (false, true);

const BOTH: (bool, bool) = (true, true);

/// The row that grows, the row that is added to it, and what the three rows hold then.
type Union = (usize, usize, [(bool, bool); 3]);

const UNIONS: [Union; 8] = [
    (0, 0, [THIRDS, FIFTHS, NONE]),
    (2, 2, [THIRDS, FIFTHS, NONE]),
    (1, 0, [THIRDS, BOTH, NONE]),
    (1, 0, [THIRDS, BOTH, NONE]),
    (2, 1, [THIRDS, BOTH, BOTH]),
    (0, 1, [BOTH, BOTH, BOTH]),
    (0, 2, [BOTH, BOTH, BOTH]),
    (1, 2, [BOTH, BOTH, BOTH]),
];

/// A row takes all of another, and then each of the two gets more.
const PARTED: [Union; 4] = [
    (2, 0, [THIRDS, FIFTHS, THIRDS]),
    (0, 1, [BOTH, FIFTHS, THIRDS]),
    (2, 1, [BOTH, FIFTHS, BOTH]),
    (1, 2, [BOTH, BOTH, BOTH]),
];

/// Whether a number is among those that a row holds.
fn is_in(held: (bool, bool), number: u32) -> bool {
    held.0 && number % 3 == 2 || held.1 && number % 5 == 4
}

/// Adds a number to a row that has capacity for it.
pub(crate) fn insert(sets: &mut SetMatrix, row: usize, number: u32) -> Result<(), OutOfMemory> {
    if row < sets.rows() && (number as usize) < sets.width() {
        sets.insert(row, Sym(number))?;
    }
    Ok(())
}

/// Whether there is such a row, and a number is in it.
pub(crate) fn holds(sets: &SetMatrix, row: usize, number: u32) -> bool {
    row < sets.rows() && (number as usize) < sets.width() && sets.contains(row, Sym(number))
}

/// How many numbers a row has.
pub(crate) fn count(sets: &SetMatrix, row: usize) -> usize {
    if row < sets.rows() {
        sets.count(row)
    } else {
        0
    }
}

/// Whether a row holds exactly what it should.
fn is_row(sets: &SetMatrix, row: usize, width: u32, held: (bool, bool)) -> bool {
    let mut same = true;
    let mut members = 0usize;
    for number in 0..width {
        same &= holds(sets, row, number) == is_in(held, number);
        members = members.wrapping_add(usize::from(is_in(held, number)));
    }
    same && count(sets, row) == members
}

/// Adds the numbers of a row to another one, and returns whether the call reported correctly that it grew.
fn unite(sets: &mut SetMatrix, to: usize, from: usize) -> Result<bool, OutOfMemory> {
    let before = count(sets, to);
    let mut grew = false;
    if to < sets.rows() && from < sets.rows() {
        grew = sets.union_row(to, from)?;
    }
    Ok(grew == (count(sets, to) != before))
}

/// Whether the unions of a width are the plain ones, with one change each.
fn are_united(alloc: Global, width: u32, unions: &[Union]) -> Result<bool, OutOfMemory> {
    let mut sets = SetMatrix::new(alloc, 3, width as usize)?;
    for number in 0..width {
        if is_in(THIRDS, number) {
            insert(&mut sets, 0, number)?;
        }
        if is_in(FIFTHS, number) {
            insert(&mut sets, 1, number)?;
        }
    }
    let inserted = sets.changes();
    let mut same = true;
    for (to, from, rows) in unions {
        same &= unite(&mut sets, *to, *from)?;
        for (row, held) in rows.iter().enumerate() {
            same &= is_row(&sets, row, width, *held);
        }
    }
    Ok(same && sets.changes().wrapping_sub(inserted) == unions.len() as u64)
}

/// Whether a set has capacity for a number, and contains it.
fn has(set: &TermSet, number: u32) -> bool {
    (number as usize) < set.width() && set.contains(Sym(number))
}

/// Adds the numbers below a width that are in `BOTH`, if there is capacity for them.
fn fill(set: &mut TermSet, width: u32) {
    for number in 0..width {
        if is_in(BOTH, number) && (number as usize) < set.width() {
            set.insert(Sym(number));
        }
    }
}

/// Whether a set contains exactly the numbers below a width that are in `BOTH`.
fn is_filled(set: &TermSet, width: u32) -> bool {
    let mut same = set.width() == width as usize;
    let mut members = 0usize;
    for number in 0..width {
        same &= has(set, number) == is_in(BOTH, number);
        members = members.wrapping_add(usize::from(is_in(BOTH, number)));
    }
    same && set.count() == members
}

/// Whether a set of a width is the plain one.
fn is_set(alloc: Global, width: u32) -> Result<bool, OutOfMemory> {
    let mut set = TermSet::new(alloc, width as usize)?;
    fill(&mut set, width);
    Ok(is_filled(&set, width))
}

/// The first of `WIDTHS` at which a set or rows differ.
fn otherwise(alloc: Global) -> Result<Option<u32>, OutOfMemory> {
    for width in WIDTHS {
        let united = are_united(alloc, width, &UNIONS)? && are_united(alloc, width, &PARTED)?;
        if !is_set(alloc, width)? || !united {
            return Ok(Some(width));
        }
    }
    Ok(None)
}

#[test]
fn sets_of_each_width(rt: HostRuntime) -> Result<(), Fail> {
    assert_eq!(rt; otherwise(rt.alloc())?, None);
    Ok(())
}
