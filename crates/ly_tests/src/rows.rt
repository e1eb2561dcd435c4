//! Dense rows and packed rows, and tables of both kinds.

use ly_base::{OutOfMemory, RuleNo, RuleTree, StateNo, Sym};
use ly_pack::{
    Comb, Dense, Machine, MachineParts, Packed, Rows, TableAction, TableRule, comb, pack,
};
use std::alloc::Global;
use std::test::Fail;

/// Rows of entries: a digit each, or a point for no entry.
const ROWS: [&[u8]; 6] = [b"1.2.", b"....", b".34.", b"5...", b"6789", b"..1."];

/// A dense table with the entries of `ROWS`.
fn dense_rows(alloc: Global) -> Result<Dense<u8>, OutOfMemory> {
    let mut dense = Dense::new(alloc, 6, 4)?;
    for row in 0..6u32 {
        for column in 0..4usize {
            if (row as usize) < dense.rows() && column < dense.width() {
                dense.set(StateNo(row), column, entry(row as usize, column))?;
            }
        }
    }
    Ok(dense)
}

/// An entry of `ROWS`.
fn entry(row: usize, column: usize) -> Option<u8> {
    match ROWS.get(row)?.get(column)? {
        b'.' => None,
        entry => Some(*entry),
    }
}

/// Whether rows have exactly the entries of `ROWS`.
fn have_entries<R: Rows<u8>>(rows: &R) -> bool {
    let mut same = true;
    for row in 0..8u32 {
        for column in 0..6usize {
            same &= rows.entry(StateNo(row), column) == entry(row as usize, column);
        }
    }
    same
}

/// The rows of `dense`, packed.
fn laid_rows(alloc: Global, dense: &Dense<u8>) -> Result<Comb<u8>, OutOfMemory> {
    comb(alloc, dense)
}

/// Whether rows keep their entries, also if they are packed, with one base each.
fn are_kept(alloc: Global) -> Result<bool, OutOfMemory> {
    let dense = dense_rows(alloc)?;
    let laid = laid_rows(alloc, &dense)?;
    let sizes = laid.width() == 4 && laid.bases().len() == 6;
    let kept = sizes && have_entries(&dense) && have_entries(&laid);
    drop(dense);
    drop(laid);
    Ok(kept)
}

#[test]
fn rows_keep_their_entries(rt: HostRuntime) -> Result<(), Fail> {
    assert!(rt; are_kept(rt.alloc())?);
    Ok(())
}

/// The tables of `s : 'x' ;`, where `'x'` is terminal 2, with dense rows.
pub(crate) fn by_hand(
    alloc: Global,
) -> Result<Machine<Dense<TableAction>, Dense<StateNo>>, OutOfMemory> {
    let defaults = Vec::from_slice(alloc, &[None, Some(RuleNo(1)), None])?;
    let mut rules = Vec::new(alloc);
    rules.push(TableRule {
        left: Sym(0),
        body_length: 1,
        tree: RuleTree::Pass(1),
    })?;
    let mut actions = Dense::new(alloc, 3, 3)?;
    actions.set(StateNo(0), 2, Some(TableAction::Shift(StateNo(1))))?;
    actions.set(StateNo(2), 0, Some(TableAction::Accept))?;
    let mut gotos = Dense::new(alloc, 3, 1)?;
    gotos.set(StateNo(0), 0, Some(StateNo(2)))?;
    Ok(Machine::new(MachineParts {
        terminals: 3,
        nonterminals: 1,
        actions,
        gotos,
        defaults,
        rules,
    }))
}

/// The tables that are made by hand, with packed rows.
pub(crate) fn laid_by_hand(
    alloc: Global,
) -> Result<Machine<Packed<TableAction>, Packed<StateNo>>, OutOfMemory> {
    pack(alloc, by_hand(alloc)?)
}
