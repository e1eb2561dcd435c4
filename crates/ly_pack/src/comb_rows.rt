ghost use Rattle.std.specs.Prelude.{◌≡◌, [], map, replicate, IfOk};
ghost use Rattle.ly_pack.specs.Combs.{comb_from, slots_from};
ghost use Rattle.ly_pack.specs.Rows.{IsComb};

use crate::cell::Cell;
use crate::comb_slot::CombSlot;
use crate::rows::Rows;
use ly_base::{OutOfMemory, StateNo};
use std::alloc::{AllocError, Global};
use std::borrow::CowSlice;
use std::marker::Model;
use std::rc::Rc;

/// A used slot.
#[derive(Clone, Copy, Debug, PartialEq, Eq)]
pub struct Slot<E> {
    /// The row that uses it.
    pub row: StateNo,
    /// The entry of the row there.
    pub entry: E,
}

/// Rows laid over one another: each row begins at its base, and its entries are in slots that no other row uses.
#[derive(Drop)]
pub struct Comb<E> {
    /// The number of columns of each row.
    width: usize,
    /// The base of each row.
    bases: Vec<u32>,
    /// The slots, including free ones.
    slots: Vec<CombSlot<E>>,
}

impl<E> Model for Comb<E> {
    ghost use Rattle.ly_pack.specs.Rows as value;
    ghost use Rattle.ly_pack.specs.Rows.{IsComb};
    ghost use Rattle.ly_pack.specs.Combs.{comb_from};

    ghost Value = { value.Comb E };

    ghost view = { λ c. comb_from c.width c.bases.items c.slots.items };

    ghost invariant = { λ c. IsComb (comb_from c.width c.bases.items c.slots.items) };
}

impl<E: Copy> Comb<E> {
    /// The comb with these columns, bases and slots.
    pub fn new(width: usize, bases: Vec<u32>, slots: Vec<CombSlot<E>>) -> Comb<E>
        requires { IsComb (comb_from width bases.items slots.items) }
        ensures { result ≡ comb_from width bases.items slots.items }
    {
        Comb {
            width,
            bases,
            slots,
        }
    }

    /// The number of columns of each row.
    pub fn width(&self) -> usize
        ensures count { result ≡ self.now.width }
        ensures whole { IsComb self.now }
    {
        self.width
    }

    /// The base of each row.
    pub fn bases(&self) -> &[u32]
        ensures { result.now ≡ self.now.bases }
    {
        &self.bases
    }

    /// The slots, including free ones.
    pub fn slots(&self) -> &[CombSlot<E>]
        ensures { slots_from result.now ≡ self.now.slots }
    {
        &self.slots
    }
}

impl<E: Copy> Rows<E> for Comb<E> {
    ghost use Rattle.std.specs.Prelude.{length};
    ghost use Rattle.ly_pack.specs.Rows.{comb_entry};

    ghost entries = { λ c. comb_entry c };

    ghost rows = { λ c. length c.bases };

    ghost width = { λ c. c.width };

    fn entry(&self, row: StateNo, column: usize) -> Option<E> {
        if self.width <= column {
            return None;
        }
        let base = *self.bases.get(row.0 as usize)?;
        let slot = self.slots[base as usize..].get(column)?.get()?;
        if slot.row == row {
            Some(slot.entry)
        } else {
            None
        }
    }

    fn cells(&self, alloc: Global) -> Result<CowSlice<'_, Rc<Vec<Cell<E>>>>, OutOfMemory> {
        let mut lists = no_cells(alloc, self.bases.len())?;
        for (place, slot) in self.slots.iter().enumerate() {
            if let Some(slot) = slot.get() {
                let row = slot.row.0 as usize;
                let Ok(column) = u32::try_from(place - self.bases[row] as usize) else {
                    return Err(OutOfMemory);
                };
                let entry = slot.entry;
                lists[row].push(Cell { column, entry })?;
            }
        }
        Ok(CowSlice::Owned(counted(alloc, lists)?))
    }
}

/// A list without cells for each of this many rows.
fn no_cells<E: Copy>(alloc: Global, rows: usize) -> Result<Vec<Vec<Cell<E>>>, AllocError>
    ensures { IfOk result (λ lists. map (λ cells. cells.items) lists.items ≡ replicate rows []) }
{
    let mut lists = Vec::with_capacity(alloc, rows)?;
    for _row in 0..rows {
        lists.push(Vec::new(alloc))?;
    }
    Ok(lists)
}

/// The same lists, each in an `Rc`.
fn counted<E: Copy>(
    alloc: Global,
    lists: Vec<Vec<Cell<E>>>,
) -> Result<Vec<Rc<Vec<Cell<E>>>>, AllocError>
    ensures { IfOk result (λ counted. map (λ cells. cells.value) counted.items ≡ lists.items) }
{
    let mut counted = Vec::with_capacity(alloc, lists.len())?;
    for cells in lists {
        counted.push(Rc::new(alloc, cells)?)?;
    }
    Ok(counted)
}
