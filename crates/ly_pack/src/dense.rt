ghost use Rattle.std.specs.Prelude.{◌≡◌, ◌≢◌, ◌↔◌, ◌<◌, ◌≤◌, ℕ, [], filter, length, map, not, replicate, nat_eq};
ghost use Rattle.std.specs.Prelude.{◌&&◌, if◌then◌else◌, Some, None, slice_get, All, IfOk, IsTrue, OnErr, OnOk};
ghost use Rattle.std.specs.List.Sorted.{IsPartitionPoint};
ghost use Rattle.ly_pack.specs.Defaults.{is_by};
ghost use Rattle.ly_pack.specs.Private.Cells.{AreCellsStill};
ghost use Rattle.ly_pack.specs.Private.Tally.{left_out};
ghost use Rattle.ly_pack.specs.Rows.{dense_entry, entry_in, AreCellsOf, AreRising, IsDense};
ghost use Rattle.ly_pack.specs.Values.{action_from};
ghost use Rattle.ly_pack.specs.declared.cell.Cell.{Cell};

use crate::action::TableAction;
use crate::cell::Cell;
use crate::rows::Rows;
use ly_base::{OutOfMemory, RuleNo, StateNo};
use std::alloc::{AllocError, Global};
use std::borrow::CowSlice;
use std::marker::Model;
use std::rc::Rc;

/// Rows as lists: the entries of each row with their columns, in rising order of columns.
#[derive(Drop)]
pub struct Dense<E> {
    /// The allocator.
    alloc: Global,
    /// The number of columns of each row.
    width: usize,
    /// The entries of each row. Several rows may share a list, which is copied before one of them is changed.
    lists: Vec<Rc<Vec<Cell<E>>>>,
}

impl<E> Model for Dense<E> {
    ghost use Rattle.std.specs.Prelude.{length, map};
    ghost use Rattle.ly_pack.specs.Rows as value;
    ghost use Rattle.ly_pack.specs.Rows.{dense_of, IsDense};

    ghost Value = { value.Dense E };

    ghost view = { λ d. dense_of d.width d.lists.items };

    ghost invariant = { λ d. IsDense (dense_of d.width d.lists.items) };
}

impl<E: Copy> Dense<E> {
    /// Rows without entries. It fails if an allocation fails.
    pub fn new(alloc: Global, rows: usize, width: usize) -> Result<Dense<E>, OutOfMemory>
        ensures rows { IfOk result (λ d. d.rows ≡ rows) }
        ensures width { IfOk result (λ d. d.width ≡ width) }
        ensures none { IfOk result (λ d. (row column : ℕ) → dense_entry d row column ≡ None) }
    {
        Ok(Dense {
            alloc,
            width,
            lists: no_lists(alloc, rows)?,
        })
    }

    /// The number of rows.
    pub fn rows(&self) -> usize
        ensures { result ≡ self.now.rows }
    {
        self.lists.len()
    }

    /// The number of columns of each row.
    pub fn width(&self) -> usize
        ensures count { result ≡ self.now.width }
        ensures all { IsDense self.now }
    {
        self.width
    }

    /// The entries of a row, in rising order of columns.
    pub fn row(&self, row: StateNo) -> &[Cell<E>]
        requires { row.0 < self.now.rows }
        ensures these { AreCellsOf (dense_entry self.now row.0) result.now }
        ensures within { All (λ c. c.column < self.now.width) result.now }
    {
        &self.lists[row.0 as usize]
    }

    /// Reserves capacity for this many more entries of a row. It fails if an allocation fails.
    pub fn reserve(&mut self, row: StateNo, more: usize) -> Result<(), OutOfMemory>
        requires { row.0 < self.old.rows }
        ensures { self.new ≡ self.old }
    {
        Ok(reserve_own(self.alloc, &mut self.lists[row.0 as usize], more)?)
    }

    /// Sets or removes the entry of a row and a column. It fails if an allocation fails, or if the column doesn't fit
    /// in a `u32`.
    pub fn set(&mut self, row: StateNo, column: usize, entry: Option<E>) -> Result<(), OutOfMemory>
        requires row { row.0 < self.old.rows }
        requires column { column < self.old.width }
        ensures rows { self.new.rows ≡ self.old.rows }
        ensures width { self.new.width ≡ self.old.width }
        ensures entries { OnOk result ((r c : ℕ) → dense_entry self.new r c
            ≡ (if nat_eq r row.0 && nat_eq c column then entry else dense_entry self.old r c)) }
    {
        let Ok(column) = u32::try_from(column) else {
            return Err(OutOfMemory);
        };
        Ok(put_own(self.alloc, &mut self.lists[row.0 as usize], column, entry)?)
    }
}

impl Dense<TableAction> {
    /// Shares the list of a row with the row before it, if both are equal. The value of the rows doesn't change. It
    /// fails if an allocation fails.
    pub fn share(&mut self, row: StateNo) -> Result<(), OutOfMemory>
        requires { row.0 < self.old.rows }
        ensures { self.new ≡ self.old }
    {
        let row = row.0 as usize;
        if row > 0 && are_equal(&self.lists[row - 1], &self.lists[row]) {
            self.lists[row] = self.lists[row - 1].clone()?;
        }
        Ok(())
    }
}

/// Whether two rows have the same entries.
fn are_equal(one: &[Cell<TableAction>], other: &[Cell<TableAction>]) -> bool
    ensures { IsTrue result → one.now ≡ other.now }
{
    one == other
}

/// One list without cells for all of this many rows.
fn no_lists<E: Copy>(alloc: Global, rows: usize) -> Result<Vec<Rc<Vec<Cell<E>>>>, AllocError>
    ensures { IfOk result (λ lists. map (λ cells. cells.value.items) lists.items ≡ replicate rows []) }
{
    let none = Rc::new(alloc, Vec::new(alloc))?;
    let mut lists = Vec::with_capacity(alloc, rows)?;
    for _row in 0..rows {
        lists.push(none.clone()?)?;
    }
    Ok(lists)
}

/// Reserves capacity for this many more entries of a row. A shared list is copied first.
fn reserve_own<E: Copy>(
    alloc: Global,
    row: &mut Rc<Vec<Cell<E>>>,
    more: usize,
) -> Result<(), AllocError>
    ensures { row.new.value.items ≡ row.old.value.items }
{
    if let Some(cells) = Rc::get_mut(row) {
        return cells.reserve(more);
    }
    let mut cells = Vec::from_slice(alloc, row)?;
    cells.reserve(more)?;
    *row = Rc::new(alloc, cells)?;
    Ok(())
}

/// Sets or removes the entry of a column in a row. A shared list is copied first.
fn put_own<E: Copy>(
    alloc: Global,
    row: &mut Rc<Vec<Cell<E>>>,
    column: u32,
    entry: Option<E>,
) -> Result<(), AllocError>
    requires { AreRising row.old.value.items }
    ensures kept { AreCellsStill column row.old.value.items row.new.value.items }
    ensures entries { OnOk result ((t : ℕ) → entry_in row.new.value.items t
        ≡ (if nat_eq t column then entry else entry_in row.old.value.items t)) }
{
    if let Some(cells) = Rc::get_mut(row) {
        return put(cells, column, entry);
    }
    let mut cells = Vec::from_slice(alloc, row)?;
    put(&mut cells, column, entry)?;
    *row = Rc::new(alloc, cells)?;
    Ok(())
}

/// Removes the reductions by a rule from a row. A shared list is copied first.
fn leave_out_own(
    alloc: Global,
    row: &mut Rc<Vec<Cell<TableAction>>>,
    rule: RuleNo,
) -> Result<(), AllocError>
    ensures ok { OnOk result (row.new.value.items
        ≡ filter (λ c. not (is_by rule.0 (Some (action_from c.entry)))) row.old.value.items) }
    ensures err { OnErr result (row.new.value.items ≡ row.old.value.items) }
{
    if let Some(cells) = Rc::get_mut(row) {
        drop_by(cells, rule);
        return Ok(());
    }
    let mut cells = Vec::from_slice(alloc, row)?;
    drop_by(&mut cells, rule);
    *row = Rc::new(alloc, cells)?;
    Ok(())
}

/// Removes the reductions by a rule from these cells.
fn drop_by(cells: &mut Vec<Cell<TableAction>>, rule: RuleNo)
    ensures { cells.new.items ≡ filter (λ c. not (is_by rule.0 (Some (action_from c.entry)))) cells.old.items }
{
    cells.retain(|cell| !reduces_by(cell.entry, rule));
}

/// Sets or removes the entry of a column in a row.
#[inline(always)] // called for each entry of a table
fn put<E: Copy>(cells: &mut Vec<Cell<E>>, column: u32, entry: Option<E>) -> Result<(), AllocError>
    requires { AreRising cells.old.items }
    ensures kept { AreCellsStill column cells.old.items cells.new.items }
    ensures entries { OnOk result ((t : ℕ) → entry_in cells.new.items t
        ≡ (if nat_eq t column then entry else entry_in cells.old.items t)) }
{
    // rows are mostly filled in the order of their columns
    if are_before(cells, column as usize) {
        return append(cells, column, entry);
    }
    let place = place_of(cells, column as usize);
    if is_at(cells, place, column as usize) {
        cells.remove(place);
    }
    if let Some(entry) = entry {
        cells.insert(place, Cell { column, entry })?;
    }
    Ok(())
}

/// Sets or removes the entry of a column that is greater than all others of a row.
fn append<E: Copy>(
    cells: &mut Vec<Cell<E>>,
    column: u32,
    entry: Option<E>,
) -> Result<(), AllocError>
    requires { All (λ c. c.column < column) cells.old.items }
    ensures kept { AreCellsStill column cells.old.items cells.new.items }
    ensures entries { OnOk result ((t : ℕ) → entry_in cells.new.items t
        ≡ (if nat_eq t column then entry else entry_in cells.old.items t)) }
{
    if let Some(entry) = entry {
        cells.push(Cell { column, entry })?;
    }
    Ok(())
}

/// The index of the cell of a column, or the index where it would be inserted.
fn place_of<E: Copy>(cells: &[Cell<E>], column: usize) -> usize
    requires { AreRising cells.now }
    ensures within { result ≤ length cells.now }
    ensures parted { IsPartitionPoint (λ c. c.column < column) (λ c. column ≤ c.column) cells.now result }
{
    // rows are mostly filled in the order of their columns
    if are_before(cells, column) {
        return cells.len();
    }
    cells.partition_point(|cell| (cell.column as usize) < column)
}

/// Whether the columns of all cells are less than this one.
fn are_before<E: Copy>(cells: &[Cell<E>], column: usize) -> bool
    requires { AreRising cells.now }
    ensures { IsTrue result ↔ All (λ c. c.column < column) cells.now }
{
    match cells.len() {
        0 => true,
        count => (cells[count - 1].column as usize) < column,
    }
}

/// Whether the cell at this index is that of this column.
fn is_at<E: Copy>(cells: &[Cell<E>], place: usize, column: usize) -> bool
    ensures { IsTrue result ↔ ((c : Cell E) × (slice_get cells.now place ≡ Some c) × (c.column ≡ column)) }
{
    match cells.get(place) {
        Some(cell) => cell.column as usize == column,
        None => false,
    }
}

/// The entry of a column, if there is one.
fn entry_of<E: Copy>(cells: &[Cell<E>], column: usize) -> Option<E>
    requires { AreRising cells.now }
    ensures { result ≡ entry_in cells.now column }
{
    let place = place_of(cells, column);
    if is_at(cells, place, column) {
        Some(cells[place].entry)
    } else {
        None
    }
}

/// Removes the reductions by a rule from a row. It fails if an allocation fails.
pub(crate) fn leave_out(
    actions: &mut Dense<TableAction>,
    row: StateNo,
    rule: RuleNo,
) -> Result<(), OutOfMemory>
    requires { row.0 < actions.old.rows }
    ensures rows { actions.new.rows ≡ actions.old.rows }
    ensures width { actions.new.width ≡ actions.old.width }
    ensures row { OnOk result ((t : ℕ) → dense_entry actions.new row.0 t
        ≡ left_out rule.0 (dense_entry actions.old row.0 t)) }
    ensures others { (r t : ℕ) → r ≢ row.0 → dense_entry actions.new r t ≡ dense_entry actions.old r t }
{
    Ok(leave_out_own(actions.alloc, &mut actions.lists[row.0 as usize], rule)?)
}

/// Whether an entry is a reduction by a rule.
fn reduces_by(entry: TableAction, rule: RuleNo) -> bool
    ensures { result ≡ is_by rule.0 (Some (action_from entry)) }
{
    match entry {
        TableAction::Reduce(other) => rule == other,
        _ => false,
    }
}

impl<E: Copy> Rows<E> for Dense<E> {
    ghost use Rattle.ly_pack.specs.Rows.{dense_entry};

    ghost entries = { λ d. dense_entry d };

    ghost rows = { λ d. d.rows };

    ghost width = { λ d. d.width };

    fn entry(&self, row: StateNo, column: usize) -> Option<E> {
        match self.lists.get(row.0 as usize) {
            Some(cells) => entry_of(cells, column),
            None => None,
        }
    }

    fn cells(&self, _alloc: Global) -> Result<CowSlice<'_, Rc<Vec<Cell<E>>>>, OutOfMemory> {
        Ok(CowSlice::Borrowed(&self.lists))
    }
}
