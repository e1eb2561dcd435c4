ghost use Rattle.std.specs.Prelude.{◌≡◌, ◌<◌, ◌↔◌, ℕ, length, false, replicate, IfOk, OnOk, OnErr};
ghost use Rattle.std.specs.FinSet as set;

use crate::rows::Rows;
use ly_base::{OutOfMemory, Sym};
use std::alloc::Global;
use std::marker::Model;

/// Rows of sets of symbols below one width, with a count of the changes. Rows that are equal because one took all
/// members of the other are stored once.
#[derive(Drop)]
pub struct SetMatrix {
    /// The sets.
    rows: Rows,
    /// All members are below this.
    width: usize,
    /// The number of changes.
    changes: u64,
}

impl Model for SetMatrix {
    ghost use Rattle.ly_sets.specs.SetMatrix.{Matrix, matrix_code};
    ghost use Rattle.ly_sets.specs.Rows.{sets_of, IsKept};

    ghost Value = { Matrix };

    ghost coded = { matrix_code };

    ghost view = { λ m. record { width = m.width; sets = sets_of m.rows; changes = m.changes } };

    ghost invariant = { λ m. IsKept m.width m.rows };
}

impl SetMatrix {
    ghost use Rattle.ly_sets.specs.NumberSet.{AllBelow};
    ghost use Rattle.ly_sets.specs.SetMatrix.{row, with_row};

    /// Makes a matrix with this many empty rows for symbols below `width`.
    pub fn new(alloc: Global, rows: usize, width: usize) -> Result<SetMatrix, OutOfMemory>
        ensures { IfOk result (λ m. m ≡ record { width = width; sets = replicate rows set.empty; changes = 0 }) }
    {
        Ok(SetMatrix {
            rows: Rows::new(alloc, rows, width)?,
            width,
            changes: 0,
        })
    }

    /// The number of rows.
    pub fn rows(&self) -> usize
        ensures { result ≡ length self.now.sets }
    {
        self.rows.len()
    }

    /// The width. All members are below it.
    pub fn width(&self) -> usize
        ensures value { result ≡ self.now.width }
        ensures bounds { (i : ℕ) → AllBelow result (row self.now.sets i) }
    {
        self.width
    }

    /// The number of calls of `insert` and `union_row` that succeeded. It stays at `u64::MAX`.
    pub fn changes(&self) -> u64
        ensures { result ≡ self.now.changes }
    {
        self.changes
    }

    /// Adds a symbol to row `i`. On an error the matrix is unchanged.
    pub fn insert(&mut self, i: usize, symbol: Sym) -> Result<(), OutOfMemory>
        requires row { i < length self.old.sets }
        requires below { symbol.0 < self.old.width }
        ensures ok { OnOk result (self.new ≡
            with_row self.old i (set.insert (row self.old.sets i) symbol.0)) }
        ensures err { OnErr result (self.new ≡ self.old) }
    {
        self.rows.insert(i, symbol.0 as usize)?;
        self.changes = self.changes.saturating_add(1);
        Ok(())
    }

    /// Whether a symbol is in row `i`.
    pub fn contains(&self, i: usize, symbol: Sym) -> bool
        requires row { i < length self.now.sets }
        requires below { symbol.0 < self.now.width }
        ensures { result ≡ set.contains (row self.now.sets i) symbol.0 }
    {
        self.rows.contains(i, symbol.0 as usize)
    }

    /// The number of symbols in row `i`.
    pub fn count(&self, i: usize) -> usize
        requires { i < length self.now.sets }
        ensures { result ≡ set.len (row self.now.sets i) }
    {
        self.rows.count(i, self.width)
    }

    /// Adds row `j` to row `i`. Returns whether row `i` grew. On an error the matrix is unchanged.
    pub fn union_row(&mut self, i: usize, j: usize) -> Result<bool, OutOfMemory>
        requires to { i < length self.old.sets }
        requires from { j < length self.old.sets }
        ensures united { OnOk result (self.new ≡
            with_row self.old i (set.union (row self.old.sets i) (row self.old.sets j))) }
        ensures grew { IfOk result (λ grew. (grew ≡ false) ↔ (row self.new.sets i ≡ row self.old.sets i)) }
        ensures err { OnErr result (self.new ≡ self.old) }
    {
        let grew = self.rows.unite(i, j)?;
        self.changes = self.changes.saturating_add(1);
        Ok(grew)
    }
}
