ghost use Rattle.std.specs.Prelude.{◌≡◌, ℕ, IfOk};
ghost use Rattle.std.specs.Cow.{cow_slice_items};
ghost use Rattle.ly_pack.specs.Rows.{AreAllCellsOf, Entries};

use crate::cell::Cell;
use ly_base::{OutOfMemory, StateNo};
use std::alloc::Global;
use std::borrow::CowSlice;
use std::rc::Rc;

/// Rows of entries, however they are stored.
pub trait Rows<E> {
    /// The entry of a row and a column, if there is one.
    ghost entries: { Self → Entries E };

    /// The number of rows.
    ghost rows: { Self → ℕ };

    /// The number of columns of each row.
    ghost width: { Self → ℕ };

    /// The entry of a row and a column, if there is one. The call doesn't allocate.
    fn entry(&self, row: StateNo, column: usize) -> Option<E>
        ensures { result ≡ entries self.now row.0 column };

    /// The entries of each row, in rising order of columns: the rows' own lists if they are stored as such. It fails if
    /// an allocation fails, or if a column doesn't fit in a `u32`.
    fn cells(&self, alloc: Global) -> Result<CowSlice<'_, Rc<Vec<Cell<E>>>>, OutOfMemory>
        ensures { IfOk result (λ lists. AreAllCellsOf (entries self.now) (rows self.now) (width self.now)
            (cow_slice_items lists)) };
}
