//! Bit sets of numbers below a fixed width, with vectorised unions.
//!
//! `TermSet` is one set, and `SetMatrix` is a matrix whose rows are sets. Each call is proved to be the named operation
//! on sets of numbers. `union_row` also returns whether the row grew.
//!
//! Rows of a matrix that are known to be equal share one stored row: a row that takes all members of another, and has
//! no others, costs no words. A shared stored row is copied before it is changed, so `insert` and `union_row` can run
//! out of memory. Sharing isn't counted, so a row may be copied once more than needed. A `TermSet` allocates only in
//! `new`. Rows are whole blocks of four words, so no width is a special case.
//!
//! Not covered: removing numbers, and sets of different widths.
#![tactic(auto)]

mod bits;
mod rows;
mod set_matrix;
mod term_set;

pub use set_matrix::SetMatrix;
pub use term_set::TermSet;
