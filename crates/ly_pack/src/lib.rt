//! Compresses a parser's tables: default reductions, and rows laid over one another as a comb.
//!
//! `Machine` is a parser's tables over any `Rows`: lists (`Dense`), or a comb whose slots are checked (`Comb`).
//! `MachineView` borrows its tables. `choose_defaults` finds the most frequent reduction of each state and removes the
//! entries that are equal to it. `comb` places rows by first fit, those with the most entries first (Tarjan and Yao
//! 1979), and `pack` does so for a machine. For contracts a machine is its entries, whatever its rows, so a packed
//! machine behaves as before.
//!
//! - Rule 0 isn't among the rules of tables, because nothing reduces by it. Rules count from 1 there.
//! - Rows are lists until they are packed, so that they take memory for their entries only. An entry of a list is found
//!   by binary search. Consecutive equal rows share one list (`Dense::share`), which is copied before one of them is
//!   changed.
//! - `Rows::cells` lists all entries of a comb slot by slot, so its cost depends on the slots and not on the width of
//!   the rows.
//! - The search for a row's base starts at the base of the last row with the same columns, because slots are never
//!   freed.
//! - A machine is its entries, written out state by state, so nothing about runs is proved twice for lists and combs. A
//!   function as its value would need equality of functions.
//! - `Packed` is a type of its own, because a machine's value doesn't include the bases of its rows, and the bytes of a
//!   file depend on them.
//!
//! Not done here: combs shorter than those of first fit, and sharing rows between equal states.
#![tactic(auto)]

mod action;
mod bit_row;
mod cell;
mod comb_rows;
mod comb_slot;
mod defaults;
mod dense;
mod earlier_rows;
mod laws;
mod machine;
mod machine_parts;
mod machine_view;
mod order;
mod pack_machine;
mod packed;
mod placement_laws;
mod placing;
mod rows;
mod rule;
mod tally;

pub use action::TableAction;
pub use cell::Cell;
pub use comb_rows::{Comb, Slot};
pub use comb_slot::CombSlot;
pub use defaults::choose_defaults;
pub use dense::Dense;
pub use laws::{runs_end, stacks_keep_edges};
pub use machine::Machine;
pub use machine_parts::MachineParts;
pub use machine_view::MachineView;
pub use pack_machine::pack;
pub use packed::Packed;
pub use placement_laws::{default_is_one, placement_is_one};
pub use placing::comb;
pub use rows::Rows;
pub use rule::TableRule;
