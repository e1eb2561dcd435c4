//! The basics that all crates of lytab share: byte sets, escapes, literals, names, limits and locations.
//!
//! `Place` is the state of a scan over a text, and `locate` converts an offset into a line and a column. `Limits` holds
//! the greatest sizes that are accepted, for each version of the table file (`Version`). The readers of escapes,
//! literals, names, whitespace and comments serve both input languages.
//!
//! The greatest limits are those of version 2. A call that writes a table file uses the lesser of each limit and that
//! version's (`Limits::within`), so a generated table set always fits its file.
//!
//! A `SparseSet` holds positions and instructions. Adding a number can't fail, and clearing takes one step.
//!
//! Printing and writing are in `ly_print`.
#![tactic(auto)]

mod blank;
mod byte_set;
mod cut;
mod entry;
mod escapes;
mod gap;
mod language;
mod lexeme;
mod limits;
mod literals;
mod location;
mod memory_fault;
mod names;
mod numbers;
mod place;
mod rule_tree;
mod scan_action;
mod sparse_set;
mod version;

pub use blank::is_blank;
pub use byte_set::ByteSet;
pub use cut::Cut;
pub use entry::Entry;
pub use escapes::{EscapeFault, escape};
pub use gap::{after_block, after_braces, after_comment, after_gap};
pub use language::Language;
pub use lexeme::{End, Lexeme};
pub use limits::Limits;
pub use literals::literal;
pub use location::{Location, locate};
pub use memory_fault::OutOfMemory;
pub use names::{leading_digits, leading_name};
pub use numbers::{RuleNo, StateNo, Sym};
pub use place::Place;
pub use rule_tree::RuleTree;
pub use scan_action::{Emitted, ScanAction};
pub use sparse_set::SparseSet;
pub use version::Version;
