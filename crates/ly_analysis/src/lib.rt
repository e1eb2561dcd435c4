//! What is known of two accepted files (`Analysis`), with the locations of their symbols and rules.
//!
//! `ly_conflicts`, `ly_lints` and `ly_explain` read it: the lines and columns of rules and symbols (`Places`,
//! `RuleLines`), the items of the parser's states (`Cores`), which precedences decide something (`Decided`), and how
//! long symbol strings are shortened.
//!
//! Left out: errors of rejected files, which are in `ly_diagnostics`.
#![tactic(auto)]

mod analysis;
mod bodies;
mod cores;
mod cut;
mod decided;
mod lines;
mod places;

pub use analysis::{Analysis, Form, Options, first_of, write_numbered};
pub use bodies::{behind_dot, body_of, rest_of};
pub use cores::{Cores, END, Prefix, goto_of, symbol_to};
pub use cut::{ends, write_large, write_left_out, write_prefix, write_symbols, write_terminals};
pub use decided::{Decided, is_marked, last_terminal, place_of, precedence_of, rank_of};
pub use lines::{Lines, RuleLines};
pub use places::{DeclaredAgain, Places};
