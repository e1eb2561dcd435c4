//! Builds a table set from a parser's actions, its LR(0) automaton, and the automaton of a scanner.
//!
//! `machine` makes the parser's tables: the action of each state before each terminal, its goto by each nonterminal,
//! and the rules. Removed rules are included, so that rules keep their numbers. These tables have no defaults.
//! `steady_machine` adds default reductions and checks that every run ends. Both require that the trees of rules use
//! places of their bodies, which holds for those of a yacc file (`shapes_are_within`). `table_set` packs the rows and
//! adds the scanner's tables and the names of terminals (`IsSetOf`); it requires that a file can hold them
//! (`FitsFile`). A law proves that tables follow the reference machine, even with defaults (`tables_follow`).
//!
//! - `table_set` takes the specification and not the actions of its states, because its tables are the same for any
//!   automaton of the useful rules.
//! - It doesn't take a version: a set is the same in both, and the contract has the ranges of each version.
//! - The theorem that tables follow the reference machine is about single tokens, for a parser's stack that mirrors the
//!   machine's. So it holds for texts in chunks too.
//!
//! Not done here: minimizing a scanner's automaton, and the bytes of a table file.
#![tactic(auto)]

mod laws;
mod scanner_tables;
mod set;
mod steady_tables;
mod tables;

pub use laws::{
    runs_follow, shapes_are_of_rules, shapes_are_within, tables_are_one, tables_follow,
};
pub use set::table_set;
pub use steady_tables::steady_machine;
pub use tables::machine;
