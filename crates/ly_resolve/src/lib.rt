//! Resolves the action of a parser in each state before each terminal, and finds the conflicts.
//!
//! Precedence and associativity settle a shift against a reduction. What they don't settle is counted as a conflict
//! (POSIX, XCU yacc, "Conflicts"; Aho, Johnson and Ullman, "Deterministic Parsing of Ambiguous Grammars", 1975).
//! `resolve` visits each state once, and settles it where two actions are possible before a terminal. The effect of
//! these actions on a text is defined by a reference machine over symbols and trees, without states and tables
//! (specs/Machine). Its laws are here too: without conflicts it accepts each sentence with each of its trees, and
//! refuses the first token that continues no sentence.
//!
//! - Accepting is a shift of `$end`. The end has no precedence, so a reduction against it is always a counted conflict,
//!   with the shift as its choice.
//! - Each reduction is judged against the shift by itself. The shift is chosen if every reduction leaves it; else the
//!   earliest reduction that stays; if none stays, the entry is an error.
//! - A terminal without a possible action has no entry. An error caused by associativity has one, so that no default
//!   replaces it later.
//! - Rows have entries only, in the order of terminals: a dense table of a large grammar wouldn't fit in memory. A row
//!   that equals the row before is stored once.
//! - Conflicts that differ only in their terminals, which are consecutive, are stored as one run (`Conflicts`): without
//!   precedences, 4,000 operators have sixteen million conflicts in 4,000 runs.
//! - The theorem that a machine without conflicts refuses exactly the first token that continues no sentence is about
//!   runs that end. Whether they end is checked on the tables.
//!
//! Not done here: reporting conflicts, default reductions, and tables.
#![tactic(auto)]

mod action;
mod action_rows;
mod asking;
mod conflict;
mod conflicts;
mod laws;
mod meeting;
mod precedence_verdict;
mod resolved;
mod settle;
mod shifting;

pub use action::{Action, TerminalAction};
pub use conflict::{Conflict, ConflictKind};
pub use conflicts::Conflicts;
pub use laws::{
    accepts_sentences, accepts_trees_only, defaults_never_mislead, is_unambiguous, reads_prefixes,
    refuses_exactly, refuses_first,
};
pub use resolved::Resolved;
pub use settle::resolve;
