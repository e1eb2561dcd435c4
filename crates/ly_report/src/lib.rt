//! Prints the report of a specification: removed rules and conflicts (POSIX, XCU yacc, "Conflicts").
//!
//! `report` writes which rules are removed because they occur in no tree of the start symbol, the number of conflicts,
//! and for each conflict its prefix, its terminal, the chosen action, and the rule that isn't chosen. `report_text`
//! returns the same bytes, and `push_terminal` prints the name of a terminal. Without a report, `ConflictCounts::of`
//! counts the conflicts, and `push_counts` prints the line with these counts.
//!
//! Not done here: finding conflicts, and errors of specifications.
#![tactic(auto)]

mod counts;
mod fault;
mod laws;
mod line;
mod name;
mod write_report;

pub use counts::{ConflictCounts, push_counts};
pub use fault::ReportFault;
pub use laws::{counts_are_one, report_is_one, report_tells_counts};
pub use name::push_terminal;
pub use write_report::{report, report_text};
