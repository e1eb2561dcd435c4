//! Parses a text from a reader with a table file, and writes the result.
//!
//! `drive` reads a table file; `run` takes a table set. Both read the text in chunks into a `Feed` of `ly_feed` until
//! its result is known, and write that (`IsAnsweredBy`). They read only as much as they need (`IsReadAsNeeded`).
//! `drive_lines` and `run_lines` parse each line as a text of its own when it has ended (`AreLinesAnswered`).
//! `drive_tokens` and `run_tokens` list the tokens that a table file's scanner finds (`IsListedFor`). This crate knows
//! nothing of lex and yacc files, so running tables needs no generator.
//!
//! How much may be read is specified by what is decided: bytes after which the result isn't known, and at most 4,096
//! after them.
//!
//! Not done here: parsing, which is the feed's, and the relation of tables to the files that they were generated from.
#![tactic(auto)]

mod driving;
mod fault;
mod line;
mod lines;
mod lines_outcome;
mod reading;
mod table_tokens;

pub use driving::{drive, run};
pub use fault::DriveFault;
pub use lines::{drive_lines, run_lines};
pub use lines_outcome::LinesOutcome;
pub use ly_feed::{
    Feed, FeedFault, Need, Outcome, Prepared, TextFault, a_beginning_says_it, a_text_has_a_verdict,
    a_text_has_one_verdict, decided_matches_change_nothing,
};
pub use ly_print::AnswerForm;
pub use table_tokens::{drive_tokens, run_tokens};
