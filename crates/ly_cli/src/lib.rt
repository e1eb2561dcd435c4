//! Parses the command line into a `Command`.
//!
//! `line` declares the arguments for `clap`, and `read_command` finds the command that they mean (`Mean`). A theorem
//! states that arguments in their plain form (`AskFor`), with an option and its value as two arguments, mean what they
//! ask for (`words_that_ask_mean`).
//!
//! This is a crate of its own since its proofs rest on `clap`'s contracts and need little of the other crates. Carrying
//! out a command is up to the program.
#![tactic(auto)]

mod command;
mod command_line;
mod laws;
mod line;

pub use command::{Answering, Command, CommandFault, ExplainPaths, Paths, ReportForm, Strictness};
pub use command_line::read_command;
pub use laws::words_that_ask_mean;
