//! The reader of lex files, and the definition of the lexemes of a text under their rules.
//!
//! `read_lex` parses a file into its definitions, rules, actions and start conditions. Proved: the result is the unique
//! meaning of the file (`lex_text_is_one`), and a file is rejected only if it is invalid, or a definition or pattern is
//! too heavy. The lexing of a text by rules is defined here too; it is unique (`lexing_is_one`), and can be continued
//! from any point (`lexing_goes_on`).
//!
//! Positions are counted as bytes left, since the rest of the file determines them. Offsets are computed at the end. A
//! rule's list of conditions is an `RcSlice`: a rule shares the list of the rule before it if both are the same.
//!
//! An error in the definitions doesn't end their reading at once. An earlier definition may use a name that is defined
//! later, so the definitions are read once more for errors in their expressions.
//!
//! Not covered: C code in actions and what depends on it, which docs/lex-file.md lists. Which tokens the returned names
//! mean depends on the yacc file.
#![tactic(auto)]

mod action;
mod action_fault;
mod active;
mod blanks;
mod conditions;
mod defined;
mod definitions;
mod directive;
mod fault;
mod file;
mod kind;
mod laws;
mod names;
mod read;
mod rest;
mod rules;
mod shared;
mod skipped;
mod statement;
mod words;

pub use action::{LexAction, Returned};
pub use fault::{LexFault, LexFaultKind};
pub use file::{LexFile, StartCondition};
pub use kind::{LineKind, kind_of};
pub use laws::{lex_text_begins_there, lex_text_is_one, lexing_goes_on, lexing_is_one};
pub use read::read_lex;
pub use rest::first_line;
