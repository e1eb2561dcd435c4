//! Finds and prints all independent errors of two rejected files: `write_faults`, and `write_lex_faults` for a lex file
//! alone. `ly_conflicts` and `ly_lints` print what there is to report about accepted files.
//!
//! A file is read. If it is rejected, the part around the error is fixed in a copy and the copy is read, until it is
//! accepted or the maximum number of errors is found. Then both files are joined, and the errors of that are fixed in
//! what was read. A fix keeps the names of the file as far as possible, so that one error doesn't cause reports of
//! others.
//!
//! The reader stops at an error and has no end for what it rejects, so this crate decides itself where a rejected
//! pattern or action ends. Which lines are part of an action has no definition. Of the indented lines that
//! `indented_lines` lists it is proved that each is one (`AreIndented`); that none is left out is only tested.
//!
//! The first error of the files is an input: this crate doesn't decide whether files are rejected.
#![tactic(auto)]

mod advice;
mod causes;
mod edit;
mod exchange;
mod faults;
mod faults_json;
mod faults_sarif;
mod finding;
mod indented;
mod join_faults;
mod join_mending;
mod lex_advice;
mod lex_faults;
mod lex_mending;
mod lex_names;
mod lex_units;
mod location;
mod nearest;
mod pieces;
mod roundabout;
mod short;
mod telling;
mod text_marks;
mod yacc_advice;
mod yacc_before;
mod yacc_faults;
mod yacc_mending;
mod yacc_offsets;
mod yacc_units;

pub use faults::{write_faults, write_lex_faults};
pub use faults_json::write_json_faults;
pub use faults_sarif::write_sarif_faults;
pub use indented::indented_lines;
