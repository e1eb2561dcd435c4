//! Makes the tables of a lex file and a yacc file: `file_tables`. The result is a `TableSet` value, not bytes.
//!
//! Its contract (`IsGenerated`) includes the main theorem: for each text the tables give the result that both files
//! specify (`tables_answer_as_specified`). Without conflicts that is what the derivations of the text's tokens
//! determine (`sentences_are_answered`). With conflicts, each tree is still a derivation of all tokens of the text
//! (`trees_are_of_texts`).
//!
//! The steps are public too. `read_specification` reads both files. `specification_parser` makes the parser tables,
//! counts the conflicts and, on request, makes their report; `file_parser` does the same from two files. All callers
//! share this one path. `settle` decides the actions of the parser's states, and `parser_tables` makes tables of them.
//!
//! This crate doesn't write table files, run tables or write reports. Its code is what is hard to prove about
//! generation; `ly_engine` adds the bytes and the driver, so a tool that only explains files needs no driver.
#![tactic(auto)]

mod gen_fault;
mod laws;
mod parser;
mod report_request;
mod specification;
mod tables;

pub use gen_fault::GenFault;
pub use laws::{
    refusal_is_exact, sentences_are_answered, tables_answer_as_specified, trees_are_of_texts,
};
pub use parser::{SpecParser, file_parser, parser_tables, settle, specification_parser};
pub use report_request::ReportRequest;
pub use specification::{Specification, read_specification};
pub use tables::{FileTables, file_tables};
