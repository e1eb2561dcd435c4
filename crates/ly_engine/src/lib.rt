//! The crate for embedders. `generate`, `build` and `generate_report` make the table file and the report of a lex file
//! and a yacc file; `answer` parses a text with the two files directly. A table file has one of two versions; what
//! isn't written to a table file uses the limits of version 2. Generated tables are proved to give the result that the
//! two files specify (`IsGenerated` of `ly_generate`).
//!
//! The rest of what an embedder needs is re-exported: `tokens` for a lex file alone, `drive` for a table file, and
//! `Feed` for a text that arrives in chunks; also the theorems of `ly_generate` and its steps, for tools that explain
//! two files.
//!
//! This crate doesn't open files, parse arguments or print error messages; the program does.
#![tactic(auto)]

mod answer_fault;
mod answering;
mod generating;
mod laws;
mod placing;
mod reporting;
mod reporting_fault;

pub use answer_fault::AnswerFault;
pub use answering::answer;
pub use generating::{Built, build, generate};
pub use laws::{given_tokens_are_answered, spans_are_of_derivations};
pub use ly_base::{Limits, Version};
pub use ly_drive::{
    DriveFault, Feed, FeedFault, LinesOutcome, Need, Outcome, Prepared, TextFault, drive,
    drive_lines,
};
pub use ly_generate::{
    GenFault, ReportRequest, Specification, parser_tables, read_specification, refusal_is_exact,
    sentences_are_answered, settle, tables_answer_as_specified,
};
pub use ly_places::{drive_placed, run_placed};
pub use ly_print::{AnswerForm, Counted, MemSink, MemSource, Sink, Source};
pub use ly_report::ConflictCounts;
pub use ly_tables::{
    FormatFault, SetCounts, TableFault, TableSet, counts, read_tables, write_tables,
};
pub use ly_tokens::{TokenEnd, TokensFault, tokens};
pub use placing::answer_placed;
pub use reporting::generate_report;
pub use reporting_fault::ReportingFault;
