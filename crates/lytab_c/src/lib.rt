//! The driver and the generator as a C library. The declarations are in `include/lytab.h`. The caller passes everything
//! that a call needs and owns each block that it writes. Nothing is kept between calls: there are no handles, nothing
//! to free and no locks. Each call reads the table file anew.
//!
//! `lytab_answer`, `lytab_json` and `lytab_parse` parse a text with a table file (`IsOutputOrReport`, `IsParsed`).
//! `lytab_parse_all` parses many texts (`AreAllParsed`), and `lytab_parse_tokens` parses tokens that the caller found
//! in a text (`AreTokensParsed`). `lytab_names` lists the names of a table file (`AreNamesTold`), `lytab_locate`
//! returns lines and columns, and `lytab_build` makes a table file (`IsBuilt`). Each contract states the results for
//! each status. A theorem states that a loop over the `next` of the parts of a tree visits the children of a node
//! (`walks_meet_children`).
//!
//! If a block is too short, only the report is written, and it has the length that is needed. Of the expected terminals
//! as many are written as the block holds.
//!
//! Parsing and table generation are in the crates that this one depends on.
#![tactic(auto)]

mod answer_list;
mod answering;
mod block;
mod build_report;
mod building;
mod caller_token;
mod laws;
mod locating;
mod name_counts;
mod name_list;
mod naming;
mod parsing;
mod parsing_all;
mod parsing_tokens;
mod part;
mod report;
mod status;
mod text_report;
mod text_source;
mod version;

pub use laws::walks_meet_children;
