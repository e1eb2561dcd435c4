//! Lists the tokens of a text under a lex file: `tokens`. The lexer runs the minimal DFA of the patterns (`row_walk`).
//! Two theorems cover it. The DFA agrees with the rules of the lex file (`row_walk_agrees`). The output is the one that
//! the lex file defines for the text (`Answers`, `answer_is_one`).
//!
//! `subset_scanner` makes the DFA before minimization. It is public because table generation starts with it too.
//!
//! The text is read completely before the first line is written, because a failed read or allocation must leave the
//! output empty. Holding the lines instead would take more memory. `ly_listing` walks over the text and writes the lines;
//! this crate makes the lexer and the labels of the tokens.
//!
//! This is a crate of its own since it needs no grammar. It doesn't open files, parse arguments or print error
//! messages.
#![tactic(auto)]

mod clean;
mod fault;
mod file_lexer;
mod labels;
mod laws;
mod scanner;
mod scanner_fault;
mod write_tokens;

pub use fault::TokensFault;
pub use laws::{answer_is_one, row_walk_agrees};
pub use ly_listing::TokenEnd;
pub use scanner::subset_scanner;
pub use scanner_fault::ScannerFault;
pub use write_tokens::tokens;
