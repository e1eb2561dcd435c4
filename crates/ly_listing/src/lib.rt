//! Prints the tokens of a text, one on each line, as plain text or as JSON.
//!
//! `Listing::write` scans a text with a lexer and writes a line for each token. A JSON line also has the token's start
//! and end. Proved: these are the lines of exactly the tokens of the text (`IsListing`), and nothing is written before
//! it is known how the tokens end. The caller gives the label of each rule's tokens (`RuleLabels`): what their lines
//! begin with.
//!
//! A first walk over the text finds the end, and marks the tokens in four bytes each. The lines are written from the
//! marks. If memory for marks runs out, the rest of the text is walked again. Most lexemes are determined by the state
//! where their walk ends, so the loops over them look up one number (`Lexer::tell`).
//!
//! Not covered: where the lexer, the labels and the text come from.
#![tactic(auto)]

mod decimal;
mod fault;
mod label;
mod listing;
mod marks;
mod printed;
mod printer;
mod rule_labels;
mod run_end;
mod spot;
mod token_end;
mod token_lines;

pub use fault::ListingFault;
pub use label::label_for;
pub use listing::Listing;
pub use rule_labels::{FIRST_BYTE, NOTHING, RuleLabel, RuleLabels};
pub use token_end::TokenEnd;
