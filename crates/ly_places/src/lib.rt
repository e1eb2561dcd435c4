//! Computes the tree of a text with the span of each part, as a list of parts and as a line of JSON.
//!
//! The parser runs with rules that keep their whole bodies (`keeping`), so its term is the derivation of the text,
//! whose leaves are the tokens in their order. The parts of the tree are computed from both (`parts_of`, `placed`).
//!
//! `parse` returns the parts, or the error in a text, and a `TextParser` does so for many texts. `parse_tokens` takes
//! tokens that were found otherwise. `drive_placed` reads a text from a reader and writes its result.
//!
//! - A text is parsed with the same tables as without spans, and the actions are applied to the derivation. So the
//!   parser's loop knows nothing of spans, and texts without them have no cost.
//! - An empty part is at the end of the last token before it, but within the rule around it. With bison's `@$` an empty
//!   first part extends a node over the whitespace before it.
//! - A `Part` has the number of its parts and not the index of its end, so a part can be copied out of the list
//!   unchanged.
//! - The line of a position is searched first on that of the part before it and on the next line, because most parts
//!   are there.
#![tactic(auto)]

mod derivation;
mod flattening;
mod keeping;
mod keeping_parser;
mod laws;
mod measure;
mod parsing;
mod part;
mod part_notation;
mod placed_line;
mod placed_token;
mod placing;
mod printing;
mod syntax_error_lines;
mod text_parser;
mod token_derivation;
mod token_parsing;

pub use laws::{
    a_placed_json_text_says_one_tree, parts_are_nested, placed_trees_are_of_texts,
    places_are_forgotten, tokens_say_what_their_text_says,
};
pub use ly_spans::{LineStarts, Span};
pub use parsing::{Parsed, parse};
pub use part::{Part, PartKind};
pub use placed_line::PlacedLine;
pub use placed_token::PlacedToken;
pub use placing::{drive_placed, place_text, run_placed};
pub use syntax_error_lines::{refused_line, unmatched_line};
pub use text_parser::TextParser;
pub use token_parsing::parse_tokens;
