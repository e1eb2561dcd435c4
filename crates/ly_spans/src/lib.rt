//! Spans of a text: offsets, lines and columns, and both as JSON.
//!
//! `LineStarts` lists the offsets where the lines of a text begin. Its `locate` returns the line and column of an
//! offset as that of `ly_base` does, by binary search instead of a walk over the text. `locate_near` first looks at a
//! given line and the next one, where most offsets that are printed in order are. `push_json_span` prints a span.
#![tactic(auto)]

mod json;
mod line_starts;
mod span;

pub use json::push_json_span;
pub use line_starts::LineStarts;
pub use span::Span;
