//! `TextBuffer` builds the text of messages for people. Its methods don't return errors: it remembers the first failed
//! allocation and reports it at the end, in `finish`. `NamedFile` is a file with the name that the user gave for it.
//!
//! The contracts see a page as its bytes, or as nothing once an allocation failed, so one clause (`Says`) covers both.
//! This is a crate of its own so that the crates that print messages don't depend on `ly_engine` and are proved
//! separately.
//!
//! It doesn't decide what to print.
#![tactic(auto)]

mod buffer;
mod excerpt;
mod finding;
mod json;
mod named_file;
mod sarif;
mod shown_text;

pub use buffer::TextBuffer;
pub use excerpt::MARGIN;
pub use finding::{Extent, FindingPlace};
pub use named_file::NamedFile;
pub use shown_text::is_printable;
