//! Stores the terms that a parser builds, and prints them.
//!
//! A `Forest` holds the texts of leaves and the children of nodes in flat lists, without a box or a list per node. A
//! leaf takes its text only, and a node 8 bytes for each child; a long leaf takes 16 bytes more, and a long node 24. A
//! place is the number of a symbol of a rule's body, counted from 1. Contracts see terms: a reference that `leaf` or
//! `node` returns represents one, and keeps representing it. `line` makes all allocations that printing a term needs,
//! so that `TermLine::write` fails only if the writer does. It uses a stack of its own, so no depth overflows the
//! program's stack. `show` returns the text as bytes. `look` and `children` give access to the terms.
//!
//! - A forest copies the bytes of the tokens, so a parser borrows no text. What the eight bytes of a reference can't
//!   encode is long and stored in a list: a leaf of more than 255 bytes, of a terminal above 65,535, or after 2^32
//!   bytes of short ones; a node of more than 255 children, of a rule above 65,535, or after 2^32 children.
//! - The texts have spare capacity at their end, so that a short one is copied as a block of sixteen bytes.
//! - No part of a forest is used twice by the terms on a parser's stack, because a rule's shape uses each place at most
//!   once. So the length of a line and the depth of the stack for it are bounded by the size of the forest, and nothing
//!   is counted while a text is parsed.
//! - Lines are written while they are printed, through a buffer of 64 KB.
//! - Terms have the numbers of rules and terminals; constructors and names are given to the printer. What refers to a
//!   term implements `Refers`, so a node's children are picked directly from the levels of a parser's stack.
//!
//! Not done here: which rules build which terms (a parser calls this crate), and removing leaves or nodes.
#![tactic(auto)]

mod forest;
mod headed;
mod laws;
mod look;
mod node_span;
mod notation;
mod numbers;
mod plain;
mod printing;
mod refers;
mod term_line;
mod words;

pub use forest::{Forest, TermRef};
pub use laws::{a_json_text_says_one_tree, a_reference_stands_for_one};
pub use look::Look;
pub use node_span::NodeSpan;
pub use notation::{MostBytes, TermNotation};
pub use plain::Plain;
pub use refers::Refers;
pub use term_line::TermLine;
pub use words::Words;
