//! The reader of extended regular expressions of lex files, and the definition of what they match.
//!
//! `read_names` reads the definitions of a lex file, which may use one another in any order. `read_front` reads the
//! pattern at the start of a line, and `read_pattern` the text of a whole pattern. Proved: each returns exactly the
//! expressions that the grammar assigns to the text, and rejects a text only if it is no pattern or too heavy. The
//! meaning of a text is unique (`names_are_one`, `pattern_is_one`, `front_pattern_is_one`).
//!
//! The crate also defines which strings a pattern matches and which rule wins at an offset of a text: the longest
//! match, and the first rule among equals. Proved: the winner is unique, and so is the length of its token
//! (`winner_is_one`, `split_is_one`, `cut_is_true`, `expression_has_string`).
//!
//! A pattern `r/x` has a head `r` and a tail `x`, its trailing context. Its cut is `Head` if all strings of `r` have
//! one length, and else `Tail`. With this rule `a/b`, where both have one length, has one cut.
//!
//! An expression is a list of nodes whose operands have smaller numbers. So nothing recurses over it, and deep nesting
//! can't overflow the stack. `Names` keeps each name twice: in a list in the order of definition and in a `HashMap`.
//!
//! Not covered: locales other than POSIX. The crate builds no automaton; it defines matches and doesn't search for
//! them.
#![tactic(auto)]

mod arena;
mod braced;
mod bracket;
mod cut;
mod definitions;
mod element;
mod fault;
mod front;
mod laws;
mod length;
mod level;
mod names;
mod node;
mod pattern;
mod quoted;
mod re;
mod read;
mod sides;
mod turns;
mod uses;
mod weight;

pub use arena::Arena;
pub use definitions::{NamedText, expression_length, read_names};
pub use fault::{EreFault, EreFaultKind};
pub use laws::{
    cut_is_true, expression_has_string, front_pattern_is_one, name_is_definition, names_are_one,
    pattern_is_one, phrase_is_one, split_is_one, winner_is_one,
};
pub use names::Names;
pub use node::Node;
pub use pattern::{Pattern, Rule};
pub use re::Re;
pub use read::{read_front, read_pattern};
pub use weight::weigh;
