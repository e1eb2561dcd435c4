//! Positions of patterns: from the rules of a lex file to a nondeterministic automaton (McNaughton and Yamada 1960).
//!
//! `positions` builds the automaton, within the limit on the weight of all patterns. Proved: it has each position of
//! the expanded patterns exactly once, with its bytes, the positions that can come next, and those that can come first
//! (`HasPositions`). So the runs from the start positions of a condition read exactly the strings of the rules that are
//! active there, each up to the end mark of its rule. Every position leads to an end mark, and no list has a member
//! twice (`ArePositions`). `PosNfa::step` maps a set of positions to exactly those that may come next.
//!
//! The positions come from a Thompson program, whose code only grows. First and last sets at each node (Glushkov) would
//! take quadratic memory for wide alternations. The automaton keeps and shares the program's forks in place of follow
//! lists, so its size is linear in the expanded patterns, also for `a?a?a?..`. No contract states this bound.
//!
//! Start lists are stored once if they are equal, and rules with the most common list of conditions come first in them.
//! Otherwise a file with many conditions and as many rules would need a list of all rules for each condition.
//!
//! Not covered: trailing context, and which of several rules wins. A step over a set may visit all forks at each byte.
#![tactic(auto)]

mod build;
mod fault;
mod grown;
mod laws;
mod link;
mod lists;
mod nfa;
mod plain;
mod plan;
mod program;
mod roots;
mod set;
mod shared_lists;
mod starts;
mod weight;

pub use build::positions;
pub use fault::PosFault;
pub use laws::{
    all_are_positions, paths_change_over, positions_are_as_many, positions_come_next,
    positions_live, positions_spell, reads_along, some_has_two_positions, sound_has_all,
    written_matches,
};
pub use nfa::{PosNfa, Position};
pub use set::PositionSet;
