//! The subset construction: from positions to a deterministic automaton (Rabin and Scott 1959).
//!
//! `subsets` builds a `Dfa`, within the limit on its states. A state is a set of positions that some string leads to.
//! It has a row with one entry for each class of bytes that the same positions read. Proved: a walk ends in the least
//! rule that a run over the positions reaches (`WalksAgree`), and every state is reachable and leads to a rule
//! (`IsTrim`). The states are exactly the sets of positions that can come next after some string (`AreSpotSets`). They
//! are numbered breadth first, so their numbers are unique (`EntriesAreOne`).
//!
//! The starts and rows are one list of entries, the starts first. The order of first appearance in it is the numbering
//! of the states.
//!
//! A set is looked up by a hash of its members in ascending order, which are stored packed: as the first and last of
//! each run if the runs are long, else as a bitmap of each block of 32 positions that has members. The form depends on
//! the members alone, so equal sets have equal rows.
//!
//! For optional parts such as `a?b?c?` a step is found from one chain of positions instead of many follow lists, and a
//! set that is one run isn't unpacked.
//!
//! Not covered: the DFA isn't minimal. `ly_minim` merges equivalent states.
#![tactic(auto)]

mod chains;
mod classes;
mod construct;
mod dfa;
mod fault;
mod found;
mod keys;
mod laws;
mod members;
mod packed;
mod rules;
mod sets;

pub use construct::subsets;
pub use dfa::Dfa;
pub use fault::SubsetFault;
pub use keys::Keys;
pub use laws::{
    classes_of_rules, entries_are_one, more_sets_of_rules, no_more_sets_than_states,
    numbered_are_reached, subsets_are_spot_sets, subsets_are_trim, walks_agree,
};
