//! Builds the LR(0) automaton of a reduced grammar: one state for each core of a viable prefix. The core of a string is
//! the set of its valid items, without lookaheads.
//!
//! `automaton` builds it (Knuth 1965; DeRemer 1971). Two strings lead to the same state exactly if they have the same
//! core, and a string leads nowhere exactly if it isn't viable (`HasCores`). States are numbered by their access
//! prefixes, the least strings that lead to them: breadth first, symbols in the order of their numbers, terminals
//! before nonterminals (`AreNumbered`).
//!
//! - The moves of a state's items are sorted by symbol, rule and dot, so each run of one symbol is the kernel of the
//!   next state. Kernels are lists of items in rising order and are looked up by a hash. A run is first compared with
//!   the kernel to which the same symbol led from the state before, because it is mostly that one.
//! - The moves of the nonkernel items (`Nonkernel`) are listed once for consecutive states that close to the same
//!   nonterminals in the same order. They are cached for the last state only: a list for each set of nonterminals could
//!   be as large as the automaton. If the moves of a state begin like those of the state before, its transitions are
//!   copied without a look at kernels.
//! - A state's transitions over terminals and those over nonterminals are two lists (`Lr0::shifts`, `Lr0::gotos`).
//!   Consecutive states with equal lists over terminals share one in memory.
//! - A state stores the last step of its prefix, a state and a symbol, and not the prefix: for chains of states that
//!   would take quadratic space.
//! - `$end` leads to no state. Strings have their last symbol first in the definitions, as on a stack.
//!
//! Not done here: lookaheads, and the action of a state on a terminal.
#![tactic(auto)]

mod by_left;
mod closing;
mod construct;
mod core_items;
mod fault;
mod found;
mod item;
mod kernels;
mod laws;
mod lr0;
mod nonkernel;
mod row;
mod transition;

pub use construct::automaton;
pub use fault::Lr0Fault;
pub use item::Item;
pub use laws::{automaton_is_one, no_more_cores_than_states};
pub use lr0::Lr0;
pub use transition::Transition;
