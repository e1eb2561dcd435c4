//! DFA minimisation: from a deterministic automaton to the minimal one that gives the same rule for every start and
//! string.
//!
//! `minimise` computes the coarsest stable partition of the states. It refines by halves (Hopcroft 1971): whenever a
//! block is split, its smaller half is kept as a list of states, and later splits the blocks by their transitions into
//! it. Each half has at most half of its block's states, so a state is in at most log n of them. Rounds over all states
//! (Moore 1956) follow until one splits nothing. A round looks up each state's block by its signature: its block, its
//! rule, and the blocks that its classes lead to. It is proved that the halves split only distinguishable states. That
//! they leave nothing to the rounds isn't proved, and the result doesn't depend on it.
//!
//! Proved: if each state of the input is reachable and leads to a rule, as in the automata of `ly_subset`, the result
//! is reduced: this holds of it too, and any two of its states are distinguished by a string (`IsReducedAutomaton`). No
//! automaton with the same rules has fewer states (`Smallest`). The states are again numbered breadth first, and the
//! classes of bytes are unchanged.
//!
//! Not covered: classes of bytes that no state distinguishes any more aren't merged.
#![tactic(auto)]

mod blocks;
mod groups;
mod halves;
mod laws;
mod links;
mod minimal;
mod partition;
mod quotient;
mod signature;

pub use laws::smallest;
pub use minimal::minimise;
