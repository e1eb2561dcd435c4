//! Computes the LALR(1) lookaheads of the rules that are complete in an automaton's states.
//!
//! They are those of the canonical LR(1) automaton with sets of equal cores merged (Knuth 1965; `InLookahead`). They
//! are computed from the relations of DeRemer and Pennello, "Efficient Computation of LALR(1) Look-Ahead Sets", TOPLAS
//! 1982: the least sets of direct reads along reads, the least sets of these along includes, and their unions along
//! lookback. `relations_give_lookaheads` proves that both are the same; `lookaheads` computes them. What transitions
//! directly read is put straight into the rows of their sets, because a list of it would have millions of entries.
//!
//! Not done here: the conflicts between lookaheads.
#![tactic(auto)]

mod direct;
mod follow;
mod laws;
mod look_ahead;
mod lookback;
mod rows;
mod sets;

pub use laws::relations_give_lookaheads;
pub use look_ahead::lookaheads;
pub use sets::Lookaheads;
