//! Computes the relations between the nonterminal transitions of an automaton, from which lookaheads are derived.
//!
//! `relations` finds exactly the pairs of reads, includes and lookback (`AreRelations`) of DeRemer and Pennello,
//! "Efficient Computation of LALR(1) Look-Ahead Sets", TOPLAS 1982. For each transition, each rule of its nonterminal
//! is walked once from the state where the transition begins. Then its body is walked backwards from its end, as long
//! as the symbols passed are nullable. That these walks never fail is proved, because the rule is valid where the
//! transition begins. The time is linear in the size of the relations and the walks.
//!
//! - If thousands of states have the same rules in their closures, most pairs are alike. So transitions over one
//!   nonterminal from which its rules that begin with a terminal lead to the same states share a node, and these rules
//!   are walked once, from the first of the transitions. Each transition is only compared with the last one over the
//!   same nonterminal that wasn't grouped.
//! - Rules that begin with a nonterminal are walked from each transition. If fewer than eight rules begin with a
//!   terminal, all are.
//! - Lookbacks are stored in blocks of 4,096 (`Pieces`), not in one list: a large grammar has millions of them, and
//!   blocks reuse the memory of the short lists that were just freed.
//!
//! Not done here: the terminals that transitions directly read, and the sets computed from these and the relations.
#![tactic(auto)]

mod gotos;
mod groups;
mod includes;
mod pairs;
mod parted_rules;
mod pieces;
mod reads;
mod relate;
mod walks;

pub use gotos::Goto;
pub use pairs::Relations;
pub use pieces::Pieces;
pub use relate::relations;
pub use walks::Lookback;
