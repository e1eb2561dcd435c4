//! Analyses two accepted files: counterexamples of their conflicts, and what is of no use in them. The results are
//! values; `ly_conflicts` and `ly_lints` print them.
//!
//! A conflict is found in a state, and often only one of its two actions is possible for the shortest string that leads
//! there, because LALR(1) merges lookaheads. A counterexample is a string with the same core at which both are
//! possible: the rule is complete and valid with the terminal, and so is its rival (`IsExample`, Knuth 1965).
//! `Examples::of` searches for one backwards from the state. The nodes of the search are demands (`Demand`): a state,
//! and two claims on items there. Popping a symbol moves the dots of both items back over it. An item with nothing
//! before its dot is valid because another item has the rule's left side after its dot, so the search climbs to that
//! item. There the terminal begins what follows the left side, or is inherited. If no counterexample exists, the
//! conflict comes from merging alone.
//!
//! `Examples::of_rule` and `Examples::of_choice` search for a string for one of the two actions, and
//! `Examples::none_has_one` asks for many conflicts at once. The backward edges are looked up: the states with
//! transitions to a state, and the items with a nonterminal after their dot (`Examples::predecessors`,
//! `Examples::waiting`).
//!
//! `unmatched_rules` lists the rules of the lex file that never match (`NeverMatches`): they win nowhere in any text
//! (`MatchedWin`). `unreduced_rules` lists the useful rules of the grammar that are never reduced (`NeverReduces`).
//! `unused_terminals` lists the tokens and literals that no rule uses (`IsUnused`), and `unreturned_terminals` those
//! that the scanner never returns (`IsUnreturned`). Each is one pass over the states, rows or rules. One more pass
//! along the transitions of the DFA finds the states from which a string leads to a rule that returns its first byte.
//!
//! `conflicting_sentence` checks whether the rules of two trees are those of one sentence whose parses take both
//! actions of a conflict (`IsAmbiguousAt`). It makes the moves of a parser for each tree, a rightmost derivation in
//! reverse. Both begin with the same moves, which lead to the state of the conflict, and differ there.
//!
//! This crate doesn't find conflicts or removed rules, doesn't print, doesn't search for ambiguous sentences, and
//! doesn't prove that a counterexample is the shortest one.
#![tactic(auto)]

mod budget;
mod claim;
mod example;
mod first_bytes;
mod found;
mod ground;
mod halt;
mod laws;
mod lists;
mod marks;
mod moves;
mod parses;
mod rest;
mod search;
mod sentences;
mod steps;
mod unmatched;
mod unreduced;
mod unreturned;
mod unused;

pub use budget::Budget;
pub use claim::{Claim, Demand};
pub use example::{Example, Examples};
pub use laws::{examples_follow, matched_rules_win, shifts_have_examples};
pub use sentences::conflicting_sentence;
pub use unmatched::unmatched_rules;
pub use unreduced::unreduced_rules;
pub use unreturned::unreturned_terminals;
pub use unused::unused_terminals;
