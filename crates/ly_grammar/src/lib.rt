//! Removes useless rules from a numbered grammar, and finds its nullable nonterminals and FIRST sets.
//!
//! `reduce` makes a `Reduced`. A rule is kept exactly if it occurs in a tree of the start symbol. For each nonterminal
//! it has whether it is nullable, and which terminals may begin what it derives (`IsReduction`). A rule is useful
//! exactly if its body has trees and its left side is reached from the start symbol by such rules. The others occur in
//! no tree of the start symbol, so no sentence is lost.
//!
//! - A removed rule keeps its number, and the lists of symbols are unchanged.
//! - Nullable and FIRST are those of the reduced grammar: a nonterminal all of whose rules are removed isn't nullable,
//!   and its FIRST set is empty.
//! - The nonterminals that have trees, and the nullable ones, are found by one search, with and without terminals.
//!   Those that are reached, and the FIRST sets, are least sets along graphs.
//!
//! Not done here: the names of rules and symbols, and precedence.
#![tactic(auto)]

mod fault;
mod first;
mod laws;
mod reduced;
mod search;
mod useful;
mod waiting;

pub use fault::GrammarFault;
pub use laws::{reduction_keeps_sentences, useful_is_led, useful_rules_are_one};
pub use reduced::{Reduced, reduce};
