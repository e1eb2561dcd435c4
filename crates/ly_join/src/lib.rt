//! Joins a lex file and a yacc file into one numbered specification.
//!
//! `join` makes a `Spec`: the `Grammar` with numbered symbols and rules, rule 0 first; the names of the symbols; their
//! precedences; and what the rules of both files do. The result is unique for each pair of files (`joined_is_one`).
//! Files are rejected only if they have no such result or exceed a limit. Symbols are numbered by their first
//! appearance (`numbered_by_first`).
//!
//! - Names are tokens only if a declaration names them, so only literals can be new terminals in the rules. The
//!   terminals are those of the declarations, followed by the literals of the rules.
//! - The level of a precedence is the index of its declaration among all declarations of tokens, because only their
//!   order matters.
//! - Limits are checked on counts of the files, so that `LimitPassed` is defined for files without a specification too.
//!   More symbols than a `u32` can number are `OutOfMemory`; the limits are far below.
//! - An error in a rule is reported before `LimitPassed`, so all rules are checked. Rules past the limit aren't stored.
//! - Names are numbered in an `IndexSet` and an `IndexMap` while files are joined. A `Spec` has lists made of these,
//!   because public types that own such a map would bring its specification into every crate that uses them.
//! - Names are copied from the yacc file, which stays with its owner.
//!
//! Not done here: checking that the places of an action are those of its body. The reader of the yacc file does it.
#![tactic(auto)]

mod fault;
mod grammar;
mod joining;
mod laws;
mod limit;
mod nonterminals;
mod numbering;
mod precedence;
mod rank;
mod rule;
mod scan_action;
mod spec;
mod symbol;
mod terminal;

pub use fault::JoinFault;
pub use grammar::{Grammar, GrammarRule};
pub use joining::join;
pub use laws::{joined_is_one, numbered_by_first};
pub use limit::Limit;
pub use precedence::{Associativity, Precedence};
pub use rule::RuleNote;
pub use spec::Spec;
pub use symbol::Symbol;
pub use terminal::TerminalName;
