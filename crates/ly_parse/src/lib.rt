//! Parses tokens into a term with a parser's tables.
//!
//! A `Parser` borrows the tables, and owns a stack of states and terms and the forest of these terms. Each call
//! processes one token (`Feeds`): it makes the reductions, and then reads the token, accepts with a term, or rejects
//! the token. The tables must be steady, so that every call ends. `take` returns a small value, and `refusal` then
//! describes a rejected token; `feed` does both. For a rejected token the expected terminals are listed: each is run on
//! a copy of the stack from before the token, and terminals on which the states of a run do the same share
//! that run.
//!
//! - Expected terminals are those of the stack before any reduction on the token. The entries of the top state would be
//!   too many, because merged states have the lookaheads of other contexts too. Those after default reductions would be
//!   too few.
//! - The stack from before a token isn't copied: the states that reductions pop are noted, once each, unless the token
//!   is read after the reduction.
//! - State 0 is the bottom of every stack, so only the levels above it are stored.
//! - Runs of passes (rules of one symbol that pass its term on) are cached as shortcuts, and so is a goto with the
//!   passes after it. A pass changes only the top state and depends only on the situation, so a shortcut is valid for
//!   every stack. The cache has a fixed number of places, is allocated at its first use, and takes 16 bytes for a
//!   shortcut. A shortcut with a number above 65,535 isn't cached. The first 256 shortcuts aren't either, because a
//!   short text has hardly more, and allocating the cache would take most of its time.
//! - A terminal is listed as expected if its run ends in a shift, or in accepting with a term. One whose run finds the
//!   tables faulty isn't listed.
//!
//! Not done here: finding tokens, and printing errors.
#![tactic(auto)]

mod before;
mod copied;
mod fault;
mod kept;
mod landing;
mod last_run;
mod laws;
mod level;
mod listing;
mod origin;
mod parser;
mod refusal;
mod running;
mod settled;
mod settling;
mod shortcut;
mod shortcuts;
mod step;
mod token;
mod token_outcome;

pub use fault::ParseFault;
pub use laws::{a_token_is_fed_in_one_way, terms_are_of_trees};
pub use parser::Parser;
pub use refusal::Refusal;
pub use step::Step;
pub use token::Token;
pub use token_outcome::TokenOutcome;
