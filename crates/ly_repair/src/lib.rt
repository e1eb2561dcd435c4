//! Finds the cheapest repairs of a syntax error (Corchuelo, Perez, Ruiz and Toro 2002; Diekmann and Tratt 2020).
//!
//! `repair` starts at the stack of states before the rejected token. An edit inserts a terminal, deletes a token or
//! keeps it. Edits repair the text if three more of its terminals can be read after them, or all that are left and
//! then the end is accepted. Nothing costs less than the repairs that are listed, each of them is a repair, and if
//! `Nothing` is returned, no edits repair the text (`IsAnswer`).
//!
//! - The search goes cost by cost. A place is a stack, the number of tokens that are taken, and whether a deletion
//!   leads to it; it is stored at its least cost. From a place up to two tokens are kept before the next insertion or
//!   deletion: if three could be kept, the place would be whole.
//! - The places of the next cost are tried before any is stored. If one is whole, only whole ones are stored, and the
//!   search ends.
//! - No insertion directly follows a deletion, and no repair ends in a kept token: edits in other orders make the same
//!   text at the same cost.
//! - Stacks share their lower parts. A run keeps its upper states apart, because most runs end in an error.
//! - Repairs are ranked by how far the parse comes within 250 terminals, and then by their edits: insertions in the
//!   order of the terminals, a deletion, a kept token. They are listed along the edges that lead to places of one
//!   rank, so only those that are listed cost time.
//! - A search that exceeds its bounds is given up. Then the fewest deletions alone that repair the text are returned.
//!
//! Not done here: the faults of a whole text, one after another, and printing.
#![tactic(auto)]

mod bounds;
mod edit;
mod found;
mod laws;
mod listing;
mod place;
mod repairing;
mod search;
mod stacks;
mod text;
mod unfinished;

pub use bounds::Bounds;
pub use edit::Edit;
pub use found::{Found, Repairs};
pub use laws::{
    examples, form_loses_nothing, no_sentence_is_cheaper, order_loses_nothing, reads_in_one_way,
};
pub use repairing::repair;
