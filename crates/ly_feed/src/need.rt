use crate::outcome::Outcome;

/// What a feed needs next.
#[derive(Debug, Drop)]
pub enum Need {
    /// More of the text, or its end: the result isn't known yet.
    More,
    /// Nothing: the text has this outcome and these bytes as its result, whatever follows. Never a tree, because more
    /// text could invalidate it.
    Settled(Outcome, Vec<u8>),
}
