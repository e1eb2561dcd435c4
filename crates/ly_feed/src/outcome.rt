use ly_base::Sym;

/// The outcome of parsing a text.
#[derive(Debug, Drop)]
pub enum Outcome {
    /// The text has a tree.
    Tree,
    /// A token is unexpected, or the end.
    Syntax {
        /// Its number, counted from 1. For the end, the number of tokens plus 1.
        token: u64,
        /// Its offset, counted from 0.
        byte: u64,
        /// Its length in bytes; 0 for the end.
        length: usize,
        /// The terminals that would have been read in its place, or accepted if it is the end, in rising order.
        expected: Vec<Sym>,
    },
    /// No rule matches.
    NoRule {
        /// The offset of this byte, counted from 0.
        byte: u64,
    },
}
