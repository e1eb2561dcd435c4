use ly_base::Sym;
use ly_tree::TermRef;

/// The result of a parser for a token, or for the end of the text.
#[derive(Debug, Drop)]
pub enum Step {
    /// The token was read, and the parse continues.
    More,
    /// The text is accepted. This is its term in the parser's forest.
    Done(TermRef),
    /// The token, or the end, is rejected.
    Refused {
        /// Its number: the number of tokens up to it, including it.
        token: u64,
        /// Its offset in the text.
        byte: u64,
        /// The terminals that would have been read in its place, or accepted if it is the end, in rising order.
        expected: Vec<Sym>,
    },
}
