/// A lexeme, as far as the state where its walk ends determines it.
#[derive(Clone, Copy, Debug, PartialEq, Eq)]
pub struct TaggedLexeme {
    /// The fact of its rule, a nonzero number.
    pub fact: u32,
    /// The number of bytes taken.
    pub taken: usize,
}
