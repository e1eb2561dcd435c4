use ly_base::ByteSet;

/// One operator of an expression. Its operands are numbers of earlier nodes of the same list.
#[derive(Clone, Copy, Debug, PartialEq, Eq)]
pub enum Node {
    /// One byte of the set.
    Set(ByteSet),
    /// The empty string.
    Empty,
    /// The first operand, then the second.
    Concat(usize, usize),
    /// One of the two operands.
    Either(usize, usize),
    /// The operand any number of times: `*`.
    Star(usize),
    /// The operand one or more times: `+`.
    Plus(usize),
    /// The operand or nothing: `?`.
    Optional(usize),
    /// The operand at least `least` times, and at most `most` times if there is a bound: `{m,n}`.
    Repeat {
        /// The least number of repetitions, 0 to 255.
        least: u8,
        /// The greatest number of repetitions, if it is bounded.
        most: Option<u8>,
        /// The operand.
        part: usize,
    },
    /// The definition of this number: `{name}`.
    Name(usize),
}
