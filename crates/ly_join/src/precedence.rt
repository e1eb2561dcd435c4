/// The precedence of a token or a rule.
#[derive(Clone, Copy, Debug, PartialEq, Eq)]
pub struct Precedence {
    /// The index of its declaration among the declarations of tokens. A higher level binds more tightly.
    pub level: usize,
    /// The associativity.
    pub associativity: Associativity,
}

/// How two operators of the same precedence associate.
#[derive(Clone, Copy, Debug, PartialEq, Eq)]
pub enum Associativity {
    /// To the left: the first binds more tightly.
    Left,
    /// To the right: the second binds more tightly.
    Right,
    /// Not at all: they can't follow one another.
    Nonassociative,
}
