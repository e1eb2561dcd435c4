use crate::numbers::RuleNo;

/// One match of a rule in a text.
#[derive(Clone, Copy, Debug, PartialEq, Eq)]
pub struct Lexeme {
    /// The rule that matches.
    pub rule: RuleNo,
    /// The length of the match in bytes.
    pub matched: usize,
    /// The length of the token in bytes, counted from the start of the match.
    pub taken: usize,
}

/// How scanning a text ends.
#[derive(Clone, Copy, Debug, PartialEq, Eq)]
pub enum End {
    /// At the end of the text.
    Clean,
    /// At a byte where no rule matches.
    Stuck {
        /// The byte's offset.
        byte: usize,
    },
    /// At a byte where a rule matches, but its trailing context leaves no token.
    BadCut {
        /// The byte's offset.
        byte: usize,
    },
}
