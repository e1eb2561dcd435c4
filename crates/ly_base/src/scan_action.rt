use crate::numbers::Sym;

/// What the scanner does when a rule of the lex file matches.
#[derive(Clone, Copy, Debug, PartialEq, Eq)]
pub struct ScanAction {
    /// The start condition to set, if any.
    pub begin: Option<u32>,
    /// The token to return, if any.
    pub emits: Emitted,
}

/// The token that a match returns.
#[derive(Clone, Copy, Debug, PartialEq, Eq)]
pub enum Emitted {
    /// None: the match is skipped.
    Nothing,
    /// A token of this terminal.
    Terminal(Sym),
    /// A token of the terminal of the first matched byte.
    FirstByte,
}
