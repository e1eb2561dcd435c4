use ly_base::{RuleNo, Sym};
use ly_spans::Span;

/// The kinds of parts of a tree.
#[derive(Clone, Copy, Debug, PartialEq, Eq)]
pub enum PartKind {
    /// Nothing.
    Nothing,
    /// A token with this terminal.
    Token(Sym),
    /// A node with this rule.
    Node(RuleNo),
}

/// A part of a tree. In a list of parts, each precedes the parts that it consists of.
#[derive(Clone, Copy, Debug, PartialEq, Eq)]
pub struct Part {
    /// Its kind.
    pub kind: PartKind,
    /// Its span.
    pub extent: Span,
    /// The number of parts of the list that it consists of, including itself.
    pub parts: usize,
}
