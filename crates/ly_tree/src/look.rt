use crate::node_span::NodeSpan;
use ly_base::Sym;

/// What a look at a term shows: everything but the text of a leaf.
#[derive(Clone, Copy)]
pub enum Look {
    /// Nothing.
    Nothing,
    /// A leaf of this terminal.
    Leaf(Sym),
    /// A node.
    Node(NodeSpan),
}
