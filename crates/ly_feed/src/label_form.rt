/// What follows the name in a label.
#[derive(Clone, Copy, Debug, PartialEq, Eq)]
pub(crate) enum LabelForm {
    /// In plain text, up to the text of a leaf or the children of a node.
    Plain,
    /// In JSON, up to the content of a leaf or the children of a node.
    Json,
    /// In JSON, nothing: any member may follow.
    Name,
}
