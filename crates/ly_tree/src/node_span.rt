use ly_base::RuleNo;

/// A node: its rule, and the range of its children among those of the forest.
#[derive(Clone, Copy)]
pub struct NodeSpan {
    /// The rule.
    pub rule: RuleNo,
    /// The index of its first child among the children of all nodes.
    pub start: usize,
    /// The number of its children.
    pub count: usize,
}
