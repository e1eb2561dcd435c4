use ly_base::{RuleTree, Sym};

/// A rule of a parser's tables.
#[derive(Drop)]
pub struct TableRule {
    /// The nonterminal on its left side.
    pub left: Sym,
    /// The number of symbols of its body.
    pub body_length: usize,
    /// The tree that it builds.
    pub tree: RuleTree,
}
