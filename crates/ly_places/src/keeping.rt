//! Rules that keep their whole bodies, so that a parser with them builds derivations.
ghost use Rattle.std.specs.Prelude.{◌≡◌, ◌≤◌, codes, map, All, IfOk};
ghost use Rattle.ly_base.specs.Shape.{node, shape_of};
ghost use Rattle.ly_pack.specs.Values.{rule_from};
ghost use Rattle.ly_places.specs.Shapes.{keeping, keeping_rule, places_behind};

use ly_base::{OutOfMemory, RuleTree};
use ly_pack::TableRule;
use std::alloc::Global;

/// Rules with the left sides and the bodies of these, which keep their whole bodies. It fails if an allocation fails.
pub(crate) fn keeping_rules(
    alloc: Global,
    rules: &[TableRule],
) -> Result<Vec<TableRule>, OutOfMemory>
    requires { All (λ r. r.body_length ≤ 255) rules.now }
    ensures { IfOk result (λ kept. map rule_from kept.items ≡ map keeping_rule (map rule_from rules.now)) }
{
    let mut kept = Vec::with_capacity(alloc, rules.len())?;
    for rule in rules {
        kept.push(keeping_rule(alloc, rule)?)?;
    }
    Ok(kept)
}

/// The rule that keeps the body of this one.
fn keeping_rule(alloc: Global, rule: &TableRule) -> Result<TableRule, OutOfMemory>
    requires { rule.now.body_length ≤ 255 }
    ensures { IfOk result (λ kept. rule_from kept ≡ keeping_rule (rule_from rule.now)) }
{
    Ok(TableRule {
        left: rule.left,
        body_length: rule.body_length,
        tree: keeping(alloc, rule.body_length, &rule.tree)?,
    })
}

/// The tree of a rule with a body of this length that keeps its whole body. Nothing stays nothing, and a single tree
/// that is passed on still is, so that chains of such rules make no nodes.
fn keeping(alloc: Global, length: usize, tree: &RuleTree) -> Result<RuleTree, OutOfMemory>
    requires { length ≤ 255 }
    ensures { IfOk result (λ kept. shape_of kept ≡ keeping length (shape_of tree.now)) }
{
    match tree {
        RuleTree::Nil => Ok(RuleTree::Nil),
        RuleTree::Pass(place) if length == 1 => Ok(RuleTree::Pass(*place)),
        RuleTree::Pass(_) | RuleTree::Build { .. } => whole_body(alloc, length),
    }
}

/// A node with all trees of a body of this length.
fn whole_body(alloc: Global, length: usize) -> Result<RuleTree, OutOfMemory>
    requires { length ≤ 255 }
    ensures { IfOk result (λ tree. shape_of tree ≡ node (codes "kept") (places_behind 0 length)) }
{
    let mut places = Vec::with_capacity(alloc, length)?;
    for before in 0..length {
        places.push(before as u32 + 1)?;
    }
    Ok(RuleTree::Build {
        name: Vec::from_slice(alloc, b"kept")?,
        places,
    })
}
