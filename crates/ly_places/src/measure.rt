ghost use Rattle.std.specs.Prelude.{◌≡◌, ◌≤◌, ◌+◌, ℕ, List, IfOk, Some, length, map, option_map, unwrap_or};
ghost use Rattle.ly_base.specs.Shape.{nil, shape_of};
ghost use Rattle.ly_pack.specs.Values.{rule_from};
ghost use Rattle.ly_places.specs.Private.Measured.{measure_of, parts_among, parts_at, parts_made, tokens_among};
ghost use Rattle.ly_places.specs.Private.Measured.{IsAmong};
ghost use Rattle.ly_parse.specs.Deriving.{shape_of_rule};
ghost use Rattle.ly_tree.specs.Look.{IsSeen};
ghost use Rattle.ly_tree.specs.Term.{Term};

use ly_base::{OutOfMemory, RuleNo, RuleTree};
use ly_pack::TableRule;
use ly_tree::{Forest, Look};
use std::alloc::Global;

/// The size of a term of a derivation, whose nodes have their whole bodies.
#[derive(Clone, Copy)]
pub(crate) struct Measure {
    /// The number of its tokens.
    pub(crate) tokens: usize,
    /// The number of parts that the rules make of it.
    pub(crate) parts: usize,
}

/// The sizes of all children of a forest's nodes.
pub(crate) fn measure_children(
    alloc: Global,
    forest: &Forest,
    rules: &[TableRule],
) -> Result<Vec<Measure>, OutOfMemory>
    ensures { IfOk result (λ measures. measures.items
        ≡ map (measure_of (shape_of_rule (map rule_from rules.now))) forest.now.children) }
{
    let children = forest.children();
    let mut measures = Vec::with_capacity(alloc, children.len())?;
    for child in children {
        // the children of a child precede it
        let measure = measured(rules, &measures, forest.look(*child))?;
        measures.push_reserved(measure);
    }
    Ok(measures)
}

/// The size of a term, from those of the children of nodes.
pub(crate) fn measured(
    rules: &[TableRule],
    measures: &[Measure],
    look: Look,
) -> Result<Measure, OutOfMemory>
    requires { IsAmong look (length measures.now) }
    ensures { (children : List Term) (t : Term) → IsSeen children look (Some t)
        → measures.now ≡ map (measure_of (shape_of_rule (map rule_from rules.now))) children
        → IfOk result (λ m. m ≡ measure_of (shape_of_rule (map rule_from rules.now)) t) }
{
    match look {
        Look::Nothing => Ok(Measure {
            tokens: 0,
            parts: 1,
        }),
        Look::Leaf(_) => Ok(Measure {
            tokens: 1,
            parts: 1,
        }),
        Look::Node(span) => {
            let body = &measures[span.start..span.start + span.count];
            Ok(Measure {
                tokens: tokens_of(body)?,
                parts: parts_by(tree_of(rules, span.rule), body)?,
            })
        }
    }
}

/// The tree of a rule, if the rule exists. Rule 0, which no tree has, is read as rule 1.
pub(crate) fn tree_of(rules: &[TableRule], rule: RuleNo) -> Option<&RuleTree>
    ensures { unwrap_or (option_map (λ t. shape_of t.now) result) nil ≡ shape_of_rule (map rule_from rules.now) rule.0 }
{
    let place = rule.0.saturating_sub(1) as usize;
    let rule = rules.get(place)?;
    Some(&rule.tree)
}

/// The number of tokens of the terms of a body.
fn tokens_of(body: &[Measure]) -> Result<usize, OutOfMemory>
    ensures { IfOk result (λ n. n ≡ tokens_among body.now) }
{
    let mut tokens: usize = 0;
    for measure in body {
        tokens = tokens.checked_add(measure.tokens).ok_or(OutOfMemory)?;
    }
    Ok(tokens)
}

/// The number of parts that a rule makes of the terms of its body.
fn parts_by(tree: Option<&RuleTree>, body: &[Measure]) -> Result<usize, OutOfMemory>
    ensures { IfOk result (λ n. n ≡ parts_made (unwrap_or (option_map (λ t. shape_of t.now) tree.entry) nil) body.now) }
{
    match tree {
        None | Some(RuleTree::Nil) => Ok(1),
        Some(RuleTree::Pass(place)) => Ok(parts_of_place(body, *place)),
        Some(RuleTree::Build { places, .. }) => {
            parts_of_places(body, places)?
                .checked_add(1)
                .ok_or(OutOfMemory)
        }
    }
}

/// The number of parts of the terms at these places of a body.
fn parts_of_places(body: &[Measure], places: &[u32]) -> Result<usize, OutOfMemory>
    ensures { IfOk result (λ n. n ≡ parts_among body.now places.now) }
{
    let mut parts: usize = 0;
    for place in places {
        parts = parts
            .checked_add(parts_of_place(body, *place))
            .ok_or(OutOfMemory)?;
    }
    Ok(parts)
}

/// The number of parts of the term at a place of a body, or of nothing if there is no such place.
fn parts_of_place(body: &[Measure], place: u32) -> usize
    ensures { result ≡ parts_at body.now place }
{
    let Some(before) = place.checked_sub(1) else {
        return 1;
    };
    match body.get(before as usize) {
        Some(measure) => measure.parts,
        None => 1,
    }
}
