ghost use Rattle.std.specs.Prelude.{◌≡◌, ℕ, ◌<◌, ◌≤◌, ◌+◌, ◌^◌, List, length, map, min, slice_index_or, IfOk};
ghost use Rattle.std.specs.Prelude.{MatchOption};
ghost use Rattle.ly_ere.specs.Arena.{expression_of, expressions, FitsAt, IsOrdered};
ghost use Rattle.ly_ere.specs.Expression.{Expression, empty};
ghost use Rattle.ly_ere.specs.Names.{defined};
ghost use Rattle.ly_ere.specs.Weight.{repeated_weight, weight_at, weight_of, weight_under};

use crate::names::Names;
use crate::node::Node;
use crate::re::Re;
use std::alloc::{AllocError, Global};

/// The weight of an expression, if it is at most `most`: the number of its byte sets and empty strings, with
/// repetitions and definitions expanded. Fails if memory runs out.
pub fn weigh(alloc: Global, re: &Re, names: &Names, most: u32) -> Result<Option<u32>, AllocError>
    ensures { IfOk result (λ weight. MatchOption weight (most < weight_of (defined names.now) re.now)
        (λ w. (w ≡ weight_of (defined names.now) re.now) × (w ≤ most))) }
{
    let weight = capped_weight(alloc, re, names.weights(), u64::from(most) + 1)?;
    Ok(at_most(weight, most))
}

/// Returns the weight if it is at most `most`.
fn at_most(weight: u64, most: u32) -> Option<u32>
    ensures { MatchOption result (most < weight) (λ w. (w ≡ weight) × (w ≤ most)) }
{
    match u32::try_from(weight) {
        Ok(weight) if weight <= most => Some(weight),
        _ => None,
    }
}

/// The weight of an expression, or `cap` if that is less, given the weights of the definitions.
fn capped_weight(alloc: Global, re: &Re, named: &[u32], cap: u64) -> Result<u64, AllocError>
    requires cap { cap ≤ 2 ^ 32 }
    requires some { 0 < cap }
    ensures { IfOk result (λ w. w ≡ min (weight_under (weight_at named.now) re.now) cap) }
{
    let (nodes, root) = re.nodes();
    let weights = capped_weights(alloc, nodes, named, cap)?;
    Ok(weights[root])
}

/// The capped weight of each node's expression.
fn capped_weights(
    alloc: Global,
    nodes: &[Node],
    named: &[u32],
    cap: u64,
) -> Result<Vec<u64>, AllocError>
    requires ordered { IsOrdered nodes.now }
    requires cap { cap ≤ 2 ^ 32 }
    requires some { 0 < cap }
    ensures counted { IfOk result (λ weights. length weights.items ≡ length nodes.now) }
    ensures weights { IfOk result (λ weights. weights.items
        ≡ map (λ e. min (weight_under (weight_at named.now) e) cap) (expressions nodes.now)) }
{
    let mut weights = Vec::new(alloc);
    for node in nodes {
        let weight = node_weight(*node, &weights, named, cap);
        weights.push(weight)?;
    }
    Ok(weights)
}

/// The capped weight of a node's expression, computed from those of the nodes before it.
fn node_weight(node: Node, weights: &[u64], named: &[u32], cap: u64) -> u64
    requires fits { FitsAt (length weights.now) node }
    requires cap { cap ≤ 2 ^ 32 }
    requires some { 0 < cap }
    requires weights { (k : ℕ) → slice_index_or weights.now k 0 ≤ cap }
    ensures capped { result ≤ cap }
    ensures weight { (done : List Expression)
        → weights.now ≡ map (λ e. min (weight_under (weight_at named.now) e) cap) done
        → result ≡ min (weight_under (weight_at named.now) (expression_of done node)) cap }
{
    match node {
        Node::Set(_) | Node::Empty => 1,
        Node::Concat(a, b) | Node::Either(a, b) => (weights[a] + weights[b]).min(cap),
        Node::Star(a) | Node::Plus(a) | Node::Optional(a) => weights[a],
        Node::Repeat { least, most, part } => repeated(least, most, weights[part]).min(cap),
        Node::Name(x) => u64::from(named.get(x).copied().unwrap_or(0)).min(cap),
    }
}

/// The weight of a repetition, computed from that of its operand.
fn repeated(least: u8, most: Option<u8>, weight: u64) -> u64
    requires { weight ≤ 2 ^ 32 }
    ensures { result ≡ repeated_weight least most weight }
{
    match most {
        None => u64::from(least.max(1)) * weight,
        Some(0) => 1,
        Some(times) => u64::from(times) * weight,
    }
}
