// Computes the least and the greatest length of an expression's strings from those of its operands. They decide whether
// all strings have one length, and whether the empty string is among them. Counting stops at a number that no accepted
// weight reaches: the least length is at most the weight.
ghost use Rattle.std.specs.Prelude.{◌≡◌, ℕ, ◌+◌, ◌*◌, min, max, Some, None, ◌<◌, ◌≤◌, List, length, slice_index_or};
ghost use Rattle.std.specs.Prelude.{IfOk};
ghost use Rattle.ly_ere.specs.Arena.{expression_of, expressions, part_of, FitsAt, IsOrdered};
ghost use Rattle.ly_ere.specs.Expression.{Expression, Matches};
ghost use Rattle.ly_ere.specs.Lengths.{AreLengths, AreNamedLengths, IsSound, far, lengths_at};
ghost use Rattle.ly_ere.specs.Names.{defined};
ghost use Rattle.ly_ere.specs.Private.Lengths.{AreNear, IsNear, IsRepeated, Measures};
ghost use Rattle.ly_ere.specs.Weight.{weight_of};

use crate::names::Names;
use crate::node::Node;
use crate::re::Re;
use std::alloc::{AllocError, Global};

/// Lengths from here on count as this one.
pub(crate) const FAR: u64 = 1 << 32;

/// The lengths of the strings of an expression, up to `FAR`.
#[derive(Clone, Copy)]
pub(crate) struct Lengths {
    /// The length of the shortest string.
    pub(crate) least: u64,
    /// The length of the longest string; `FAR` if there is no longest one.
    pub(crate) most: u64,
}

/// The lengths of the strings of an expression.
pub(crate) fn lengths_of(alloc: Global, re: &Re, names: &Names) -> Result<Lengths, AllocError>
    ensures { IfOk result (λ l. IsSound (length names.now) re.now
        → AreLengths (weight_of (defined names.now) re.now) (Matches (defined names.now) re.now) l) }
{
    let (nodes, root) = re.nodes();
    let lengths = node_lengths(alloc, nodes, names.lengths())?;
    Ok(lengths[root])
}

/// The lengths of each node's expression.
fn node_lengths(
    alloc: Global,
    nodes: &[Node],
    named: &[Lengths],
) -> Result<Vec<Lengths>, AllocError>
    requires ordered { IsOrdered nodes.now }
    ensures counted { IfOk result (λ ls. length ls.items ≡ length nodes.now) }
    ensures lengths { IfOk result (λ ls. (names : List Expression) → AreNamedLengths names named.now
        → Measures names (expressions nodes.now) ls.items) }
{
    let mut lengths = Vec::new(alloc);
    for node in nodes {
        let here = lengths_at(*node, &lengths, named);
        lengths.push(here)?;
    }
    Ok(lengths)
}

/// The lengths of a node's expression, computed from those of the nodes before it.
fn lengths_at(node: Node, lengths: &[Lengths], named: &[Lengths]) -> Lengths
    requires fits { FitsAt (length lengths.now) node }
    requires near { AreNear lengths.now }
    ensures near { IsNear result }
    ensures lengths { (names done : List Expression) → AreNamedLengths names named.now
        → Measures names done lengths.now → length done ≡ length lengths.now
        → IsSound (length names) (expression_of done node)
        → AreLengths (weight_of names (expression_of done node)) (Matches names (expression_of done node)) result }
{
    match node {
        Node::Set(_) => Lengths { least: 1, most: 1 },
        Node::Empty => Lengths { least: 0, most: 0 },
        Node::Concat(a, b) => lengths[a].then(lengths[b]),
        Node::Either(a, b) => lengths[a].either(lengths[b]),
        Node::Star(a) => lengths[a].repeated(0, None),
        Node::Plus(a) => lengths[a].repeated(1, None),
        Node::Optional(a) => lengths[a].optional(),
        Node::Repeat { least, most, part } => lengths[part].repeated(least, most),
        Node::Name(x) => of_name(named, x),
    }
}

/// The lengths of a definition.
fn of_name(named: &[Lengths], number: usize) -> Lengths
    ensures near { IsNear result }
    ensures least { result.least ≡ min (lengths_at named.now number).least far }
    ensures most { result.most ≡ min (lengths_at named.now number).most far }
{
    let lengths = match named.get(number) {
        Some(lengths) => *lengths,
        None => Lengths { least: 0, most: 0 },
    };
    Lengths {
        least: lengths.least.min(FAR),
        most: lengths.most.min(FAR),
    }
}

impl Lengths {
    /// The lengths of a concatenation.
    fn then(self, next: Lengths) -> Lengths
        requires near { IsNear self }
        requires next_near { IsNear next }
        ensures { result ≡ record {
          least = min (self.least + next.least) far;
          most = min
              (self.most + next.most) far;
        } }
    {
        Lengths {
            least: (self.least + next.least).min(FAR),
            most: (self.most + next.most).min(FAR),
        }
    }

    /// The lengths of an alternation.
    fn either(self, other: Lengths) -> Lengths
        ensures { result ≡ record { least = min self.least other.least; most = max self.most other.most } }
    {
        Lengths {
            least: self.least.min(other.least),
            most: self.most.max(other.most),
        }
    }

    /// The lengths with the empty string added.
    fn optional(self) -> Lengths
        ensures { result ≡ record { least = 0; most = self.most } }
    {
        Lengths {
            least: 0,
            most: self.most,
        }
    }

    /// The lengths of a repetition.
    fn repeated(self, least: u8, most: Option<u8>) -> Lengths
        requires near { IsNear self }
        ensures { IsRepeated least most self result }
    {
        Lengths {
            least: (u64::from(least) * self.least).min(FAR),
            most: self.longest(most),
        }
    }

    /// The greatest length of at most `most` strings, one after another.
    fn longest(self, most: Option<u8>) -> u64
        requires near { IsNear self }
        ensures near { result ≤ far }
        ensures none { self.most ≡ 0 → result ≡ 0 }
        ensures bounded { (n : ℕ) → most ≡ Some n → result ≡ min (n * self.most) far }
        ensures unbounded { most ≡ None → 0 < self.most → result ≡ far }
    {
        match most {
            Some(times) => (u64::from(times) * self.most).min(FAR),
            None if self.most == 0 => 0,
            None => FAR,
        }
    }
}
