//! Computes the parts of a tree from its derivation, in two passes whose time is linear in its size, whatever its
//! depth.
//!
//! The first pass measures the children of all nodes, in the order in which they are in the forest: their number of
//! tokens, and the number of parts that the rules make of them. The second pass lists the parts, with a stack in place
//! of recursion. A term waiting on the stack knows where its tokens begin, whatever the order in which an action names
//! them. A node's parts are counted beforehand, so no part is changed after it is listed.

ghost use Rattle.std.specs.Prelude.{◌≡◌, ◌≤◌, ◌+◌, ℕ, List, ◌++◌, All, IfOk, OnOk, drop, length, map, reverse, take};
ghost use Rattle.ly_base.specs.Lexed.{Token};
ghost use Rattle.ly_base.specs.Trees.{Tree};
ghost use Rattle.ly_pack.specs.Machine.{IsShapeFor};
ghost use Rattle.ly_pack.specs.Values.{rule_from};
ghost use Rattle.ly_places.specs.Derived.{IsDerived, IsShaped};
ghost use Rattle.ly_places.specs.Parts.{parts_of};
ghost use Rattle.ly_places.specs.Placed.{end_behind, placed};
ghost use Rattle.ly_places.specs.Private.Kept.{first_extent};
ghost use Rattle.ly_places.specs.Private.Measured.{tokens_among};
ghost use Rattle.ly_places.specs.Private.Waiting.{body_from, kind_of, last_end, shapes_of, waiting_at};
ghost use Rattle.ly_places.specs.Private.Waiting.{IsListed, IsMeasured, IsOpened, IsReady};
ghost use Rattle.ly_parse.specs.Deriving.{shape_of_rule};

use crate::measure::{Measure, measure_children, measured, tree_of};
use crate::part::{Part, PartKind};
use ly_base::{OutOfMemory, RuleTree};
use ly_pack::TableRule;
use ly_spans::Span;
use ly_tree::{Forest, Look, NodeSpan, TermRef};
use std::alloc::Global;

/// The parts of the tree that rules make of a derivation, whose tokens are the last ones of a text.
///
/// The derivation is a term of a forest, whose nodes have their whole bodies.
pub(crate) fn parts_of(
    alloc: Global,
    forest: &Forest,
    root: TermRef,
    tokens: &[Span],
    rules: &[TableRule],
) -> Result<Vec<Part>, OutOfMemory>
    requires derived { (before : List (Token ℕ)) × (d : Tree)
        × IsDerived forest.now root tokens.now (map rule_from rules.now) before d }
    requires shaped { All IsShaped (map rule_from rules.now) }
    ensures { IfOk result (λ parts. (before : List (Token ℕ)) (d : Tree)
        → IsDerived forest.now root tokens.now (map rule_from rules.now) before d
        → parts.items ≡ parts_of (placed (shape_of_rule (map rule_from rules.now)) (end_behind before) d)) }
{
    let measures = measure_children(alloc, forest, rules)?;
    let whole = measured(rules, &measures, forest.look(root))?;
    let first = tokens.len() - whole.tokens;
    let mut listing = Listing {
        parts: Vec::with_capacity(alloc, whole.parts)?,
        waiting: Vec::new(alloc),
        body: Vec::new(alloc),
    };
    listing.waiting.push(Waiting {
        term: root,
        first,
        last: last_end(&tokens[..first]),
    })?;
    let derivation = Flattening {
        forest,
        children: forest.children(),
        measures: &measures,
        rules,
        tokens,
    };
    while let Some(next) = listing.waiting.pop() {
        derivation.list(next, &mut listing)?;
    }
    Ok(listing.parts)
}

/// A derivation in a forest, as a term whose nodes have their whole bodies.
#[derive(Clone, Copy)]
struct Flattening<'d> {
    /// The forest.
    forest: &'d Forest,
    /// The children of its nodes.
    children: &'d [TermRef],
    /// Their measures.
    measures: &'d [Measure],
    /// The rules, with the trees that they build.
    rules: &'d [TableRule],
    /// The spans of the text's tokens.
    tokens: &'d [Span],
}

/// A term whose parts have not been listed yet.
#[derive(Clone, Copy)]
struct Waiting {
    /// The term.
    term: TermRef,
    /// The number of tokens before its own.
    first: usize,
    /// The end of the last of these, or the start of the innermost node around it that has tokens, if that is later.
    last: usize,
}

/// The parts of a tree that have been listed so far.
#[derive(Drop)]
struct Listing {
    /// The listed parts.
    parts: Vec<Part>,
    /// The terms whose parts follow, the first one at the end.
    waiting: Vec<Waiting>,
    /// The body of the node that was listed last.
    body: Vec<Waiting>,
}

/// The span of this many tokens from one on. If there are none, an empty span at `last`.
fn extent_at(tokens: &[Span], first: usize, count: usize, last: usize) -> Span
    requires { first + count ≤ length tokens.now }
    ensures { result ≡ first_extent last count (drop first tokens.now) }
{
    if count == 0 {
        return Span {
            start: last,
            end: last,
        };
    }
    Span {
        start: tokens[first].start,
        end: tokens[first + count - 1].end,
    }
}

/// Appends the terms at these places, counted from 1, the last one first.
fn push_places(
    waiting: &mut Vec<Waiting>,
    body: &[Waiting],
    places: &[u32],
) -> Result<(), OutOfMemory>
    requires { All (λ i. (1 ≤ i) × (i ≤ length body.now)) places.now }
    ensures { OnOk result (waiting.new.items ≡ waiting.old.items ++ reverse (map (waiting_at body.now) places.now)) }
{
    let others = waiting.len();
    for place in places {
        waiting.push(body[*place as usize - 1])?;
    }
    waiting[others..].reverse();
    Ok(())
}

impl Flattening<'_> {
    /// The body of a node, given its first token and its start.
    fn body_of(
        &self,
        span: NodeSpan,
        first: usize,
        start: usize,
        body: &mut Vec<Waiting>,
    ) -> Result<(), OutOfMemory>
        requires children { span.start + span.count ≤ length self.now.children.now }
        requires measures { span.start + span.count ≤ length self.now.measures.now }
        requires tokens { first + tokens_among (take span.count (drop span.start self.now.measures.now))
            ≤ length self.now.tokens.now }
        ensures { OnOk result (body.new.items ≡ body_from self.now.tokens.now first start
            (take span.count (drop span.start self.now.children.now))
            (take span.count (drop span.start self.now.measures.now))) }
    {
        let children = &self.children[span.start..span.start + span.count];
        let measures = &self.measures[span.start..span.start + span.count];
        let mut first = first;
        let mut last = start;
        body.clear();
        for (k, child) in children.iter().enumerate() {
            body.push(Waiting {
                term: *child,
                first,
                last,
            })?;
            let count = measures[k].tokens;
            last = extent_at(self.tokens, first, count, last).end;
            first += count;
        }
        Ok(())
    }

    /// Lists a node by its rule: its part, if it makes one of its own. The terms that it consists of are queued.
    fn list_node(
        &self,
        span: NodeSpan,
        part: Part,
        first: usize,
        listing: &mut Listing,
    ) -> Result<(), OutOfMemory>
        requires children { span.start + span.count ≤ length self.now.children.now }
        requires measures { span.start + span.count ≤ length self.now.measures.now }
        requires tokens { first + tokens_among (take span.count (drop span.start self.now.measures.now))
            ≤ length self.now.tokens.now }
        requires shape { IsShapeFor span.count (shapes_of self.now span.rule.0) }
        ensures { OnOk result (IsOpened (shapes_of self.now span.rule.0) part
            (body_from self.now.tokens.now first part.extent.start
            (take span.count (drop span.start self.now.children.now))
            (take span.count (drop span.start self.now.measures.now))) listing.old listing.new) }
    {
        self.body_of(span, first, part.extent.start, &mut listing.body)?;
        match tree_of(self.rules, span.rule) {
            None | Some(RuleTree::Nil) => listing.parts.push(Part {
                kind: PartKind::Nothing,
                ..part
            })?,
            Some(RuleTree::Pass(place)) => {
                listing.waiting.push(listing.body[*place as usize - 1])?;
            }
            Some(RuleTree::Build { places, .. }) => {
                listing.parts.push(part)?;
                push_places(&mut listing.waiting, &listing.body, places)?;
            }
        }
        Ok(())
    }

    /// Lists a term: its part, if it has one of its own. What it consists of is queued.
    fn list(&self, next: Waiting, listing: &mut Listing) -> Result<(), OutOfMemory>
        requires measured { IsMeasured self.now }
        requires ready { IsReady (shapes_of self.now) self.now.tokens.now self.now.forest.now next }
        requires others { All (IsReady (shapes_of self.now) self.now.tokens.now self.now.forest.now)
            listing.old.waiting.items }
        ensures { OnOk result (IsListed (shapes_of self.now) self.now.tokens.now self.now.forest.now next
            listing.old listing.new) }
    {
        let look = self.forest.look(next.term);
        let measure = measured(self.rules, self.measures, look)?;
        let part = Part {
            kind: kind_of(look),
            extent: extent_at(self.tokens, next.first, measure.tokens, next.last),
            parts: measure.parts,
        };
        if let Look::Node(span) = look {
            return self.list_node(span, part, next.first, listing);
        }
        listing.parts.push(part)?;
        Ok(())
    }
}

/// The kind of a term's part.
fn kind_of(look: Look) -> PartKind
    ensures { result ≡ kind_of look }
{
    match look {
        Look::Nothing => PartKind::Nothing,
        Look::Leaf(terminal) => PartKind::Token(terminal),
        Look::Node(span) => PartKind::Node(span.rule),
    }
}

/// The end of the last token, or the start of the text.
fn last_end(tokens: &[Span]) -> usize
    ensures { result ≡ last_end tokens.now }
{
    match tokens.last() {
        Some(token) => token.end,
        None => 0,
    }
}
