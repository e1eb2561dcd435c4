ghost use Rattle.std.specs.Prelude.{◌≡◌, ◌<◌, ◌≤◌, ◌+◌, ◌*◌, ◌^◌, ℕ, List, [], ◌++◌, drop, length, map, take};
ghost use Rattle.std.specs.Prelude.{All, IfOk, IfSome, IsSome, None, OnErr, OnOk};
ghost use Rattle.ly_tree.specs.Look.{AreChildren, IsSeen};
ghost use Rattle.ly_tree.specs.Private.Headed.{ref_at};
ghost use Rattle.ly_tree.specs.Private.OfBytes.{IsOfBytes};
ghost use Rattle.ly_tree.specs.Term.{at_places, built, leaf, nothing, Term};

use crate::headed::{Headed, lists_are_bytes};
use crate::look::Look;
use crate::node_span::NodeSpan;
use crate::notation::MostBytes;
use crate::numbers::{number_of, parts_of};
use crate::refers::Refers;
use ly_base::{OutOfMemory, RuleNo, Sym};
use ly_print::{Front, Texts};
use std::alloc::Global;
use std::marker::Model;

/// A term of a forest, by its position there. It takes eight bytes.
#[derive(Clone, Copy, Debug, PartialEq, Eq)]
pub enum TermRef {
    /// Nothing. It is in every forest.
    Nothing,
    /// A short leaf, whose text is among the texts of a forest.
    ShortLeaf {
        /// The length of its text in bytes.
        length: u8,
        /// Its terminal.
        terminal: u16,
        /// The offset of its text among the texts.
        start: u32,
    },
    /// A long leaf, by its number among the long leaves.
    LongLeaf {
        /// The upper part of the number.
        high: u16,
        /// The lower part of the number.
        low: u32,
    },
    /// A node, whose children are consecutive among those of a forest.
    Node {
        /// The number of its children.
        children: u8,
        /// Its rule.
        rule: u16,
        /// The index of its first child among the children of all nodes.
        start: u32,
    },
    /// A long node, by its number among the long nodes.
    LongNode {
        /// The upper part of the number.
        high: u16,
        /// The lower part of the number.
        low: u32,
    },
}

const _: () = prove!(size_of::<TermRef>() == 8);

/// Leaves, and nodes over leaves.
#[derive(Drop)]
pub struct Forest {
    /// The texts of short leaves, one after another.
    texts: Texts,
    /// The long leaves: the text of each, with its terminal.
    long_leaves: Headed<Sym, u8>,
    /// The long nodes: for each its rule, and the range of its children.
    long_nodes: Vec<NodeSpan>,
    /// The children of nodes, node by node. Those of a child precede it.
    children: Vec<TermRef>,
}

impl Model for Forest {
    ghost use Rattle.ly_tree.specs.Forest.{Grown};
    ghost use Rattle.ly_tree.specs.GrownCode.{grown_code};

    ghost Value = { Grown };

    ghost coded = { grown_code };

    ghost use Rattle.std.specs.Prelude.{[]};
    ghost use Rattle.ly_tree.specs.Private.Grown.{grown, lists_from, AreKnown};

    ghost view = { λ f. grown (lists_from f.texts f.long_leaves f.long_nodes.items) f.children.items };

    ghost invariant = { λ f. AreKnown (lists_from f.texts f.long_leaves f.long_nodes.items) [] f.children.items };
}

impl Forest {
    ghost use Rattle.ly_tree.specs.Costs.{budget};
    ghost use Rattle.ly_tree.specs.Forest.{no_terms, number_of, term_of, terms_of, Keeps, StandsFor};
    ghost use Rattle.ly_tree.specs.Private.Grown.{AllKnown};

    /// A forest without leaves and nodes.
    pub fn new(alloc: Global) -> Self
        ensures { result ≡ no_terms }
    {
        Forest {
            texts: Texts::new(alloc),
            long_leaves: Headed::new(alloc),
            long_nodes: Vec::new(alloc),
            children: Vec::new(alloc),
        }
    }

    /// The term of nothing, which is in every forest.
    pub fn nil(&self) -> TermRef
        ensures { StandsFor self.now result nothing }
    {
        TermRef::Nothing
    }

    /// Adds a leaf, and returns a reference to it. After an error the forest is unchanged.
    #[inline(always)] // a call would cost a sixth more instructions per token
    pub fn leaf(&mut self, terminal: Sym, text: &Front<'_>) -> Result<TermRef, OutOfMemory>
        ensures stands { IfOk result (λ r. StandsFor self.new r (leaf terminal.0 text.now)) }
        ensures keeps { OnOk result (Keeps self.old self.new) }
        ensures pays { OnOk result ((each byte : ℕ) → budget each byte self.new
            ≡ budget each byte self.old + byte * length text.now) }
        ensures err { OnErr result (self.new ≡ self.old) }
    {
        if let Some(term) = self.leaf_as_block(terminal, text) {
            return Ok(term);
        }
        self.leaf_without_block(terminal, text)
    }

    /// Adds a leaf whose text is copied as a block, and returns a reference to it. Returns `None` if it isn't short or
    /// there is no capacity for a block; the forest is then unchanged.
    #[inline(always)] // like `leaf`
    pub fn leaf_as_block(&mut self, terminal: Sym, text: &Front<'_>) -> Option<TermRef>
        ensures stands { IfSome result (λ r. StandsFor self.new r (leaf terminal.0 text.now)) }
        ensures keeps { IfSome result (λ _. Keeps self.old self.new) }
        ensures pays { IfSome result (λ _. (each byte : ℕ) → budget each byte self.new
            ≡ budget each byte self.old + byte * length text.now) }
        ensures none { result ≡ None → self.new ≡ self.old }
    {
        if terminal.0 > u16::MAX as u32 {
            return None;
        }
        let start = self.texts.push_block(text)?;
        let length = text.len() as u8;
        let terminal = terminal.0 as u16;
        Some(TermRef::ShortLeaf {
            length,
            terminal,
            start,
        })
    }

    /// Adds a leaf like `leaf`, for a text that isn't copied as a block.
    #[inline(always)] // like `leaf`
    pub fn leaf_without_block(
        &mut self,
        terminal: Sym,
        text: &Front<'_>,
    ) -> Result<TermRef, OutOfMemory>
        ensures stands { IfOk result (λ r. StandsFor self.new r (leaf terminal.0 text.now)) }
        ensures keeps { OnOk result (Keeps self.old self.new) }
        ensures pays { OnOk result ((each byte : ℕ) → budget each byte self.new
            ≡ budget each byte self.old + byte * length text.now) }
        ensures err { OnErr result (self.new ≡ self.old) }
    {
        let start = self.texts.len();
        if text.len() > u8::MAX as usize
            || terminal.0 > u16::MAX as u32
            || start > u32::MAX as usize
        {
            let (high, low) = parts_of(self.long_leaves.len())?;
            self.long_leaf(high, low, terminal, text.bytes())?;
            return Ok(TermRef::LongLeaf { high, low });
        }
        self.texts.push(text)?;
        Ok(TermRef::ShortLeaf {
            length: text.len() as u8,
            terminal: terminal.0 as u16,
            start: start as u32,
        })
    }

    /// Adds a long leaf. Its number has these two parts.
    #[inline(never)] // so that a short one gets the registers; a result without a number stays in one
    fn long_leaf(
        &mut self,
        high: u16,
        low: u32,
        terminal: Sym,
        text: &[u8],
    ) -> Result<(), OutOfMemory>
        requires { number_of high low ≡ length self.old.lists.long_leaves }
        ensures stands { OnOk result (StandsFor self.new (TermRef.LongLeaf high low) (leaf terminal.0 text.now)) }
        ensures keeps { OnOk result (Keeps self.old self.new) }
        ensures pays { OnOk result ((each byte : ℕ) → budget each byte self.new
            ≡ budget each byte self.old + byte * length text.now) }
        ensures err { OnErr result (self.new ≡ self.old) }
    {
        self.long_leaves.push(terminal, text)?;
        Ok(())
    }

    /// Adds a node and returns a reference to it. Its children are the terms at these places of a body, counted from 1.
    /// After an error the forest is unchanged.
    pub fn node<R: Refers>(
        &mut self,
        rule: RuleNo,
        body: &[R],
        places: &[u32],
    ) -> Result<TermRef, OutOfMemory>
        requires known { All (λ r. IsSome (term_of self.old (R.referred r))) body.now }
        requires places { All (λ i. (1 ≤ i) × (i ≤ length body.now)) places.now }
        ensures stands { IfOk result (λ r. StandsFor self.new r
            (built rule.0 (at_places (terms_of self.old (map R.referred body.now)) places.now))) }
        ensures keeps { OnOk result (Keeps self.old self.new) }
        ensures pays { OnOk result ((each byte : ℕ) → budget each byte self.new
            ≡ budget each byte self.old + each * length places.now) }
        ensures err { OnErr result (self.new ≡ self.old) }
    {
        let start = self.children.len();
        if places.len() > u8::MAX as usize
            || rule.0 > u16::MAX as u32
            || start > u32::MAX as usize
        {
            let (high, low) = parts_of(self.long_nodes.len())?;
            self.long_node(high, low, rule, body, places)?;
            return Ok(TermRef::LongNode { high, low });
        }
        pick(&mut self.children, body, places)?;
        Ok(TermRef::Node {
            children: places.len() as u8,
            rule: rule.0 as u16,
            start: start as u32,
        })
    }

    /// Adds a long node. Its number has these two parts.
    #[inline(never)] // like `long_leaf`
    fn long_node<R: Refers>(
        &mut self,
        high: u16,
        low: u32,
        rule: RuleNo,
        body: &[R],
        places: &[u32],
    ) -> Result<(), OutOfMemory>
        requires number { number_of high low ≡ length self.old.lists.long_nodes }
        requires known { All (λ r. IsSome (term_of self.old (R.referred r))) body.now }
        requires places { All (λ i. (1 ≤ i) × (i ≤ length body.now)) places.now }
        ensures stands { OnOk result (StandsFor self.new (TermRef.LongNode high low)
            (built rule.0 (at_places (terms_of self.old (map R.referred body.now)) places.now))) }
        ensures keeps { OnOk result (Keeps self.old self.new) }
        ensures pays { OnOk result ((each byte : ℕ) → budget each byte self.new
            ≡ budget each byte self.old + each * length places.now) }
        ensures err { OnErr result (self.new ≡ self.old) }
    {
        let start = self.children.len();
        self.long_nodes.reserve(1)?;
        pick(&mut self.children, body, places)?;
        self.long_nodes.push_reserved(NodeSpan {
            rule,
            start,
            count: places.len(),
        });
        Ok(())
    }

    /// Looks at a term: at a node without its children's terms.
    pub fn look(&self, term: TermRef) -> Look
        requires { IsSome (term_of self.now term) }
        ensures { (children : List Term) → IsSeen children result
            (term_of (record { lists = self.now.lists; children = children }) term) }
    {
        match term {
            TermRef::Nothing => Look::Nothing,
            TermRef::ShortLeaf { terminal, .. } => Look::Leaf(Sym(u32::from(terminal))),
            TermRef::LongLeaf { high, low } => Look::Leaf(self.long_leaf_at(high, low).0),
            TermRef::Node {
                children,
                rule,
                start,
            } => Look::Node(NodeSpan {
                rule: RuleNo(u32::from(rule)),
                start: start as usize,
                count: usize::from(children),
            }),
            TermRef::LongNode { high, low } => Look::Node(self.long_nodes[number_of(high, low)]),
        }
    }

    /// The children of all nodes, node by node. Those of a child precede it.
    pub fn children(&self) -> &[TermRef]
        ensures { AreChildren self.now result.now }
    {
        &self.children
    }

    /// The maximum length of the line of a term whose parts are used once each, if no more than `most` is written for a
    /// part. None if the length doesn't fit in a number.
    pub(crate) fn longest_line(&self, most: MostBytes) -> Option<usize>
        ensures { IfSome result (λ n. (n ≡ most.of_term + budget most.of_term most.of_byte self.now) × (n < 2 ^ 64)) }
    {
        let terms = self.children.len().checked_mul(most.of_term)?;
        let bytes = self.texts.len().checked_add(self.long_leaves.members())?;
        let of_bytes = bytes.checked_mul(most.of_byte)?;
        most.of_term.checked_add(terms.checked_add(of_bytes)?)
    }

    /// Proves that the texts of its leaves consist of bytes.
    pub(crate) fn are_bytes(&self)
        ensures { (r : TermRef) (t : Term) → StandsFor self.now r t → IsOfBytes t }
    {
        self.texts.are_bytes();
        lists_are_bytes(&self.long_leaves);
    }

    /// The maximum number of terms in a term whose parts are used once each.
    pub(crate) fn most_terms(&self) -> usize
        ensures { result ≡ 1 + budget 1 0 self.now }
    {
        self.children.len() + 1
    }

    /// An empty list of children.
    pub(crate) fn no_children(&self) -> &[TermRef]
        ensures { result.now ≡ [] }
    {
        &self.children[..0]
    }

    /// The text of a short leaf.
    pub(crate) fn short_text(&self, length: u8, terminal: u16, start: u32) -> Front<'_>
        requires { IsSome (term_of self.now (TermRef.ShortLeaf length terminal start)) }
        ensures { StandsFor self.now (TermRef.ShortLeaf length terminal start) (leaf terminal result) }
    {
        self.texts.front(start as usize, length as usize)
    }

    /// A long leaf: its terminal and its text.
    pub(crate) fn long_leaf_at(&self, high: u16, low: u32) -> (Sym, &[u8])
        requires { IsSome (term_of self.now (TermRef.LongLeaf high low)) }
        ensures { StandsFor self.now (TermRef.LongLeaf high low) (leaf result.0.0 result.1.now) }
    {
        self.long_leaves.get(number_of(high, low))
    }

    /// The children of a node.
    pub(crate) fn children_of(&self, children: usize, rule: RuleNo, start: usize) -> &[TermRef]
        requires { IsSome (term_of self.now (TermRef.Node children rule.0 start)) }
        ensures term { StandsFor self.now (TermRef.Node children rule.0 start)
            (built rule.0 (terms_of self.now result.now)) }
        ensures known { AllKnown self.now result.now }
    {
        part(&self.children, start, children)
    }

    /// A long node: its rule and its children.
    #[inline(never)] // so that a short node gets the registers
    pub(crate) fn long_node_at(&self, high: u16, low: u32) -> (RuleNo, &[TermRef])
        requires { IsSome (term_of self.now (TermRef.LongNode high low)) }
        ensures term { StandsFor self.now (TermRef.LongNode high low)
            (built result.0.0 (terms_of self.now result.1.now)) }
        ensures known { AllKnown self.now result.1.now }
    {
        let NodeSpan { rule, start, count } = self.long_nodes[number_of(high, low)];
        (rule, self.children_of(count, rule, start))
    }
}

/// This many children from an index on.
fn part(children: &[TermRef], start: usize, count: usize) -> &[TermRef]
    requires { start + count ≤ length children.now }
    ensures { result.now ≡ take count (drop start children.now) }
{
    &children[start..start + count]
}

/// Appends the terms at these places of a body, counted from 1. After an error the children are unchanged.
#[inline(always)] // otherwise `node` and `long_node` each call it
fn pick<R: Refers>(
    children: &mut Vec<TermRef>,
    body: &[R],
    places: &[u32],
) -> Result<(), OutOfMemory>
    requires { All (λ i. (1 ≤ i) × (i ≤ length body.now)) places.now }
    ensures ok { OnOk result (children.new.items
        ≡ children.old.items ++ map (ref_at (map R.referred body.now)) places.now) }
    ensures err { OnErr result (children.new.items ≡ children.old.items) }
{
    children.reserve(places.len())?;
    for place in places {
        children.push_reserved(body[*place as usize - 1].term());
    }
    Ok(())
}
