ghost use Rattle.std.specs.Prelude.{◌≡◌, ◌≢◌, ◌<◌, [], ◌∷◌, ◌++◌, length, All, Some, IfOk, OnOk};

use ly_base::ByteSet;
use ly_ere::{Arena, Node};
use std::alloc::{AllocError, Global};
use std::marker::Model;

/// The number of a plain expression, or `None` if nothing matches.
pub type PlainPart = Option<usize>;

/// Expressions of sets, the empty string, concatenation, alternation, `*`, `+` and `?` alone. Redundant operators are
/// left out: `(a*)*` is stored as `a*`.
#[derive(Drop)]
pub struct Plain {
    /// The expressions.
    arena: Arena,
}

impl Model for Plain {
    ghost use Rattle.std.specs.Prelude.{List, All};
    ghost use Rattle.std.specs.Coded.{coded_list};
    ghost use Rattle.ly_ere.specs.Expression.{Expression};
    ghost use Rattle.ly_ere.specs.ExpressionCode.{expression_code};

    ghost Value = { List Expression };

    ghost coded = { coded_list expression_code };

    ghost use Rattle.ly_position.specs.Private.Program.{IsPlainExpression};

    ghost view = { λ p. p.arena };

    ghost invariant = { λ p. All IsPlainExpression p.arena };
}

impl Plain {
    ghost use Rattle.ly_base.specs.ByteSet.{members};
    ghost use Rattle.ly_ere.specs.Expression.{empty};
    ghost use Rattle.ly_ere.specs.Arena.{expression_of, part_of, FitsAt};
    ghost use Rattle.ly_position.specs.Private.Program.{IsPlainExpression};
    ghost use Rattle.ly_position.specs.Private.Plain.{IsPlainPart, IsPlainNode, Makes, expression_at};
    ghost use Rattle.ly_position.specs.Private.Slim.{slim_set, slim_concat, slim_either, slim_star, slim_plus};
    ghost use Rattle.ly_position.specs.Private.Slim.{slim_optional, slim_times, slim_up_to, slim_copies};

    /// Returns no expressions.
    pub fn new(alloc: Global) -> Self
        ensures { result ≡ [] }
    {
        Plain {
            arena: Arena::new(alloc),
        }
    }

    /// The number of expressions.
    pub fn len(&self) -> usize
        ensures count { result ≡ length self.now }
        ensures plain { All IsPlainExpression self.now }
    {
        self.arena.len()
    }

    /// The outermost operator of an expression. Its operands are earlier expressions.
    pub fn node(&self, number: usize) -> Node
        requires { number < length self.now }
        ensures is { expression_of self.now result ≡ part_of self.now number }
        ensures fits { FitsAt number result }
        ensures plain { IsPlainExpression (part_of self.now number) }
    {
        self.arena.nodes()[number]
    }

    /// Adds the expression of a node.
    fn push(&mut self, node: Node) -> Result<PlainPart, AllocError>
        requires fits { FitsAt (length self.old) node }
        requires plain { IsPlainNode node }
        ensures ok { OnOk result (self.new ≡ self.old ++ expression_of self.old node ∷ []) }
        ensures number { IfOk result (λ p. p ≡ Some (length self.old)) }
    {
        Ok(Some(self.arena.push(node)?))
    }

    /// Adds an expression that matches one byte of the set, or nothing if the set is empty.
    pub fn set(&mut self, bytes: ByteSet) -> Result<PlainPart, AllocError>
        requires { members bytes ≢ [] }
        ensures { IfOk result (λ p. Makes self.old self.new p (slim_set (members bytes))) }
    {
        self.push(Node::Set(bytes))
    }

    /// Adds an expression that matches the empty string.
    pub fn empty(&mut self) -> Result<PlainPart, AllocError>
        ensures { IfOk result (λ p. Makes self.old self.new p (Some empty)) }
    {
        self.push(Node::Empty)
    }

    /// Adds the concatenation of two parts.
    pub fn concat(&mut self, first: PlainPart, second: PlainPart) -> Result<PlainPart, AllocError>
        requires first { IsPlainPart (length self.old) first }
        requires second { IsPlainPart (length self.old) second }
        ensures { IfOk result (λ p. Makes self.old self.new p
            (slim_concat (expression_at self.old first) (expression_at self.old second))) }
    {
        let (Some(a), Some(b)) = (first, second) else {
            return Ok(None);
        };
        if let Node::Empty = self.node(a) {
            return Ok(second);
        }
        if let Node::Empty = self.node(b) {
            return Ok(first);
        }
        self.push(Node::Concat(a, b))
    }

    /// Adds the alternation of two parts.
    pub fn either(&mut self, first: PlainPart, second: PlainPart) -> Result<PlainPart, AllocError>
        requires first { IsPlainPart (length self.old) first }
        requires second { IsPlainPart (length self.old) second }
        ensures { IfOk result (λ p. Makes self.old self.new p
            (slim_either (expression_at self.old first) (expression_at self.old second))) }
    {
        match (first, second) {
            (None, _) => Ok(second),
            (_, None) => Ok(first),
            (Some(a), Some(b)) => self.push(Node::Either(a, b)),
        }
    }

    /// Adds the part any number of times.
    pub fn star(&mut self, part: PlainPart) -> Result<PlainPart, AllocError>
        requires { IsPlainPart (length self.old) part }
        ensures { IfOk result (λ p. Makes self.old self.new p (slim_star (expression_at self.old part))) }
    {
        let Some(a) = part else {
            return self.push(Node::Empty);
        };
        match self.node(a) {
            Node::Empty | Node::Star(_) => Ok(part),
            Node::Plus(b) | Node::Optional(b) => self.push(Node::Star(b)),
            _ => self.push(Node::Star(a)),
        }
    }

    /// Adds the part one or more times.
    pub fn plus(&mut self, part: PlainPart) -> Result<PlainPart, AllocError>
        requires { IsPlainPart (length self.old) part }
        ensures { IfOk result (λ p. Makes self.old self.new p (slim_plus (expression_at self.old part))) }
    {
        let Some(a) = part else {
            return Ok(None);
        };
        match self.node(a) {
            Node::Empty | Node::Star(_) | Node::Plus(_) => Ok(part),
            Node::Optional(b) => self.push(Node::Star(b)),
            _ => self.push(Node::Plus(a)),
        }
    }

    /// Adds the part or nothing.
    pub fn optional(&mut self, part: PlainPart) -> Result<PlainPart, AllocError>
        requires { IsPlainPart (length self.old) part }
        ensures { IfOk result (λ p. Makes self.old self.new p (slim_optional (expression_at self.old part))) }
    {
        let Some(a) = part else {
            return self.push(Node::Empty);
        };
        match self.node(a) {
            Node::Empty | Node::Star(_) | Node::Optional(_) => Ok(part),
            Node::Plus(b) => self.push(Node::Star(b)),
            _ => self.push(Node::Optional(a)),
        }
    }

    /// Adds the part at least `least` times, and at most `most` times if there is a bound. It is expanded to that many
    /// copies. Each copy above `least` is optional together with all copies after it.
    pub fn repeat(
        &mut self,
        part: PlainPart,
        least: u8,
        most: Option<u8>,
    ) -> Result<PlainPart, AllocError>
        requires { IsPlainPart (length self.old) part }
        ensures { IfOk result (λ p. Makes self.old self.new p
            (slim_times least most (expression_at self.old part))) }
    {
        match most {
            Some(most) if most < least => Ok(None),
            Some(most) => {
                let rest = self.at_most(part, most - least)?;
                self.copies(part, least, rest)
            }
            None if least == 0 => self.star(part),
            None => {
                let last = self.plus(part)?;
                self.copies(part, least - 1, last)
            }
        }
    }

    /// Adds this many copies of the part, each optional together with all after it.
    fn at_most(&mut self, part: PlainPart, count: u8) -> Result<PlainPart, AllocError>
        requires { IsPlainPart (length self.old) part }
        ensures { IfOk result (λ p. Makes self.old self.new p (slim_up_to count (expression_at self.old part))) }
    {
        let mut rest = self.push(Node::Empty)?;
        for _ in 0..count {
            let more = self.concat(part, rest)?;
            rest = self.optional(more)?;
        }
        Ok(rest)
    }

    /// Adds this many copies of the part, followed by `last`.
    fn copies(
        &mut self,
        part: PlainPart,
        count: u8,
        last: PlainPart,
    ) -> Result<PlainPart, AllocError>
        requires part { IsPlainPart (length self.old) part }
        requires last { IsPlainPart (length self.old) last }
        ensures { IfOk result (λ p. Makes self.old self.new p
            (slim_copies count (expression_at self.old part) (expression_at self.old last))) }
    {
        let mut all = last;
        for _ in 0..count {
            all = self.concat(part, all)?;
        }
        Ok(all)
    }
}
