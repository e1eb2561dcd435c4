ghost use Rattle.std.specs.Prelude.{◌≡◌, [], ◌∷◌, ◌++◌, length, OnOk, OnErr, IfOk};

use crate::node::Node;
use std::alloc::{AllocError, Global};
use std::marker::Model;

/// Expressions under construction. Contracts see the list of nodes as the list of their expressions.
#[derive(Drop)]
pub struct Arena {
    /// The nodes. The operands of each have smaller numbers.
    nodes: Vec<Node>,
}

impl Model for Arena {
    ghost use Rattle.std.specs.Prelude.{List};
    ghost use Rattle.std.specs.Coded.{coded_list};
    ghost use Rattle.ly_ere.specs.Expression.{Expression};
    ghost use Rattle.ly_ere.specs.ExpressionCode.{expression_code};

    ghost Value = { List Expression };

    ghost coded = { coded_list expression_code };

    ghost use Rattle.ly_ere.specs.Arena.{expressions, IsOrdered};

    ghost view = { λ a. expressions a.nodes.items };

    ghost invariant = { λ a. IsOrdered a.nodes.items };
}

impl Arena {
    ghost use Rattle.ly_ere.specs.Arena.{expression_of, expressions, FitsAt, IsOrdered};

    /// Returns an arena without expressions.
    pub fn new(alloc: Global) -> Self
        ensures { result ≡ [] }
    {
        Arena {
            nodes: Vec::new(alloc),
        }
    }

    /// The number of expressions.
    pub fn len(&self) -> usize
        ensures { result ≡ length self.now }
    {
        self.nodes.len()
    }

    /// Adds the expression of a node over earlier ones and returns its number. If the allocation fails, the arena is
    /// unchanged.
    pub fn push(&mut self, node: Node) -> Result<usize, AllocError>
        requires { FitsAt (length self.old) node }
        ensures ok { OnOk result (self.new ≡ self.old ++ expression_of self.old node ∷ []) }
        ensures number { IfOk result (λ n. n ≡ length self.old) }
        ensures err { OnErr result (self.new ≡ self.old) }
    {
        let number = self.nodes.len();
        self.nodes.push(node)?;
        Ok(number)
    }

    /// Frees the unused capacity.
    pub(crate) fn fit(&mut self)
        ensures { self.new ≡ self.old }
    {
        self.nodes.shrink_to_fit();
    }

    /// The nodes. The operands of each come before it, and every set has a member.
    pub fn nodes(&self) -> &[Node]
        ensures spelled { expressions result.now ≡ self.now }
        ensures counted { length result.now ≡ length self.now }
        ensures ordered { IsOrdered result.now }
    {
        &self.nodes
    }
}
