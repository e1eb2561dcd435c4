ghost use Rattle.std.specs.Prelude.{◌≡◌, ◌<◌, ◌∷◌, [], length, slice_index_or, IfOk};
ghost use Rattle.ly_ere.specs.Expression.{empty, set};

use crate::arena::Arena;
use crate::node::Node;
use ly_base::ByteSet;
use std::alloc::{AllocError, Global};
use std::marker::Model;

/// An expression, stored as a list of nodes whose operands have smaller numbers. Contracts see it as the expression of
/// its root.
#[derive(Drop)]
pub struct Re {
    /// The nodes.
    arena: Arena,
    /// The number of the whole expression's node.
    root: usize,
}

impl Model for Re {
    ghost use Rattle.std.specs.Prelude.{◌<◌, length, slice_index_or};
    ghost use Rattle.ly_ere.specs.Expression.{Expression, empty};
    ghost use Rattle.ly_ere.specs.ExpressionCode.{expression_code};

    ghost Value = { Expression };

    ghost coded = { expression_code };

    ghost view = { λ r. slice_index_or r.arena r.root empty };

    ghost invariant = { λ r. r.root < length r.arena };
}

impl Re {
    ghost use Rattle.ly_ere.specs.Arena.{expressions, IsOrdered};

    /// Returns the expression of a node of an arena. Frees the unused capacity.
    pub fn of(mut arena: Arena, root: usize) -> Self
        requires { root < length arena }
        ensures { result ≡ slice_index_or arena root empty }
    {
        arena.fit();
        Re { arena, root }
    }

    /// Returns the expression that matches this byte.
    pub(crate) fn of_byte(alloc: Global, byte: u8) -> Result<Re, AllocError>
        ensures { IfOk result (λ re. re ≡ set (byte ∷ [])) }
    {
        let mut arena = Arena::new(alloc);
        let root = arena.push(Node::Set(ByteSet::of(byte)))?;
        Ok(Re::of(arena, root))
    }

    /// The nodes, each after its operands, and the number of the root.
    pub fn nodes(&self) -> (&[Node], usize)
        ensures within { result.1 < length result.0.now }
        ensures spelled { slice_index_or (expressions result.0.now) result.1 empty ≡ self.now }
        ensures ordered { IsOrdered result.0.now }
    {
        let nodes = self.arena.nodes();
        (nodes, self.root)
    }
}
