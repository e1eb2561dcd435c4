ghost use Rattle.std.specs.Prelude.{◌≡◌, IfOk};
ghost use Rattle.ly_base.specs.Shape.{shape_of};

use std::alloc::{AllocError, Global};

/// What a rule of a grammar makes of the trees of its body. The symbols of a body count from 1.
#[derive(Drop)]
pub enum RuleTree {
    /// The empty tree.
    Nil,
    /// The tree of this symbol of the body.
    Pass(u32),
    /// A node.
    Build {
        /// The node's constructor.
        name: Vec<u8>,
        /// The symbols of the body whose trees are its children.
        places: Vec<u32>,
    },
}

impl RuleTree {
    /// Returns a copy. Fails if memory runs out.
    pub fn copied(&self, alloc: Global) -> Result<RuleTree, AllocError>
        ensures { IfOk result (λ t. shape_of t ≡ shape_of self.now) }
    {
        match self {
            RuleTree::Nil => Ok(RuleTree::Nil),
            RuleTree::Pass(place) => Ok(RuleTree::Pass(*place)),
            RuleTree::Build { name, places } => Ok(RuleTree::Build {
                name: Vec::from_slice(alloc, name)?,
                places: Vec::from_slice(alloc, places)?,
            }),
        }
    }
}
