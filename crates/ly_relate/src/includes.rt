//! The relation includes, while it is computed. Rules with the same symbols at their ends find the same pairs again and
//! again.
ghost use Rattle.std.specs.Prelude.{◌≡◌, [], IfOk, OnOk};
ghost use Rattle.ly_digraph.specs.Digraph.{IsInside};
ghost use Rattle.ly_relate.specs.Private.Walks.{AreEdgesTo};

use ly_base::OutOfMemory;
use ly_digraph::Graph;
use std::alloc::Global;
use std::marker::Model;

/// The relation includes, while it is computed.
#[derive(Drop)]
pub(crate) struct Includes {
    /// An edge `i -> j` if transition `i` includes transition `j`.
    graph: Graph,
    /// For each transition, the one that it was last found to include, if any.
    last: Vec<Option<usize>>,
}

impl Model for Includes {
    ghost use Rattle.ly_digraph.specs.Digraph.{Digraph};
    ghost use Rattle.ly_relate.specs.Private.Walks.{AreLast};

    ghost Value = { Digraph };

    ghost view = { λ i. i.graph };

    ghost invariant = { λ i. AreLast i.graph i.last.items };
}

impl Includes {
    /// No pairs, for this many transitions.
    pub(crate) fn new(alloc: Global, count: usize) -> Result<Includes, OutOfMemory>
        ensures { IfOk result (λ i. i ≡ record { nodes = count; edges = [] }) }
    {
        Ok(Includes {
            graph: Graph::new(alloc, count)?,
            last: vec![in alloc; None; count]?,
        })
    }

    /// Adds that transition `inner` includes `outer`, unless that is the pair last added for `inner`.
    pub(crate) fn add(&mut self, inner: usize, outer: usize) -> Result<(), OutOfMemory>
        requires { IsInside self.old.nodes (inner, outer) }
        ensures nodes { OnOk result (self.new.nodes ≡ self.old.nodes) }
        ensures edges { OnOk result (AreEdgesTo self.old self.new outer (λ i. i ≡ inner)) }
    {
        if self.last[inner] == Some(outer) {
            return Ok(());
        }
        self.graph.add(inner, outer)?;
        self.last[inner] = Some(outer);
        Ok(())
    }

    /// The graph of the pairs.
    pub(crate) fn into_graph(self) -> Graph
        ensures { result ≡ self }
    {
        let Includes { graph, .. } = self;
        graph
    }
}
