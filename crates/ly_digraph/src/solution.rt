//! The least solution in one depth-first pass: `digraph` of DeRemer and Pennello, "Efficient Computation of LALR(1)
//! Look-Ahead Sets", TOPLAS 1982, over the components of Tarjan, "Depth-first search and linear graph algorithms", SIAM
//! J. Comput. 1972.
//!
//! One pass is enough. Nodes that reach one another have the same set, so a component is solved at once. The walk
//! closes a component only after everything that it leads to is closed, so what is added from there is final. Within a
//! component, each node adds its row to the node from which it was entered when it is left. So the root, which is left
//! last, has all members that any node of the component was given or took in; then the nodes get the root's row. That
//! is at most one union for each edge and one for each node.
//!
//! Differs from the paper: a stack of frames replaces the recursion, and nodes are numbers instead of transitions.
ghost use Rattle.std.specs.Prelude.{◌≡◌, ◌≤◌, ◌+◌, length, OnOk};
ghost use Rattle.ly_digraph.specs.Least.{IsBetween, IsLeast};

use crate::graph::Graph;
use crate::walk::Walk;
use ly_base::OutOfMemory;
use ly_sets::SetMatrix;
use std::alloc::Global;

/// Makes the rows the least sets that contain the given ones and grow along the graph: if there is an edge `i -> j`,
/// row `i` contains row `j`. Each member that is added to a row was in a row that it reaches. Rows past the nodes are
/// unchanged. The `changes` of the matrix rise by at most the number of edges and nodes.
///
/// Error: `OutOfMemory` if an allocation for the walk or for a row failed. Then the contents of the matrix are
/// unspecified; drop it.
pub fn least(alloc: Global, graph: &Graph, sets: &mut SetMatrix) -> Result<(), OutOfMemory>
    requires { graph.now.nodes ≤ length sets.old.sets }
    ensures least { OnOk result (IsLeast graph.now sets.old.sets sets.new.sets) }
    ensures reached { OnOk result (IsBetween graph.now sets.old.sets sets.new.sets) }
    ensures changes { OnOk result (sets.new.changes ≤
        sets.old.changes + (length graph.now.edges + graph.now.nodes)) }
    ensures rows { OnOk result (length sets.new.sets ≡ length sets.old.sets) }
    ensures width { OnOk result (sets.new.width ≡ sets.old.width) }
{
    let mut walk = Walk::new(alloc, graph)?;
    for root in 0..graph.nodes() {
        walk.visit(root, graph, sets)?;
    }
    Ok(())
}
