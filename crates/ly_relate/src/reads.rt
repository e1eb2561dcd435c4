ghost use Rattle.std.specs.Prelude.{◌≡◌, ◌<◌, ℕ, length, IfOk, OnOk};
ghost use Rattle.ly_relate.specs.Private.Walks.{AreEdgesFrom};
ghost use Rattle.ly_relate.specs.Related.{AreEdges, IsRead};

use crate::gotos::Gotos;
use ly_base::OutOfMemory;
use ly_digraph::Graph;
use std::alloc::Global;

/// The relation reads: from each transition to those over nullable symbols that leave its target.
pub(crate) fn reads(alloc: Global, gotos: &Gotos<'_>) -> Result<Graph, OutOfMemory>
    ensures { IfOk result (AreEdges gotos.now.gotos (IsRead gotos.now.automaton gotos.now.gotos)) }
{
    let mut graph = Graph::new(alloc, gotos.len())?;
    for goto in 0..gotos.len() {
        add_reads(&mut graph, gotos, goto)?;
    }
    Ok(graph)
}

/// Adds the transitions that one reads.
fn add_reads(graph: &mut Graph, gotos: &Gotos<'_>, goto: usize) -> Result<(), OutOfMemory>
    requires goto { goto < length gotos.now.gotos }
    requires nodes { graph.old.nodes ≡ length gotos.now.gotos }
    ensures nodes { OnOk result (graph.new.nodes ≡ graph.old.nodes) }
    ensures edges { OnOk result (AreEdgesFrom graph.old graph.new goto
        (IsRead gotos.now.automaton gotos.now.gotos goto)) }
{
    let range = gotos.leaving(gotos.get(goto).target);
    for next in range.start..range.end {
        if gotos.lr0().reduced().is_nullable(gotos.get(next).symbol) {
            graph.add(goto, next)?;
        }
    }
    Ok(())
}
