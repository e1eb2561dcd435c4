ghost use Rattle.std.specs.Prelude.{IfOk};
ghost use Rattle.ly_lookahead.specs.Lookaheads.{AreLookaheads};

use crate::follow::follow_sets;
use crate::lookback::look_back;
use crate::rows::first_rows;
use crate::sets::Lookaheads;
use ly_base::OutOfMemory;
use ly_lr0::Lr0;
use ly_relate::relations;
use std::alloc::Global;

/// Computes the lookaheads of the rules that are complete in an automaton's states: the terminals that follow the
/// transitions to which they look back. It takes at most one union for each edge and node of reads and of includes, and
/// for each lookback.
///
/// `OutOfMemory` if an allocation fails.
pub fn lookaheads(alloc: Global, lr0: &Lr0<'_>) -> Result<Lookaheads, OutOfMemory>
    ensures { IfOk result (AreLookaheads lr0.now) }
{
    let relations = relations(alloc, lr0)?;
    let first = first_rows(alloc, lr0, relations.includes().nodes())?;
    let mut sets = follow_sets(alloc, lr0, &relations, first[lr0.states()])?;
    look_back(lr0, &relations, &first, &mut sets)?;
    Ok(Lookaheads { first, sets })
}
