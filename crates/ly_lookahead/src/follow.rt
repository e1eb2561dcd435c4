//! Read and Follow: the least sets that contain the direct reads and are closed along reads, and then along includes.
//! The row of a group's node in includes starts empty, and gets what follows its transitions.
ghost use Rattle.std.specs.Prelude.{◌≡◌, ◌≤◌, length, IfOk};
ghost use Rattle.ly_lr0.specs.Automaton.{IsLr0Automaton};
ghost use Rattle.ly_relate.specs.Related.{AreRelations};
ghost use Rattle.ly_lookahead.specs.Private.Sets.{AreFollowSets};

use crate::direct::direct_sets;
use ly_base::OutOfMemory;
use ly_digraph::least;
use ly_lr0::Lr0;
use ly_relate::Relations;
use ly_sets::SetMatrix;
use std::alloc::Global;

/// The terminals that follow each transition, and each group of them, in the rows with their numbers; empty rows after
/// these.
pub(crate) fn follow_sets(
    alloc: Global,
    lr0: &Lr0<'_>,
    relations: &Relations,
    rows: usize,
) -> Result<SetMatrix, OutOfMemory>
    requires lawful { IsLr0Automaton lr0.now }
    requires relations { AreRelations lr0.now relations.now }
    requires room { relations.now.includes.nodes ≤ rows }
    ensures rows { IfOk result (λ m. length m.sets ≡ rows) }
    ensures follows { IfOk result (λ m. AreFollowSets lr0.now relations.now.gotos relations.now.includes
        m.sets) }
{
    let mut sets = direct_sets(alloc, lr0, relations.gotos(), rows)?;
    least(alloc, relations.reads(), &mut sets)?;
    least(alloc, relations.includes(), &mut sets)?;
    Ok(sets)
}
