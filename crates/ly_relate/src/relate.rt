ghost use Rattle.std.specs.Prelude.{IfOk};
ghost use Rattle.ly_relate.specs.Related.{AreRelations};

use crate::gotos::Gotos;
use crate::pairs::Relations;
use crate::reads::reads;
use crate::walks::Walks;
use ly_base::OutOfMemory;
use ly_lr0::Lr0;
use std::alloc::Global;

/// Computes the relations of an automaton. The time is linear in the size of the relations and of the bodies that are
/// walked, except for searches of a symbol among the transitions of a state.
///
/// `OutOfMemory` if an allocation fails.
pub fn relations(alloc: Global, lr0: &Lr0<'_>) -> Result<Relations, OutOfMemory>
    ensures { IfOk result (AreRelations lr0.now) }
{
    let gotos = Gotos::new(alloc, lr0)?;
    let reads = reads(alloc, &gotos)?;
    let walks = Walks::new(alloc, &gotos)?;
    Ok(Relations {
        gotos: gotos.into_list(),
        reads,
        includes: walks.includes.into_graph(),
        lookbacks: walks.lookbacks,
    })
}
