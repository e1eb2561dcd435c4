ghost use Rattle.std.specs.Prelude.{IfOk, length};
ghost use Rattle.ly_lookahead.specs.Private.Rows.{AreRows};

use ly_base::{OutOfMemory, StateNo};
use ly_lr0::Lr0;
use std::alloc::Global;

/// For each state, the row of the first rule that is complete in it, after the rows of the nodes of includes; at the
/// end, the number of rows.
pub(crate) fn first_rows(
    alloc: Global,
    lr0: &Lr0<'_>,
    nodes: usize,
) -> Result<Vec<usize>, OutOfMemory>
    ensures { IfOk result (λ first. AreRows lr0.now nodes (length lr0.now.states) first.items) }
{
    let mut first = Vec::new(alloc);
    let mut rows = nodes;
    first.push(rows)?;
    for state in 0..lr0.states() {
        let complete = lr0.complete(StateNo(state as u32)).len();
        rows = rows.checked_add(complete).ok_or(OutOfMemory)?;
        first.push(rows)?;
    }
    Ok(first)
}
