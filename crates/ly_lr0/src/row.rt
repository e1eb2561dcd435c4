//! The row of a state, from its transitions. Consecutive states that have the same transitions over terminals share one
//! list of them.
ghost use Rattle.std.specs.Prelude.{◌≡◌, map, IfOk};
ghost use Rattle.std.specs.Rc.{rc_slice_items};
ghost use Rattle.ly_lr0.specs.Private.Built.{transitions_of, AreInOrder};
ghost use Rattle.ly_lr0.specs.Transitions.{transition_of};

use crate::lr0::place_of;
use crate::transition::{Row, Transition};
use ly_base::Sym;
use ly_join::Symbol;
use std::alloc::{AllocError, Global};
use std::rc::RcSlice;

/// The row with these transitions, which are in the order of their symbols. The list of those over terminals is shared
/// with the last row if it is equal.
pub(crate) fn row_of(
    alloc: Global,
    transitions: &[Transition],
    complete: Vec<usize>,
    before: &[Row],
) -> Result<Row, AllocError>
    requires { AreInOrder (map transition_of transitions.now) }
    ensures transitions { IfOk result (λ r. transitions_of r ≡ map transition_of transitions.now) }
    ensures complete { IfOk result (λ r. r.complete ≡ complete) }
{
    // terminals come before nonterminals
    let place = place_of(transitions, Symbol::Nonterminal(Sym(0)));
    Ok(Row {
        shifts: shared_shifts(alloc, &transitions[..place], before)?,
        gotos: Vec::from_slice(alloc, &transitions[place..])?,
        complete,
    })
}

/// The list of transitions over terminals to store: that of the last row, if it is equal.
fn shared_shifts(
    alloc: Global,
    shifts: &[Transition],
    before: &[Row],
) -> Result<RcSlice<Transition>, AllocError>
    ensures { IfOk result (λ list. rc_slice_items list ≡ shifts.now) }
{
    match before.last() {
        Some(last) if last.shifts.as_slice() == shifts => last.shifts.clone(),
        _ => RcSlice::from_slice(alloc, shifts),
    }
}
