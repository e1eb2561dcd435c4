//! From where symbols lead to states, and which items wait for a nonterminal. A number that names nothing has none.
use ly_base::{StateNo, Sym};
use ly_counterexamples::Examples;
use ly_join::Symbol;
use ly_lr0::Item;
use std::alloc::{AllocError, Global};

/// The states with a transition over a symbol to one of these.
pub(crate) fn states_before(
    alloc: Global,
    examples: &Examples<'_>,
    states: &[StateNo],
    symbol: Symbol,
) -> Result<Vec<StateNo>, AllocError> {
    let lr0 = examples.resolved().lr0();
    let mut before = Vec::new(alloc);
    for state in states {
        if (state.0 as usize) < lr0.states() && lr0.accessing_symbol(*state) == Some(symbol) {
            before.extend_from_slice(examples.predecessors(*state))?;
        }
    }
    Ok(before)
}

/// The items with the dot before a nonterminal.
pub(crate) fn waiting<'e>(examples: &'e Examples<'_>, left: Sym) -> &'e [Item] {
    if left.0 > examples.resolved().lr0().reduced().grammar().accept().0 {
        return &[];
    }
    examples.waiting(left)
}
