ghost use Rattle.std.specs.Rc.{rc_slice_items};
ghost use Rattle.ly_lr0.specs.Private.Kinds.{AreOverNonterminals, AreOverTerminals};

use ly_base::StateNo;
use ly_join::Symbol;
use std::rc::RcSlice;

/// A transition of a state: by a symbol to a state.
#[derive(Clone, Copy, Debug, PartialEq, Eq)]
pub struct Transition {
    /// The symbol.
    pub symbol: Symbol,
    /// The state it leads to.
    pub target: StateNo,
}

/// The last step of the least string that leads to a state: the state before its last symbol, and that symbol.
#[derive(Clone, Copy, Debug, PartialEq, Eq)]
pub(crate) struct Link {
    /// The state before.
    pub(crate) from: usize,
    /// The last symbol.
    pub(crate) symbol: Symbol,
}

/// The transitions of a state, and the rules complete in it.
#[derive(Drop)]
pub(crate) struct Row {
    /// The transitions over terminals, in their order. Consecutive rows share equal lists, because some grammars have
    /// thousands of states with the same thousands of transitions.
    pub(crate) shifts: RcSlice<Transition>,
    /// The transitions over nonterminals, in their order.
    pub(crate) gotos: Vec<Transition>,
    /// The complete rules, in rising order.
    pub(crate) complete: Vec<usize>,
    ghost over_terminals: { AreOverTerminals (rc_slice_items shifts) },
    ghost over_nonterminals: { AreOverNonterminals gotos.items },
}
