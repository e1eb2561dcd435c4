use ly_base::StateNo;
use ly_lr0::Item;

/// A claim about a string that leads to a state.
#[derive(Clone, Copy, Debug, PartialEq, Eq, Hash)]
pub enum Claim {
    /// True of every string that leads to the state.
    Settled,
    /// The item is valid at the string with some lookahead.
    InCore(Item),
    /// The item is valid at the string with the terminal of the conflict.
    With(Item),
}

/// A node of the search. It asks for a string that leads to the state and for which both claims are true.
#[derive(Clone, Copy, Debug, PartialEq, Eq, Hash)]
pub struct Demand {
    /// The state.
    pub state: StateNo,
    /// The claim for the rule of the conflict.
    pub first: Claim,
    /// The claim for the rule's rival.
    pub second: Claim,
}
