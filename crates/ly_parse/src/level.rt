use ly_base::StateNo;
use ly_tree::{Refers, TermRef};

/// A state on the stack, with the term of the symbol that led to it.
#[derive(Clone, Copy)]
pub(crate) struct Level {
    /// The state.
    pub(crate) state: StateNo,
    /// The term.
    pub(crate) term: TermRef,
}

impl Refers for Level {
    ghost referred = { λ l. l.term };

    fn term(&self) -> TermRef {
        self.term
    }
}
