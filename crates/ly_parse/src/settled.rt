use ly_base::StateNo;

/// The outcome for a token when no reduction is left before it, or an error before that. It has at most one number, so
/// that it is returned in registers.
#[derive(Clone, Copy)]
pub(crate) enum Settled {
    /// It is read, and the parser goes to this state.
    Reads(StateNo),
    /// The tables accept.
    Accepts,
    /// It is rejected.
    Refuses,
    /// The tables are faulty.
    FaultyTables,
    /// Out of memory.
    OutOfMemory,
}
