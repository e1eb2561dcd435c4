ghost use Rattle.std.specs.Prelude.{◌≡◌};
ghost use Rattle.ly_parse.specs.Parse.{ends_by};

/// The outcome for a token. It has no fields, so that it is returned in a register. `Parser::refusal` gives the details
/// of a rejected token.
#[derive(Clone, Copy, Debug, PartialEq, Eq)]
pub enum TokenOutcome {
    /// The token is read, and the parse continues.
    Reads,
    /// The tables accept with the term on top of the stack.
    Accepts,
    /// The token, or the end, is rejected.
    Refuses,
    /// The tables are faulty, as described at `ParseFault::FaultyTables`.
    FaultyTables,
    /// The parse had ended before the call.
    Over,
    /// Out of memory, as described at `ParseFault::OutOfMemory`.
    OutOfMemory,
}

impl TokenOutcome {
    /// Whether the parse has ended after it.
    pub(crate) fn is_last(self) -> bool
        ensures { result ≡ ends_by self }
    {
        self != TokenOutcome::Reads
    }
}
