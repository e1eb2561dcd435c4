ghost use Rattle.std.specs.Prelude.{◌≡◌};
ghost use Rattle.lytab_c.specs.Statuses.{status_number};

/// The result of a call.
#[derive(Clone, Copy)]
pub enum Status {
    /// The text has a tree. For other calls: done.
    Done,
    /// The text has a syntax error.
    Refused,
    /// A file is rejected, or the tables fail on the text.
    Fault,
    /// Out of memory.
    Memory,
    /// An argument is invalid: an end of a text, or a token.
    Misused,
    /// A block is too short.
    Short,
}

impl Status {
    /// The number that the call returns for it.
    pub(crate) fn number(self) -> u32
        ensures { result ≡ status_number self }
    {
        match self {
            Status::Done => 0,
            Status::Refused => 1,
            Status::Fault => 2,
            Status::Memory => 3,
            Status::Misused => 4,
            Status::Short => 5,
        }
    }
}
