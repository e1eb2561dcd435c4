ghost use Rattle.std.specs.Prelude.{◌≡◌};
ghost use Rattle.ly_parse.specs.declared.fault.ParseFault.TheVariants as fault;

use ly_base::OutOfMemory;
use std::alloc::{AllocError, AllocFailed};
use thiserror::Error;

/// Why a parser can't return a step. The parse has ended then.
#[derive(Clone, Copy, Debug, PartialEq, Eq, Error)]
pub enum ParseFault {
    /// The tables are faulty: a goto is missing, a body extends past the bottom of the stack, or they accept without a
    /// term.
    #[error("the tables are faulty")]
    FaultyTables,
    /// The parse had ended before the call.
    #[error("the parser has ended")]
    Over,
    /// Out of memory, or the forest has no more numbers for nodes, children or bytes of tokens.
    #[error("out of memory")]
    OutOfMemory,
}

impl ParseFault {
    ghost use Rattle.ly_parse.specs.FaultNames.{parse_name, parse_number};

    /// The error's number; none for `OutOfMemory`.
    pub fn number(&self) -> Option<u8>
        ensures { result ≡ parse_number self.now }
    {
        match self {
            ParseFault::FaultyTables => Some(90),
            ParseFault::Over => Some(91),
            ParseFault::OutOfMemory => None,
        }
    }

    /// The error's name.
    pub fn name(&self) -> &'static str
        ensures { result.now ≡ parse_name self.now }
    {
        match self {
            ParseFault::FaultyTables => "TableFault",
            ParseFault::Over => "Over",
            ParseFault::OutOfMemory => "OutOfMemory",
        }
    }
}

impl From<AllocError> for ParseFault {
    ghost from_gives = { λ _ e. e ≡ fault.OutOfMemory };

    fn from(_error: AllocError) -> ParseFault {
        ParseFault::OutOfMemory
    }
}

impl<T: Drop> From<AllocFailed<T>> for ParseFault {
    ghost from_gives = { λ _ e. e ≡ fault.OutOfMemory };

    fn from(_error: AllocFailed<T>) -> ParseFault {
        ParseFault::OutOfMemory
    }
}

impl From<OutOfMemory> for ParseFault {
    ghost from_gives = { λ _ e. e ≡ fault.OutOfMemory };

    fn from(_error: OutOfMemory) -> ParseFault {
        ParseFault::OutOfMemory
    }
}
