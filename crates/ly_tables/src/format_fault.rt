ghost use Rattle.std.specs.Prelude.{◌≡◌};
ghost use Rattle.ly_tables.specs.declared.format_fault.FormatFault.TheVariants as fault;

use std::alloc::AllocError;
use thiserror::Error;

/// Why a table set can't be written.
#[derive(Clone, Copy, Debug, PartialEq, Eq, Error)]
pub enum FormatFault {
    /// A count or the length of a trailing context exceeds the version.
    #[error("the tables are too large for this version of the table file")]
    TooLargeForVersion,
    /// Out of memory.
    #[error("out of memory")]
    OutOfMemory,
}

impl FormatFault {
    ghost use Rattle.ly_tables.specs.FaultNames.{format_name, format_number};

    /// The error's number; none for `OutOfMemory`.
    pub fn number(&self) -> Option<u8>
        ensures { result ≡ format_number self.now }
    {
        match self {
            FormatFault::TooLargeForVersion => Some(86),
            FormatFault::OutOfMemory => None,
        }
    }

    /// The error's name.
    pub fn name(&self) -> &'static str
        ensures { result.now ≡ format_name self.now }
    {
        match self {
            FormatFault::TooLargeForVersion => "TooLargeForVersion",
            FormatFault::OutOfMemory => "OutOfMemory",
        }
    }
}

impl From<AllocError> for FormatFault {
    ghost from_gives = { λ _ e. e ≡ fault.OutOfMemory };

    fn from(_error: AllocError) -> FormatFault {
        FormatFault::OutOfMemory
    }
}
