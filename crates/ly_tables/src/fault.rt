ghost use Rattle.std.specs.Prelude.{◌≡◌};
ghost use Rattle.ly_tables.specs.declared.fault.TableFault.TheVariants as fault;

use ly_base::OutOfMemory;
use std::alloc::{AllocError, AllocFailed};
use thiserror::Error;

/// Why bytes are no valid table file. Errors are checked in the order of the variants.
#[derive(Clone, Copy, Debug, PartialEq, Eq, Error)]
pub enum TableFault {
    /// The first four bytes, or all bytes of a shorter file, aren't a prefix of `LYTB`.
    #[error("not a table file")]
    BadMagic,
    /// The version is neither 1 nor 2.
    #[error("unsupported version of the table file")]
    BadVersion,
    /// A field is missing.
    #[error("the table file is truncated")]
    Truncated,
    /// There are bytes after the last field.
    #[error("bytes after the tables")]
    Trailing,
    /// A number is out of range.
    #[error("section {section} is out of range")]
    OutOfRange {
        /// The number of the first section with one.
        section: u8,
    },
    /// The parser's tables aren't steady: the parser could run forever.
    #[error("the parser may reduce without end")]
    Endless,
    /// Out of memory.
    #[error("out of memory")]
    OutOfMemory,
}

impl TableFault {
    ghost use Rattle.ly_tables.specs.FaultNames.{table_name, table_number};

    /// The error's number; none for `OutOfMemory`.
    pub fn number(&self) -> Option<u8>
        ensures { result ≡ table_number self.now }
    {
        match self {
            TableFault::BadMagic => Some(80),
            TableFault::BadVersion => Some(81),
            TableFault::Truncated => Some(82),
            TableFault::Trailing => Some(83),
            TableFault::OutOfRange { .. } => Some(84),
            TableFault::Endless => Some(85),
            TableFault::OutOfMemory => None,
        }
    }

    /// The error's name.
    pub fn name(&self) -> &'static str
        ensures { result.now ≡ table_name self.now }
    {
        match self {
            TableFault::BadMagic => "BadMagic",
            TableFault::BadVersion => "BadVersion",
            TableFault::Truncated => "Truncated",
            TableFault::Trailing => "Trailing",
            TableFault::OutOfRange { .. } => "OutOfRange",
            TableFault::Endless => "Endless",
            TableFault::OutOfMemory => "OutOfMemory",
        }
    }
}

impl From<AllocError> for TableFault {
    ghost from_gives = { λ _ e. e ≡ fault.OutOfMemory };

    fn from(_error: AllocError) -> TableFault {
        TableFault::OutOfMemory
    }
}

impl<T: Drop> From<AllocFailed<T>> for TableFault {
    ghost from_gives = { λ _ e. e ≡ fault.OutOfMemory };

    fn from(_error: AllocFailed<T>) -> TableFault {
        TableFault::OutOfMemory
    }
}

impl From<OutOfMemory> for TableFault {
    ghost from_gives = { λ _ e. e ≡ fault.OutOfMemory };

    fn from(_error: OutOfMemory) -> TableFault {
        TableFault::OutOfMemory
    }
}
