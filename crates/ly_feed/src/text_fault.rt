ghost use Rattle.std.specs.Prelude.{◌≡◌};
ghost use Rattle.ly_feed.specs.TextFault.{text_fault_name, text_fault_number};
ghost use Rattle.ly_feed.specs.declared.text_fault.TextFault.TheVariants.{OutOfMemory, Write};

use ly_base::OutOfMemory as NoMemory;
use ly_print::WriteFault;
use std::alloc::AllocError;
use thiserror::Error;

/// Why a text has no result, or the result wasn't written completely.
#[derive(Clone, Copy, Debug, PartialEq, Eq, Error)]
pub enum TextFault {
    /// The tables are faulty for this text: a goto is missing, a body extends past the bottom of the stack, they accept
    /// without a tree, or a trailing context leaves no byte or more than its match has. Never for generated tables.
    /// Nothing was written.
    #[error("the tables are faulty")]
    FaultyTables,
    /// More than 2^64-1 bytes have come, and the result wasn't known by then. Nothing was written.
    #[error("the text is too long")]
    TooLong,
    /// The reader failed in this call. Nothing was written.
    #[error("the text could not be read")]
    Read,
    /// The writer failed in this call. Exactly the first `written` bytes of the result were written.
    #[error("writing failed after {written} bytes")]
    Write {
        /// The number of bytes written.
        written: usize,
    },
    /// Out of memory, or the tree has more than 2^48 long leaves or nodes, which no memory holds. Nothing was written.
    #[error("out of memory")]
    OutOfMemory,
}

impl TextFault {
    /// The error's number; none for a device that fails and for out of memory.
    pub fn number(&self) -> Option<u8>
        ensures { result ≡ text_fault_number self.now }
    {
        match self {
            TextFault::FaultyTables => Some(90),
            TextFault::TooLong => Some(92),
            TextFault::Read | TextFault::Write { .. } | TextFault::OutOfMemory => None,
        }
    }

    /// The error's name.
    pub fn name(&self) -> &'static str
        ensures { result.now ≡ text_fault_name self.now }
    {
        match self {
            TextFault::FaultyTables => "TableFault",
            TextFault::TooLong => "TooLong",
            TextFault::Read => "Read",
            TextFault::Write { .. } => "Write",
            TextFault::OutOfMemory => "OutOfMemory",
        }
    }
}

impl From<AllocError> for TextFault {
    ghost from_gives = { λ _ e. e ≡ OutOfMemory };

    fn from(_error: AllocError) -> TextFault {
        TextFault::OutOfMemory
    }
}

impl From<NoMemory> for TextFault {
    ghost from_gives = { λ _ e. e ≡ OutOfMemory };

    fn from(_error: NoMemory) -> TextFault {
        TextFault::OutOfMemory
    }
}

impl From<WriteFault> for TextFault {
    ghost from_gives = { λ fault e. e ≡ Write fault.written };

    fn from(fault: WriteFault) -> TextFault {
        TextFault::Write {
            written: fault.written,
        }
    }
}
