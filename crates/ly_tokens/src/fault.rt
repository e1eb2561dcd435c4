ghost use Rattle.std.specs.Prelude.{◌≡◌};
ghost use Rattle.ly_tokens.specs.TokensFault.{fault_of_lex, fault_of_read, fault_of_scanner};
ghost use Rattle.ly_tokens.specs.declared.fault.TokensFault.TheVariants.{OutOfMemory, Write};

use crate::scanner_fault::ScannerFault;
use ly_base::OutOfMemory as NoMemory;
use ly_lexread::LexFault;
use ly_position::PosFault;
use ly_print::{ReadFault, WriteFault};
use ly_subset::SubsetFault;
use std::alloc::AllocError;
use thiserror::Error;

/// Why `tokens` failed.
#[derive(Clone, Copy, Debug, PartialEq, Eq, Error)]
pub enum TokensFault {
    /// The lex file is rejected. Nothing was read or written.
    #[error("lex file, {0}")]
    Lex(LexFault),
    /// The patterns together exceed the weight limit. Nothing was read or written.
    #[error("{0}")]
    Positions(PosFault),
    /// The DFA has too many states before minimization. Nothing was read or written.
    #[error("{0}")]
    States(SubsetFault),
    /// The reader failed in this call. Nothing was written.
    #[error("the text could not be read")]
    Read,
    /// The writer failed in this call. Exactly the first `written` bytes of the output were written.
    #[error("writing failed after {written} bytes")]
    Write {
        /// How many bytes were written.
        written: usize,
    },
    /// Out of memory, or the text is so long that the number of bytes of its lines might overflow a usize. Nothing was
    /// written.
    #[error("out of memory")]
    OutOfMemory,
}

impl From<AllocError> for TokensFault {
    ghost from_gives = { λ _ e. e ≡ OutOfMemory };

    fn from(_error: AllocError) -> TokensFault {
        TokensFault::OutOfMemory
    }
}

impl From<NoMemory> for TokensFault {
    ghost from_gives = { λ _ e. e ≡ OutOfMemory };

    fn from(_error: NoMemory) -> TokensFault {
        TokensFault::OutOfMemory
    }
}

impl From<LexFault> for TokensFault {
    ghost from_gives = { λ fault e. e ≡ fault_of_lex fault };

    fn from(fault: LexFault) -> TokensFault {
        match fault {
            LexFault::OutOfMemory => TokensFault::OutOfMemory,
            fault => TokensFault::Lex(fault),
        }
    }
}

impl From<ScannerFault> for TokensFault {
    ghost from_gives = { λ fault e. e ≡ fault_of_scanner fault };

    fn from(fault: ScannerFault) -> TokensFault {
        match fault {
            ScannerFault::Positions(fault) => TokensFault::Positions(fault),
            ScannerFault::States(fault) => TokensFault::States(fault),
            ScannerFault::OutOfMemory => TokensFault::OutOfMemory,
        }
    }
}

impl From<ReadFault> for TokensFault {
    ghost from_gives = { λ fault e. e ≡ fault_of_read fault };

    fn from(fault: ReadFault) -> TokensFault {
        match fault {
            ReadFault::Read => TokensFault::Read,
            ReadFault::OutOfMemory => TokensFault::OutOfMemory,
        }
    }
}

impl From<WriteFault> for TokensFault {
    ghost from_gives = { λ fault e. e ≡ Write fault.written };

    fn from(fault: WriteFault) -> TokensFault {
        TokensFault::Write {
            written: fault.written,
        }
    }
}
