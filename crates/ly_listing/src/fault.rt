ghost use Rattle.std.specs.Prelude.{◌≡◌};
ghost use Rattle.ly_listing.specs.declared.fault.ListingFault.TheVariants.{OutOfMemory, Write};

use ly_base::OutOfMemory as NoMemory;
use ly_print::WriteFault;
use std::alloc::AllocError;
use thiserror::Error;

/// Why a listing wasn't written completely.
#[derive(Clone, Copy, Debug, PartialEq, Eq, Error)]
pub enum ListingFault {
    /// A trailing context leaves no byte or more than its match has. Nothing was written.
    #[error("a trailing context leaves no token")]
    BadCut,
    /// The writer failed in this call. Exactly the first `written` bytes of the output were written.
    #[error("writing failed after {written} bytes")]
    Write {
        /// How many bytes were written.
        written: usize,
    },
    /// Out of memory, or the text is so long that the number of bytes of its lines might overflow a usize. Nothing was
    /// written.
    #[error("out of memory")]
    OutOfMemory,
}

impl From<AllocError> for ListingFault {
    ghost from_gives = { λ _ e. e ≡ OutOfMemory };

    fn from(_error: AllocError) -> ListingFault {
        ListingFault::OutOfMemory
    }
}

impl From<NoMemory> for ListingFault {
    ghost from_gives = { λ _ e. e ≡ OutOfMemory };

    fn from(_error: NoMemory) -> ListingFault {
        ListingFault::OutOfMemory
    }
}

impl From<WriteFault> for ListingFault {
    ghost from_gives = { λ fault e. e ≡ Write fault.written };

    fn from(fault: WriteFault) -> ListingFault {
        ListingFault::Write {
            written: fault.written,
        }
    }
}
