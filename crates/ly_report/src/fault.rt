ghost use Rattle.std.specs.Prelude.{◌≡◌};
ghost use Rattle.ly_report.specs.declared.fault.ReportFault.TheVariants.{OutOfMemory, Write};

use ly_base::OutOfMemory as NoMemory;
use ly_print::WriteFault;
use thiserror::Error;

/// Why a report wasn't written completely.
#[derive(Clone, Copy, Debug, PartialEq, Eq, Error)]
pub enum ReportFault {
    /// The writer failed in this call. Exactly the first `written` bytes of the report were written.
    #[error("writing failed after {written} bytes")]
    Write {
        /// The number of bytes written.
        written: usize,
    },
    /// Out of memory. Nothing was written.
    #[error("out of memory")]
    OutOfMemory,
}

impl From<NoMemory> for ReportFault {
    ghost from_gives = { λ _ e. e ≡ OutOfMemory };

    fn from(_error: NoMemory) -> ReportFault {
        ReportFault::OutOfMemory
    }
}

impl From<WriteFault> for ReportFault {
    ghost from_gives = { λ fault e. e ≡ Write fault.written };

    fn from(fault: WriteFault) -> ReportFault {
        ReportFault::Write {
            written: fault.written,
        }
    }
}
