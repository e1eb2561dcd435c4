ghost use Rattle.std.specs.Prelude.{◌≡◌};
ghost use Rattle.ly_engine.specs.declared.reporting_fault.ReportingFault.TheVariants as fault;

use ly_generate::GenFault;
use ly_print::WriteFault;
use thiserror::Error;

/// Why the report of a lex file and a yacc file wasn't written.
#[derive(Debug, Drop, Error)]
pub enum ReportingFault {
    /// The files are rejected, or memory ran out before the report was known. Nothing was written.
    #[error("{0}")]
    Files(GenFault),
    /// The writer failed in this call. Exactly the first `written` bytes of the report were written.
    #[error("writing failed after {written} bytes")]
    Write {
        /// How many bytes were written.
        written: usize,
    },
}

impl From<GenFault> for ReportingFault {
    ghost from_gives = { λ f e. e ≡ fault.Files f };

    fn from(fault: GenFault) -> ReportingFault {
        ReportingFault::Files(fault)
    }
}

impl From<WriteFault> for ReportingFault {
    ghost from_gives = { λ f e. e ≡ fault.Write f.written };

    fn from(fault: WriteFault) -> ReportingFault {
        ReportingFault::Write {
            written: fault.written,
        }
    }
}
