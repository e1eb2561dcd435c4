ghost use Rattle.std.specs.Prelude.{◌≡◌};
ghost use Rattle.ly_tokens.specs.ScannerFault.{fault_of_positions, fault_of_states};
ghost use Rattle.ly_tokens.specs.declared.scanner_fault.ScannerFault.TheVariants.{OutOfMemory};

use ly_base::OutOfMemory as NoMemory;
use ly_position::PosFault;
use ly_subset::SubsetFault;
use thiserror::Error;

/// Why the patterns of a lex file have no DFA within the limits.
#[derive(Clone, Copy, Debug, PartialEq, Eq, Error)]
pub enum ScannerFault {
    /// The patterns together exceed the weight limit.
    #[error("{0}")]
    Positions(PosFault),
    /// The DFA has too many states before minimization.
    #[error("{0}")]
    States(SubsetFault),
    /// Out of memory.
    #[error("out of memory")]
    OutOfMemory,
}

impl From<PosFault> for ScannerFault {
    ghost from_gives = { λ fault e. e ≡ fault_of_positions fault };

    fn from(fault: PosFault) -> ScannerFault {
        match fault {
            PosFault::OutOfMemory => ScannerFault::OutOfMemory,
            fault => ScannerFault::Positions(fault),
        }
    }
}

impl From<SubsetFault> for ScannerFault {
    ghost from_gives = { λ fault e. e ≡ fault_of_states fault };

    fn from(fault: SubsetFault) -> ScannerFault {
        match fault {
            SubsetFault::OutOfMemory => ScannerFault::OutOfMemory,
            fault => ScannerFault::States(fault),
        }
    }
}

impl From<NoMemory> for ScannerFault {
    ghost from_gives = { λ _ e. e ≡ OutOfMemory };

    fn from(_error: NoMemory) -> ScannerFault {
        ScannerFault::OutOfMemory
    }
}
