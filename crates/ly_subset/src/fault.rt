ghost use Rattle.std.specs.Prelude.{◌≡◌};
ghost use Rattle.ly_subset.specs.declared.fault.SubsetFault.TheVariants.{OutOfMemory};

use std::alloc::{AllocError, AllocFailed};
use thiserror::Error;

/// Why the subset construction fails.
#[derive(Clone, Copy, Debug, PartialEq, Eq, Error)]
pub enum SubsetFault {
    /// There are more sets of positions than the limit allows states.
    #[error("the scanner has too many states")]
    TooManyStates,
    /// An allocation failed.
    #[error("out of memory")]
    OutOfMemory,
}

impl SubsetFault {
    ghost use Rattle.ly_subset.specs.FaultNames.{subset_name, subset_number};

    /// The error number. `OutOfMemory` has none.
    pub fn number(&self) -> Option<u8>
        ensures { result ≡ subset_number self.now }
    {
        match self {
            SubsetFault::TooManyStates => Some(50),
            SubsetFault::OutOfMemory => None,
        }
    }

    /// The name of the error.
    pub fn name(&self) -> &'static str
        ensures { result.now ≡ subset_name self.now }
    {
        match self {
            SubsetFault::TooManyStates => "TooManyStates",
            SubsetFault::OutOfMemory => "OutOfMemory",
        }
    }
}

impl From<AllocError> for SubsetFault {
    ghost from_gives = { λ _ e. e ≡ OutOfMemory };

    fn from(_error: AllocError) -> SubsetFault {
        SubsetFault::OutOfMemory
    }
}

impl<T: Drop> From<AllocFailed<T>> for SubsetFault {
    ghost from_gives = { λ _ e. e ≡ OutOfMemory };

    fn from(_error: AllocFailed<T>) -> SubsetFault {
        SubsetFault::OutOfMemory
    }
}
