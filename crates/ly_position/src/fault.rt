ghost use Rattle.std.specs.Prelude.{◌≡◌};
ghost use Rattle.ly_position.specs.declared.fault.PosFault.TheVariants.{OutOfMemory};

use std::alloc::{AllocError, AllocFailed};
use thiserror::Error;

/// Why rules get no positions.
#[derive(Clone, Copy, Debug, PartialEq, Eq, Error)]
pub enum PosFault {
    /// The weight of all patterns together is above the limit.
    #[error("the patterns together are too large")]
    TooManyPositions,
    /// An allocation failed.
    #[error("out of memory")]
    OutOfMemory,
}

impl PosFault {
    ghost use Rattle.ly_position.specs.FaultNames.{position_name, position_number};

    /// The error number. `OutOfMemory` has none.
    pub fn number(&self) -> Option<u8>
        ensures { result ≡ position_number self.now }
    {
        match self {
            PosFault::TooManyPositions => Some(51),
            PosFault::OutOfMemory => None,
        }
    }

    /// The name of the error.
    pub fn name(&self) -> &'static str
        ensures { result.now ≡ position_name self.now }
    {
        match self {
            PosFault::TooManyPositions => "TooManyPositions",
            PosFault::OutOfMemory => "OutOfMemory",
        }
    }
}

impl From<AllocError> for PosFault {
    ghost from_gives = { λ _ e. e ≡ OutOfMemory };

    fn from(_error: AllocError) -> PosFault {
        PosFault::OutOfMemory
    }
}

impl<T: Drop> From<AllocFailed<T>> for PosFault {
    ghost from_gives = { λ _ e. e ≡ OutOfMemory };

    fn from(_error: AllocFailed<T>) -> PosFault {
        PosFault::OutOfMemory
    }
}
