ghost use Rattle.std.specs.Prelude.{◌≡◌};
ghost use Rattle.ly_lr0.specs.declared.fault.Lr0Fault.TheVariants as fault;

use ly_base::OutOfMemory;
use std::alloc::{AllocError, AllocFailed};
use thiserror::Error;

/// Why a grammar gets no automaton.
#[derive(Clone, Copy, Debug, PartialEq, Eq, Error)]
pub enum Lr0Fault {
    /// There are more cores of viable prefixes than the limit.
    #[error("the parser has too many states")]
    TooManyStates,
    /// Out of memory.
    #[error("out of memory")]
    OutOfMemory,
}

impl Lr0Fault {
    ghost use Rattle.ly_lr0.specs.FaultNames.{lr0_name, lr0_number};

    /// The error's number; none for `OutOfMemory`.
    pub fn number(&self) -> Option<u8>
        ensures { result ≡ lr0_number self.now }
    {
        match self {
            Lr0Fault::TooManyStates => Some(61),
            Lr0Fault::OutOfMemory => None,
        }
    }

    /// The error's name.
    pub fn name(&self) -> &'static str
        ensures { result.now ≡ lr0_name self.now }
    {
        match self {
            Lr0Fault::TooManyStates => "TooManyStates",
            Lr0Fault::OutOfMemory => "OutOfMemory",
        }
    }
}

impl From<AllocError> for Lr0Fault {
    ghost from_gives = { λ _ e. e ≡ fault.OutOfMemory };

    fn from(_error: AllocError) -> Lr0Fault {
        Lr0Fault::OutOfMemory
    }
}

impl<T: Drop> From<AllocFailed<T>> for Lr0Fault {
    ghost from_gives = { λ _ e. e ≡ fault.OutOfMemory };

    fn from(_error: AllocFailed<T>) -> Lr0Fault {
        Lr0Fault::OutOfMemory
    }
}

impl From<OutOfMemory> for Lr0Fault {
    ghost from_gives = { λ _ e. e ≡ fault.OutOfMemory };

    fn from(_error: OutOfMemory) -> Lr0Fault {
        Lr0Fault::OutOfMemory
    }
}
