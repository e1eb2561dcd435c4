ghost use Rattle.std.specs.Prelude.{◌≡◌};
ghost use Rattle.ly_loop.specs.declared.fault.LoopFault.TheVariants as fault;

use ly_base::{OutOfMemory, StateNo, Sym};
use std::alloc::{AllocError, AllocFailed};
use thiserror::Error;

/// Why tables aren't accepted as steady.
#[derive(Clone, Copy, Debug, PartialEq, Eq, Error)]
pub enum LoopFault {
    /// The run of an edge on a terminal makes more reductions than are allowed. It is the first such run.
    #[error("the parser may reduce without end")]
    Endless {
        /// The state below of the edge.
        below: StateNo,
        /// The state on top.
        top: StateNo,
        /// The terminal.
        token: Sym,
    },
    /// Out of memory, or more states or symbols than their numbers can count.
    #[error("out of memory")]
    OutOfMemory,
}

impl LoopFault {
    ghost use Rattle.ly_loop.specs.FaultNames.{loop_name, loop_number};

    /// The error's number; none for `OutOfMemory`.
    pub fn number(&self) -> Option<u8>
        ensures { result ≡ loop_number self.now }
    {
        match self {
            LoopFault::Endless { .. } => Some(70),
            LoopFault::OutOfMemory => None,
        }
    }

    /// The error's name.
    pub fn name(&self) -> &'static str
        ensures { result.now ≡ loop_name self.now }
    {
        match self {
            LoopFault::Endless { .. } => "Endless",
            LoopFault::OutOfMemory => "OutOfMemory",
        }
    }
}

impl From<AllocError> for LoopFault {
    ghost from_gives = { λ _ e. e ≡ fault.OutOfMemory };

    fn from(_error: AllocError) -> LoopFault {
        LoopFault::OutOfMemory
    }
}

impl<T: Drop> From<AllocFailed<T>> for LoopFault {
    ghost from_gives = { λ _ e. e ≡ fault.OutOfMemory };

    fn from(_error: AllocFailed<T>) -> LoopFault {
        LoopFault::OutOfMemory
    }
}

impl From<OutOfMemory> for LoopFault {
    ghost from_gives = { λ _ e. e ≡ fault.OutOfMemory };

    fn from(_error: OutOfMemory) -> LoopFault {
        LoopFault::OutOfMemory
    }
}
