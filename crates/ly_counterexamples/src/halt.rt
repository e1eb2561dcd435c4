ghost use Rattle.std.specs.Prelude.{◌≡◌};
ghost use Rattle.ly_counterexamples.specs.declared.halt.Halt.TheVariants.{OutOfMemory};

use ly_base::OutOfMemory as NoMemory;
use std::alloc::AllocError;

/// Why a search ends without a result.
#[derive(Drop)]
pub(crate) enum Halt {
    /// The search found more demands than were allowed.
    TooMany,
    /// Out of memory.
    OutOfMemory,
}

impl From<AllocError> for Halt {
    ghost from_gives = { λ _ e. e ≡ OutOfMemory };

    fn from(_error: AllocError) -> Halt {
        Halt::OutOfMemory
    }
}

impl From<NoMemory> for Halt {
    ghost from_gives = { λ _ e. e ≡ OutOfMemory };

    fn from(_error: NoMemory) -> Halt {
        Halt::OutOfMemory
    }
}
