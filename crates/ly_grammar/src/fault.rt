ghost use Rattle.std.specs.Prelude.{◌≡◌};
ghost use Rattle.ly_grammar.specs.declared.fault.GrammarFault.TheVariants as fault;

use ly_base::OutOfMemory;
use std::alloc::{AllocError, AllocFailed};
use thiserror::Error;

/// Why a grammar can't be reduced.
#[derive(Clone, Copy, Debug, PartialEq, Eq, Error)]
pub enum GrammarFault {
    /// The start symbol has no tree, so there is no sentence.
    #[error("the start symbol derives no sentence")]
    StartUnproductive,
    /// Out of memory.
    #[error("out of memory")]
    OutOfMemory,
}

impl GrammarFault {
    ghost use Rattle.ly_grammar.specs.FaultNames.{grammar_name, grammar_number};

    /// The error's number; none for `OutOfMemory`.
    pub fn number(&self) -> Option<u8>
        ensures { result ≡ grammar_number self.now }
    {
        match self {
            GrammarFault::StartUnproductive => Some(60),
            GrammarFault::OutOfMemory => None,
        }
    }

    /// The error's name.
    pub fn name(&self) -> &'static str
        ensures { result.now ≡ grammar_name self.now }
    {
        match self {
            GrammarFault::StartUnproductive => "StartUnproductive",
            GrammarFault::OutOfMemory => "OutOfMemory",
        }
    }
}

impl From<AllocError> for GrammarFault {
    ghost from_gives = { λ _ e. e ≡ fault.OutOfMemory };

    fn from(_error: AllocError) -> GrammarFault {
        GrammarFault::OutOfMemory
    }
}

impl<T: Drop> From<AllocFailed<T>> for GrammarFault {
    ghost from_gives = { λ _ e. e ≡ fault.OutOfMemory };

    fn from(_error: AllocFailed<T>) -> GrammarFault {
        GrammarFault::OutOfMemory
    }
}

impl From<OutOfMemory> for GrammarFault {
    ghost from_gives = { λ _ e. e ≡ fault.OutOfMemory };

    fn from(_error: OutOfMemory) -> GrammarFault {
        GrammarFault::OutOfMemory
    }
}
