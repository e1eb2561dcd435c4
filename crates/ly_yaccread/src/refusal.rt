ghost use Rattle.std.specs.Prelude.{◌≡◌, ◌≤◌, length};
ghost use Rattle.ly_yaccread.specs.Private.Words.{offsets_of};
ghost use Rattle.ly_yaccread.specs.Private.Refusals.{IsFaultOf};
ghost use Rattle.ly_yaccread.specs.declared.refusal.Refusal.TheVariants.{OutOfMemory};

use crate::fault::{YaccFault, YaccFaultKind};
use crate::words::FileWord;
use std::alloc::{AllocError, AllocFailed};

/// Why the words of a file are rejected, and at which word.
#[derive(Clone, Copy)]
pub(crate) enum Refusal {
    /// A word isn't allowed, or a word is missing at the end.
    At {
        /// The kind of error.
        kind: YaccFaultKind,
        /// The number of words left from that word on.
        left: usize,
    },
    /// Out of memory.
    OutOfMemory,
}

impl Refusal {
    /// The error for the text that consists of these words.
    pub(crate) fn fault(self, text: &[u8], words: &[FileWord<'_>]) -> YaccFault
        ensures { IsFaultOf self (length text.now) (offsets_of words.now) result }
    {
        match self {
            Refusal::At { kind, left } => {
                let word = words.get(words.len().saturating_sub(left));
                let last_byte = text.len().saturating_sub(1);
                YaccFault::Refused {
                    kind,
                    offset: word.map_or(last_byte, |word| word.offset),
                }
            }
            Refusal::OutOfMemory => YaccFault::OutOfMemory,
        }
    }
}

impl From<AllocError> for Refusal {
    ghost from_gives = { λ _ e. e ≡ OutOfMemory };

    fn from(_error: AllocError) -> Refusal {
        Refusal::OutOfMemory
    }
}

impl<T: Drop> From<AllocFailed<T>> for Refusal {
    ghost from_gives = { λ _ e. e ≡ OutOfMemory };

    fn from(_error: AllocFailed<T>) -> Refusal {
        Refusal::OutOfMemory
    }
}
