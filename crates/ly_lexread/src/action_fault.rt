ghost use Rattle.ly_lexread.specs.declared.action_fault.ActionFault.TheVariants.{OutOfMemory};
ghost use Rattle.ly_lexread.specs.declared.fault.LexFault.TheVariants as lex;
ghost use Rattle.ly_lexread.specs.Faults.{IsAtMost, IsTooHeavy};
ghost use Rattle.std.specs.Prelude.{◌≡◌, ◌≤◌};

use crate::fault::{LexFault, LexFaultKind};
use crate::rest::{Line, Rest};
use ly_base::{Language, after_gap};
use std::alloc::{AllocError, AllocFailed};

/// Why a text is no action, with the text from the erroneous word on.
#[derive(Clone, Copy)]
pub(crate) enum ActionFault<'t> {
    /// A word that isn't allowed here, or no word at all.
    Word(&'t [u8]),
    /// A name that isn't a declared condition.
    Condition(&'t [u8]),
    /// An allocation failed.
    OutOfMemory,
}

impl ActionFault<'_> {
    /// Converts to the error of a file, for an action that ends a line.
    pub(crate) fn on_line(self, line: Line<'_>) -> LexFault
        ensures memory { self.entry ≡ OutOfMemory → result ≡ lex.OutOfMemory }
        ensures light { IsTooHeavy result → ⊥ }
        ensures within { IsAtMost line.entry.text.whole result }
    {
        match self {
            ActionFault::Word(at) => {
                line.fault(LexFaultKind::BadAction, after_gap(at, Language::Lex))
            }
            ActionFault::Condition(at) => {
                line.fault(LexFaultKind::UnknownCondition, after_gap(at, Language::Lex))
            }
            ActionFault::OutOfMemory => LexFault::OutOfMemory,
        }
    }

    /// Converts to the error of a file, for an action in braces. `text` is the file after the opening brace.
    pub(crate) fn in_braces(self, text: Rest<'_>) -> LexFault
        ensures memory { self.entry ≡ OutOfMemory → result ≡ lex.OutOfMemory }
        ensures light { IsTooHeavy result → ⊥ }
        ensures within { IsAtMost text.entry.whole result }
    {
        match self {
            ActionFault::Word(at) => LexFault::Refused {
                kind: LexFaultKind::BadAction,
                offset: word_offset(at, text),
            },
            ActionFault::Condition(at) => LexFault::Refused {
                kind: LexFaultKind::UnknownCondition,
                offset: word_offset(at, text),
            },
            ActionFault::OutOfMemory => LexFault::OutOfMemory,
        }
    }
}

/// The offset of the erroneous word in braces. If the file ends before it, or in a comment, the braces aren't closed,
/// and it is the offset of the last byte.
fn word_offset(at: &[u8], text: Rest<'_>) -> usize
    ensures { result ≤ text.entry.whole }
{
    let word = after_gap(at, Language::Yacc);
    if word.is_empty() || word.starts_with(b"/*") {
        text.last_offset()
    } else {
        text.offset_in(text.bytes, word)
    }
}

impl<'t> From<AllocError> for ActionFault<'t> {
    ghost from_gives = { λ _ e. e ≡ OutOfMemory };

    fn from(_error: AllocError) -> ActionFault<'t> {
        ActionFault::OutOfMemory
    }
}

impl<'t, T: Drop> From<AllocFailed<T>> for ActionFault<'t> {
    ghost from_gives = { λ _ e. e ≡ OutOfMemory };

    fn from(_error: AllocFailed<T>) -> ActionFault<'t> {
        ActionFault::OutOfMemory
    }
}
