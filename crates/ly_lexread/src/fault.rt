ghost use Rattle.std.specs.Prelude.{◌≡◌, ◌≢◌, ◌⊎◌, None, MatchBool};
ghost use Rattle.ly_lexread.specs.Faults.{IsTooHeavy, lex_name, lex_number};
ghost use Rattle.ly_lexread.specs.declared.fault.LexFault.TheVariants.{OutOfMemory};

use ly_base::locate;
use ly_ere::EreFaultKind;
use std::alloc::{AllocError, AllocFailed};
use thiserror::Error;

/// Why a lex file is rejected. It is displayed as a message without the offset.
#[derive(Clone, Copy, Debug, PartialEq, Eq, Error)]
pub enum LexFault {
    /// The file has an error.
    #[error("{kind}")]
    Refused {
        /// The kind of error.
        kind: LexFaultKind,
        /// The offset of the error in the file; its length if the file ends too early.
        offset: usize,
    },
    /// An allocation failed.
    #[error("out of memory")]
    OutOfMemory,
}

/// The errors of a lex file. Each variant documents the byte that it is reported at. It is displayed as a message.
#[derive(Clone, Copy, Debug, PartialEq, Eq, Error)]
pub enum LexFaultKind {
    /// No line begins with `%%`. Reported at the last byte.
    #[error("no line begins with %%")]
    NoRulesMark,
    /// A line that isn't a definition is reported at the first byte that doesn't fit, or at its first byte if its name
    /// is wrong. A duplicate definition is reported at its name. A block or a comment that isn't closed is reported
    /// where it opens.
    #[error("invalid definition")]
    BadDefinition,
    /// An undeclared condition is reported at its name. A malformed list of conditions is reported at its `<`.
    #[error("undeclared start condition")]
    UnknownCondition,
    /// A condition that is declared a second time, or `INITIAL`. Reported at its name.
    #[error("start condition declared twice")]
    ConditionTwice,
    /// What follows a pattern isn't an action. Reported at the erroneous word, or where one is missing. Braces that
    /// aren't closed are reported at the last byte of the file.
    #[error("unsupported action")]
    BadAction,
    /// The last rule has the action `|`, but no rule follows. Reported at its `|`.
    #[error("no rule after the action |")]
    BarAtEnd,
    /// A pattern or the expression of a definition is rejected: error 26, which is printed with the number and name of
    /// the error of the expression.
    #[error("invalid pattern: {0}")]
    Pattern(EreFaultKind),
}

impl LexFault {
    /// The number that the error is printed with. `OutOfMemory` has none.
    pub fn number(&self) -> Option<u8>
        ensures { result ≡ lex_number self.now }
    {
        match self {
            LexFault::Refused { kind, .. } => Some(kind.number()),
            LexFault::OutOfMemory => None,
        }
    }

    /// The name that the error is printed with.
    pub fn name(&self) -> &'static str
        ensures { result.now ≡ lex_name self.now }
    {
        match self {
            LexFault::Refused { kind, .. } => kind.name(),
            LexFault::OutOfMemory => "OutOfMemory",
        }
    }
}

impl LexFaultKind {
    ghost use Rattle.ly_lexread.specs.Faults.{kind_name, kind_number};

    /// The number of this kind of error. That of a rejected pattern is the pattern's own.
    pub fn number(&self) -> u8
        ensures { result ≡ kind_number self.now }
    {
        match self {
            LexFaultKind::NoRulesMark => 20,
            LexFaultKind::BadDefinition => 21,
            LexFaultKind::UnknownCondition => 22,
            LexFaultKind::ConditionTwice => 23,
            LexFaultKind::BadAction => 24,
            LexFaultKind::BarAtEnd => 25,
            LexFaultKind::Pattern(kind) => kind.number(),
        }
    }

    /// The name of this kind of error. That of a rejected pattern is the pattern's own.
    pub fn name(&self) -> &'static str
        ensures { result.now ≡ kind_name self.now }
    {
        match self {
            LexFaultKind::NoRulesMark => "NoRulesMark",
            LexFaultKind::BadDefinition => "BadDefinition",
            LexFaultKind::UnknownCondition => "UnknownCondition",
            LexFaultKind::ConditionTwice => "ConditionTwice",
            LexFaultKind::BadAction => "BadAction",
            LexFaultKind::BarAtEnd => "BarAtEnd",
            LexFaultKind::Pattern(kind) => kind.name(),
        }
    }
}

impl LexFault {
    /// Whether the error is that a pattern or a definition is too heavy.
    fn is_too_heavy(&self) -> bool
        ensures { MatchBool result (IsTooHeavy self.now) (IsTooHeavy self.now → ⊥) }
    {
        matches!(
            self,
            LexFault::Refused {
                kind: LexFaultKind::Pattern(EreFaultKind::TooHeavy),
                ..
            }
        )
    }

    /// Returns the error on the earlier line; on the same line, `self`. An error for too much weight is returned only
    /// if both are such errors.
    pub(crate) fn or_earlier(self, other: LexFault, file: &[u8]) -> LexFault
        ensures one { result ≢ OutOfMemory → (result ≡ self) ⊎ (result ≡ other) }
        ensures memory { (self ≡ OutOfMemory) ⊎ (other ≡ OutOfMemory) → result ≡ OutOfMemory }
        ensures light { IsTooHeavy result → IsTooHeavy self × IsTooHeavy other }
    {
        let (Some(line), Some(other_line)) = (self.line_in(file), other.line_in(file)) else {
            return LexFault::OutOfMemory;
        };
        if other.is_too_heavy() || !self.is_too_heavy() && line <= other_line {
            self
        } else {
            other
        }
    }

    /// The line of the error in a file. `OutOfMemory` has none.
    fn line_in(&self, file: &[u8]) -> Option<u64>
        ensures none { result ≡ None → self.now ≡ OutOfMemory }
        ensures memory { self.now ≡ OutOfMemory → result ≡ None }
    {
        match self {
            LexFault::Refused { offset, .. } => Some(locate(file, *offset).line),
            LexFault::OutOfMemory => None,
        }
    }
}

impl From<AllocError> for LexFault {
    ghost from_gives = { λ _ e. e ≡ OutOfMemory };

    fn from(_error: AllocError) -> LexFault {
        LexFault::OutOfMemory
    }
}

impl<T: Drop> From<AllocFailed<T>> for LexFault {
    ghost from_gives = { λ _ e. e ≡ OutOfMemory };

    fn from(_error: AllocFailed<T>) -> LexFault {
        LexFault::OutOfMemory
    }
}
