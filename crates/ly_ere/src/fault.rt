ghost use Rattle.std.specs.Prelude.{◌≡◌, ◌≢◌, ◌≤◌, length};
ghost use Rattle.ly_ere.specs.Private.Faults.{IsLeftIn, IsReadIn, fault_in, kind_of_syntax};
ghost use Rattle.ly_ere.specs.declared.fault.EreFault.TheVariants.{OutOfMemory};
ghost use Rattle.ly_ere.specs.declared.fault.ReadFault.TheVariants as read;
ghost use Rattle.ly_ere.specs.declared.fault.StepFault.TheVariants as step;

use std::alloc::{AllocError, AllocFailed};
use thiserror::Error;

/// Why an expression is rejected. It is displayed as a message without the offset.
#[derive(Clone, Copy, Debug, PartialEq, Eq, Error)]
pub enum EreFault {
    /// The text has an error.
    #[error("{kind}")]
    Refused {
        /// The kind of error.
        kind: EreFaultKind,
        /// The offset of the error in the text; its length if the text ends too early.
        offset: usize,
    },
    /// An allocation failed.
    #[error("out of memory")]
    OutOfMemory,
}

/// The errors of expressions. Each variant documents the byte that it is reported at. It is displayed as a message.
#[derive(Clone, Copy, Debug, PartialEq, Eq, Error)]
pub enum EreFaultKind {
    /// A pattern, branch, group, head or tail is empty. Reported at the byte where an expression is missing.
    #[error("empty expression")]
    Empty,
    /// A string isn't closed by the end of the line. Reported at its opening quote.
    #[error("missing closing quote")]
    UnclosedQuote,
    /// A bracket expression isn't closed by the end of the line. Reported at its `[`.
    #[error("missing closing bracket")]
    UnclosedBracket,
    /// A group isn't closed by the end of the line. Reported at the `(` of the innermost one.
    #[error("missing closing parenthesis")]
    UnclosedGroup,
    /// An operator without operand, `*`, `+` or `?` after an interval, `)` without `(`, a backslash at the end, or `/`
    /// where no trailing context is allowed. Reported at this byte.
    #[error("misplaced operator")]
    StrayOperator,
    /// A range that runs backwards, ends in a class or `[=c=]`, or directly follows a range or class. Reported at its
    /// start.
    #[error("invalid range")]
    BadRange,
    /// A bracket expression that matches no byte. Reported at its `[`.
    #[error("empty bracket expression")]
    EmptySet,
    /// An unknown class, or `[. .]` or `[= =]` with other than one character. Reported at its `[`.
    #[error("unknown character class")]
    UnknownClass,
    /// An interval that has none of the three forms, a bound above 255, or a greater lower bound. Reported at its `{`.
    #[error("invalid interval")]
    BadInterval,
    /// An escape with a value above 255. Reported at its backslash.
    #[error("escape above 255")]
    EscapeTooLarge,
    /// A name in braces that is undefined, or that no `}` closes. Reported at its `{`.
    #[error("undefined name")]
    UnknownName,
    /// A definition that leads into a cycle of names. Reported at the start of its expression.
    #[error("cyclic definition")]
    NameCycle,
    /// A `^` that isn't at the start, or a `$` that isn't at the end. Reported at this byte.
    #[error("misplaced anchor")]
    AnchorInside,
    /// A second `/`, or a `/` and a `$`. Reported at the second of them.
    #[error("second trailing context")]
    TrailingTwice,
    /// Neither the head nor the tail has one length. Reported at the `/` or `$`.
    #[error("neither side of the trailing context has a fixed length")]
    TrailingBothVary,
    /// The head before a `/` or `$` matches the empty string. Reported at the `/` or `$`.
    #[error("trailing context after a pattern that may be empty")]
    TrailingHeadEmpty,
    /// The weight is above the limit. Reported at the start of the pattern or expression.
    #[error("pattern too large")]
    TooHeavy,
}

impl EreFault {
    ghost use Rattle.ly_ere.specs.Faults.{ere_name, ere_number};

    /// The error number. `OutOfMemory` has none.
    pub fn number(&self) -> Option<u8>
        ensures { result ≡ ere_number self.now }
    {
        match self {
            EreFault::Refused { kind, .. } => Some(kind.number()),
            EreFault::OutOfMemory => None,
        }
    }

    /// The name of the error.
    pub fn name(&self) -> &'static str
        ensures { result.now ≡ ere_name self.now }
    {
        match self {
            EreFault::Refused { kind, .. } => kind.name(),
            EreFault::OutOfMemory => "OutOfMemory",
        }
    }
}

impl EreFaultKind {
    ghost use Rattle.ly_ere.specs.Faults.{kind_name, kind_number};

    /// The number of this kind of error.
    pub fn number(&self) -> u8
        ensures { result ≡ kind_number self.now }
    {
        match self {
            EreFaultKind::Empty => 1,
            EreFaultKind::UnclosedQuote => 2,
            EreFaultKind::UnclosedBracket => 3,
            EreFaultKind::UnclosedGroup => 4,
            EreFaultKind::StrayOperator => 5,
            EreFaultKind::BadRange => 6,
            EreFaultKind::EmptySet => 7,
            EreFaultKind::UnknownClass => 8,
            EreFaultKind::BadInterval => 9,
            EreFaultKind::EscapeTooLarge => 10,
            EreFaultKind::UnknownName => 11,
            EreFaultKind::NameCycle => 12,
            EreFaultKind::AnchorInside => 13,
            EreFaultKind::TrailingTwice => 14,
            EreFaultKind::TrailingBothVary => 15,
            EreFaultKind::TrailingHeadEmpty => 16,
            EreFaultKind::TooHeavy => 17,
        }
    }

    /// The name of this kind of error.
    pub fn name(&self) -> &'static str
        ensures { result.now ≡ kind_name self.now }
    {
        match self {
            EreFaultKind::Empty => "Empty",
            EreFaultKind::UnclosedQuote => "UnclosedQuote",
            EreFaultKind::UnclosedBracket => "UnclosedBracket",
            EreFaultKind::UnclosedGroup => "UnclosedGroup",
            EreFaultKind::StrayOperator => "StrayOperator",
            EreFaultKind::BadRange => "BadRange",
            EreFaultKind::EmptySet => "EmptySet",
            EreFaultKind::UnknownClass => "UnknownClass",
            EreFaultKind::BadInterval => "BadInterval",
            EreFaultKind::EscapeTooLarge => "EscapeTooLarge",
            EreFaultKind::UnknownName => "UnknownName",
            EreFaultKind::NameCycle => "NameCycle",
            EreFaultKind::AnchorInside => "AnchorInside",
            EreFaultKind::TrailingTwice => "TrailingTwice",
            EreFaultKind::TrailingBothVary => "TrailingBothVary",
            EreFaultKind::TrailingHeadEmpty => "TrailingHeadEmpty",
            EreFaultKind::TooHeavy => "TooHeavy",
        }
    }
}

impl From<AllocError> for EreFault {
    ghost from_gives = { λ _ e. e ≡ OutOfMemory };

    fn from(_error: AllocError) -> EreFault {
        EreFault::OutOfMemory
    }
}

impl<T: Drop> From<AllocFailed<T>> for EreFault {
    ghost from_gives = { λ _ e. e ≡ OutOfMemory };

    fn from(_error: AllocFailed<T>) -> EreFault {
        EreFault::OutOfMemory
    }
}

impl From<SyntaxKind> for EreFaultKind {
    ghost from_gives = { λ kind e. e ≡ kind_of_syntax kind };

    fn from(kind: SyntaxKind) -> EreFaultKind {
        match kind {
            SyntaxKind::Empty => EreFaultKind::Empty,
            SyntaxKind::UnclosedQuote => EreFaultKind::UnclosedQuote,
            SyntaxKind::UnclosedBracket => EreFaultKind::UnclosedBracket,
            SyntaxKind::UnclosedGroup => EreFaultKind::UnclosedGroup,
            SyntaxKind::StrayOperator => EreFaultKind::StrayOperator,
            SyntaxKind::BadRange => EreFaultKind::BadRange,
            SyntaxKind::EmptySet => EreFaultKind::EmptySet,
            SyntaxKind::UnknownClass => EreFaultKind::UnknownClass,
            SyntaxKind::BadInterval => EreFaultKind::BadInterval,
            SyntaxKind::EscapeTooLarge => EreFaultKind::EscapeTooLarge,
            SyntaxKind::UnknownName => EreFaultKind::UnknownName,
            SyntaxKind::AnchorInside => EreFaultKind::AnchorInside,
            SyntaxKind::TrailingTwice => EreFaultKind::TrailingTwice,
        }
    }
}

/// Why an expression can't be read, whatever its weight: its text has an error, or an allocation failed.
#[derive(Clone, Copy)]
pub(crate) enum ReadFault {
    /// The text has an error.
    Syntax(SyntaxFault),
    /// An allocation failed.
    OutOfMemory,
}

impl ReadFault {
    /// Converts to the error of the expression with this text.
    pub(crate) fn in_text(self, text: &[u8]) -> EreFault
        requires { IsReadIn text.now self }
        ensures { result ≡ fault_in text.now self }
    {
        match self {
            ReadFault::Syntax(fault) => fault.in_text(text),
            ReadFault::OutOfMemory => EreFault::OutOfMemory,
        }
    }
}

impl From<SyntaxFault> for ReadFault {
    ghost from_gives = { λ fault e. e ≡ read.Syntax fault };

    fn from(fault: SyntaxFault) -> ReadFault {
        ReadFault::Syntax(fault)
    }
}

impl From<AllocError> for ReadFault {
    ghost from_gives = { λ _ e. e ≡ read.OutOfMemory };

    fn from(_error: AllocError) -> ReadFault {
        ReadFault::OutOfMemory
    }
}

/// Why an element isn't allowed where it is: it is wrong there, or an allocation failed.
#[derive(Clone, Copy)]
pub(crate) enum StepFault {
    /// The element is wrong here.
    Syntax(SyntaxKind),
    /// An allocation failed.
    OutOfMemory,
}

impl StepFault {
    /// Converts to the error of a text. `rest` is the end of the text from the element on.
    pub(crate) fn at(self, rest: &[u8]) -> ReadFault
        ensures memory { result ≢ read.OutOfMemory → self ≢ step.OutOfMemory }
        ensures within { IsReadIn rest.now result }
    {
        match self {
            StepFault::Syntax(kind) => ReadFault::Syntax(SyntaxFault::at(kind, rest)),
            StepFault::OutOfMemory => ReadFault::OutOfMemory,
        }
    }
}

impl From<SyntaxKind> for StepFault {
    ghost from_gives = { λ kind e. e ≡ step.Syntax kind };

    fn from(kind: SyntaxKind) -> StepFault {
        StepFault::Syntax(kind)
    }
}

impl From<SyntaxFault> for StepFault {
    ghost from_gives = { λ fault e. e ≡ step.Syntax fault.kind };

    fn from(fault: SyntaxFault) -> StepFault {
        StepFault::Syntax(fault.kind)
    }
}

impl From<AllocError> for StepFault {
    ghost from_gives = { λ _ e. e ≡ step.OutOfMemory };

    fn from(_error: AllocError) -> StepFault {
        StepFault::OutOfMemory
    }
}

impl<T: Drop> From<AllocFailed<T>> for StepFault {
    ghost from_gives = { λ _ e. e ≡ step.OutOfMemory };

    fn from(_error: AllocFailed<T>) -> StepFault {
        StepFault::OutOfMemory
    }
}

/// An error in the text of an expression and where it is.
#[derive(Clone, Copy)]
pub(crate) struct SyntaxFault {
    /// The kind of error.
    pub(crate) kind: SyntaxKind,
    /// The number of bytes of the text from the error on.
    pub(crate) left: usize,
}

impl SyntaxFault {
    /// Makes the error of a text. `rest` is the end of the text from the error on.
    pub(crate) fn at(kind: SyntaxKind, rest: &[u8]) -> SyntaxFault
        ensures { IsLeftIn rest.now result }
    {
        SyntaxFault {
            kind,
            left: rest.len(),
        }
    }

    /// Converts to the error of the expression with this text.
    pub(crate) fn in_text(self, text: &[u8]) -> EreFault
        requires { IsLeftIn text.now self }
        ensures { result ≡ fault_in text.now (read.Syntax self) }
    {
        EreFault::Refused {
            kind: EreFaultKind::from(self.kind),
            offset: text.len() - self.left,
        }
    }

    /// Returns the same error, but moves one of this kind to the start of `rest`, since an unclosed construct is
    /// reported where it opens.
    pub(crate) fn begun_at(self, kind: SyntaxKind, rest: &[u8]) -> SyntaxFault
        requires { IsLeftIn rest.now self }
        ensures { IsLeftIn rest.now result }
    {
        if self.kind == kind {
            SyntaxFault::at(kind, rest)
        } else {
            self
        }
    }
}

/// The kinds of `EreFaultKind` that depend on the text alone.
#[derive(Clone, Copy, PartialEq, Eq)]
pub(crate) enum SyntaxKind {
    /// An empty pattern, branch, group, head or tail.
    Empty,
    /// A string isn't closed by the end of the line.
    UnclosedQuote,
    /// A bracket expression isn't closed by the end of the line.
    UnclosedBracket,
    /// A group isn't closed by the end of the line.
    UnclosedGroup,
    /// An operator where none is allowed.
    StrayOperator,
    /// Not a range, or one that runs backwards.
    BadRange,
    /// A bracket expression that matches no byte.
    EmptySet,
    /// An unknown class, or `[. .]` or `[= =]` with other than one character.
    UnknownClass,
    /// Not an interval.
    BadInterval,
    /// An escape with a value above 255.
    EscapeTooLarge,
    /// An undefined name.
    UnknownName,
    /// A `^` that isn't at the start, or a `$` that isn't at the end.
    AnchorInside,
    /// A second `/`, or a `/` and a `$`.
    TrailingTwice,
}
