ghost use Rattle.std.specs.Prelude.{◌≡◌};
ghost use Rattle.ly_yaccread.specs.Faults.{kind_name, kind_number, yacc_name, yacc_number};
ghost use Rattle.ly_yaccread.specs.declared.fault.YaccFault.TheVariants.{OutOfMemory};

use std::alloc::AllocError;
use thiserror::Error;

/// Why a yacc file is rejected. Printed as a message.
#[derive(Clone, Copy, Debug, PartialEq, Eq, Error)]
pub enum YaccFault {
    /// The file has an error.
    #[error("{kind}")]
    Refused {
        /// The kind of error.
        kind: YaccFaultKind,
        /// The offset of the word with the error. If the file ends too early, the offset of its last byte, or 0 if it
        /// is empty.
        offset: usize,
    },
    /// Out of memory.
    #[error("out of memory")]
    OutOfMemory,
}

/// The kinds of errors in a yacc file. Printed as a message.
#[derive(Clone, Copy, Debug, PartialEq, Eq, Error)]
pub enum YaccFaultKind {
    /// No `%%` ends the declarations.
    #[error("no %% after the declarations")]
    NoRulesMark,
    /// A word that isn't allowed in the declarations, or a second `%start`.
    #[error("invalid declaration")]
    BadDeclaration,
    /// A word that isn't allowed in the rules, or at their end.
    #[error("invalid rule")]
    BadRule,
    /// A literal of no byte, of byte 0, of more than one byte, or without its closing quote.
    #[error("invalid literal")]
    BadLiteral,
    /// A word that isn't allowed in an action.
    #[error("unsupported action")]
    BadAction,
    /// A `$` number that is no symbol of the body.
    #[error("no such symbol in the body")]
    DollarRange,
    /// A `$` number that occurs twice in an action.
    #[error("symbol used twice")]
    DollarTwice,
    /// The name `error`, which is reserved.
    #[error("the token error isn't supported")]
    ErrorToken,
    /// A symbol or an action after an action.
    #[error("action within a rule")]
    MidRuleAction,
    /// A comment, a block or a union that isn't closed.
    #[error("unclosed comment or block")]
    UnclosedComment,
}

impl YaccFault {
    /// The number that the error is printed with; none for `OutOfMemory`.
    pub fn number(&self) -> Option<u8>
        ensures { result ≡ yacc_number self.now }
    {
        match self {
            YaccFault::Refused { kind, .. } => Some(kind.number()),
            YaccFault::OutOfMemory => None,
        }
    }

    /// The name that the error is printed with.
    pub fn name(&self) -> &'static str
        ensures { result.now ≡ yacc_name self.now }
    {
        match self {
            YaccFault::Refused { kind, .. } => kind.name(),
            YaccFault::OutOfMemory => "OutOfMemory",
        }
    }
}

impl YaccFaultKind {
    /// The number that the error is printed with.
    pub fn number(self) -> u8
        ensures { result ≡ kind_number self }
    {
        match self {
            YaccFaultKind::NoRulesMark => 30,
            YaccFaultKind::BadDeclaration => 31,
            YaccFaultKind::BadRule => 32,
            YaccFaultKind::BadLiteral => 33,
            YaccFaultKind::BadAction => 34,
            YaccFaultKind::DollarRange => 35,
            YaccFaultKind::DollarTwice => 36,
            YaccFaultKind::ErrorToken => 37,
            YaccFaultKind::MidRuleAction => 38,
            YaccFaultKind::UnclosedComment => 39,
        }
    }

    /// The name that the error is printed with.
    pub fn name(self) -> &'static str
        ensures { result.now ≡ kind_name self }
    {
        match self {
            YaccFaultKind::NoRulesMark => "NoRulesMark",
            YaccFaultKind::BadDeclaration => "BadDeclaration",
            YaccFaultKind::BadRule => "BadRule",
            YaccFaultKind::BadLiteral => "BadLiteral",
            YaccFaultKind::BadAction => "BadAction",
            YaccFaultKind::DollarRange => "DollarRange",
            YaccFaultKind::DollarTwice => "DollarTwice",
            YaccFaultKind::ErrorToken => "ErrorToken",
            YaccFaultKind::MidRuleAction => "MidRuleAction",
            YaccFaultKind::UnclosedComment => "UnclosedComment",
        }
    }
}

impl From<AllocError> for YaccFault {
    ghost from_gives = { λ _ e. e ≡ OutOfMemory };

    fn from(_error: AllocError) -> YaccFault {
        YaccFault::OutOfMemory
    }
}
