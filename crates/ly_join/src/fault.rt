ghost use Rattle.std.specs.Prelude.{◌≡◌};
ghost use Rattle.ly_join.specs.declared.fault.JoinFault.TheVariants as fault;

use crate::limit::Limit;
use crate::terminal::TerminalName;
use ly_base::OutOfMemory;
use std::alloc::{AllocError, AllocFailed};
use thiserror::Error;

/// Why a lex file and a yacc file don't make a specification. Printed as a message, without the symbol or the limit.
#[derive(Debug, Drop, Error)]
pub enum JoinFault {
    /// A symbol of a body that is neither a token nor the left side of a rule.
    #[error("undefined symbol")]
    UndefinedSymbol(Vec<u8>),
    /// The left side of a rule that is a token.
    #[error("token on the left side of a rule")]
    TokenOnLeft(Vec<u8>),
    /// A token with two precedences, from two declarations or from one.
    #[error("second precedence for a token")]
    PrecedenceTwice(TerminalName),
    /// The name after `%start`, which is no left side.
    #[error("start symbol without rules")]
    UnknownStart(Vec<u8>),
    /// A name that an action of the lex file returns and that is no token.
    #[error("returned name isn't a token")]
    ReturnUndeclared(Vec<u8>),
    /// The name after a `%prec`, which is no token.
    #[error("name after %prec isn't a token")]
    PrecUnknown(Vec<u8>),
    /// The yacc file has no rules.
    #[error("no rules")]
    NoRules,
    /// A count is above its limit.
    #[error("limit exceeded")]
    LimitPassed {
        /// The limit that is exceeded.
        which: Limit,
    },
    /// Out of memory.
    #[error("out of memory")]
    OutOfMemory,
}

impl JoinFault {
    ghost use Rattle.ly_join.specs.FaultNames.{join_name, join_number};

    /// The number that the error is printed with; none for `OutOfMemory`.
    pub fn number(&self) -> Option<u8>
        ensures { result ≡ join_number self.now }
    {
        match self {
            JoinFault::UndefinedSymbol(_) => Some(40),
            JoinFault::TokenOnLeft(_) => Some(41),
            JoinFault::PrecedenceTwice(_) => Some(42),
            JoinFault::UnknownStart(_) => Some(43),
            JoinFault::ReturnUndeclared(_) => Some(44),
            JoinFault::PrecUnknown(_) => Some(45),
            JoinFault::NoRules => Some(46),
            JoinFault::LimitPassed { .. } => Some(47),
            JoinFault::OutOfMemory => None,
        }
    }

    /// The name that the error is printed with.
    pub fn name(&self) -> &'static str
        ensures { result.now ≡ join_name self.now }
    {
        match self {
            JoinFault::UndefinedSymbol(_) => "UndefinedSymbol",
            JoinFault::TokenOnLeft(_) => "TokenOnLeft",
            JoinFault::PrecedenceTwice(_) => "PrecedenceTwice",
            JoinFault::UnknownStart(_) => "UnknownStart",
            JoinFault::ReturnUndeclared(_) => "ReturnUndeclared",
            JoinFault::PrecUnknown(_) => "PrecUnknown",
            JoinFault::NoRules => "NoRules",
            JoinFault::LimitPassed { .. } => "LimitPassed",
            JoinFault::OutOfMemory => "OutOfMemory",
        }
    }
}

impl From<OutOfMemory> for JoinFault {
    ghost from_gives = { λ _ e. e ≡ fault.OutOfMemory };

    fn from(_error: OutOfMemory) -> JoinFault {
        JoinFault::OutOfMemory
    }
}

impl From<AllocError> for JoinFault {
    ghost from_gives = { λ _ e. e ≡ fault.OutOfMemory };

    fn from(_error: AllocError) -> JoinFault {
        JoinFault::OutOfMemory
    }
}

impl<T: Drop> From<AllocFailed<T>> for JoinFault {
    ghost from_gives = { λ _ e. e ≡ fault.OutOfMemory };

    fn from(_error: AllocFailed<T>) -> JoinFault {
        JoinFault::OutOfMemory
    }
}
