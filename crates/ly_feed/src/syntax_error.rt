ghost use Rattle.ly_feed.specs.SyntaxError.{verdict_of};
ghost use Rattle.ly_feed.specs.Verdict.{IsOutcome};

use crate::outcome::Outcome;
use ly_base::Sym;
use ly_parse::Token;

/// The first error in a text.
#[derive(Drop)]
pub enum SyntaxError<'t> {
    /// A token is unexpected, or the end, which is a token of terminal 0.
    Refused {
        /// Its number, counted from 1. For the end, the number of tokens plus 1.
        number: u64,
        /// The token.
        token: Token<'t>,
        /// The terminals that would have been read in its place, or accepted if it is the end, in rising order.
        expected: Vec<Sym>,
    },
    /// No rule matches.
    NoRule {
        /// The offset of this byte, counted from 0.
        byte: u64,
    },
}

impl SyntaxError<'_> {
    /// The outcome for this error.
    pub fn into_outcome(self) -> Outcome
        ensures { IsOutcome (verdict_of self.entry) result }
    {
        match self {
            SyntaxError::Refused {
                number,
                token,
                expected,
            } => Outcome::Syntax {
                token: number,
                byte: token.at,
                length: token.text.len(),
                expected,
            },
            SyntaxError::NoRule { byte } => Outcome::NoRule { byte },
        }
    }
}
