ghost use Rattle.std.specs.Prelude.{◌≡◌, length};
ghost use Rattle.ly_spans.specs.Spans.{IsWithin};
ghost use Rattle.ly_places.specs.TokenAnswer.{token_over};
ghost use Rattle.ly_feed.specs.SyntaxError.{token_of};

use ly_base::Sym;
use ly_parse::Token;
use ly_print::Front;
use ly_spans::Span;

/// A token of a text, found by any means.
#[derive(Clone, Copy, Debug, PartialEq, Eq)]
pub struct PlacedToken {
    /// Its terminal.
    pub terminal: Sym,
    /// Its span in the text.
    pub extent: Span,
}

impl PlacedToken {
    /// The token with its bytes, as input of a parser.
    pub(crate) fn over<'t>(&self, text: &'t [u8]) -> Token<'t>
        requires { IsWithin (length text.now) self.now.extent }
        ensures { token_of result ≡ token_over text.now self.now }
    {
        let Span { start, end } = self.extent;
        Token {
            terminal: self.terminal,
            at: start as u64,
            text: Front::new(&text[start..], end - start),
        }
    }
}
