ghost use Rattle.std.specs.Prelude.{◌≡◌, Some, None, IfOk, MatchBool};
ghost use Rattle.ly_yaccread.specs.Declarations.{Declarations, none_declared, with_saying};
ghost use Rattle.ly_yaccread.specs.Private.Read.{IsFound, declaring_of, left as words_left, saying_of};

use crate::cursor::Cursor;
use crate::declaration::{Said, read_declaration};
use crate::expected::Expected;
use crate::file::Declaration;
use crate::refusal::Refusal;
use crate::words::Mark;
use std::alloc::{AllocError, Global};

/// The content of all declarations.
#[derive(Drop)]
pub(crate) struct Preamble {
    /// The declarations that name tokens, in the order of the text.
    pub(crate) declarations: Vec<Declaration>,
    /// The name after `%start`, if there is one.
    pub(crate) start: Option<Vec<u8>>,
    /// For each token of the declarations, the number of words left from it on.
    pub(crate) tokens: Vec<usize>,
}

impl Preamble {
    /// Adds the content of a declaration. Returns false for a second `%start`.
    fn add(&mut self, said: Said) -> Result<bool, AllocError>
        ensures { IfOk result (λ added. MatchBool added
            (with_saying (declaring_of self.old) (saying_of said) ≡ Some (declaring_of self.new))
            (with_saying (declaring_of self.old) (saying_of said) ≡ None)) }
    {
        match said {
            Said::Tokens(declaration, left) => {
                self.tokens.extend_from_slice(&left)?;
                self.declarations.push(declaration)?;
            }
            Said::Start(name) => {
                if self.start.is_some() {
                    return Ok(false);
                }
                self.start = Some(name);
            }
            Said::Nothing => {}
        }
        Ok(true)
    }
}

/// Reads the declarations and the `%%` after them.
pub(crate) fn read_declarations(
    alloc: Global,
    words: Cursor<'_>,
) -> Result<(Preamble, Cursor<'_>), Refusal>
    ensures { IsFound (Declarations none_declared (words_left words.entry)) (λ found. declaring_of found.0)
        (λ found. words_left found.1) result }
{
    let mut preamble = Preamble {
        declarations: Vec::new(alloc),
        start: None,
        tokens: Vec::new(alloc),
    };
    let mut rest = words;
    loop {
        if let Some(rules) = rest.after(Mark::Section) {
            return Ok((preamble, rules));
        }
        let (said, behind) = read_declaration(alloc, rest)?;
        if !preamble.add(said)? {
            return Err(rest.refusal(Expected::Declaration));
        }
        rest = behind;
    }
}
