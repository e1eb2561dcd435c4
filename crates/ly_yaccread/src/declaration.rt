ghost use Rattle.std.specs.Prelude.{◌≡◌, ◌≢◌, ◌∷◌, List, MatchOption};
ghost use Rattle.ly_yaccread.specs.Declarations.{Declares, directive_name};
ghost use Rattle.ly_yaccread.specs.Private.Read.{IsFound, left as words_left, saying_of};
ghost use Rattle.ly_yaccread.specs.Words.{Word, directive as directive_word};

use crate::cursor::{Cursor, is};
use crate::expected::Expected;
use crate::file::{Declaration, DeclarationKind};
use crate::listing::Listing;
use crate::refusal::Refusal;
use crate::symbols::{Listed, read_symbol_list};
use std::alloc::Global;

/// What follows the `%` of a declaration.
#[derive(Clone, Copy)]
pub(crate) enum Directive {
    /// `token`, `left`, `right` or `nonassoc`.
    Tokens(DeclarationKind),
    /// `type`.
    Types,
    /// `start`.
    Start,
    /// `union`.
    Union,
}

/// The content of a declaration.
#[derive(Drop)]
pub(crate) enum Said {
    /// A declaration of tokens, and for each of them the number of words left from it on.
    Tokens(Declaration, Vec<usize>),
    /// The name of the start symbol.
    Start(Vec<u8>),
    /// A declaration that is ignored: a block, `%type` or `%union`.
    Nothing,
}

/// Reads a declaration. Returns its content and the words after it.
pub(crate) fn read_declaration(
    alloc: Global,
    words: Cursor<'_>,
) -> Result<(Said, Cursor<'_>), Refusal>
    ensures { IsFound (Declares (words_left words.entry)) (λ found. saying_of found.0) (λ found. words_left found.1)
        result }
{
    if let Some(rest) = words.block() {
        return Ok((Said::Nothing, rest));
    }
    let Some((directive, behind)) = directive_first(words) else {
        return Err(words.refusal(Expected::Declaration));
    };
    match directive {
        Directive::Tokens(kind) => {
            let (listed, rest) = read_symbol_list(alloc, behind, Listing::Numbered)?;
            let Listed { symbols, left } = listed;
            Ok((Said::Tokens(Declaration { kind, symbols }, left), rest))
        }
        Directive::Types => {
            let (_listed, rest) = read_symbol_list(alloc, behind, Listing::Plain)?;
            Ok((Said::Nothing, rest))
        }
        Directive::Start => match behind.name() {
            Some((name, rest)) => Ok((Said::Start(Vec::from_slice(alloc, name)?), rest)),
            None => Err(behind.refusal(Expected::Declaration)),
        },
        Directive::Union => match behind.braces() {
            Some(rest) => Ok((Said::Nothing, rest)),
            None => Err(behind.refusal(Expected::Braces)),
        },
    }
}

/// The directive that comes first, and the words after it.
fn directive_first(words: Cursor<'_>) -> Option<(Directive, Cursor<'_>)>
    ensures { MatchOption result ((d : Directive) (rest : List Word)
        → words_left words.entry ≢ directive_word (directive_name d) ∷ rest)
        (λ found. words_left words.entry ≡ directive_word (directive_name found.0) ∷ words_left found.1) }
{
    let (name, rest) = words.directive()?;
    Some((directive_named(name)?, rest))
}

/// The directive with this name.
fn directive_named(name: &[u8]) -> Option<Directive>
    ensures { MatchOption result ((d : Directive) → name.now ≢ directive_name d) (λ d. name.now ≡ directive_name d) }
{
    if is(name, b"token") {
        return Some(Directive::Tokens(DeclarationKind::Token));
    }
    if is(name, b"left") {
        return Some(Directive::Tokens(DeclarationKind::Left));
    }
    if is(name, b"right") {
        return Some(Directive::Tokens(DeclarationKind::Right));
    }
    if is(name, b"nonassoc") {
        return Some(Directive::Tokens(DeclarationKind::Nonassociative));
    }
    if is(name, b"type") {
        return Some(Directive::Types);
    }
    if is(name, b"start") {
        return Some(Directive::Start);
    }
    is(name, b"union").then_some(Directive::Union)
}
