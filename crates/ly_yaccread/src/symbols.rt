ghost use Rattle.std.specs.Prelude.{◌≡◌, ℕ, List, IfOk, MatchOption, MatchResult};
ghost use Rattle.ly_yaccread.specs.File.{symbol_word, symbol_words};
ghost use Rattle.ly_yaccread.specs.Private.Read.{IsFound, left as words_left, next_symbol};
ghost use Rattle.ly_yaccread.specs.Symbols.{Listed as ListsWords, NoSymbol, NumberPassed, SymbolFirst, SymbolList};
ghost use Rattle.ly_yaccread.specs.Symbols.{Symbols, TagPassed};
ghost use Rattle.ly_yaccread.specs.Words.{Word};

use crate::cursor::Cursor;
use crate::expected::Expected;
use crate::file::SymbolName;
use crate::listing::Listing;
use crate::refusal::Refusal;
use crate::words::Mark;
use std::alloc::{AllocError, Global};

/// A symbol, borrowed from the text.
#[derive(Clone, Copy)]
pub(crate) enum NextSymbol<'t> {
    /// A name.
    Name(&'t [u8]),
    /// A literal of this byte.
    Literal(u8),
}

impl NextSymbol<'_> {
    /// An owned copy of the symbol.
    pub(crate) fn owned(self, alloc: Global) -> Result<SymbolName, AllocError>
        ensures { IfOk result (λ symbol. symbol_word symbol ≡ next_symbol self.entry) }
    {
        match self {
            NextSymbol::Name(name) => Ok(SymbolName::Name(Vec::from_slice(alloc, name)?)),
            NextSymbol::Literal(byte) => Ok(SymbolName::Literal(byte)),
        }
    }
}

/// Reads symbols, as many as follow. Returns them and the words after them.
pub(crate) fn read_symbols(
    alloc: Global,
    words: Cursor<'_>,
) -> Result<(Vec<SymbolName>, Cursor<'_>), AllocError>
    ensures { IfOk result
        (λ found. Symbols (words_left words.entry) (symbol_words found.0.items) (words_left found.1)) }
{
    let mut symbols = Vec::new(alloc);
    let mut rest = words;
    while let Some((symbol, behind)) = symbol_first(rest) {
        symbols.push(symbol.owned(alloc)?)?;
        rest = behind;
    }
    Ok((symbols, rest))
}

/// The symbols that a declaration lists.
#[derive(Drop)]
pub(crate) struct Listed {
    /// The symbols.
    pub(crate) symbols: Vec<SymbolName>,
    /// For each symbol, the number of words left from it on.
    pub(crate) left: Vec<usize>,
}

/// Reads the symbols of a declaration, as many as follow. Returns them and the words after them.
fn read_listed(
    alloc: Global,
    words: Cursor<'_>,
    listing: Listing,
) -> Result<(Listed, Cursor<'_>), AllocError>
    ensures { IfOk result (λ found. ListsWords listing (words_left words.entry) (symbol_words found.0.symbols.items)
        found.0.left.items (words_left found.1)) }
{
    let mut symbols = Vec::new(alloc);
    let mut left = Vec::new(alloc);
    let mut rest = words;
    while let Some((symbol, behind)) = symbol_first(rest) {
        symbols.push(symbol.owned(alloc)?)?;
        left.push(rest.left.len())?;
        rest = after_number(behind, listing);
    }
    Ok((Listed { symbols, left }, rest))
}

/// Reads an optional tag and then one or more symbols. Without a symbol, the error is a `BadDeclaration`.
pub(crate) fn read_symbol_list(
    alloc: Global,
    words: Cursor<'_>,
    listing: Listing,
) -> Result<(Listed, Cursor<'_>), Refusal>
    ensures { IsFound (λ (x : List Word × List ℕ). SymbolList listing (words_left words.entry) x.0 x.1)
        (λ found. (symbol_words found.0.symbols.items, found.0.left.items)) (λ found. words_left found.1) result }
{
    let behind = after_tag(words)?;
    let (listed, rest) = read_listed(alloc, behind, listing)?;
    if listed.symbols.is_empty() {
        return Err(rest.refusal(Expected::Declaration));
    }
    Ok((listed, rest))
}

/// The words after the tag that comes first. If no `<` comes first, all words.
fn after_tag(words: Cursor<'_>) -> Result<Cursor<'_>, Refusal>
    ensures { MatchResult result (λ rest. TagPassed (words_left words.entry) (words_left rest))
        (λ _. (rest : List Word) → TagPassed (words_left words.entry) rest → ⊥) }
{
    let Some(inside) = words.after(Mark::OpenTag) else {
        return Ok(words);
    };
    let Some((_name, behind)) = inside.name() else {
        return Err(inside.refusal(Expected::Declaration));
    };
    match behind.after(Mark::CloseTag) {
        Some(rest) => Ok(rest),
        None => Err(behind.refusal(Expected::Declaration)),
    }
}

/// The symbol that comes first, and the words after it. A name before a `:` is no symbol.
pub(crate) fn symbol_first(words: Cursor<'_>) -> Option<(NextSymbol<'_>, Cursor<'_>)>
    ensures { MatchOption result (NoSymbol (words_left words.entry))
        (λ found. SymbolFirst (words_left words.entry) (next_symbol found.0) (words_left found.1)) }
{
    if let Some((byte, rest)) = words.literal() {
        return Some((NextSymbol::Literal(byte), rest));
    }
    let (name, rest) = words.name()?;
    match rest.after(Mark::Colon) {
        None => Some((NextSymbol::Name(name), rest)),
        Some(_) => None,
    }
}

/// The words after the number that comes first. Without a number, or if the list has no numbers, all words.
fn after_number(words: Cursor<'_>, listing: Listing) -> Cursor<'_>
    ensures { NumberPassed listing (words_left words.entry) (words_left result) }
{
    match (listing, words.number()) {
        (Listing::Numbered, Some((_digits, rest))) => rest,
        _ => words,
    }
}
