ghost use Rattle.std.specs.Prelude.{◌≡◌, ◌≢◌, ◌∷◌, List, Option, codes, MatchBool, MatchOption};
ghost use Rattle.std.specs.Option.{option_map};
ghost use Rattle.std.specs.Rc.{rc_slice_items};
ghost use Rattle.ly_yaccread.specs.Actions.{default, Making};
ghost use Rattle.ly_yaccread.specs.File.{making_of, ruling_of, symbol_word};
ghost use Rattle.ly_yaccread.specs.Private.Read.{IsFound, left as words_left};
ghost use Rattle.ly_yaccread.specs.Rules.{Body, BodyEnd as EndsBody, PrecedencePassed};
ghost use Rattle.ly_yaccread.specs.Words.{Word, directive as directive_word};

use crate::action::read_action;
use crate::cursor::{Cursor, is};
use crate::expected::Expected;
use crate::file::{Production, SymbolName, TreeAction};
use crate::refusal::Refusal;
use crate::symbols::{read_symbols, symbol_first};
use std::alloc::Global;
use std::rc::RcSlice;

/// What follows the symbols of a body.
#[derive(Drop)]
pub(crate) struct BodyEnd {
    /// The symbol after `%prec`, if there is one.
    precedence: Option<Box<SymbolName>>,
    /// The action.
    action: TreeAction,
}

/// Reads a body. Returns the rule with this left side and that body, and the words after it.
pub(crate) fn read_rule<'t>(
    alloc: Global,
    left: RcSlice<u8>,
    words: Cursor<'t>,
) -> Result<(Production, Cursor<'t>), Refusal>
    ensures { IsFound (Body (rc_slice_items left) (words_left words.entry)) (λ found. ruling_of found.0)
        (λ found. words_left found.1) result }
{
    let (body, behind) = read_symbols(alloc, words)?;
    let (end, rest) = read_body_end(alloc, behind, body.len())?;
    let BodyEnd { precedence, action } = end;
    Ok((
        Production {
            left,
            body,
            precedence,
            action,
        },
        rest,
    ))
}

/// Reads what follows the symbols of a body of this many symbols: an optional action and an optional `%prec`. The
/// action may come after the `%prec`.
fn read_body_end(
    alloc: Global,
    words: Cursor<'_>,
    symbols: usize,
) -> Result<(BodyEnd, Cursor<'_>), Refusal>
    ensures { IsFound (λ (x : Option Word × Making). EndsBody symbols (words_left words.entry) x.0 x.1)
        (λ found. (option_map (λ x. symbol_word x.value) found.0.precedence, making_of found.0.action))
        (λ found. words_left found.1) result }
{
    let (early, behind) = read_action(alloc, words, symbols)?;
    let (precedence, left) = read_precedence(alloc, behind)?;
    if precedence.is_none() || !is_default(&early) {
        let action = early;
        return Ok((BodyEnd { precedence, action }, left));
    }
    let (action, rest) = read_action(alloc, left, symbols)?;
    Ok((BodyEnd { precedence, action }, rest))
}

/// Whether the rule has no action.
pub(crate) fn is_default(action: &TreeAction) -> bool
    ensures { MatchBool result (making_of action.now ≡ default) (making_of action.now ≢ default) }
{
    matches!(action, TreeAction::Default)
}

/// Reads a `%prec` and its symbol. If the first word isn't `%prec`, returns none and consumes nothing.
fn read_precedence(
    alloc: Global,
    words: Cursor<'_>,
) -> Result<(Option<Box<SymbolName>>, Cursor<'_>), Refusal>
    ensures { IsFound (PrecedencePassed (words_left words.entry))
        (λ found. option_map (λ x. symbol_word x.value) found.0) (λ found. words_left found.1) result }
{
    let Some(behind) = after_prec(words) else {
        return Ok((None, words));
    };
    match symbol_first(behind) {
        Some((symbol, rest)) => {
            let symbol = Box::new(alloc, symbol.owned(alloc)?)?;
            Ok((Some(symbol), rest))
        }
        None => Err(behind.refusal(Expected::Rule)),
    }
}

/// The words after the `%prec` that comes first.
fn after_prec(words: Cursor<'_>) -> Option<Cursor<'_>>
    ensures { MatchOption result ((rest : List Word) → words_left words.entry ≢ directive_word (codes "prec") ∷ rest)
        (λ rest. words_left words.entry ≡ directive_word (codes "prec") ∷ words_left rest) }
{
    let (name, rest) = words.directive()?;
    is(name, b"prec").then_some(rest)
}
