ghost use Rattle.std.specs.Prelude.{◌≡◌, ◌≢◌, ◌∷◌, ◌<◌, ◌≤◌, ◌⊎◌, ◌^◌, ℕ, List, MatchBool, MatchResult};
ghost use Rattle.ly_base.specs.Language.{IsName};
ghost use Rattle.ly_base.specs.declared.language.Language.TheVariants.{Lex};
ghost use Rattle.ly_yaccread.specs.Actions.{ActionPassed, MorePlaces, Places, ValueFirst};
ghost use Rattle.ly_yaccread.specs.File.{making_of};
ghost use Rattle.ly_yaccread.specs.Private.Read.{IsFound, left as words_left};
ghost use Rattle.ly_yaccread.specs.Words.{Word, mark as mark_word};

use crate::cursor::Cursor;
use crate::expected::Expected;
use crate::fault::YaccFaultKind;
use crate::file::{Node, TreeAction};
use crate::place::read_place;
use crate::refusal::Refusal;
use crate::words::Mark;
use ly_base::{Language, SparseSet, leading_name};
use std::alloc::Global;

/// Reads the action at the front, for a body of this many symbols. Returns it and the words after it. If the first word
/// isn't `{`, the action is `Default` and no word is consumed.
pub(crate) fn read_action(
    alloc: Global,
    words: Cursor<'_>,
    symbols: usize,
) -> Result<(TreeAction, Cursor<'_>), Refusal>
    ensures { IsFound (ActionPassed symbols (words_left words.entry)) (λ found. making_of found.0)
        (λ found. words_left found.1) result }
{
    let Some(inside) = words.after(Mark::OpenBrace) else {
        return Ok((TreeAction::Default, words));
    };
    let value = after_both(inside, Mark::Whole, Mark::Equals)?;
    let (action, behind) = read_value(alloc, value, symbols)?;
    let rest = after_both(behind, Mark::Semicolon, Mark::CloseBrace)?;
    Ok((action, rest))
}

/// Returns the words after these two marks, which must come first.
fn after_both(words: Cursor<'_>, first: Mark, second: Mark) -> Result<Cursor<'_>, Refusal>
    ensures { MatchResult result
        (λ rest. words_left words.entry ≡ mark_word first ∷ mark_word second ∷ words_left rest)
        (λ _. (rest : List Word) → words_left words.entry ≢ mark_word first ∷ mark_word second ∷ rest) }
{
    let Some(inside) = words.after(first) else {
        return Err(words.refusal(Expected::Action));
    };
    match inside.after(second) {
        Some(rest) => Ok(rest),
        None => Err(inside.refusal(Expected::Action)),
    }
}

/// Reads a value: a place, or a constructor and places in parentheses.
fn read_value(
    alloc: Global,
    words: Cursor<'_>,
    symbols: usize,
) -> Result<(TreeAction, Cursor<'_>), Refusal>
    ensures { IsFound (ValueFirst symbols (words_left words.entry)) (λ found. making_of found.0)
        (λ found. words_left found.1) result }
{
    let Some((name, behind)) = words.name() else {
        let (place, rest) = read_place(words, symbols)?;
        return Ok((TreeAction::Pass(place), rest));
    };
    if !is_constructor(name) {
        return Err(words.refusal(Expected::Action));
    }
    let Some(inside) = behind.after(Mark::OpenParenthesis) else {
        return Err(behind.refusal(Expected::Action));
    };
    let (places, rest) = read_places(alloc, inside, symbols)?;
    let name = Vec::from_slice(alloc, name)?;
    let node = Box::new(alloc, Node { name, places })?;
    Ok((TreeAction::Build(node), rest))
}

/// Whether the name is a valid name of a lex file.
fn is_constructor(name: &[u8]) -> bool
    ensures { MatchBool result (IsName Lex name.now) (IsName Lex name.now → ⊥) }
{
    match leading_name(name, Language::Lex) {
        Some((_name, rest)) => rest.is_empty(),
        None => false,
    }
}

/// Reads the places after an opening parenthesis, and the closing one.
fn read_places(
    alloc: Global,
    words: Cursor<'_>,
    symbols: usize,
) -> Result<(Vec<u32>, Cursor<'_>), Refusal>
    ensures { IsFound (Places symbols (words_left words.entry)) (λ found. found.0.items) (λ found. words_left found.1)
        result }
{
    if let Some(rest) = words.after(Mark::CloseParenthesis) {
        return Ok((Vec::new(alloc), rest));
    }
    let (first, behind) = read_place(words, symbols)?;
    let mut places = SparseSet::new(alloc, symbols.saturating_add(1))?;
    places.insert(first);
    let rest = more_places(&mut places, behind, symbols)?;
    Ok((Vec::from_slice(alloc, places.members())?, rest))
}

/// Adds the remaining places up to the `)`, each after a `,`.
fn more_places<'t>(
    places: &mut SparseSet,
    words: Cursor<'t>,
    symbols: usize,
) -> Result<Cursor<'t>, Refusal>
    requires { (symbols < places.old.below) ⊎ (2 ^ 32 ≤ places.old.below) }
    ensures { MatchResult result
        (λ rest. MorePlaces symbols places.old.members (words_left words.entry) places.new.members (words_left rest))
        (λ _. (ps : List ℕ) (rest : List Word) → MorePlaces symbols places.old.members (words_left words.entry) ps rest
        → ⊥) }
{
    let mut rest = words;
    loop {
        if let Some(behind) = rest.after(Mark::CloseParenthesis) {
            return Ok(behind);
        }
        let Some(inside) = rest.after(Mark::Comma) else {
            return Err(rest.refusal(Expected::Action));
        };
        let (place, behind) = read_place(inside, symbols)?;
        if !places.insert(place) {
            return Err(inside.refused(YaccFaultKind::DollarTwice));
        }
        rest = behind;
    }
}
