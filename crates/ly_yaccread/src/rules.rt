ghost use Rattle.std.specs.Prelude.{◌≡◌, ◌≢◌, ◌∷◌, ℕ, List, Some, None, map, MatchBool, MatchOption};
ghost use Rattle.std.specs.Prelude.{IfOk, MatchResult};
ghost use Rattle.std.specs.Rc.{rc_slice_items};
ghost use Rattle.ly_yaccread.specs.File.{ruling_of};
ghost use Rattle.ly_yaccread.specs.Private.Read.{last_of, left as words_left, left_side};
ghost use Rattle.ly_yaccread.specs.Rules as rules;
ghost use Rattle.ly_yaccread.specs.Rules.{AreRulesOver, BodyFollows, Ruling, YaccRules};
ghost use Rattle.ly_yaccread.specs.Words.{Word, mark as mark_word};
ghost use Rattle.ly_yaccread.specs.declared.refusal.Refusal.TheVariants.{OutOfMemory};
ghost use Rattle.ly_yaccread.specs.declared.standing.Standing as spec;
ghost use Rattle.ly_yaccread.specs.declared.words.Mark.TheVariants.{Semicolon};

use crate::cursor::{Cursor, is};
use crate::expected::Expected;
use crate::file::Production;
use crate::refusal::Refusal;
use crate::rule::{is_default, read_rule};
use crate::standing::Standing;
use crate::words::Mark;
use std::alloc::{AllocError, Global};
use std::rc::RcSlice;

/// A left side, with its location in the text.
#[derive(Clone, Copy)]
pub(crate) struct LeftSide<'t> {
    /// Its name.
    pub(crate) name: &'t [u8],
    /// The number of words left from the name on.
    pub(crate) left: usize,
}

/// Reads the rules, with the location of each.
pub(crate) fn read_rules(
    alloc: Global,
    words: Cursor<'_>,
) -> Result<(Vec<Production>, Vec<Standing>), Refusal>
    ensures { MatchResult result
        (λ found. YaccRules None (words_left words.entry) (map ruling_of found.0.items) found.1.items)
        (λ refusal. refusal ≢ OutOfMemory → (rs : List Ruling) (ss : List spec.Standing)
        → YaccRules None (words_left words.entry) rs ss → ⊥) }
{
    let mut rules = Vec::new(alloc);
    let mut standings = Vec::new(alloc);
    let mut last = None;
    let mut expected = Expected::Rule;
    let mut rest = words;
    while !is_over(rest) {
        if let Some(behind) = after_semicolon(rest, last) {
            expected = Expected::Rule;
            rest = behind;
            continue;
        }
        let Some((side, inside)) = body_follows(rest, last) else {
            return Err(rest.refusal(expected));
        };
        let shared = shared_left(alloc, side.name, &rules)?;
        let (rule, behind) = read_rule(alloc, shared, inside)?;
        expected = Expected::behind(&rule);
        rules.push(rule)?;
        standings.push(Standing {
            left: side.left,
            body: inside.left.len(),
        })?;
        last = Some(side);
        rest = behind;
    }
    Ok((rules, standings))
}

impl Expected {
    /// What is expected after this rule.
    fn behind(rule: &Production) -> Expected {
        if is_default(&rule.action) {
            Expected::Rule
        } else {
            Expected::RuleEnd
        }
    }
}

/// The left side to store: that of the last rule if the name is the same, else a copy.
fn shared_left(alloc: Global, left: &[u8], rules: &[Production]) -> Result<RcSlice<u8>, AllocError>
    ensures { IfOk result (λ shared. rc_slice_items shared ≡ left.now) }
{
    match rules.last() {
        Some(rule) if is(&rule.left, left) => rule.left.clone(),
        _ => RcSlice::from_slice(alloc, left),
    }
}

/// Whether no word is left, or a second `%%` comes first.
fn is_over(words: Cursor<'_>) -> bool
    ensures { MatchBool result (AreRulesOver (words_left words.entry)) (AreRulesOver (words_left words.entry) → ⊥) }
{
    words.next().is_none() || words.after(Mark::Section).is_some()
}

/// The words after the `;` that comes first, if a rule precedes it.
fn after_semicolon<'t>(words: Cursor<'t>, last: Option<LeftSide<'_>>) -> Option<Cursor<'t>>
    ensures { MatchOption result ((l : rules.LeftSide) (rest : List Word) → last_of last.entry ≡ Some l
        → words_left words.entry ≢ mark_word Semicolon ∷ rest)
        (λ rest. (last_of last.entry ≢ None) × (words_left words.entry ≡ mark_word Semicolon ∷ words_left rest)) }
{
    let _last = last?;
    words.after(Mark::Semicolon)
}

/// The left side of the next body, and the words from the body on.
fn body_follows<'t>(
    words: Cursor<'t>,
    last: Option<LeftSide<'t>>,
) -> Option<(LeftSide<'t>, Cursor<'t>)>
    ensures { MatchOption result ((l : rules.LeftSide) (rest : List Word)
        → BodyFollows (last_of last.entry) (words_left words.entry) l rest → ⊥)
        (λ found. BodyFollows (last_of last.entry) (words_left words.entry) (left_side found.0)
        (words_left found.1)) }
{
    if let Some((name, behind)) = words.name() {
        let left = words.left.len();
        return Some((LeftSide { name, left }, behind.after(Mark::Colon)?));
    }
    Some((last?, words.after(Mark::Bar)?))
}
