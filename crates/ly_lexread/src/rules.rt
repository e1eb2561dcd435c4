ghost use Rattle.std.specs.Prelude.{◌≡◌, ◌∷◌, ◌++◌, [], ◌≤◌, ◌<◌, ◌⊎◌, ℕ, List, length, map};
ghost use Rattle.std.specs.Prelude.{IfErr, IfOk, IfSome, MatchBool, MatchOption, OnOk};
ghost use Rattle.std.specs.Rc.{rc_slice_items};
ghost use Rattle.ly_ere.specs.declared.pattern.Rule.{Rule};
ghost use Rattle.ly_ere.specs.Names.{Definition};
ghost use Rattle.ly_lexread.specs.Action.{Saying};
ghost use Rattle.ly_lexread.specs.Conditions.{Condition, inclusive};
ghost use Rattle.ly_lexread.specs.Faults.{IsAtMost, IsTooHeavy};
ghost use Rattle.ly_lexread.specs.LexText.{IsReadAs};
ghost use Rattle.ly_lexread.specs.Private.Rules.{AreSkipped, BeginsWithRule};
ghost use Rattle.ly_lexread.specs.Private.Statements.{saying_of};
ghost use Rattle.ly_lexread.specs.Private.Rules.{AreRulesAt};
ghost use Rattle.ly_lexread.specs.Rules.{AreLight, AreRulesOver, HasHeavyRule, IsHeavyRule, RuleBefore, Rules, Skips};

use crate::action::{Said, read_action};
use crate::active::{Shared, fault_in_list, read_active};
use crate::conditions::Conditions;
use crate::fault::{LexFault, LexFaultKind};
use crate::kind::{LineKind, kind_of};
use crate::names::pattern_fault;
use crate::rest::{Line, Rest};
use crate::skipped::behind_block;
use ly_base::Limits;
use ly_ere::{Names, Rule, read_front};
use std::alloc::{AllocError, Global};
use std::rc::RcSlice;

/// The contents of the rules section.
#[derive(Drop)]
pub(crate) struct Section {
    /// The rules.
    pub(crate) rules: Vec<Rule>,
    /// The action of each rule, as it is written.
    pub(crate) said: Vec<Said>,
    /// The offset of each rule's first byte.
    pub(crate) starts: Vec<usize>,
}

impl Section {
    /// Adds a rule, with its action as it is written and the offset of its first byte.
    fn push(&mut self, rule: Rule, said: Said, start: usize) -> Result<(), AllocError>
        ensures rules { OnOk result (self.new.rules.items ≡ self.old.rules.items ++ rule ∷ []) }
        ensures said { OnOk result (self.new.said.items ≡ self.old.said.items ++ said ∷ []) }
        ensures starts { OnOk result (self.new.starts.items ≡ self.old.starts.items ++ start ∷ []) }
    {
        self.rules.push(rule)?;
        self.said.push(said)?;
        self.starts.push(start)?;
        Ok(())
    }
}

/// Reads the rules, up to a `%%` line or the end.
pub(crate) fn read_rules(
    alloc: Global,
    text: Rest<'_>,
    conditions: &Conditions,
    names: &Names,
    limits: &Limits,
) -> Result<Section, LexFault>
    ensures read { IsReadAs (λ read. (read.rules.items, map saying_of read.said.items, read.starts.items))
        (λ (x : List Rule × List Saying × List ℕ). AreRulesAt text.entry.whole conditions.now names.now
        text.entry.bytes.now x.0 x.1 x.2) (λ x. AreLight limits.now.pattern_weight names.now x.0)
        (HasHeavyRule limits.now.pattern_weight conditions.now names.now text.entry.bytes.now) result }
    ensures within { IfErr result (IsAtMost text.entry.whole) }
{
    let inclusive = RcSlice::from_vec(conditions.inclusive(alloc)?)?;
    let mut left = skip_unused(text)?;
    let mut section = Section {
        rules: Vec::new(alloc),
        said: Vec::new(alloc),
        starts: Vec::new(alloc),
    };
    while begins_with_rule(left) {
        let shared = Shared {
            inclusive: &inclusive,
            before: &section.rules,
        };
        let (rule, saying, behind) = read_rule(alloc, left, conditions, shared, names, limits)?;
        section.push(rule, saying, left.offset())?;
        left = skip_unused(behind)?;
    }
    Ok(section)
}

/// Skips the lines and blocks at the start that are ignored.
fn skip_unused(text: Rest<'_>) -> Result<Rest<'_>, LexFault>
    ensures ok { IfOk result (λ left. AreSkipped text.entry.bytes.now left.bytes.now) }
    ensures settled { IfOk result (λ left. AreRulesOver left.bytes.now ⊎ BeginsWithRule left.bytes.now) }
    ensures shorter { IfOk result (λ left. length left.bytes.now ≤ length text.entry.bytes.now) }
    ensures whole { IfOk result (λ left. left.whole ≡ text.entry.whole) }
    ensures light { IfErr result (λ fault. IsTooHeavy fault → ⊥) }
    ensures refused { IfErr result (λ _. (cs : List Condition) (names : List Definition) (rules : List Rule)
        (sayings : List Saying) (lefts : List ℕ) → Rules cs names text.entry.bytes.now rules sayings lefts → ⊥) }
    ensures within { IfErr result (IsAtMost text.entry.whole) }
{
    let mut left = text;
    while let Some(behind) = behind_unused(left)? {
        left = behind;
    }
    Ok(left)
}

/// Skips the line or the block at the start, if it is ignored.
fn behind_unused(text: Rest<'_>) -> Result<Option<Rest<'_>>, LexFault>
    ensures ok { IfOk result (λ found. MatchOption found
        (AreRulesOver text.entry.bytes.now ⊎ BeginsWithRule text.entry.bytes.now)
        (λ rest. Skips text.entry.bytes.now rest.bytes.now)) }
    ensures shorter { IfOk result (λ found. IfSome found
        (λ rest. length rest.bytes.now < length text.entry.bytes.now)) }
    ensures whole { IfOk result (λ found. IfSome found (λ rest. rest.whole ≡ text.entry.whole)) }
    ensures light { IfErr result (λ fault. IsTooHeavy fault → ⊥) }
    ensures refused { IfErr result (λ _. (cs : List Condition) (names : List Definition) (rules : List Rule)
        (sayings : List Saying) (lefts : List ℕ) → Rules cs names text.entry.bytes.now rules sayings lefts → ⊥) }
    ensures within { IfErr result (IsAtMost text.entry.whole) }
{
    let Some((line, behind)) = text.first_line() else {
        return Ok(None);
    };
    match kind_of(line) {
        LineKind::Unused => Ok(Some(behind)),
        LineKind::Block => match behind_block(behind) {
            Some(rest) => Ok(Some(rest)),
            None => Err(LexFault::Refused {
                kind: LexFaultKind::BadDefinition,
                offset: text.offset(),
            }),
        },
        _ => Ok(None),
    }
}

/// Whether the text starts with a rule.
fn begins_with_rule(text: Rest<'_>) -> bool
    ensures { MatchBool result (BeginsWithRule text.entry.bytes.now) (BeginsWithRule text.entry.bytes.now → ⊥) }
{
    match text.first_line() {
        Some((line, _behind)) => kind_of(line).begins_rule(),
        None => false,
    }
}

/// Reads the rule at the start: its conditions, its pattern, blanks, and its action, which may span lines.
fn read_rule<'t>(
    alloc: Global,
    text: Rest<'t>,
    conditions: &Conditions,
    shared: Shared<'_>,
    names: &Names,
    limits: &Limits,
) -> Result<(Rule, Said, Rest<'t>), LexFault>
    requires begins { BeginsWithRule text.bytes.now }
    requires inclusive { rc_slice_items shared.inclusive.now ≡ inclusive conditions.now }
    ensures read { IsReadAs (λ read. (read.0, saying_of read.1, read.2.bytes.now))
        (λ (x : Rule × Saying × List ℕ). RuleBefore conditions.now names.now text.entry.bytes.now x.0 x.1 x.2)
        (λ x. AreLight limits.now.pattern_weight names.now (x.0 ∷ []))
        (IsHeavyRule limits.now.pattern_weight conditions.now names.now text.entry.bytes.now) result }
    ensures whole { IfOk result (λ read. read.2.whole ≡ text.entry.whole) }
    ensures within { IfErr result (IsAtMost text.entry.whole) }
{
    let line = text.line_bytes();
    let here = Line { bytes: line, text };
    let Some((active, body)) = read_active(alloc, line, conditions, shared)? else {
        let at = fault_in_list(line, conditions);
        return Err(here.fault(LexFaultKind::UnknownCondition, at));
    };
    let (pattern, length) = match read_front(alloc, body, names, limits) {
        Ok(front) => front,
        Err(fault) => return Err(pattern_fault(text.whole, here.left_from(body), fault)),
    };
    let on_line = body.len() - length;
    let (_front, bytes) = text.bytes.split_at(line.len() - on_line);
    let (said, behind) = read_action(alloc, Rest { bytes, ..text }, on_line, conditions)?;
    Ok((Rule { pattern, active }, said, behind))
}
