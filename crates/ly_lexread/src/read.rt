ghost use Rattle.std.specs.Prelude.{◌≡◌, ◌-◌, ◌≤◌, ℕ, List, length, map, IfErr, IfOk, MatchOption};
ghost use Rattle.ly_lexread.specs.Action.{AreEffects, Effect};
ghost use Rattle.ly_lexread.specs.Faults.{IsAtMost};
ghost use Rattle.ly_lexread.specs.LexText.{IsHeavyBehind, IsLight, IsRead, IsReadAs};
ghost use Rattle.ly_lexread.specs.Private.Definitions.{preamble_of};
ghost use Rattle.ly_lexread.specs.Private.File.{IsBehind, IsFileOf, IsStatedIn};
ghost use Rattle.ly_lexread.specs.Private.Statements.{saying_of};

use crate::action::Said;
use crate::defined::NameLine;
use crate::definitions::{Preamble, first_fault, read_definitions};
use crate::fault::{LexFault, LexFaultKind};
use crate::file::{LexFile, StartCondition};
use crate::names::read_definition_texts;
use crate::rest::Rest;
use crate::rules::{Section, read_rules};
use crate::shared::share_actions;
use ly_base::Limits;
use ly_ere::Names;
use std::alloc::{AllocError, Global};

/// Parses a lex file (POSIX, XCU lex): definitions, a line that begins with `%%`, and rules. What follows a second such
/// line is ignored.
///
/// The error on the first line is returned, and on one line the leftmost:
/// - `NoRulesMark`: no line begins with `%%`.
/// - `BadDefinition`: a line of the definitions is malformed or defines a name again, or a block or comment isn't
///   closed.
/// - `ConditionTwice`: a condition is declared again.
/// - `UnknownCondition`: a condition isn't declared, or a `<..>` is malformed.
/// - `Pattern`: a pattern, or the expression of a definition, is rejected. A definition that is too heavy is reported
///   only if the definitions have no other error.
/// - `BadAction`: an action is malformed.
/// - `BarAtEnd`: no rule follows a `|`.
/// - `OutOfMemory`: an allocation failed.
pub fn read_lex(alloc: Global, bytes: &[u8], limits: &Limits) -> Result<LexFile, LexFault>
    ensures read { IsRead limits.now.pattern_weight bytes.now result }
    ensures within { IfErr result (IsAtMost (length bytes.now)) }
{
    let text = Rest::of(bytes);
    match read_definitions(alloc, text) {
        Ok((preamble, behind)) => {
            let read = read_behind(alloc, bytes, &preamble, behind, limits);
            drop(preamble);
            read
        }
        Err(fault) => Err(first_fault(alloc, text, fault, limits)),
    }
}

/// Parses what follows the definitions of a lex file. The errors are those that `read_lex` reports for the expressions
/// of definitions and for rules.
fn read_behind(
    alloc: Global,
    bytes: &[u8],
    preamble: &Preamble<'_>,
    behind: Rest<'_>,
    limits: &Limits,
) -> Result<LexFile, LexFault>
    requires { behind.whole ≡ length bytes.now }
    ensures read { IsReadAs (λ file. file)
        (IsBehind (length bytes.now) (preamble_of preamble.now) behind.entry.bytes.now)
        (IsLight limits.now.pattern_weight)
        (IsHeavyBehind limits.now.pattern_weight (preamble_of preamble.now) behind.entry.bytes.now) result }
    ensures within { IfErr result (IsAtMost (length bytes.now)) }
{
    let names = read_definition_texts(alloc, bytes, &preamble.definitions, limits)?;
    let section = read_rules(alloc, behind, &preamble.conditions, &names, limits)?;
    let bar = bar_offset(&section.said, bytes.len());
    let stated = stated_in(alloc, preamble, bytes.len())?;
    match file_of(alloc, names, section, stated)? {
        Some(file) => Ok(file),
        None => Err(LexFault::Refused {
            kind: LexFaultKind::BarAtEnd,
            offset: bar,
        }),
    }
}

/// The offset of the `|` of the last rule in a file of `whole` bytes, or `whole` if it has none.
fn bar_offset(said: &[Said], whole: usize) -> usize
    ensures { result ≤ whole }
{
    match said.last() {
        Some(Said::Next(left)) => whole.saturating_sub(*left),
        _ => whole,
    }
}

/// The contents of the definitions section without the names: the conditions, and the offsets of the lines that define
/// names.
#[derive(Drop)]
pub(crate) struct Stated {
    /// The number of start conditions.
    conditions: u32,
    /// The start conditions, in the order of their numbers.
    start_conditions: Vec<StartCondition>,
    /// The offset of each line that defines a name.
    starts: Vec<usize>,
}

/// Converts the definitions of a file of `whole` bytes.
fn stated_in(alloc: Global, preamble: &Preamble<'_>, whole: usize) -> Result<Stated, AllocError>
    ensures { IfOk result (IsStatedIn whole (preamble_of preamble.now)) }
{
    Ok(Stated {
        conditions: preamble.conditions.count(),
        start_conditions: preamble.conditions.named(alloc, whole)?,
        starts: starts_of(alloc, preamble.definitions.lines(), whole)?,
    })
}

/// The offsets of these lines in a file of `whole` bytes.
fn starts_of(alloc: Global, lines: &[NameLine<'_>], whole: usize) -> Result<Vec<usize>, AllocError>
    ensures { IfOk result (λ starts. starts.items ≡ map (λ l. whole - l.left) lines.now) }
{
    let mut starts = Vec::new(alloc);
    for line in lines {
        starts.push(whole.saturating_sub(line.left))?;
    }
    Ok(starts)
}

/// Builds the lex file of these definitions and rules. `None` if the last rule has the action `|`.
fn file_of(
    alloc: Global,
    names: Names,
    section: Section,
    stated: Stated,
) -> Result<Option<LexFile>, AllocError>
    ensures { IfOk result (λ said. MatchOption said
        ((es : List Effect) → AreEffects (map saying_of section.said.items) es → ⊥)
        (IsFileOf names section (map saying_of section.said.items) stated)) }
{
    let Section {
        rules,
        said,
        starts,
    } = section;
    match share_actions(alloc, said)? {
        Some(actions) => Ok(Some(LexFile {
            names,
            rules,
            actions,
            conditions: stated.conditions,
            start_conditions: stated.start_conditions,
            rule_starts: starts,
            definition_starts: stated.starts,
        })),
        None => Ok(None),
    }
}
