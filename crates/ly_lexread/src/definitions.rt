ghost use Rattle.std.specs.Prelude.{◌≡◌, ◌-◌, ◌<◌, ℕ, length, IfErr, IfOk, IfSome, List, MatchOption};
ghost use Rattle.ly_lexread.specs.Definitions.{at_first, DefinitionLine, Definitions, DirectiveLine, Says};
ghost use Rattle.ly_lexread.specs.Lines.{left_in};
ghost use Rattle.ly_lexread.specs.Faults.{IsAtMost, IsTooHeavy};
ghost use Rattle.ly_lexread.specs.Private.Definitions.{preamble_of, Adds, Ends, IsDirected, IsFound};
ghost use Rattle.ly_lexread.specs.declared.fault.LexFault.TheVariants.{OutOfMemory};

use crate::conditions::Conditions;
use crate::defined::{NameLine, NameLines, definition_on, misplaced_in};
use crate::directive::read_directive;
use crate::fault::{LexFault, LexFaultKind};
use crate::kind::{LineKind, kind_of};
use crate::names::read_definition_texts;
use crate::rest::{Line, Rest};
use crate::skipped::{behind_block, behind_comment};
use ly_base::Limits;
use std::alloc::{AllocError, Global};

/// The contents of the definitions section.
#[derive(Drop)]
pub(crate) struct Preamble<'t> {
    /// The start conditions.
    pub(crate) conditions: Conditions,
    /// The lines that define names.
    pub(crate) definitions: NameLines<'t>,
}

impl<'t> Preamble<'t> {
    /// Returns the contents before the first line.
    fn new(alloc: Global) -> Result<Self, AllocError>
        ensures { IfOk result (λ preamble. preamble_of preamble ≡ at_first) }
    {
        Ok(Preamble {
            conditions: Conditions::new(alloc)?,
            definitions: NameLines::new(alloc),
        })
    }

    /// Adds a line of this kind.
    fn with_line(self, alloc: Global, kind: LineKind, line: Line<'t>) -> Result<Self, LexFault>
        ensures these { IsDirected (λ preamble. Adds kind (preamble_of self.entry) line.entry.text.bytes.now
            line.entry.bytes.now (preamble_of preamble)) result }
        ensures within { IfErr result (IsAtMost line.entry.text.whole) }
    {
        match kind {
            LineKind::Directive => self.directed(alloc, line),
            LineKind::Plain => self.with_name(alloc, line),
            LineKind::Mark | LineKind::Unused | LineKind::Block | LineKind::Comment => Ok(self),
        }
    }

    /// Adds a line that begins with `%`.
    fn directed(self, alloc: Global, line: Line<'_>) -> Result<Self, LexFault>
        ensures these { IsDirected (λ preamble. ((preamble_of preamble).definitions ≡ self.entry.definitions)
            × DirectiveLine (left_in line.entry.text.bytes.now line.entry.bytes.now) self.entry.conditions
            line.entry.bytes.now (preamble_of preamble).conditions) result }
        ensures within { IfErr result (IsAtMost line.entry.text.whole) }
    {
        let conditions = read_directive(alloc, line, self.conditions)?;
        Ok(Preamble {
            conditions,
            definitions: self.definitions,
        })
    }

    /// Adds a line that defines a name.
    fn with_name(self, alloc: Global, line: Line<'t>) -> Result<Self, LexFault>
        ensures these { IsDirected (λ preamble. ((preamble_of preamble).conditions ≡ self.entry.conditions)
            × DefinitionLine (length line.entry.text.bytes.now) self.entry.definitions line.entry.bytes.now
            (preamble_of preamble).definitions) result }
        ensures within { IfErr result (IsAtMost line.entry.text.whole) }
    {
        let Some(defined) = definition_on(line.bytes) else {
            drop(self);
            return Err(line.fault(LexFaultKind::BadDefinition, misplaced_in(line.bytes)));
        };
        if self.definitions.defines(defined.name) {
            drop(self);
            return Err(line.fault(LexFaultKind::BadDefinition, line.bytes));
        }
        let named = NameLine::of(defined, line);
        let definitions = self.definitions.with_line(alloc, named)?;
        Ok(Preamble {
            conditions: self.conditions,
            definitions,
        })
    }
}

/// Reads the definitions section and the `%%` line that ends it. Returns its contents and what follows.
pub(crate) fn read_definitions<'t>(
    alloc: Global,
    text: Rest<'t>,
) -> Result<(Preamble<'t>, Rest<'t>), LexFault>
    ensures these { IsFound (Definitions at_first text.entry.bytes.now) (λ read. preamble_of read.0)
        (λ read. read.1.bytes.now) result }
    ensures whole { IfOk result (λ read. read.1.whole ≡ text.entry.whole) }
    ensures within { IfErr result (IsAtMost text.entry.whole) }
{
    let mut preamble = Preamble::new(alloc)?;
    let mut left = text;
    while let Some((line, behind)) = left.first_line() {
        if kind_of(line).is_mark() {
            return Ok((preamble, behind));
        }
        (preamble, left) = read_definition_line(alloc, left, preamble)?;
    }
    Err(LexFault::Refused {
        kind: LexFaultKind::NoRulesMark,
        offset: text.last_offset(),
    })
}

/// Reads the first line and the lines that belong to it. Returns the contents after them and what follows.
fn read_definition_line<'t>(
    alloc: Global,
    text: Rest<'t>,
    preamble: Preamble<'t>,
) -> Result<(Preamble<'t>, Rest<'t>), LexFault>
    ensures these { IsFound (Says (preamble_of preamble.entry) text.entry.bytes.now) (λ read. preamble_of read.0)
        (λ read. read.1.bytes.now) result }
    ensures shorter { IfOk result (λ read. length read.1.bytes.now < length text.entry.bytes.now) }
    ensures whole { IfOk result (λ read. read.1.whole ≡ text.entry.whole) }
    ensures within { IfErr result (IsAtMost text.entry.whole) }
{
    let fault = LexFault::Refused {
        kind: LexFaultKind::BadDefinition,
        offset: text.offset(),
    };
    let Some((line, behind)) = text.first_line() else {
        drop(preamble);
        return Err(fault);
    };
    let kind = kind_of(line);
    let Some(rest) = behind_definition(kind, text, behind) else {
        drop(preamble);
        return Err(fault);
    };
    let line = Line { bytes: line, text };
    Ok((preamble.with_line(alloc, kind, line)?, rest))
}

/// The error to report if a line of the definitions, or the missing `%%`, has this one. The text of a definition on an
/// earlier line may also be wrong, and it may use names that are defined after that line.
pub(crate) fn first_fault(
    alloc: Global,
    text: Rest<'_>,
    fault: LexFault,
    limits: &Limits,
) -> LexFault
    ensures memory { fault ≡ OutOfMemory → result ≡ OutOfMemory }
    ensures light { (IsTooHeavy fault → ⊥) → IsTooHeavy result → ⊥ }
    ensures within { IsAtMost (length text.entry.bytes.now) fault
        → IsAtMost (length text.entry.bytes.now) result }
{
    match named_lines(alloc, text) {
        Ok(definitions) => {
            let read = read_definition_texts(alloc, text.bytes, &definitions, limits);
            drop(definitions);
            match read {
                Ok(names) => {
                    drop(names);
                    fault
                }
                Err(earlier) => earlier.or_earlier(fault, text.bytes),
            }
        }
        Err(error) => LexFault::from(error),
    }
}

/// The lines up to the `%%` that define names, only the first for each name. Malformed lines are left out.
fn named_lines<'t>(alloc: Global, text: Rest<'t>) -> Result<NameLines<'t>, AllocError> {
    let mut definitions = NameLines::new(alloc);
    let mut left = text;
    while let Some((line, behind)) = left.first_line() {
        let kind = kind_of(line);
        let Some(rest) = behind_definition(kind, left, behind) else {
            break;
        };
        if let LineKind::Plain = kind {
            definitions = with_first(
                alloc,
                definitions,
                Line {
                    bytes: line,
                    text: left,
                },
            )?;
        }
        left = rest;
    }
    Ok(definitions)
}

/// Returns what follows a line of the definitions and the lines that belong to it. `None` if it is a `%%`, or a block
/// or comment that isn't closed.
fn behind_definition<'t>(kind: LineKind, text: Rest<'t>, behind: Rest<'t>) -> Option<Rest<'t>>
    requires { length behind.bytes.now < length text.bytes.now }
    ensures these { MatchOption result
        ((rest : List ℕ) → Ends kind text.entry.bytes.now behind.entry.bytes.now rest → ⊥)
        (λ rest. Ends kind text.entry.bytes.now behind.entry.bytes.now rest.bytes.now) }
    ensures shorter { IfSome result (λ rest. length rest.bytes.now < length text.entry.bytes.now) }
    ensures whole { behind.entry.whole ≡ text.entry.whole → IfSome result (λ rest. rest.whole ≡ text.entry.whole) }
{
    match kind {
        LineKind::Mark => None,
        LineKind::Block => behind_block(behind),
        LineKind::Comment => behind_comment(text),
        LineKind::Unused | LineKind::Directive | LineKind::Plain => Some(behind),
    }
}

/// Adds a line if it is the first that defines its name.
fn with_first<'t>(
    alloc: Global,
    definitions: NameLines<'t>,
    line: Line<'t>,
) -> Result<NameLines<'t>, AllocError> {
    match definition_on(line.bytes) {
        Some(defined) if !definitions.defines(defined.name) => {
            definitions.with_line(alloc, NameLine::of(defined, line))
        }
        _ => Ok(definitions),
    }
}
