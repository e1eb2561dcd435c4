ghost use Rattle.std.specs.Prelude.{◌≡◌, ◌≢◌, ◌∷◌, ◌++◌, ◌⊎◌, [], ℕ, List, None, true, false, map};
ghost use Rattle.std.specs.Prelude.{IfErr, IfOk, MatchBool, OnOk, length};
ghost use Rattle.ly_ere.specs.Definitions.{AreLightNames};
ghost use Rattle.ly_lexread.specs.Definitions.{DefinedLine};
ghost use Rattle.ly_lexread.specs.Faults.{IsAtMost, IsTooHeavy};
ghost use Rattle.ly_lexread.specs.LexText.{IsReadAs};
ghost use Rattle.ly_lexread.specs.Names.{AreDefinitions, HasHeavyDefinition, IsTextOf};
ghost use Rattle.ly_lexread.specs.Private.Names.{AreCut, IsExtentOf, parts_of};
ghost use Rattle.ly_ere.specs.Faults.{ere_kind};
ghost use Rattle.ly_ere.specs.declared.fault.EreFault.TheVariants as ere;
ghost use Rattle.ly_lexread.specs.Private.Names.{IsPatternFault};
ghost use Rattle.ly_lexread.specs.declared.fault.LexFault.TheVariants.{OutOfMemory};
ghost use Rattle.ly_lexread.specs.declared.fault.LexFaultKind.TheVariants.{BadDefinition};

use crate::blanks::{are_blanks, behind_blanks};
use crate::defined::{NameLine, NameLines};
use crate::fault::{LexFault, LexFaultKind};
use ly_base::Limits;
use ly_ere::{EreFault, NamedText, Names, expression_length, read_names};
use std::alloc::{AllocError, Global};

/// Reads the expressions of the definitions of a file, which may use one another in any order.
///
/// The error on the first line is returned. It is `Pattern` if the text is no expression, has an undefined name, or
/// leads into a cycle; otherwise `BadDefinition` if more than blanks follows the expression. A definition that is too
/// heavy is an error only if there is no other error in the definitions.
pub(crate) fn read_definition_texts(
    alloc: Global,
    file: &[u8],
    definitions: &NameLines<'_>,
    limits: &Limits,
) -> Result<Names, LexFault>
    ensures read { IsReadAs (λ names. names) (AreDefinitions definitions.now) (AreLightNames limits.now.pattern_weight)
        (HasHeavyDefinition limits.now.pattern_weight definitions.now) result }
    ensures within { IfErr result (IsAtMost (length file.now)) }
{
    let lines = definitions.lines();
    let texts = texts_of(alloc, lines)?;
    let names = match read_names(alloc, &texts.list, limits) {
        Ok(names) => names,
        Err((place, fault)) => {
            let fault = pattern_fault(file.len(), text_left(lines, place), fault);
            return Err(texts.first_fault(fault, file));
        }
    };
    match texts.flaw {
        Some(left) => Err(flaw_fault(file, left)),
        None => Ok(names),
    }
}

/// The number of bytes of the file from the text of a line on, by its index in the list; 0 if there is no such line.
fn text_left(lines: &[NameLine<'_>], place: usize) -> usize {
    match lines.get(place) {
        Some(line) => line.text_left,
        None => 0,
    }
}

/// The error of a file of `whole` bytes whose pattern, from which `left` bytes remain, has this error.
pub(crate) fn pattern_fault(whole: usize, left: usize, fault: EreFault) -> LexFault
    ensures memory { fault ≡ ere.OutOfMemory → result ≡ OutOfMemory }
    ensures other { fault ≢ ere.OutOfMemory → IsPatternFault (ere_kind fault) result }
    ensures within { IsAtMost whole result }
{
    match fault {
        EreFault::Refused { kind, offset } => LexFault::Refused {
            kind: LexFaultKind::Pattern(kind),
            offset: whole.saturating_sub(left.saturating_sub(offset)),
        },
        EreFault::OutOfMemory => LexFault::OutOfMemory,
    }
}

/// The error that more than blanks follows the expression of a definition. `left` bytes of the file remain from there
/// on.
fn flaw_fault(file: &[u8], left: usize) -> LexFault
    ensures these { (offset : ℕ) × (result ≡ LexFault.Refused BadDefinition offset) }
    ensures within { IsAtMost (length file.now) result }
{
    LexFault::Refused {
        kind: LexFaultKind::BadDefinition,
        offset: file.len().saturating_sub(left),
    }
}

/// The names of definitions, each with the text of its expression.
#[derive(Drop)]
pub(crate) struct NameTexts<'t> {
    /// The definitions, in the order of the lines.
    list: Vec<NamedText<'t>>,
    /// The number of bytes of the file from the first byte on that isn't a blank and follows an expression, if there is
    /// one.
    flaw: Option<usize>,
}

/// The texts of the expressions on these lines.
fn texts_of<'t>(alloc: Global, lines: &[NameLine<'t>]) -> Result<NameTexts<'t>, AllocError>
    ensures { IfOk result (AreCut (map parts_of lines.now)) }
{
    let mut texts = NameTexts {
        list: Vec::new(alloc),
        flaw: None,
    };
    for line in lines {
        texts.push(*line)?;
    }
    Ok(texts)
}

impl<'t> NameTexts<'t> {
    /// Adds the text of one more line.
    fn push(&mut self, line: NameLine<'t>) -> Result<(), AllocError>
        ensures { (ds : List DefinedLine) → AreCut ds self.old
            → OnOk result (AreCut (ds ++ parts_of line.entry ∷ []) self.new) }
    {
        let (text, is_whole) = expression_in(line.defined.text);
        self.list.push(NamedText {
            name: line.defined.name,
            text,
        })?;
        self.flaw = first_flaw(self.flaw, is_whole, left_behind(line, text));
        Ok(())
    }

    /// The error to report if the expressions have this one.
    fn first_fault(&self, fault: LexFault, file: &[u8]) -> LexFault
        ensures whole { self.now.flaw ≡ None → result ≡ fault }
        ensures flawed { self.now.flaw ≢ None → result ≢ OutOfMemory
            → (result ≡ fault) ⊎ ((offset : ℕ) × (result ≡ LexFault.Refused BadDefinition offset)) }
        ensures light { self.now.flaw ≢ None → IsTooHeavy result → ⊥ }
        ensures within { IsAtMost (length file.now) fault → IsAtMost (length file.now) result }
    {
        match self.flaw {
            None => fault,
            Some(left) => fault.or_earlier(flaw_fault(file, left), file),
        }
    }
}

/// Updates the first such byte after one more line is read.
fn first_flaw(flaw: Option<usize>, is_whole: bool, left: usize) -> Option<usize>
    ensures none { result ≡ None → (flaw ≡ None) × (is_whole ≡ true) }
    ensures some { result ≢ None → (flaw ≢ None) ⊎ (is_whole ≡ false) }
{
    match flaw {
        Some(flaw) => Some(flaw),
        None => { if is_whole { None } else { Some(left) } }
    }
}

/// The number of bytes of the file after the expression on a line and blanks.
fn left_behind(line: NameLine<'_>, expression: &[u8]) -> usize {
    let text = line.defined.text;
    let behind = text.strip_prefix(expression).unwrap_or(b"");
    let left = behind_blanks(behind).unwrap_or(behind);
    let before = text.len().saturating_sub(left.len());
    line.text_left.saturating_sub(before)
}

/// Returns the expression after a name and blanks, and whether only blanks follow it.
fn expression_in(behind: &[u8]) -> (&[u8], bool)
    ensures { MatchBool result.1 (IsExtentOf behind.now result.0.now) ((t : List ℕ) → IsTextOf behind.now t → ⊥) }
{
    let (text, rest) = behind.split_at(expression_length(behind));
    (text, are_blanks(rest))
}
