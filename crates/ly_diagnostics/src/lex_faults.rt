use crate::advice::Advice;
use crate::edit::if_changed;
use crate::finding::{Finding, Findings, MOST};
use crate::lex_advice::lex_advice;
use crate::lex_mending::mended;
use crate::lex_units::unit_at;
use crate::location::is_newline;
use crate::text_marks::{has_byte_order_mark, without_marks};
use ly_base::{Limits, OutOfMemory, locate};
use ly_generate::GenFault;
use ly_lexread::{LexAction, LexFault, LexFaultKind, LexFile, read_lex};
use std::alloc::Global;

/// A lex file that was read, with its errors fixed.
#[derive(Drop)]
pub(crate) struct MendedLex {
    /// Its bytes, with the same lines as the file.
    pub(crate) text: Vec<u8>,
    /// The action of each rule. Joining needs nothing else.
    pub(crate) actions: Vec<LexAction>,
    /// The offset in `text` of the first byte of each rule.
    pub(crate) rule_starts: Vec<usize>,
}

impl MendedLex {
    /// A lex file with these bytes, which were read as this.
    fn of(text: Vec<u8>, file: LexFile) -> MendedLex {
        let LexFile {
            actions,
            rule_starts,
            ..
        } = file;
        MendedLex {
            text,
            actions,
            rule_starts,
        }
    }
}

/// Finds the errors of a lex file, and returns the fixed file, if it can be fixed.
pub(crate) fn find_lex_faults(
    alloc: Global,
    findings: &mut Findings,
    bytes: &[u8],
    limits: &Limits,
) -> Result<Option<MendedLex>, OutOfMemory> {
    let mut text = plain_text(alloc, findings, bytes, limits)?;
    for _ in 0..=MOST {
        match read_lex(alloc, &text, limits) {
            Ok(file) => return Ok(Some(MendedLex::of(text, file))),
            Err(LexFault::OutOfMemory) => return Err(OutOfMemory),
            Err(LexFault::Refused { kind, offset }) => {
                match mend_fault(alloc, findings, &text, kind, offset)? {
                    Some(next) => text = next,
                    None => return Ok(None),
                }
            }
        }
    }
    findings.note_more();
    Ok(None)
}

/// The text without byte-order mark and CRs. If they are an error, it is added.
fn plain_text(
    alloc: Global,
    findings: &mut Findings,
    bytes: &[u8],
    limits: &Limits,
) -> Result<Vec<u8>, OutOfMemory> {
    let plain = without_marks(alloc, bytes, b"")?;
    if plain.as_slice() != bytes {
        find_mark_fault(alloc, findings, bytes, &plain, limits)?;
    }
    Ok(plain)
}

/// Adds an error, and returns the text in which it is fixed. Returns `None` if there is no fix.
fn mend_fault(
    alloc: Global,
    findings: &mut Findings,
    text: &[u8],
    kind: LexFaultKind,
    offset: usize,
) -> Result<Option<Vec<u8>>, OutOfMemory> {
    let at = locate(text, offset);
    let unit = unit_at(text, at.line);
    let has_rules = has_rules(text);
    let advice = if has_rules {
        lex_advice(alloc, text, unit, kind, at)?
    } else {
        Advice::Words("no line begins with `%%`: write one before the first rule")
    };
    findings.add(Finding {
        fault: GenFault::Lex(LexFault::Refused { kind, offset }),
        at,
        advice,
    })?;
    if !has_rules {
        return Ok(None);
    }
    Ok(if_changed(text, mended(alloc, text, unit, kind)?))
}

/// Whether a line begins with `%%`.
fn has_rules(text: &[u8]) -> bool {
    text.split(is_newline).any(|line| line.starts_with(b"%%"))
}

/// Adds the error that a file has only because of a byte-order mark or CRs.
fn find_mark_fault(
    alloc: Global,
    findings: &mut Findings,
    bytes: &[u8],
    plain: &[u8],
    limits: &Limits,
) -> Result<(), OutOfMemory> {
    let Some((kind, offset)) = refusal(alloc, bytes, limits)? else {
        return Ok(());
    };
    let at = locate(bytes, offset);
    if let Some((same, other)) = refusal(alloc, plain, limits)?
        && same == kind
        && locate(plain, other).line == at.line
    {
        return Ok(());
    }
    findings.add(Finding {
        fault: GenFault::Lex(LexFault::Refused { kind, offset }),
        at,
        advice: Advice::of_marks(has_byte_order_mark(bytes)),
    })
}

/// Why a text is rejected, and the offset of the error, if it is rejected.
fn refusal(
    alloc: Global,
    text: &[u8],
    limits: &Limits,
) -> Result<Option<(LexFaultKind, usize)>, OutOfMemory> {
    match read_lex(alloc, text, limits).err() {
        None => Ok(None),
        Some(LexFault::Refused { kind, offset }) => Ok(Some((kind, offset))),
        Some(LexFault::OutOfMemory) => Err(OutOfMemory),
    }
}
