use crate::advice::Advice;
use crate::edit::if_changed;
use crate::finding::{Finding, Findings, MOST};
use crate::location::from_offset;
use crate::text_marks::{has_byte_order_mark, without_marks};
use crate::yacc_advice::yacc_advice;
use crate::yacc_before::Before;
use crate::yacc_mending::mending;
use ly_base::{Language, OutOfMemory, leading_name, locate};
use ly_generate::GenFault;
use ly_yaccread::{YaccFault, YaccFaultKind, YaccFile, read_yacc};
use std::alloc::Global;

/// A yacc file that was read, with its errors fixed.
#[derive(Drop)]
pub(crate) struct MendedYacc {
    /// Its bytes. Words have the same offsets as in the file, unless bytes were added earlier.
    pub(crate) text: Vec<u8>,
    /// What was read.
    pub(crate) file: YaccFile,
}

/// Finds the errors of a yacc file, and returns the fixed file, if it can be fixed.
pub(crate) fn find_yacc_faults(
    alloc: Global,
    findings: &mut Findings,
    bytes: &[u8],
) -> Result<Option<MendedYacc>, OutOfMemory> {
    let mut text = plain_text(alloc, findings, bytes)?;
    findings.begin_next();
    for mended in 0..=MOST {
        match read_yacc(alloc, &text) {
            Ok(file) => return Ok(Some(MendedYacc { text, file })),
            Err(YaccFault::OutOfMemory) => return Err(OutOfMemory),
            Err(YaccFault::Refused { kind, offset }) => {
                match mend_fault(alloc, findings, &text, kind, offset, mended)? {
                    Some(next) => text = next,
                    None => return Ok(None),
                }
            }
        }
    }
    findings.note_more();
    Ok(None)
}

/// The text without byte-order mark and CRs. If they are an error, it is added.
fn plain_text(
    alloc: Global,
    findings: &mut Findings,
    bytes: &[u8],
) -> Result<Vec<u8>, OutOfMemory> {
    let plain = without_marks(alloc, bytes, b"   ")?;
    if plain.as_slice() != bytes {
        find_mark_fault(alloc, findings, bytes, &plain)?;
    }
    Ok(plain)
}

/// Adds an error, and returns the text in which it is fixed. Returns `None` if there is no fix.
fn mend_fault(
    alloc: Global,
    findings: &mut Findings,
    text: &[u8],
    kind: YaccFaultKind,
    offset: usize,
    mended: usize,
) -> Result<Option<Vec<u8>>, OutOfMemory> {
    let before = Before::of(alloc, text, offset)?;
    findings.add(Finding {
        fault: GenFault::Yacc(YaccFault::Refused { kind, offset }),
        at: locate(text, told_offset(text, kind, offset)),
        advice: yacc_advice(alloc, &before, kind, from_offset(text, offset))?,
    })?;
    let Some(edit) = mending(text, &before, kind, offset, mended) else {
        return Ok(None);
    };
    Ok(if_changed(text, edit.applied(alloc, text)?))
}

/// The offset to report for an error. If a name continues with a byte that names can't have, it is that byte's.
fn told_offset(text: &[u8], kind: YaccFaultKind, offset: usize) -> usize {
    let rest = from_offset(text, offset);
    match (kind, leading_name(rest, Language::Yacc)) {
        (YaccFaultKind::BadRule, Some((name, [0x80..=0xFF, ..]))) => offset.saturating_add(
            name.len(),
        ),
        _ => offset,
    }
}

/// Adds the error that a file has only because of a byte-order mark or CRs.
fn find_mark_fault(
    alloc: Global,
    findings: &mut Findings,
    bytes: &[u8],
    plain: &[u8],
) -> Result<(), OutOfMemory> {
    let Some((kind, offset)) = refusal(alloc, bytes)? else {
        return Ok(());
    };
    if refusal(alloc, plain)? == Some((kind, offset)) {
        return Ok(());
    }
    findings.add(Finding {
        fault: GenFault::Yacc(YaccFault::Refused { kind, offset }),
        at: locate(bytes, offset),
        advice: Advice::of_marks(has_byte_order_mark(bytes)),
    })
}

/// Why a text is rejected, and the offset of the error, if it is rejected.
fn refusal(alloc: Global, text: &[u8]) -> Result<Option<(YaccFaultKind, usize)>, OutOfMemory> {
    match read_yacc(alloc, text) {
        Ok(_) => Ok(None),
        Err(YaccFault::Refused { kind, offset }) => Ok(Some((kind, offset))),
        Err(YaccFault::OutOfMemory) => Err(OutOfMemory),
    }
}
