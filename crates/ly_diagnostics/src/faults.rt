ghost use Rattle.std.specs.Prelude.{◌≡◌, OnOk, OnErr};
ghost use Rattle.ly_text_buffer.specs.TextBuffer.{SaysMore};

use crate::causes::{Cause, cause_of};
use crate::exchange::{exchange_of, is_certain, write_exchange};
use crate::finding::Findings;
use crate::join_faults::find_join_faults;
use crate::lex_faults::find_lex_faults;
use crate::telling::{write_fault, write_findings};
use crate::yacc_faults::find_yacc_faults;
use ly_base::{Limits, OutOfMemory};
use ly_generate::GenFault;
use ly_text_buffer::{NamedFile, TextBuffer};
use std::alloc::Global;

/// Appends the errors of two files that are rejected with this error: all independent ones, or else this one.
///
/// Returns `OutOfMemory` if an allocation outside the page fails. Then the page is unchanged.
pub fn write_faults(
    alloc: Global,
    buffer: &mut TextBuffer,
    lex: NamedFile<'_>,
    yacc: NamedFile<'_>,
    limits: &Limits,
    fault: &GenFault,
) -> Result<(), OutOfMemory>
    ensures ok { OnOk result (SaysMore buffer.old buffer.new) }
    ensures refused { OnErr result (buffer.new ≡ buffer.old) }
{
    let told = told_faults(alloc, lex, yacc, limits, fault)?;
    buffer.push(&told);
    Ok(())
}

/// Appends the errors of a lex file that is rejected with this error: all independent ones, or else this one.
///
/// Returns `OutOfMemory` if an allocation outside the page fails. Then the page is unchanged.
pub fn write_lex_faults(
    alloc: Global,
    buffer: &mut TextBuffer,
    lex: NamedFile<'_>,
    limits: &Limits,
    fault: &GenFault,
) -> Result<(), OutOfMemory>
    ensures ok { OnOk result (SaysMore buffer.old buffer.new) }
    ensures refused { OnErr result (buffer.new ≡ buffer.old) }
{
    let mut findings = Findings::new(alloc);
    find_lex_faults(alloc, &mut findings, lex.bytes, limits)?;
    let told = told(alloc, lex, lex, limits, &findings, fault)?;
    buffer.push(&told);
    Ok(())
}

/// A page with the errors of two files, or that both seem to be swapped, or both of these.
fn told_faults(
    alloc: Global,
    lex: NamedFile<'_>,
    yacc: NamedFile<'_>,
    limits: &Limits,
    fault: &GenFault,
) -> Result<Vec<u8>, OutOfMemory> {
    let mut buffer = TextBuffer::new(alloc);
    let exchange = exchange_of(alloc, lex.bytes, yacc.bytes, limits)?;
    if let Some(exchange) = exchange {
        write_exchange(&mut buffer, lex, yacc, exchange);
    }
    if !is_certain(exchange) {
        let findings = findings_in(alloc, lex.bytes, yacc.bytes, limits)?;
        buffer.push(&told(alloc, lex, yacc, limits, &findings, fault)?);
    }
    buffer.finish()
}

/// A page with the errors found in two files, or else this one.
fn told(
    alloc: Global,
    lex: NamedFile<'_>,
    yacc: NamedFile<'_>,
    limits: &Limits,
    findings: &Findings,
    fault: &GenFault,
) -> Result<Vec<u8>, OutOfMemory> {
    let mut buffer = TextBuffer::new(alloc);
    if findings.is_empty() {
        let Cause { at, advice } = cause_of(alloc, lex.bytes, yacc.bytes, limits, fault)?;
        write_fault(&mut buffer, lex, yacc, fault, at, &advice);
    } else {
        write_findings(&mut buffer, lex, yacc, findings);
    }
    buffer.finish()
}

/// Finds the errors in the bytes of both files.
pub(crate) fn findings_in(
    alloc: Global,
    lex: &[u8],
    yacc: &[u8],
    limits: &Limits,
) -> Result<Findings, OutOfMemory> {
    let mut findings = Findings::new(alloc);
    let lex_file = find_lex_faults(alloc, &mut findings, lex, limits)?;
    let yacc_file = find_yacc_faults(alloc, &mut findings, yacc)?;
    if let (Some(lex_file), Some(yacc_file)) = (lex_file, yacc_file) {
        find_join_faults(alloc, &mut findings, &lex_file, &yacc_file, limits)?;
    }
    Ok(findings)
}
