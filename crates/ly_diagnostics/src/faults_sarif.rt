//! Errors as results of SARIF.
ghost use Rattle.std.specs.Prelude.{◌≡◌, OnErr, OnOk};
ghost use Rattle.ly_text_buffer.specs.TextBuffer.{SaysMore};

use crate::advice::Advice;
use crate::causes::{Cause, cause_of};
use crate::exchange::{
    ARE_EXCHANGED, Exchange, READS_AS_LEX, READS_AS_YACC, exchange_of, is_certain,
};
use crate::faults::findings_in;
use crate::finding::Findings;
use crate::telling::{is_of_lex, write_advice_words, write_what, write_words};
use ly_base::{Limits, Location, OutOfMemory};
use ly_generate::GenFault;
use ly_text_buffer::{Extent, FindingPlace, NamedFile, TextBuffer};
use std::alloc::Global;

/// Appends the errors of two files that are rejected with this error, as results of SARIF with commas between them: all
/// independent ones, or else this one.
///
/// Returns `OutOfMemory` if an allocation outside the page fails. Then the page is unchanged.
pub fn write_sarif_faults(
    alloc: Global,
    buffer: &mut TextBuffer,
    lex: NamedFile<'_>,
    yacc: NamedFile<'_>,
    limits: &Limits,
    fault: &GenFault,
) -> Result<(), OutOfMemory>
    ensures ok { OnOk result (SaysMore buffer.old buffer.new) }
    ensures refused { OnErr result (buffer.new ≡ buffer.old) }
{
    let results = results_of(alloc, lex, yacc, limits, fault)?;
    buffer.push(&results);
    Ok(())
}

/// A page with the errors of two files.
fn results_of(
    alloc: Global,
    lex: NamedFile<'_>,
    yacc: NamedFile<'_>,
    limits: &Limits,
    fault: &GenFault,
) -> Result<Vec<u8>, OutOfMemory> {
    let mut buffer = TextBuffer::new(alloc);
    let exchange = exchange_of(alloc, lex.bytes, yacc.bytes, limits)?;
    if let Some(exchange) = exchange {
        write_exchange(&mut buffer, lex, yacc, exchange);
    }
    if !is_certain(exchange) {
        buffer.push(if exchange.is_some() { b"," } else { b"" });
        let findings = findings_in(alloc, lex.bytes, yacc.bytes, limits)?;
        write_findings(&mut buffer, lex, yacc, &findings);
        if findings.is_empty() {
            let Cause { at, advice } = cause_of(alloc, lex.bytes, yacc.bytes, limits, fault)?;
            write_fault(&mut buffer, lex, yacc, fault, at, &advice);
        }
    }
    buffer.finish()
}

/// Appends the errors that were found.
fn write_findings(
    buffer: &mut TextBuffer,
    lex: NamedFile<'_>,
    yacc: NamedFile<'_>,
    findings: &Findings,
) {
    for (number, found) in findings.list().iter().enumerate() {
        buffer.push(if number > 0 { b"," } else { b"" });
        write_fault(
            buffer,
            lex,
            yacc,
            &found.fault,
            Some(found.at),
            &found.advice,
        );
    }
}

/// Appends that both files seem to be swapped.
fn write_exchange(
    buffer: &mut TextBuffer,
    lex: NamedFile<'_>,
    yacc: NamedFile<'_>,
    exchange: Exchange,
) {
    if exchange.first_is_yacc {
        write_exchanged(buffer, lex, READS_AS_YACC);
    }
    if exchange.first_is_yacc && exchange.second_is_lex {
        buffer.push(b",");
    }
    if exchange.second_is_lex {
        write_exchanged(buffer, yacc, READS_AS_LEX);
    }
}

/// Appends that a file seems to be the other one.
fn write_exchanged(buffer: &mut TextBuffer, file: NamedFile<'_>, words: &[u8]) {
    let mut message = buffer.beside();
    message.push(words);
    message.push(b"\n");
    message.push(ARE_EXCHANGED);
    let place = FindingPlace {
        file,
        at: None,
        extent: Extent::Word,
    };
    buffer.push_sarif_result(b"error", b"ExchangedFiles", place, message);
    buffer.push(b"}");
}

/// Appends an error: its name, its message with the suggestion on a line of its own, its location, and the fix if a
/// similar name is known.
fn write_fault(
    buffer: &mut TextBuffer,
    lex: NamedFile<'_>,
    yacc: NamedFile<'_>,
    fault: &GenFault,
    at: Option<Location>,
    advice: &Advice,
) {
    let mut message = buffer.beside();
    write_what(&mut message, fault);
    if !message.is_empty() {
        message.push(b": ");
    }
    write_words(&mut message, fault);
    if !advice.is_nothing() {
        message.push(b"\n");
        write_advice_words(&mut message, advice);
    }
    let place = FindingPlace {
        file: if is_of_lex(fault) { lex } else { yacc },
        at,
        extent: Extent::Word,
    };
    buffer.push_sarif_result(b"error", fault.name().as_bytes(), place, message);
    if let Advice::Near(name) = advice {
        buffer.push_sarif_fix(place, name);
    }
    buffer.push(b"}");
}
