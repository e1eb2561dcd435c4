ghost use Rattle.std.specs.Prelude.{◌≡◌, OnErr, OnOk};
ghost use Rattle.ly_text_buffer.specs.TextBuffer.{SaysMore};

use crate::advice::Advice;
use crate::causes::{Cause, cause_of};
use crate::exchange::{
    ARE_EXCHANGED, Exchange, READS_AS_LEX, READS_AS_YACC, exchange_of, is_certain,
};
use crate::faults::findings_in;
use crate::finding::Findings;
use crate::telling::{is_of_lex, write_advice_words, write_what, write_words};
use ly_base::{Limits, Location, OutOfMemory};
use ly_generate::GenFault;
use ly_text_buffer::{Extent, FindingPlace, NamedFile, TextBuffer};
use std::alloc::Global;

/// Appends the errors of two files that are rejected with this error, as members of a JSON object: the list of all
/// independent ones, or else of this one, and whether there may be more.
///
/// Returns `OutOfMemory` if an allocation outside the page fails. Then the page is unchanged.
pub fn write_json_faults(
    alloc: Global,
    buffer: &mut TextBuffer,
    lex: NamedFile<'_>,
    yacc: NamedFile<'_>,
    limits: &Limits,
    fault: &GenFault,
) -> Result<(), OutOfMemory>
    ensures ok { OnOk result (SaysMore buffer.old buffer.new) }
    ensures refused { OnErr result (buffer.new ≡ buffer.old) }
{
    let told = told_faults(alloc, lex, yacc, limits, fault)?;
    buffer.push(&told);
    Ok(())
}

/// A page with the errors of two files as JSON.
fn told_faults(
    alloc: Global,
    lex: NamedFile<'_>,
    yacc: NamedFile<'_>,
    limits: &Limits,
    fault: &GenFault,
) -> Result<Vec<u8>, OutOfMemory> {
    let mut buffer = TextBuffer::new(alloc);
    buffer.push_json_key(b"faults");
    buffer.push(b"[");
    let exchange = exchange_of(alloc, lex.bytes, yacc.bytes, limits)?;
    if let Some(exchange) = exchange {
        write_exchange(&mut buffer, lex, yacc, exchange);
    }
    let mut more = false;
    if !is_certain(exchange) {
        buffer.push(if exchange.is_some() { b"," } else { b"" });
        let findings = findings_in(alloc, lex.bytes, yacc.bytes, limits)?;
        write_findings(&mut buffer, lex, yacc, &findings);
        if findings.is_empty() {
            let Cause { at, advice } = cause_of(alloc, lex.bytes, yacc.bytes, limits, fault)?;
            write_fault(&mut buffer, lex, yacc, fault, at, &advice);
        }
        more = findings.has_more();
    }
    buffer.push(if more {
        b"],\"more\":true".as_slice()
    } else {
        b"],\"more\":false"
    });
    buffer.finish()
}

/// Appends the errors that were found.
fn write_findings(
    buffer: &mut TextBuffer,
    lex: NamedFile<'_>,
    yacc: NamedFile<'_>,
    findings: &Findings,
) {
    for (place, found) in findings.list().iter().enumerate() {
        buffer.push(if place > 0 { b"," } else { b"" });
        write_fault(
            buffer,
            lex,
            yacc,
            &found.fault,
            Some(found.at),
            &found.advice,
        );
    }
}

/// Appends that both files seem to be swapped.
fn write_exchange(
    buffer: &mut TextBuffer,
    lex: NamedFile<'_>,
    yacc: NamedFile<'_>,
    exchange: Exchange,
) {
    if exchange.first_is_yacc {
        write_exchanged(buffer, lex, READS_AS_YACC);
    }
    if exchange.first_is_yacc && exchange.second_is_lex {
        buffer.push(b",");
    }
    if exchange.second_is_lex {
        write_exchanged(buffer, yacc, READS_AS_LEX);
    }
}

/// Appends that a file seems to be the other one.
fn write_exchanged(buffer: &mut TextBuffer, file: NamedFile<'_>, words: &[u8]) {
    write_place(buffer, file, None);
    buffer.push(b",\"number\":null,\"name\":\"ExchangedFiles\",\"what\":null");
    buffer.push_json_key(b"text");
    buffer.push_json(words);
    buffer.push_json_key(b"advice");
    buffer.push_json(ARE_EXCHANGED);
    let mut message = buffer.beside();
    message.push(words);
    let place = FindingPlace {
        file,
        at: None,
        extent: Extent::Word,
    };
    buffer.push_json_finding(b"error", b"ExchangedFiles", place, message);
    buffer.push(b"}");
}

/// Appends an error as an object: its location, its number and name, what it is about, its message, and the suggestion.
fn write_fault(
    buffer: &mut TextBuffer,
    lex: NamedFile<'_>,
    yacc: NamedFile<'_>,
    fault: &GenFault,
    at: Option<Location>,
    advice: &Advice,
) {
    write_place(buffer, if is_of_lex(fault) { lex } else { yacc }, at);
    match fault.number() {
        Some(number) => buffer.push_json_number(b"number", u64::from(number)),
        None => buffer.push(b",\"number\":null"),
    }
    buffer.push_json_key(b"name");
    buffer.push_json(fault.name().as_bytes());
    buffer.push_json_key(b"what");
    let mut what = buffer.beside();
    write_what(&mut what, fault);
    if what.is_empty() {
        buffer.push(b"null");
    } else {
        buffer.push_json_buffer(what);
    }
    buffer.push_json_key(b"text");
    let mut words = buffer.beside();
    write_words(&mut words, fault);
    buffer.push_json_buffer(words);
    write_advice(buffer, advice);
    let place = FindingPlace {
        file: if is_of_lex(fault) { lex } else { yacc },
        at,
        extent: Extent::Word,
    };
    write_finding(buffer, place, fault, advice);
    buffer.push(b"}");
}

/// Appends the suggestion, or null.
fn write_advice(buffer: &mut TextBuffer, advice: &Advice) {
    buffer.push_json_key(b"advice");
    if advice.is_nothing() {
        buffer.push(b"null");
    } else {
        let mut words = buffer.beside();
        write_advice_words(&mut words, advice);
        buffer.push_json_buffer(words);
    }
}

/// Appends the members that each finding has, and the fix if a similar name is known.
fn write_finding(
    buffer: &mut TextBuffer,
    place: FindingPlace<'_>,
    fault: &GenFault,
    advice: &Advice,
) {
    let mut message = buffer.beside();
    write_what(&mut message, fault);
    if !message.is_empty() {
        message.push(b": ");
    }
    write_words(&mut message, fault);
    buffer.push_json_finding(b"error", fault.name().as_bytes(), place, message);
    if let Advice::Near(name) = advice {
        buffer.push_json_fix(place, name);
    }
}

/// Appends the start of an object: the file, and the location in it, if there is one.
fn write_place(buffer: &mut TextBuffer, file: NamedFile<'_>, at: Option<Location>) {
    buffer.push(b"{\"file\":");
    buffer.push_json(file.name.as_bytes());
    match at {
        Some(at) => {
            buffer.push_json_number(b"line", at.line);
            buffer.push_json_number(b"column", at.column);
        }
        None => buffer.push(b",\"line\":null,\"column\":null"),
    }
}
