//! Reports as SARIF 2.1.0: a log with one run, whose results are the findings.
use crate::form::extent_of;
use ly_analysis::{Analysis, Options, Places};
use ly_base::{Location, OutOfMemory};
use ly_conflicts::write_conflicts;
use ly_lints::{Hiding, Lint, LintKind, file_of, name_of, write_kind};
use ly_text_buffer::{Extent, FindingPlace, TextBuffer};
use std::alloc::Global;

/// The log after its version, up to the first result.
pub(crate) const RESULTS_BEGIN: &[u8] =
    b",\"$schema\":\"https://json.schemastore.org/sarif-2.1.0.json\",\
    \"runs\":[{\"tool\":{\"driver\":{\"name\":\"lytab\",\"rules\":[]}},\"columnKind\":\"unicodeCodePoints\",\
    \"results\":[";

/// The log after its last result.
pub(crate) const RESULTS_END: &[u8] = b"]}]}\n";

/// Prints the log of two accepted files after its version: the conflicts, then the warnings.
pub(crate) fn write_sarif(
    alloc: Global,
    buffer: &mut TextBuffer,
    files: &Analysis<'_>,
    places: &Places,
    lints: &[Lint<'_>],
    options: Options,
) -> Result<(), OutOfMemory> {
    buffer.push(RESULTS_BEGIN);
    write_conflicts(alloc, buffer, files, places, options)?;
    let mut is_first = files.resolved.conflicts().is_empty();
    for lint in lints {
        buffer.push(if is_first { b"" } else { b"," });
        write_lint(buffer, files, lint);
        is_first = false;
    }
    buffer.push(RESULTS_END);
    Ok(())
}

/// Prints a warning as a result.
fn write_lint(buffer: &mut TextBuffer, files: &Analysis<'_>, lint: &Lint<'_>) {
    let mut message = buffer.beside();
    write_kind(&mut message, files, &lint.kind);
    let place = FindingPlace {
        file: file_of(files, lint.side),
        at: lint.at,
        extent: extent_of(&lint.kind),
    };
    buffer.push_sarif_result(b"warning", name_of(&lint.kind), place, message);
    write_related(buffer, files, &lint.kind);
    buffer.push(b"}");
}

/// Prints the other locations of a warning, if it has some.
fn write_related(buffer: &mut TextBuffer, files: &Analysis<'_>, kind: &LintKind<'_>) {
    match kind {
        LintKind::DeclaredAgain { first, .. } => {
            buffer.push(b",\"relatedLocations\":[");
            let place = FindingPlace {
                file: files.yacc,
                at: Some(*first),
                extent: Extent::Word,
            };
            let mut message = buffer.beside();
            message.push(b"the first declaration");
            buffer.push_sarif_related(place, message);
            buffer.push(b"]");
        }
        LintKind::UnmatchedRule(Hiding::Lines(lines)) => {
            buffer.push(b",\"relatedLocations\":[");
            for (number, line) in lines.iter().enumerate() {
                buffer.push(if number > 0 { b"," } else { b"" });
                write_hiding_rule(buffer, files, *line);
            }
            buffer.push(b"]");
        }
        _ => {}
    }
}

/// Prints the location of a rule that matches strings of another one.
fn write_hiding_rule(buffer: &mut TextBuffer, files: &Analysis<'_>, line: u64) {
    let place = FindingPlace {
        file: files.lex,
        at: Some(Location { line, column: 1 }),
        extent: Extent::Line,
    };
    let mut message = buffer.beside();
    message.push(b"this rule matches its strings");
    buffer.push_sarif_related(place, message);
}
