ghost use Rattle.std.specs.Prelude.{IfOk};
ghost use Rattle.ly_explain.specs.Findings.{IsInForm, IsJson, IsSarif};

use crate::surveying::Findings;
use ly_analysis::{Analysis, Form, Options, Places};
use ly_base::{Location, OutOfMemory};
use ly_conflicts::write_conflicts;
use ly_lints::{Hiding, Lint, LintKind, file_of, name_of, write_kind};
use ly_text_buffer::{Extent, FindingPlace, TextBuffer};
use std::alloc::Global;

/// The report on two files in a form. As JSON it begins with whether the files are accepted and with the numbers of
/// conflicts, from `findings`; as SARIF with the version of the format.
pub(crate) fn text_in_form(
    alloc: Global,
    form: Form,
    findings: &Option<Findings>,
    said: Vec<u8>,
) -> Result<Vec<u8>, OutOfMemory>
    ensures { IfOk result (λ text. IsInForm form findings.now text.items) }
{
    match form {
        Form::Plain => Ok(said),
        Form::Json => in_json(alloc, findings, &said),
        Form::Sarif => in_sarif(alloc, &said),
    }
}

/// A report as SARIF, given all of it after the version of the format.
fn in_sarif(alloc: Global, said: &[u8]) -> Result<Vec<u8>, OutOfMemory>
    ensures { IfOk result (λ text. IsSarif text.items) }
{
    let mut buffer = TextBuffer::new(alloc);
    buffer.push(b"{\"version\":\"2.1.0\"");
    buffer.push(said);
    buffer.finish()
}

/// A report as JSON, given all of it after the numbers of conflicts.
fn in_json(alloc: Global, findings: &Option<Findings>, said: &[u8]) -> Result<Vec<u8>, OutOfMemory>
    ensures { IfOk result (λ text. IsJson findings.now text.items) }
{
    let mut buffer = TextBuffer::new(alloc);
    match findings {
        Some(found) => {
            buffer.push(b"{\"accepted\":true,\"counts\":{\"shift_reduce\":");
            buffer.push_number(found.conflicts.shift_reduce as u64);
            buffer.push(b",\"reduce_reduce\":");
            buffer.push_number(found.conflicts.reduce_reduce as u64);
        }
        None => buffer.push(b"{\"accepted\":false,\"counts\":null"),
    }
    buffer.push(said);
    buffer.finish()
}

/// Prints the rest of the object: the sizes of the grammar and its parser, the warnings and the conflicts.
pub(crate) fn write_json(
    alloc: Global,
    buffer: &mut TextBuffer,
    files: &Analysis<'_>,
    places: &Places,
    lints: &[Lint<'_>],
    options: Options,
) -> Result<(), OutOfMemory> {
    let grammar = files.spec.grammar();
    let rules = grammar.rules().len().saturating_sub(1);
    buffer.push_json_number(b"rules", rules as u64);
    buffer.push_json_number(b"terminals", grammar.terminals() as u64);
    buffer.push_json_number(b"nonterminals", grammar.accept().0 as u64);
    buffer.push_json_number(b"states", files.resolved.lr0().states() as u64);
    buffer.push(b"},\"faults\":[],\"more\":false");
    buffer.push_json_key(b"warnings");
    buffer.push(b"[");
    for (place, lint) in lints.iter().enumerate() {
        buffer.push(if place > 0 { b"," } else { b"" });
        write_lint(buffer, files, lint);
    }
    buffer.push(b"]");
    write_conflicts(alloc, buffer, files, places, options)?;
    buffer.push(b"}\n");
    Ok(())
}

/// Prints a warning as an object.
fn write_lint(buffer: &mut TextBuffer, files: &Analysis<'_>, lint: &Lint<'_>) {
    buffer.push(b"{\"file\":");
    buffer.push_json(file_of(files, lint.side).name.as_bytes());
    match lint.at {
        Some(at) => {
            buffer.push_json_number(b"line", at.line);
            buffer.push_json_number(b"column", at.column);
        }
        None => buffer.push(b",\"line\":null,\"column\":null"),
    }
    buffer.push_json_key(b"name");
    buffer.push_json(name_of(&lint.kind));
    buffer.push_json_key(b"text");
    let mut words = buffer.beside();
    write_kind(&mut words, files, &lint.kind);
    buffer.push_json_buffer(words);
    let mut message = buffer.beside();
    write_kind(&mut message, files, &lint.kind);
    let place = FindingPlace {
        file: file_of(files, lint.side),
        at: lint.at,
        extent: extent_of(&lint.kind),
    };
    buffer.push_json_finding(b"warning", name_of(&lint.kind), place, message);
    write_related(buffer, files, &lint.kind);
    buffer.push(b"}");
}

/// How far the span of a warning goes. What a rule of the lex file does is a matter of its whole line.
pub(crate) fn extent_of(kind: &LintKind<'_>) -> Extent {
    match kind {
        LintKind::IndentedLine | LintKind::UnmatchedRule(_) | LintKind::UnnamedLiteral(_) => {
            Extent::Line
        }
        _ => Extent::Word,
    }
}

/// Prints the other places of a warning, if it has some.
fn write_related(buffer: &mut TextBuffer, files: &Analysis<'_>, kind: &LintKind<'_>) {
    match kind {
        LintKind::DeclaredAgain { first, .. } => {
            buffer.push(b",\"related\":[");
            let place = FindingPlace {
                file: files.yacc,
                at: Some(*first),
                extent: Extent::Word,
            };
            let mut message = buffer.beside();
            message.push(b"the first declaration");
            buffer.push_json_related(place, message);
            buffer.push(b"]");
        }
        LintKind::UnmatchedRule(Hiding::Lines(lines)) => {
            buffer.push(b",\"related\":[");
            for (number, line) in lines.iter().enumerate() {
                buffer.push(if number > 0 { b"," } else { b"" });
                write_hiding_rule(buffer, files, *line);
            }
            buffer.push(b"]");
        }
        _ => {}
    }
}

/// Prints the place of a rule that matches strings of another one.
fn write_hiding_rule(buffer: &mut TextBuffer, files: &Analysis<'_>, line: u64) {
    let place = FindingPlace {
        file: files.lex,
        at: Some(Location { line, column: 1 }),
        extent: Extent::Line,
    };
    let mut message = buffer.beside();
    message.push(b"this rule matches its strings");
    buffer.push_json_related(place, message);
}
