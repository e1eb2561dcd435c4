ghost use Rattle.std.specs.Prelude.{◌≡◌, ◌⊎◌, ◌++◌, false, true};
ghost use Rattle.ly_generate.specs.declared.gen_fault.GenFault.TheVariants as gen;
ghost use Rattle.ly_lexread.specs.declared.fault.LexFault as lex_fault;
ghost use Rattle.ly_text_buffer.specs.TextBuffer.{Says, SaysMore};
ghost use Rattle.ly_diagnostics.specs.Telling.{fault_words, place_words, SaysFirst};
ghost use Rattle.ly_yaccread.specs.declared.fault.YaccFault as yacc_fault;

use crate::advice::Advice;
use crate::finding::Findings;
use ly_base::Location;
use ly_generate::GenFault;
use ly_join::{JoinFault, Limit};
use ly_text_buffer::{MARGIN, NamedFile, TextBuffer};

/// Appends the errors that were found.
pub(crate) fn write_findings(
    buffer: &mut TextBuffer,
    lex: NamedFile<'_>,
    yacc: NamedFile<'_>,
    findings: &Findings,
) {
    for found in findings.list() {
        write_fault(
            buffer,
            lex,
            yacc,
            &found.fault,
            Some(found.at),
            &found.advice,
        );
    }
    if findings.has_more() {
        buffer.push(b"there may be more errors after these\n");
    }
}

/// Appends an error of one of two files.
pub(crate) fn write_fault(
    buffer: &mut TextBuffer,
    lex: NamedFile<'_>,
    yacc: NamedFile<'_>,
    fault: &GenFault,
    at: Option<Location>,
    advice: &Advice,
)
    ensures told { SaysFirst buffer.old (place_words lex.entry.name.now at ++ fault_words fault.now) buffer.new
        ⊎ SaysFirst buffer.old (place_words yacc.entry.name.now at ++ fault_words fault.now) buffer.new }
    ensures of_lex { (f : lex_fault.LexFault) → fault.now ≡ gen.Lex f
        → SaysFirst buffer.old (place_words lex.entry.name.now at ++ fault_words fault.now) buffer.new }
    ensures of_yacc { (f : yacc_fault.YaccFault) → fault.now ≡ gen.Yacc f
        → SaysFirst buffer.old (place_words yacc.entry.name.now at ++ fault_words fault.now) buffer.new }
{
    if is_of_lex(fault) {
        write_fault_of(buffer, lex, fault, at, advice);
    } else {
        write_fault_of(buffer, yacc, fault, at, advice);
    }
}

/// Appends an error of a file: its location, its number, its name and its message, the line with a caret under the
/// byte, and the suggestion.
fn write_fault_of(
    buffer: &mut TextBuffer,
    file: NamedFile<'_>,
    fault: &GenFault,
    at: Option<Location>,
    advice: &Advice,
)
    ensures { SaysFirst buffer.old (place_words file.entry.name.now at ++ fault_words fault.now) buffer.new }
{
    write_place(buffer, file, at);
    write_number_and_name(buffer, fault);
    write_rest(buffer, file, fault, at, advice);
}

/// Appends the location in a file, if there is one.
fn write_place(buffer: &mut TextBuffer, file: NamedFile<'_>, at: Option<Location>)
    ensures { Says buffer.old (place_words file.entry.name.now at) buffer.new }
{
    match at {
        Some(at) => buffer.push_location_in(file, at),
        None => {
            buffer.push(file.name.as_bytes());
            buffer.push(b": ");
        }
    }
}

/// Appends `error: `, the number of an error, if it has one, and its name.
fn write_number_and_name(buffer: &mut TextBuffer, fault: &GenFault)
    ensures { Says buffer.old (fault_words fault.now) buffer.new }
{
    buffer.push(b"error: ");
    if let Some(number) = fault.number() {
        buffer.push_number(u64::from(number));
        buffer.push(b" ");
    }
    buffer.push(fault.name().as_bytes());
}

/// Appends what an error is about and its message, the line with a caret, and the suggestion.
fn write_rest(
    buffer: &mut TextBuffer,
    file: NamedFile<'_>,
    fault: &GenFault,
    at: Option<Location>,
    advice: &Advice,
)
    ensures { SaysMore buffer.old buffer.new }
{
    let mut rest = buffer.beside();
    write_heading(&mut rest, fault);
    if let Some(at) = at {
        rest.push_excerpt(file, at);
    }
    write_advice(&mut rest, advice);
    buffer.push_buffer(rest);
}

/// Whether an error is one of the lex file.
pub(crate) fn is_of_lex(fault: &GenFault) -> bool
    ensures lex { (f : lex_fault.LexFault) → fault.now ≡ gen.Lex f → result ≡ true }
    ensures yacc { (f : yacc_fault.YaccFault) → fault.now ≡ gen.Yacc f → result ≡ false }
{
    matches!(
        fault,
        GenFault::Lex(_)
            | GenFault::Positions(_)
            | GenFault::States(_)
            | GenFault::Join(
                JoinFault::ReturnUndeclared(_)
                    | JoinFault::LimitPassed {
                        which: Limit::LexRules | Limit::Conditions,
                    }
            )
    )
}

/// Appends what an error is about, and its message.
fn write_heading(buffer: &mut TextBuffer, fault: &GenFault) {
    let mut what = buffer.beside();
    write_what(&mut what, fault);
    if !what.is_empty() {
        buffer.push(b" ");
        buffer.push_buffer(what);
    }
    buffer.push(b": ");
    write_words(buffer, fault);
    buffer.push(b"\n");
}

/// Appends what an error is about, unless its message has it.
pub(crate) fn write_what(buffer: &mut TextBuffer, fault: &GenFault) {
    match fault {
        GenFault::Join(fault) => write_at_fault(buffer, fault),
        GenFault::Endless { name, .. } => {
            buffer.push(b"before ");
            buffer.push(name);
        }
        _ => {}
    }
}

/// Appends the message of an error.
pub(crate) fn write_words(buffer: &mut TextBuffer, fault: &GenFault) {
    match fault {
        GenFault::Lex(fault) => buffer.push_words(fault),
        GenFault::Yacc(fault) => buffer.push_words(fault),
        fault => buffer.push_words(fault),
    }
}

/// Appends what an error of both files is about.
fn write_at_fault(buffer: &mut TextBuffer, fault: &JoinFault) {
    match fault {
        JoinFault::UndefinedSymbol(name)
        | JoinFault::TokenOnLeft(name)
        | JoinFault::UnknownStart(name)
        | JoinFault::ReturnUndeclared(name)
        | JoinFault::PrecUnknown(name) => buffer.push(name),
        JoinFault::PrecedenceTwice(terminal) => buffer.push_terminal_name(terminal),
        JoinFault::LimitPassed { which } => buffer.push(which.name().as_bytes()),
        JoinFault::NoRules | JoinFault::OutOfMemory => {}
    }
}

/// Appends the suggestion on its own line.
fn write_advice(buffer: &mut TextBuffer, advice: &Advice) {
    if !advice.is_nothing() {
        buffer.push(MARGIN);
        write_advice_words(buffer, advice);
        buffer.push(b"\n");
    }
}

/// Appends the suggestion.
pub(crate) fn write_advice_words(buffer: &mut TextBuffer, advice: &Advice) {
    match advice {
        Advice::Nothing => {}
        Advice::Words(words) => buffer.push(words.as_bytes()),
        Advice::Made(words) => buffer.push(words),
        Advice::Near(name) => {
            buffer.push(b"did you mean ");
            buffer.push(name);
            buffer.push(b"?");
        }
    }
}
