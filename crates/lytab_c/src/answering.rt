ghost use Rattle.std.specs.Prelude.{◌≡◌, IfErr, IfOk, length};
ghost use Rattle.ly_print.specs.declared.answer_form.AnswerForm.TheVariants.{Json, Plain};
ghost use Rattle.lytab_c.specs.Answered.{IsOutput, IsOutputOrReport};
ghost use Rattle.lytab_c.specs.Faults.{IsFaultOn};
ghost use Rattle.lytab_c.specs.Private.Putting.{FitsOutcome, IsAnswerPut};
ghost use Rattle.lytab_c.specs.Statuses.{status_number};
ghost use Rattle.lytab_c.specs.declared.status.Status.{Status as Code};

use crate::block::put;
use crate::report::Report;
use crate::status::Status;
use crate::text_source::TextSource;
use ly_drive::{DriveFault, Outcome, drive};
use ly_print::{AnswerForm, MemSink};
use std::alloc::Global;

/// Parses a text with a table file and writes the bytes that `lytab run` writes: one line for a tree, two for a syntax
/// error at a token.
#[unsafe(no_mangle)]
pub extern "C" fn lytab_answer(
    alloc: Global,
    tables: &[u8],
    text: &[u8],
    answer: &mut [u8],
    report: &mut Report,
) -> u32
    ensures answered { (status : Code) × (result ≡ status_number status)
        × IsOutputOrReport Plain tables.now text.now answer.old answer.new report.new status }
    ensures length { length answer.new ≡ length answer.old }
{
    answer_into(alloc, AnswerForm::Plain, tables, text, answer, report).number()
}

/// Parses a text with a table file and writes the line of JSON that `lytab run --json` writes.
#[unsafe(no_mangle)]
pub extern "C" fn lytab_json(
    alloc: Global,
    tables: &[u8],
    text: &[u8],
    answer: &mut [u8],
    report: &mut Report,
) -> u32
    ensures answered { (status : Code) × (result ≡ status_number status)
        × IsOutputOrReport Json tables.now text.now answer.old answer.new report.new status }
    ensures length { length answer.new ≡ length answer.old }
{
    answer_into(alloc, AnswerForm::Json, tables, text, answer, report).number()
}

/// Parses a text with a table file and writes the output in a form to a block, if it fits.
fn answer_into(
    alloc: Global,
    form: AnswerForm,
    tables: &[u8],
    text: &[u8],
    block: &mut [u8],
    report: &mut Report,
) -> Status
    ensures { IsOutputOrReport form tables.now text.now block.old block.new report.new result }
{
    match answer_to(alloc, form, tables, text) {
        Ok((outcome, answer)) => put_answer(&outcome, &answer, block, report),
        Err(fault) => report.tell_fault(&fault),
    }
}

/// Returns the outcome and the output of a text with a table file, in a form.
fn answer_to(
    alloc: Global,
    form: AnswerForm,
    tables: &[u8],
    text: &[u8],
) -> Result<(Outcome, Vec<u8>), DriveFault>
    ensures answered { IfOk result (λ told. IsOutput form tables.now text.now told.0 told.1.items) }
    ensures fault { IfErr result (IsFaultOn tables.now text.now) }
{
    let mut source = TextSource::new(text);
    let mut sink = MemSink::new(alloc);
    let outcome = drive(alloc, tables, form, &mut source, &mut sink)?;
    Ok((outcome, sink.into_bytes()))
}

/// Writes the output to a block, if it fits, and reports it.
fn put_answer(outcome: &Outcome, answer: &[u8], block: &mut [u8], report: &mut Report) -> Status
    requires { FitsOutcome outcome.now }
    ensures { IsAnswerPut outcome.now answer.now block.old block.new report.new result }
{
    let needed = answer.len() as u64;
    if block.len() < answer.len() {
        *report = Report::needing(needed);
        return Status::Short;
    }
    put(answer, block);
    *report = Report::of_outcome(outcome, needed);
    match outcome {
        Outcome::Tree => Status::Done,
        Outcome::Syntax { .. } | Outcome::NoRule { .. } => Status::Refused,
    }
}
