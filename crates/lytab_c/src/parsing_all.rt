ghost use Rattle.std.specs.Prelude.{◌≡◌, List, None, [], ◌∷◌, ◌++◌, length, IfErr, IfOk, IfSome, OnOk};
ghost use Rattle.lytab_c.specs.Many.{AreAllParsed, AreEnds, IsWrongEnd, TextAnswer};
ghost use Rattle.lytab_c.specs.Private.Answers.{AreAllAnswered, AreAllPut, AreAnsweredBy, AreHeld, IsAnswerBy};
ghost use Rattle.lytab_c.specs.Private.Answers.{IsTablesFault};
ghost use Rattle.lytab_c.specs.Statuses.{status_number};
ghost use Rattle.lytab_c.specs.declared.status.Status.{Status as Code};

use crate::answer_list::AnswerList;
use crate::block::put;
use crate::part::Part;
use crate::report::Report;
use crate::status::Status;
use crate::text_report::TextReport;
use ly_base::OutOfMemory;
use ly_drive::DriveFault;
use ly_feed::TextFault;
use ly_places::{Parsed, TextParser};
use ly_tables::{TableSet, read_tables};
use std::alloc::Global;

/// Parses many texts with a table file, which is read once. The result for each text is what `lytab_parse` returns for
/// it alone. The texts follow one another in `texts`, and `ends` has the offset at which each ends. Their parts follow
/// one another too. So do the expected terminals, of which as many are written as the block holds.
#[unsafe(no_mangle)]
pub extern "C" fn lytab_parse_all(
    alloc: Global,
    tables: &[u8],
    texts: &[u8],
    ends: &[u64],
    told: &mut [TextReport],
    parts: &mut [Part],
    expected: &mut [u32],
    report: &mut Report,
) -> u32
    ensures parsed { (status : Code) × (result ≡ status_number status)
        × AreAllParsed tables.now texts.now ends.now
        (record { told = told.old; parts = parts.old; expected = expected.old })
        (record { told = told.new; parts = parts.new; expected = expected.new }) report.new status }
    ensures told { length told.new ≡ length told.old }
    ensures parts { length parts.new ≡ length parts.old }
    ensures expected { length expected.new ≡ length expected.old }
{
    parse_all_into(alloc, tables, texts, ends, told, parts, expected, report).number()
}

/// Parses many texts with a table file and writes the results to blocks, if they fit.
fn parse_all_into(
    alloc: Global,
    tables: &[u8],
    texts: &[u8],
    ends: &[u64],
    told: &mut [TextReport],
    parts: &mut [Part],
    expected: &mut [u32],
    report: &mut Report,
) -> Status
    ensures { AreAllParsed tables.now texts.now ends.now
        (record { told = told.old; parts = parts.old; expected = expected.old })
        (record { told = told.new; parts = parts.new; expected = expected.new }) report.new result }
{
    if let Some(number) = wrong_end(ends, texts.len()) {
        *report = Report::numbering(number);
        return Status::Misused;
    }
    match answer_all(alloc, tables, texts, ends) {
        Ok(answers) => put_all(&answers, told, parts, expected, report),
        Err(fault) => report.tell_fault(&fault),
    }
}

/// The number of the first end that is before the previous one or past all bytes. The first end has number 1.
fn wrong_end(ends: &[u64], count: usize) -> Option<u64>
    ensures wrong { IfSome result (IsWrongEnd 0 count ends.now) }
    ensures right { result ≡ None → AreEnds 0 count ends.now }
{
    let mut start = 0;
    for (index, end) in ends.iter().enumerate() {
        if *end < start || (count as u64) < *end {
            return Some(index as u64 + 1);
        }
        start = *end;
    }
    None
}

/// The results of a table file for the texts with these ends.
fn answer_all(
    alloc: Global,
    tables: &[u8],
    texts: &[u8],
    ends: &[u64],
) -> Result<AnswerList, DriveFault>
    requires { AreEnds 0 (length texts.now) ends.now }
    ensures answered { IfOk result (AreAllAnswered tables.now texts.now ends.now) }
    ensures fault { IfErr result (IsTablesFault tables.now) }
{
    let (set, _version) = read_tables(alloc, tables)?;
    let answers = answers_by(alloc, &set, texts, ends);
    drop(set);
    match answers {
        Ok(answers) => Ok(answers),
        Err(OutOfMemory) => Err(DriveFault::Text(TextFault::OutOfMemory)),
    }
}

/// The results of a table set for the texts with these ends. Returns an error if memory runs out.
fn answers_by(
    alloc: Global,
    set: &TableSet,
    texts: &[u8],
    ends: &[u64],
) -> Result<AnswerList, OutOfMemory>
    requires { AreEnds 0 (length texts.now) ends.now }
    ensures { IfOk result (AreAnsweredBy set.now texts.now ends.now) }
{
    let parser = TextParser::new(alloc, set)?;
    let mut answers = AnswerList::new(alloc);
    let mut start = 0;
    for end in ends {
        let end = *end as usize;
        answer_next(&parser, &texts[start..end], &mut answers)?;
        start = end;
    }
    Ok(answers)
}

/// Appends the result of a parser for a text. Returns an error if memory runs out.
fn answer_next(
    parser: &TextParser<'_>,
    text: &[u8],
    answers: &mut AnswerList,
) -> Result<(), OutOfMemory>
    ensures { (xs : List TextAnswer) → AreHeld xs answers.old
        → OnOk result ((x : TextAnswer) × IsAnswerBy parser.now text.now x × AreHeld (xs ++ x ∷ []) answers.new) }
{
    match parser.parse(text) {
        Ok(Parsed::Tree(parts)) => answers.push_tree(&parts),
        Ok(Parsed::Refused(syntax_error)) => answers.push_syntax_error(&syntax_error),
        Err(TextFault::FaultyTables) => answers.push_fault(),
        Err(_) => Err(OutOfMemory),
    }
}

/// Writes results to blocks, if they fit, and reports them.
fn put_all(
    answers: &AnswerList,
    told: &mut [TextReport],
    parts: &mut [Part],
    expected: &mut [u32],
    report: &mut Report,
) -> Status
    ensures { (xs : List TextAnswer) → AreHeld xs answers.now
        → AreAllPut xs (record { told = told.old; parts = parts.old; expected = expected.old })
        (record { told = told.new; parts = parts.new; expected = expected.new }) report.new result }
{
    *report = Report {
        expected: answers.expected.len() as u64,
        ..Report::needing(answers.parts.len() as u64)
    };
    if told.len() < answers.texts.len() {
        return Status::Short;
    }
    if parts.len() < answers.parts.len() {
        return Status::Short;
    }
    put(&answers.texts, told);
    put(&answers.parts, parts);
    let count = answers.expected.len().min(expected.len());
    put(&answers.expected[..count], expected);
    Status::Done
}
