//! The command `check`.
ghost use Rattle.std.specs.Prelude.{◌≡◌, ◌++◌, IfErr, IfOk, OnOk, string_bytes};
ghost use Rattle.std.specs.Fmt.{decimal};
ghost use Rattle.lytab.specs.CarriedOut.{counts_json, HasCounts, HasChecked, set_json, set_line};
ghost use Rattle.lytab.specs.CarriedOut.{set_told, version_number};
ghost use Rattle.lytab.specs.Devices.{OutputFailuresReported, DoneOrUnchanged};
ghost use Rattle.lytab.specs.Refusal.{IsRefusalOfCheck};
ghost use Rattle.ly_tables.specs.Refusal.{IsRefusedAs};

use crate::completion::Completion;
use crate::failure::Failure;
use crate::files::read_file;
use crate::notes::Notes;
use ly_base::Version;
use ly_files::Folder;
use ly_print::{AnswerForm, Sink};
use ly_tables::{SetCounts, TableFault, counts, read_tables};
use std::alloc::{AllocError, Global};
use std::fmt::Write;

/// Reads a table file, and writes its sizes to standard output; as JSON its version too.
pub fn check_tables<'a, D: Folder, W: Sink>(
    folder: &D,
    alloc: Global,
    path: &'a str,
    form: AnswerForm,
    output: &mut W,
    notes: &mut Notes,
) -> Result<Completion, Failure<'a>>
    ensures checked { DoneOrUnchanged result (W.contents output.old) (W.contents output.new)
        (HasChecked form path.now (D.holds folder.now) (W.contents output.old) (W.contents output.new) result) }
    ensures refused { IfErr result (IsRefusalOfCheck (D.holds folder.now) path.now) }
    ensures devices { OutputFailuresReported result output.old output.new (W.failures output.old)
        (W.failures output.new) }
{
    let bytes = read_file(folder, alloc, path, notes)?;
    let (counts, version) = counts_of(alloc, &bytes)?;
    let line = line_in(alloc, form, &counts, version)?;
    Completion::Done.said(output, line.as_bytes())
}

/// The sizes and the version of the table file with these bytes.
fn counts_of(alloc: Global, bytes: &[u8]) -> Result<(SetCounts, Version), TableFault>
    ensures counted { IfOk result (λ found. HasCounts bytes.now found.1 found.0) }
    ensures refused { IfErr result (IsRefusedAs bytes.now) }
{
    let (set, version) = read_tables(alloc, bytes)?;
    let counted = counts(&set);
    drop(set);
    Ok((counted, version))
}

/// The line with the sizes of the file, in a form. As JSON it has the version too.
fn line_in(
    alloc: Global,
    form: AnswerForm,
    counts: &SetCounts,
    version: Version,
) -> Result<String, AllocError>
    ensures { IfOk result (λ line. string_bytes line ≡ set_told form counts.now version) }
{
    match form {
        AnswerForm::Plain => line_of(alloc, counts),
        AnswerForm::Json => json_of(alloc, counts, version),
    }
}

/// The line with the sizes of the file.
fn line_of(alloc: Global, counts: &SetCounts) -> Result<String, AllocError>
    ensures { IfOk result (λ line. string_bytes line ≡ set_line counts.now) }
{
    let mut line = String::from_str(alloc, "tables: ")?;
    push_count(&mut line, counts.terminals, " terminals, ")?;
    push_count(&mut line, counts.nonterminals, " nonterminals, ")?;
    push_count(&mut line, counts.scanner_rules, " scanner rules, ")?;
    push_count(&mut line, counts.scanner_states, " scanner states, ")?;
    push_count(&mut line, counts.rules, " rules, ")?;
    push_count(&mut line, counts.parser_states, " parser states\n")?;
    Ok(line)
}

/// The sizes and the version of the file as JSON.
fn json_of(alloc: Global, counts: &SetCounts, version: Version) -> Result<String, AllocError>
    ensures { IfOk result (λ line. string_bytes line ≡ set_json counts.now version) }
{
    let mut line = json_text_of(alloc, counts)?;
    push_count(&mut line, number_of(version), "}\n")?;
    Ok(line)
}

/// The same JSON up to the number of the version.
fn json_text_of(alloc: Global, counts: &SetCounts) -> Result<String, AllocError>
    ensures { IfOk result (λ line. string_bytes line ≡ counts_json counts.now) }
{
    let mut line = String::from_str(alloc, "{\"terminals\":")?;
    push_count(&mut line, counts.terminals, ",\"nonterminals\":")?;
    push_count(&mut line, counts.nonterminals, ",\"scanner_rules\":")?;
    push_count(&mut line, counts.scanner_rules, ",\"scanner_states\":")?;
    push_count(&mut line, counts.scanner_states, ",\"rules\":")?;
    push_count(&mut line, counts.rules, ",\"parser_states\":")?;
    push_count(&mut line, counts.parser_states, ",\"version\":")?;
    Ok(line)
}

/// The number of a version of table files.
fn number_of(version: Version) -> usize
    ensures { result ≡ version_number version }
{
    match version {
        Version::V1 => 1,
        Version::V2 => 2,
    }
}

/// Appends a number and what it counts.
fn push_count(line: &mut String, count: usize, of: &str) -> Result<(), AllocError>
    ensures { OnOk result (string_bytes line.new ≡ string_bytes line.old ++ (decimal count ++ of.now)) }
{
    write!(line, "{count}{of}")
}
