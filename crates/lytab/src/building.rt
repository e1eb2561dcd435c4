//! The command `build`.
ghost use Rattle.std.specs.Prelude.{◌≡◌, IfErr, IfOk, OnOk, Some};
ghost use Rattle.ly_base.specs.Limits.{version_2};
ghost use Rattle.ly_report.specs.Report.{counts_line};
ghost use Rattle.lytab.specs.CarriedOut.{paths_of_build, wanted_for, written_by, HasBuilt};
ghost use Rattle.lytab.specs.Completion.{missed_count};
ghost use Rattle.lytab.specs.Devices.{OutputFailuresReported, DoneOrUnchanged};
ghost use Rattle.lytab.specs.Failure.{IsOfDevice};
ghost use Rattle.lytab.specs.Files.{AreOthersKept, AreWritten, set_if};
ghost use Rattle.ly_files.specs.Folder.{Changed, set};
ghost use Rattle.lytab.specs.Refusal.{IsRefusalOfBuild};

use crate::completion::{Completion, are_expected};
use crate::failure::Failure;
use crate::files::{read_file, write_file, write_if_named};
use crate::notes::Notes;
use ly_base::{Limits, Version};
use ly_cli::Paths;
use ly_engine::{Built, ConflictCounts, ReportRequest, build};
use ly_files::{FileFault, Folder};
use ly_print::Sink;
use ly_report::push_counts;
use ly_text_buffer::NamedFile;
use std::alloc::{AllocError, Global};

/// Writes the table file of a lex file and a yacc file in a version, their report if requested, and the numbers of
/// conflicts to standard output. Both files are read before anything is judged. Nothing is written before all of it is
/// known, or if there are other conflicts than `expected`.
pub fn build_tables<'a, D: Folder, W: Sink>(
    folder: &mut D,
    alloc: Global,
    paths: Paths<'a>,
    version: Version,
    expected: Option<usize>,
    output: &mut W,
    notes: &mut Notes,
) -> Result<Completion, Failure<'a>>
    ensures built { DoneOrUnchanged result (W.contents output.old) (W.contents output.new)
        (HasBuilt version_2 version (paths_of_build paths.entry) expected (record {
          files_before = D.holds folder.old;
          files_after = D.holds folder.new;
          before = W.contents output.old;
          after = W.contents output.new;
        }) result) }
    ensures refused { IfErr result
        (IsRefusalOfBuild version expected (D.holds folder.old) paths.entry.lex.now paths.entry.yacc.now) }
    ensures others { Changed (AreOthersKept (written_by paths.entry)) (D.holds folder.old) (D.holds folder.new) }
    ensures kept { IfErr result (λ f. (IsOfDevice f → ⊥) → D.holds folder.new ≡ D.holds folder.old) }
    ensures devices { OutputFailuresReported result output.old output.new (W.failures output.old)
        (W.failures output.new) }
{
    let lex = read_file(folder, alloc, paths.lex, notes)?;
    let yacc = read_file(folder, alloc, paths.yacc, notes)?;
    let limits = Limits::version_2();
    let built = match build(alloc, &lex, &yacc, &limits, version, wanted(paths.report)) {
        Ok(built) => built,
        Err(fault) => {
            let refused = Err(Failure::of_files(fault, &lex, &yacc));
            let lex = NamedFile::new(paths.lex, &lex);
            let yacc = NamedFile::new(paths.yacc, &yacc);
            notes.explain(alloc, lex, yacc, &limits.within(version), &refused);
            return refused;
        }
    };
    if let Some(expected) = missed_count(expected, &built.conflicts) {
        return Err(Failure::Unexpected(built.conflicts, expected));
    }
    let line = conflicts_line(alloc, &built.conflicts)?;
    write_files(folder, alloc, paths, &built, notes)?;
    Completion::Done.said(output, &line)
}

/// The expected count, if there are other conflicts.
fn missed_count(expected: Option<usize>, conflicts: &ConflictCounts) -> Option<usize>
    ensures { result ≡ missed_count expected conflicts.now }
{
    if are_expected(expected, conflicts) {
        return None;
    }
    expected
}

/// Whether a report is requested: a file is named for it.
fn wanted(path: Option<&str>) -> ReportRequest
    ensures { result ≡ wanted_for path.entry }
{
    match path {
        Some(_) => ReportRequest::Wanted,
        None => ReportRequest::Unwanted,
    }
}

/// The line with the numbers of conflicts.
fn conflicts_line(alloc: Global, conflicts: &ConflictCounts) -> Result<Vec<u8>, AllocError>
    ensures { IfOk result (λ line. line.items ≡ counts_line conflicts.now.shift_reduce conflicts.now.reduce_reduce) }
{
    let mut line = Vec::new(alloc);
    push_counts(&mut line, conflicts)?;
    Ok(line)
}

/// Writes the table file, and the report if requested.
fn write_files<'a, D: Folder>(
    folder: &mut D,
    alloc: Global,
    paths: Paths<'a>,
    built: &Built,
    notes: &mut Notes,
) -> Result<(), FileFault<'a>>
    ensures written { OnOk result (AreWritten (λ files. set_if (paths_of_build paths.entry).report built.now.report
        (set paths.entry.tables.now (Some built.now.tables.items) files)) (D.holds folder.old) (D.holds folder.new)) }
    ensures others { Changed (AreOthersKept (written_by paths.entry)) (D.holds folder.old) (D.holds folder.new) }
{
    write_file(folder, alloc, paths.tables, &built.tables, notes)?;
    write_if_named(folder, alloc, paths.report, &built.report, notes)?;
    Ok(())
}
