//! The command `explain`.
ghost use Rattle.std.specs.Prelude.{◌≡◌, IfErr, IfOk, OnOk, option_map};
ghost use Rattle.ly_explain.specs.Findings.{IsInForm};
ghost use Rattle.ly_base.specs.Limits.{version_2};
ghost use Rattle.ly_explain.specs.Explained.{IsExplained};
ghost use Rattle.lytab.specs.CarriedOut.{drawn_by, form_of, lex_text, paths_of_explain, HasExplained, IsFileIf};
ghost use Rattle.lytab.specs.Devices.{OutputFailuresReported, DoneOrUnchanged};
ghost use Rattle.lytab.specs.Failure.{IsOfDevice};
ghost use Rattle.lytab.specs.Files.{AreOthersKept, AreWritten, set_if};
ghost use Rattle.ly_files.specs.Folder.{Changed, IsFile};

use crate::completion::Completion;
use crate::failure::Failure;
use crate::files::{read_file, write_if_named};
use crate::notes::Notes;
use crate::shown_path::ShownPath;
use ly_base::{Limits, OutOfMemory};
use ly_cli::{ExplainPaths, ReportForm, Strictness};
use ly_explain::{Explanation, Form, NamedFile, Options, explain, explain_grammar};
use ly_files::{FileFault, Folder};
use ly_print::Sink;
use std::alloc::Global;

/// Writes the report of a lex file and a yacc file, or of a yacc file alone, to standard output. If they are accepted,
/// it also writes the states of their parser and a graph of them, if requested. All files are read before anything is
/// judged. `strictness` doesn't change what is written. JSON begins with the verdict and the numbers of conflicts, and
/// SARIF with its version.
pub fn explain_files<'a, D: Folder, W: Sink>(
    folder: &mut D,
    alloc: Global,
    paths: ExplainPaths<'a>,
    strictness: Strictness,
    form: ReportForm,
    output: &mut W,
    notes: &mut Notes,
) -> Result<Completion, Failure<'a>>
    ensures said { DoneOrUnchanged result (W.contents output.old) (W.contents output.new)
        (HasExplained (paths_of_explain paths.entry) strictness form (record {
          files_before = D.holds folder.old;
          files_after = D.holds folder.new;
          before = W.contents output.old;
          after = W.contents output.new;
        }) result) }
    ensures others { Changed (AreOthersKept (drawn_by paths.entry)) (D.holds folder.old) (D.holds folder.new) }
    ensures failed { IfErr result IsOfDevice }
    ensures devices { OutputFailuresReported result output.old output.new (W.failures output.old)
        (W.failures output.new) }
{
    let lex = read_if_named(folder, alloc, paths.lex, notes)?;
    let yacc = read_or_say_why(folder, alloc, paths.yacc, notes)?;
    let options = Options {
        states: paths.states.is_some(),
        picture: paths.graph.is_some(),
        grammar_alone: false,
        form: form_of(form),
    };
    let explanation = explained(alloc, paths, &lex, &yacc, options)?;
    write_files(folder, alloc, paths, &explanation, notes)?;
    Completion::of_findings(&explanation.findings, strictness).said(output, &explanation.text)
}

/// The form of the report.
fn form_of(form: ReportForm) -> Form
    ensures { result ≡ form_of form }
{
    match form {
        ReportForm::Plain => Form::Plain,
        ReportForm::Json => Form::Json,
        ReportForm::Sarif => Form::Sarif,
    }
}

/// The report of these files, under the names that the user gave. Without a lex file it is that of the yacc file alone.
fn explained(
    alloc: Global,
    paths: ExplainPaths<'_>,
    lex: &[u8],
    yacc: &[u8],
    options: Options,
) -> Result<Explanation, OutOfMemory>
    ensures explained { IfOk result (IsExplained version_2 (lex_text (paths_of_explain paths.entry).lex lex.now)
        yacc.now) }
    ensures form { IfOk result (λ e. IsInForm options.form e.findings e.text.items) }
{
    let yacc_name = ShownPath(paths.yacc).text(alloc)?;
    let yacc = NamedFile::new(&yacc_name, yacc);
    match paths.lex {
        Some(path) => {
            let lex_name = ShownPath(path).text(alloc)?;
            explain(
                alloc,
                NamedFile::new(&lex_name, lex),
                yacc,
                &Limits::V2,
                options,
            )
        }
        None => explain_grammar(alloc, yacc, &Limits::V2, options),
    }
}

/// Reads a file whole, if one is named; otherwise returns no bytes.
fn read_if_named<'a, D: Folder>(
    folder: &D,
    alloc: Global,
    path: Option<&'a str>,
    notes: &mut Notes,
) -> Result<Vec<u8>, Failure<'a>>
    ensures read { IfOk result
        (λ bytes. IsFileIf (D.holds folder.now) (option_map (λ p. p.now) path.entry) bytes.items) }
    ensures failed { IfErr result IsOfDevice }
{
    match path {
        Some(path) => read_or_say_why(folder, alloc, path, notes),
        None => Ok(Vec::new(alloc)),
    }
}

/// Writes the states of the parser and a graph of them, if they exist and are requested.
fn write_files<'a, D: Folder>(
    folder: &mut D,
    alloc: Global,
    paths: ExplainPaths<'a>,
    explanation: &Explanation,
    notes: &mut Notes,
) -> Result<(), FileFault<'a>>
    ensures written { OnOk result (AreWritten (λ files. set_if (paths_of_explain paths.entry).graph
        explanation.now.picture (set_if (paths_of_explain paths.entry).states explanation.now.states files))
        (D.holds folder.old) (D.holds folder.new)) }
    ensures others { Changed (AreOthersKept (drawn_by paths.entry)) (D.holds folder.old) (D.holds folder.new) }
{
    write_if_named(folder, alloc, paths.states, &explanation.states, notes)?;
    write_if_named(folder, alloc, paths.graph, &explanation.picture, notes)?;
    Ok(())
}

/// Reads a file whole. A failure has the operating system's reason, if it is known.
fn read_or_say_why<'a, D: Folder>(
    folder: &D,
    alloc: Global,
    path: &'a str,
    notes: &mut Notes,
) -> Result<Vec<u8>, Failure<'a>>
    ensures read { IfOk result (λ bytes. IsFile (D.holds folder.now) path.now bytes.items) }
    ensures failed { IfErr result IsOfDevice }
{
    match read_file(folder, alloc, path, notes) {
        Ok(bytes) => Ok(bytes),
        Err(FileFault::CannotRead(path, Some(reason))) => Err(Failure::Unreadable(path, reason)),
        Err(FileFault::CannotRead(path, None)) => Err(match folder.reason(alloc, path) {
            Some(reason) => Failure::Unreadable(path, reason),
            None => Failure::CannotRead(path),
        }),
        Err(fault) => Err(Failure::from(fault)),
    }
}
