ghost use Rattle.std.specs.Prelude.{◌≡◌, ◌≤◌, IsSome, map, string_bytes, true};
ghost use Rattle.ly_cli.specs.CommandLine.{line_takes, request_of, Mean};
ghost use Rattle.ly_cli.specs.Command.{said};
ghost use Rattle.ly_cli.specs.Paths.{AskFor};
ghost use Rattle.ly_cli.specs.Request.{Request};
ghost use Rattle.lytab.specs.CarriedOut.{HasPerformed, IsCarriedOut, IsStatusOf};
ghost use Rattle.lytab.specs.Devices.{IsOutputAfter};
ghost use Rattle.lytab.specs.Files.{AreFilesLeft};

use crate::answering::{Rules, answer_text};
use crate::building::build_tables;
use crate::checking::check_tables;
use crate::completion::Completion;
use crate::explaining::explain_files;
use crate::failure::{Failure, NO_MEMORY, told};
use crate::files::read_file;
use crate::notes::Notes;
use crate::remembering::Recall;
use ly_base::{Limits, OutOfMemory};
use ly_cli::{Command, CommandFault, read_command};
use ly_files::Folder;
use ly_print::{Sink, Source};
use ly_text_buffer::NamedFile;
use std::alloc::Global;
use std::io::Write;

const BAD_WORDS: u8 = 4;

/// Carries out what the arguments ask for, and returns the exit status. The status is 0 for a text without syntax
/// error, a build, files that are explained and accepted, or a help text. It is 1 for a syntax error, or for accepted
/// files with warnings or conflicts that aren't allowed. It is 2 if a lex file, a yacc file or a table file is
/// rejected, 3 for a read or write error or if memory runs out, and 4 for a usage error. The output goes to `output`,
/// and the line of a failure to `faults`. The report of explained files is output too, even if they are rejected.
///
/// The files are those of a folder, and what is known of them is known of what is read and written: the paths that the
/// arguments name are read, a table file, a report and drawings are written to their paths, and each other file stays
/// as it is. Of the host's files nothing is known. Only tests show what is written to `faults`.
pub fn perform<D: Folder, R: Source + Recall, W: Sink, E: Write>(
    folder: &mut D,
    alloc: Global,
    words: &[String],
    input: &mut R,
    output: &mut W,
    faults: &mut E,
) -> u8
    ensures status { result ≤ 4 }
    ensures words { line_takes (map string_bytes words.now) ≡ true → IsSome (request_of (map string_bytes words.now))
        → result ≤ 3 }
    ensures taken { (request : Request) → AskFor (map string_bytes words.now) request → result ≤ 3 }
    ensures performed { (request : Request) → Mean (map string_bytes words.now) request
        → HasPerformed request (record {
          input_before = input.old;
          input_after = input.new;
          given = R.remaining input.old;
          left = R.remaining input.new;
          files_before = D.holds folder.old;
          files_after = D.holds folder.new;
          before = W.contents output.old;
          after = W.contents output.new;
        }) (W.failures output.old) (W.failures output.new) result }
    ensures bad { result ≡ 4 → (D.holds folder.new ≡ D.holds folder.old) × (input.new ≡ input.old)
        × (output.new ≡ output.old) }
{
    match read_command(alloc, words) {
        Ok(command) => {
            let mut notes = Notes::new(alloc, &command);
            let ended = carry_out(folder, alloc, command, input, output, &mut notes);
            let status = concluded(alloc, ended, notes.finish(), faults);
            status
        }
        Err(CommandFault::Help(text)) => {
            let said = Completion::Done.said(output, text.as_bytes());
            concluded(alloc, said, Ok(Vec::new(alloc)), faults)
        }
        Err(CommandFault::Bad(text)) => {
            let _ = write!(faults, "{text}");
            BAD_WORDS
        }
        Err(CommandFault::OutOfMemory) => {
            concluded(
                alloc,
                Err(Failure::OutOfMemory),
                Ok(Vec::new(alloc)),
                faults,
            )
        }
    }
}

/// The exit status of a command with this result. If it failed, the line of the failure is written, and in any case
/// what `--where` requests. Without memory for that, the failure is out of memory; the line that says so is also
/// written if the command succeeded.
fn concluded<E: Write>(
    alloc: Global,
    ended: Result<Completion, Failure<'_>>,
    notes: Result<Vec<u8>, OutOfMemory>,
    faults: &mut E,
) -> u8
    ensures range { result ≤ 3 }
    ensures status { IsStatusOf result ended.entry }
{
    match ended {
        Ok(completion) => {
            let _ = match notes {
                Ok(notes) => faults.write_all(&notes),
                Err(OutOfMemory) => faults.write_all(NO_MEMORY),
            };
            completion.status()
        }
        Err(failure) => told(alloc, failure, notes, faults),
    }
}

/// Carries out a command. The files that it reads are opened in the order of the arguments. All but the text are read
/// whole before anything is judged.
fn carry_out<'a, D: Folder, R: Source + Recall, W: Sink>(
    folder: &mut D,
    alloc: Global,
    command: Command<'a>,
    input: &mut R,
    output: &mut W,
    notes: &mut Notes,
) -> Result<Completion, Failure<'a>>
    ensures carried_out { IsCarriedOut (said command.entry) result (record {
      input_before = input.old;
      input_after = input.new;
      given = R.remaining input.old;
      left = R.remaining input.new;
      files_before = D.holds folder.old;
      files_after = D.holds folder.new;
      before = W.contents output.old;
      after = W.contents output.new;
    }) }
    ensures files { AreFilesLeft (said command.entry) result (D.holds folder.old) (D.holds folder.new) }
    ensures devices { IsOutputAfter (said command.entry) result output.old output.new (W.failures output.old)
        (W.failures output.new) }
{
    match command {
        Command::Tokens { lex, text, by } => {
            let bytes = read_file(folder, alloc, lex, notes)?;
            let rules = Rules::Tokens {
                lex: &bytes,
                form: by.form,
            };
            let ended = answer_text(folder, alloc, rules, text, input, output, notes);
            notes.explain_lex(alloc, NamedFile::new(lex, &bytes), &ended);
            ended
        }
        Command::TableTokens { tables, text, by } => {
            let bytes = read_file(folder, alloc, tables, notes)?;
            let rules = Rules::TableTokens {
                tables: &bytes,
                form: by.form,
            };
            let ended = answer_text(folder, alloc, rules, text, input, output, notes);
            notes.explain_tables(tables, &ended);
            ended
        }
        Command::Run { tables, text, by } => {
            let bytes = read_file(folder, alloc, tables, notes)?;
            let rules = Rules::Tables {
                tables: &bytes,
                form: by.form,
            };
            let ended = answer_text(folder, alloc, rules, text, input, output, notes);
            notes.explain_tables(tables, &ended);
            ended
        }
        Command::Lines { tables, text, by } => {
            let bytes = read_file(folder, alloc, tables, notes)?;
            let rules = Rules::Lines {
                tables: &bytes,
                form: by.form,
            };
            let ended = answer_text(folder, alloc, rules, text, input, output, notes);
            notes.explain_tables(tables, &ended);
            ended
        }
        Command::RunPlaced { tables, text, .. } => {
            let bytes = read_file(folder, alloc, tables, notes)?;
            let rules = Rules::TablesPlaced(&bytes);
            let ended = answer_text(folder, alloc, rules, text, input, output, notes);
            notes.explain_tables(tables, &ended);
            ended
        }
        Command::TryPlaced {
            lex,
            yacc,
            text,
            ..
        } => {
            let lex_bytes = read_file(folder, alloc, lex, notes)?;
            let yacc_bytes = read_file(folder, alloc, yacc, notes)?;
            let rules = Rules::BothPlaced {
                lex: &lex_bytes,
                yacc: &yacc_bytes,
            };
            let ended = answer_text(folder, alloc, rules, text, input, output, notes);
            let lex = NamedFile::new(lex, &lex_bytes);
            let yacc = NamedFile::new(yacc, &yacc_bytes);
            notes.explain(alloc, lex, yacc, &Limits::V2, &ended);
            ended
        }
        Command::Try {
            lex,
            yacc,
            text,
            by,
        } => {
            let lex_bytes = read_file(folder, alloc, lex, notes)?;
            let yacc_bytes = read_file(folder, alloc, yacc, notes)?;
            let rules = Rules::Both {
                lex: &lex_bytes,
                yacc: &yacc_bytes,
                form: by.form,
            };
            let ended = answer_text(folder, alloc, rules, text, input, output, notes);
            let lex = NamedFile::new(lex, &lex_bytes);
            let yacc = NamedFile::new(yacc, &yacc_bytes);
            notes.explain(alloc, lex, yacc, &Limits::V2, &ended);
            ended
        }
        Command::Build {
            paths,
            version,
            expected,
            ..
        } => { build_tables(folder, alloc, paths, version, expected, output, notes) }
        Command::Check { tables, by } => {
            let ended = check_tables(folder, alloc, tables, by.form, output, notes);
            notes.explain_tables(tables, &ended);
            ended
        }
        Command::Explain {
            paths,
            strictness,
            form,
        } => { explain_files(folder, alloc, paths, strictness, form, output, notes) }
    }
}
