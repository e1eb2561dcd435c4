ghost use Rattle.std.specs.Prelude.{◌≡◌, ◌≢◌, ◌⊎◌, ℕ, Err, IfErr, IfOk, IsErrOf, Ok, OnOk};
ghost use Rattle.std.specs.Io.KnownBytes.{IsAtEnd};
ghost use Rattle.ly_print.specs.Device.{next_count, IsFailedWrite, WroteNothing};
ghost use Rattle.ly_base.specs.Limits.{version_2};
ghost use Rattle.ly_base.specs.declared.version.Version.TheVariants.{V2};
ghost use Rattle.ly_drive.specs.Answering.{IsAnsweredBy, IsBegunBy, NeedsMoreInput, IsReadAsNeeded, IsTooLong};
ghost use Rattle.ly_tables.specs.TableSet.{TableSet as Tables};
ghost use Rattle.ly_generate.specs.Accepted.{IsRefusedFor};
ghost use Rattle.ly_engine.specs.AnswerFault.{ReadNothing, failed_write};
ghost use Rattle.ly_generate.specs.Generated.{IsGenerated};
ghost use Rattle.ly_generate.specs.declared.gen_fault.GenFault as code;
ghost use Rattle.ly_generate.specs.declared.gen_fault.GenFault.TheVariants as gen;

use crate::answer_fault::AnswerFault;
use ly_base::{Limits, Version};
use ly_drive::{Outcome, TextFault, run};
use ly_generate::{ReportRequest, file_tables};
use ly_print::{AnswerForm, Sink, Source};
use std::alloc::Global;

/// Parses the text that a reader returns, with a lex file and a yacc file (POSIX, XCU lex and yacc), and writes the
/// output in a form. Nothing is read before the tables are made, and at most 4,096 bytes are read at a time. Nothing is
/// written before the outcome is known, and nothing is read after it is known. So only a tree means that the reader is
/// at its end, and a read that fails was needed.
///
/// Its errors are those of `AnswerFault`.
pub fn answer<R: Source, W: Sink>(
    alloc: Global,
    lex: &[u8],
    yacc: &[u8],
    form: AnswerForm,
    reader: &mut R,
    writer: &mut W,
) -> Result<Outcome, AnswerFault>
    ensures answered { IfOk result (λ o. (s : Tables) × IsGenerated V2 version_2 lex.now yacc.now s
        × IsAnsweredBy form s (R.remaining reader.old) (W.contents writer.old) (W.contents writer.new) o) }
    ensures beginning { (written : ℕ) → result ≡ Err (AnswerFault.Text (TextFault.Write written)) → (s : Tables)
        × IsGenerated V2 version_2 lex.now yacc.now s
        × IsBegunBy form s (R.remaining reader.old) (W.contents writer.old) (W.contents writer.new) written }
    ensures refused { (fault : code.GenFault) → result ≡ Err (AnswerFault.Gen fault)
        → (fault ≢ gen.OutOfMemory) × IsRefusedFor version_2 lex.now yacc.now fault }
    ensures never_faulty { result ≢ Err (AnswerFault.Text TextFault.FaultyTables) }
    ensures long { result ≡ Err (AnswerFault.Text TextFault.TooLong) → IsTooLong (R.remaining reader.old) }
    ensures unread { IfErr result (λ e. ReadNothing e → reader.new ≡ reader.old) }
    ensures ended { result ≡ Ok Outcome.Tree → IsAtEnd (R.remaining reader.new) }
    ensures needed { (IsErrOf result (AnswerFault.Text TextFault.Read) → ⊥) → (reader.new ≡ reader.old)
        ⊎ ((s : Tables) × IsGenerated V2 version_2 lex.now yacc.now s
        × IsReadAsNeeded 4096 s (R.remaining reader.old) (R.remaining reader.new)) }
    ensures asked { IsErrOf result (AnswerFault.Text TextFault.Read) → (s : Tables)
        × IsGenerated V2 version_2 lex.now yacc.now s
        × NeedsMoreInput s (R.remaining reader.old) (R.remaining reader.new) }
    ensures read { IsErrOf result (AnswerFault.Text TextFault.Read)
        → R.failures reader.new ≡ next_count (R.failures reader.old) }
    ensures reader_held { (IsErrOf result (AnswerFault.Text TextFault.Read) → ⊥)
        → R.failures reader.new ≡ R.failures reader.old }
    ensures write { IfErr result (λ e. IsFailedWrite (failed_write e)
        → W.failures writer.new ≡ next_count (W.failures writer.old)) }
    ensures writer_held { OnOk result (W.failures writer.new ≡ W.failures writer.old) }
    ensures untouched { IfErr result (λ e. WroteNothing (failed_write e) → writer.new ≡ writer.old) }
{
    let generated = file_tables(
        alloc,
        lex,
        yacc,
        &Limits::V2,
        Version::V2,
        ReportRequest::Unwanted,
    )?;
    let answered = run(alloc, &generated.set, form, reader, writer);
    drop(generated);
    Ok(answered?)
}
