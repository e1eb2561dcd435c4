ghost use Rattle.std.specs.Prelude.{◌≡◌, ◌≢◌, ℕ, Err, IfErr, IfOk, IsErrOf, OnOk};
ghost use Rattle.std.specs.Io.KnownBytes.{IsAtEnd};
ghost use Rattle.ly_print.specs.Device.{next_count, IsFailedWrite, WroteNothing};
ghost use Rattle.ly_base.specs.Limits.{version_2};
ghost use Rattle.ly_base.specs.declared.version.Version.TheVariants.{V2};
ghost use Rattle.ly_places.specs.Placing.{IsPlacedFor, IsPlacingBegun};
ghost use Rattle.ly_tables.specs.TableSet.{TableSet as Tables};
ghost use Rattle.ly_generate.specs.Accepted.{IsRefusedFor};
ghost use Rattle.ly_engine.specs.AnswerFault.{ReadNothing, failed_write};
ghost use Rattle.ly_generate.specs.Generated.{IsGenerated};
ghost use Rattle.ly_generate.specs.declared.gen_fault.GenFault as code;
ghost use Rattle.ly_generate.specs.declared.gen_fault.GenFault.TheVariants as gen;

use crate::answer_fault::AnswerFault;
use ly_base::{Limits, Version};
use ly_drive::{Outcome, TextFault};
use ly_generate::{ReportRequest, file_tables};
use ly_places::run_placed;
use ly_print::{Sink, Source};
use std::alloc::Global;

/// Parses the text that a reader returns, with a lex file and a yacc file (POSIX, XCU lex and yacc), and writes the
/// result as a line of JSON with the span of each part. Nothing is read before the tables are made. Then the text is
/// read completely, and nothing is written before the outcome is known.
///
/// Its errors are those of `AnswerFault`, but `FaultyTables` and `TooLong` of the text never occur.
pub fn answer_placed<R: Source, W: Sink>(
    alloc: Global,
    lex: &[u8],
    yacc: &[u8],
    reader: &mut R,
    writer: &mut W,
) -> Result<Outcome, AnswerFault>
    ensures answered { IfOk result (λ o. (s : Tables) × IsGenerated V2 version_2 lex.now yacc.now s
        × IsPlacedFor s (R.remaining reader.old) (W.contents writer.old) (W.contents writer.new) o) }
    ensures beginning { (written : ℕ) → result ≡ Err (AnswerFault.Text (TextFault.Write written)) → (s : Tables)
        × IsGenerated V2 version_2 lex.now yacc.now s
        × IsPlacingBegun s (R.remaining reader.old) (W.contents writer.old) (W.contents writer.new) written }
    ensures refused { (fault : code.GenFault) → result ≡ Err (AnswerFault.Gen fault)
        → (fault ≢ gen.OutOfMemory) × IsRefusedFor version_2 lex.now yacc.now fault }
    ensures never_faulty { result ≢ Err (AnswerFault.Text TextFault.FaultyTables) }
    ensures never_long { result ≢ Err (AnswerFault.Text TextFault.TooLong) }
    ensures unread { IfErr result (λ e. ReadNothing e → reader.new ≡ reader.old) }
    ensures ended { OnOk result (IsAtEnd (R.remaining reader.new)) }
    ensures read { IsErrOf result (AnswerFault.Text TextFault.Read)
        → R.failures reader.new ≡ next_count (R.failures reader.old) }
    ensures reader_held { (IsErrOf result (AnswerFault.Text TextFault.Read) → ⊥)
        → R.failures reader.new ≡ R.failures reader.old }
    ensures write { IfErr result (λ e. IsFailedWrite (failed_write e)
        → W.failures writer.new ≡ next_count (W.failures writer.old)) }
    ensures writer_held { OnOk result (W.failures writer.new ≡ W.failures writer.old) }
    ensures untouched { IfErr result (λ e. WroteNothing (failed_write e) → writer.new ≡ writer.old) }
{
    let generated = file_tables(
        alloc,
        lex,
        yacc,
        &Limits::V2,
        Version::V2,
        ReportRequest::Unwanted,
    )?;
    let answered = run_placed(alloc, &generated.set, reader, writer);
    drop(generated);
    Ok(answered?)
}
