ghost use Rattle.std.specs.Prelude.{◌≡◌, ◌≢◌, ◌<◌, ℕ, [], ◌∷◌, ◌++◌, length, List, Option, Err};
ghost use Rattle.std.specs.Prelude.{IfErr, IfOk, IsErrOf, OnOk};
ghost use Rattle.std.specs.Io.KnownBytes.{IsAtEnd};
ghost use Rattle.ly_print.specs.Device.{next_count, IsFailedWrite, WroteNothing};
ghost use Rattle.ly_drive.specs.Answering.{IsDriven, IsTooLong};
ghost use Rattle.ly_drive.specs.DriveFault as drive;
ghost use Rattle.ly_drive.specs.DriveFault.{IsOfFile};
ghost use Rattle.ly_drive.specs.Lines.{AreAnsweredBehind, AreLinesAnswered, AreLinesStopped, IsAnsweredSoFar};
ghost use Rattle.ly_drive.specs.Private.Lines.{AreEnded, AreTaken};
ghost use Rattle.ly_drive.specs.declared.lines_outcome.LinesOutcome.TheVariants.{AllTrees};
ghost use Rattle.ly_feed.specs.TextFault.{IsOfEnding, failed_write};
ghost use Rattle.ly_feed.specs.declared.text_fault.TextFault as text;
ghost use Rattle.ly_feed.specs.declared.text_fault.TextFault.TheVariants.{OutOfMemory};
ghost use Rattle.ly_tables.specs.Refusal.{IsRefusedAs};
ghost use Rattle.ly_tables.specs.TableSet.{TableSet as Tables};
ghost use Rattle.ly_tables.specs.declared.fault.TableFault as file;
ghost use Rattle.ly_tables.specs.declared.fault.TableFault.TheVariants.{OutOfMemory as NoMemory};

use crate::driving::PIECE;
use crate::fault::DriveFault;
use crate::line::answer_line;
use crate::lines_outcome::LinesOutcome;
use ly_feed::{Prepared, TextFault};
use ly_print::{AnswerForm, Sink, Source};
use ly_tables::{TableSet, a_file_has_one_set, read_tables};
use std::alloc::Global;

/// Parses each line of the text from a reader as a text of its own, with the bytes of a table file, and writes its
/// result in a form. The text is read after the table file has been checked, at most 4,096 bytes at a time. A complete
/// line is parsed before more is read.
///
/// The errors are those of `DriveFault`. Before an error, the results of the preceding lines have been written.
pub fn drive_lines<R: Source, W: Sink>(
    alloc: Global,
    tables: &[u8],
    form: AnswerForm,
    reader: &mut R,
    writer: &mut W,
) -> Result<LinesOutcome, DriveFault>
    ensures answered { IfOk result (λ o. (s : Tables) × IsDriven tables.now s
        × AreLinesAnswered form s (R.remaining reader.old) (W.contents writer.old) (W.contents writer.new) o) }
    ensures ended { OnOk result (IsAtEnd (R.remaining reader.new)) }
    ensures stopped { (s : Tables) → IsDriven tables.now s → (fault : text.TextFault)
        → result ≡ Err (DriveFault.Text fault)
        → AreLinesStopped form s (R.remaining reader.old) (W.contents writer.old) (W.contents writer.new) fault }
    ensures spelled { (fault : text.TextFault) → result ≡ Err (DriveFault.Text fault) → fault ≢ OutOfMemory
        → (s : Tables) × IsDriven tables.now s }
    ensures refused { (fault : file.TableFault) → result ≡ Err (DriveFault.Tables fault)
        → (fault ≢ NoMemory) × IsRefusedAs tables.now fault }
    ensures long { result ≡ Err (DriveFault.Text TextFault.TooLong) → IsTooLong (R.remaining reader.old) }
    ensures unread { IfErr result (λ e. IsOfFile e → reader.new ≡ reader.old) }
    ensures unwritten { IfErr result (λ e. IsOfFile e → writer.new ≡ writer.old) }
    ensures asked { (s : Tables) → IsDriven tables.now s → IsErrOf result (DriveFault.Text TextFault.Read)
        → AreAnsweredBehind form s (R.remaining reader.old) (R.remaining reader.new) (W.contents writer.old)
        (W.contents writer.new) }
    ensures read { IsErrOf result (DriveFault.Text TextFault.Read)
        → R.failures reader.new ≡ next_count (R.failures reader.old) }
    ensures reader_held { (IsErrOf result (DriveFault.Text TextFault.Read) → ⊥)
        → R.failures reader.new ≡ R.failures reader.old }
    ensures write { IfErr result (λ e. IsFailedWrite (drive.failed_write e)
        → W.failures writer.new ≡ next_count (W.failures writer.old)) }
    ensures writer_held { OnOk result (W.failures writer.new ≡ W.failures writer.old) }
    ensures kept { IfErr result (λ e. WroteNothing (drive.failed_write e)
        → W.failures writer.new ≡ W.failures writer.old) }
{
    a_file_has_one_set();
    let (set, _version) = read_tables(alloc, tables)?;
    let answered = run_lines(alloc, &set, form, reader, writer);
    drop(set);
    Ok(answered?)
}

/// Parses each line of the text from a reader as a text of its own, with a table set, and writes its result in a form.
/// A complete line is parsed before more is read.
///
/// The errors are those of `TextFault`. Before an error, the results of the preceding lines have been written.
pub fn run_lines<R: Source, W: Sink>(
    alloc: Global,
    set: &TableSet,
    form: AnswerForm,
    reader: &mut R,
    writer: &mut W,
) -> Result<LinesOutcome, TextFault>
    ensures answered { IfOk result (AreLinesAnswered form set.now (R.remaining reader.old) (W.contents writer.old)
        (W.contents writer.new)) }
    ensures ended { OnOk result (IsAtEnd (R.remaining reader.new)) }
    ensures stopped { IfErr result (AreLinesStopped form set.now (R.remaining reader.old) (W.contents writer.old)
        (W.contents writer.new)) }
    ensures long { result ≡ Err TextFault.TooLong → IsTooLong (R.remaining reader.old) }
    ensures asked { IsErrOf result TextFault.Read → AreAnsweredBehind form set.now (R.remaining reader.old)
        (R.remaining reader.new) (W.contents writer.old) (W.contents writer.new) }
    ensures read { IsErrOf result TextFault.Read → R.failures reader.new ≡ next_count (R.failures reader.old) }
    ensures reader_held { (IsErrOf result TextFault.Read → ⊥) → R.failures reader.new ≡ R.failures reader.old }
    ensures write { IfErr result (λ e. IsFailedWrite (failed_write e)
        → W.failures writer.new ≡ next_count (W.failures writer.old)) }
    ensures writer_held { OnOk result (W.failures writer.new ≡ W.failures writer.old) }
    ensures kept { IfErr result (λ e. WroteNothing (failed_write e) → W.failures writer.new ≡ W.failures writer.old) }
{
    let mut room = vec![in alloc; 0u8; PIECE]?;
    let prepared = Prepared::new(alloc, set)?;
    let answered = answer_all(&prepared, form, &mut room, reader, writer);
    drop(prepared);
    answered
}

/// Parses the lines from a reader with a prepared table set, at most the size of the buffer at a time, until the text
/// ends.
fn answer_all<R: Source, W: Sink>(
    prepared: &Prepared<'_>,
    form: AnswerForm,
    room: &mut [u8],
    reader: &mut R,
    writer: &mut W,
) -> Result<LinesOutcome, TextFault>
    requires { 0 < length room.old }
    ensures answered { IfOk result (AreLinesAnswered form prepared.now (R.remaining reader.old) (W.contents writer.old)
        (W.contents writer.new)) }
    ensures ended { OnOk result (IsAtEnd (R.remaining reader.new)) }
    ensures stopped { IfErr result (AreLinesStopped form prepared.now (R.remaining reader.old) (W.contents writer.old)
        (W.contents writer.new)) }
    ensures long { result ≡ Err TextFault.TooLong → IsTooLong (R.remaining reader.old) }
    ensures asked { IsErrOf result TextFault.Read → AreAnsweredBehind form prepared.now (R.remaining reader.old)
        (R.remaining reader.new) (W.contents writer.old) (W.contents writer.new) }
    ensures read { IsErrOf result TextFault.Read → R.failures reader.new ≡ next_count (R.failures reader.old) }
    ensures reader_held { (IsErrOf result TextFault.Read → ⊥) → R.failures reader.new ≡ R.failures reader.old }
    ensures write { IfErr result (λ e. IsFailedWrite (failed_write e)
        → W.failures writer.new ≡ next_count (W.failures writer.old)) }
    ensures writer_held { OnOk result (W.failures writer.new ≡ W.failures writer.old) }
    ensures kept { IfErr result (λ e. WroteNothing (failed_write e) → W.failures writer.new ≡ W.failures writer.old) }
{
    let mut lines = Lines::new(prepared.alloc());
    let mut seen = 0u64;
    loop {
        let count = match reader.pull(room) {
            Ok(0) => return lines.end(prepared, form, writer),
            Ok(count) => count,
            Err(_) => return Err(TextFault::Read),
        };
        seen = match seen.checked_add(count as u64) {
            Some(seen) => seen,
            None => return Err(TextFault::TooLong),
        };
        lines.take(prepared, form, &room[..count], writer)?;
    }
}

/// The state of the lines while their text is read.
#[derive(Drop)]
struct Lines {
    /// The bytes of the incomplete line.
    part: Vec<u8>,
    /// The outcome of the lines before it.
    outcome: LinesOutcome,
}

impl Lines {
    /// The lines of a text without any bytes.
    fn new(alloc: Global) -> Lines
        ensures part { result.part.items ≡ [] }
        ensures outcome { result.outcome ≡ AllTrees }
    {
        Lines {
            part: Vec::new(alloc),
            outcome: LinesOutcome::AllTrees,
        }
    }

    /// Takes the next bytes of the text, and parses each line that ends in them.
    fn take<W: Sink>(
        &mut self,
        prepared: &Prepared<'_>,
        form: AnswerForm,
        bytes: &[u8],
        writer: &mut W,
    ) -> Result<(), TextFault>
        ensures taken { (front : List ℕ) (before : Option (List ℕ))
            → IsAnsweredSoFar form prepared.now front before (W.contents writer.old) self.old.part.items self.old.outcome
            → AreTaken form prepared.now (front ++ bytes.now) before (W.contents writer.new) self.new.part.items
            self.new.outcome result }
        ensures ending { IfErr result IsOfEnding }
        ensures write { IfErr result (λ e. IsFailedWrite (failed_write e)
            → W.failures writer.new ≡ next_count (W.failures writer.old)) }
        ensures writer_held { OnOk result (W.failures writer.new ≡ W.failures writer.old) }
        ensures kept { IfErr result (λ e. WroteNothing (failed_write e)
            → W.failures writer.new ≡ W.failures writer.old) }
    {
        for &byte in bytes {
            self.take_byte(prepared, form, byte, writer)?;
        }
        Ok(())
    }

    /// Takes the next byte of the text. A newline ends the line, which is parsed.
    fn take_byte<W: Sink>(
        &mut self,
        prepared: &Prepared<'_>,
        form: AnswerForm,
        byte: u8,
        writer: &mut W,
    ) -> Result<(), TextFault>
        ensures taken { (front : List ℕ) (before : Option (List ℕ))
            → IsAnsweredSoFar form prepared.now front before (W.contents writer.old) self.old.part.items self.old.outcome
            → AreTaken form prepared.now (front ++ byte ∷ []) before (W.contents writer.new) self.new.part.items
            self.new.outcome result }
        ensures ending { IfErr result IsOfEnding }
        ensures write { IfErr result (λ e. IsFailedWrite (failed_write e)
            → W.failures writer.new ≡ next_count (W.failures writer.old)) }
        ensures writer_held { OnOk result (W.failures writer.new ≡ W.failures writer.old) }
        ensures kept { IfErr result (λ e. WroteNothing (failed_write e)
            → W.failures writer.new ≡ W.failures writer.old) }
    {
        if byte != b'\n' {
            return match self.part.push(byte) {
                Ok(()) => Ok(()),
                Err(_) => Err(TextFault::OutOfMemory),
            };
        }
        let outcome = answer_line(prepared, form, &self.part, writer)?;
        self.outcome = self.outcome.with(&outcome);
        self.part.clear();
        Ok(())
    }

    /// Ends the text. The bytes after the last newline are a line unless they are empty.
    fn end<W: Sink>(
        self,
        prepared: &Prepared<'_>,
        form: AnswerForm,
        writer: &mut W,
    ) -> Result<LinesOutcome, TextFault>
        ensures ended { (text : List ℕ) (before : Option (List ℕ))
            → IsAnsweredSoFar form prepared.now text before (W.contents writer.old) self.part.items self.outcome
            → AreEnded form prepared.now text before (W.contents writer.new) result }
        ensures ending { IfErr result IsOfEnding }
        ensures write { IfErr result (λ e. IsFailedWrite (failed_write e)
            → W.failures writer.new ≡ next_count (W.failures writer.old)) }
        ensures writer_held { OnOk result (W.failures writer.new ≡ W.failures writer.old) }
        ensures kept { IfErr result (λ e. WroteNothing (failed_write e)
            → W.failures writer.new ≡ W.failures writer.old) }
    {
        if self.part.is_empty() {
            return Ok(self.outcome);
        }
        let outcome = answer_line(prepared, form, &self.part, writer)?;
        Ok(self.outcome.with(&outcome))
    }
}
