ghost use Rattle.std.specs.Prelude.{◌≡◌, ◌≢◌, ◌<◌, ℕ, Err, IfErr, IfOk, IsErrOf, Ok, OnOk, length};
ghost use Rattle.std.specs.Io.KnownBytes.{IsAtEnd};
ghost use Rattle.ly_print.specs.Device.{next_count, IsFailedWrite, WroteNothing};
ghost use Rattle.ly_tables.specs.Refusal.{IsRefusedAs};
ghost use Rattle.ly_tables.specs.TableSet.{TableSet as Tables};
ghost use Rattle.ly_tables.specs.declared.fault.TableFault as file;
ghost use Rattle.ly_tables.specs.declared.fault.TableFault.TheVariants.{OutOfMemory};
ghost use Rattle.ly_drive.specs.Answering.{IsAnsweredBy, IsBegunBy, IsDriven, IsFaultyOn, NeedsMoreInput};
ghost use Rattle.ly_drive.specs.Answering.{IsReadAsNeeded, IsTooLong};
ghost use Rattle.ly_drive.specs.DriveFault.{IsOfFile, failed_write};
ghost use Rattle.ly_feed.specs.Held.{nothing_read};
ghost use Rattle.ly_feed.specs.TextFault as text;

use crate::fault::DriveFault;
use crate::reading::read_into;
use ly_feed::{Feed, Need, Outcome, Prepared, TextFault};
use ly_print::{AnswerForm, Sink, Source, write_whole};
use ly_tables::{TableSet, a_file_has_one_set, read_tables};
use std::alloc::Global;

/// Parses the text from a reader with the bytes of a table file, and writes the result in a form. The text is read
/// after the table file has been checked, at most 4,096 bytes at a time. Nothing is written before the outcome is
/// known, and nothing is read after it is. So the reader is known to be at its end only for a tree, and a read that
/// fails was necessary.
///
/// The errors are those of `DriveFault`.
pub fn drive<R: Source, W: Sink>(
    alloc: Global,
    tables: &[u8],
    form: AnswerForm,
    reader: &mut R,
    writer: &mut W,
) -> Result<Outcome, DriveFault>
    ensures answered { IfOk result (λ o. (s : Tables) × IsDriven tables.now s
        × IsAnsweredBy form s (R.remaining reader.old) (W.contents writer.old) (W.contents writer.new) o) }
    ensures beginning { (written : ℕ) → result ≡ Err (DriveFault.Text (TextFault.Write written)) → (s : Tables)
        × IsDriven tables.now s
        × IsBegunBy form s (R.remaining reader.old) (W.contents writer.old) (W.contents writer.new) written }
    ensures faulty { result ≡ Err (DriveFault.Text TextFault.FaultyTables) → (s : Tables) × IsDriven tables.now s
        × IsFaultyOn s (R.remaining reader.old) }
    ensures refused { (fault : file.TableFault) → result ≡ Err (DriveFault.Tables fault)
        → (fault ≢ OutOfMemory) × IsRefusedAs tables.now fault }
    ensures long { result ≡ Err (DriveFault.Text TextFault.TooLong) → IsTooLong (R.remaining reader.old) }
    ensures unread { IfErr result (λ e. IsOfFile e → reader.new ≡ reader.old) }
    ensures ended { result ≡ Ok Outcome.Tree → IsAtEnd (R.remaining reader.new) }
    ensures needed { (s : Tables) → IsDriven tables.now s → (IsErrOf result (DriveFault.Text TextFault.Read) → ⊥)
        → IsReadAsNeeded 4096 s (R.remaining reader.old) (R.remaining reader.new) }
    ensures asked { (s : Tables) → IsDriven tables.now s → IsErrOf result (DriveFault.Text TextFault.Read)
        → NeedsMoreInput s (R.remaining reader.old) (R.remaining reader.new) }
    ensures read { IsErrOf result (DriveFault.Text TextFault.Read)
        → R.failures reader.new ≡ next_count (R.failures reader.old) }
    ensures reader_held { (IsErrOf result (DriveFault.Text TextFault.Read) → ⊥)
        → R.failures reader.new ≡ R.failures reader.old }
    ensures write { IfErr result (λ e. IsFailedWrite (failed_write e)
        → W.failures writer.new ≡ next_count (W.failures writer.old)) }
    ensures writer_held { OnOk result (W.failures writer.new ≡ W.failures writer.old) }
    ensures untouched { IfErr result (λ e. WroteNothing (failed_write e) → writer.new ≡ writer.old) }
{
    a_file_has_one_set();
    let (set, _version) = read_tables(alloc, tables)?;
    let answered = run(alloc, &set, form, reader, writer);
    drop(set);
    Ok(answered?)
}

/// The number of bytes requested at a time.
pub(crate) const PIECE: usize = 4_096;

/// Parses the text from a reader with a table set, and writes the result in a form. Nothing is written before the
/// outcome is known, and nothing is read after it is. So the reader is known to be at its end only for a tree, and a
/// read that fails was necessary.
///
/// The errors are those of `TextFault`.
pub fn run<R: Source, W: Sink>(
    alloc: Global,
    set: &TableSet,
    form: AnswerForm,
    reader: &mut R,
    writer: &mut W,
) -> Result<Outcome, TextFault>
    ensures answered { IfOk result (IsAnsweredBy form set.now (R.remaining reader.old) (W.contents writer.old)
        (W.contents writer.new)) }
    ensures beginning { (written : ℕ) → result ≡ Err (TextFault.Write written)
        → IsBegunBy form set.now (R.remaining reader.old) (W.contents writer.old) (W.contents writer.new) written }
    ensures faulty { result ≡ Err TextFault.FaultyTables → IsFaultyOn set.now (R.remaining reader.old) }
    ensures long { result ≡ Err TextFault.TooLong → IsTooLong (R.remaining reader.old) }
    ensures ended { result ≡ Ok Outcome.Tree → IsAtEnd (R.remaining reader.new) }
    ensures needed { (IsErrOf result TextFault.Read → ⊥)
        → IsReadAsNeeded 4096 set.now (R.remaining reader.old) (R.remaining reader.new) }
    ensures asked { IsErrOf result TextFault.Read
        → NeedsMoreInput set.now (R.remaining reader.old) (R.remaining reader.new) }
    ensures read { IsErrOf result TextFault.Read → R.failures reader.new ≡ next_count (R.failures reader.old) }
    ensures reader_held { (IsErrOf result TextFault.Read → ⊥) → R.failures reader.new ≡ R.failures reader.old }
    ensures write { IfErr result (λ e. IsFailedWrite (text.failed_write e)
        → W.failures writer.new ≡ next_count (W.failures writer.old)) }
    ensures writer_held { OnOk result (W.failures writer.new ≡ W.failures writer.old) }
    ensures untouched { IfErr result (λ e. WroteNothing (text.failed_write e) → writer.new ≡ writer.old) }
{
    let mut room = vec![in alloc; 0u8; PIECE]?;
    let prepared = Prepared::new(alloc, set)?;
    let mut feed = Feed::new(&prepared, form);
    let answered = feed_all(&mut feed, &mut room, reader, writer);
    drop(feed);
    drop(prepared);
    answered
}

/// Reads from a reader into a new feed, at most the size of the buffer at a time, until the result is known or the text
/// ends, and writes the result.
fn feed_all<R: Source, W: Sink>(
    feed: &mut Feed<'_>,
    room: &mut [u8],
    reader: &mut R,
    writer: &mut W,
) -> Result<Outcome, TextFault>
    requires begins { feed.old ≡ nothing_read feed.old.form feed.old.set }
    requires room { 0 < length room.old }
    ensures answered { IfOk result (IsAnsweredBy feed.old.form feed.old.set (R.remaining reader.old)
        (W.contents writer.old) (W.contents writer.new)) }
    ensures beginning { (written : ℕ) → result ≡ Err (TextFault.Write written)
        → IsBegunBy feed.old.form feed.old.set (R.remaining reader.old) (W.contents writer.old) (W.contents writer.new)
        written }
    ensures faulty { result ≡ Err TextFault.FaultyTables → IsFaultyOn feed.old.set (R.remaining reader.old) }
    ensures long { result ≡ Err TextFault.TooLong → IsTooLong (R.remaining reader.old) }
    ensures ended { result ≡ Ok Outcome.Tree → IsAtEnd (R.remaining reader.new) }
    ensures needed { (IsErrOf result TextFault.Read → ⊥)
        → IsReadAsNeeded (length room.old) feed.old.set (R.remaining reader.old) (R.remaining reader.new) }
    ensures asked { IsErrOf result TextFault.Read
        → NeedsMoreInput feed.old.set (R.remaining reader.old) (R.remaining reader.new) }
    ensures read { IsErrOf result TextFault.Read → R.failures reader.new ≡ next_count (R.failures reader.old) }
    ensures reader_held { (IsErrOf result TextFault.Read → ⊥) → R.failures reader.new ≡ R.failures reader.old }
    ensures write { IfErr result (λ e. IsFailedWrite (text.failed_write e)
        → W.failures writer.new ≡ next_count (W.failures writer.old)) }
    ensures writer_held { OnOk result (W.failures writer.new ≡ W.failures writer.old) }
    ensures untouched { IfErr result (λ e. WroteNothing (text.failed_write e) → writer.new ≡ writer.old) }
{
    loop {
        match read_into(feed, reader, room)? {
            Some(Need::More) => {}
            Some(Need::Settled(outcome, answer)) => {
                write_whole(writer, &answer)?;
                return Ok(outcome);
            }
            None => return feed.finish_into(writer),
        }
    }
}
