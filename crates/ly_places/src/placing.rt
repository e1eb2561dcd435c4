ghost use Rattle.std.specs.Prelude.{◌≡◌, ◌≢◌, ℕ, List, Err, IfErr, IfOk, IsErrOf, OnOk};
ghost use Rattle.std.specs.Io.KnownBytes.{Appends, IsAtEnd};
ghost use Rattle.ly_drive.specs.Answering.{IsDriven, IsFaultyOn};
ghost use Rattle.ly_drive.specs.DriveFault as drive;
ghost use Rattle.ly_drive.specs.DriveFault.{IsOfFile};
ghost use Rattle.ly_feed.specs.TableAnswer.{IsVerdict};
ghost use Rattle.ly_feed.specs.TextFault.{IsOfEnding, IsOfWriting, failed_write};
ghost use Rattle.ly_feed.specs.Verdict.{faulty};
ghost use Rattle.ly_feed.specs.declared.outcome.Outcome.{Outcome as Answered};
ghost use Rattle.ly_feed.specs.SyntaxError.{verdict_of};
ghost use Rattle.ly_feed.specs.Vocabularies.{vocabulary_of};
ghost use Rattle.ly_places.specs.PlacedAnswer.{placed_line, verdict_of as plain_of, IsPlacedBy, IsPlacedVerdict};
ghost use Rattle.ly_places.specs.PlacedAnswer.{PlacedAnswer, PlacedVerdict};
ghost use Rattle.ly_places.specs.Parts.{parts_of};
ghost use Rattle.ly_places.specs.Placed.{Placed};
ghost use Rattle.ly_places.specs.Placing.{IsPlacedFor, IsPlacingBegun};
ghost use Rattle.ly_print.specs.Device.{next_count, IsFailedWrite, WroteNothing};
ghost use Rattle.ly_print.specs.TextWriter.{IsCutShort};
ghost use Rattle.ly_tables.specs.Refusal.{IsRefusedAs};
ghost use Rattle.ly_tables.specs.TableSet.{TableSet as Tables};
ghost use Rattle.ly_tables.specs.declared.fault.TableFault as file;
ghost use Rattle.ly_tables.specs.declared.fault.TableFault.TheVariants.{OutOfMemory as NoMemory};

use crate::parsing::{Parsed, parse};
use crate::part::Part;
use crate::placed_line::PlacedLine;
use crate::syntax_error_lines::{refused_line, unmatched_line};
use ly_base::OutOfMemory;
use ly_drive::DriveFault;
use ly_feed::{NameLabels, Outcome, SyntaxError, TextFault};
use ly_print::{ReadFault, Sink, Source, read_whole, write_whole};
use ly_tables::{TableSet, read_tables};
use std::alloc::Global;

/// Parses the text from a reader with the bytes of a table file, and writes the result as a line of JSON in which each
/// part has its start and its end. The text is read after the table file has been checked. It is read completely, and
/// nothing is written before the outcome is known.
///
/// The errors are those of `DriveFault` except `TooLong`.
pub fn drive_placed<R: Source, W: Sink>(
    alloc: Global,
    tables: &[u8],
    reader: &mut R,
    writer: &mut W,
) -> Result<Outcome, DriveFault>
    ensures answered { IfOk result (λ o. (s : Tables) × IsDriven tables.now s
        × IsPlacedFor s (R.remaining reader.old) (W.contents writer.old) (W.contents writer.new) o) }
    ensures beginning { (written : ℕ) → result ≡ Err (DriveFault.Text (TextFault.Write written))
        → (s : Tables) × IsDriven tables.now s
        × IsPlacingBegun s (R.remaining reader.old) (W.contents writer.old) (W.contents writer.new) written }
    ensures refused { (fault : file.TableFault) → result ≡ Err (DriveFault.Tables fault)
        → (fault ≢ NoMemory) × IsRefusedAs tables.now fault }
    ensures faulty { result ≡ Err (DriveFault.Text TextFault.FaultyTables) → (s : Tables) × IsDriven tables.now s
        × IsFaultyOn s (R.remaining reader.old) }
    ensures never_long { result ≢ Err (DriveFault.Text TextFault.TooLong) }
    ensures unread { IfErr result (λ e. IsOfFile e → reader.new ≡ reader.old) }
    ensures ended { OnOk result (IsAtEnd (R.remaining reader.new)) }
    ensures read { IsErrOf result (DriveFault.Text TextFault.Read)
        → R.failures reader.new ≡ next_count (R.failures reader.old) }
    ensures reader_held { (IsErrOf result (DriveFault.Text TextFault.Read) → ⊥)
        → R.failures reader.new ≡ R.failures reader.old }
    ensures write { IfErr result (λ e. IsFailedWrite (drive.failed_write e)
        → W.failures writer.new ≡ next_count (W.failures writer.old)) }
    ensures writer_held { OnOk result (W.failures writer.new ≡ W.failures writer.old) }
    ensures untouched { IfErr result (λ e. WroteNothing (drive.failed_write e) → writer.new ≡ writer.old) }
{
    let (set, _version) = read_tables(alloc, tables)?;
    let answered = run_placed(alloc, &set, reader, writer);
    drop(set);
    Ok(answered?)
}

/// Parses the text from a reader with a table set, and writes the result like `drive_placed`.
///
/// The errors are those of `TextFault` except `TooLong`.
pub fn run_placed<R: Source, W: Sink>(
    alloc: Global,
    set: &TableSet,
    reader: &mut R,
    writer: &mut W,
) -> Result<Outcome, TextFault>
    ensures answered { IfOk result (IsPlacedFor set.now (R.remaining reader.old) (W.contents writer.old)
        (W.contents writer.new)) }
    ensures beginning { (written : ℕ) → result ≡ Err (TextFault.Write written)
        → IsPlacingBegun set.now (R.remaining reader.old) (W.contents writer.old) (W.contents writer.new) written }
    ensures faulty { result ≡ Err TextFault.FaultyTables → IsFaultyOn set.now (R.remaining reader.old) }
    ensures never_long { result ≢ Err TextFault.TooLong }
    ensures ended { OnOk result (IsAtEnd (R.remaining reader.new)) }
    ensures read { IsErrOf result TextFault.Read → R.failures reader.new ≡ next_count (R.failures reader.old) }
    ensures reader_held { (IsErrOf result TextFault.Read → ⊥) → R.failures reader.new ≡ R.failures reader.old }
    ensures write { IfErr result (λ e. IsFailedWrite (failed_write e)
        → W.failures writer.new ≡ next_count (W.failures writer.old)) }
    ensures writer_held { OnOk result (W.failures writer.new ≡ W.failures writer.old) }
    ensures untouched { IfErr result (λ e. WroteNothing (failed_write e) → writer.new ≡ writer.old) }
{
    let text = match read_whole(alloc, reader) {
        Ok(text) => text,
        Err(ReadFault::Read) => return Err(TextFault::Read),
        Err(ReadFault::OutOfMemory) => return Err(TextFault::OutOfMemory),
    };
    place_text(alloc, set, &text, writer)
}

/// Parses a text with a table set, and writes the result like `drive_placed`.
///
/// The errors are `FaultyTables`, `Write` and `OutOfMemory` of `TextFault`.
pub fn place_text<W: Sink>(
    alloc: Global,
    set: &TableSet,
    text: &[u8],
    writer: &mut W,
) -> Result<Outcome, TextFault>
    ensures answered { IfOk result (λ o. (answer : List ℕ) × PlacedAnswer set.now text.now o answer
        × Appends (W.contents writer.old) (W.contents writer.new) answer) }
    ensures beginning { (written : ℕ) → result ≡ Err (TextFault.Write written)
        → (answer : List ℕ) × (o : Answered) × PlacedAnswer set.now text.now o answer
        × IsCutShort (W.contents writer.old) (W.contents writer.new) written answer }
    ensures faulty { result ≡ Err TextFault.FaultyTables → IsVerdict set.now text.now faulty }
    ensures ending { IfErr result IsOfEnding }
    ensures write { IfErr result (λ e. IsFailedWrite (failed_write e)
        → W.failures writer.new ≡ next_count (W.failures writer.old)) }
    ensures writer_held { OnOk result (W.failures writer.new ≡ W.failures writer.old) }
    ensures untouched { IfErr result (λ e. WroteNothing (failed_write e) → writer.new ≡ writer.old) }
{
    match parse(alloc, set, text)? {
        Parsed::Tree(parts) => write_tree(alloc, set, text, &parts, writer),
        Parsed::Refused(syntax_error) => {
            let line = syntax_error_line(alloc, set, text, &syntax_error)?;
            write_whole(writer, &line)?;
            Ok(syntax_error.into_outcome())
        }
    }
}

/// Writes the line of the tree of a text, from its parts.
fn write_tree<W: Sink>(
    alloc: Global,
    set: &TableSet,
    text: &[u8],
    parts: &[Part],
    writer: &mut W,
) -> Result<Outcome, TextFault>
    requires { (t : Placed) × IsPlacedBy set.now text.now t × (parts.now ≡ parts_of t) }
    ensures answered { IfOk result (λ o. (answer : List ℕ) × PlacedAnswer set.now text.now o answer
        × Appends (W.contents writer.old) (W.contents writer.new) answer) }
    ensures beginning { (written : ℕ) → result ≡ Err (TextFault.Write written)
        → (answer : List ℕ) × (o : Answered) × PlacedAnswer set.now text.now o answer
        × IsCutShort (W.contents writer.old) (W.contents writer.new) written answer }
    ensures of_writing { IfErr result IsOfWriting }
    ensures write { IfErr result (λ e. IsFailedWrite (failed_write e)
        → W.failures writer.new ≡ next_count (W.failures writer.old)) }
    ensures writer_held { OnOk result (W.failures writer.new ≡ W.failures writer.old) }
    ensures untouched { IfErr result (λ e. WroteNothing (failed_write e) → writer.new ≡ writer.old) }
{
    let line = PlacedLine::new(alloc, NameLabels::of(alloc, set)?, text, parts)?;
    line.write(writer)?;
    Ok(Outcome::Tree)
}

/// The line for the error that a table set finds in a text.
fn syntax_error_line(
    alloc: Global,
    set: &TableSet,
    text: &[u8],
    syntax_error: &SyntaxError<'_>,
) -> Result<Vec<u8>, OutOfMemory>
    requires { IsVerdict set.now text.now (verdict_of syntax_error.now) }
    ensures { IfOk result (λ line. (v : PlacedVerdict) × IsPlacedVerdict set.now text.now v
        × (plain_of text.now v ≡ verdict_of syntax_error.now)
        × (line.items ≡ placed_line (vocabulary_of set.now) text.now v)) }
{
    match syntax_error {
        SyntaxError::Refused {
            number,
            token,
            expected,
        } => refused_line(alloc, set, text, *number, token, expected),
        SyntaxError::NoRule { byte } => unmatched_line(alloc, text, *byte),
    }
}
