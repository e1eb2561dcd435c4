//! The commands that parse a text.
ghost use Rattle.std.specs.Prelude.{◌≡◌, IfErr, IfOk, IsSome, None, Ok, OnOk, option_map};
ghost use Rattle.std.specs.Io.KnownBytes.{IsAtEnd};
ghost use Rattle.lytab.specs.Answering.{AreTokensBegun, AreTokensPrinted, IsAnswerBegun, IsParsedBy};
ghost use Rattle.lytab.specs.Answering.{IsAnsweredByFiles, IsAnsweredByTables, IsBegunByFiles, IsBegunByTables};
ghost use Rattle.lytab.specs.Answering.{IsOneText, text_from};
ghost use Rattle.lytab.specs.Devices.{DeviceFailuresReported, WriteFailuresReported};
ghost use Rattle.lytab.specs.Failure.{IsOfWriter};
ghost use Rattle.lytab.specs.Lines.{AreLinesAnsweredBy, AreLinesFailed, AreLinesRead, AreLinesReadBy};
ghost use Rattle.lytab.specs.Lines.{AreLinesStoppedBy};
ghost use Rattle.lytab.specs.TableTokens.{AreTableTokens, AreTableTokensBegun, IsRefusalOfScanner};
ghost use Rattle.lytab.specs.Placing.{IsPlacedByFiles, IsPlacedByTables, IsPlacingBegunByFiles};
ghost use Rattle.lytab.specs.Placing.{IsPlacingBegunByTables};
ghost use Rattle.lytab.specs.Reading.{IsOfRules, IsReadByFiles, IsReadByTables, IsTextRead};
ghost use Rattle.lytab.specs.Refusal.{IsRefusalOf, IsRefusalOfFiles, IsRefusalOfLex, IsRefusalOfTables};
ghost use Rattle.lytab.specs.declared.completion.Completion.TheVariants as completion;

use crate::completion::Completion;
use crate::failure::Failure;
use crate::files::{STANDARD, open};
use crate::notes::Notes;
use crate::remembering::{Recall, Remembering};
use ly_drive::{DriveFault, TextFault, drive, drive_lines, drive_tokens};
use ly_engine::{AnswerFault, GenFault, TokensFault, answer, answer_placed, drive_placed, tokens};
use ly_files::Folder;
use ly_print::{AnswerForm, Sink, Source};
use std::alloc::Global;

/// What a text is parsed with, as the bytes of the files, and the form of the output.
#[derive(Clone, Copy)]
pub enum Rules<'a> {
    /// A lex file, to print the tokens.
    Tokens {
        /// The lex file.
        lex: &'a [u8],
        /// How they are written.
        form: AnswerForm,
    },
    /// A table file, to print the tokens that its scanner finds.
    TableTokens {
        /// The table file.
        tables: &'a [u8],
        /// How they are written.
        form: AnswerForm,
    },
    /// A table file.
    Tables {
        /// The table file.
        tables: &'a [u8],
        /// The form of the output.
        form: AnswerForm,
    },
    /// A table file, for each line of the text as a text of its own.
    Lines {
        /// The table file.
        tables: &'a [u8],
        /// The form of the output for each line.
        form: AnswerForm,
    },
    /// A table file, to print the span of each part of the tree.
    TablesPlaced(&'a [u8]),
    /// A lex file and a yacc file, to print the span of each part of the tree.
    BothPlaced {
        /// The lex file.
        lex: &'a [u8],
        /// The yacc file.
        yacc: &'a [u8],
    },
    /// A lex file and a yacc file.
    Both {
        /// The lex file.
        lex: &'a [u8],
        /// The yacc file.
        yacc: &'a [u8],
        /// The form of the output.
        form: AnswerForm,
    },
}

/// Parses a text, or standard input without a path. A file is opened before anything is judged.
pub fn answer_text<'a, D: Folder, R: Source + Recall, W: Sink>(
    folder: &D,
    alloc: Global,
    rules: Rules<'_>,
    text: Option<&'a str>,
    input: &mut R,
    output: &mut W,
    notes: &mut Notes,
) -> Result<Completion, Failure<'a>>
    ensures answered { IfOk result (IsParsedBy rules.entry
        (text_from (option_map (λ p. p.now) text.entry) (D.holds folder.now) (R.remaining input.old))
        (W.contents output.old) (W.contents output.new)) }
    ensures refused { IfErr result (IsRefusalOf rules.entry
        (text_from (option_map (λ p. p.now) text.entry) (D.holds folder.now) (R.remaining input.old))) }
    ensures told { text.entry ≡ None → DeviceFailuresReported result (R.failures input.old) (R.failures input.new)
        (W.failures output.old) (W.failures output.new) }
    ensures unread { IsSome text.entry → input.new ≡ input.old }
    ensures written { WriteFailuresReported result (W.failures output.old) (W.failures output.new) }
    ensures beginning { IfErr result (λ f. IsOfWriter f → IsAnswerBegun rules.entry
        (text_from (option_map (λ p. p.now) text.entry) (D.holds folder.now) (R.remaining input.old))
        (W.contents output.old) (W.contents output.new)) }
    ensures stopped { IfErr result (AreLinesStoppedBy rules.entry
        (text_from (option_map (λ p. p.now) text.entry) (D.holds folder.now) (R.remaining input.old))
        (W.contents output.old) (W.contents output.new)) }
    ensures kept { IfErr result (λ f. (IsOfWriter f → ⊥) → W.failures output.new ≡ W.failures output.old) }
    ensures untouched { IsOneText rules.entry → IfErr result (λ f. (IsOfWriter f → ⊥) → output.new ≡ output.old) }
    ensures needed { text.entry ≡ None → IsTextRead rules.entry result input.old input.new (R.remaining input.old)
        (R.remaining input.new) }
    ensures read { text.entry ≡ None → AreLinesReadBy rules.entry result (R.remaining input.old)
        (R.remaining input.new) (W.contents output.old) (W.contents output.new) }
    ensures ended { text.entry ≡ None → result ≡ Ok completion.Done → IsAtEnd (R.remaining input.new) }
{
    match text {
        Some(path) => {
            let file = open(folder, alloc, path, notes)?;
            let mut file = Remembering::new(alloc, file, notes.are_wanted());
            let ended = answer_by(alloc, rules, path, &mut file, output, notes);
            notes.look_at_text(folder, path, &ended);
            ended
        }
        None => answer_by(alloc, rules, STANDARD, input, output, notes),
    }
}

/// Parses all that a reader with this name returns.
fn answer_by<'a, R: Source + Recall, W: Sink>(
    alloc: Global,
    rules: Rules<'_>,
    path: &'a str,
    reader: &mut R,
    writer: &mut W,
    notes: &mut Notes,
) -> Result<Completion, Failure<'a>>
    ensures answered { IfOk result (IsParsedBy rules.entry (R.remaining reader.old) (W.contents writer.old)
        (W.contents writer.new)) }
    ensures refused { IfErr result (IsRefusalOf rules.entry (R.remaining reader.old)) }
    ensures told { DeviceFailuresReported result (R.failures reader.old) (R.failures reader.new) (W.failures writer.old)
        (W.failures writer.new) }
    ensures beginning { IfErr result (λ f. IsOfWriter f → IsAnswerBegun rules.entry (R.remaining reader.old)
        (W.contents writer.old) (W.contents writer.new)) }
    ensures stopped { IfErr result (AreLinesStoppedBy rules.entry (R.remaining reader.old) (W.contents writer.old)
        (W.contents writer.new)) }
    ensures kept { IfErr result (λ f. (IsOfWriter f → ⊥) → W.failures writer.new ≡ W.failures writer.old) }
    ensures untouched { IsOneText rules.entry → IfErr result (λ f. (IsOfWriter f → ⊥) → writer.new ≡ writer.old) }
    ensures needed { IsTextRead rules.entry result reader.old reader.new (R.remaining reader.old)
        (R.remaining reader.new) }
    ensures read { AreLinesReadBy rules.entry result (R.remaining reader.old) (R.remaining reader.new)
        (W.contents writer.old) (W.contents writer.new) }
    ensures ended { result ≡ Ok completion.Done → IsAtEnd (R.remaining reader.new) }
{
    match rules {
        Rules::Tokens { lex, form } => {
            print_tokens(alloc, lex, form, path, reader, writer, notes)
        }
        Rules::TableTokens { tables, form } => {
            print_table_tokens(alloc, tables, form, path, reader, writer, notes)
        }
        Rules::Tables { tables, form } => {
            answer_by_tables(alloc, tables, form, path, reader, writer, notes)
        }
        Rules::Lines { tables, form } => answer_lines(alloc, tables, form, path, reader, writer),
        Rules::TablesPlaced(tables) => place_by_tables(alloc, tables, path, reader, writer, notes),
        Rules::BothPlaced { lex, yacc } => {
            place_by_files(alloc, lex, yacc, path, reader, writer, notes)
        }
        Rules::Both { lex, yacc, form } => {
            answer_by_files(alloc, lex, yacc, form, path, reader, writer, notes)
        }
    }
}

/// Prints the tokens of all that a reader with this name returns.
fn print_tokens<'a, R: Source + Recall, W: Sink>(
    alloc: Global,
    lex: &[u8],
    form: AnswerForm,
    path: &'a str,
    reader: &mut R,
    writer: &mut W,
    notes: &mut Notes,
) -> Result<Completion, Failure<'a>>
    ensures answered { IfOk result (AreTokensPrinted form lex.now (R.remaining reader.old) (W.contents writer.old)
        (W.contents writer.new)) }
    ensures refused { IfErr result (IsRefusalOfLex lex.now) }
    ensures told { DeviceFailuresReported result (R.failures reader.old) (R.failures reader.new) (W.failures writer.old)
        (W.failures writer.new) }
    ensures beginning { IfErr result (λ f. IsOfWriter f → AreTokensBegun form lex.now (R.remaining reader.old)
        (W.contents writer.old) (W.contents writer.new)) }
    ensures untouched { IfErr result (λ f. (IsOfWriter f → ⊥) → writer.new ≡ writer.old) }
    ensures unread { IfErr result (λ f. IsOfRules f → reader.new ≡ reader.old) }
    ensures needed { OnOk result (IsAtEnd (R.remaining reader.new)) }
    ensures ended { result ≡ Ok completion.Done → IsAtEnd (R.remaining reader.new) }
{
    match tokens(alloc, lex, form, reader, writer) {
        Ok(end) => {
            notes.point_at_end(path, reader, end);
            Ok(Completion::of_tokens(end))
        }
        Err(TokensFault::Lex(fault)) => Err(Failure::of_files(GenFault::Lex(fault), lex, b"")),
        Err(TokensFault::Positions(fault)) => {
            Err(Failure::Refused(GenFault::Positions(fault), None))
        }
        Err(TokensFault::States(fault)) => Err(Failure::Refused(GenFault::States(fault), None)),
        Err(TokensFault::Read) => Err(Failure::CannotRead(path)),
        Err(TokensFault::Write { .. }) => Err(Failure::CannotWrite(STANDARD)),
        Err(TokensFault::OutOfMemory) => Err(Failure::OutOfMemory),
    }
}

/// Prints the tokens of all that a reader with this name returns, with the scanner of a table file.
fn print_table_tokens<'a, R: Source + Recall, W: Sink>(
    alloc: Global,
    tables: &[u8],
    form: AnswerForm,
    path: &'a str,
    reader: &mut R,
    writer: &mut W,
    notes: &mut Notes,
) -> Result<Completion, Failure<'a>>
    ensures answered { IfOk result (AreTableTokens form tables.now (R.remaining reader.old) (W.contents writer.old)
        (W.contents writer.new)) }
    ensures refused { IfErr result (IsRefusalOfScanner tables.now (R.remaining reader.old)) }
    ensures told { DeviceFailuresReported result (R.failures reader.old) (R.failures reader.new) (W.failures writer.old)
        (W.failures writer.new) }
    ensures beginning { IfErr result (λ f. IsOfWriter f → AreTableTokensBegun form tables.now (R.remaining reader.old)
        (W.contents writer.old) (W.contents writer.new)) }
    ensures untouched { IfErr result (λ f. (IsOfWriter f → ⊥) → writer.new ≡ writer.old) }
    ensures unread { IfErr result (λ f. IsOfRules f → reader.new ≡ reader.old) }
    ensures ended { OnOk result (IsAtEnd (R.remaining reader.new)) }
{
    match drive_tokens(alloc, tables, form, reader, writer) {
        Ok(end) => {
            notes.point_at_end(path, reader, end);
            Ok(Completion::of_tokens(end))
        }
        Err(fault) => Err(Failure::of_driving(fault, path)),
    }
}

/// Parses all that a reader with this name returns, with a table file.
fn answer_by_tables<'a, R: Source + Recall, W: Sink>(
    alloc: Global,
    tables: &[u8],
    form: AnswerForm,
    path: &'a str,
    reader: &mut R,
    writer: &mut W,
    notes: &mut Notes,
) -> Result<Completion, Failure<'a>>
    ensures answered { IfOk result (IsAnsweredByTables form tables.now (R.remaining reader.old) (W.contents writer.old)
        (W.contents writer.new)) }
    ensures refused { IfErr result (IsRefusalOfTables tables.now (R.remaining reader.old)) }
    ensures told { DeviceFailuresReported result (R.failures reader.old) (R.failures reader.new) (W.failures writer.old)
        (W.failures writer.new) }
    ensures beginning { IfErr result (λ f. IsOfWriter f → IsBegunByTables form tables.now (R.remaining reader.old)
        (W.contents writer.old) (W.contents writer.new)) }
    ensures untouched { IfErr result (λ f. (IsOfWriter f → ⊥) → writer.new ≡ writer.old) }
    ensures unread { IfErr result (λ f. IsOfRules f → reader.new ≡ reader.old) }
    ensures needed { IsReadByTables tables.now result (R.remaining reader.old) (R.remaining reader.new) }
    ensures ended { result ≡ Ok completion.Done → IsAtEnd (R.remaining reader.new) }
{
    match drive(alloc, tables, form, reader, writer) {
        Ok(outcome) => {
            notes.point_at_outcome(path, reader, &outcome);
            Ok(Completion::of_outcome(&outcome))
        }
        Err(DriveFault::Tables(fault)) => Err(Failure::Tables(fault)),
        Err(DriveFault::Text(TextFault::FaultyTables)) => Err(Failure::FaultyTables),
        Err(DriveFault::Text(TextFault::TooLong)) => Err(Failure::TooLong),
        Err(DriveFault::Text(TextFault::Read)) => Err(Failure::CannotRead(path)),
        Err(DriveFault::Text(TextFault::Write { .. })) => Err(Failure::CannotWrite(STANDARD)),
        Err(DriveFault::Text(TextFault::OutOfMemory)) => Err(Failure::OutOfMemory),
    }
}

/// Parses each line that a reader with this name returns as a text of its own, with a table file.
fn answer_lines<'a, R: Source, W: Sink>(
    alloc: Global,
    tables: &[u8],
    form: AnswerForm,
    path: &'a str,
    reader: &mut R,
    writer: &mut W,
) -> Result<Completion, Failure<'a>>
    ensures answered { IfOk result (AreLinesAnsweredBy form tables.now (R.remaining reader.old) (W.contents writer.old)
        (W.contents writer.new)) }
    ensures told { DeviceFailuresReported result (R.failures reader.old) (R.failures reader.new) (W.failures writer.old)
        (W.failures writer.new) }
    ensures stopped { IfErr result (AreLinesFailed form tables.now (R.remaining reader.old) (W.contents writer.old)
        (W.contents writer.new)) }
    ensures kept { IfErr result (λ f. (IsOfWriter f → ⊥) → W.failures writer.new ≡ W.failures writer.old) }
    ensures unread { IfErr result (λ f. IsOfRules f → reader.new ≡ reader.old) }
    ensures read { AreLinesRead form tables.now result (R.remaining reader.old) (R.remaining reader.new)
        (W.contents writer.old) (W.contents writer.new) }
    ensures ended { OnOk result (IsAtEnd (R.remaining reader.new)) }
{
    match drive_lines(alloc, tables, form, reader, writer) {
        Ok(outcome) => Ok(Completion::of_lines(outcome)),
        Err(DriveFault::Tables(fault)) => Err(Failure::Tables(fault)),
        Err(DriveFault::Text(TextFault::FaultyTables)) => Err(Failure::FaultyTables),
        Err(DriveFault::Text(TextFault::TooLong)) => Err(Failure::TooLong),
        Err(DriveFault::Text(TextFault::Read)) => Err(Failure::CannotRead(path)),
        Err(DriveFault::Text(TextFault::Write { .. })) => Err(Failure::CannotWrite(STANDARD)),
        Err(DriveFault::Text(TextFault::OutOfMemory)) => Err(Failure::OutOfMemory),
    }
}

/// Parses all that a reader with this name returns, with a table file, and prints the span of each part.
fn place_by_tables<'a, R: Source + Recall, W: Sink>(
    alloc: Global,
    tables: &[u8],
    path: &'a str,
    reader: &mut R,
    writer: &mut W,
    notes: &mut Notes,
) -> Result<Completion, Failure<'a>>
    ensures answered { IfOk result (IsPlacedByTables tables.now (R.remaining reader.old) (W.contents writer.old)
        (W.contents writer.new)) }
    ensures refused { IfErr result (IsRefusalOfTables tables.now (R.remaining reader.old)) }
    ensures told { DeviceFailuresReported result (R.failures reader.old) (R.failures reader.new) (W.failures writer.old)
        (W.failures writer.new) }
    ensures beginning { IfErr result (λ f. IsOfWriter f → IsPlacingBegunByTables tables.now (R.remaining reader.old)
        (W.contents writer.old) (W.contents writer.new)) }
    ensures untouched { IfErr result (λ f. (IsOfWriter f → ⊥) → writer.new ≡ writer.old) }
    ensures unread { IfErr result (λ f. IsOfRules f → reader.new ≡ reader.old) }
    ensures ended { OnOk result (IsAtEnd (R.remaining reader.new)) }
{
    match drive_placed(alloc, tables, reader, writer) {
        Ok(outcome) => {
            notes.point_at_outcome(path, reader, &outcome);
            Ok(Completion::of_outcome(&outcome))
        }
        Err(fault) => Err(Failure::of_driving(fault, path)),
    }
}

/// Parses all that a reader with this name returns, with a lex file and a yacc file, and prints the span of each part.
fn place_by_files<'a, R: Source + Recall, W: Sink>(
    alloc: Global,
    lex: &[u8],
    yacc: &[u8],
    path: &'a str,
    reader: &mut R,
    writer: &mut W,
    notes: &mut Notes,
) -> Result<Completion, Failure<'a>>
    ensures answered { IfOk result (IsPlacedByFiles lex.now yacc.now (R.remaining reader.old)
        (W.contents writer.old) (W.contents writer.new)) }
    ensures refused { IfErr result (IsRefusalOfFiles lex.now yacc.now (R.remaining reader.old)) }
    ensures told { DeviceFailuresReported result (R.failures reader.old) (R.failures reader.new) (W.failures writer.old)
        (W.failures writer.new) }
    ensures beginning { IfErr result (λ f. IsOfWriter f → IsPlacingBegunByFiles lex.now yacc.now
        (R.remaining reader.old) (W.contents writer.old) (W.contents writer.new)) }
    ensures untouched { IfErr result (λ f. (IsOfWriter f → ⊥) → writer.new ≡ writer.old) }
    ensures unread { IfErr result (λ f. IsOfRules f → reader.new ≡ reader.old) }
    ensures ended { OnOk result (IsAtEnd (R.remaining reader.new)) }
{
    match answer_placed(alloc, lex, yacc, reader, writer) {
        Ok(outcome) => {
            notes.point_at_outcome(path, reader, &outcome);
            Ok(Completion::of_outcome(&outcome))
        }
        Err(AnswerFault::Gen(fault)) => Err(Failure::of_files(fault, lex, yacc)),
        Err(AnswerFault::Text(fault)) => Err(Failure::of_answering(fault, path)),
    }
}

/// Parses all that a reader with this name returns, with a lex file and a yacc file.
fn answer_by_files<'a, R: Source + Recall, W: Sink>(
    alloc: Global,
    lex: &[u8],
    yacc: &[u8],
    form: AnswerForm,
    path: &'a str,
    reader: &mut R,
    writer: &mut W,
    notes: &mut Notes,
) -> Result<Completion, Failure<'a>>
    ensures answered { IfOk result (IsAnsweredByFiles form lex.now yacc.now (R.remaining reader.old)
        (W.contents writer.old) (W.contents writer.new)) }
    ensures refused { IfErr result (IsRefusalOfFiles lex.now yacc.now (R.remaining reader.old)) }
    ensures told { DeviceFailuresReported result (R.failures reader.old) (R.failures reader.new) (W.failures writer.old)
        (W.failures writer.new) }
    ensures beginning { IfErr result (λ f. IsOfWriter f → IsBegunByFiles form lex.now yacc.now (R.remaining reader.old)
        (W.contents writer.old) (W.contents writer.new)) }
    ensures untouched { IfErr result (λ f. (IsOfWriter f → ⊥) → writer.new ≡ writer.old) }
    ensures unread { IfErr result (λ f. IsOfRules f → reader.new ≡ reader.old) }
    ensures needed { IsReadByFiles lex.now yacc.now result reader.old reader.new (R.remaining reader.old)
        (R.remaining reader.new) }
    ensures ended { result ≡ Ok completion.Done → IsAtEnd (R.remaining reader.new) }
{
    match answer(alloc, lex, yacc, form, reader, writer) {
        Ok(outcome) => {
            notes.point_at_outcome(path, reader, &outcome);
            Ok(Completion::of_outcome(&outcome))
        }
        Err(AnswerFault::Gen(fault)) => Err(Failure::of_files(fault, lex, yacc)),
        Err(AnswerFault::Text(TextFault::FaultyTables)) => Err(Failure::FaultyTables),
        Err(AnswerFault::Text(TextFault::TooLong)) => Err(Failure::TooLong),
        Err(AnswerFault::Text(TextFault::Read)) => Err(Failure::CannotRead(path)),
        Err(AnswerFault::Text(TextFault::Write { .. })) => Err(Failure::CannotWrite(STANDARD)),
        Err(AnswerFault::Text(TextFault::OutOfMemory)) => Err(Failure::OutOfMemory),
    }
}
