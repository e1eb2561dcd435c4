ghost use Rattle.std.specs.Prelude.{◌≡◌, ◌≢◌, ℕ, List, Err, IfErr, IfOk, IsErrOf, OnOk, map};
ghost use Rattle.std.specs.Io.KnownBytes.{Appends, IsAtEnd};
ghost use Rattle.ly_base.specs.declared.lexeme.End.{End};
ghost use Rattle.ly_drive.specs.Answering.{IsDriven};
ghost use Rattle.ly_drive.specs.DriveFault as drive;
ghost use Rattle.ly_drive.specs.DriveFault.{IsOfFile};
ghost use Rattle.ly_drive.specs.Private.SetLabels.{label_number, labels_in, rule_label_of, AreLabelsOfSet};
ghost use Rattle.ly_drive.specs.TableTokens.{HasBadCut, IsListedBy, IsListedFor};
ghost use Rattle.ly_feed.specs.Vocabularies.{name_in};
ghost use Rattle.ly_feed.specs.TextFault.{IsOfEnding, failed_write};
ghost use Rattle.ly_listing.specs.Labels.{label_for};
ghost use Rattle.ly_listing.specs.Listings.{end_of};
ghost use Rattle.ly_print.specs.Device.{next_count, IsFailedWrite, WroteNothing};
ghost use Rattle.ly_print.specs.TextWriter.{IsCutShort};
ghost use Rattle.ly_tables.specs.Refusal.{IsRefusedAs};
ghost use Rattle.ly_tables.specs.TableSet.{TableSet as Tables};
ghost use Rattle.ly_tables.specs.declared.fault.TableFault as file;
ghost use Rattle.ly_tables.specs.declared.fault.TableFault.TheVariants.{OutOfMemory as NoMemory};

use crate::fault::DriveFault;
use ly_base::{Emitted, OutOfMemory, Sym};
use ly_feed::{TextFault, lexer_of};
use ly_listing::{
    FIRST_BYTE, Listing, ListingFault, NOTHING, RuleLabel, RuleLabels, TokenEnd, label_for,
};
use ly_print::{AnswerForm, Label, ReadFault, Sink, Source, Terminal, are_bytes, read_whole};
use ly_tables::{ScanRule, TableSet, read_tables};
use std::alloc::Global;

/// The number of labels for the first bytes of tokens.
const LITERALS: u32 = 256;

/// Writes the tokens of the text from a reader in a form, found by the scanner of a table file: one line for each, and
/// a last line if no rule matches somewhere. The text is read after the table file has been checked. It is read
/// completely, and nothing is written before it is known how the tokens end.
///
/// The errors are those of `DriveFault` except `TooLong`.
pub fn drive_tokens<R: Source, W: Sink>(
    alloc: Global,
    tables: &[u8],
    form: AnswerForm,
    reader: &mut R,
    writer: &mut W,
) -> Result<TokenEnd, DriveFault>
    ensures answered { IfOk result (λ end. (s : Tables) × IsDriven tables.now s × (lines : List ℕ)
        × IsListedFor form s (R.remaining reader.old) (end_of end) lines
        × Appends (W.contents writer.old) (W.contents writer.new) lines) }
    ensures beginning { (written : ℕ) → result ≡ Err (DriveFault.Text (TextFault.Write written))
        → (s : Tables) × IsDriven tables.now s × (e : End) × (lines : List ℕ)
        × IsListedFor form s (R.remaining reader.old) e lines
        × IsCutShort (W.contents writer.old) (W.contents writer.new) written lines }
    ensures refused { (fault : file.TableFault) → result ≡ Err (DriveFault.Tables fault)
        → (fault ≢ NoMemory) × IsRefusedAs tables.now fault }
    ensures faulty { result ≡ Err (DriveFault.Text TextFault.FaultyTables) → (s : Tables) × IsDriven tables.now s
        × HasBadCut s (R.remaining reader.old) }
    ensures never_long { result ≢ Err (DriveFault.Text TextFault.TooLong) }
    ensures unread { IfErr result (λ e. IsOfFile e → reader.new ≡ reader.old) }
    ensures ended { OnOk result (IsAtEnd (R.remaining reader.new)) }
    ensures read { IsErrOf result (DriveFault.Text TextFault.Read)
        → R.failures reader.new ≡ next_count (R.failures reader.old) }
    ensures reader_held { (IsErrOf result (DriveFault.Text TextFault.Read) → ⊥)
        → R.failures reader.new ≡ R.failures reader.old }
    ensures write { IfErr result (λ e. IsFailedWrite (drive.failed_write e)
        → W.failures writer.new ≡ next_count (W.failures writer.old)) }
    ensures writer_held { OnOk result (W.failures writer.new ≡ W.failures writer.old) }
    ensures untouched { IfErr result (λ e. WroteNothing (drive.failed_write e) → writer.new ≡ writer.old) }
{
    let (set, _version) = read_tables(alloc, tables)?;
    let listed = run_tokens(alloc, &set, form, reader, writer);
    drop(set);
    Ok(listed?)
}

/// Writes the tokens of the text from a reader, found by the scanner of a table set, like `drive_tokens`.
///
/// The errors are those of `TextFault` except `TooLong`.
pub fn run_tokens<R: Source, W: Sink>(
    alloc: Global,
    set: &TableSet,
    form: AnswerForm,
    reader: &mut R,
    writer: &mut W,
) -> Result<TokenEnd, TextFault>
    ensures answered { IfOk result (λ end. (lines : List ℕ)
        × IsListedFor form set.now (R.remaining reader.old) (end_of end) lines
        × Appends (W.contents writer.old) (W.contents writer.new) lines) }
    ensures beginning { (written : ℕ) → result ≡ Err (TextFault.Write written) → (e : End) × (lines : List ℕ)
        × IsListedFor form set.now (R.remaining reader.old) e lines
        × IsCutShort (W.contents writer.old) (W.contents writer.new) written lines }
    ensures faulty { result ≡ Err TextFault.FaultyTables → HasBadCut set.now (R.remaining reader.old) }
    ensures never_long { result ≢ Err TextFault.TooLong }
    ensures ended { OnOk result (IsAtEnd (R.remaining reader.new)) }
    ensures read { IsErrOf result TextFault.Read → R.failures reader.new ≡ next_count (R.failures reader.old) }
    ensures reader_held { (IsErrOf result TextFault.Read → ⊥) → R.failures reader.new ≡ R.failures reader.old }
    ensures write { IfErr result (λ e. IsFailedWrite (failed_write e)
        → W.failures writer.new ≡ next_count (W.failures writer.old)) }
    ensures writer_held { OnOk result (W.failures writer.new ≡ W.failures writer.old) }
    ensures untouched { IfErr result (λ e. WroteNothing (failed_write e) → writer.new ≡ writer.old) }
{
    let text = match read_whole(alloc, reader) {
        Ok(text) => text,
        Err(ReadFault::Read) => return Err(TextFault::Read),
        Err(ReadFault::OutOfMemory) => return Err(TextFault::OutOfMemory),
    };
    write_tokens(alloc, set, form, &text, writer)
}

/// Writes the tokens of a text, found by the scanner of a table set.
fn write_tokens<W: Sink>(
    alloc: Global,
    set: &TableSet,
    form: AnswerForm,
    text: &[u8],
    writer: &mut W,
) -> Result<TokenEnd, TextFault>
    ensures answered { IfOk result (λ end. (lines : List ℕ) × IsListedBy form set.now text.now (end_of end) lines
        × Appends (W.contents writer.old) (W.contents writer.new) lines) }
    ensures beginning { (written : ℕ) → result ≡ Err (TextFault.Write written) → (e : End) × (lines : List ℕ)
        × IsListedBy form set.now text.now e lines
        × IsCutShort (W.contents writer.old) (W.contents writer.new) written lines }
    ensures faulty { result ≡ Err TextFault.FaultyTables → (byte : ℕ) × (lines : List ℕ)
        × IsListedBy form set.now text.now (End.BadCut byte) lines }
    ensures ending { IfErr result IsOfEnding }
    ensures write { IfErr result (λ e. IsFailedWrite (failed_write e)
        → W.failures writer.new ≡ next_count (W.failures writer.old)) }
    ensures writer_held { OnOk result (W.failures writer.new ≡ W.failures writer.old) }
    ensures untouched { IfErr result (λ e. WroteNothing (failed_write e) → writer.new ≡ writer.old) }
{
    are_bytes(text);
    let lexer = lexer_of(alloc, set)?;
    let labels = set_labels(alloc, form, set)?;
    let listing = Listing {
        lexer: &lexer,
        labels: &labels,
        form,
        text,
        clean: false,
    };
    match listing.write(alloc, writer) {
        Ok(end) => Ok(end),
        Err(ListingFault::BadCut) => Err(TextFault::FaultyTables),
        Err(ListingFault::Write { written }) => Err(TextFault::Write { written }),
        Err(ListingFault::OutOfMemory) => Err(TextFault::OutOfMemory),
    }
}

/// The labels of the tokens of a table set's scanner: those of the bytes' literals, then those of all terminals.
fn set_labels(alloc: Global, form: AnswerForm, set: &TableSet) -> Result<RuleLabels, OutOfMemory>
    ensures { IfOk result (AreLabelsOfSet form set.now) }
{
    // it implies that the numbers are within their ranges
    let _machine = set.machine();
    Ok(RuleLabels {
        labels: labels_of(alloc, form, set)?,
        rules: rules_of(alloc, set.scan_rules())?,
    })
}

/// The labels of the bytes' literals, then those of all terminals.
fn labels_of(alloc: Global, form: AnswerForm, set: &TableSet) -> Result<Vec<Label>, OutOfMemory>
    ensures { IfOk result (λ labels. labels.items ≡ labels_in form set.now) }
{
    let terminals = set.terminals();
    let mut labels = literal_labels(alloc, form, set)?;
    for name in terminals {
        labels.push(label_for(alloc, form, Terminal::Token(name))?)?;
    }
    Ok(labels)
}

/// The labels of the bytes' literals.
fn literal_labels(
    alloc: Global,
    form: AnswerForm,
    set: &TableSet,
) -> Result<Vec<Label>, OutOfMemory>
    ensures { IfOk result
        (λ labels. labels.items ≡ map (λ t. label_for form (name_in set.now.terminals t)) set.now.literals) }
{
    let literals = set.literals();
    let mut labels = Vec::with_capacity(alloc, literals.len())?;
    for literal in literals {
        let name = name_of(set, *literal);
        labels.push(label_for(alloc, form, Terminal::Token(name))?)?;
    }
    Ok(labels)
}

/// What a listing knows of the rules.
fn rules_of(alloc: Global, rules: &[ScanRule]) -> Result<Vec<RuleLabel>, OutOfMemory>
    ensures { IfOk result (λ labels. labels.items ≡ map rule_label_of rules.now) }
{
    Ok(rules.iter().map(rule_label).collect(alloc)?)
}

/// The number of the label of a rule's tokens, and the condition that the rule sets.
fn rule_label(rule: &ScanRule) -> RuleLabel
    ensures { result ≡ rule_label_of rule.now }
{
    RuleLabel {
        number: number_of(rule.action.emits),
        begin: rule.action.begin,
    }
}

/// The number of the label of the tokens that are emitted so.
fn number_of(emitted: Emitted) -> u32
    ensures { result ≡ label_number emitted }
{
    match emitted {
        Emitted::Nothing => NOTHING,
        Emitted::Terminal(terminal) => terminal.0.saturating_add(LITERALS),
        Emitted::FirstByte => FIRST_BYTE,
    }
}

/// The printed name of a terminal; empty if there is no such terminal.
fn name_of(set: &TableSet, terminal: Sym) -> &[u8]
    ensures { result.now ≡ name_in set.now.terminals terminal.0 }
{
    match set.terminals().get(terminal.0 as usize) {
        Some(name) => name,
        None => b"",
    }
}
