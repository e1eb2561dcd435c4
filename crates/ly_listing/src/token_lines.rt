ghost use Rattle.std.specs.Prelude.{◌≡◌, ◌<◌, ◌≤◌, ◌+◌, ◌*◌, ◌^◌, ℕ, List, [], All, Err, Ok, length, map};
ghost use Rattle.std.specs.Prelude.{slice_index, IfOk, IfErr, OnOk, OnErr};
ghost use Rattle.std.specs.Bool.{OnTrue};
ghost use Rattle.std.specs.Io.KnownBytes.{Appends};
ghost use Rattle.ly_base.specs.Lexed.{token_if, Token};
ghost use Rattle.ly_base.specs.Lexed as lexed;
ghost use Rattle.ly_listing.specs.Labels.{begin_by, fact_of, labelled_lines, labelling};
ghost use Rattle.ly_listing.specs.Labels.{EndsSo, IsLabelListing};
ghost use Rattle.ly_listing.specs.Listings.{ArePassed};
ghost use Rattle.ly_listing.specs.Private.Marks.{IsMarkedTo};
ghost use Rattle.ly_listing.specs.Private.Room.{bytes_each, AreCountable};
ghost use Rattle.ly_listing.specs.Private.SoFar.{LeadsOn, SoFar, StandsIn};
ghost use Rattle.ly_print.specs.Device.{next_count};
ghost use Rattle.ly_print.specs.TextWriter.{bytes_of, IsAppended, IsCutShort};
ghost use Rattle.ly_scan.specs.Facts.{facts_by};
ghost use Rattle.ly_scan.specs.Lexers.{scanner_of};

use crate::listing::Listing;
use crate::marks::{Walked, write_marked};
use crate::printer::{LineForm, Printer, push_end, push_if};
use crate::rule_labels::RuleLabels;
use ly_base::{Place, RuleNo};
use ly_print::{Front, Label, Sink, TextWriter, WriteFault};
use ly_scan::{KnownWalks, Lexer};
use std::alloc::Global;

/// Writes the lines of the tokens of a text, and a last line if no rule matches somewhere. The marked tokens come
/// first. After those the loop takes one lexeme at a time, if the final state alone doesn't determine it.
#[inline(always)] // else the loop reloads the lexer's fields for each lexeme
pub(crate) fn write_token_lines<F: LineForm, W: Sink>(
    alloc: Global,
    listing: &Listing<'_>,
    facts: &[u32],
    walked: Walked<'_>,
    empty: TextWriter,
    writer: &mut W,
) -> Result<(), WriteFault>
    requires none { empty ≡ record { sent = 0; held = [] } }
    requires bytes { All (λ byte. byte < 256) listing.now.text.now }
    requires passed { ArePassed listing.now.lexer.now.passed (labelling listing.now.labels.now)
        (begin_by listing.now.labels.now) }
    requires facts { facts.now
        ≡ facts_by listing.now.lexer.now.scanner (map fact_of listing.now.labels.now.rules.items) }
    requires ends { EndsSo (scanner_of listing.now.lexer.now.scanner) listing.now.labels.now listing.now.text.now
        walked.end }
    requires marked { IsMarkedTo listing.now.labels.now (scanner_of listing.now.lexer.now.scanner)
        listing.now.text.now walked.place walked.marks.items }
    requires countable { AreCountable listing.now.labels.now.labels.items (length listing.now.text.now) }
    ensures told { OnOk result ((lines : List ℕ)
        × IsLabelListing F.form (scanner_of listing.now.lexer.now.scanner) listing.now.labels.now
        listing.now.text.now walked.entry.end lines × Appends (W.contents writer.old) (W.contents writer.new) lines) }
    ensures cut_short { IfErr result (λ fault. (lines : List ℕ)
        × IsLabelListing F.form (scanner_of listing.now.lexer.now.scanner) listing.now.labels.now
        listing.now.text.now walked.entry.end lines
        × IsCutShort (W.contents writer.old) (W.contents writer.new) fault.written lines) }
    ensures no_failure { OnOk result (W.failures writer.new ≡ W.failures writer.old) }
    ensures failed { OnErr result (W.failures writer.new ≡ next_count (W.failures writer.old)) }
{
    let Listing {
        lexer,
        labels,
        text,
        ..
    } = *listing;
    let Walked { end, marks, place } = walked;
    let mut printer = Printer::new(empty, text);
    write_marked::<F, W>(&marks, text, labels, &mut printer, writer)?;
    let mut place = place;
    let mut known = KnownWalks::new(alloc);
    loop {
        let mut here = write_told::<F, W>(
            lexer,
            labels,
            facts,
            place,
            &known,
            &mut printer,
            writer,
        )?;
        match lexer.next(&mut here, &mut known, true) {
            Ok(Some(lexeme)) => {
                let at = here.at();
                let token = Front::new(here.rest(), lexeme.taken);
                push_token::<F, W>(&mut printer, writer, labels, lexeme.rule, at, token)?;
                here.advance(lexeme.taken, labels.begin(lexeme.rule));
                place = here;
            }
            Err(_) => {
                push_end::<F, W>(&mut printer, writer, end)?;
                printer.lines.finish(writer)?;
                return Ok(());
            }
            // the end of the text decides each match
            Ok(None) => unreachable!(),
        }
    }
}

/// Writes the lines of lexemes from a place on, as long as the final state alone determines them. Returns where the
/// next one starts.
#[inline(never)] // to leave it the registers
fn write_told<'t, F: LineForm, W: Sink>(
    lexer: &Lexer,
    labels: &RuleLabels,
    facts: &[u32],
    start: Place<'t>,
    known: &KnownWalks,
    printer: &mut Printer<'_>,
    writer: &mut W,
) -> Result<Place<'t>, WriteFault>
    requires passed { ArePassed lexer.now.passed (labelling labels.now) (begin_by labels.now) }
    requires facts { facts.now ≡ facts_by lexer.now.scanner (map fact_of labels.now.rules.items) }
    requires few { length printer.old.spot.text < 2 ^ 63 }
    requires stands { StandsIn printer.old.spot.text start }
    requires countable { (longest : ℕ) × All (λ (l : List ℕ). length l ≤ longest) labels.now.labels.items
        × (bytes_of printer.old.lines + length start.rest * bytes_each longest < 2 ^ 64) }
    ensures told { IfOk result (λ place. (told : List (Token (List ℕ)))
        × LeadsOn labels.now (scanner_of lexer.now.scanner) start.entry place told
        × IsAppended printer.old.lines printer.new.lines (W.contents writer.old) (W.contents writer.new)
        (labelled_lines F.form printer.old.spot.text told) (Ok tt)) }
    ensures cut_short { IfErr result (λ fault. (place : lexed.Place) × ((told : List (Token (List ℕ)))
        × SoFar labels.now (scanner_of lexer.now.scanner) start.entry place told
        × IsAppended printer.old.lines printer.new.lines (W.contents writer.old) (W.contents writer.new)
        (labelled_lines F.form printer.old.spot.text told) (Err fault))) }
    ensures counted { IfOk result (λ place. (longest : ℕ)
        → All (λ (l : List ℕ). length l ≤ longest) labels.now.labels.items
        → bytes_of printer.new.lines + length place.rest * bytes_each longest
        ≤ bytes_of printer.old.lines + length start.entry.rest * bytes_each longest) }
    ensures same { printer.new.spot.text ≡ printer.old.spot.text }
    ensures no_failure { OnOk result (W.failures writer.new ≡ W.failures writer.old) }
    ensures failed { OnErr result (W.failures writer.new ≡ next_count (W.failures writer.old)) }
{
    let mut place = start;
    loop {
        let Some(told) = lexer.tell(facts, &mut place, known) else {
            return Ok(place);
        };
        let rest = place.rest();
        let first = first_of(rest);
        let token = Front::new(rest, told.taken);
        let label = labels.numbered(told.fact, first);
        push_if::<F, W>(printer, writer, label, place.at(), token)?;
        place.advance(told.taken, None);
    }
}

/// The first byte.
pub(crate) fn first_of(bytes: &[u8]) -> u8
    requires { 0 < length bytes.now }
    ensures { result ≡ slice_index bytes.now 0 }
{
    bytes[0]
}

/// Whether the bytes of the output are sure to fit in a usize, for a text of this many bytes. It may return false if
/// the labels are too long for memory.
pub(crate) fn are_countable(labels: &[Label], bytes: usize) -> bool
    ensures { OnTrue result (AreCountable labels.now bytes) }
{
    let Some(each) = longest(labels).checked_add(256) else {
        return false;
    };
    match bytes.checked_mul(each) {
        Some(len) => len < usize::MAX - 256,
        None => false,
    }
}

/// The length of the longest label.
fn longest(labels: &[Label]) -> usize
    ensures { All (λ l. length l ≤ result) labels.now }
{
    let mut longest = 0;
    for label in labels {
        longest = longest.max(label.len());
    }
    longest
}

/// Appends the line of a lexeme's token, if its rule has a label.
#[inline(never)] // to keep the code that prints a line in one other place
fn push_token<F: LineForm, W: Sink>(
    printer: &mut Printer<'_>,
    writer: &mut W,
    labels: &RuleLabels,
    rule: RuleNo,
    at: usize,
    token: Front<'_>,
) -> Result<(), WriteFault>
    requires some { 0 < length token }
    requires within { at + length token ≤ length printer.old.spot.text }
    requires countable { bytes_of printer.old.lines + length (labelled_lines F.form printer.old.spot.text
        (token_if (labelling labels.now rule.0 token) at token)) < 2 ^ 64 }
    ensures text { IsAppended printer.old.lines printer.new.lines (W.contents writer.old) (W.contents writer.new)
        (labelled_lines F.form printer.old.spot.text
        (token_if (labelling labels.now rule.0 token.entry) at token.entry)) result }
    ensures counted { OnOk result (bytes_of printer.new.lines ≡ bytes_of printer.old.lines
        + length (labelled_lines F.form printer.old.spot.text
        (token_if (labelling labels.now rule.0 token.entry) at token.entry))) }
    ensures same { printer.new.spot.text ≡ printer.old.spot.text }
    ensures no_failure { OnOk result (W.failures writer.new ≡ W.failures writer.old) }
    ensures failed { OnErr result (W.failures writer.new ≡ next_count (W.failures writer.old)) }
{
    push_if::<F, W>(printer, writer, labels.get(rule, token.bytes()), at, token)
}
