ghost use Rattle.std.specs.Prelude.{◌≡◌, ◌<◌, ℕ, List, [], All, Err, IfErr, IfOk, OnErr, OnOk, length, map, true};
ghost use Rattle.std.specs.Io.KnownBytes.{Appends};
ghost use Rattle.ly_base.specs.declared.lexeme.End.{End};
ghost use Rattle.ly_base.specs.declared.lexeme.End.TheVariants.{BadCut, Clean};
ghost use Rattle.ly_listing.specs.Fault.{failed_write};
ghost use Rattle.ly_listing.specs.Labels.{begin_by, fact_of, labelling, EndsSo, IsLabelListing};
ghost use Rattle.ly_listing.specs.Listings.{end_of, ArePassed};
ghost use Rattle.ly_print.specs.Device.{next_count, IsFailedWrite, WroteNothing};
ghost use Rattle.ly_print.specs.TextWriter.{IsCutShort};
ghost use Rattle.ly_listing.specs.Private.Marks.{IsMarkedTo};
ghost use Rattle.ly_listing.specs.Private.Room.{AreCountable};
ghost use Rattle.ly_scan.specs.Facts.{facts_by};
ghost use Rattle.ly_scan.specs.Lexers.{scanner_of};

use crate::fault::ListingFault;
use crate::marks::Walked;
use crate::printer::{JsonLines, PlainLines};
use crate::rule_labels::RuleLabels;
use crate::run_end::run_end;
use crate::token_end::TokenEnd;
use crate::token_lines::{are_countable, write_token_lines};
use ly_base::End;
use ly_print::{AnswerForm, Sink, TextWriter, WriteFault, are_bytes};
use ly_scan::Lexer;
use std::alloc::Global;

/// A text, and how its tokens are found and printed.
#[derive(Drop)]
pub struct Listing<'a> {
    /// The lexer.
    pub lexer: &'a Lexer,
    /// The labels of its rules' tokens.
    pub labels: &'a RuleLabels,
    /// The form of the lines, for which the labels were made.
    pub form: AnswerForm,
    /// The text.
    pub text: &'a [u8],
    /// Whether the text is known to consist of tokens. If not, a walk over it finds out.
    pub clean: bool,
}

impl<'a> Listing<'a> {
    /// Writes a line for each token, and a last one if no rule matches somewhere. Returns how the tokens end, which is
    /// known before a byte is written.
    ///
    /// Its errors are those of `ListingFault`.
    pub fn write<W: Sink>(&self, alloc: Global, writer: &mut W) -> Result<TokenEnd, ListingFault>
        requires passed { ArePassed self.now.lexer.now.passed (labelling self.now.labels.now)
            (begin_by self.now.labels.now) }
        requires clean { self.now.clean ≡ true
            → EndsSo (scanner_of self.now.lexer.now.scanner) self.now.labels.now self.now.text.now Clean }
        ensures answered { IfOk result (λ end. (lines : List ℕ)
            × IsLabelListing self.now.form (scanner_of self.now.lexer.now.scanner) self.now.labels.now
            self.now.text.now (end_of end) lines × Appends (W.contents writer.old) (W.contents writer.new) lines) }
        ensures beginning { (written : ℕ) → result ≡ Err (ListingFault.Write written) → (e : End) × ((lines : List ℕ)
            × IsLabelListing self.now.form (scanner_of self.now.lexer.now.scanner) self.now.labels.now
            self.now.text.now e lines × IsCutShort (W.contents writer.old) (W.contents writer.new) written lines) }
        ensures bad_cut { result ≡ Err ListingFault.BadCut → (byte : ℕ)
            × EndsSo (scanner_of self.now.lexer.now.scanner) self.now.labels.now self.now.text.now (BadCut byte) }
        ensures write { IfErr result (λ e. IsFailedWrite (failed_write e)
            → W.failures writer.new ≡ next_count (W.failures writer.old)) }
        ensures writer_held { OnOk result (W.failures writer.new ≡ W.failures writer.old) }
        ensures untouched { IfErr result (λ e. WroteNothing (failed_write e) → writer.new ≡ writer.old) }
    {
        let Listing {
            lexer,
            labels,
            text,
            ..
        } = *self;
        if !are_countable(&labels.labels, text.len()) {
            return Err(ListingFault::OutOfMemory);
        }
        are_bytes(text);
        let by_rule = labels.facts(alloc)?;
        let facts = lexer.facts(alloc, &by_rule)?;
        let lines = TextWriter::new(alloc)?;
        let walked = run_end(alloc, lexer, text, labels, &facts, self.clean);
        let end = token_end(walked.end)?;
        self.write_walked(alloc, &facts, walked, lines, writer)?;
        Ok(end)
    }

    /// Writes the lines of a text that was walked over.
    fn write_walked<W: Sink>(
        &self,
        alloc: Global,
        facts: &[u32],
        walked: Walked<'_>,
        lines: TextWriter,
        writer: &mut W,
    ) -> Result<(), WriteFault>
        requires none { lines ≡ record { sent = 0; held = [] } }
        requires bytes { All (λ byte. byte < 256) self.now.text.now }
        requires passed { ArePassed self.now.lexer.now.passed (labelling self.now.labels.now)
            (begin_by self.now.labels.now) }
        requires facts { facts.now
            ≡ facts_by self.now.lexer.now.scanner (map fact_of self.now.labels.now.rules.items) }
        requires ends { EndsSo (scanner_of self.now.lexer.now.scanner) self.now.labels.now self.now.text.now
            walked.end }
        requires marked { IsMarkedTo self.now.labels.now (scanner_of self.now.lexer.now.scanner)
            self.now.text.now walked.place walked.marks.items }
        requires countable { AreCountable self.now.labels.now.labels.items (length self.now.text.now) }
        ensures told { OnOk result ((lines : List ℕ)
            × IsLabelListing self.now.form (scanner_of self.now.lexer.now.scanner) self.now.labels.now
            self.now.text.now walked.entry.end lines × Appends (W.contents writer.old) (W.contents writer.new) lines) }
        ensures cut_short { IfErr result (λ fault. (lines : List ℕ)
            × IsLabelListing self.now.form (scanner_of self.now.lexer.now.scanner) self.now.labels.now
            self.now.text.now walked.entry.end lines
            × IsCutShort (W.contents writer.old) (W.contents writer.new) fault.written lines) }
        ensures no_failure { OnOk result (W.failures writer.new ≡ W.failures writer.old) }
        ensures failed { OnErr result (W.failures writer.new ≡ next_count (W.failures writer.old)) }
    {
        match self.form {
            AnswerForm::Plain => {
                write_token_lines::<PlainLines, W>(alloc, self, facts, walked, lines, writer)
            }
            AnswerForm::Json => {
                write_token_lines::<JsonLines, W>(alloc, self, facts, walked, lines, writer)
            }
        }
    }
}

/// The end of the tokens for the end of the lexer's run. A trailing context that leaves no token is an error.
fn token_end(end: End) -> Result<TokenEnd, ListingFault>
    ensures ok { IfOk result (λ t. end ≡ end_of t) }
    ensures fault { IfErr result (λ e. (e ≡ ListingFault.BadCut) × ((byte : ℕ) × (end ≡ End.BadCut byte))) }
{
    match end {
        End::Clean => Ok(TokenEnd::Clean),
        End::Stuck { byte } => Ok(TokenEnd::Stuck { byte: byte as u64 }),
        End::BadCut { .. } => Err(ListingFault::BadCut),
    }
}
