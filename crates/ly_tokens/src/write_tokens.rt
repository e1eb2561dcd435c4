ghost use Rattle.std.specs.Prelude.{◌≡◌, ◌≢◌, ℕ, ◌<◌, ◌≤◌, List, length, map, take, Err, IfOk, IfErr, IsErrOf, OnOk};
ghost use Rattle.std.specs.Io.KnownBytes.{Appends, IsAtEnd};
ghost use Rattle.ly_ere.specs.Names.{defined};
ghost use Rattle.ly_print.specs.Device.{next_count, IsFailedWrite, WroteNothing};
ghost use Rattle.ly_base.specs.Limits.{version_2};
ghost use Rattle.ly_print.specs.TextWriter.{IsCutShort};
ghost use Rattle.ly_base.specs.declared.lexeme.End.{End};
ghost use Rattle.ly_lexread.specs.Faults.{IsAtMost, IsTooHeavy};
ghost use Rattle.ly_lexread.specs.LexText.{IsHeavyText, IsLight, LexText};
ghost use Rattle.ly_lexread.specs.declared.fault.LexFault.{LexFault};
ghost use Rattle.ly_lexread.specs.declared.fault.LexFault.TheVariants as lex_fault;
ghost use Rattle.ly_lexread.specs.declared.file.LexFile.{LexFile};
ghost use Rattle.ly_position.specs.declared.fault.PosFault.{PosFault};
ghost use Rattle.ly_position.specs.declared.fault.PosFault.TheVariants.{TooManyPositions};
ghost use Rattle.ly_subset.specs.declared.fault.SubsetFault.{SubsetFault};
ghost use Rattle.ly_subset.specs.declared.fault.SubsetFault.TheVariants.{TooManyStates};
ghost use Rattle.ly_scan.specs.Lexers.{scanner_of};
ghost use Rattle.ly_tokens.specs.Agreement.{Agrees};
ghost use Rattle.ly_tokens.specs.Answering.{IsTokenOutput};
ghost use Rattle.ly_tokens.specs.Answers.{Answers, AreTooHeavy, HaveTooManyStates};
ghost use Rattle.ly_listing.specs.Listings.{end_of};
ghost use Rattle.ly_tokens.specs.TokensFault.{HasNoTokens, ReadNothing, IsOfOutput, failed_write};
ghost use Rattle.ly_tokens.specs.Private.FileAnswers.{FileAnswers};
ghost use Rattle.ly_tokens.specs.Private.Clean.{AreSetBelow};
ghost use Rattle.ly_tokens.specs.Private.Labels.{is_passed};

use crate::clean::begins_everywhere;
use crate::fault::TokensFault;
use crate::file_lexer::lexer_of;
use crate::labels::rule_labels;
use ly_base::Limits;
use ly_lexread::{LexFile, read_lex};
use ly_listing::{Listing, ListingFault, TokenEnd};
use ly_print::{AnswerForm, Sink, Source, are_bytes, read_whole};
use ly_scan::Lexer;
use std::alloc::Global;

/// Writes the tokens of a text under a lex file (POSIX, XCU lex), one line for each. If no rule matches somewhere, a
/// last line reports it. The text is all that the reader returns. It is read completely, and how lexing ends is known,
/// before a byte is written. After that only a write can fail.
///
/// Its errors are those of `TokensFault`.
pub fn tokens<R: Source, W: Sink>(
    alloc: Global,
    lex: &[u8],
    form: AnswerForm,
    reader: &mut R,
    writer: &mut W,
) -> Result<TokenEnd, TokensFault>
    ensures answered { IfOk result (λ end. (answer : List ℕ)
        × Answers form version_2 lex.now (R.remaining reader.old) (end_of end) answer
        × Appends (W.contents writer.old) (W.contents writer.new) answer) }
    ensures beginning { (written : ℕ) → result ≡ Err (TokensFault.Write written) → (e : End) × ((answer : List ℕ)
        × Answers form version_2 lex.now (R.remaining reader.old) e answer × (written < length answer)
        × Appends (W.contents writer.old) (W.contents writer.new) (take written answer)) }
    ensures refused { (fault : LexFault) → result ≡ Err (TokensFault.Lex fault) → (IsTooHeavy fault → ⊥)
        → (file : LexFile) → LexText lex.now file → ⊥ }
    ensures heavy_pattern { (fault : LexFault) → result ≡ Err (TokensFault.Lex fault) → IsTooHeavy fault
        → IsHeavyText version_2.pattern_weight lex.now }
    ensures none_light { (fault : LexFault) → result ≡ Err (TokensFault.Lex fault) → IsTooHeavy fault
        → (file : LexFile) → LexText lex.now file → IsLight version_2.pattern_weight file → ⊥ }
    ensures of_text { (fault : LexFault) → result ≡ Err (TokensFault.Lex fault) → fault ≢ lex_fault.OutOfMemory }
    ensures within { (fault : LexFault) → result ≡ Err (TokensFault.Lex fault) → IsAtMost (length lex.now) fault }
    ensures heavy { (fault : PosFault) → result ≡ Err (TokensFault.Positions fault)
        → (fault ≡ TooManyPositions) × AreTooHeavy version_2 lex.now }
    ensures many { (fault : SubsetFault) → result ≡ Err (TokensFault.States fault)
        → (fault ≡ TooManyStates) × HaveTooManyStates version_2 lex.now }
    ensures ended { OnOk result (IsAtEnd (R.remaining reader.new)) }
    ensures read { IsErrOf result TokensFault.Read → R.failures reader.new ≡ next_count (R.failures reader.old) }
    ensures reader_held { (IsErrOf result TokensFault.Read → ⊥) → R.failures reader.new ≡ R.failures reader.old }
    ensures write { IfErr result (λ e. IsFailedWrite (failed_write e)
        → W.failures writer.new ≡ next_count (W.failures writer.old)) }
    ensures writer_held { OnOk result (W.failures writer.new ≡ W.failures writer.old) }
    ensures unread { IfErr result (λ e. ReadNothing e → reader.new ≡ reader.old) }
    ensures untouched { IfErr result (λ e. WroteNothing (failed_write e) → writer.new ≡ writer.old) }
{
    let limits = Limits::V2;
    let file = read_lex(alloc, lex, &limits)?;
    write_answer(alloc, &file, &limits, form, reader, writer)
}

/// Reads the text, writes its tokens under a lex file, and returns how lexing ends.
fn write_answer<R: Source, W: Sink>(
    alloc: Global,
    file: &LexFile,
    limits: &Limits,
    form: AnswerForm,
    reader: &mut R,
    writer: &mut W,
) -> Result<TokenEnd, TokensFault>
    requires spelled { (bytes : List ℕ) × LexText bytes file.now }
    ensures answered { IfOk result (λ end. (answer : List ℕ)
        × FileAnswers form limits.now file.now (R.remaining reader.old) (end_of end) answer
        × Appends (W.contents writer.old) (W.contents writer.new) answer) }
    ensures beginning { (written : ℕ) → result ≡ Err (TokensFault.Write written) → (e : End) × ((answer : List ℕ)
        × FileAnswers form limits.now file.now (R.remaining reader.old) e answer
        × IsCutShort (W.contents writer.old) (W.contents writer.new) written answer) }
    ensures refused { IfErr result (HasNoTokens limits.now file.now) }
    ensures ended { OnOk result (IsAtEnd (R.remaining reader.new)) }
    ensures read { IsErrOf result TokensFault.Read → R.failures reader.new ≡ next_count (R.failures reader.old) }
    ensures reader_held { (IsErrOf result TokensFault.Read → ⊥) → R.failures reader.new ≡ R.failures reader.old }
    ensures write { IfErr result (λ e. IsFailedWrite (failed_write e)
        → W.failures writer.new ≡ next_count (W.failures writer.old)) }
    ensures writer_held { OnOk result (W.failures writer.new ≡ W.failures writer.old) }
    ensures unread { IfErr result (λ e. ReadNothing e → reader.new ≡ reader.old) }
    ensures untouched { IfErr result (λ e. WroteNothing (failed_write e) → writer.new ≡ writer.old) }
{
    let lexer = lexer_of(alloc, file, limits)?;
    let text = read_whole(alloc, reader)?;
    write_answer_by(alloc, file, &lexer, form, &text, writer)
}

/// Writes the tokens of a text in a form, with any lexer whose scanner agrees with the rules of the lex file. If each
/// byte alone has a rule in each condition, every text ends cleanly.
fn write_answer_by<W: Sink>(
    alloc: Global,
    file: &LexFile,
    lexer: &Lexer,
    form: AnswerForm,
    text: &[u8],
    writer: &mut W,
) -> Result<TokenEnd, TokensFault>
    requires agrees { Agrees (defined file.now.names) file.now.rules.items (scanner_of lexer.now.scanner) }
    requires passed { lexer.now.passed ≡ map is_passed file.now.actions.items }
    requires below { AreSetBelow file.now.actions.items file.now.conditions }
    requires some { 0 < file.now.conditions }
    ensures answered { IfOk result (λ end. (answer : List ℕ)
        × IsTokenOutput form (defined file.now.names) file.now.rules.items file.now.actions.items text.now (end_of end)
        answer
        × Appends (W.contents writer.old) (W.contents writer.new) answer) }
    ensures beginning { (written : ℕ) → result ≡ Err (TokensFault.Write written) → (e : End) × ((answer : List ℕ)
        × IsTokenOutput form (defined file.now.names) file.now.rules.items file.now.actions.items text.now e answer
        × IsCutShort (W.contents writer.old) (W.contents writer.new) written answer) }
    ensures of_output { IfErr result IsOfOutput }
    ensures write { IfErr result (λ e. IsFailedWrite (failed_write e)
        → W.failures writer.new ≡ next_count (W.failures writer.old)) }
    ensures writer_held { OnOk result (W.failures writer.new ≡ W.failures writer.old) }
    ensures untouched { IfErr result (λ e. WroteNothing (failed_write e) → writer.new ≡ writer.old) }
{
    are_bytes(text);
    let labels = rule_labels(alloc, form, &file.actions)?;
    let listing = Listing {
        lexer,
        labels: &labels,
        form,
        text,
        clean: begins_everywhere(lexer.scanner(), file.conditions),
    };
    match listing.write(alloc, writer) {
        Ok(end) => Ok(end),
        Err(ListingFault::Write { written }) => Err(TokensFault::Write { written }),
        Err(ListingFault::OutOfMemory) => Err(TokensFault::OutOfMemory),
        // the scanner agrees with the rules, whose cuts leave tokens
        Err(ListingFault::BadCut) => unreachable!(),
    }
}
