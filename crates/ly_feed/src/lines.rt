ghost use Rattle.std.specs.Prelude.{◌≡◌, ◌≢◌, ℕ, List, [], ◌∷◌, ◌++◌, Err, IfErr, IfOk, IsSome, OnOk, map};
ghost use Rattle.std.specs.Io.KnownBytes.{Appends};
ghost use Rattle.ly_base.specs.Bytes.{newline};
ghost use Rattle.ly_print.specs.Device.{next_count, IsFailedWrite, WroteNothing};
ghost use Rattle.ly_print.specs.Text.{no_rule_line};
ghost use Rattle.ly_print.specs.TextWriter.{IsCutShort};
ghost use Rattle.ly_feed.specs.SyntaxError.{token_of, verdict_of};
ghost use Rattle.ly_feed.specs.Closed.{IsThere, IsVerdictOf};
ghost use Rattle.ly_feed.specs.Private.Running.{words_of};
ghost use Rattle.ly_feed.specs.TextFault.{IsOfWriting, failed_write};
ghost use Rattle.ly_feed.specs.Verdict.{accepted, expected_line, printed, syntax_line, written_in, IsOutcome, Verdict};
ghost use Rattle.ly_feed.specs.Vocabularies.{vocabulary_of};
ghost use Rattle.ly_tree.specs.Costs.{IsBoundedBySize};
ghost use Rattle.ly_tree.specs.Forest.{term_of, StandsFor};
ghost use Rattle.ly_tree.specs.Shown.{Vocabulary};
ghost use Rattle.ly_tree.specs.Term.{Term};
ghost use Rattle.ly_tree.specs.Written.{written as noted};

use crate::json_lines::json_line;
use crate::labels::{JsonLabels, TermLabels};
use crate::names::Names;
use crate::outcome::Outcome;
use crate::running::Ended;
use crate::syntax_error::SyntaxError;
use crate::text_fault::TextFault;
use ly_base::{OutOfMemory, Sym};
use ly_parse::Token;
use ly_print::{AnswerForm, Sink, Terminal, push_leaf, push_no_rule_line, write_whole};
use ly_tables::TableSet;
use ly_tree::{Forest, Plain, TermNotation, TermRef};
use std::alloc::Global;
use std::io::Write;

/// Writes the result of a text that has ended, in this form, and returns the outcome. Nothing is written if memory runs
/// out. A term is written while it is printed.
pub(crate) fn write_ended<W: Sink>(
    alloc: Global,
    set: &TableSet,
    form: AnswerForm,
    forest: &Forest,
    ended: Ended<'_>,
    writer: &mut W,
) -> Result<Outcome, TextFault>
    requires { IsThere forest.now ended }
    ensures ok { IfOk result (λ o. (v : Verdict) → IsVerdictOf forest.now ended.entry v → IsOutcome v o
        × Appends (W.contents writer.old) (W.contents writer.new) (written_in form (vocabulary_of set.now) v)) }
    ensures beginning { (written : ℕ) (v : Verdict) → result ≡ Err (TextFault.Write written)
        → IsVerdictOf forest.now ended.entry v
        → IsCutShort (W.contents writer.old) (W.contents writer.new) written
        (written_in form (vocabulary_of set.now) v) }
    ensures of_writing { IfErr result IsOfWriting }
    ensures write { IfErr result (λ e. IsFailedWrite (failed_write e)
        → W.failures writer.new ≡ next_count (W.failures writer.old)) }
    ensures writer_held { OnOk result (W.failures writer.new ≡ W.failures writer.old) }
    ensures untouched { IfErr result (λ e. WroteNothing (failed_write e) → writer.new ≡ writer.old) }
{
    match ended {
        Ended::Accepted(root) => {
            write_term(alloc, &Names::of(set), form, forest, root, writer)?;
            Ok(Outcome::Tree)
        }
        Ended::Refused(syntax_error) => {
            let (outcome, lines) = told(alloc, set, form, syntax_error)?;
            write_whole(writer, &lines)?;
            Ok(outcome)
        }
    }
}

/// Writes the line of a term in this form. Nothing is written if memory runs out.
fn write_term<W: Sink>(
    alloc: Global,
    names: &Names<'_>,
    form: AnswerForm,
    forest: &Forest,
    root: TermRef,
    writer: &mut W,
) -> Result<(), TextFault>
    requires known { IsSome (term_of forest.now root) }
    requires paid { (t : Term) → StandsFor forest.now root t → IsBoundedBySize forest.now t }
    ensures ok { OnOk result ((t : Term) → StandsFor forest.now root t → Appends (W.contents writer.old)
        (W.contents writer.new) (written_in form (words_of names.now) (accepted t))) }
    ensures beginning { (written : ℕ) (t : Term) → result ≡ Err (TextFault.Write written)
        → StandsFor forest.now root t
        → IsCutShort (W.contents writer.old) (W.contents writer.new) written
        (written_in form (words_of names.now) (accepted t)) }
    ensures of_writing { IfErr result IsOfWriting }
    ensures write { IfErr result (λ e. IsFailedWrite (failed_write e)
        → W.failures writer.new ≡ next_count (W.failures writer.old)) }
    ensures writer_held { OnOk result (W.failures writer.new ≡ W.failures writer.old) }
    ensures untouched { IfErr result (λ e. WroteNothing (failed_write e) → writer.new ≡ writer.old) }
{
    match form {
        AnswerForm::Plain => {
            let labels = TermLabels::new(alloc, *names)?;
            let plain = Plain::new(&labels);
            write_line(alloc, &plain, forest, root, writer)
        }
        AnswerForm::Json => {
            let labels = JsonLabels::new(alloc, *names)?;
            write_line(alloc, &labels, forest, root, writer)
        }
    }
}

/// Writes the line of a term in a notation. Nothing is written if memory runs out.
fn write_line<N: TermNotation, W: Sink>(
    alloc: Global,
    notation: &N,
    forest: &Forest,
    root: TermRef,
    writer: &mut W,
) -> Result<(), TextFault>
    requires known { IsSome (term_of forest.now root) }
    requires paid { (t : Term) → StandsFor forest.now root t → IsBoundedBySize forest.now t }
    ensures ok { OnOk result ((t : Term) → StandsFor forest.now root t → Appends (W.contents writer.old)
        (W.contents writer.new) (noted (N.form notation.now) t ++ newline ∷ [])) }
    ensures beginning { (written : ℕ) (t : Term) → result ≡ Err (TextFault.Write written)
        → StandsFor forest.now root t
        → IsCutShort (W.contents writer.old) (W.contents writer.new) written
        (noted (N.form notation.now) t ++ newline ∷ []) }
    ensures of_writing { IfErr result IsOfWriting }
    ensures write { IfErr result (λ e. IsFailedWrite (failed_write e)
        → W.failures writer.new ≡ next_count (W.failures writer.old)) }
    ensures writer_held { OnOk result (W.failures writer.new ≡ W.failures writer.old) }
    ensures untouched { IfErr result (λ e. WroteNothing (failed_write e) → writer.new ≡ writer.old) }
{
    let line = forest.line(alloc, notation, root)?;
    line.write(writer)?;
    Ok(())
}

/// The result of a text with an error: the outcome, and the lines for it in this form.
#[inline(never)] // so that a token that is read gets the registers
pub(crate) fn told(
    alloc: Global,
    set: &TableSet,
    form: AnswerForm,
    syntax_error: SyntaxError<'_>,
) -> Result<(Outcome, Vec<u8>), OutOfMemory>
    ensures { IfOk result (λ told. IsOutcome (verdict_of syntax_error.entry) told.0
        × (told.1.items ≡ written_in form (vocabulary_of set.now) (verdict_of syntax_error.entry))) }
{
    let lines = syntax_error_text(alloc, &Names::of(set), form, &syntax_error)?;
    Ok((syntax_error.into_outcome(), lines))
}

/// The lines for an error in a text, in this form.
fn syntax_error_text(
    alloc: Global,
    names: &Names<'_>,
    form: AnswerForm,
    syntax_error: &SyntaxError<'_>,
) -> Result<Vec<u8>, OutOfMemory>
    ensures { IfOk result (λ text. text.items ≡ written_in form (words_of names.now) (verdict_of syntax_error.now)) }
{
    match form {
        AnswerForm::Plain => syntax_error_lines(alloc, names, syntax_error),
        AnswerForm::Json => json_line(alloc, names, syntax_error),
    }
}

/// The plain lines for an error in a text.
fn syntax_error_lines(
    alloc: Global,
    names: &Names<'_>,
    syntax_error: &SyntaxError<'_>,
) -> Result<Vec<u8>, OutOfMemory>
    ensures { IfOk result (λ lines. lines.items ≡ printed (words_of names.now) (verdict_of syntax_error.now)) }
{
    match syntax_error {
        SyntaxError::Refused {
            number,
            token,
            expected,
        } => {
            let mut lines = syntax_line(alloc, names, *number, token)?;
            push_expected_line(&mut lines, names, expected)?;
            Ok(lines)
        }
        SyntaxError::NoRule { byte } => unmatched_line(alloc, *byte),
    }
}

/// The line for an unexpected token, or the end, by its number, counted from 1.
fn syntax_line(
    alloc: Global,
    names: &Names<'_>,
    number: u64,
    token: &Token<'_>,
) -> Result<Vec<u8>, OutOfMemory>
    ensures { IfOk result (λ line. line.items ≡ syntax_line (words_of names.now) number (token_of token.now)) }
{
    if token.terminal.0 == 0 {
        end_line(alloc, number, token.at)
    } else {
        token_line(alloc, names, number, token)
    }
}

/// The line for a token of the text.
fn token_line(
    alloc: Global,
    names: &Names<'_>,
    number: u64,
    token: &Token<'_>,
) -> Result<Vec<u8>, OutOfMemory>
    requires { token.now.terminal.0 ≢ 0 }
    ensures { IfOk result (λ line. line.items ≡ syntax_line (words_of names.now) number (token_of token.now)) }
{
    let mut line = Vec::new(alloc);
    let byte = token.at;
    write!(line, "syntax error at token {number}, byte {byte}: ").map_err(|_| OutOfMemory)?;
    let name = Terminal::Token(names.of_terminal(token.terminal));
    push_leaf(&mut line, name, token.text.bytes())?;
    line.push(b'\n')?;
    Ok(line)
}

/// The line for the end, which is at this offset.
fn end_line(alloc: Global, number: u64, byte: u64) -> Result<Vec<u8>, OutOfMemory>
    ensures { IfOk result (λ line. (v : Vocabulary) (bytes : List ℕ) → line.items
        ≡ syntax_line v number (record { terminal = 0; at = byte; bytes = bytes })) }
{
    let mut line = Vec::new(alloc);
    writeln!(line, "syntax error at end, token {number}, byte {byte}").map_err(|_| OutOfMemory)?;
    Ok(line)
}

/// Appends the line with the names of the expected terminals.
fn push_expected_line(
    line: &mut Vec<u8>,
    names: &Names<'_>,
    expected: &[Sym],
) -> Result<(), OutOfMemory>
    ensures { OnOk result (line.new.items
        ≡ line.old.items ++ expected_line (words_of names.now) (map (λ t. t.0) expected.now)) }
{
    line.extend_from_slice(b"expected:")?;
    for &terminal in expected {
        line.push(b' ')?;
        line.extend_from_slice(names.of_terminal(terminal))?;
    }
    line.push(b'\n')?;
    Ok(())
}

/// The line for the byte at which no rule matches.
fn unmatched_line(alloc: Global, byte: u64) -> Result<Vec<u8>, OutOfMemory>
    ensures { IfOk result (λ line. line.items ≡ no_rule_line byte) }
{
    let mut line = Vec::new(alloc);
    push_no_rule_line(&mut line, byte)?;
    Ok(line)
}
