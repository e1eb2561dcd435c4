ghost use Rattle.std.specs.Prelude.{◌≡◌, ◌<◌, ◌≤◌, ◌+◌, ◌++◌, ◌^◌, ℕ, codes, length, option_map, take, OnErr, OnOk};
ghost use Rattle.ly_base.specs.Lexed.{token_if};
ghost use Rattle.ly_base.specs.declared.lexeme.End.TheVariants.{Stuck};
ghost use Rattle.ly_listing.specs.Labels.{before_end, before_text, labelled_line, labelled_lines};
ghost use Rattle.ly_listing.specs.Listings.{end_line};
ghost use Rattle.ly_print.specs.Device.{next_count};
ghost use Rattle.ly_print.specs.Json.{json_content};
ghost use Rattle.ly_print.specs.TextWriter.{bytes_of, IsAppended};
ghost use Rattle.ly_print.specs.declared.answer_form.AnswerForm.{AnswerForm};
ghost use Rattle.ly_print.specs.declared.answer_form.AnswerForm.TheVariants.{Json, Plain};

use crate::decimal::{Decimal, put_bytes};
use crate::spot::Spot;
use ly_base::End;
use ly_print::{Front, Label, Sink, TextWriter, WriteFault};

/// The greatest number of bytes of the last line in JSON.
const STUCK_ROOM: usize = 256;

/// Writes the lines of tokens.
#[derive(Drop)]
pub(crate) struct Printer<'t> {
    /// The lines.
    pub(crate) lines: TextWriter,
    /// Where the last token of a JSON line ends.
    pub(crate) spot: Spot<'t>,
}

impl<'t> Printer<'t> {
    /// Makes a printer of the lines of a text.
    pub(crate) fn new(lines: TextWriter, text: &'t [u8]) -> Printer<'t>
        requires { length text.now < 2 ^ 63 }
        ensures lines { result.lines ≡ lines }
        ensures text { result.spot.text ≡ text.now }
    {
        Printer {
            lines,
            spot: Spot::start(text),
        }
    }

    /// Appends the start and the end of a token at an offset to its JSON line.
    fn push_span<W: Sink>(
        &mut self,
        writer: &mut W,
        at: usize,
        count: usize,
    ) -> Result<(), WriteFault>
        requires within { at + count ≤ length self.old.spot.text }
        requires countable { bytes_of self.old.lines + length (before_end self.old.spot.text at
            ++ before_text self.old.spot.text (at + count)) < 2 ^ 64 }
        ensures text { IsAppended self.old.lines self.new.lines (W.contents writer.old) (W.contents writer.new)
            (before_end self.old.spot.text at ++ before_text self.old.spot.text (at + count)) result }
        ensures counted { OnOk result (bytes_of self.new.lines ≡ bytes_of self.old.lines
            + length (before_end self.old.spot.text at ++ before_text self.old.spot.text (at + count))) }
        ensures same { self.new.spot.text ≡ self.old.spot.text }
        ensures no_failure { OnOk result (W.failures writer.new ≡ W.failures writer.old) }
        ensures failed { OnErr result (W.failures writer.new ≡ next_count (W.failures writer.old)) }
    {
        self.spot.move_to(at);
        self.lines.push_bytes(writer, self.spot.before_end())?;
        self.spot.move_on(count);
        self.lines.push_bytes(writer, self.spot.before_text())
    }

    /// Appends the text of a token to its JSON line, and ends the line.
    fn push_content<W: Sink>(&mut self, writer: &mut W, token: &Front<'_>) -> Result<(), WriteFault>
        requires countable { bytes_of self.old.lines + length (json_content token.now ++ codes "}\n") < 2 ^ 64 }
        ensures text { IsAppended self.old.lines self.new.lines (W.contents writer.old) (W.contents writer.new)
            (json_content token.now ++ codes "}\n") result }
        ensures counted { OnOk result (bytes_of self.new.lines
            ≡ bytes_of self.old.lines + length (json_content token.now ++ codes "}\n")) }
        ensures same { self.new.spot.text ≡ self.old.spot.text }
        ensures no_failure { OnOk result (W.failures writer.new ≡ W.failures writer.old) }
        ensures failed { OnErr result (W.failures writer.new ≡ next_count (W.failures writer.old)) }
    {
        self.lines.push_json_content(writer, token)?;
        self.lines.push_bytes(writer, b"}\n")
    }
}

/// A form of lines. The loops over lexemes are compiled for each form, so that they don't look it up for each line.
pub(crate) trait LineForm {
    /// The form.
    ghost form: { AnswerForm };

    /// Appends the line of a token with this label at an offset.
    fn push_line<W: Sink>(
        printer: &mut Printer<'_>,
        writer: &mut W,
        label: &Label,
        at: usize,
        token: &Front<'_>,
    ) -> Result<(), WriteFault>
        requires within { at + length token.now ≤ length printer.old.spot.text }
        requires countable { bytes_of printer.old.lines + length (labelled_line form printer.old.spot.text
            (record { terminal = label.now; at = at; bytes = token.now })) < 2 ^ 64 }
        ensures text { IsAppended printer.old.lines printer.new.lines (W.contents writer.old) (W.contents writer.new)
            (labelled_line form printer.old.spot.text
            (record { terminal = label.now; at = at; bytes = token.now })) result }
        ensures counted { OnOk result (bytes_of printer.new.lines ≡ bytes_of printer.old.lines
            + length (labelled_line form printer.old.spot.text
            (record { terminal = label.now; at = at; bytes = token.now }))) }
        ensures same { printer.new.spot.text ≡ printer.old.spot.text }
        ensures no_failure { OnOk result (W.failures writer.new ≡ W.failures writer.old) }
        ensures failed { OnErr result (W.failures writer.new ≡ next_count (W.failures writer.old)) };

    /// Appends the last line, which reports at which byte of the text no rule matches.
    fn push_stuck<W: Sink>(
        printer: &mut Printer<'_>,
        writer: &mut W,
        byte: usize,
    ) -> Result<(), WriteFault>
        requires within { byte ≤ length printer.old.spot.text }
        requires countable { bytes_of printer.old.lines
            + length (end_line form printer.old.spot.text (Stuck byte)) < 2 ^ 64 }
        ensures text { IsAppended printer.old.lines printer.new.lines (W.contents writer.old) (W.contents writer.new)
            (end_line form printer.old.spot.text (Stuck byte)) result }
        ensures counted { OnOk result (bytes_of printer.new.lines ≡ bytes_of printer.old.lines
            + length (end_line form printer.old.spot.text (Stuck byte))) }
        ensures no_failure { OnOk result (W.failures writer.new ≡ W.failures writer.old) }
        ensures failed { OnErr result (W.failures writer.new ≡ next_count (W.failures writer.old)) };
}

/// Plain lines.
pub(crate) struct PlainLines;

impl LineForm for PlainLines {
    ghost form = { Plain };

    #[inline(always)] // leaves the registers to the loop that prints
    fn push_line<W: Sink>(
        printer: &mut Printer<'_>,
        writer: &mut W,
        label: &Label,
        _at: usize,
        token: &Front<'_>,
    ) -> Result<(), WriteFault> {
        printer.lines.push_quoted_line(writer, label, token)
    }

    fn push_stuck<W: Sink>(
        printer: &mut Printer<'_>,
        writer: &mut W,
        byte: usize,
    ) -> Result<(), WriteFault> {
        printer.lines.push_no_rule_line(writer, byte as u64)
    }
}

/// Lines in JSON.
pub(crate) struct JsonLines;

impl LineForm for JsonLines {
    ghost form = { Json };

    fn push_line<W: Sink>(
        printer: &mut Printer<'_>,
        writer: &mut W,
        label: &Label,
        at: usize,
        token: &Front<'_>,
    ) -> Result<(), WriteFault> {
        printer.lines.push_label(writer, label)?;
        printer.push_span(writer, at, token.len())?;
        printer.push_content(writer, token)
    }

    fn push_stuck<W: Sink>(
        printer: &mut Printer<'_>,
        writer: &mut W,
        byte: usize,
    ) -> Result<(), WriteFault> {
        let mut room = [0u8; STUCK_ROOM];
        printer.spot.move_to(byte);
        let end = put_stuck(&mut room, byte, &printer.spot);
        printer.lines.push_bytes(writer, &room[..end])
    }
}

/// Writes the last line in JSON, for the byte at the spot, at the start of `room`. Returns its end.
fn put_stuck(room: &mut [u8], byte: usize, spot: &Spot<'_>) -> usize
    requires room { 256 ≤ length room.old }
    requires at { spot.now.at ≡ byte }
    ensures bytes { take result room.new ≡ end_line Json spot.now.text (Stuck byte) }
    ensures within { result ≤ length room.new }
{
    let named = put_bytes(room, 0, b"{\"error\":\"unmatched\",\"byte\":");
    let numbered = Decimal::new(byte as u64).put(room, named);
    let started = put_bytes(room, numbered, b",\"start\":");
    let middle = put_bytes(room, started, spot.before_end());
    let ended = put_bytes(room, middle, spot.alone());
    put_bytes(room, ended, b"}\n")
}

/// Appends the line of a token at an offset, if it has a label.
#[inline(always)] // leaves the registers to the loop that prints
pub(crate) fn push_if<F: LineForm, W: Sink>(
    printer: &mut Printer<'_>,
    writer: &mut W,
    label: Option<&Label>,
    at: usize,
    token: Front<'_>,
) -> Result<(), WriteFault>
    requires within { at + length token ≤ length printer.old.spot.text }
    requires countable { bytes_of printer.old.lines + length (labelled_lines F.form printer.old.spot.text
        (token_if (option_map (λ l. l.now) label) at token)) < 2 ^ 64 }
    ensures text { IsAppended printer.old.lines printer.new.lines (W.contents writer.old) (W.contents writer.new)
        (labelled_lines F.form printer.old.spot.text
        (token_if (option_map (λ l. l.now) label.entry) at token.entry)) result }
    ensures counted { OnOk result (bytes_of printer.new.lines ≡ bytes_of printer.old.lines
        + length (labelled_lines F.form printer.old.spot.text
        (token_if (option_map (λ l. l.now) label.entry) at token.entry))) }
    ensures same { printer.new.spot.text ≡ printer.old.spot.text }
    ensures no_failure { OnOk result (W.failures writer.new ≡ W.failures writer.old) }
    ensures failed { OnErr result (W.failures writer.new ≡ next_count (W.failures writer.old)) }
{
    match label {
        Some(label) => F::push_line(printer, writer, label, at, &token),
        None => Ok(()),
    }
}

/// Appends the last line for the given end, if it has one.
pub(crate) fn push_end<F: LineForm, W: Sink>(
    printer: &mut Printer<'_>,
    writer: &mut W,
    end: End,
) -> Result<(), WriteFault>
    requires within { (byte : ℕ) → end ≡ Stuck byte → byte ≤ length printer.old.spot.text }
    requires countable { bytes_of printer.old.lines + length (end_line F.form printer.old.spot.text end) < 2 ^ 64 }
    ensures text { IsAppended printer.old.lines printer.new.lines (W.contents writer.old) (W.contents writer.new)
        (end_line F.form printer.old.spot.text end) result }
    ensures counted { OnOk result (bytes_of printer.new.lines ≡ bytes_of printer.old.lines
        + length (end_line F.form printer.old.spot.text end)) }
    ensures no_failure { OnOk result (W.failures writer.new ≡ W.failures writer.old) }
    ensures failed { OnErr result (W.failures writer.new ≡ next_count (W.failures writer.old)) }
{
    match end {
        End::Clean | End::BadCut { .. } => Ok(()),
        End::Stuck { byte } => F::push_stuck(printer, writer, byte),
    }
}
