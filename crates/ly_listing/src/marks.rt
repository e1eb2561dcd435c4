//! The tokens that a first walk over a text has found. With them the lines are written without a second walk.
ghost use Rattle.std.specs.Prelude.{◌≡◌, ◌<◌, ◌≤◌, ◌+◌, ◌-◌, ◌*◌, ◌^◌, [], length, drop, true, false};
ghost use Rattle.std.specs.Prelude.{option_map, OnErr, OnOk};
ghost use Rattle.ly_print.specs.Device.{next_count};
ghost use Rattle.ly_print.specs.TextWriter.{bytes_of, IsAppended};
ghost use Rattle.ly_base.specs.Lexed.{token_if};
ghost use Rattle.ly_listing.specs.Labels.{labelled_lines};
ghost use Rattle.ly_listing.specs.Private.Marks.{gap_of, is_wide, label_of, marked_tokens, taken_of, AreWithin};
ghost use Rattle.ly_listing.specs.Private.Marks.{IsNoted, IsNotedIf};

use crate::printer::{LineForm, Printer, push_if};
use crate::rule_labels::RuleLabels;
use ly_base::{End, Place};
use ly_print::{Front, Label, Sink, WriteFault};
use std::alloc::Global;

/// Added to a mark's label index if both of the mark's bytes hold the token's length. Then no skipped bytes precede the
/// token.
const WIDE: u16 = 32_768;

/// The label index for no label: the bytes are skipped.
const NO_LABEL: u16 = 32_767;

/// One printed token in four bytes. A token that is long, or far from the one before, takes two marks.
#[derive(Clone, Copy)]
pub(crate) struct Mark {
    /// The index of the token's label. In a wide mark `WIDE` is added to it.
    label: u16,
    /// How many skipped bytes precede the token. In a wide mark it is the token's length divided by 256.
    gap: u8,
    /// The length of the token in bytes. In a wide mark it is the length modulo 256.
    taken: u8,
}

impl Mark {
    /// Whether both bytes hold the token's length.
    fn is_wide(self) -> bool
        ensures { result ≡ is_wide self }
    {
        WIDE <= self.label
    }

    /// How many skipped bytes precede the token.
    fn gap(self) -> usize
        ensures { result ≡ gap_of self }
    {
        if self.is_wide() {
            0
        } else {
            usize::from(self.gap)
        }
    }

    /// The length of the token in bytes.
    fn taken(self) -> usize
        ensures { result ≡ taken_of self }
    {
        if self.is_wide() {
            usize::from(self.gap) * 256 + usize::from(self.taken)
        } else {
            usize::from(self.taken)
        }
    }

    /// The token's label, if it has one.
    #[inline(always)]
    fn label(self, labels: &[Label]) -> Option<&Label>
        ensures { option_map (λ l. l.now) result ≡ label_of labels.now self }
    {
        let place = if self.is_wide() {
            self.label - WIDE
        } else {
            self.label
        };
        if place == NO_LABEL {
            return None;
        }
        labels.get(usize::from(place))
    }
}

/// Collects the marks of the printed tokens from the start of a text on.
#[derive(Drop)]
pub(crate) struct Marks {
    /// The marks so far.
    pub(crate) marks: Vec<Mark>,
    /// How many bytes of the text follow the last marked token.
    pub(crate) left: usize,
}

impl Marks {
    /// No marks yet, in a text with this many bytes left.
    pub(crate) fn new(alloc: Global, left: usize) -> Marks
        ensures none { result.marks.items ≡ [] }
        ensures left { result.left ≡ left }
    {
        Marks {
            marks: Vec::new(alloc),
            left,
        }
    }

    /// Notes a token of `taken` bytes that starts where `left` bytes are left, if it has a label. Returns false if
    /// there is no mark for it or no memory.
    #[inline(always)] // to leave the marking loop the registers
    pub(crate) fn note_if(&mut self, left: usize, label: Option<usize>, taken: usize) -> bool
        requires left { left ≤ self.old.left }
        requires taken { taken ≤ left }
        ensures noted { result ≡ true → IsNotedIf self.old.marks.items self.old.left self.new.marks.items self.new.left
            left label taken }
        ensures same { result ≡ false → self.new.marks.items ≡ self.old.marks.items }
        ensures left { result ≡ false → self.new.left ≡ self.old.left }
    {
        match label {
            Some(place) => self.note(left, place, taken),
            None => true,
        }
    }

    /// Notes a token of `taken` bytes that starts where `left` bytes are left.
    #[inline(always)] // to leave the marking loop the registers
    fn note(&mut self, left: usize, place: usize, taken: usize) -> bool
        requires left { left ≤ self.old.left }
        requires taken { taken ≤ left }
        ensures noted { result ≡ true → IsNoted self.old.marks.items self.old.left self.new.marks.items self.new.left
            left place taken }
        ensures same { result ≡ false → self.new.marks.items ≡ self.old.marks.items }
        ensures left { result ≡ false → self.new.left ≡ self.old.left }
    {
        let gap = self.left - left;
        if NO_LABEL as usize <= place || 256 <= gap || 256 <= taken {
            return self.note_far(left, place, taken);
        }
        if self.marks.reserve(1).is_err() {
            return false;
        }
        self.marks.push_reserved(Mark {
            label: place as u16,
            gap: gap as u8,
            taken: taken as u8,
        });
        self.left = left - taken;
        true
    }

    /// Notes a token that is long or far from the one before: a mark for the skipped bytes and one for the token.
    #[inline(never)] // to leave the callers the registers
    fn note_far(&mut self, left: usize, place: usize, taken: usize) -> bool
        requires left { left ≤ self.old.left }
        requires taken { taken ≤ left }
        ensures noted { result ≡ true → IsNoted self.old.marks.items self.old.left self.new.marks.items self.new.left
            left place taken }
        ensures same { result ≡ false → self.new.marks.items ≡ self.old.marks.items }
        ensures left { result ≡ false → self.new.left ≡ self.old.left }
    {
        let gap = self.left - left;
        if NO_LABEL as usize <= place || 65_536 <= gap || 65_536 <= taken {
            return false;
        }
        if self.marks.reserve(2).is_err() {
            return false;
        }
        self.marks.push_reserved(wide(NO_LABEL, gap));
        self.marks.push_reserved(wide(place as u16, taken));
        self.left = left - taken;
        true
    }
}

/// A wide mark for this many bytes, with the label at an index.
fn wide(place: u16, bytes: usize) -> Mark
    requires place { place ≤ 32767 }
    requires bytes { bytes < 65536 }
    ensures label { result.label ≡ 32768 + place }
    ensures bytes { result.gap * 256 + result.taken ≡ bytes }
{
    Mark {
        label: WIDE + place,
        gap: (bytes / 256) as u8,
        taken: (bytes % 256) as u8,
    }
}

/// What the first walk over a text has found.
#[derive(Drop)]
pub(crate) struct Walked<'t> {
    /// How lexing the text ends.
    pub(crate) end: End,
    /// The marks of the printed tokens before `place`.
    pub(crate) marks: Vec<Mark>,
    /// Where the marks end.
    pub(crate) place: Place<'t>,
}

/// Writes the lines of the marked tokens, which start at the beginning of a text.
#[inline(never)] // to leave it the registers
pub(crate) fn write_marked<F: LineForm, W: Sink>(
    marks: &[Mark],
    text: &[u8],
    labels: &RuleLabels,
    printer: &mut Printer<'_>,
    writer: &mut W,
) -> Result<(), WriteFault>
    requires text { printer.old.spot.text ≡ text.now }
    requires within { AreWithin marks.now text.now }
    requires countable { let lines = labelled_lines F.form text.now
        (marked_tokens labels.now.labels.items (length text.now) marks.now text.now) in
        bytes_of printer.old.lines + length lines < 2 ^ 64 }
    ensures told { IsAppended printer.old.lines printer.new.lines (W.contents writer.old) (W.contents writer.new)
        (labelled_lines F.form text.now
        (marked_tokens labels.now.labels.items (length text.now) marks.now text.now)) result }
    ensures counted { OnOk result (bytes_of printer.new.lines ≡ bytes_of printer.old.lines
        + length (labelled_lines F.form text.now
        (marked_tokens labels.now.labels.items (length text.now) marks.now text.now))) }
    ensures text { printer.new.spot.text ≡ text.now }
    ensures no_failure { OnOk result (W.failures writer.new ≡ W.failures writer.old) }
    ensures failed { OnErr result (W.failures writer.new ≡ next_count (W.failures writer.old)) }
{
    let mut rest = text;
    for mark in marks {
        let there = behind(rest, mark.gap());
        let taken = mark.taken();
        let at = text.len() - there.len();
        let label = mark.label(&labels.labels);
        push_if::<F, W>(printer, writer, label, at, Front::new(there, taken))?;
        rest = behind(there, taken);
    }
    Ok(())
}

/// The bytes after the first `count`.
#[inline(always)]
fn behind(bytes: &[u8], count: usize) -> &[u8]
    requires { count ≤ length bytes.now }
    ensures { result.now ≡ drop count bytes.now }
{
    &bytes[count..]
}
