ghost use Rattle.std.specs.Prelude.{◌≡◌, ◌<◌, ◌≤◌, ◌+◌, ◌^◌, ◌++◌, [], length, codes, sum_by, take, IfOk, IfSome};
ghost use Rattle.std.specs.Prelude.{OnErr, OnOk};
ghost use Rattle.ly_base.specs.Location.{column_behind, line_behind};
ghost use Rattle.ly_feed.specs.NameMembers.{vocabulary_in};
ghost use Rattle.ly_spans.specs.Spans.{bytes_at, json_span, json_location, IsWithin};
ghost use Rattle.ly_places.specs.Private.Printing.{most_of, opening, parts_text, AreSound};
ghost use Rattle.ly_places.specs.declared.part.PartKind.TheVariants.{Node, Token};
ghost use Rattle.ly_print.specs.Device.{next_count};
ghost use Rattle.ly_print.specs.TextWriter.{bytes_of, IsAppended};

use crate::part::{Part, PartKind};
use ly_base::{Location, OutOfMemory, RuleNo, Sym};
use ly_feed::NameLabels;
use ly_print::{Front, Label, Sink, TextWriter, WriteFault, are_bytes};
use ly_spans::{LineStarts, Span};
use std::alloc::Global;

/// The maximum number of bytes of a part without its name and content: 146 for its positions with their keys, 13 for
/// the key of its children, two for its end, and one for a comma.
const BESIDE: usize = 162;

/// The notation of parts: the labels of their names, and the lines of the text for their locations.
#[derive(Drop)]
pub(crate) struct PartNotation<'a> {
    /// The text before the positions of tokens and nodes.
    pub(crate) names: NameLabels<'a>,
    /// The text, and the offsets at which its lines begin.
    pub(crate) lines: LineStarts<'a>,
    /// The text before the content of a token.
    comma: Label,
    ghost is_comma: { comma ≡ codes "," },
}

impl<'a> PartNotation<'a> {
    /// The notation for parts of this text. It fails if an allocation fails.
    pub(crate) fn new(
        alloc: Global,
        names: NameLabels<'a>,
        text: &'a [u8],
    ) -> Result<PartNotation<'a>, OutOfMemory>
        ensures names { IfOk result (λ n. n.names ≡ names.entry) }
        ensures text { IfOk result (λ n. n.lines ≡ text.now) }
    {
        Ok(PartNotation {
            names,
            lines: LineStarts::of(alloc, text)?,
            comma: Label::new(Vec::from_slice(alloc, b",")?)?,
        })
    }

    /// The maximum length in bytes of a line of these parts, with its newline. None if it doesn't fit in a number.
    pub(crate) fn longest_line(&self, parts: &[Part]) -> Option<usize>
        requires { AreSound (length self.now.lines) parts.now }
        ensures { IfSome result (λ most. (length (parts_text (vocabulary_in self.now.names) self.now.lines []
            parts.now) + 1 ≤ most) × (most < 2 ^ 64)) }
    {
        are_bytes(self.lines.text());
        most_bytes(parts, self.names.longest().checked_add(BESIDE)?)
    }

    /// Prints the opening of a part, before its children. That is all of it unless it is a node. The search for the
    /// line on which the part begins starts at that of the part before it.
    ///
    /// It fails if the writer does.
    pub(crate) fn push_opening<S: Sink>(
        &self,
        out: &mut TextWriter,
        writer: &mut S,
        part: &Part,
        line: &mut u64,
    ) -> Result<(), WriteFault>
        requires within { IsWithin (length self.now.lines) part.now.extent }
        requires countable { bytes_of out.old
            + length (opening (vocabulary_in self.now.names) self.now.lines part.now.kind part.now.extent) < 2 ^ 64 }
        ensures text { IsAppended out.old out.new (S.contents writer.old) (S.contents writer.new)
            (opening (vocabulary_in self.now.names) self.now.lines part.now.kind part.now.extent) result }
        ensures counted { OnOk result (bytes_of out.new ≡ bytes_of out.old
            + length (opening (vocabulary_in self.now.names) self.now.lines part.now.kind part.now.extent)) }
        ensures no_failure { OnOk result (S.failures writer.new ≡ S.failures writer.old) }
        ensures failed { OnErr result (S.failures writer.new ≡ next_count (S.failures writer.old)) }
    {
        match part.kind {
            PartKind::Nothing => out.push_bytes(writer, b"null"),
            PartKind::Token(terminal) => self.push_token(out, writer, terminal, part.extent, line),
            PartKind::Node(rule) => self.push_node(out, writer, rule, part.extent, line),
        }
    }

    /// Prints a token.
    fn push_token<S: Sink>(
        &self,
        out: &mut TextWriter,
        writer: &mut S,
        terminal: Sym,
        extent: Span,
        line: &mut u64,
    ) -> Result<(), WriteFault>
        requires within { IsWithin (length self.now.lines) extent }
        requires countable { bytes_of out.old
            + length (opening (vocabulary_in self.now.names) self.now.lines (Token terminal) extent) < 2 ^ 64 }
        ensures text { IsAppended out.old out.new (S.contents writer.old) (S.contents writer.new)
            (opening (vocabulary_in self.now.names) self.now.lines (Token terminal) extent) result }
        ensures counted { OnOk result (bytes_of out.new ≡ bytes_of out.old
            + length (opening (vocabulary_in self.now.names) self.now.lines (Token terminal) extent)) }
        ensures no_failure { OnOk result (S.failures writer.new ≡ S.failures writer.old) }
        ensures failed { OnErr result (S.failures writer.new ≡ next_count (S.failures writer.old)) }
    {
        out.push_label(writer, self.names.leaf(terminal))?;
        self.push_extent(out, writer, extent, line)?;
        out.push_json_leaf(writer, &self.comma, &self.bytes_at(extent))
    }

    /// The bytes of the text in this span.
    fn bytes_at(&self, extent: Span) -> Front<'a>
        requires { IsWithin (length self.now.lines) extent }
        ensures { result ≡ bytes_at self.now.lines extent }
    {
        let text = &self.lines.text()[extent.start..];
        Front::new(text, extent.end - extent.start)
    }

    /// Prints the opening of a node, before its children.
    fn push_node<S: Sink>(
        &self,
        out: &mut TextWriter,
        writer: &mut S,
        rule: RuleNo,
        extent: Span,
        line: &mut u64,
    ) -> Result<(), WriteFault>
        requires within { IsWithin (length self.now.lines) extent }
        requires countable { bytes_of out.old
            + length (opening (vocabulary_in self.now.names) self.now.lines (Node rule) extent) < 2 ^ 64 }
        ensures text { IsAppended out.old out.new (S.contents writer.old) (S.contents writer.new)
            (opening (vocabulary_in self.now.names) self.now.lines (Node rule) extent) result }
        ensures counted { OnOk result (bytes_of out.new ≡ bytes_of out.old
            + length (opening (vocabulary_in self.now.names) self.now.lines (Node rule) extent)) }
        ensures no_failure { OnOk result (S.failures writer.new ≡ S.failures writer.old) }
        ensures failed { OnErr result (S.failures writer.new ≡ next_count (S.failures writer.old)) }
    {
        out.push_label(writer, self.names.node(rule))?;
        self.push_extent(out, writer, extent, line)?;
        out.push_bytes(writer, b",\"children\":[")
    }

    /// Prints the span of a part, and returns the line on which it begins.
    fn push_extent<S: Sink>(
        &self,
        out: &mut TextWriter,
        writer: &mut S,
        extent: Span,
        line: &mut u64,
    ) -> Result<(), WriteFault>
        requires within { IsWithin (length self.now.lines) extent }
        requires countable { bytes_of out.old + length (json_span self.now.lines extent) < 2 ^ 64 }
        ensures text { IsAppended out.old out.new (S.contents writer.old) (S.contents writer.new)
            (json_span self.now.lines extent) result }
        ensures counted { OnOk result (bytes_of out.new
            ≡ bytes_of out.old + length (json_span self.now.lines extent)) }
        ensures no_failure { OnOk result (S.failures writer.new ≡ S.failures writer.old) }
        ensures failed { OnErr result (S.failures writer.new ≡ next_count (S.failures writer.old)) }
    {
        let start = self.lines.locate_near(extent.start, *line);
        let end = self.lines.locate_near(extent.end, start.line);
        *line = start.line;
        self.push_place(out, writer, b",\"start\":", extent.start, start)?;
        self.push_place(out, writer, b",\"end\":", extent.end, end)
    }

    /// Prints a key, and an offset with its location.
    fn push_place<S: Sink>(
        &self,
        out: &mut TextWriter,
        writer: &mut S,
        key: &[u8],
        offset: usize,
        location: Location,
    ) -> Result<(), WriteFault>
        requires line { location.line ≡ line_behind (take offset self.now.lines) }
        requires column { location.column ≡ column_behind (take offset self.now.lines) }
        requires countable { bytes_of out.old + length (key.now ++ json_location self.now.lines offset) < 2 ^ 64 }
        ensures text { IsAppended out.old out.new (S.contents writer.old) (S.contents writer.new)
            (key.now ++ json_location self.now.lines offset) result }
        ensures counted { OnOk result (bytes_of out.new
            ≡ bytes_of out.old + length (key.now ++ json_location self.now.lines offset)) }
        ensures no_failure { OnOk result (S.failures writer.new ≡ S.failures writer.old) }
        ensures failed { OnErr result (S.failures writer.new ≡ next_count (S.failures writer.old)) }
    {
        out.push_bytes(writer, key)?;
        out.push_json_location(writer, offset as u64, location)
    }
}

/// An upper bound on the bytes of these parts and a newline, if each part takes at most this many bytes without its
/// content.
fn most_bytes(parts: &[Part], each: usize) -> Option<usize>
    ensures { IfSome result (λ most. (most ≡ 1 + sum_by (most_of each) parts.now) × (most < 2 ^ 64)) }
{
    let mut most = 1usize;
    for part in parts {
        let content = part.extent.len().checked_mul(6)?;
        most = most.checked_add(each.checked_add(content)?)?;
    }
    Some(most)
}
