ghost use Rattle.std.specs.Prelude.{◌≡◌, ◌<◌, ◌≤◌, ◌+◌, ◌^◌, ◌++◌, length, reverse, vec_capacity, vec_len, OnErr, OnOk};
ghost use Rattle.ly_feed.specs.NameMembers.{vocabulary_in};
ghost use Rattle.ly_places.specs.Private.Printing.{begun, closing, open_behind, part_text, still_open, IsSound};
ghost use Rattle.ly_print.specs.Device.{next_count};
ghost use Rattle.ly_print.specs.TextWriter.{bytes_of, IsAppended};

use crate::part::{Part, PartKind};
use crate::part_notation::PartNotation;
use ly_print::{Sink, TextWriter, WriteFault};

/// Parts that are being printed, with a stack in place of recursion.
#[derive(Drop)]
pub(crate) struct Printing {
    /// The text.
    pub(crate) out: TextWriter,
    /// For each open node, the outermost first, the number of parts after it.
    pub(crate) nodes: Vec<usize>,
    /// The line on which the part before the next one begins.
    pub(crate) line: u64,
}

impl Printing {
    /// Prints a part up to its first child, or, if it has none, up to the next part. This many parts are left after it.
    pub(crate) fn print<S: Sink>(
        &mut self,
        writer: &mut S,
        notation: &PartNotation<'_>,
        part: &Part,
        left: usize,
    ) -> Result<(), WriteFault>
        requires sound { IsSound (length notation.now.lines) part.now left }
        requires room { vec_len self.old.nodes < vec_capacity self.old.nodes }
        requires countable { bytes_of self.old.out + length (part_text (vocabulary_in notation.now.names)
            notation.now.lines part.now left (reverse self.old.nodes.items)) < 2 ^ 64 }
        ensures text { IsAppended self.old.out self.new.out (S.contents writer.old) (S.contents writer.new)
            (part_text (vocabulary_in notation.now.names) notation.now.lines part.now left
            (reverse self.old.nodes.items)) result }
        ensures counted { OnOk result (bytes_of self.new.out ≡ bytes_of self.old.out
            + length (part_text (vocabulary_in notation.now.names) notation.now.lines part.now left
            (reverse self.old.nodes.items))) }
        ensures nodes { OnOk result
            (reverse self.new.nodes.items ≡ open_behind part.now left (reverse self.old.nodes.items)) }
        ensures depth { OnOk result (vec_len self.new.nodes ≤ 1 + vec_len self.old.nodes) }
        ensures capacity { vec_capacity self.new.nodes ≡ vec_capacity self.old.nodes }
        ensures no_failure { OnOk result (S.failures writer.new ≡ S.failures writer.old) }
        ensures failed { OnErr result (S.failures writer.new ≡ next_count (S.failures writer.old)) }
    {
        notation.push_opening(&mut self.out, writer, part, &mut self.line)?;
        self.begin(part, left);
        if part.parts > 1 {
            return Ok(());
        }
        self.close(writer, left)
    }

    /// Opens a node with this many parts left after it, if the part is a node.
    fn begin(&mut self, part: &Part, left: usize)
        requires some { 1 ≤ part.now.parts }
        requires left { part.now.parts ≤ 1 + left }
        requires room { vec_len self.old.nodes < vec_capacity self.old.nodes }
        ensures nodes { reverse self.new.nodes.items
            ≡ begun part.now.kind part.now.parts left (reverse self.old.nodes.items) }
        ensures depth { vec_len self.new.nodes ≤ 1 + vec_len self.old.nodes }
        ensures capacity { vec_capacity self.new.nodes ≡ vec_capacity self.old.nodes }
        ensures out { self.new.out ≡ self.old.out }
    {
        match part.kind {
            PartKind::Nothing | PartKind::Token(_) => {}
            PartKind::Node(_) => self.nodes.push_reserved(left - (part.parts - 1)),
        }
    }

    /// Closes the nodes that end where this many parts are left, and prints a comma unless that closes all of them.
    fn close<S: Sink>(&mut self, writer: &mut S, left: usize) -> Result<(), WriteFault>
        requires countable { bytes_of self.old.out + length (closing left (reverse self.old.nodes.items)) < 2 ^ 64 }
        ensures text { IsAppended self.old.out self.new.out (S.contents writer.old) (S.contents writer.new)
            (closing left (reverse self.old.nodes.items)) result }
        ensures counted { OnOk result (bytes_of self.new.out
            ≡ bytes_of self.old.out + length (closing left (reverse self.old.nodes.items))) }
        ensures nodes { OnOk result
            (reverse self.new.nodes.items ≡ still_open left (reverse self.old.nodes.items)) }
        ensures depth { vec_len self.new.nodes ≤ vec_len self.old.nodes }
        ensures capacity { vec_capacity self.new.nodes ≡ vec_capacity self.old.nodes }
        ensures no_failure { OnOk result (S.failures writer.new ≡ S.failures writer.old) }
        ensures failed { OnErr result (S.failures writer.new ≡ next_count (S.failures writer.old)) }
    {
        while let Some(behind) = self.nodes.last().copied() {
            if behind != left {
                return self.out.push(writer, b',');
            }
            self.nodes.pop();
            self.out.push_bytes(writer, b"]}")?;
        }
        Ok(())
    }
}
