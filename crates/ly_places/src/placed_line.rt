ghost use Rattle.std.specs.Prelude.{◌≡◌, ◌≤◌, ◌++◌, [], ◌∷◌, length, IfErr, IfOk, OnErr, OnOk};
ghost use Rattle.std.specs.Io.KnownBytes.{Appends};
ghost use Rattle.ly_base.specs.Bytes.{newline};
ghost use Rattle.ly_feed.specs.NameMembers.{vocabulary_in};
ghost use Rattle.ly_places.specs.Parts.{parts_of};
ghost use Rattle.ly_places.specs.Placed.{Placed};
ghost use Rattle.ly_places.specs.PlacedJson.{placed_json};
ghost use Rattle.ly_places.specs.Within.{StandsWithin};
ghost use Rattle.ly_print.specs.Device.{next_count};
ghost use Rattle.ly_print.specs.TextWriter.{IsCutShort};

use crate::part::Part;
use crate::part_notation::PartNotation;
use crate::printing::Printing;
use ly_base::OutOfMemory;
use ly_feed::NameLabels;
use ly_print::{Sink, TextWriter, WriteFault};
use std::alloc::Global;
use std::marker::Model;

/// The line of JSON of a tree with spans, ready to be written. All allocations have been made, so only a write can
/// fail.
#[derive(Drop)]
pub struct PlacedLine<'a> {
    /// The parts of the tree.
    parts: &'a [Part],
    /// The notation.
    notation: PartNotation<'a>,
    /// The text, and capacity for the nodes around a part.
    printing: Printing,
}

impl<'a> Model for PlacedLine<'a> {
    ghost use Rattle.std.specs.Prelude.{◌≡◌, ◌<◌, ◌≤◌, ◌^◌, ◌++◌, [], ◌∷◌, List, length, vec_capacity, ℕ};
    ghost use Rattle.ly_base.specs.Bytes.{newline};
    ghost use Rattle.ly_feed.specs.NameMembers.{vocabulary_in};
    ghost use Rattle.ly_places.specs.Private.Printing.{parts_text, AreSound};

    ghost Value = { List ℕ };

    ghost view = { λ l. parts_text (vocabulary_in l.notation.names) l.notation.lines [] l.parts.now ++ newline ∷ [] };

    ghost invariant = { λ l. (l.printing.out ≡ record { sent = 0; held = [] }) × (l.printing.nodes.items ≡ [])
        × AreSound (length l.notation.lines) l.parts.now × (length l.parts.now ≤ vec_capacity l.printing.nodes)
        × (length (parts_text (vocabulary_in l.notation.names) l.notation.lines [] l.parts.now ++ newline ∷ [])
        < 2 ^ 64) };
}

impl<'a> PlacedLine<'a> {
    /// The line of a tree from its parts, whose spans are within a text. It fails if an allocation fails.
    pub fn new(
        alloc: Global,
        names: NameLabels<'a>,
        text: &'a [u8],
        parts: &'a [Part],
    ) -> Result<PlacedLine<'a>, OutOfMemory>
        requires placed { (t : Placed) × (parts.now ≡ parts_of t) × StandsWithin (length text.now) t }
        ensures { IfOk result (λ line. (t : Placed) → parts.now ≡ parts_of t
            → line ≡ placed_json (vocabulary_in names.entry) text.now t ++ newline ∷ []) }
    {
        let notation = PartNotation::new(alloc, names, text)?;
        // a line isn't longer than that
        notation.longest_line(parts).ok_or(OutOfMemory)?;
        Ok(PlacedLine {
            parts,
            notation,
            printing: Printing {
                out: TextWriter::new(alloc)?,
                nodes: Vec::with_capacity(alloc, parts.len())?,
                line: 1,
            },
        })
    }

    /// Writes the line.
    ///
    /// It fails if the writer does.
    pub fn write<S: Sink>(self, writer: &mut S) -> Result<(), WriteFault>
        ensures ok { OnOk result (Appends (S.contents writer.old) (S.contents writer.new) self.entry) }
        ensures cut_short { IfErr result (λ fault.
            IsCutShort (S.contents writer.old) (S.contents writer.new) fault.written self.entry) }
        ensures no_failure { OnOk result (S.failures writer.new ≡ S.failures writer.old) }
        ensures failed { OnErr result (S.failures writer.new ≡ next_count (S.failures writer.old)) }
    {
        let PlacedLine {
            parts,
            notation,
            printing,
        } = self;
        let mut printing = printing;
        let mut rest = parts;
        while let Some((part, behind)) = rest.split_first() {
            printing.print(writer, &notation, part, behind.len())?;
            rest = behind;
        }
        printing.out.push(writer, b'\n')?;
        printing.out.finish(writer)
    }
}
