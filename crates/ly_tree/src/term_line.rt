ghost use Rattle.std.specs.Prelude.{◌≡◌, ◌++◌, [], ◌∷◌, IfErr, IfOk, IsSome, OnErr, OnOk};
ghost use Rattle.std.specs.Io.KnownBytes.{Appends};
ghost use Rattle.ly_base.specs.Bytes.{newline};
ghost use Rattle.ly_print.specs.Device.{next_count};
ghost use Rattle.ly_print.specs.TextWriter.{IsCutShort};
ghost use Rattle.ly_tree.specs.Costs.{IsBoundedBySize};
ghost use Rattle.ly_tree.specs.Forest.{term_of, StandsFor};
ghost use Rattle.ly_tree.specs.Shown.{shown};
ghost use Rattle.ly_tree.specs.Term.{Term};
ghost use Rattle.ly_tree.specs.Written.{written};

use crate::forest::{Forest, TermRef};
use crate::notation::TermNotation;
use crate::plain::Plain;
use crate::printing::Printing;
use crate::words::Words;
use ly_base::OutOfMemory;
use ly_print::{MemSink, Sink, TextWriter, WriteFault};
use std::alloc::Global;
use std::marker::Model;

/// The line of a term, ready to be written. All allocations have been made, so only a write can fail.
#[derive(Drop)]
pub struct TermLine<'f, N: TermNotation> {
    /// The term.
    root: TermRef,
    /// Its forest.
    forest: &'f Forest,
    /// The notation.
    notation: &'f N,
    /// The buffer for the text, empty so far.
    out: TextWriter,
    /// The rest of the term, with capacity for the waiting children.
    printing: Printing<'f>,
}

impl<'f, N: TermNotation> Model for TermLine<'f, N> {
    ghost use Rattle.std.specs.Prelude.{◌≡◌, ◌<◌, ◌^◌, ◌++◌, [], ◌∷◌, List, Some, length, vec_capacity, ℕ};
    ghost use Rattle.ly_base.specs.Bytes.{newline};
    ghost use Rattle.ly_tree.specs.Private.Printing.{term_text, IsOpen};

    ghost Value = { List ℕ };

    ghost view = { λ l. term_text (N.form l.notation.now) l.forest.now l.root ++ newline ∷ [] };

    ghost invariant = { λ l. (l.out ≡ record { sent = 0; held = [] }) × (l.printing.waiting.items ≡ [])
        × IsOpen l.forest.now l.printing.waiting.items l.printing.others (Some l.root) (vec_capacity l.printing.waiting)
        × (length (term_text (N.form l.notation.now) l.forest.now l.root ++ newline ∷ []) < 2 ^ 64) };
}

impl Forest {
    /// The line of a term. It fails if an allocation fails.
    pub fn line<'f, N: TermNotation>(
        &'f self,
        alloc: Global,
        notation: &'f N,
        root: TermRef,
    ) -> Result<TermLine<'f, N>, OutOfMemory>
        requires known { IsSome (term_of self.now root) }
        requires paid { (t : Term) → StandsFor self.now root t → IsBoundedBySize self.now t }
        ensures { IfOk result (λ l. (t : Term) → StandsFor self.now root t
            → l ≡ written (N.form notation.now) t ++ newline ∷ []) }
    {
        self.are_bytes();
        let most = notation.most().ok_or(OutOfMemory)?;
        // a line isn't longer than that
        self.longest_line(most).ok_or(OutOfMemory)?;
        Ok(TermLine {
            root,
            forest: self,
            notation,
            out: TextWriter::new(alloc)?,
            printing: Printing {
                others: self.no_children(),
                waiting: Vec::with_capacity(alloc, self.most_terms())?,
            },
        })
    }

    /// The plain text of a term. It fails if an allocation fails.
    pub fn show<W: Words>(
        &self,
        alloc: Global,
        words: &W,
        root: TermRef,
    ) -> Result<Vec<u8>, OutOfMemory>
        requires known { IsSome (term_of self.now root) }
        requires paid { (t : Term) → StandsFor self.now root t → IsBoundedBySize self.now t }
        ensures { IfOk result (λ bytes. (t : Term) → StandsFor self.now root t → bytes.items ≡ shown
            (record { terminal = W.terminals words.now; constructor = W.constructors words.now }) t) }
    {
        let plain = Plain::new(words);
        let line = self.line(alloc, &plain, root)?;
        let mut sink = MemSink::new(alloc);
        // its only failure is out of memory
        let Ok(()) = line.write(&mut sink) else {
            return Err(OutOfMemory);
        };
        let mut text = Vec::from_slice(alloc, sink.bytes())?;
        // the line's newline
        text.pop();
        Ok(text)
    }
}

impl<N: TermNotation> TermLine<'_, N> {
    /// Writes the line.
    ///
    /// It fails if the writer does.
    #[inline(never)] // so that its loop gets the registers
    pub fn write<S: Sink>(self, writer: &mut S) -> Result<(), WriteFault>
        ensures ok { OnOk result (Appends (S.contents writer.old) (S.contents writer.new) self.entry) }
        ensures cut_short { IfErr result (λ fault.
            IsCutShort (S.contents writer.old) (S.contents writer.new) fault.written self.entry) }
        ensures no_failure { OnOk result (S.failures writer.new ≡ S.failures writer.old) }
        ensures failed { OnErr result (S.failures writer.new ≡ next_count (S.failures writer.old)) }
    {
        let TermLine {
            root,
            forest,
            notation,
            out,
            printing,
        } = self;
        let mut out = out;
        let mut printing = printing;
        let mut next = Some(root);
        while let Some(term) = next {
            next = printing.print(&mut out, writer, forest, notation, term)?;
        }
        out.push(writer, b'\n')?;
        out.finish(writer)
    }
}
