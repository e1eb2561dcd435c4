ghost use Rattle.std.specs.Prelude.{◌≡◌};
ghost use Rattle.ly_tree.specs.Shown.{plain, Vocabulary};

use crate::notation::{MostBytes, TermNotation};
use crate::words::Words;
use ly_base::{RuleNo, Sym};
use ly_print::{Front, Label, Sink, TextWriter, WriteFault};

/// The plain text of terms with names: nothing as `()`, a leaf as `NUM"12"`, and a node as `Add(NUM"1",NUM"2")`.
#[derive(Drop)]
pub struct Plain<'w, W: Words> {
    /// The names.
    words: &'w W,
}

impl<'w, W: Words> Plain<'w, W> {
    /// The notation with these names.
    pub fn new(words: &'w W) -> Self
        ensures { result.words.now ≡ words.now }
    {
        Plain { words }
    }
}

impl<W: Words> TermNotation for Plain<'_, W> {
    ghost form = { λ n. plain (record {
      terminal = W.terminals n.words.now;
      constructor = W.constructors n.words.now;
    }) };

    #[inline(always)] // so that the loop over terms gets the registers
    fn no_term(&self) -> &[u8] {
        b"()"
    }

    #[inline(always)]
    fn opens(&self, rule: RuleNo) -> &Label {
        self.words.node_label(rule)
    }

    #[inline(always)]
    fn push_leaf<S: Sink>(
        &self,
        out: &mut TextWriter,
        writer: &mut S,
        terminal: Sym,
        text: &Front<'_>,
    ) -> Result<(), WriteFault> {
        out.push_quoted(writer, self.words.leaf_label(terminal), text)
    }

    #[inline(always)]
    fn push_closes<S: Sink>(&self, out: &mut TextWriter, writer: &mut S) -> Result<(), WriteFault> {
        out.push(writer, b')')
    }

    fn most(&self) -> Option<MostBytes> {
        // an escape has four bytes, and a quote and a comma follow a text
        Some(MostBytes {
            of_term: self.words.longest().checked_add(4)?,
            of_byte: 4,
        })
    }
}
