ghost use Rattle.std.specs.Prelude.{◌≡◌, ◌<◌, ◌+◌, ◌^◌, length, IfSome, OnErr, OnOk};
ghost use Rattle.ly_print.specs.Device.{next_count};
ghost use Rattle.ly_print.specs.TextWriter.{bytes_of, IsAppended};
ghost use Rattle.ly_tree.specs.Written.{IsWithin, Notation};

use ly_base::{RuleNo, Sym};
use ly_print::{Front, Label, Sink, TextWriter, WriteFault};

/// The maximum number of bytes written.
#[derive(Clone, Copy, Debug, PartialEq, Eq)]
pub struct MostBytes {
    /// The number for a term, including a comma after it and its closing bytes.
    pub of_term: usize,
    /// The number for each byte of a leaf.
    pub of_byte: usize,
}

/// A notation for terms.
pub trait TermNotation {
    /// The notation as definitions see it.
    ghost form: { Self → Notation };

    /// The text of nothing.
    fn no_term(&self) -> &[u8]
        ensures { result.now ≡ (form self.now).no_term };

    /// The opening of a node, before its children.
    fn opens(&self, rule: RuleNo) -> &Label
        ensures { result.now ≡ (form self.now).opens rule.0 };

    /// Writes a leaf.
    ///
    /// It fails if the writer does.
    fn push_leaf<S: Sink>(
        &self,
        out: &mut TextWriter,
        writer: &mut S,
        terminal: Sym,
        text: &Front<'_>,
    ) -> Result<(), WriteFault>
        requires countable { bytes_of out.old + length ((form self.now).leaf_text terminal.0 text.now) < 2 ^ 64 }
        ensures text { IsAppended out.old out.new (S.contents writer.old) (S.contents writer.new)
            ((form self.now).leaf_text terminal.0 text.now) result }
        ensures counted { OnOk result (bytes_of out.new
            ≡ bytes_of out.old + length ((form self.now).leaf_text terminal.0 text.now)) }
        ensures no_failure { OnOk result (S.failures writer.new ≡ S.failures writer.old) }
        ensures failed { OnErr result (S.failures writer.new ≡ next_count (S.failures writer.old)) };

    /// Writes the closing of a node, after its children.
    ///
    /// It fails if the writer does.
    fn push_closes<S: Sink>(&self, out: &mut TextWriter, writer: &mut S) -> Result<(), WriteFault>
        requires countable { bytes_of out.old + length (form self.now).closes < 2 ^ 64 }
        ensures text { IsAppended out.old out.new (S.contents writer.old) (S.contents writer.new)
            (form self.now).closes result }
        ensures counted { OnOk result (bytes_of out.new ≡ bytes_of out.old + length (form self.now).closes) }
        ensures no_failure { OnOk result (S.failures writer.new ≡ S.failures writer.old) }
        ensures failed { OnErr result (S.failures writer.new ≡ next_count (S.failures writer.old)) };

    /// The maximum number of bytes written. None if it doesn't fit in a number.
    fn most(&self) -> Option<MostBytes>
        ensures { IfSome result (λ m. IsWithin (form self.now) m.of_term m.of_byte) };
}
