ghost use Rattle.std.specs.Prelude.{◌≡◌, ◌<◌, ◌≤◌, ◌+◌, ◌++◌, ◌^◌, [], length, IfOk, IsSome, None, Ok, OnErr};
ghost use Rattle.std.specs.Prelude.{OnOk, Some, vec_capacity};
ghost use Rattle.ly_print.specs.Device.{next_count};
ghost use Rattle.ly_print.specs.TextWriter.{bytes_of};
ghost use Rattle.ly_tree.specs.Forest.{term_of, Grown};
ghost use Rattle.ly_tree.specs.Private.Printing.{left_text, next_text, opening, term_at, term_text, terms_left};
ghost use Rattle.ly_tree.specs.Private.Printing.{HasChildren, IsAlone, IsOpen, IsPrinted, IsPut};

use crate::forest::{Forest, TermRef};
use crate::notation::TermNotation;
use ly_base::{RuleNo, Sym};
use ly_print::{Front, Sink, TextWriter, WriteFault};

/// The unprinted rest of a term, with a stack in place of recursion. The text isn't a field, because it is passed by
/// reference and would keep the fields out of registers.
#[derive(Drop)]
pub(crate) struct Printing<'f> {
    /// The remaining children, after the one being printed, of the innermost open node.
    pub(crate) others: &'f [TermRef],
    /// For each open node around that one, the outermost first, its remaining children; before them all, an empty list.
    pub(crate) waiting: Vec<&'f [TermRef]>,
}

impl<'f> Printing<'f> {
    /// Prints a term up to its first child, and returns that child. A term without children is printed completely, with
    /// what precedes the next term. Then the next term is returned, if there is one.
    #[inline(always)] // so that the loop over terms gets the registers
    pub(crate) fn print<N: TermNotation, S: Sink>(
        &mut self,
        out: &mut TextWriter,
        writer: &mut S,
        forest: &'f Forest,
        notation: &N,
        term: TermRef,
    ) -> Result<Option<TermRef>, WriteFault>
        requires stands { IsOpen forest.now self.old.waiting.items self.old.others (Some term)
            (vec_capacity self.old.waiting) }
        requires countable { bytes_of out.old + length (term_text (N.form notation.now) forest.now term
            ++ left_text (N.form notation.now) forest.now self.old.waiting.items self.old.others) < 2 ^ 64 }
        ensures printed { IsPrinted out.old out.new (S.contents writer.old) (S.contents writer.new)
            (term_text (N.form notation.now) forest.now term
            ++ left_text (N.form notation.now) forest.now self.old.waiting.items self.old.others)
            (λ next. next_text (N.form notation.now) forest.now next
            ++ left_text (N.form notation.now) forest.now self.new.waiting.items self.new.others) result }
        ensures fewer { IfOk result (λ next. terms_left forest.now next self.new.waiting.items self.new.others
            < terms_left forest.now (Some term) self.old.waiting.items self.old.others) }
        ensures stands { IfOk result (λ next. IsOpen forest.now self.new.waiting.items self.new.others next
            (vec_capacity self.new.waiting)) }
        ensures ends { result ≡ Ok None → self.new.waiting.items ≡ [] }
        ensures capacity { vec_capacity self.new.waiting ≡ vec_capacity self.old.waiting }
        ensures no_failure { OnOk result (S.failures writer.new ≡ S.failures writer.old) }
        ensures failed { OnErr result (S.failures writer.new ≡ next_count (S.failures writer.old)) }
    {
        let Some(children) = begin(out, writer, forest, notation, term)? else {
            return self.go_on(out, writer, notation);
        };
        self.waiting.push_reserved(self.others);
        let Some((first, others)) = children.split_first() else {
            self.others = children;
            return self.go_on(out, writer, notation);
        };
        self.others = others;
        Ok(Some(*first))
    }

    /// Prints what precedes the next term, and returns that term, if there is one.
    #[inline(always)] // so that the loop over terms gets the registers
    fn go_on<N: TermNotation, S: Sink>(
        &mut self,
        out: &mut TextWriter,
        writer: &mut S,
        notation: &N,
    ) -> Result<Option<TermRef>, WriteFault>
        requires alone { IsAlone self.old.waiting.items self.old.others }
        requires countable { (f : Grown) × (bytes_of out.old
            + length (left_text (N.form notation.now) f self.old.waiting.items self.old.others) < 2 ^ 64) }
        ensures printed { (f : Grown) → IsPrinted out.old out.new (S.contents writer.old)
            (S.contents writer.new) (left_text (N.form notation.now) f self.old.waiting.items self.old.others)
            (λ next. next_text (N.form notation.now) f next
            ++ left_text (N.form notation.now) f self.new.waiting.items self.new.others) result }
        ensures fewer { (f : Grown) → IfOk result (λ next. terms_left f next self.new.waiting.items self.new.others
            ≤ terms_left f None self.old.waiting.items self.old.others) }
        ensures stands { (f : Grown) → IsOpen f self.old.waiting.items self.old.others None
            (vec_capacity self.old.waiting)
            → IfOk result (λ next. IsOpen f self.new.waiting.items self.new.others next
            (vec_capacity self.new.waiting)) }
        ensures ends { result ≡ Ok None → self.new.waiting.items ≡ [] }
        ensures capacity { vec_capacity self.new.waiting ≡ vec_capacity self.old.waiting }
        ensures no_failure { OnOk result (S.failures writer.new ≡ S.failures writer.old) }
        ensures failed { OnErr result (S.failures writer.new ≡ next_count (S.failures writer.old)) }
    {
        loop {
            if let Some((next, others)) = self.others.split_first() {
                out.push(writer, b',')?;
                self.others = others;
                return Ok(Some(*next));
            }
            let Some(outer) = self.waiting.pop() else {
                return Ok(None);
            };
            notation.push_closes(out, writer)?;
            self.others = outer;
        }
    }
}

/// Prints the opening of a term, which is all of it unless it is a node. Returns the children of a node.
#[inline(always)] // so that the loop over terms gets the registers
fn begin<'f, N: TermNotation, S: Sink>(
    out: &mut TextWriter,
    writer: &mut S,
    forest: &'f Forest,
    notation: &N,
    term: TermRef,
) -> Result<Option<&'f [TermRef]>, WriteFault>
    requires known { IsSome (term_of forest.now term) }
    requires countable { bytes_of out.old + length (opening (N.form notation.now) (term_at forest.now term)) < 2 ^ 64 }
    ensures text { IsPut out.old out.new (S.contents writer.old) (S.contents writer.new)
        (opening (N.form notation.now) (term_at forest.now term)) result }
    ensures counted { OnOk result (bytes_of out.new
        ≡ bytes_of out.old + length (opening (N.form notation.now) (term_at forest.now term))) }
    ensures children { IfOk result (HasChildren forest.now term) }
    ensures no_failure { OnOk result (S.failures writer.new ≡ S.failures writer.old) }
    ensures failed { OnErr result (S.failures writer.new ≡ next_count (S.failures writer.old)) }
{
    match term {
        TermRef::Nothing => out.push_bytes(writer, notation.no_term())?,
        TermRef::ShortLeaf {
            length,
            terminal,
            start,
        } => {
            let text = forest.short_text(length, terminal, start);
            notation.push_leaf(out, writer, Sym(u32::from(terminal)), &text)?;
        }
        TermRef::LongLeaf { high, low } => {
            let (terminal, text) = forest.long_leaf_at(high, low);
            let text = Front::new(text, text.len());
            notation.push_leaf(out, writer, terminal, &text)?;
        }
        TermRef::Node {
            children,
            rule,
            start,
        } => {
            let rule = RuleNo(u32::from(rule));
            out.push_label(writer, notation.opens(rule))?;
            return Ok(Some(forest.children_of(usize::from(children), rule, start as usize)));
        }
        TermRef::LongNode { high, low } => {
            let (rule, children) = forest.long_node_at(high, low);
            out.push_label(writer, notation.opens(rule))?;
            return Ok(Some(children));
        }
    }
    Ok(None)
}
