//! How the two actions of a conflict arise, each after a string of symbols, as a drawing.
use crate::begins::Begins;
use crate::brackets::{Pen, Style, write_way};
use crate::drawing::Drawing;
use ly_analysis::{Cores, behind_dot, body_of, write_numbered};
use ly_base::{OutOfMemory, Sym};
use ly_counterexamples::Claim;
use ly_join::{Grammar, Spec, Symbol};
use ly_lr0::Item;
use ly_resolve::{Action, Conflict, ConflictKind};
use ly_text_buffer::TextBuffer;
use std::alloc::Global;

/// The data for drawing the paths to the actions of a conflict.
#[derive(Clone, Copy)]
pub(crate) struct Drawn<'a> {
    /// The items of the states.
    pub(crate) cores: &'a Cores<'a>,
    /// The specification.
    pub(crate) spec: &'a Spec,
    /// The conflict.
    pub(crate) conflict: &'a Conflict,
}

/// How the two actions of a conflict arise.
#[derive(Drop)]
pub(crate) struct Ways {
    /// The path to the shift, or to the rule that is chosen.
    pub(crate) one: Vec<Item>,
    /// The path to the rule of the conflict.
    pub(crate) other: Vec<Item>,
    /// How symbols begin with the terminal of the conflict.
    begins: Begins,
}

impl Drawn<'_> {
    /// How both actions arise, each after a string of its own.
    pub(crate) fn ways(
        &self,
        alloc: Global,
        one: &[Symbol],
        other: &[Symbol],
    ) -> Result<Ways, OutOfMemory> {
        Ok(Ways {
            one: self.way(alloc, one, self.rival(alloc)?)?,
            other: self.way(alloc, other, self.reduction(self.conflict.rule.0 as usize))?,
            begins: Begins::of(alloc, self.cores.lr0().reduced(), self.conflict.terminal)?,
        })
    }

    /// The path to a claim about a string.
    fn way(
        &self,
        alloc: Global,
        string: &[Symbol],
        claim: Claim,
    ) -> Result<Vec<Item>, OutOfMemory> {
        Drawing::new(alloc, self.cores, string, self.conflict.terminal)?.way(alloc, claim)
    }

    /// The claim that a reduction by a rule is possible.
    fn reduction(&self, rule: usize) -> Claim {
        let dot = body_of(self.spec.grammar(), rule).len();
        Claim::With(Item { rule, dot })
    }

    /// The claim for the alternative to the rule of the conflict. For a shift it is about the first item with the
    /// terminal after its dot.
    fn rival(&self, alloc: Global) -> Result<Claim, OutOfMemory> {
        match reduced_rival(self.conflict) {
            Some(rule) => Ok(self.reduction(rule)),
            None => {
                let core = self.cores.items(alloc, self.conflict.state)?;
                Ok(shift(self.spec.grammar(), &core, self.conflict.terminal))
            }
        }
    }
}

/// The claim for the shift of a terminal, about the first of these items that has it after its dot.
fn shift(grammar: &Grammar, core: &[Item], terminal: Sym) -> Claim {
    for item in core {
        if behind_dot(grammar, *item) == Some(Symbol::Terminal(terminal)) {
            return Claim::InCore(*item);
        }
    }
    Claim::Settled
}

/// The rule that is the alternative to that of a conflict; `None` if a shift is.
pub(crate) fn reduced_rival(conflict: &Conflict) -> Option<usize> {
    match (conflict.kind, conflict.choice) {
        (ConflictKind::ReduceReduce, Action::Reduce(rule)) => Some(rule.0 as usize),
        _ => None,
    }
}

/// Both paths as drawings. Brackets have the names of left sides if the drawings are equal without them.
pub(crate) fn drawn_ways(
    alloc: Global,
    spec: &Spec,
    ways: &Ways,
) -> Result<(Vec<u8>, Vec<u8>), OutOfMemory> {
    let pen = Pen {
        spec,
        begins: &ways.begins,
        style: Style::Brackets,
    };
    let one = drawn_way(alloc, pen, &ways.one)?;
    let other = drawn_way(alloc, pen, &ways.other)?;
    if one != other {
        return Ok((one, other));
    }
    let pen = Pen {
        style: Style::Names,
        ..pen
    };
    let one = drawn_way(alloc, pen, &ways.one)?;
    let other = drawn_way(alloc, pen, &ways.other)?;
    Ok((one, other))
}

/// A path as a drawing.
fn drawn_way(alloc: Global, pen: Pen<'_>, way: &[Item]) -> Result<Vec<u8>, OutOfMemory> {
    let mut buffer = TextBuffer::new(alloc);
    write_way(alloc, &mut buffer, pen, way)?;
    buffer.finish()
}

/// Prints how both actions of a conflict arise.
pub(crate) fn write_ways(
    alloc: Global,
    buffer: &mut TextBuffer,
    spec: &Spec,
    conflict: &Conflict,
    ways: &Ways,
) -> Result<(), OutOfMemory> {
    let (one, other) = drawn_ways(alloc, spec, ways)?;
    match reduced_rival(conflict) {
        Some(rule) => write_label(buffer, rule),
        None => buffer.push(b"    shift:  "),
    }
    buffer.push(&one);
    buffer.push(b"\n");
    write_label(buffer, conflict.rule.0 as usize);
    buffer.push(&other);
    buffer.push(b"\n");
    Ok(())
}

/// Prints the rule whose reduction is drawn.
fn write_label(buffer: &mut TextBuffer, rule: usize) {
    let behind = if rule < 10 { b": ".as_slice() } else { b":" };
    write_numbered(buffer, b"    rule ", rule as u64, behind);
}
