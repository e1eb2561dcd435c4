//! Prints the partially parsed rules at the end of a string of symbols, with brackets. A rule that is all of another
//! one's body gets none, since chains of such rules are long in real grammars and carry no information.
use crate::begins::{Begins, ROUNDS, parts_of};
use ly_analysis::{END, behind_dot, body_of, rest_of, write_left_out};
use ly_base::{OutOfMemory, Sym};
use ly_join::{Spec, Symbol};
use ly_lr0::Item;
use ly_text_buffer::TextBuffer;
use std::alloc::{AllocError, Global};

/// How trees and partially parsed rules are printed: with brackets around rules that have more than one symbol, or with
/// brackets around all rules and the names of their left sides before them.
#[derive(Clone, Copy, PartialEq, Eq)]
pub(crate) enum Style {
    /// With brackets only.
    Brackets,
    /// With names.
    Names,
}

/// A partially parsed rule, and the number of symbols before the bracket that follows its dot.
#[derive(Clone, Copy)]
struct Under {
    /// The rule.
    item: Item,
    /// The number of symbols before the bracket.
    before: usize,
}

/// An element of a drawing.
#[derive(Clone, Copy)]
enum Piece {
    /// A symbol.
    Symbol(Symbol),
    /// The start of a bracket, with the left side before it if names are printed.
    Open(Option<Sym>),
    /// A closing bracket.
    Close,
}

/// The drawing on one side of the dot.
#[derive(Drop)]
struct Side {
    /// The elements.
    pieces: Vec<Piece>,
    /// The number of symbols among them.
    symbols: usize,
}

/// How a path is printed.
#[derive(Clone, Copy)]
pub(crate) struct Pen<'p> {
    /// The specification.
    pub(crate) spec: &'p Spec,
    /// How the symbol after the dot begins with the terminal of the conflict.
    pub(crate) begins: &'p Begins,
    /// The style.
    pub(crate) style: Style,
}

/// Prints the rules of a path: a bracket for each rule that begins inside another, the symbols before the dots, and
/// then a dot and what follows the dot in each rule, from the innermost one on. There the symbol that begins with the
/// terminal of the conflict is expanded until the terminal shows. For an empty path it prints nothing. If one side of
/// the dot has many symbols, those in the middle are only counted, and brackets that begin there aren't printed.
pub(crate) fn write_way(
    alloc: Global,
    buffer: &mut TextBuffer,
    pen: Pen<'_>,
    way: &[Item],
) -> Result<(), OutOfMemory> {
    let Pen { spec, style, .. } = pen;
    if way.is_empty() {
        return Ok(());
    }
    let mut side = Side::new(alloc);
    let mut under: Vec<Under> = Vec::new(alloc);
    for item in way {
        match under.last_mut() {
            Some(top) if item.dot > 0 => {
                side.pass(spec, top.item)?;
                top.item = *item;
            }
            top => {
                if let Some(top) = top {
                    top.before = side.symbols;
                    side.open(spec, top.item, style)?;
                }
                under.push(Under {
                    item: *item,
                    before: 0,
                })?;
            }
        }
    }
    let opened = side.write(buffer, spec);
    buffer.push(if opened { b"." } else { b" ." });
    let rests = rests_of(alloc, spec, &under, side.symbols, style)?;
    rests.expanded(alloc, pen)?.write(buffer, spec);
    Ok(())
}

/// What follows the dots of the partially parsed rules, the innermost one first. In each other rule, the symbol after
/// the dot is the rule inside it. `before` symbols precede the dot.
fn rests_of(
    alloc: Global,
    spec: &Spec,
    under: &[Under],
    before: usize,
    style: Style,
) -> Result<Side, AllocError> {
    let mut side = Side::new(alloc);
    let Some((inmost, outer)) = under.split_last() else {
        return Ok(side);
    };
    side.add_rest(spec, inmost.item.rule, inmost.item.dot)?;
    for Under { item, before: at } in outer.iter().rev().copied() {
        if is_bracketed_in(spec, item, style) && is_said(at, before) {
            side.pieces.push(Piece::Close)?;
        }
        side.add_rest(spec, item.rule, item.dot.saturating_add(1))?;
    }
    Ok(side)
}

/// Whether the symbol after `behind` others in a row is printed: it isn't in the middle of a long row.
fn is_said(behind: usize, symbols: usize) -> bool {
    behind < END || behind >= symbols.saturating_sub(END)
}

impl Side {
    /// Returns an empty side.
    fn new(alloc: Global) -> Side {
        Side {
            pieces: Vec::new(alloc),
            symbols: 0,
        }
    }

    /// Adds a symbol.
    fn add(&mut self, symbol: Symbol) -> Result<(), AllocError> {
        self.symbols = self.symbols.saturating_add(1);
        self.pieces.push(Piece::Symbol(symbol))?;
        Ok(())
    }

    /// Adds the symbol after an item's dot, if there is one.
    fn pass(&mut self, spec: &Spec, item: Item) -> Result<(), AllocError> {
        match behind_dot(spec.grammar(), item) {
            Some(symbol) => self.add(symbol),
            None => Ok(()),
        }
    }

    /// Adds the start of the bracket around what follows an item's dot, if it gets one.
    fn open(&mut self, spec: &Spec, item: Item, style: Style) -> Result<(), AllocError> {
        if !is_bracketed_in(spec, item, style) {
            return Ok(());
        }
        let left = match (style, behind_dot(spec.grammar(), item)) {
            (Style::Names, Some(Symbol::Nonterminal(left))) => Some(left),
            _ => None,
        };
        self.pieces.push(Piece::Open(left))?;
        Ok(())
    }

    /// Adds the symbols of a rule's body after the first `passed`; for rule 0 nothing.
    fn add_rest(&mut self, spec: &Spec, rule: usize, passed: usize) -> Result<(), AllocError> {
        if rule > 0 {
            for symbol in rest_of(spec.grammar(), rule, passed) {
                self.add(*symbol)?;
            }
        }
        Ok(())
    }

    /// The same with the symbol expanded that begins with the terminal of the conflict.
    fn expanded(&self, alloc: Global, pen: Pen<'_>) -> Result<Side, AllocError> {
        let mut symbols = Vec::new(alloc);
        for piece in &self.pieces {
            if let Piece::Symbol(symbol) = piece {
                symbols.push(*symbol)?;
            }
        }
        let place = pen.begins.place_in(&symbols);
        let mut side = Side::new(alloc);
        for piece in &self.pieces {
            match piece {
                Piece::Symbol(symbol) if place == Some(side.symbols) => {
                    side.add_expanded(alloc, pen, *symbol)?;
                    // The rest follows as it is, whatever was expanded.
                    side.add_behind(&self.pieces, place)?;
                    return Ok(side);
                }
                Piece::Symbol(symbol) => side.add(*symbol)?,
                piece => side.pieces.push(*piece)?,
            }
        }
        Ok(side)
    }

    /// Adds the elements after the symbol that so many others precede.
    fn add_behind(&mut self, pieces: &[Piece], place: Option<usize>) -> Result<(), AllocError> {
        let mut passed: usize = 0;
        for piece in pieces {
            let is_behind = place.is_some_and(|place| passed > place);
            match piece {
                Piece::Symbol(symbol) => {
                    if is_behind {
                        self.add(*symbol)?;
                    }
                    passed = passed.saturating_add(1);
                }
                piece if is_behind => self.pieces.push(*piece)?,
                _ => {}
            }
        }
        Ok(())
    }

    /// Adds a symbol that begins with the terminal of the conflict: its rules, until the terminal shows.
    fn add_expanded(
        &mut self,
        alloc: Global,
        pen: Pen<'_>,
        symbol: Symbol,
    ) -> Result<(), AllocError> {
        let mut behind: Vec<(&[Symbol], bool)> = Vec::new(alloc);
        let mut first = symbol;
        for _ in 0..ROUNDS {
            let Symbol::Nonterminal(left) = first else {
                break;
            };
            let beginning = pen.begins.beginning_of(left);
            let parts = beginning.and_then(|beginning| parts_of(pen.spec.grammar(), beginning));
            let Some((before, next, rest)) = parts else {
                break;
            };
            let is_bracketed = pen.style == Style::Names || !before.is_empty() || !rest.is_empty();
            if is_bracketed {
                self.pieces.push(Piece::Open(named(pen.style, left)))?;
            }
            for symbol in before {
                self.add(*symbol)?;
            }
            behind.push((rest, is_bracketed))?;
            first = next;
        }
        self.add(first)?;
        for (rest, is_bracketed) in behind.iter().rev() {
            for symbol in *rest {
                self.add(*symbol)?;
            }
            if *is_bracketed {
                self.pieces.push(Piece::Close)?;
            }
        }
        Ok(())
    }

    /// Prints the elements, with a space before each symbol and bracket that isn't first in a bracket. Returns whether
    /// the last element printed is the start of a bracket.
    fn write(&self, buffer: &mut TextBuffer, spec: &Spec) -> bool {
        let (mut behind, mut opened) = (0, false);
        for piece in &self.pieces {
            let said = is_said(behind, self.symbols);
            if let Piece::Symbol(_) = piece {
                if behind == END && !said {
                    write_left_out(buffer, self.symbols.saturating_sub(2 * END));
                    opened = false;
                }
                behind = behind.saturating_add(1);
            }
            if said {
                opened = write_piece(buffer, spec, *piece, opened);
            }
        }
        opened
    }
}

/// The left side as it is printed before a bracket, if the style has names.
fn named(style: Style, left: Sym) -> Option<Sym> {
    (style == Style::Names).then_some(left)
}

/// Prints an element. `opened` is whether the last one was the start of a bracket. Returns whether this one is.
fn write_piece(buffer: &mut TextBuffer, spec: &Spec, piece: Piece, opened: bool) -> bool {
    if let Piece::Close = piece {
        buffer.push(b"]");
        return false;
    }
    buffer.push(if opened { b"" } else { b" " });
    match piece {
        Piece::Symbol(symbol) => buffer.push_symbol(spec, symbol),
        Piece::Open(left) => {
            if let Some(left) = left {
                buffer.push_symbol(spec, Symbol::Nonterminal(left));
            }
            buffer.push(b"[");
        }
        Piece::Close => {}
    }
    matches!(piece, Piece::Open(_))
}

/// Whether what follows the dot of an item gets brackets. With names it always does. Otherwise it does if it is a
/// proper part of a rule other than rule 0.
fn is_bracketed_in(spec: &Spec, item: Item, style: Style) -> bool {
    style == Style::Names || item.rule > 0 && body_of(spec.grammar(), item.rule).len() > 1
}
