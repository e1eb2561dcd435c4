//! Prints a sentence with two trees.
use crate::ambiguity::Ambiguity;
use crate::brackets::Style;
use ly_analysis::{body_of, write_terminals};
use ly_base::{OutOfMemory, Sym};
use ly_join::{Spec, Symbol};
use ly_text_buffer::TextBuffer;
use std::alloc::Global;

/// The greatest number of symbols of a tree that are printed.
const MOST: usize = 2_000;

/// Prints a sentence and its two trees, after the terminal of its conflict if that is given. The trees have names if
/// brackets alone don't distinguish them, and if there are no tokens.
pub(crate) fn write_ambiguity(
    alloc: Global,
    buffer: &mut TextBuffer,
    spec: &Spec,
    terminal: Option<Sym>,
    ambiguity: &Ambiguity,
) -> Result<(), OutOfMemory> {
    buffer.push(b"    ");
    if let Some(terminal) = terminal {
        buffer.push(b"Before ");
        buffer.push_terminal(spec, terminal);
        buffer.push(b" ");
    }
    buffer.push(match (terminal, ambiguity.sentence.is_empty()) {
        (None, true) => b"The empty sentence".as_slice(),
        (None, false) => b"This sentence",
        (Some(_), true) => b"the empty sentence",
        (Some(_), false) => b"this sentence",
    });
    buffer.push(b" has two trees:");
    write_terminals(buffer, spec, &ambiguity.sentence);
    buffer.push(b"\n");
    let (one, other) = distinct_trees(alloc, spec, ambiguity)?;
    buffer.push(b"       ");
    buffer.push(&one);
    buffer.push(b"\n       ");
    buffer.push(&other);
    buffer.push(b"\n");
    Ok(())
}

/// Two trees as text, with names if brackets alone don't distinguish them, and if there are no tokens.
pub(crate) fn distinct_trees(
    alloc: Global,
    spec: &Spec,
    ambiguity: &Ambiguity,
) -> Result<(Vec<u8>, Vec<u8>), OutOfMemory> {
    let (one, other) = trees_of(alloc, spec, ambiguity, Style::Brackets)?;
    if one == other || ambiguity.sentence.is_empty() {
        trees_of(alloc, spec, ambiguity, Style::Names)
    } else {
        Ok((one, other))
    }
}

/// Two trees in one style.
fn trees_of(
    alloc: Global,
    spec: &Spec,
    ambiguity: &Ambiguity,
    style: Style,
) -> Result<(Vec<u8>, Vec<u8>), OutOfMemory> {
    let one = tree_of(alloc, spec, &ambiguity.one, style)?;
    let other = tree_of(alloc, spec, &ambiguity.other, style)?;
    Ok((one, other))
}

/// A part of a tree that is still to be printed.
#[derive(Clone, Copy)]
enum Part {
    /// A symbol, with its subtree.
    Symbol(Below),
    /// The end of a rule.
    Close,
}

/// A symbol in a tree.
#[derive(Clone, Copy)]
struct Below {
    /// The symbol.
    symbol: Symbol,
    /// Whether it has siblings or is below one that has.
    beside: bool,
}

/// The printer of a tree.
#[derive(Drop)]
struct TreeWriter<'a> {
    /// The specification.
    spec: &'a Spec,
    /// The style of the output.
    style: Style,
    /// The rules that aren't printed yet.
    rules: &'a [usize],
    /// The output.
    buffer: TextBuffer,
    /// Whether a bracket was printed last.
    opened: bool,
    /// The parts still to be printed, the next one last.
    parts: Vec<Part>,
}

/// Prints the tree that has these rules in preorder, with a space before each symbol.
fn tree_of<'a>(
    alloc: Global,
    spec: &'a Spec,
    rules: &'a [usize],
    style: Style,
) -> Result<Vec<u8>, OutOfMemory> {
    let mut writer = TreeWriter {
        spec,
        style,
        rules,
        buffer: TextBuffer::new(alloc),
        opened: false,
        parts: Vec::new(alloc),
    };
    writer.parts.push(Part::Symbol(Below {
        symbol: Symbol::Nonterminal(spec.grammar().start()),
        beside: false,
    }))?;
    for _ in 0..MOST {
        let Some(part) = writer.parts.pop() else {
            break;
        };
        writer.write_part(part)?;
    }
    writer.buffer.finish()
}

impl<'a> TreeWriter<'a> {
    /// Prints a part.
    fn write_part(&mut self, part: Part) -> Result<(), OutOfMemory> {
        let Part::Symbol(below) = part else {
            self.close();
            return Ok(());
        };
        match below.symbol {
            Symbol::Terminal(number) => self.write_terminal(number),
            Symbol::Nonterminal(left) => {
                if let Some(body) = self.next_body() {
                    return self.write_rule(left, body, below.beside);
                }
            }
        }
        Ok(())
    }

    /// The body of the next rule, if there is one.
    fn next_body(&mut self) -> Option<&'a [Symbol]> {
        let (rule, rest) = self.rules.split_first()?;
        self.rules = rest;
        Some(body_of(self.spec.grammar(), *rule))
    }

    /// Prints the space before a symbol, if it needs one.
    fn write_space(&mut self) {
        if !self.opened {
            self.buffer.push(b" ");
        }
        self.opened = false;
    }

    /// Prints a terminal.
    fn write_terminal(&mut self, number: Sym) {
        self.write_space();
        self.buffer.push_terminal(self.spec, number);
    }

    /// Prints the start of a rule, and adds its body to the parts still to be printed.
    fn write_rule(&mut self, left: Sym, body: &[Symbol], beside: bool) -> Result<(), OutOfMemory> {
        let one_of_many = body.len() > 1;
        if self.style == Style::Names || beside && one_of_many {
            self.open(left);
            self.parts.push(Part::Close)?;
        }
        let beside = beside || one_of_many;
        for symbol in body.iter().rev() {
            self.parts.push(Part::Symbol(Below {
                symbol: *symbol,
                beside,
            }))?;
        }
        Ok(())
    }

    /// Prints the start of a rule.
    fn open(&mut self, left: Sym) {
        self.write_space();
        if self.style == Style::Names {
            self.buffer
                .push_symbol(self.spec, Symbol::Nonterminal(left));
        }
        self.buffer.push(b"[");
        self.opened = true;
    }

    /// Prints the end of a rule.
    fn close(&mut self) {
        self.opened = false;
        self.buffer.push(b"]");
    }
}
