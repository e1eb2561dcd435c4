//! The parser's automaton as a graph in the language of Graphviz's `dot`.
ghost use Rattle.std.specs.Prelude.{◌<◌, length};

use ly_analysis::{Analysis, Cores, write_numbered};
use ly_base::{OutOfMemory, StateNo};
use ly_join::{Spec, Symbol};
use ly_lr0::{Item, Lr0, Transition};
use ly_text_buffer::TextBuffer;
use std::alloc::Global;

/// Prints the picture: a box for each state, with its kernel items, and an arrow for each transition, dashed for
/// nonterminals.
pub(crate) fn write_picture(
    alloc: Global,
    buffer: &mut TextBuffer,
    files: &Analysis<'_>,
) -> Result<(), OutOfMemory> {
    let spec = files.spec;
    let lr0 = files.resolved.lr0();
    buffer.push(
        b"digraph parser {\n    rankdir=LR;\n    node [shape=box, fontname=\"monospace\"];\n",
    );
    let cores = Cores::of(alloc, lr0)?;
    for state in 0..lr0.states() {
        write_box(alloc, buffer, spec, &cores, StateNo(state as u32))?;
    }
    for state in 0..lr0.states() {
        write_arrows(alloc, buffer, spec, lr0, StateNo(state as u32))?;
    }
    buffer.push(b"}\n");
    Ok(())
}

/// Prints the box of a state.
fn write_box(
    alloc: Global,
    buffer: &mut TextBuffer,
    spec: &Spec,
    cores: &Cores<'_>,
    state: StateNo,
) -> Result<(), OutOfMemory> {
    write_numbered(buffer, b"    ", state.0 as u64, b" [label=\"");
    write_numbered(buffer, b"", state.0 as u64, b"\\n");
    for item in &cores.items(alloc, state)? {
        if is_kernel(*item) {
            let mut text = TextBuffer::new(alloc);
            text.push_rule(spec, item.rule, Some(item.dot));
            write_escaped(buffer, &text.finish()?);
            buffer.push(b"\\l");
        }
    }
    buffer.push(b"\"];\n");
    Ok(())
}

/// Whether an item is in the kernel: its dot isn't at the start, or it is the first item of all.
fn is_kernel(item: Item) -> bool {
    item.dot > 0 || item.rule == 0
}

/// Prints the arrows that leave a state.
fn write_arrows(
    alloc: Global,
    buffer: &mut TextBuffer,
    spec: &Spec,
    lr0: &Lr0<'_>,
    state: StateNo,
) -> Result<(), OutOfMemory>
    requires { state.0 < length lr0.now.states }
{
    write_each_arrow(alloc, buffer, spec, state, lr0.shifts(state))?;
    write_each_arrow(alloc, buffer, spec, state, lr0.gotos(state))
}

/// Prints the arrows for these transitions of a state.
fn write_each_arrow(
    alloc: Global,
    buffer: &mut TextBuffer,
    spec: &Spec,
    state: StateNo,
    transitions: &[Transition],
) -> Result<(), OutOfMemory> {
    for transition in transitions {
        let mut text = TextBuffer::new(alloc);
        text.push_symbol(spec, transition.symbol);
        write_numbered(buffer, b"    ", state.0 as u64, b" -> ");
        write_numbered(buffer, b"", transition.target.0 as u64, b" [label=\"");
        write_escaped(buffer, &text.finish()?);
        buffer.push(match transition.symbol {
            Symbol::Terminal(_) => b"\"];\n",
            Symbol::Nonterminal(_) => b"\", style=dashed];\n",
        });
    }
    Ok(())
}

/// Appends bytes as the inside of a string of `dot`.
fn write_escaped(buffer: &mut TextBuffer, bytes: &[u8]) {
    for byte in bytes {
        if *byte == b'"' || *byte == b'\\' {
            buffer.push(b"\\");
        }
        buffer.push(&[*byte]);
    }
}
