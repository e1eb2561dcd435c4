//! The states of the scanner: the classes of bytes, the starts of conditions, and the transitions.
ghost use Rattle.std.specs.Prelude.{◌<◌, length};

use ly_analysis::{Analysis, RuleLines, is_marked, write_numbered};
use ly_base::OutOfMemory;
use ly_subset::Dfa;
use ly_text_buffer::TextBuffer;
use std::alloc::{AllocError, Global};

/// Prints the classes of bytes, the conditions and the states of the minimal DFA.
pub(crate) fn write_scanner(
    alloc: Global,
    buffer: &mut TextBuffer,
    files: &Analysis<'_>,
) -> Result<(), OutOfMemory> {
    let dfa = files.dfa;
    buffer.push(b"Classes of bytes of the scanner:\n");
    for class in 0..dfa.classes() {
        write_numbered(buffer, b"    ", class as u64, b" ");
        write_bytes(buffer, &bytes_of_class(alloc, dfa, class)?);
        buffer.push(b"\n");
    }
    buffer.push(b"\nConditions:\n");
    for condition in 0..files.file.conditions {
        write_condition(buffer, dfa, condition);
    }
    let lines = RuleLines::of(alloc, files)?;
    for state in 0..dfa.len() {
        if let Ok(state) = u32::try_from(state) {
            write_state(buffer, files, &lines, state);
        }
    }
    buffer.push(b"\n");
    Ok(())
}

/// Marks the bytes of a class.
fn bytes_of_class(alloc: Global, dfa: &Dfa, class: usize) -> Result<Vec<bool>, AllocError> {
    let mut bytes = Vec::new(alloc);
    for byte in 0..=255u8 {
        bytes.push(dfa.class(byte) as usize == class)?;
    }
    Ok(bytes)
}

/// Prints the bytes that are marked, with consecutive ones as ranges.
fn write_bytes(buffer: &mut TextBuffer, marks: &[bool]) {
    for byte in 0..=255u8 {
        if !has_byte(marks, Some(byte)) {
            continue;
        }
        if !has_byte(marks, byte.checked_sub(1)) {
            buffer.push(b" ");
            buffer.push_byte(byte);
        } else if !has_byte(marks, byte.checked_add(1)) {
            buffer.push(b"-");
            buffer.push_byte(byte);
        }
    }
}

/// Whether a byte is marked, if there is one.
fn has_byte(marks: &[bool], byte: Option<u8>) -> bool {
    match byte {
        Some(byte) => is_marked(marks, byte as usize),
        None => false,
    }
}

/// Prints for each condition the bytes that start no match.
pub(crate) fn write_other_bytes(
    alloc: Global,
    buffer: &mut TextBuffer,
    files: &Analysis<'_>,
) -> Result<(), OutOfMemory> {
    for condition in 0..files.file.conditions {
        let others = other_bytes(alloc, files.dfa, condition)?;
        if others.contains(&true) {
            buffer.push(b"In ");
            write_name(buffer, files, condition);
            buffer.push(b" no pattern starts with");
            write_bytes(buffer, &others);
            buffer.push(b"\n");
        }
    }
    Ok(())
}

/// Marks the bytes that start no match in a condition.
fn other_bytes(alloc: Global, dfa: &Dfa, condition: u32) -> Result<Vec<bool>, AllocError> {
    let mut others = Vec::new(alloc);
    for byte in 0..=255u8 {
        let begins = begins(dfa, condition, false, byte) || begins(dfa, condition, true, byte);
        others.push(!begins)?;
    }
    Ok(others)
}

/// Whether a byte can start a match in a condition, at the start of a line or elsewhere.
fn begins(dfa: &Dfa, condition: u32, line: bool, byte: u8) -> bool {
    let class = dfa.class(byte) as usize;
    match dfa.start(condition, line) {
        Some(state) => dfa.next(state, class).is_some(),
        None => false,
    }
}

/// Prints the name of a condition, or its number if it has none.
fn write_name(buffer: &mut TextBuffer, files: &Analysis<'_>, condition: u32) {
    match files.file.start_conditions.get(condition as usize) {
        Some(found) => buffer.push(&found.name),
        None => write_numbered(buffer, b"condition ", condition as u64, b""),
    }
}

/// Prints the start states of a condition.
fn write_condition(buffer: &mut TextBuffer, dfa: &Dfa, condition: u32) {
    write_numbered(buffer, b"    ", condition as u64, b"");
    write_start(buffer, b"  begins", dfa.start(condition, false));
    write_start(buffer, b", where a line begins", dfa.start(condition, true));
    buffer.push(b"\n");
}

/// Prints a start state, if there is one.
fn write_start(buffer: &mut TextBuffer, where_it_is: &[u8], start: Option<u32>) {
    buffer.push(where_it_is);
    match start {
        Some(state) => write_numbered(buffer, b" in state ", state as u64, b""),
        None => buffer.push(b" nowhere"),
    }
}

/// Prints a state: its rule, and its transitions by classes of bytes.
fn write_state(buffer: &mut TextBuffer, files: &Analysis<'_>, lines: &RuleLines, state: u32)
    requires { state < length files.now.dfa.now.rules }
{
    let dfa = files.dfa;
    write_numbered(buffer, b"\nScanner state ", state as u64, b"\n");
    if let Some(rule) = dfa.rule(state) {
        let line = lines.of_rule(rule.0 as usize);
        buffer.push(b"    rule of ");
        buffer.push(files.lex.name.as_bytes());
        write_numbered(buffer, b":", line, b"\n");
    }
    for class in 0..dfa.classes() {
        if let Some(next) = dfa.next(state, class) {
            write_numbered(buffer, b"    class ", class as u64, b"");
            write_numbered(buffer, b" to state ", next as u64, b"\n");
        }
    }
}
