//! Long rows of symbols, whose middle is counted and not printed.
use crate::cores::{END, Prefix};
use ly_base::Sym;
use ly_join::{Spec, Symbol};
use ly_text_buffer::TextBuffer;

/// Splits a row into its two ends and the number of elements between them. A short row is all in the first end.
pub fn ends<T>(row: &[T]) -> (&[T], usize, &[T]) {
    let left_out = row.len().saturating_sub(2 * END);
    if left_out == 0 {
        return (row, 0, &[]);
    }
    let (front, rest) = row.split_at(END.min(row.len()));
    let (_, back) = rest.split_at(left_out.min(rest.len()));
    (front, left_out, back)
}

/// Prints symbols, with a space before each.
pub fn write_symbols(buffer: &mut TextBuffer, spec: &Spec, symbols: &[Symbol]) {
    let (front, left_out, back) = ends(symbols);
    buffer.push_symbols(spec, front);
    write_left_out(buffer, left_out);
    buffer.push_symbols(spec, back);
}

/// Prints the string that leads to a state, with a space before each symbol.
pub fn write_prefix(buffer: &mut TextBuffer, spec: &Spec, prefix: &Prefix) {
    buffer.push_symbols(spec, &prefix.front);
    write_left_out(buffer, prefix.left_out);
    buffer.push_symbols(spec, &prefix.back);
}

/// Prints terminals, with a space before each. The middle of a long row is counted.
pub fn write_terminals(buffer: &mut TextBuffer, spec: &Spec, terminals: &[Sym]) {
    let (front, left_out, back) = ends(terminals);
    write_each(buffer, spec, front);
    write_left_out(buffer, left_out);
    write_each(buffer, spec, back);
}

/// Prints all of these terminals, with a space before each.
fn write_each(buffer: &mut TextBuffer, spec: &Spec, terminals: &[Sym]) {
    for terminal in terminals {
        buffer.push(b" ");
        buffer.push_terminal(spec, *terminal);
    }
}

/// Prints the number of symbols that are left out, if there are any.
pub fn write_left_out(buffer: &mut TextBuffer, count: usize) {
    if count > 0 {
        buffer.push(b" .. ");
        write_large(buffer, count as u64);
        buffer.push(b" more ..");
    }
}

/// The powers of a thousand, in descending order.
const THOUSANDS: [u64; 7] = [
    1_000_000_000_000_000_000,
    1_000_000_000_000_000,
    1_000_000_000_000,
    1_000_000_000,
    1_000_000,
    1_000,
    1,
];

/// Prints a number, with commas between groups of three digits.
pub fn write_large(buffer: &mut TextBuffer, number: u64) {
    let mut begun = false;
    for unit in THOUSANDS {
        let part = number.checked_div(unit).unwrap_or(0) % 1_000;
        if begun {
            buffer.push(b",");
            buffer.push(if part < 100 { b"0" } else { b"" });
            buffer.push(if part < 10 { b"0" } else { b"" });
        }
        if begun || part > 0 || unit == 1 {
            buffer.push_number(part);
            begun = true;
        }
    }
}
