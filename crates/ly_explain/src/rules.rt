//! The rules of the grammar, with the numbers that reports use.
use ly_analysis::{Analysis, Places, write_numbered};
use ly_base::OutOfMemory;
use ly_text_buffer::TextBuffer;

/// Prints each rule with its number and its line.
pub(crate) fn write_rules(buffer: &mut TextBuffer, files: &Analysis<'_>, places: &Places) {
    let spec = files.spec;
    buffer.push(b"\nRules:\n");
    for rule in 1..spec.grammar().rules().len() {
        write_numbered(buffer, b"    ", rule as u64, b"  ");
        buffer.push_line_of(files.yacc, places.location_of_rule(rule).line);
        buffer.push_rule(spec, rule, None);
        buffer.push(b"\n");
    }
}
