//! The heading of a group of conflicts: the location, the resolution, and why precedence doesn't settle it.
use crate::group_report::GroupReport;
use ly_analysis::{Analysis, Places, first_of, precedence_of, write_numbered, write_prefix};
use ly_base::{RuleNo, Sym};
use ly_join::Spec;
use ly_resolve::{Action, Conflict, ConflictKind};
use ly_text_buffer::TextBuffer;

/// The greatest number of a group's terminals that are named.
const NAMED: usize = 12;

/// Prints the heading of a group of conflicts, which begins with the location of the rule that isn't chosen.
pub(crate) fn write_heading(
    buffer: &mut TextBuffer,
    files: &Analysis<'_>,
    places: &Places,
    report: &GroupReport<'_>,
) {
    let conflict = &report.conflict;
    buffer.push(b"\n");
    buffer.push_location_in(
        files.yacc,
        places.location_of_rule(conflict.rule.0 as usize),
    );
    buffer.push(b"warning: ");
    write_summary(buffer, files.spec, report);
    buffer.push(b"\n");
    if let Action::Reduce(rule) = conflict.choice {
        write_rule_of(buffer, files, places, rule);
    }
    write_rule_of(buffer, files, places, conflict.rule);
    if has_reason(conflict) {
        buffer.push(b"    ");
        write_reason(buffer, files.spec, conflict, report.terminals.len());
        buffer.push(b"\n");
    }
}

/// Prints which conflicts a group has, where they are, and how they are resolved.
pub(crate) fn write_summary(buffer: &mut TextBuffer, spec: &Spec, report: &GroupReport<'_>) {
    write_place(buffer, spec, report);
    write_before(buffer, spec, &report.terminals);
    write_done(buffer, &report.conflict);
}

/// Prints the location of a rule, and the rule.
fn write_rule_of(buffer: &mut TextBuffer, files: &Analysis<'_>, places: &Places, rule: RuleNo) {
    let rule = rule.0 as usize;
    write_numbered(buffer, b"    Rule ", rule as u64, b" is ");
    buffer.push_location_in(files.yacc, places.location_of_rule(rule));
    buffer.push_rule(files.spec, rule, None);
    buffer.push(b"\n");
}

/// Prints the kind of a group's conflicts and its state: the number and the prefix.
fn write_place(buffer: &mut TextBuffer, spec: &Spec, report: &GroupReport<'_>) {
    buffer.push(match report.conflict.kind {
        ConflictKind::ShiftReduce => b"shift/reduce conflict".as_slice(),
        ConflictKind::ReduceReduce => b"reduce/reduce conflict",
    });
    write_numbered(buffer, b" in state ", report.conflict.state.0 as u64, b"");
    if report.prefix.front.is_empty() {
        buffer.push(b", at the start");
    } else {
        buffer.push(b", after");
        write_prefix(buffer, spec, &report.prefix);
    }
}

/// Prints the terminals of a group.
fn write_before(buffer: &mut TextBuffer, spec: &Spec, terminals: &[Sym]) {
    buffer.push(b", before");
    for terminal in first_of(terminals, NAMED) {
        buffer.push(b" ");
        buffer.push_terminal(spec, *terminal);
    }
    if terminals.len() > NAMED {
        let more = (terminals.len() - NAMED) as u64;
        write_numbered(buffer, b" and ", more, b" more");
    }
}

/// Prints the action that is taken, and the one that isn't.
fn write_done(buffer: &mut TextBuffer, conflict: &Conflict) {
    match conflict.choice {
        Action::Shift => buffer.push(b": resolved as a shift"),
        Action::Reduce(rule) => {
            write_numbered(buffer, b": resolved as rule ", rule.0 as u64, b"");
        }
        Action::Error => buffer.push(b": resolved as an error"),
    }
    write_numbered(buffer, b", not rule ", conflict.rule.0 as u64, b".");
}

/// Whether a reason is printed: precedence can settle shift/reduce conflicts, except at the end of the input.
pub(crate) fn has_reason(conflict: &Conflict) -> bool {
    conflict.kind == ConflictKind::ShiftReduce && conflict.terminal.0 != 0
}

/// Prints why precedence doesn't settle a shift/reduce conflict. `alike` is the size of its group.
pub(crate) fn write_reason(
    buffer: &mut TextBuffer,
    spec: &Spec,
    conflict: &Conflict,
    alike: usize,
) {
    if precedence_of(spec, conflict.rule.0 as usize).is_none() {
        write_unranked(buffer, spec, conflict, alike);
    } else if alike > 1 {
        buffer.push(b"These terminals have no precedence.");
    } else {
        buffer.push_terminal(spec, conflict.terminal);
        buffer.push(b" has no precedence.");
    }
}

/// Prints that the rule of a conflict has no precedence, and, if the group is a single conflict, whether its terminal
/// has one.
fn write_unranked(buffer: &mut TextBuffer, spec: &Spec, conflict: &Conflict, alike: usize) {
    let of_terminal = spec.precedences().get(conflict.terminal.0 as usize);
    if alike == 1 && !matches!(of_terminal, Some(Some(_))) {
        write_numbered(buffer, b"Neither rule ", conflict.rule.0 as u64, b" nor ");
        buffer.push_terminal(spec, conflict.terminal);
        buffer.push(b" has a precedence.");
    } else {
        write_numbered(
            buffer,
            b"Rule ",
            conflict.rule.0 as u64,
            b" has no precedence.",
        );
    }
}
