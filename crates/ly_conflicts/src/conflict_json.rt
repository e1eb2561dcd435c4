//! Groups of conflicts as JSON.
use crate::ambiguity::Ambiguity;
use crate::group_report::{GroupReport, Readings, Shown, Spot};
use crate::headings::{has_reason, write_reason, write_summary};
use crate::trees::distinct_trees;
use crate::ways::{Ways, drawn_ways};
use ly_analysis::{Analysis, Places, ends, write_numbered};
use ly_base::{OutOfMemory, RuleNo, Sym};
use ly_join::{Spec, Symbol};
use ly_resolve::{Action, ConflictKind};
use ly_text_buffer::{Extent, FindingPlace, TextBuffer};
use std::alloc::Global;

/// Prints a group of conflicts as an object.
pub(crate) fn write_conflict(
    alloc: Global,
    buffer: &mut TextBuffer,
    files: &Analysis<'_>,
    places: &Places,
    report: &GroupReport<'_>,
) -> Result<(), OutOfMemory> {
    let (spec, conflict) = (files.spec, &report.conflict);
    buffer.push(b"{\"state\":");
    buffer.push_number(conflict.state.0 as u64);
    buffer.push_json_key(b"after");
    let prefix = &report.prefix;
    write_row(buffer, spec, &prefix.front, prefix.left_out, &prefix.back);
    buffer.push_json_key(b"before");
    write_terminals(buffer, spec, &report.terminals);
    buffer.push(match conflict.kind {
        ConflictKind::ShiftReduce => b",\"kind\":\"shift/reduce\"".as_slice(),
        ConflictKind::ReduceReduce => b",\"kind\":\"reduce/reduce\"",
    });
    buffer.push(match conflict.choice {
        Action::Shift => b",\"taken\":\"shift\"".as_slice(),
        Action::Reduce(_) => b",\"taken\":\"rule\"",
        Action::Error => b",\"taken\":\"nothing\"",
    });
    write_rules(buffer, files, places, report);
    buffer.push_json_key(b"reason");
    if has_reason(conflict) {
        let mut words = buffer.beside();
        write_reason(&mut words, spec, conflict, report.terminals.len());
        buffer.push_json_buffer(words);
    } else {
        buffer.push(b"null");
    }
    write_shown(alloc, buffer, spec, report)?;
    write_other(alloc, buffer, spec, report)?;
    write_finding(buffer, files, places, report);
    buffer.push(b"}");
    Ok(())
}

/// Prints the members that each finding has. The other places are those of the rules.
fn write_finding(
    buffer: &mut TextBuffer,
    files: &Analysis<'_>,
    places: &Places,
    report: &GroupReport<'_>,
) {
    buffer.push_json_key(b"file");
    buffer.push_json(files.yacc.name.as_bytes());
    let code = code_of(report.conflict.kind);
    let mut message = buffer.beside();
    write_summary(&mut message, files.spec, report);
    let place = place_of_rule(files, places, report.conflict.rule);
    buffer.push_json_finding(b"warning", code, place, message);
    if let Action::Reduce(rule) = report.conflict.choice {
        buffer.push_json_key(b"related");
        buffer.push(b"[");
        let mut words = buffer.beside();
        write_numbered(&mut words, b"rule ", rule.0 as u64, b" is chosen");
        buffer.push_json_related(place_of_rule(files, places, rule), words);
        buffer.push(b"]");
    }
}

/// The name of a kind of conflict among findings.
pub(crate) fn code_of(kind: ConflictKind) -> &'static [u8] {
    match kind {
        ConflictKind::ShiftReduce => b"ShiftReduce",
        ConflictKind::ReduceReduce => b"ReduceReduce",
    }
}

/// The place of a rule.
pub(crate) fn place_of_rule<'f>(
    files: &Analysis<'f>,
    places: &Places,
    rule: RuleNo,
) -> FindingPlace<'f> {
    FindingPlace {
        file: files.yacc,
        at: Some(places.location_of_rule(rule.0 as usize)),
        extent: Extent::Word,
    }
}

/// Prints a sentence of another conflict of the group, if there is one.
fn write_other(
    alloc: Global,
    buffer: &mut TextBuffer,
    spec: &Spec,
    report: &GroupReport<'_>,
) -> Result<(), OutOfMemory> {
    buffer.push_json_key(b"other");
    match &report.other {
        Some(other) => {
            buffer.push(b"{\"before\":");
            write_symbol(buffer, spec, Symbol::Terminal(other.conflict.terminal));
            write_sentence(alloc, buffer, spec, Some(&other.found))?;
            buffer.push(b"}");
        }
        None => buffer.push(b"null"),
    }
    Ok(())
}

/// Prints the rules of a conflict: first the one that is chosen, or that is the alternative, if there is one.
fn write_rules(
    buffer: &mut TextBuffer,
    files: &Analysis<'_>,
    places: &Places,
    report: &GroupReport<'_>,
) {
    buffer.push_json_key(b"rules");
    buffer.push(b"[");
    if let Action::Reduce(rule) = report.conflict.choice {
        write_rule(buffer, files, places, rule);
        buffer.push(b",");
    }
    write_rule(buffer, files, places, report.conflict.rule);
    buffer.push(b"]");
}

/// Prints a rule with its number and location.
fn write_rule(buffer: &mut TextBuffer, files: &Analysis<'_>, places: &Places, rule: RuleNo) {
    let rule = rule.0 as usize;
    let at = places.location_of_rule(rule);
    buffer.push(b"{\"number\":");
    buffer.push_number(rule as u64);
    buffer.push_json_key(b"file");
    buffer.push_json(files.yacc.name.as_bytes());
    buffer.push_json_number(b"line", at.line);
    buffer.push_json_number(b"column", at.column);
    buffer.push_json_key(b"text");
    let mut words = buffer.beside();
    words.push_rule(files.spec, rule, None);
    buffer.push_json_buffer(words);
    buffer.push(b"}");
}

/// Prints how a conflict arises: the result of the search for a counterexample, the counterexample and its tokens,
/// whether the parser gets there, both paths, an ambiguous sentence, and its trees.
fn write_shown(
    alloc: Global,
    buffer: &mut TextBuffer,
    spec: &Spec,
    report: &GroupReport<'_>,
) -> Result<(), OutOfMemory> {
    buffer.push_json_key(b"search");
    match &report.shown {
        Shown::Unsought => {
            buffer.push(b"\"skipped\"");
            write_no_spot(buffer);
            write_ways(alloc, buffer, spec, None)?;
            write_sentence(alloc, buffer, spec, None)
        }
        Shown::At(spot) => {
            buffer.push(b"\"found\"");
            write_spot(buffer, spec, spot);
            match &spot.readings {
                Readings::Same => {
                    write_ways(alloc, buffer, spec, None)?;
                    write_sentence(alloc, buffer, spec, None)
                }
                Readings::Ways(ways, found) => {
                    write_ways(alloc, buffer, spec, Some(ways))?;
                    write_sentence(alloc, buffer, spec, found.as_ref())
                }
            }
        }
        Shown::Merged(ways) => {
            buffer.push(b"\"merged\"");
            write_no_spot(buffer);
            write_ways(alloc, buffer, spec, ways.as_ref())?;
            write_sentence(alloc, buffer, spec, None)
        }
        Shown::Unknown(found) => {
            buffer.push(b"\"limit\"");
            write_no_spot(buffer);
            write_ways(alloc, buffer, spec, None)?;
            write_sentence(alloc, buffer, spec, found.as_ref())
        }
    }
}

/// Prints that there is no counterexample.
fn write_no_spot(buffer: &mut TextBuffer) {
    buffer.push(b",\"example\":null,\"tokens\":null,\"reached\":null");
}

/// Prints a counterexample, its tokens if they are known, and whether the parser gets there on them.
fn write_spot(buffer: &mut TextBuffer, spec: &Spec, spot: &Spot<'_>) {
    let (front, left_out, back) = ends(spot.string);
    buffer.push_json_key(b"example");
    write_row(buffer, spec, front, left_out, back);
    buffer.push_json_key(b"tokens");
    if spot.derived.whole {
        write_terminals(buffer, spec, &spot.derived.tokens);
        buffer.push(if spot.is_met {
            b",\"reached\":true".as_slice()
        } else {
            b",\"reached\":false"
        });
    } else {
        buffer.push(b"null,\"reached\":null");
    }
}

/// Prints both paths, if they are known.
fn write_ways(
    alloc: Global,
    buffer: &mut TextBuffer,
    spec: &Spec,
    ways: Option<&Ways>,
) -> Result<(), OutOfMemory> {
    buffer.push_json_key(b"derivations");
    match ways {
        Some(ways) => {
            let (one, other) = drawn_ways(alloc, spec, ways)?;
            write_both(buffer, &one, &other);
        }
        None => buffer.push(b"null"),
    }
    Ok(())
}

/// Prints a sentence with two trees, if one is known, and its trees.
fn write_sentence(
    alloc: Global,
    buffer: &mut TextBuffer,
    spec: &Spec,
    found: Option<&Ambiguity>,
) -> Result<(), OutOfMemory> {
    buffer.push_json_key(b"sentence");
    match found {
        Some(ambiguity) => {
            write_terminals(buffer, spec, &ambiguity.sentence);
            let (one, other) = distinct_trees(alloc, spec, ambiguity)?;
            buffer.push_json_key(b"trees");
            write_both(buffer, &one, &other);
        }
        None => buffer.push(b"null,\"trees\":null"),
    }
    Ok(())
}

/// Prints two drawings as a list, each without its first space.
fn write_both(buffer: &mut TextBuffer, one: &[u8], other: &[u8]) {
    buffer.push(b"[");
    buffer.push_json(one.strip_prefix(b" ").unwrap_or(one));
    buffer.push(b",");
    buffer.push_json(other.strip_prefix(b" ").unwrap_or(other));
    buffer.push(b"]");
}

/// Prints the two ends of a row of symbols as a list. If symbols between them are left out, their number is an element.
fn write_row(
    buffer: &mut TextBuffer,
    spec: &Spec,
    front: &[Symbol],
    left_out: usize,
    back: &[Symbol],
) {
    buffer.push(b"[");
    for (place, symbol) in front.iter().enumerate() {
        buffer.push(if place > 0 { b"," } else { b"" });
        write_symbol(buffer, spec, *symbol);
    }
    if left_out > 0 {
        buffer.push(b",");
        buffer.push_number(left_out as u64);
    }
    for symbol in back {
        buffer.push(b",");
        write_symbol(buffer, spec, *symbol);
    }
    buffer.push(b"]");
}

/// Prints terminals as a list. If symbols in the middle of a long one are left out, their number is an element.
fn write_terminals(buffer: &mut TextBuffer, spec: &Spec, terminals: &[Sym]) {
    let (front, left_out, back) = ends(terminals);
    buffer.push(b"[");
    for (place, terminal) in front.iter().enumerate() {
        buffer.push(if place > 0 { b"," } else { b"" });
        write_symbol(buffer, spec, Symbol::Terminal(*terminal));
    }
    if left_out > 0 {
        buffer.push(b",");
        buffer.push_number(left_out as u64);
    }
    for terminal in back {
        buffer.push(b",");
        write_symbol(buffer, spec, Symbol::Terminal(*terminal));
    }
    buffer.push(b"]");
}

/// Prints the name of a symbol as a string.
fn write_symbol(buffer: &mut TextBuffer, spec: &Spec, symbol: Symbol) {
    let mut name = buffer.beside();
    name.push_symbol(spec, symbol);
    buffer.push_json_buffer(name);
}
