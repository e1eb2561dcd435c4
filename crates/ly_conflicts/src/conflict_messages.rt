//! Groups of conflicts as text.
use crate::ambiguity::Ambiguity;
use crate::group_report::{GroupReport, Readings, Shown, Spot};
use crate::headings::write_heading;
use crate::trees::write_ambiguity;
use crate::ways::{Ways, reduced_rival, write_ways};
use ly_analysis::{Analysis, Places, write_large, write_numbered, write_symbols};
use ly_base::OutOfMemory;
use ly_join::{Spec, Symbol};
use ly_resolve::Conflict;
use ly_text_buffer::TextBuffer;
use std::alloc::Global;

/// Prints a group of conflicts.
pub(crate) fn write_group(
    alloc: Global,
    buffer: &mut TextBuffer,
    files: &Analysis<'_>,
    places: &Places,
    report: &GroupReport<'_>,
) -> Result<(), OutOfMemory> {
    write_heading(buffer, files, places, report);
    let (spec, conflict) = (files.spec, &report.conflict);
    match &report.shown {
        Shown::Unsought => {}
        Shown::At(spot) => {
            write_spot(buffer, spec, conflict, spot);
            match &spot.readings {
                Readings::Same => write_same(buffer, conflict),
                Readings::Ways(ways, found) => {
                    write_ways(alloc, buffer, spec, conflict, ways)?;
                    write_sentence(alloc, buffer, spec, report, found)?;
                }
            }
        }
        Shown::Merged(ways) => write_merged(alloc, buffer, spec, conflict, ways)?,
        Shown::Unknown(found) => {
            buffer.push(b"    No example found: the search reached its limit.\n");
            write_sentence(alloc, buffer, spec, report, found)?;
        }
    }
    Ok(())
}

/// Prints that only the merging of states makes a conflict, where each of its rules applies, and how to fix it.
fn write_merged(
    alloc: Global,
    buffer: &mut TextBuffer,
    spec: &Spec,
    conflict: &Conflict,
    ways: &Option<Ways>,
) -> Result<(), OutOfMemory> {
    buffer.push(
        b"    No string of symbols makes both actions possible: only the merging of LR(1) states, as in\n    \
        every LALR(1) parser, makes this conflict.\n",
    );
    if let Some(ways) = ways {
        write_ways(alloc, buffer, spec, conflict, ways)?;
    }
    buffer.push(
        b"    Precedence can't resolve it: for one of these contexts write a nonterminal of its own, with a\n    \
        copy of the rule.\n",
    );
    Ok(())
}

/// Prints a string of symbols after which both actions are possible, and its shortest tokens.
fn write_spot(buffer: &mut TextBuffer, spec: &Spec, conflict: &Conflict, spot: &Spot<'_>) {
    buffer.push(b"    example:");
    write_symbols(buffer, spec, spot.string);
    write_ahead(buffer, spec, conflict);
    if has_nonterminal(spot.string) {
        buffer.push(b"    tokens: ");
        spot.derived.write(buffer, spec);
        write_ahead(buffer, spec, conflict);
    }
    if !spot.is_met {
        buffer.push(
            b"    Because of how the other conflicts are resolved, the parser never gets here on these tokens.\n",
        );
    }
}

/// Prints the dot and the terminal after it.
fn write_ahead(buffer: &mut TextBuffer, spec: &Spec, conflict: &Conflict) {
    buffer.push(b" . ");
    buffer.push_terminal(spec, conflict.terminal);
    buffer.push(b"\n");
}

/// Prints that a conflict is between two equal rules.
fn write_same(buffer: &mut TextBuffer, conflict: &Conflict) {
    if let Some(rule) = reduced_rival(conflict) {
        write_numbered(buffer, b"    Rule ", rule as u64, b" and rule ");
        let behind = b" are the same: remove one of them.\n";
        write_numbered(buffer, b"", conflict.rule.0 as u64, behind);
    }
}

/// Prints a sentence with two trees, or that none was found for the first conflict of a group, and one of another.
fn write_sentence(
    alloc: Global,
    buffer: &mut TextBuffer,
    spec: &Spec,
    report: &GroupReport<'_>,
    found: &Option<Ambiguity>,
) -> Result<(), OutOfMemory> {
    if let Some(ambiguity) = found {
        return write_ambiguity(alloc, buffer, spec, None, ambiguity);
    }
    buffer.push(b"    No ambiguous sentence found");
    if report.other.is_some() {
        buffer.push(b" before ");
        buffer.push_terminal(spec, report.conflict.terminal);
    }
    buffer.push(b" within the limits of the search.\n");
    match &report.other {
        Some(other) => {
            let terminal = Some(other.conflict.terminal);
            write_ambiguity(alloc, buffer, spec, terminal, &other.found)
        }
        None => Ok(()),
    }
}

/// Prints the number of groups of conflicts that aren't printed, if there are any.
pub(crate) fn write_omitted(buffer: &mut TextBuffer, count: usize) {
    if count > 0 {
        buffer.push(b"\n");
        write_large(buffer, count as u64);
        buffer.push(if count == 1 {
            b" more group of conflicts isn't shown.\n".as_slice()
        } else {
            b" more groups of conflicts aren't shown.\n"
        });
    }
}

/// Whether there is a nonterminal among symbols.
fn has_nonterminal(symbols: &[Symbol]) -> bool {
    for symbol in symbols {
        if let Symbol::Nonterminal(_) = symbol {
            return true;
        }
    }
    false
}
