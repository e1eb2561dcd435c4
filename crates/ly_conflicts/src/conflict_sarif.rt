//! Groups of conflicts as results of SARIF.
use crate::conflict_json::{code_of, place_of_rule};
use crate::group_report::GroupReport;
use crate::headings::write_summary;
use ly_analysis::{Analysis, Places, write_numbered};
use ly_resolve::Action;
use ly_text_buffer::TextBuffer;

/// Prints groups of conflicts, each as a result, with commas between them.
pub(crate) fn write_results(
    buffer: &mut TextBuffer,
    files: &Analysis<'_>,
    places: &Places,
    groups: &[GroupReport<'_>],
) {
    for (number, group) in groups.iter().enumerate() {
        buffer.push(if number > 0 { b"," } else { b"" });
        write_result(buffer, files, places, group);
    }
}

/// Prints a group of conflicts. The related location is that of the rule that is chosen, if one is.
fn write_result(
    buffer: &mut TextBuffer,
    files: &Analysis<'_>,
    places: &Places,
    group: &GroupReport<'_>,
) {
    let conflict = &group.conflict;
    let mut message = buffer.beside();
    write_summary(&mut message, files.spec, group);
    let place = place_of_rule(files, places, conflict.rule);
    buffer.push_sarif_result(b"warning", code_of(conflict.kind), place, message);
    if let Action::Reduce(rule) = conflict.choice {
        buffer.push_json_key(b"relatedLocations");
        buffer.push(b"[");
        let mut words = buffer.beside();
        write_numbered(&mut words, b"rule ", rule.0 as u64, b" is chosen");
        buffer.push_sarif_related(place_of_rule(files, places, rule), words);
        buffer.push(b"]");
    }
    buffer.push(b"}");
}
