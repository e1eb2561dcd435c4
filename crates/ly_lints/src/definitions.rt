//! Which definitions of a lex file its rules use.
use ly_analysis::is_marked;
use ly_base::{Limits, OutOfMemory};
use ly_ere::{EreFault, Names, Node, Re, read_pattern};
use ly_lexread::LexFile;
use std::alloc::Global;

/// For each definition, by its number, whether a rule uses it, directly or through another one.
pub(crate) fn used_definitions(alloc: Global, file: &LexFile) -> Result<Vec<bool>, OutOfMemory> {
    let definitions = file.names.definitions();
    let mut used = vec![in alloc; false; definitions.len()]?;
    for rule in &file.rules {
        mark_names(&mut used, &rule.pattern.head);
        if let Some(tail) = &rule.pattern.tail {
            mark_names(&mut used, tail);
        }
    }
    // A definition has a greater number than those that it uses.
    for number in (0..definitions.len()).rev() {
        if is_marked(&used, number)
            && let Some(definition) = definitions.get(number)
        {
            mark_names(&mut used, definition);
        }
    }
    Ok(used)
}

/// The number of the definition with a name.
pub(crate) fn definition_number(
    alloc: Global,
    names: &Names,
    name: &[u8],
) -> Result<Option<usize>, OutOfMemory> {
    let text = [b"{", name, b"}"].concat(alloc)?;
    let pattern = match read_pattern(alloc, &text, names, &Limits::version_2()) {
        Ok(pattern) => pattern,
        Err(EreFault::OutOfMemory) => return Err(OutOfMemory),
        Err(EreFault::Refused { .. }) => return Ok(None),
    };
    let (nodes, root) = pattern.head.nodes();
    Ok(match nodes.get(root) {
        Some(Node::Name(number)) => Some(*number),
        _ => None,
    })
}

/// Marks the names in an expression.
fn mark_names(used: &mut Vec<bool>, expression: &Re) {
    let (nodes, _) = expression.nodes();
    for node in nodes {
        if let Node::Name(number) = node
            && let Some(mark) = used.get_mut(*number)
        {
            *mark = true;
        }
    }
}
