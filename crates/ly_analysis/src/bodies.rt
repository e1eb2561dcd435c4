//! The symbols in the bodies of rules. For a number without a rule they are empty.
use ly_join::{Grammar, Symbol};
use ly_lr0::Item;

/// The body of a rule.
pub fn body_of(grammar: &Grammar, rule: usize) -> &[Symbol] {
    match grammar.rules().get(rule) {
        Some(rule) => rule.body(),
        None => &[],
    }
}

/// The symbols of a rule's body after the first `passed`.
pub fn rest_of(grammar: &Grammar, rule: usize, passed: usize) -> &[Symbol] {
    body_of(grammar, rule).get(passed..).unwrap_or_default()
}

/// The symbol after the dot of an item, if there is one.
pub fn behind_dot(grammar: &Grammar, item: Item) -> Option<Symbol> {
    body_of(grammar, item.rule).get(item.dot).copied()
}
