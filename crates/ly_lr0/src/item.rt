use ly_join::Symbol;

/// A rule with a dot in its body.
#[derive(Clone, Copy, Debug, PartialEq, Eq, PartialOrd, Ord, Hash)]
pub struct Item {
    /// The number of the rule.
    pub rule: usize,
    /// The number of symbols of the body before the dot.
    pub dot: usize,
}

/// The symbol after the dot of an item, and the item with the dot after that symbol.
#[derive(Clone, Copy, Debug, PartialEq, Eq, PartialOrd, Ord)]
pub(crate) struct Move {
    /// The symbol.
    pub(crate) symbol: Symbol,
    /// The item with the dot after it.
    pub(crate) item: Item,
}
