/// A rule of the scanner, as numbers.
#[derive(Clone, Copy)]
pub(crate) struct RawScanRule {
    /// The kind of its return value.
    pub(crate) kind: u8,
    /// Its terminal.
    pub(crate) terminal: u32,
    /// The condition that it sets.
    pub(crate) begin: u32,
    /// The kind of its trailing context.
    pub(crate) cut: u8,
    /// The length of its trailing context.
    pub(crate) len: u32,
}

/// The initial states of a condition, as numbers.
#[derive(Clone, Copy)]
pub(crate) struct RawStarts {
    /// The one in the middle of a line.
    pub(crate) elsewhere: u32,
    /// The one at the start of a line.
    pub(crate) at_line: u32,
}

/// A comb, as numbers.
#[derive(Drop)]
pub(crate) struct RawComb {
    /// The bases of the rows.
    pub(crate) bases: Vec<u32>,
    /// The entries of the slots.
    pub(crate) entries: Vec<u32>,
    /// The rows of the slots, one for each entry.
    pub(crate) rows: Vec<u32>,
}

/// A rule of the parser, as numbers.
#[derive(Drop)]
pub(crate) struct RawRule {
    /// Its left side.
    pub(crate) left: u32,
    /// The length of its body.
    pub(crate) body_length: u8,
    /// The kind of its tree.
    pub(crate) kind: u8,
    /// Its constructor.
    pub(crate) name: Vec<u8>,
    /// Places of its body.
    pub(crate) places: Vec<u8>,
}

/// A table file as numbers, before it is known whether they are valid.
#[derive(Drop)]
pub(crate) struct RawTables {
    /// The number of nonterminals.
    pub(crate) nonterminals: u32,
    /// The names of terminals.
    pub(crate) terminals: Vec<Vec<u8>>,
    /// The terminal of each byte.
    pub(crate) literals: Vec<u32>,
    /// The rules of the scanner.
    pub(crate) scan_rules: Vec<RawScanRule>,
    /// The initial states of the conditions.
    pub(crate) conditions: Vec<RawStarts>,
    /// The number of classes of bytes.
    pub(crate) class_count: u32,
    /// The class of each byte.
    pub(crate) classes: Vec<u8>,
    /// The rules of scanner states.
    pub(crate) accepted: Vec<u32>,
    /// The rows of scanner states.
    pub(crate) scan_rows: RawComb,
    /// The rules of the parser.
    pub(crate) rules: Vec<RawRule>,
    /// The default rules of parser states.
    pub(crate) defaults: Vec<u32>,
    /// The actions of parser states.
    pub(crate) actions: RawComb,
    /// The gotos of parser states.
    pub(crate) gotos: RawComb,
}
