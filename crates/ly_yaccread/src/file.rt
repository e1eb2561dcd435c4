use std::rc::RcSlice;

/// The content of a yacc file, with offsets. Tags, numbers, `%type`, `%union` and blocks are dropped. An offset that
/// doesn't fit in 32 bits is stored as `u32::MAX`.
#[derive(Drop)]
pub struct YaccFile {
    /// The declarations that name tokens, in the order of the text.
    pub declarations: Vec<Declaration>,
    /// The name after `%start`, if there is one.
    pub start: Option<Vec<u8>>,
    /// The rules, in the order of the text: one for each body.
    pub rules: Vec<Production>,
    /// The offset of each symbol in the declarations, declaration by declaration.
    pub token_offsets: Vec<u32>,
    /// The offsets of each rule.
    pub rule_offsets: Vec<RuleOffsets>,
}

/// The offsets of a rule.
#[derive(Clone, Copy, Debug, PartialEq, Eq)]
pub struct RuleOffsets {
    /// The offset of the name on the left. All bodies after one `:` share it.
    pub left: u32,
    /// The offset at which the body begins, directly after the `:` or the `|`.
    pub body: u32,
}

/// A declaration of tokens.
#[derive(Drop)]
pub struct Declaration {
    /// The kind of the declaration.
    pub kind: DeclarationKind,
    /// The symbols that it names, in the order of the text.
    pub symbols: Vec<SymbolName>,
}

/// The kinds of token declarations.
#[derive(Clone, Copy, Debug, PartialEq, Eq)]
pub enum DeclarationKind {
    /// `%token`: the symbols are tokens.
    Token,
    /// `%left`: they are also left-associative, and bind more tightly than those of earlier declarations.
    Left,
    /// `%right`: they are also right-associative, and bind more tightly than those of earlier declarations.
    Right,
    /// `%nonassoc`: they are also nonassociative, and bind more tightly than those of earlier declarations.
    Nonassociative,
}

/// A symbol, as a yacc file names it.
#[derive(Drop)]
pub enum SymbolName {
    /// A name.
    Name(Vec<u8>),
    /// A literal of this byte.
    Literal(u8),
}

/// A rule of the grammar: a left side and one body.
#[derive(Drop)]
pub struct Production {
    /// The name on the left. Consecutive rules with the same name share it.
    pub left: RcSlice<u8>,
    /// The symbols of the body.
    pub body: Vec<SymbolName>,
    /// The symbol after `%prec`, if there is one.
    pub precedence: Option<Box<SymbolName>>,
    /// The tree that the rule builds.
    pub action: TreeAction,
}

/// The tree that a rule builds. Places number the symbols of its body from 1.
#[derive(Drop)]
pub enum TreeAction {
    /// The rule has no action.
    Default,
    /// The tree of the symbol at this place.
    Pass(u32),
    /// A node.
    Build(Box<Node>),
}

/// A node, as an action writes it.
#[derive(Drop)]
pub struct Node {
    /// The name of its constructor.
    pub name: Vec<u8>,
    /// The places of its children, without duplicates.
    pub places: Vec<u32>,
}
