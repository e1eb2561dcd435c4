use crate::action::LexAction;
use ly_ere::{Names, Rule};

/// A parsed lex file.
#[derive(Drop)]
pub struct LexFile {
    /// The definitions.
    pub names: Names,
    /// The rules, in the order of the file.
    pub rules: Vec<Rule>,
    /// The action of each rule.
    pub actions: Vec<LexAction>,
    /// The number of start conditions. The initial one is number 0.
    pub conditions: u32,
    /// The start conditions, in the order of their numbers.
    pub start_conditions: Vec<StartCondition>,
    /// The offset of each rule's first byte.
    pub rule_starts: Vec<usize>,
    /// The offset of each line that defines a name, in the order of the file.
    pub definition_starts: Vec<usize>,
}

/// A start condition of a lex file.
#[derive(Drop)]
pub struct StartCondition {
    /// The name of the condition.
    pub name: Vec<u8>,
    /// The offset of the name where the condition is declared. The initial condition is declared nowhere.
    pub offset: Option<usize>,
}
