use crate::rule::TableRule;
use ly_base::RuleNo;

/// The parts of a machine. `A` are rows of `TableAction`, `G` rows of `StateNo`, one row for each state.
#[derive(Drop)]
pub struct MachineParts<A, G> {
    /// The number of terminals.
    pub terminals: usize,
    /// The number of nonterminals.
    pub nonterminals: usize,
    /// The actions of states before terminals, except defaults.
    pub actions: A,
    /// The gotos of states by nonterminals.
    pub gotos: G,
    /// The default reduction of each state.
    pub defaults: Vec<Option<RuleNo>>,
    /// The rules without rule 0: the first is rule 1.
    pub rules: Vec<TableRule>,
}
