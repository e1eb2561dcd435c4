ghost use Rattle.std.specs.Prelude.{◌≡◌};
ghost use Rattle.ly_base.specs.declared.version.Version.TheVariants.{V2};
ghost use Rattle.ly_tables.specs.Ranges.{IsWithinVersion};
ghost use Rattle.ly_tables.specs.TableSet.{machine_of};
ghost use Rattle.ly_tables.specs.Values.{set_of};

use crate::scan_rule::ScanRule;
use ly_base::{RuleNo, StateNo, Sym};
use ly_pack::{Comb, MachineView, TableAction, TableRule};
use ly_scan::Starts;

/// The parts of a table set.
#[derive(Drop)]
pub struct TableParts {
    /// The printed names of terminals, by their numbers, with 1 to 255 bytes each: `$end`, `$undef`, and then the
    /// others.
    pub terminals: Vec<Vec<u8>>,
    /// The number of nonterminals, without `$accept`.
    pub nonterminals: usize,
    /// The terminal of each of the 256 bytes as a literal, 1 if there is none.
    pub literals: Vec<Sym>,
    /// The rules of the scanner, rule 0 first.
    pub scan_rules: Vec<ScanRule>,
    /// The initial states of each condition. There are 1 to 255 conditions.
    pub conditions: Vec<Starts>,
    /// The number of classes of bytes, 1 to 256.
    pub class_count: usize,
    /// The class of each of the 256 bytes.
    pub classes: Vec<u8>,
    /// The rule of each scanner state, if it has one. Rules count from 0 here, and from 1 in the file.
    pub accepted: Vec<Option<RuleNo>>,
    /// The transitions of scanner states: a row for each state, a column for each class.
    pub scan_rows: Comb<StateNo>,
    /// The rules of the parser without rule 0: the first is rule 1.
    pub rules: Vec<TableRule>,
    /// The default reduction of each parser state.
    pub defaults: Vec<Option<RuleNo>>,
    /// The actions of parser states: a row for each state, a column for each terminal.
    pub actions: Comb<TableAction>,
    /// The gotos of parser states: a row for each state, a column for each nonterminal.
    pub gotos: Comb<StateNo>,
}

impl TableParts {
    /// The parser's tables, for parts that are within the ranges of version 2.
    pub(crate) fn machine(&self) -> MachineView<'_, Comb<TableAction>, Comb<StateNo>>
        requires { IsWithinVersion V2 (set_of self.now) }
        ensures { result ≡ machine_of (set_of self.now) }
    {
        MachineView::new(
            self.terminals.len(),
            self.nonterminals,
            &self.actions,
            &self.gotos,
            &self.defaults,
            &self.rules,
        )
    }
}
