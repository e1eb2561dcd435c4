ghost use Rattle.std.specs.Prelude.{◌≡◌, length, map, option_map};
ghost use Rattle.ly_base.specs.declared.version.Version.TheVariants.{V2};
ghost use Rattle.ly_pack.specs.Steady.{IsSteady};
ghost use Rattle.ly_pack.specs.Values.{rule_from};
ghost use Rattle.ly_tables.specs.Ranges.{IsWithinVersion};
ghost use Rattle.ly_tables.specs.TableSet.{machine_of};
ghost use Rattle.ly_tables.specs.Values.{scan_rule_from, set_of, starts_from};

use crate::scan_rule::ScanRule;
use crate::table_parts::TableParts;
use ly_base::{RuleNo, StateNo, Sym};
use ly_pack::{Comb, MachineView, TableAction, TableRule};
use ly_scan::Starts;
use std::marker::Model;

/// Everything that a driver needs of a lex file and a yacc file. Its numbers are within the ranges of version 2 of the
/// table file, and each run of its parser's tables ends.
#[derive(Drop)]
pub struct TableSet {
    pub(crate) parts: TableParts,
}

impl Model for TableSet {
    ghost use Rattle.ly_tables.specs.TableSet as value;
    ghost use Rattle.ly_tables.specs.Values.{set_of, IsWithinAndSteady};

    ghost Value = { value.TableSet };

    ghost view = { λ s. set_of s.parts };

    ghost invariant = { λ s. IsWithinAndSteady (set_of s.parts) };
}

impl TableSet {
    /// The set with these parts, which must be within the ranges of version 2, with steady parser's tables.
    pub fn new(parts: TableParts) -> TableSet
        requires within { IsWithinVersion V2 (set_of parts) }
        requires steady { IsSteady (machine_of (set_of parts)) }
        ensures set { result ≡ set_of parts }
        ensures within { IsWithinVersion V2 result }
        ensures steady { IsSteady (machine_of result) }
    {
        TableSet { parts }
    }

    /// The parts of the set.
    pub fn into_parts(self) -> TableParts
        ensures same { set_of result ≡ self }
        ensures within { IsWithinVersion V2 self }
        ensures steady { IsSteady (machine_of self) }
    {
        let TableSet { parts } = self;
        parts
    }

    /// The parser's tables.
    pub fn machine(&self) -> MachineView<'_, Comb<TableAction>, Comb<StateNo>>
        ensures machine { result ≡ machine_of self.now }
        ensures within { IsWithinVersion V2 self.now }
        ensures steady { IsSteady (machine_of self.now) }
    {
        self.parts.machine()
    }

    /// The printed names of terminals, by their numbers.
    pub fn terminals(&self) -> &[Vec<u8>]
        ensures { map (λ n. n.items) result.now ≡ self.now.terminals }
    {
        &self.parts.terminals
    }

    /// The rules of the parser without rule 0: the first is rule 1.
    pub fn rules(&self) -> &[TableRule]
        ensures { map rule_from result.now ≡ self.now.rules }
    {
        &self.parts.rules
    }

    /// The terminal of each byte as a literal, 1 if there is none.
    pub fn literals(&self) -> &[Sym]
        ensures literals { map (λ t. t.0) result.now ≡ self.now.literals }
        ensures all { length result.now ≡ 256 }
    {
        &self.parts.literals
    }

    /// The rules of the scanner, rule 0 first.
    pub fn scan_rules(&self) -> &[ScanRule]
        ensures { map scan_rule_from result.now ≡ self.now.scan_rules }
    {
        &self.parts.scan_rules
    }

    /// The initial states of each condition.
    pub fn conditions(&self) -> &[Starts]
        ensures { map starts_from result.now ≡ self.now.conditions }
    {
        &self.parts.conditions
    }

    /// The class of each byte.
    pub fn classes(&self) -> &[u8]
        ensures { result.now ≡ self.now.classes }
    {
        &self.parts.classes
    }

    /// The rule of each scanner state, counted from 0, if it has one.
    pub fn accepted(&self) -> &[Option<RuleNo>]
        ensures { map (option_map (λ p. p.0)) result.now ≡ self.now.accepted }
    {
        &self.parts.accepted
    }

    /// The transitions of scanner states: a row for each state, a column for each class.
    pub fn scan_rows(&self) -> &Comb<StateNo>
        ensures { result.now ≡ self.now.scan_rows }
    {
        &self.parts.scan_rows
    }
}
