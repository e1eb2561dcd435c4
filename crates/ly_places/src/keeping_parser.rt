//! A parser that makes derivations, over a table set.
ghost use Rattle.std.specs.Prelude.{◌≡◌, [], ◌∷◌, IfOk, false, map};
ghost use Rattle.ly_feed.specs.Closed.{CanRun};
ghost use Rattle.ly_feed.specs.ScanPart.{scan_part_of};
ghost use Rattle.ly_pack.specs.Machine.{IsMachine};
ghost use Rattle.ly_pack.specs.Values.{rule_from};
ghost use Rattle.ly_places.specs.Shapes.{keeping_machine, keeping_rule};
ghost use Rattle.ly_tables.specs.TableSet.{machine_of};
ghost use Rattle.ly_tree.specs.Forest.{no_terms};

use crate::keeping::keeping_rules;
use ly_base::OutOfMemory;
use ly_feed::TableParser;
use ly_pack::TableRule;
use ly_parse::Parser;
use ly_tables::TableSet;
use std::alloc::Global;

/// The rules of a table set, changed to keep their whole bodies. It fails if an allocation fails.
pub(crate) fn rules_of(alloc: Global, set: &TableSet) -> Result<Vec<TableRule>, OutOfMemory>
    ensures { IfOk result (λ kept. map rule_from kept.items ≡ map keeping_rule set.now.rules) }
{
    keeping_rules(alloc, set.machine().rules())
}

/// A parser with the tables of a set, but with these rules, which keep their whole bodies. It has read nothing.
pub(crate) fn keeping_parser<'a>(
    alloc: Global,
    set: &'a TableSet,
    rules: &'a [TableRule],
) -> TableParser<'a>
    requires { map rule_from rules.now ≡ map keeping_rule set.now.rules }
    ensures new { result ≡ record {
      machine = keeping_machine (machine_of set.now);
      forest = no_terms;
      stack = [];
      count = 0;
      over = false;
      asked = 0 ∷ [];
    } }
    ensures machine { IsMachine (machine_of set.now) }
    ensures runs { CanRun (scan_part_of set.now) (keeping_machine (machine_of set.now)) }
{
    Parser::new(alloc, set.machine().with_rules(rules))
}
