//! Converts the numbers of a table file to the parts of a table set.
ghost use Rattle.std.specs.Prelude.{◌≡◌, IfOk};
ghost use Rattle.ly_tables.specs.Private.Meaning.{set_meant};
ghost use Rattle.ly_tables.specs.Private.Lists.{AreListsMeant};
ghost use Rattle.ly_tables.specs.Private.RawValues.{raw_from};
ghost use Rattle.ly_tables.specs.Private.SectionOrder.{AreAllWithin, AreFileNumbers};
ghost use Rattle.ly_tables.specs.Ranges.{width_of, IsWithinVersion};
ghost use Rattle.ly_tables.specs.RawOf.{raw_of};
ghost use Rattle.ly_tables.specs.Values.{set_of};

use crate::raw_tables::RawTables;
use crate::row_meaning::comb;
use crate::rule_meaning::table_rules;
use crate::scan_rule::ScanRule;
use crate::scanner_meaning::{accepted, conditions, defaults, literals, scan_rules};
use crate::table_parts::TableParts;
use ly_base::{OutOfMemory, RuleNo, Sym, Version};
use ly_scan::Starts;
use std::alloc::{AllocError, Global};

/// The parts that numbers within their ranges represent. It fails if an allocation fails.
pub(crate) fn table_parts(
    alloc: Global,
    version: Version,
    raw: RawTables,
) -> Result<TableParts, OutOfMemory>
    requires fits { AreFileNumbers version (raw_from raw) }
    requires within { AreAllWithin version (raw_from raw) }
    ensures same { IfOk result (λ parts. raw_of (width_of version) (set_of parts) ≡ raw_from raw) }
    ensures within { IfOk result (λ parts. IsWithinVersion version (set_of parts)) }
{
    Ok(parts_meant(alloc, version, raw)?)
}

/// The parts that numbers represent.
fn parts_meant(alloc: Global, version: Version, raw: RawTables) -> Result<TableParts, AllocError>
    requires fits { AreFileNumbers version (raw_from raw) }
    requires within { AreAllWithin version (raw_from raw) }
    ensures { IfOk result (λ parts. set_of parts ≡ set_meant (width_of version) (raw_from raw)) }
{
    let terminals = raw.terminals.len();
    let nonterminals = raw.nonterminals as usize;
    let class_count = raw.class_count as usize;
    let lists = lists_meant(alloc, version, &raw)?;
    Ok(TableParts {
        nonterminals,
        literals: lists.literals,
        scan_rules: lists.scan_rules,
        conditions: lists.conditions,
        class_count,
        accepted: lists.accepted,
        scan_rows: comb(alloc, version, class_count, raw.scan_rows)?,
        rules: table_rules(alloc, raw.rules)?,
        defaults: lists.defaults,
        actions: comb(alloc, version, terminals, raw.actions)?,
        gotos: comb(alloc, version, nonterminals, raw.gotos)?,
        terminals: raw.terminals,
        classes: raw.classes,
    })
}

/// The parts of a table set that are lists of numbers or of records of numbers.
#[derive(Drop)]
struct Lists {
    /// The terminal of each byte as a literal.
    literals: Vec<Sym>,
    /// The rules of the scanner.
    scan_rules: Vec<ScanRule>,
    /// The initial states of each condition.
    conditions: Vec<Starts>,
    /// The rules of scanner states.
    accepted: Vec<Option<RuleNo>>,
    /// The default reductions of parser states.
    defaults: Vec<Option<RuleNo>>,
}

/// The lists that numbers represent.
fn lists_meant(alloc: Global, version: Version, raw: &RawTables) -> Result<Lists, AllocError>
    ensures { IfOk result (AreListsMeant (width_of version) (raw_from raw.now)) }
{
    Ok(Lists {
        literals: literals(alloc, &raw.literals)?,
        scan_rules: scan_rules(alloc, version, &raw.scan_rules)?,
        conditions: conditions(alloc, version, &raw.conditions)?,
        accepted: accepted(alloc, &raw.accepted)?,
        defaults: defaults(alloc, &raw.defaults)?,
    })
}
