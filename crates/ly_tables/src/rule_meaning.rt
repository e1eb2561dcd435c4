//! Converts the numbers of the parser's rules.
ghost use Rattle.std.specs.Prelude.{◌≡◌, IfOk, map, slice_index};
ghost use Rattle.ly_base.specs.Shape.{shape_of};
ghost use Rattle.ly_pack.specs.Values.{rule_from};
ghost use Rattle.ly_tables.specs.Private.Meaning.{rule_meant, shape_meant};
ghost use Rattle.ly_tables.specs.Private.RawValues.{rule_raw};

use crate::raw_tables::RawRule;
use ly_base::{RuleTree, Sym};
use ly_pack::TableRule;
use std::alloc::{AllocError, Global};

/// The rules of the parser.
pub(crate) fn table_rules(alloc: Global, rules: Vec<RawRule>) -> Result<Vec<TableRule>, AllocError>
    ensures { IfOk result (λ out. map rule_from out.items ≡ map rule_meant (map rule_raw rules.items)) }
{
    let mut out = Vec::with_capacity(alloc, rules.len())?;
    for rule in rules {
        out.push(table_rule(alloc, rule)?)?;
    }
    Ok(out)
}

/// A rule of the parser.
fn table_rule(alloc: Global, rule: RawRule) -> Result<TableRule, AllocError>
    ensures { IfOk result (λ out. rule_from out ≡ rule_meant (rule_raw rule)) }
{
    let (left, body_length) = (Sym(rule.left), rule.body_length as usize);
    Ok(TableRule {
        left,
        body_length,
        tree: rule_tree(alloc, rule)?,
    })
}

/// The tree that a rule of the parser builds.
fn rule_tree(alloc: Global, rule: RawRule) -> Result<RuleTree, AllocError>
    ensures { IfOk result (λ tree. shape_of tree ≡ shape_meant (rule_raw rule)) }
{
    match rule.kind {
        0 => Ok(RuleTree::Nil),
        1 => Ok(RuleTree::Pass(first_place(&rule.places))),
        _ => Ok(RuleTree::Build {
            places: wide_places(alloc, &rule.places)?,
            name: rule.name,
        }),
    }
}

/// The first place, or 0 if there is none.
fn first_place(places: &[u8]) -> u32
    ensures { result ≡ slice_index places.now 0 }
{
    match places.first() {
        Some(place) => *place as u32,
        None => 0,
    }
}

/// The places as 32-bit numbers.
fn wide_places(alloc: Global, places: &[u8]) -> Result<Vec<u32>, AllocError>
    ensures { IfOk result (λ out. out.items ≡ places.now) }
{
    let mut out = Vec::with_capacity(alloc, places.len())?;
    for place in places {
        out.push(*place as u32)?;
    }
    Ok(out)
}
