//! The sections of the parser.
ghost use Rattle.std.specs.Prelude.{◌≡◌, ◌++◌, ◌∷◌, ◌<◌, All, OnOk, length, map};
ghost use Rattle.std.specs.List.{flat_map};
ghost use Rattle.std.specs.Option.{option_map};
ghost use Rattle.ly_base.specs.Shape.{shape_of};
ghost use Rattle.ly_pack.specs.Values.{rule_from};
ghost use Rattle.ly_tables.specs.Private.Short.{IsByte, IsRuleWritten, IsShapeWritten, OptionFits};
ghost use Rattle.ly_tables.specs.Ranges.{width_of, IsWithinVersion};
ghost use Rattle.ly_tables.specs.RawSet.{Fits};
ghost use Rattle.ly_tables.specs.Spelling.{number, or_zero, parser_sections, rule, shape};

use crate::combs::push_comb;
use crate::numbers::{push_count, push_number, push_string};
use crate::table_set::TableSet;
use ly_base::{RuleNo, RuleTree, Version};
use ly_pack::TableRule;
use std::alloc::AllocError;

/// The sections of the parser: its rules, the default reductions of its states, and its rows.
pub(crate) fn push_parser(
    out: &mut Vec<u8>,
    version: Version,
    set: &TableSet,
) -> Result<(), AllocError>
    requires { IsWithinVersion version set.now }
    ensures { OnOk result (out.new.items ≡ out.old.items ++ parser_sections (width_of version) set.now) }
{
    push_rules(out, version, &set.parts.rules)?;
    push_defaults(out, version, &set.parts.defaults)?;
    push_comb(out, version, &set.parts.actions)?;
    push_comb(out, version, &set.parts.gotos)
}

/// The number of parser rules, and the rules.
fn push_rules(out: &mut Vec<u8>, version: Version, rules: &[TableRule]) -> Result<(), AllocError>
    requires count { Fits (width_of version) (length rules.now) }
    requires short { All (IsRuleWritten (width_of version)) (map rule_from rules.now) }
    ensures { OnOk result (out.new.items ≡ out.old.items
        ++ (number (width_of version) (length rules.now)
        ++ flat_map (rule (width_of version)) (map rule_from rules.now))) }
{
    push_count(out, version, rules.len())?;
    for rule in rules {
        push_rule(out, version, rule)?;
    }
    Ok(())
}

/// A rule of the parser.
fn push_rule(out: &mut Vec<u8>, version: Version, table_rule: &TableRule) -> Result<(), AllocError>
    requires { IsRuleWritten (width_of version) (rule_from table_rule.now) }
    ensures { OnOk result (out.new.items ≡ out.old.items ++ rule (width_of version) (rule_from table_rule.now)) }
{
    push_number(out, version, table_rule.left.0)?;
    out.push(table_rule.body_length as u8)?;
    push_tree(out, &table_rule.tree)
}

/// The tree that a rule builds: its kind, the name of its constructor, and places.
fn push_tree(out: &mut Vec<u8>, tree: &RuleTree) -> Result<(), AllocError>
    requires { IsShapeWritten (shape_of tree.now) }
    ensures { OnOk result (out.new.items ≡ out.old.items ++ shape (shape_of tree.now)) }
{
    match tree {
        RuleTree::Nil => out.extend_from_slice(&[0, 0, 0, 0]),
        RuleTree::Pass(place) => out.extend_from_slice(&[1, 0, 0, 1, *place as u8]),
        RuleTree::Build { name, places } => {
            out.push(2)?;
            push_string(out, name)?;
            push_places(out, places)
        }
    }
}

/// The number of children, and their places.
fn push_places(out: &mut Vec<u8>, places: &[u32]) -> Result<(), AllocError>
    requires count { IsByte (length places.now) }
    requires short { All IsByte places.now }
    ensures { OnOk result (out.new.items ≡ out.old.items ++ length places.now ∷ places.now) }
{
    out.push(places.len() as u8)?;
    for place in places {
        out.push(*place as u8)?;
    }
    Ok(())
}

/// The number of states, and their default reductions, with 0 for none.
fn push_defaults(
    out: &mut Vec<u8>,
    version: Version,
    defaults: &[Option<RuleNo>],
) -> Result<(), AllocError>
    requires count { Fits (width_of version) (length defaults.now) }
    requires short { All (OptionFits (width_of version)) (map (option_map (λ p. p.0)) defaults.now) }
    ensures { OnOk result (out.new.items ≡ out.old.items ++ (number (width_of version) (length defaults.now)
        ++ flat_map (or_zero (width_of version)) (map (option_map (λ p. p.0)) defaults.now))) }
{
    push_count(out, version, defaults.len())?;
    for rule in defaults {
        push_default(out, version, *rule)?;
    }
    Ok(())
}

/// A default reduction, or 0 for none.
fn push_default(out: &mut Vec<u8>, version: Version, rule: Option<RuleNo>) -> Result<(), AllocError>
    requires { OptionFits (width_of version) (option_map (λ p. p.0) rule) }
    ensures { OnOk result (out.new.items ≡ out.old.items ++ or_zero (width_of version) (option_map (λ p. p.0) rule)) }
{
    match rule {
        Some(rule) => push_number(out, version, rule.0),
        None => push_number(out, version, 0),
    }
}
