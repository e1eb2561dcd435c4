//! Rules of the parser as fields.
ghost use Rattle.std.specs.Prelude.{refl};
ghost use Rattle.ly_tables.specs.Private.Parts.{IsRuleText};
ghost use Rattle.ly_tables.specs.Private.RawValues.{rule_raw};
ghost use Rattle.ly_tables.specs.RawSet.{RuleFits, raw_rule};

use crate::fault::TableFault;
use crate::field::Field;
use crate::front::{byte, bytes, number};
use crate::plain_fields::Text;
use crate::raw_tables::RawRule;
use ly_base::Version;
use std::alloc::Global;

impl Field for RawRule {
    type Value = RawRule;

    ghost use Rattle.ly_tables.specs.Private.Found.{some_rule};

    ghost spelled = { λ w rule. raw_rule w (rule_raw rule) };

    ghost fits = { λ w rule. RuleFits w (rule_raw rule) };

    ghost part = { IsRuleText };

    fn read(alloc: Global, version: Version, left: &[u8]) -> Result<(RawRule, &[u8]), TableFault> {
        let (left_side, left) = number(version, left)?;
        let (body_length, left) = byte(left)?;
        let (kind, left) = byte(left)?;
        let (name, left) = Text::read(alloc, version, left)?;
        let (count, left) = byte(left)?;
        let (places, left) = bytes(left, count as usize)?;
        let rule = RawRule {
            left: left_side,
            body_length,
            kind,
            name,
            places: Vec::from_slice(alloc, places)?,
        };
        Ok((rule, left))
    }

    ghost is_part = { λ w rule fit. record { value = rule_raw rule; fit = fit; is = refl } };

    ghost some_part = { some_rule };
}
