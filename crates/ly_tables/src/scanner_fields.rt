//! Rules of the scanner, and conditions, as fields.
ghost use Rattle.std.specs.Prelude.{refl};
ghost use Rattle.ly_tables.specs.Private.Parts.{AreStartsText, IsScanRuleText};
ghost use Rattle.ly_tables.specs.Private.RawValues.{scan_rule_raw, starts_raw};
ghost use Rattle.ly_tables.specs.RawSet.{ScanRuleFits, StartsFit, raw_scan_rule, raw_starts};

use crate::fault::TableFault;
use crate::field::Field;
use crate::front::{byte, number};
use crate::raw_tables::{RawScanRule, RawStarts};
use ly_base::Version;
use std::alloc::Global;

impl Field for RawScanRule {
    type Value = RawScanRule;

    ghost use Rattle.ly_tables.specs.Private.Found.{some_scan_rule};

    ghost spelled = { λ w rule. raw_scan_rule w (scan_rule_raw rule) };

    ghost fits = { λ w rule. ScanRuleFits w (scan_rule_raw rule) };

    ghost part = { IsScanRuleText };

    fn read(
        _alloc: Global,
        version: Version,
        left: &[u8],
    ) -> Result<(RawScanRule, &[u8]), TableFault> {
        let (kind, left) = byte(left)?;
        let (terminal, left) = number(version, left)?;
        let (begin, left) = number(version, left)?;
        let (cut, left) = byte(left)?;
        let (len, left) = number(version, left)?;
        let rule = RawScanRule {
            kind,
            terminal,
            begin,
            cut,
            len,
        };
        Ok((rule, left))
    }

    ghost is_part = { λ w rule fit. record { value = scan_rule_raw rule; fit = fit; is = refl } };

    ghost some_part = { some_scan_rule };
}

impl Field for RawStarts {
    type Value = RawStarts;

    ghost use Rattle.ly_tables.specs.Private.Found.{some_starts};

    ghost spelled = { λ w starts. raw_starts w (starts_raw starts) };

    ghost fits = { λ w starts. StartsFit w (starts_raw starts) };

    ghost part = { AreStartsText };

    fn read(
        _alloc: Global,
        version: Version,
        left: &[u8],
    ) -> Result<(RawStarts, &[u8]), TableFault> {
        let (elsewhere, left) = number(version, left)?;
        let (at_line, left) = number(version, left)?;
        Ok((RawStarts { elsewhere, at_line }, left))
    }

    ghost is_part = { λ w starts fit. record { value = starts_raw starts; fit = fit; is = refl } };

    ghost some_part = { some_starts };
}
