//! Reads the sections of the parser.
ghost use Rattle.std.specs.Prelude.{◌≡◌, ◌++◌, IfOk, IfErr};
ghost use Rattle.ly_tables.specs.Private.Parts.{IsBeginning, Stops};
ghost use Rattle.ly_tables.specs.Private.RawParts.{DoesParserFit, IsParserText, parser_raw};
ghost use Rattle.ly_tables.specs.Ranges.{width_of};
ghost use Rattle.ly_tables.specs.RawSet.{raw_parser_sections};

use crate::comb_fields::read_comb;
use crate::fault::TableFault;
use crate::field::counted;
use crate::plain_fields::Number;
use crate::raw_tables::{RawComb, RawRule};
use ly_base::Version;
use std::alloc::Global;

/// The sections of the parser, as numbers.
#[derive(Drop)]
pub(crate) struct RawParser {
    /// The rules.
    pub(crate) rules: Vec<RawRule>,
    /// The default rules of states.
    pub(crate) defaults: Vec<u32>,
    /// The actions of states.
    pub(crate) actions: RawComb,
    /// The gotos of states.
    pub(crate) gotos: RawComb,
}

/// The sections of the parser, and the bytes after them.
pub(crate) fn read_parser(
    alloc: Global,
    version: Version,
    left: &[u8],
) -> Result<(RawParser, &[u8]), TableFault>
    ensures fits { IfOk result (λ r. DoesParserFit (width_of version) (parser_raw r.0)) }
    ensures ok { IfOk result (λ r. left.now ≡ raw_parser_sections (width_of version) (parser_raw r.0) ++ r.1.now) }
    ensures truncated { IfErr result (Stops (IsBeginning (IsParserText (width_of version)) left.now)) }
{
    let (rules, left) = counted::<RawRule>(alloc, version, left)?;
    let (defaults, left) = counted::<Number>(alloc, version, left)?;
    let (actions, left) = read_comb(alloc, version, left, defaults.len())?;
    let (gotos, left) = read_comb(alloc, version, left, defaults.len())?;
    let parser = RawParser {
        rules,
        defaults,
        actions,
        gotos,
    };
    Ok((parser, left))
}
