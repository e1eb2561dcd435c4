//! Reads the sections of the scanner.
ghost use Rattle.std.specs.Prelude.{◌≡◌, ◌++◌, IfOk, IfErr};
ghost use Rattle.ly_tables.specs.Private.Parts.{IsBeginning, Stops};
ghost use Rattle.ly_tables.specs.Private.RawParts.{DoesScannerFit, IsScannerText, scanner_raw};
ghost use Rattle.ly_tables.specs.Ranges.{width_of};
ghost use Rattle.ly_tables.specs.RawSet.{raw_scanner_sections};

use crate::comb_fields::read_comb;
use crate::fault::TableFault;
use crate::field::counted;
use crate::front::{bytes, number};
use crate::plain_fields::Number;
use crate::raw_tables::{RawComb, RawScanRule, RawStarts};
use ly_base::Version;
use std::alloc::Global;

/// The sections of the scanner, as numbers.
#[derive(Drop)]
pub(crate) struct RawScanner {
    /// The rules.
    pub(crate) scan_rules: Vec<RawScanRule>,
    /// The initial states of the conditions.
    pub(crate) conditions: Vec<RawStarts>,
    /// The number of classes of bytes.
    pub(crate) class_count: u32,
    /// The class of each byte.
    pub(crate) classes: Vec<u8>,
    /// The rules of states.
    pub(crate) accepted: Vec<u32>,
    /// The rows of states.
    pub(crate) rows: RawComb,
}

/// The sections of the scanner, and the bytes after them.
pub(crate) fn read_scanner(
    alloc: Global,
    version: Version,
    left: &[u8],
) -> Result<(RawScanner, &[u8]), TableFault>
    ensures fits { IfOk result (λ r. DoesScannerFit (width_of version) (scanner_raw r.0)) }
    ensures ok { IfOk result (λ r. left.now ≡ raw_scanner_sections (width_of version) (scanner_raw r.0) ++ r.1.now) }
    ensures truncated { IfErr result (Stops (IsBeginning (IsScannerText (width_of version)) left.now)) }
{
    let (scan_rules, left) = counted::<RawScanRule>(alloc, version, left)?;
    let (conditions, left) = counted::<RawStarts>(alloc, version, left)?;
    let (class_count, left) = number(version, left)?;
    let (class_bytes, left) = bytes(left, 256)?;
    let (accepted, left) = counted::<Number>(alloc, version, left)?;
    let (rows, left) = read_comb(alloc, version, left, accepted.len())?;
    let classes = Vec::from_slice(alloc, class_bytes)?;
    let scanner = RawScanner {
        scan_rules,
        conditions,
        class_count,
        classes,
        accepted,
        rows,
    };
    Ok((scanner, left))
}
