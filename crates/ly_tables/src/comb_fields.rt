//! Combs in a table file.
ghost use Rattle.std.specs.Prelude.{◌≡◌, ◌++◌, IfOk, IfErr};
ghost use Rattle.ly_tables.specs.Private.Parts.{IsCombText, IsBeginning, Stops};
ghost use Rattle.ly_tables.specs.Private.RawValues.{comb_raw};
ghost use Rattle.ly_tables.specs.Ranges.{width_of};
ghost use Rattle.ly_tables.specs.RawSet.{CombFits, raw_comb};

use crate::fault::TableFault;
use crate::field::list;
use crate::front::wide;
use crate::plain_fields::{Number, Wide};
use crate::raw_tables::RawComb;
use ly_base::Version;
use std::alloc::Global;

/// The rows of this many states as a comb, and the bytes after it.
pub(crate) fn read_comb(
    alloc: Global,
    version: Version,
    left: &[u8],
    states: usize,
) -> Result<(RawComb, &[u8]), TableFault>
    ensures fits { IfOk result (λ r. CombFits (width_of version) states (comb_raw r.0)) }
    ensures ok { IfOk result (λ r. left.now ≡ raw_comb (width_of version) (comb_raw r.0) ++ r.1.now) }
    ensures truncated { IfErr result (Stops (IsBeginning (IsCombText (width_of version) states) left.now)) }
{
    let (bases, left) = list::<Wide>(alloc, version, left, states)?;
    let (slots, left) = wide(left)?;
    let (entries, left) = list::<Number>(alloc, version, left, slots as usize)?;
    let (rows, left) = list::<Number>(alloc, version, left, slots as usize)?;
    let comb = RawComb {
        bases,
        entries,
        rows,
    };
    Ok((comb, left))
}
