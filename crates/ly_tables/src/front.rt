//! Reads fields from the front of the rest of a table file.
ghost use Rattle.std.specs.Prelude.{◌≡◌, ◌++◌, IfOk, IfErr};
ghost use Rattle.std.specs.Int.{w16, w32};
ghost use Rattle.ly_tables.specs.Private.Parts.{AreBytes, IsByteText, IsBeginning, IsNumberText, Stops};
ghost use Rattle.ly_tables.specs.Private.Parts.{single};
ghost use Rattle.ly_tables.specs.Ranges.{width_of};
ghost use Rattle.ly_tables.specs.RawSet.{Fits, IsByte};
ghost use Rattle.ly_tables.specs.Spelling.{number};

use crate::fault::TableFault;
use byteorder::{BigEndian, ByteOrder};
use ly_base::Version;

/// This many bytes, and the bytes after them.
pub(crate) fn bytes(left: &[u8], count: usize) -> Result<(&[u8], &[u8]), TableFault>
    ensures ok { IfOk result (λ r. AreBytes count r.0.now × (left.now ≡ r.0.now ++ r.1.now)) }
    ensures truncated { IfErr result (Stops (IsBeginning (AreBytes count) left.now)) }
{
    if left.len() < count {
        return Err(TableFault::Truncated);
    }
    Ok(left.split_at(count))
}

/// A number of one byte, and the bytes after it.
pub(crate) fn byte(left: &[u8]) -> Result<(u8, &[u8]), TableFault>
    ensures ok { IfOk result (λ r. IsByte r.0 × (left.now ≡ single r.0 ++ r.1.now)) }
    ensures truncated { IfErr result (Stops (IsBeginning IsByteText left.now)) }
{
    match left {
        [byte, behind @ ..] => Ok((*byte, behind)),
        [] => Err(TableFault::Truncated),
    }
}

/// A number of a version, and the bytes after it.
pub(crate) fn number(version: Version, left: &[u8]) -> Result<(u32, &[u8]), TableFault>
    ensures ok { IfOk result (λ r. Fits (width_of version) r.0
        × (left.now ≡ number (width_of version) r.0 ++ r.1.now)) }
    ensures truncated { IfErr result (Stops (IsBeginning (IsNumberText (width_of version)) left.now)) }
{
    match version {
        Version::V1 => {
            let (number, behind) = short(left)?;
            Ok((number as u32, behind))
        }
        Version::V2 => wide(left),
    }
}

/// A number of two bytes, and the bytes after it.
pub(crate) fn short(left: &[u8]) -> Result<(u16, &[u8]), TableFault>
    ensures ok { IfOk result (λ r. Fits w16 r.0 × (left.now ≡ number w16 r.0 ++ r.1.now)) }
    ensures truncated { IfErr result (Stops (IsBeginning (IsNumberText w16) left.now)) }
{
    let (text, behind) = bytes(left, 2)?;
    Ok((BigEndian::read_u16(text), behind))
}

/// A number of four bytes, and the bytes after it.
pub(crate) fn wide(left: &[u8]) -> Result<(u32, &[u8]), TableFault>
    ensures ok { IfOk result (λ r. Fits w32 r.0 × (left.now ≡ number w32 r.0 ++ r.1.now)) }
    ensures truncated { IfErr result (Stops (IsBeginning (IsNumberText w32) left.now)) }
{
    let (text, behind) = bytes(left, 4)?;
    Ok((BigEndian::read_u32(text), behind))
}
