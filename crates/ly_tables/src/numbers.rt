//! Writes the numbers of a version, and other numbers, at the end of bytes, most significant byte first.
ghost use Rattle.std.specs.Prelude.{◌≡◌, ◌++◌, ◌∷◌, [], ◌<◌, ◌≤◌, ◌*◌, ℕ, All, OnOk, drop, length};
ghost use Rattle.std.specs.List.{flat_map};
ghost use Rattle.std.specs.Int.{w16, w32, byte_len, to_be_bytes};
ghost use Rattle.ly_base.specs.declared.version.Version.{Version as AnyVersion};
ghost use Rattle.ly_tables.specs.Private.Short.{OptionFits};
ghost use Rattle.ly_tables.specs.Ranges.{number_of, width_of};
ghost use Rattle.ly_tables.specs.RawSet.{Fits};
ghost use Rattle.ly_tables.specs.Spelling.{least_reduction, least_shift, none_of, number, or_none, string};

use byteorder::{BigEndian, ByteOrder};
use ly_base::Version;
use std::alloc::AllocError;

/// The number of items whose numbers are written in one step: few enough that their bytes fit in the L1 cache.
const BLOCK: usize = 1024;

/// The number written for an item.
pub(crate) trait Numbering<T> {
    /// Which items have a number in a version.
    ghost has: { AnyVersion → T → Type 0 };

    /// The number.
    ghost code: { AnyVersion → T → ℕ };

    /// The number of an item in a version.
    fn number(version: Version, item: &T) -> u32
        requires { has version item.now }
        ensures number { result ≡ code version item.now }
        ensures fits { Fits (width_of version) result };
}

/// The number of a version in a file.
pub(crate) fn version_number(version: Version) -> u16
    ensures { result ≡ number_of version }
{
    match version {
        Version::V1 => 1,
        Version::V2 => 2,
    }
}

/// The size of a number of a version in bytes.
pub(crate) fn number_size(version: Version) -> usize
    ensures size { result ≡ byte_len (width_of version) }
    ensures some { 1 ≤ result }
{
    match version {
        Version::V1 => 2,
        Version::V2 => 4,
    }
}

/// The greatest number of a version, which represents none.
pub(crate) fn none(version: Version) -> u32
    ensures { result ≡ none_of (width_of version) }
{
    match version {
        Version::V1 => 0xffff,
        Version::V2 => 0xffff_ffff,
    }
}

/// The number that is added to the state of a shift.
pub(crate) fn shift(version: Version) -> u32
    ensures { result ≡ least_shift (width_of version) }
{
    match version {
        Version::V1 => 0x8000,
        Version::V2 => 0x8000_0000,
    }
}

/// The number that is added to the rule of a reduction.
pub(crate) fn reduction(version: Version) -> u32
    ensures { result ≡ least_reduction (width_of version) }
{
    match version {
        Version::V1 => 0x4000,
        Version::V2 => 0x4000_0000,
    }
}

/// Appends a number of a version.
pub(crate) fn push_number(
    out: &mut Vec<u8>,
    version: Version,
    number: u32,
) -> Result<(), AllocError>
    requires { Fits (width_of version) number }
    ensures { OnOk result (out.new.items ≡ out.old.items ++ to_be_bytes (width_of version) number) }
{
    match version {
        Version::V1 => push_short(out, number as u16),
        Version::V2 => push_wide(out, number),
    }
}

/// Appends a count, as a number of a version.
pub(crate) fn push_count(
    out: &mut Vec<u8>,
    version: Version,
    count: usize,
) -> Result<(), AllocError>
    requires { Fits (width_of version) count }
    ensures { OnOk result (out.new.items ≡ out.old.items ++ number (width_of version) count) }
{
    push_number(out, version, count as u32)
}

/// Appends a number of two bytes.
pub(crate) fn push_short(out: &mut Vec<u8>, number: u16) -> Result<(), AllocError>
    ensures { OnOk result (out.new.items ≡ out.old.items ++ to_be_bytes w16 number) }
{
    let mut bytes = [0; 2];
    BigEndian::write_u16(&mut bytes, number);
    out.extend_from_slice(&bytes)
}

/// Appends a number of four bytes.
pub(crate) fn push_wide(out: &mut Vec<u8>, number: u32) -> Result<(), AllocError>
    ensures { OnOk result (out.new.items ≡ out.old.items ++ to_be_bytes w32 number) }
{
    let mut bytes = [0; 4];
    BigEndian::write_u32(&mut bytes, number);
    out.extend_from_slice(&bytes)
}

/// Appends the number of each item, in blocks, because reserving memory for each number takes longer than writing it.
pub(crate) fn push_numbers<T, N: Numbering<T>>(
    out: &mut Vec<u8>,
    version: Version,
    items: &[T],
) -> Result<(), AllocError>
    requires { All (N.has version) items.now }
    ensures { OnOk result (out.new.items
        ≡ out.old.items ++ flat_map (λ x. number (width_of version) (N.code version x)) items.now) }
{
    let mut left = items;
    while !left.is_empty() {
        let (block, behind) = left.split_at(left.len().min(BLOCK));
        push_block::<T, N>(out, version, block)?;
        left = behind;
    }
    Ok(())
}

/// Appends the numbers of a block.
fn push_block<T, N: Numbering<T>>(
    out: &mut Vec<u8>,
    version: Version,
    items: &[T],
) -> Result<(), AllocError>
    requires few { length items.now ≤ 1024 }
    requires each { All (N.has version) items.now }
    ensures { OnOk result (out.new.items
        ≡ out.old.items ++ flat_map (λ x. number (width_of version) (N.code version x)) items.now) }
{
    let start = out.len();
    out.resize(start + number_size(version) * items.len(), 0)?;
    write_block::<T, N>(&mut out[start..], version, items);
    Ok(())
}

/// Writes the numbers of a block into bytes of exactly their size.
fn write_block<T, N: Numbering<T>>(bytes: &mut [u8], version: Version, items: &[T])
    requires room { length bytes.old ≡ byte_len (width_of version) * length items.now }
    requires each { All (N.has version) items.now }
    ensures { bytes.new ≡ flat_map (λ x. number (width_of version) (N.code version x)) items.now }
{
    let size = number_size(version);
    for (i, item) in items.iter().enumerate() {
        write_number(&mut bytes[size * i..], version, N::number(version, item));
    }
}

/// Writes a number of a version into the first bytes.
fn write_number(bytes: &mut [u8], version: Version, number: u32)
    requires room { byte_len (width_of version) ≤ length bytes.old }
    requires fits { Fits (width_of version) number }
    ensures { bytes.new ≡ to_be_bytes (width_of version) number ++ drop (byte_len (width_of version)) bytes.old }
{
    match version {
        Version::V1 => BigEndian::write_u16(bytes, number as u16),
        Version::V2 => BigEndian::write_u32(bytes, number),
    }
}

/// Appends a number of a version, or the one that represents none.
pub(crate) fn push_or_none(
    out: &mut Vec<u8>,
    version: Version,
    number: Option<u32>,
) -> Result<(), AllocError>
    requires { OptionFits (width_of version) number }
    ensures { OnOk result (out.new.items ≡ out.old.items ++ or_none (width_of version) number) }
{
    match number {
        Some(number) => push_number(out, version, number),
        None => push_number(out, version, none(version)),
    }
}

/// Appends a string: its length, in two bytes, and its bytes.
pub(crate) fn push_string(out: &mut Vec<u8>, bytes: &[u8]) -> Result<(), AllocError>
    requires { length bytes.now < 65536 }
    ensures { OnOk result (out.new.items ≡ out.old.items ++ string bytes.now) }
{
    push_short(out, bytes.len() as u16)?;
    out.extend_from_slice(bytes)
}
