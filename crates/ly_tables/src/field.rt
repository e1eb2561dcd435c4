//! Fields of a table file, and lists of them.
ghost use Rattle.std.specs.Prelude.{◌≡◌, ◌++◌, ℕ, List, All, IfOk, IfErr, false, length};
ghost use Rattle.std.specs.List.{flat_map};
ghost use Rattle.std.specs.Int.{Width};
ghost use Rattle.ly_tables.specs.Private.Parts.{Counted, IsBeginning, Repeated, Stops};
ghost use Rattle.ly_tables.specs.Ranges.{width_of};
ghost use Rattle.ly_tables.specs.RawSet.{Fits};
ghost use Rattle.ly_tables.specs.Spelling.{number};

use crate::fault::TableFault;
use crate::front::number;
use ly_base::Version;
use std::alloc::Global;

/// A kind of field.
pub(crate) trait Field {
    /// The value of a field in memory.
    type Value: Drop;

    /// The bytes of a value, with numbers of this width.
    ghost spelled: { Width → Self.Value → List ℕ };

    /// Whether a value can be written.
    ghost fits: { Width → Self.Value → Type 0 };

    /// Whether bytes are those of a field.
    ghost part: { Width → List ℕ → Type 0 };

    /// Whether there may be enough bytes for this many fields, as far as this is known before they are read.
    fn may_be_there(version: Version, left: &[u8], count: usize) -> bool
        ensures { result ≡ false → IsBeginning (Repeated (part (width_of version)) count) left.now }
    {
        true
    }

    /// Reads the field that comes first, in a version. Returns it and the bytes after it.
    fn read(
        alloc: Global,
        version: Version,
        left: &[u8],
    ) -> Result<(Self::Value, &[u8]), TableFault>
        ensures ok { IfOk result (λ r. fits (width_of version) r.0
            × (left.now ≡ spelled (width_of version) r.0 ++ r.1.now)) }
        ensures truncated { IfErr result (Stops (IsBeginning (part (width_of version)) left.now)) };

    /// A written value is a field.
    ghost is_part: { (w : Width) (v : Self.Value) → fits w v → part w (spelled w v) };

    /// There is a field.
    ghost some_part: { (w : Width) → (bytes : List ℕ) × part w bytes };
}

/// This many fields, and the bytes after them.
pub(crate) fn list<F: Field>(
    alloc: Global,
    version: Version,
    left: &[u8],
    count: usize,
) -> Result<(Vec<F::Value>, &[u8]), TableFault>
    ensures count { IfOk result (λ r. length r.0.items ≡ count) }
    ensures fits { IfOk result (λ r. All (F.fits (width_of version)) r.0.items) }
    ensures ok { IfOk result (λ r. left.now ≡ flat_map (F.spelled (width_of version)) r.0.items ++ r.1.now) }
    ensures truncated { IfErr result (Stops (IsBeginning (Repeated (F.part (width_of version)) count) left.now)) }
{
    if !F::may_be_there(version, left, count) {
        return Err(TableFault::Truncated);
    }
    let mut values = Vec::new(alloc);
    let mut behind = left;
    for _done in 0..count {
        let (value, next) = F::read(alloc, version, behind)?;
        values.push(value)?;
        behind = next;
    }
    Ok((values, behind))
}

/// Fields with their number before them, in a number of the version, and the bytes after them.
pub(crate) fn counted<F: Field>(
    alloc: Global,
    version: Version,
    left: &[u8],
) -> Result<(Vec<F::Value>, &[u8]), TableFault>
    ensures count { IfOk result (λ r. Fits (width_of version) (length r.0.items)) }
    ensures fits { IfOk result (λ r. All (F.fits (width_of version)) r.0.items) }
    ensures ok { IfOk result (λ r. left.now ≡ (number (width_of version) (length r.0.items)
        ++ flat_map (F.spelled (width_of version)) r.0.items) ++ r.1.now) }
    ensures truncated { IfErr result (Stops (IsBeginning (Counted (width_of version) (F.part (width_of version)))
        left.now)) }
{
    let (count, behind) = number(version, left)?;
    list::<F>(alloc, version, behind, count as usize)
}
