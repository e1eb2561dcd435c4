//! The greatest counts of a table file, and lists of numbers below a bound.
ghost use Rattle.std.specs.Prelude.{◌≡◌, ◌≤◌, ◌↔◌, All, IsTrue};
ghost use Rattle.ly_tables.specs.Ranges.{counts_of};

use ly_base::Version;

/// The maximum number of conditions.
pub(crate) const MOST_CONDITIONS: usize = 255;

/// The maximum number of classes.
pub(crate) const MOST_CLASSES: usize = 256;

/// The maximum number of symbols in a version, with `$accept`.
pub(crate) fn most_symbols(version: Version) -> usize
    ensures { result ≡ (counts_of version).symbols }
{
    match version {
        Version::V1 => 4095,
        Version::V2 => 16_383,
    }
}

/// The maximum number of rules in a version.
pub(crate) fn most_rules(version: Version) -> usize
    ensures { result ≡ (counts_of version).rules }
{
    match version {
        Version::V1 => 8191,
        Version::V2 => 131_071,
    }
}

/// The maximum number of states in a version.
pub(crate) fn most_states(version: Version) -> usize
    ensures { result ≡ (counts_of version).states }
{
    match version {
        Version::V1 => 16_383,
        Version::V2 => 262_143,
    }
}

/// Whether a count is at least 1 and at most `most`.
pub(crate) fn is_count_within(count: usize, most: usize) -> bool
    ensures { IsTrue result ↔ (1 ≤ count) × (count ≤ most) }
{
    1 <= count && count <= most
}

/// Whether each number is at most a bound.
pub(crate) fn are_at_most(numbers: &[u32], bound: usize) -> bool
    ensures { IsTrue result ↔ All (λ number. number ≤ bound) numbers.now }
{
    numbers.iter().all(|number| *number as usize <= bound)
}
