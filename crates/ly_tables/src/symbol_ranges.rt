//! The ranges of the sections of the symbols.
ghost use Rattle.std.specs.Prelude.{◌≡◌, ◌+◌, ◌<◌, ◌≤◌, ◌↔◌, All, IsTrue, Some, length, map, slice_get};
ghost use Rattle.ly_tables.specs.Private.Names.{AreNamesWithin, BeginWithSpecials};
ghost use Rattle.ly_tables.specs.Private.RawValues.{raw_from};
ghost use Rattle.ly_tables.specs.Ranges.{counts_of, IsNameLong};
ghost use Rattle.ly_tables.specs.RawSections.{AreSymbolsWithin, IsToken};

use crate::bounds::{is_count_within, most_symbols};
use crate::raw_tables::RawTables;
use ly_base::Version;

/// The greatest length of a name.
const LONGEST_NAME: usize = 255;

/// Whether the symbols are within their ranges.
pub(crate) fn symbols_within(version: Version, raw: &RawTables) -> bool
    ensures { IsTrue result ↔ AreSymbolsWithin (counts_of version) (raw_from raw.now) }
{
    let most = most_symbols(version);
    are_counts_within(most, raw.terminals.len(), raw.nonterminals as usize)
        && are_names_within(&raw.terminals)
}

/// Whether these numbers of terminals and nonterminals are allowed, with at most `most` symbols.
fn are_counts_within(most: usize, terminals: usize, nonterminals: usize) -> bool
    ensures { IsTrue result ↔ (2 ≤ terminals) × (1 ≤ nonterminals) × (terminals + nonterminals + 1 ≤ most) }
{
    2 <= terminals && 1 <= nonterminals && nonterminals < most && terminals < most - nonterminals
}

/// Whether names have allowed lengths, and the first two are `$end` and `$undef`.
fn are_names_within(names: &[Vec<u8>]) -> bool
    requires { 2 ≤ length names.now }
    ensures { IsTrue result ↔ AreNamesWithin (map (λ name. name.items) names.now) }
{
    are_names_long(names) && begin_with_specials(names)
}

/// Whether the first two names are `$end` and `$undef`.
fn begin_with_specials(names: &[Vec<u8>]) -> bool
    requires { 2 ≤ length names.now }
    ensures { IsTrue result ↔ BeginWithSpecials (map (λ name. name.items) names.now) }
{
    is_named(names, 0, b"$end") && is_named(names, 1, b"$undef")
}

/// Whether each name has an allowed length.
fn are_names_long(names: &[Vec<u8>]) -> bool
    ensures { IsTrue result ↔ All (λ name. IsNameLong name.items) names.now }
{
    names.iter().all(|name| is_name_long(name))
}

/// Whether a name has at least one byte, and not too many.
pub(crate) fn is_name_long(name: &[u8]) -> bool
    ensures { IsTrue result ↔ IsNameLong name.now }
{
    is_count_within(name.len(), LONGEST_NAME)
}

/// Whether this is the name with this number.
fn is_named(names: &[Vec<u8>], number: usize, name: &[u8]) -> bool
    requires { number < length names.now }
    ensures { IsTrue result ↔ (slice_get (map (λ name. name.items) names.now) number ≡ Some name.now) }
{
    names[number].as_slice() == name
}

/// Whether the terminal of each byte exists and isn't the end.
pub(crate) fn literals_within(raw: &RawTables) -> bool
    ensures { IsTrue result ↔ All (IsToken (raw_from raw.now)) (raw_from raw.now).literals }
{
    raw.literals
        .iter()
        .all(|literal| is_token(*literal, raw.terminals.len()))
}

/// Whether a number is that of a terminal, and not the end.
pub(crate) fn is_token(number: u32, terminals: usize) -> bool
    ensures { IsTrue result ↔ (1 ≤ number) × (number < terminals) }
{
    1 <= number && (number as usize) < terminals
}
