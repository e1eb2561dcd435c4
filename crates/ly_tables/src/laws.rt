ghost use Rattle.std.specs.Int.{w16, w32};
ghost use Rattle.ly_tables.specs.Laws.{AreNumbersWithin, HasOneSet, HasOneSpelling, IsRefusalExact};
ghost use Rattle.ly_tables.specs.Laws.{IsSpelledByNumbers, IsWithinVersion2, RawIsOne};

/// Theorem: a set has one spelling in a version.
pub fn a_set_has_one_spelling()
    ensures { HasOneSpelling }
{}

/// Theorem: a set is spelled like its numbers.
pub fn a_set_is_spelled_by_numbers()
    ensures { IsSpelledByNumbers }
{}

/// Theorem: the numbers of a set that is within the ranges of a version are within the ranges of their sections.
pub fn numbers_of_a_set_are_within()
    ensures { AreNumbersWithin }
{}

/// Theorem: a set that is within the ranges of a version is within those of version 2, as a table set's type requires.
pub fn a_set_is_within_version_2()
    ensures { IsWithinVersion2 }
{}

/// Theorem: a file has one set and one version.
pub fn a_file_has_one_set()
    ensures { HasOneSet }
{}

/// Theorem: rejected bytes, unless memory ran out, are the file of no set whose tables are steady.
pub fn a_refusal_is_exact()
    ensures { IsRefusalExact }
{}

/// Theorem: a file of some numbers, of two or four bytes each, is no prefix of a file of others.
pub fn raw_files_are_told_apart()
    ensures short { RawIsOne w16 }
    ensures wide { RawIsOne w32 }
{}
