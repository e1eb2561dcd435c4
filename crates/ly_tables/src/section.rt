ghost use Rattle.std.specs.Prelude.{◌≡◌};
ghost use Rattle.ly_tables.specs.Private.SectionOrder.{section_from};
ghost use Rattle.ly_tables.specs.RawSections.{section_number};

/// A section of a table file with numbers that have ranges. The magic and the version are section 1.
#[derive(Clone, Copy)]
pub(crate) enum Section {
    /// The number of symbols, and the names of terminals.
    Symbols,
    /// The terminal of each byte.
    Literals,
    /// The rules of the scanner.
    ScanRules,
    /// The initial states of the conditions.
    Conditions,
    /// The class of each byte.
    Classes,
    /// The rules of scanner states.
    Accepted,
    /// The rows of scanner states.
    ScanRows,
    /// The rules of the parser.
    Rules,
    /// The default rules of parser states.
    Defaults,
    /// The actions of parser states.
    Actions,
    /// The gotos of parser states.
    Gotos,
}

impl Section {
    /// Its number in the file.
    pub(crate) fn number(self) -> u8
        ensures { result ≡ section_number (section_from self) }
    {
        match self {
            Section::Symbols => 2,
            Section::Literals => 3,
            Section::ScanRules => 4,
            Section::Conditions => 5,
            Section::Classes => 6,
            Section::Accepted => 7,
            Section::ScanRows => 8,
            Section::Rules => 9,
            Section::Defaults => 10,
            Section::Actions => 11,
            Section::Gotos => 12,
        }
    }
}
