ghost use Rattle.std.specs.Prelude.{◌≡◌, ◌++◌, ◌∷◌, ◌⊎◌, [], ℕ, List, Contains, length, IfOk, MatchBool};
ghost use Rattle.std.specs.Prelude.{MatchOption, map};
ghost use Rattle.ly_lexread.specs.Definitions.{defined_names, DefinesName};
ghost use Rattle.ly_lexread.specs.Private.Names.{AreApart, parts_of};

use crate::blanks::behind_blanks;
use crate::rest::Line;
use indexmap::IndexSet;
use ly_base::{Language, leading_name};
use ly_ere::NamedText;
use std::alloc::{AllocError, Global};
use std::marker::Model;

/// A line that defines a name.
#[derive(Clone, Copy)]
pub(crate) struct NameLine<'t> {
    /// The name, and what follows it after blanks.
    pub(crate) defined: NamedText<'t>,
    /// The number of bytes of the file from the line on.
    pub(crate) left: usize,
    /// The number of bytes of the file from the definition's text on.
    pub(crate) text_left: usize,
}

impl<'t> NameLine<'t> {
    /// Makes the entry of a line with this definition.
    pub(crate) fn of(defined: NamedText<'t>, line: Line<'_>) -> Self
        ensures defined { result.defined ≡ defined.entry }
        ensures left { result.left ≡ length line.entry.text.bytes.now }
    {
        NameLine {
            defined,
            left: line.text.bytes.len(),
            text_left: line.left_from(defined.text),
        }
    }
}

/// Splits a line that defines a name into the name and what follows it after blanks.
pub(crate) fn definition_on(line: &[u8]) -> Option<NamedText<'_>>
    ensures { MatchOption result ((name text : List ℕ) → DefinesName line.now name text → ⊥)
        (λ d. DefinesName line.now d.name.now d.text.now) }
{
    let (name, behind) = leading_name(line, Language::Lex)?;
    let text = behind_blanks(behind)?;
    if text.is_empty() {
        return None;
    }
    Some(NamedText { name, text })
}

/// The rest of a line that should define a name, but doesn't, from the first wrong byte on: the whole line if it starts
/// with no name, else what follows the name and blanks.
pub(crate) fn misplaced_in(line: &[u8]) -> &[u8] {
    match leading_name(line, Language::Lex) {
        Some((_name, behind)) => behind_blanks(behind).unwrap_or(behind),
        None => line,
    }
}

/// Lines that define names, each another name.
#[derive(Drop)]
pub(crate) struct NameLines<'t> {
    /// The names.
    names: IndexSet<Vec<u8>>,
    /// The lines.
    lines: Vec<NameLine<'t>>,
}

impl<'t> Model for NameLines<'t> {
    ghost use Rattle.std.specs.Prelude.{◌≡◌, ℕ, List, map};
    ghost use Rattle.std.specs.Coded.{coded_list, coded_ℕ, coded×};
    ghost use Rattle.ly_lexread.specs.Definitions.{DefinedLine, defined_names};
    ghost use Rattle.ly_lexread.specs.Private.Names.{AreApart, parts_of};

    ghost Value = { List DefinedLine };

    ghost coded = { coded_list (coded× (coded_list coded_ℕ) (coded× (coded_list coded_ℕ) coded_ℕ)) };

    ghost view = { λ d. map parts_of d.lines.items };

    ghost invariant = { λ d. (map (λ k. k.items) d.names.keys ≡ defined_names (map parts_of d.lines.items))
        × AreApart (defined_names (map parts_of d.lines.items)) };
}

impl<'t> NameLines<'t> {
    /// Returns no lines.
    pub(crate) fn new(alloc: Global) -> Self
        ensures { result ≡ [] }
    {
        NameLines {
            names: IndexSet::new(alloc),
            lines: Vec::new(alloc),
        }
    }

    /// Whether a line defines this name.
    pub(crate) fn defines(&self, name: &[u8]) -> bool
        ensures { MatchBool result (Contains (defined_names self.now) name.now)
            (Contains (defined_names self.now) name.now → ⊥) }
    {
        self.names.contains(name)
    }

    /// Adds a line with a new name.
    pub(crate) fn with_line(mut self, alloc: Global, line: NameLine<'t>) -> Result<Self, AllocError>
        requires { Contains (defined_names self) line.defined.name.now → ⊥ }
        ensures { IfOk result (λ all. all ≡ self.entry ++ parts_of line.entry ∷ []) }
    {
        self.names
            .insert(Vec::from_slice(alloc, line.defined.name)?)?;
        self.lines.push(line)?;
        Ok(self)
    }

    /// The lines, in the order of the file.
    pub(crate) fn lines(&self) -> &[NameLine<'t>]
        ensures these { map parts_of result.now ≡ self.now }
        ensures apart { AreApart (defined_names self.now) }
    {
        &self.lines
    }
}
