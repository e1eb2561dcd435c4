ghost use Rattle.std.specs.Prelude.{◌≡◌, ◌≢◌, ◌∷◌, [], ℕ, List, MatchBool, MatchOption};
ghost use Rattle.ly_yaccread.specs.Private.Read.{left as words_left};
ghost use Rattle.ly_yaccread.specs.Private.Words.{word_of};
ghost use Rattle.ly_yaccread.specs.Symbols.{NameFirst, NoMark};
ghost use Rattle.ly_yaccread.specs.Words.{Word, mark as mark_word, directive as directive_word, number as number_word};
ghost use Rattle.ly_yaccread.specs.Words.{block as block_word, braces as braces_word, literal as literal_word};

use crate::words::{FileWord, Mark, NextWord};

/// The words of a file that are still to be read.
#[derive(Clone, Copy)]
pub(crate) struct Cursor<'t> {
    /// The bytes of the file.
    pub(crate) text: &'t [u8],
    /// The words still to be read.
    pub(crate) left: &'t [FileWord<'t>],
}

impl<'t> Cursor<'t> {
    /// The first word, and the words after it.
    pub(crate) fn next(self) -> Option<(NextWord<'t>, Cursor<'t>)>
        ensures { MatchOption result (words_left self.entry ≡ [])
            (λ found. words_left self.entry ≡ word_of found.0 ∷ words_left found.1) }
    {
        let (first, left) = self.left.split_first()?;
        Some((first.word, Cursor { left, ..self }))
    }

    /// The words after this mark, if it comes first.
    pub(crate) fn after(self, mark: Mark) -> Option<Cursor<'t>>
        ensures { MatchOption result (NoMark mark (words_left self.entry))
            (λ rest. words_left self.entry ≡ mark_word mark ∷ words_left rest) }
    {
        let (word, rest) = self.next()?;
        match word {
            NextWord::Mark(found) if found == mark => Some(rest),
            _ => None,
        }
    }

    /// The name that comes first, and the words after it. `error` doesn't count as a name.
    pub(crate) fn name(self) -> Option<(&'t [u8], Cursor<'t>)>
        ensures { MatchOption result ((n : List ℕ) (rest : List Word) → NameFirst (words_left self.entry) n rest → ⊥)
            (λ found. NameFirst (words_left self.entry) found.0.now (words_left found.1)) }
    {
        let (word, rest) = self.next()?;
        match word {
            NextWord::Name(name) => {
                if is(name, b"error") {
                    None
                } else {
                    Some((name, rest))
                }
            }
            _ => None,
        }
    }

    /// The digits of the number that comes first, and the words after it.
    pub(crate) fn number(self) -> Option<(&'t [u8], Cursor<'t>)>
        ensures { MatchOption result ((ds : List ℕ) (rest : List Word) → words_left self.entry ≢ number_word ds ∷ rest)
            (λ found. words_left self.entry ≡ number_word found.0.now ∷ words_left found.1) }
    {
        let (word, rest) = self.next()?;
        match word {
            NextWord::Number(digits) => Some((digits, rest)),
            _ => None,
        }
    }

    /// The byte of the literal that comes first, and the words after it.
    pub(crate) fn literal(self) -> Option<(u8, Cursor<'t>)>
        ensures { MatchOption result ((b : ℕ) (rest : List Word) → words_left self.entry ≢ literal_word b ∷ rest)
            (λ found. words_left self.entry ≡ literal_word found.0 ∷ words_left found.1) }
    {
        let (word, rest) = self.next()?;
        match word {
            NextWord::Literal(byte) => Some((byte, rest)),
            _ => None,
        }
    }

    /// The name of the directive that comes first, and the words after it.
    pub(crate) fn directive(self) -> Option<(&'t [u8], Cursor<'t>)>
        ensures { MatchOption result ((n : List ℕ) (rest : List Word)
            → words_left self.entry ≢ directive_word n ∷ rest)
            (λ found. words_left self.entry ≡ directive_word found.0.now ∷ words_left found.1) }
    {
        let (word, rest) = self.next()?;
        match word {
            NextWord::Directive(name) => Some((name, rest)),
            _ => None,
        }
    }

    /// The words after the block that comes first.
    pub(crate) fn block(self) -> Option<Cursor<'t>>
        ensures { MatchOption result ((rest : List Word) → words_left self.entry ≢ block_word ∷ rest)
            (λ rest. words_left self.entry ≡ block_word ∷ words_left rest) }
    {
        let (word, rest) = self.next()?;
        match word {
            NextWord::Block => Some(rest),
            _ => None,
        }
    }

    /// The words after the braces, with their content, that come first.
    pub(crate) fn braces(self) -> Option<Cursor<'t>>
        ensures { MatchOption result ((rest : List Word) → words_left self.entry ≢ braces_word ∷ rest)
            (λ rest. words_left self.entry ≡ braces_word ∷ words_left rest) }
    {
        let (word, rest) = self.next()?;
        match word {
            NextWord::Braces => Some(rest),
            _ => None,
        }
    }
}

/// Whether the two names are equal.
pub(crate) fn is(name: &[u8], other: &[u8]) -> bool
    ensures { MatchBool result (name.now ≡ other.now) (name.now ≢ other.now) }
{
    name == other
}
