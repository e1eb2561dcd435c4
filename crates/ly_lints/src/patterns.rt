//! Constructs in patterns that have another meaning than users of flex may expect. The reader of `ly_ere` decides: how
//! far it reads a prefix shows which construct is at an offset, and reading the pattern as it may be meant shows
//! whether that is another pattern. Expressions don't record whether `(ab){2}` had parentheses, and a second reader
//! could disagree with the first.
use ly_base::{Language, Limits, OutOfMemory, escape, leading_name};
use ly_ere::{EreFault, EreFaultKind, Names, Pattern, Re, read_pattern};
use std::alloc::Global;

/// The greatest number of bytes of a pattern that are checked.
const LONGEST: usize = 1_000;

/// The greatest number of bytes of patterns that are read to check one.
const MOST: usize = 200_000;

/// Characters that aren't visible, as UTF-8: zero-width spaces and joiners, and the byte-order mark.
const INVISIBLE: [&[u8]; 5] = [
    b"\xe2\x80\x8b",
    b"\xe2\x80\x8c",
    b"\xe2\x80\x8d",
    b"\xe2\x81\xa0",
    b"\xef\xbb\xbf",
];

/// The constructs.
#[derive(Clone, Copy, Debug, PartialEq, Eq)]
pub enum PatternLint {
    /// A letter after a backslash that denotes a class of bytes in other tools.
    Letter(u8),
    /// `\b`, the backspace.
    Backspace,
    /// `\x{`. The `x` is a letter after a backslash.
    Braces,
    /// `\u`, a letter after a backslash.
    Unicode,
    /// `\<` or `\>`, which are the start and the end of a word in other tools.
    WordEdge(u8),
    /// `?` after `*`, `+` or `?`.
    Reluctant,
    /// A character of several bytes in brackets.
    ManyBytes,
    /// An interval after more than one piece (an atom with its operators).
    Interval,
    /// `$`, which needs a newline.
    LineEnd,
    /// `<<EOF>>`, which matches these bytes.
    EndOfFile,
    /// A word in single quotes, which are bytes like others.
    SingleQuotes,
    /// The name of a definition before `+` or `*`, without braces.
    BareName,
    /// `[:digit:]` and the like, without outer brackets.
    BareClass,
    /// A range in brackets from an upper-case letter to a lower-case letter.
    MixedRange,
    /// A character that isn't visible.
    Invisible,
}

/// A warning about a pattern.
#[derive(Clone, Copy, Debug)]
pub(crate) struct Found {
    /// The construct.
    pub(crate) pattern_lint: PatternLint,
    /// The offset of the construct in the pattern.
    pub(crate) offset: usize,
}

/// What is at an offset of a pattern.
#[derive(Clone, Copy, PartialEq, Eq)]
enum Stand {
    /// The start of a piece, an operator, or the end.
    Piece,
    /// A byte inside a bracket expression.
    Brackets,
    /// Another byte of an atom.
    Within,
}

/// A pattern that is being checked.
#[derive(Drop)]
struct Linting<'a> {
    /// The definitions of the file.
    names: &'a Names,
    /// The limits for patterns.
    limits: Limits,
    /// The names that the file defines.
    defined: &'a [&'a [u8]],
    /// The text of the pattern.
    text: &'a [u8],
    /// The warnings found so far.
    found: Vec<Found>,
    /// The number of bytes that may still be read.
    bytes: usize,
}

/// Finds the warnings about the text of a pattern, each kind once. `defined` are the names that the file defines.
pub(crate) fn pattern_lints(
    alloc: Global,
    names: &Names,
    defined: &[&[u8]],
    text: &[u8],
) -> Result<Vec<Found>, OutOfMemory> {
    let mut linting = Linting {
        names,
        defined,
        limits: Limits::version_2(),
        text: text.get(..LONGEST).unwrap_or(text),
        found: Vec::new(alloc),
        bytes: MOST,
    };
    linting.look(alloc)?;
    let Linting { found, .. } = linting;
    Ok(found)
}

impl Linting<'_> {
    /// Checks the whole pattern.
    fn look(&mut self, alloc: Global) -> Result<(), OutOfMemory> {
        if self.text.starts_with(b"<<EOF>>") {
            self.note(PatternLint::EndOfFile, 0)?;
        }
        for offset in 0..self.text.len() {
            self.look_at(alloc, offset)?;
        }
        Ok(())
    }

    /// Checks the construct at an offset.
    fn look_at(&mut self, alloc: Global, offset: usize) -> Result<(), OutOfMemory> {
        let rest = self.text.get(offset..).unwrap_or_default();
        if let Some(pattern_lint) = literal_lint(rest) {
            return self.note_if(alloc, pattern_lint, offset, Stand::Piece);
        }
        if INVISIBLE.iter().any(|bytes| rest.starts_with(*bytes)) {
            return self.note_once(PatternLint::Invisible, offset);
        }
        if self.begins_bare_name(offset) {
            return self.note_if(alloc, PatternLint::BareName, offset, Stand::Piece);
        }
        match (self.byte(offset), self.byte(offset.saturating_add(1))) {
            (Some(b'A'..=b'Z'), Some(b'-')) if matches!(rest.get(2), Some(b'a'..=b'z')) => {
                self.note_if(alloc, PatternLint::MixedRange, offset, Stand::Brackets)
            }
            (Some(b'\\'), Some(letter)) => self.look_at_escape(alloc, offset, letter),
            (Some(b'*' | b'+' | b'?'), Some(b'?')) => {
                self.note_if(alloc, PatternLint::Reluctant, offset, Stand::Piece)
            }
            (Some(0xC2..=0xF4), Some(0x80..=0xBF)) => {
                self.note_if(alloc, PatternLint::ManyBytes, offset, Stand::Brackets)
            }
            (Some(b'{'), Some(b'0'..=b'9')) => self.look_at_interval(alloc, offset),
            (Some(b'$'), None) => self.note_if(alloc, PatternLint::LineEnd, offset, Stand::Piece),
            _ => Ok(()),
        }
    }

    /// Whether the name of a definition and then `+` or `*` begin at an offset, and no longer name.
    fn begins_bare_name(&self, offset: usize) -> bool {
        let rest = self.text.get(offset..).unwrap_or_default();
        let Some((name, [b'+' | b'*', ..])) = leading_name(rest, Language::Lex) else {
            return false;
        };
        let before = offset.checked_sub(1).and_then(|before| self.byte(before));
        let is_whole = !before.is_some_and(|byte| Language::Lex.continues_name(byte));
        is_whole && self.defined.contains(&name)
    }

    /// Checks a backslash before a letter.
    fn look_at_escape(
        &mut self,
        alloc: Global,
        offset: usize,
        letter: u8,
    ) -> Result<(), OutOfMemory> {
        let pattern_lint = match letter {
            b'd' | b'w' | b's' | b'D' | b'W' | b'S' => PatternLint::Letter(letter),
            b'b' => PatternLint::Backspace,
            b'x' if self.byte(offset.saturating_add(2)) == Some(b'{') => PatternLint::Braces,
            b'u' => PatternLint::Unicode,
            // at the start of a rule `<` needs the backslash
            b'<' if offset > 0 => PatternLint::WordEdge(letter),
            b'>' => PatternLint::WordEdge(letter),
            _ => return Ok(()),
        };
        if self.has(pattern_lint) {
            return Ok(());
        }
        match self.stand(alloc, offset)? {
            Stand::Piece => self.note(pattern_lint, offset),
            Stand::Brackets if self.is_letter_in_brackets(alloc, offset, letter)? => {
                match pattern_lint {
                    PatternLint::Letter(_) => self.note(pattern_lint, offset),
                    _ => Ok(()),
                }
            }
            _ => Ok(()),
        }
    }

    /// Whether a backslash before a letter in brackets only escapes it: the pattern is the same without it.
    fn is_letter_in_brackets(
        &mut self,
        alloc: Global,
        offset: usize,
        letter: u8,
    ) -> Result<bool, OutOfMemory> {
        let (before, behind) = self.text.split_at(offset.min(self.text.len()));
        let mut meant = Vec::from_slice(alloc, before)?;
        meant.push(letter)?;
        meant.extend_from_slice(behind.get(1..).unwrap_or_default())?;
        self.is_same(alloc, &meant)
    }

    /// Checks a possible interval. It gets a warning if the pattern changes when parentheses are put around it and the
    /// last piece before it.
    fn look_at_interval(&mut self, alloc: Global, offset: usize) -> Result<(), OutOfMemory> {
        if self.has(PatternLint::Interval) || self.stand(alloc, offset)? != Stand::Piece {
            return Ok(());
        }
        let behind = self.text.get(offset..).unwrap_or_default();
        let Some(length) = behind.iter().position(|byte| *byte == b'}') else {
            return Ok(());
        };
        let end = offset.saturating_add(length).saturating_add(1);
        for start in (0..offset).rev() {
            if !self.is_inside(start)
                && self.stand(alloc, start)? == Stand::Piece
                && self.is_pattern(alloc, start, offset)?
            {
                if !self.is_same(alloc, &self.parenthesised(alloc, start, end)?)? {
                    self.note(PatternLint::Interval, offset)?;
                }
                break;
            }
        }
        Ok(())
    }

    /// Whether an offset is inside an escape or inside a character of several bytes.
    fn is_inside(&self, offset: usize) -> bool {
        let mut next = 0;
        for at in 0..offset {
            if at >= next {
                next = at.saturating_add(self.length_at(at));
            }
        }
        next > offset || matches!(self.byte(offset), Some(0x80..=0xBF))
    }

    /// The number of bytes of the escape at an offset, or 1 if there is none.
    fn length_at(&self, offset: usize) -> usize {
        let text = self.text.get(offset..).unwrap_or_default();
        match escape(text) {
            Ok((_, length)) if text.first() == Some(&b'\\') => length,
            _ => 1,
        }
    }

    /// The pattern with parentheses around a part of it.
    fn parenthesised(
        &self,
        alloc: Global,
        start: usize,
        end: usize,
    ) -> Result<Vec<u8>, OutOfMemory> {
        let mut text = Vec::from_slice(alloc, self.text.get(..start).unwrap_or_default())?;
        text.push(b'(')?;
        text.extend_from_slice(self.text.get(start..end).unwrap_or_default())?;
        text.push(b')')?;
        text.extend_from_slice(self.text.get(end..).unwrap_or_default())?;
        Ok(text)
    }

    /// What is at an offset, determined by how far the prefix up to there can be read.
    fn stand(&mut self, alloc: Global, offset: usize) -> Result<Stand, OutOfMemory> {
        let Some(before) = self.text.get(..offset) else {
            return Ok(Stand::Within);
        };
        match self.read(alloc, before) {
            Ok(_) => Ok(Stand::Piece),
            Err(EreFault::OutOfMemory) => Err(OutOfMemory),
            Err(EreFault::Refused { kind, .. }) => Ok(match kind {
                EreFaultKind::Empty
                | EreFaultKind::UnclosedGroup
                | EreFaultKind::TrailingHeadEmpty
                | EreFaultKind::TrailingBothVary
                | EreFaultKind::TooHeavy => Stand::Piece,
                EreFaultKind::UnclosedBracket => Stand::Brackets,
                _ => Stand::Within,
            }),
        }
    }

    /// Whether a part of the pattern is a pattern by itself.
    fn is_pattern(&mut self, alloc: Global, start: usize, end: usize) -> Result<bool, OutOfMemory> {
        let Some(part) = self.text.get(start..end) else {
            return Ok(false);
        };
        Ok(self.pattern(alloc, part)?.is_some())
    }

    /// The pattern with this text, if it is one.
    fn pattern(&mut self, alloc: Global, text: &[u8]) -> Result<Option<Pattern>, OutOfMemory> {
        match self.read(alloc, text) {
            Ok(pattern) => Ok(Some(pattern)),
            Err(EreFault::OutOfMemory) => Err(OutOfMemory),
            Err(EreFault::Refused { .. }) => Ok(None),
        }
    }

    /// Whether another text is the same pattern; true if one of them is no pattern.
    fn is_same(&mut self, alloc: Global, other: &[u8]) -> Result<bool, OutOfMemory> {
        let (Some(one), Some(other)) = (
            self.pattern(alloc, self.text)?,
            self.pattern(alloc, other)?,
        ) else {
            return Ok(true);
        };
        let tails = match (&one.tail, &other.tail) {
            (Some(one), Some(other)) => are_same(one, other),
            (None, None) => true,
            _ => false,
        };
        Ok(tails && are_same(&one.head, &other.head))
    }

    /// Reads a text as a pattern. If too many bytes were read before, returns the error for a too heavy pattern.
    fn read(&mut self, alloc: Global, text: &[u8]) -> Result<Pattern, EreFault> {
        let Some(left) = self.bytes.checked_sub(text.len()) else {
            return Err(EreFault::Refused {
                kind: EreFaultKind::UnclosedQuote,
                offset: 0,
            });
        };
        self.bytes = left;
        read_pattern(alloc, text, self.names, &self.limits)
    }

    /// The byte at an offset.
    fn byte(&self, offset: usize) -> Option<u8> {
        self.text.get(offset).copied()
    }

    /// Whether there is a warning about this construct.
    fn has(&self, pattern_lint: PatternLint) -> bool {
        self.found
            .iter()
            .any(|found| found.pattern_lint == pattern_lint)
    }

    /// Adds a warning at an offset, if it has this kind of construct.
    fn note_if(
        &mut self,
        alloc: Global,
        pattern_lint: PatternLint,
        offset: usize,
        wanted: Stand,
    ) -> Result<(), OutOfMemory> {
        if self.has(pattern_lint) || self.stand(alloc, offset)? != wanted {
            return Ok(());
        }
        self.note(pattern_lint, offset)
    }

    /// Adds a warning at an offset, unless there is one about this construct.
    fn note_once(&mut self, pattern_lint: PatternLint, offset: usize) -> Result<(), OutOfMemory> {
        if self.has(pattern_lint) {
            return Ok(());
        }
        self.note(pattern_lint, offset)
    }

    /// Adds a warning at an offset.
    fn note(&mut self, pattern_lint: PatternLint, offset: usize) -> Result<(), OutOfMemory> {
        Ok(
            self.found.push(Found {
                pattern_lint,
                offset,
            })?,
        )
    }
}

/// Whether two expressions are equal.
fn are_same(one: &Re, other: &Re) -> bool {
    let (nodes, root) = one.nodes();
    let (others, same) = other.nodes();
    root == same && nodes == others
}

/// The warning about a part of a pattern that begins with a class without outer brackets, or with a word in single
/// quotes, if it isn't inside something else.
fn literal_lint(rest: &[u8]) -> Option<PatternLint> {
    if let Some(behind) = rest.strip_prefix(b"[:") {
        let letters = behind
            .iter()
            .take_while(|byte| byte.is_ascii_lowercase())
            .count();
        let closed = behind.get(letters..).unwrap_or_default().starts_with(b":]");
        return (letters > 0 && closed).then_some(PatternLint::BareClass);
    }
    let behind = rest.strip_prefix(b"'")?;
    let length = behind.iter().take_while(|byte| is_plain(**byte)).count();
    let closed = behind.get(length) == Some(&b'\'');
    (length > 1 && closed).then_some(PatternLint::SingleQuotes)
}

/// Whether a byte is a letter, a digit, or punctuation that is no operator of patterns.
fn is_plain(byte: u8) -> bool {
    byte.is_ascii_alphanumeric() || b"_=<>!&-:;,%@#~`".contains(&byte)
}
