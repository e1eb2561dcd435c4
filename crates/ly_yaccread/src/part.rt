ghost use Rattle.std.specs.Prelude.{◌≡◌, ◌≢◌, MatchBool};
ghost use Rattle.ly_yaccread.specs.Private.Words.{IsPartWord, word_of};
ghost use Rattle.ly_yaccread.specs.Words.{GapPassed, part_behind};
ghost use Rattle.ly_yaccread.specs.declared.part.Part.TheVariants.{Declarations, Programs};

use crate::words::{Front, Mark, NextWord, next_word};
use ly_base::{after_block, after_braces};

/// A part of a yacc file. Each part but the last ends with a `%%`.
#[derive(Clone, Copy)]
pub(crate) enum Part {
    /// The declarations of tokens, precedences and the start symbol.
    Declarations,
    /// The rules of the grammar.
    Rules,
    /// What follows the rules. It is ignored.
    Programs,
}

impl Part {
    /// Whether blocks and text in braces are words in this part.
    fn has_blocks(self) -> bool
        ensures { MatchBool result (self ≡ Declarations) (self ≢ Declarations) }
    {
        matches!(self, Part::Declarations)
    }

    /// Whether any bytes are allowed in this part.
    pub(crate) fn is_free(self) -> bool
        ensures { MatchBool result (self ≡ Programs) (self ≢ Programs) }
    {
        matches!(self, Part::Programs)
    }

    /// The part of the file after this word.
    pub(crate) fn behind(self, word: NextWord<'_>) -> Part
        ensures { result ≡ part_behind self (word_of word.entry) }
    {
        match (self, word) {
            (Part::Declarations, NextWord::Mark(Mark::Section)) => Part::Rules,
            (Part::Rules, NextWord::Mark(Mark::Section)) => Part::Programs,
            _ => self,
        }
    }

    /// The first word of a text in this part, after whitespace and comments.
    pub(crate) fn word(self, text: &[u8]) -> Front<'_>
        ensures word { IsPartWord self text.now result.word result.behind.now }
        ensures from { GapPassed text.now result.from.now }
    {
        let front = next_word(text);
        let NextWord::Mark(mark) = front.word else {
            return front;
        };
        if !self.has_blocks() {
            return front;
        }
        match mark {
            Mark::Block => match after_block(front.behind) {
                Some(behind) => Front {
                    word: NextWord::Block,
                    behind,
                    ..front
                },
                None => Front {
                    word: NextWord::Other,
                    ..front
                },
            },
            Mark::OpenBrace => match after_braces(front.behind) {
                Some(behind) => Front {
                    word: NextWord::Braces,
                    behind,
                    ..front
                },
                None => Front {
                    word: NextWord::Other,
                    ..front
                },
            },
            _ => front,
        }
    }
}
