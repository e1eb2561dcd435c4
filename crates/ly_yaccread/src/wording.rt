ghost use Rattle.std.specs.Prelude.{IfOk};
ghost use Rattle.ly_yaccread.specs.Private.Words.{offsets_of, words_of};
ghost use Rattle.ly_yaccread.specs.Words.{AreWordsOf};

use crate::part::Part;
use crate::words::FileWord;
use std::alloc::{AllocError, Global};

/// Splits a file into its words. It stops at the second `%%`, at the end, or at the first bytes that are no word. In
/// the last case the last word is `Other`.
pub(crate) fn words(alloc: Global, text: &[u8]) -> Result<Vec<FileWord<'_>>, AllocError>
    ensures { IfOk result (λ words. AreWordsOf text.now (words_of words.items) (offsets_of words.items)) }
{
    let mut words = Vec::new(alloc);
    let mut part = Part::Declarations;
    let mut rest = text;
    while !part.is_free() {
        let front = part.word(rest);
        if front.word.is_end() {
            return Ok(words);
        }
        words.push(FileWord {
            word: front.word,
            offset: text.len() - front.from.len(),
        })?;
        if front.word.is_other() {
            return Ok(words);
        }
        part = part.behind(front.word);
        rest = front.behind;
    }
    Ok(words)
}
