ghost use Rattle.std.specs.Prelude.{◌≡◌, ◌<◌, ◌≤◌, ◌+◌, [], length, IfOk, slice_range};
ghost use Rattle.std.specs.List.{All, AllPairs};

use crate::part::Part;
use std::alloc::{AllocError, Global};

/// The position of a word in a file.
#[derive(Clone, Copy, Debug, PartialEq, Eq)]
pub struct WordSpan {
    /// The offset of its first byte, counted from 0.
    pub start: usize,
    /// Its length in bytes.
    pub length: usize,
}

impl WordSpan {
    /// The bytes of the word in its text, or an empty slice if the text is too short.
    pub fn word(self, text: &[u8]) -> &[u8]
        ensures there { self.start + self.length ≤ length text.now
            → result.now ≡ slice_range text.now self.start (self.start + self.length) }
        ensures past { length text.now < self.start + self.length → result.now ≡ [] }
    {
        text.get(self.start..self.start.saturating_add(self.length))
            .unwrap_or(b"")
    }
}

/// The position of each word of a yacc file. It stops at the second `%%`, at the end, or at the first bytes that are no
/// word. `read_yacc` doesn't use it.
pub fn word_spans(alloc: Global, text: &[u8]) -> Result<Vec<WordSpan>, AllocError>
    ensures within { IfOk result (λ spans. All (λ s. s.start + s.length ≤ length text.now) spans.items) }
    ensures rising { IfOk result (λ spans. AllPairs (λ s t. s.start + s.length ≤ t.start) spans.items) }
{
    let mut spans = Vec::new(alloc);
    let mut part = Part::Declarations;
    let mut rest = text;
    while !part.is_free() {
        let front = part.word(rest);
        if front.word.is_end() || front.word.is_other() {
            return Ok(spans);
        }
        spans.push(WordSpan {
            start: text.len() - front.from.len(),
            length: front.from.len() - front.behind.len(),
        })?;
        part = part.behind(front.word);
        rest = front.behind;
    }
    Ok(spans)
}
