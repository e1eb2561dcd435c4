ghost use Rattle.std.specs.Prelude.{◌≡◌, ◌++◌, ◌∷◌, ◌≤◌, [], length, take, IfOk, IfSome};
ghost use Rattle.ly_print.specs.Text.{before_leaf, named};

use crate::front::{BLOCK, Front};
use crate::text::{Terminal, push_name};
use std::alloc::{AllocError, Global};
use std::marker::Model;

/// A short text that is printed often, as the text before a leaf's token. Padding follows it, so that it is copied as
/// one block.
#[derive(Drop)]
pub struct Label {
    /// The text, followed by a block of padding.
    bytes: Vec<u8>,
    /// The length of the text in bytes.
    count: usize,
}

impl Model for Label {
    ghost use Rattle.std.specs.Prelude.{ℕ, List, ◌≤◌, ◌+◌, take, length};

    ghost Value = { List ℕ };

    ghost view = { λ l. take l.count l.bytes.items };

    ghost invariant = { λ l. l.count + 16 ≤ length l.bytes.items };
}

impl Label {
    /// Makes the label of a text. Fails if memory runs out.
    pub fn new(text: Vec<u8>) -> Result<Label, AllocError>
        ensures { IfOk result (λ l. l ≡ text.items) }
    {
        let mut bytes = text;
        let count = bytes.len();
        bytes.extend_from_slice(&[0; BLOCK])?;
        Ok(Label { bytes, count })
    }

    /// Makes the label that precedes the text of a leaf: the terminal's name and a double quote. Fails if memory runs
    /// out.
    pub fn before_leaf(alloc: Global, terminal: Terminal<'_>) -> Result<Label, AllocError>
        ensures { IfOk result (λ l. l ≡ before_leaf (named terminal.entry)) }
    {
        let mut text = Vec::new(alloc);
        push_name(&mut text, terminal)?;
        text.push(b'"')?;
        Label::new(text)
    }

    /// The length in bytes.
    pub fn len(&self) -> usize
        ensures { result ≡ length self.now }
    {
        self.count
    }

    /// The bytes of the text.
    pub fn bytes(&self) -> &[u8]
        ensures { result.now ≡ self.now }
    {
        &self.bytes[..self.count]
    }

    /// Returns a block of 16 bytes that begins with the text, if the text is no longer than that.
    pub(crate) fn block(&self) -> Option<&[u8]>
        ensures block { IfSome result (λ b. length b.now ≡ 16) }
        ensures front { IfSome result (λ b. take (length self.now) b.now ≡ self.now) }
        ensures short { IfSome result (λ b. length self.now ≤ 16) }
    {
        if self.count <= BLOCK {
            Some(&self.bytes[..BLOCK])
        } else {
            None
        }
    }

    /// The text as a prefix of its bytes and padding.
    pub(crate) fn front(&self) -> Front<'_>
        ensures { result ≡ self.now }
    {
        Front::new(&self.bytes, self.count)
    }
}
