ghost use Rattle.std.specs.Prelude.{◌≡◌, ◌<◌, ◌≤◌, ◌+◌, [], ◌++◌, drop, length, take, All, IfSome, None, OnErr, OnOk};

use crate::front::{BLOCK, Front};
use crate::laws::are_bytes;
use crate::room::{put_bytes, put_front_of};
use std::alloc::{AllocError, Global};
use std::marker::Model;

/// The number of bytes that are allocated at a time.
const ROOM: usize = 4_096;

/// The number of offsets that fit into 32 bits.
const MOST_PLACES: usize = 1 << 32;

/// Texts one after another, with padding after them, so that a short one is copied as one block.
#[derive(Drop)]
pub struct Texts {
    /// The texts and the padding after them.
    bytes: Vec<u8>,
    /// The number of bytes that are text.
    used: usize,
    /// Before this offset a block fits, and the offset itself fits into 32 bits.
    blocks: usize,
}

impl Model for Texts {
    ghost use Rattle.std.specs.Prelude.{ℕ, List, ◌<◌, ◌≤◌, ◌+◌, ◌^◌, take, length};

    ghost Value = { List ℕ };

    ghost view = { λ t. take t.used t.bytes.items };

    ghost invariant = { λ t. (t.used ≤ length t.bytes.items)
        × ((at : ℕ) → at < t.blocks → (at + 16 ≤ length t.bytes.items) × (at < 2 ^ 32)) };
}

impl Texts {
    /// Returns no texts.
    pub fn new(alloc: Global) -> Self
        ensures { result ≡ [] }
    {
        Texts {
            bytes: Vec::new(alloc),
            used: 0,
            blocks: 0,
        }
    }

    /// The number of bytes of all texts.
    pub fn len(&self) -> usize
        ensures { result ≡ length self.now }
    {
        self.used
    }

    /// Appends a text. Fails if memory runs out; then the texts are unchanged.
    pub fn push(&mut self, text: &Front<'_>) -> Result<(), AllocError>
        ensures ok { OnOk result (self.new ≡ self.old ++ text.now) }
        ensures err { OnErr result (self.new ≡ self.old) }
    {
        self.push_long(text.bytes, text.count)
    }

    /// Appends a text as one block, if it has at most 16 bytes and fits. Returns the offset where it begins.
    #[inline(always)] // a call would cost a tenth more instructions for each token
    pub fn push_block(&mut self, text: &Front<'_>) -> Option<u32>
        ensures begins { IfSome result (λ start. start ≡ length self.old) }
        ensures short { IfSome result (λ _. length text.now ≤ 16) }
        ensures texts { IfSome result (λ _. self.new ≡ self.old ++ text.now) }
        ensures none { result ≡ None → self.new ≡ self.old }
    {
        let start = self.used;
        if self.blocks <= start {
            return None;
        }
        let block = text.block()?;
        self.used = put_front_of(&mut self.bytes, start, block, text.len());
        Some(start as u32)
    }

    /// Returns `count` bytes from the offset `start` on.
    pub fn front(&self, start: usize, count: usize) -> Front<'_>
        requires { start + count ≤ length self.now }
        ensures { result ≡ take count (drop start self.now) }
    {
        Front::new(&self.bytes[start..], count)
    }

    /// The contents are bytes.
    pub fn are_bytes(&self)
        ensures { All (λ byte. byte < 256) self.now }
    {
        are_bytes(&self.bytes[..self.used]);
    }

    /// Appends the first `count` bytes, however many they are.
    #[inline(never)] // leaves the registers to a short text
    fn push_long(&mut self, bytes: &[u8], count: usize) -> Result<(), AllocError>
        requires { count ≤ length bytes.now }
        ensures ok { OnOk result (self.new ≡ self.old ++ take count bytes.now) }
        ensures err { OnErr result (self.new ≡ self.old) }
    {
        let text = &bytes[..count];
        if count <= self.bytes.len() - self.used {
            self.used = put_bytes(&mut self.bytes, self.used, text);
            return Ok(());
        }
        self.blocks = 0;
        self.bytes.truncate(self.used);
        self.bytes.extend_from_slice(text)?;
        let end = self.bytes.len();
        self.bytes.extend_from_slice(&[0; ROOM])?;
        self.used = end;
        self.blocks = (end + (ROOM - BLOCK + 1)).min(MOST_PLACES);
        Ok(())
    }
}
