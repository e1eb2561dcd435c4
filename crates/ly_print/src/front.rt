ghost use Rattle.std.specs.Prelude.{◌≡◌, ◌≤◌, length, take, IfSome};

use std::marker::Model;

/// The number of bytes that are copied at once, as many as one vector register holds.
pub(crate) const BLOCK: usize = 16;

/// A prefix of some bytes. The bytes after it can be read too, so that a short prefix is copied as one whole block,
/// without a branch on its length.
#[derive(Drop)]
pub struct Front<'a> {
    /// The bytes.
    pub(crate) bytes: &'a [u8],
    /// The length of the prefix.
    pub(crate) count: usize,
}

impl<'a> Model for Front<'a> {
    ghost use Rattle.std.specs.Prelude.{ℕ, List, ◌≤◌, take, length};

    ghost Value = { List ℕ };

    ghost view = { λ f. take f.count f.bytes.now };

    ghost invariant = { λ f. f.count ≤ length f.bytes.now };
}

impl<'a> Front<'a> {
    /// Returns the first `count` of these bytes.
    pub fn new(bytes: &'a [u8], count: usize) -> Self
        requires { count ≤ length bytes.now }
        ensures { result ≡ take count bytes.now }
    {
        Front { bytes, count }
    }

    /// The length of the prefix in bytes.
    pub fn len(&self) -> usize
        ensures { result ≡ length self.now }
    {
        self.count
    }

    /// The bytes of the prefix.
    pub fn bytes(&self) -> &'a [u8]
        ensures { result.now ≡ self.now }
    {
        &self.bytes[..self.count]
    }

    /// Returns the first 16 bytes, if the prefix is no longer than that and there are so many bytes.
    pub fn block(&self) -> Option<&'a [u8]>
        ensures block { IfSome result (λ b. length b.now ≡ 16) }
        ensures front { IfSome result (λ b. take (length self.now) b.now ≡ self.now) }
        ensures short { IfSome result (λ b. length self.now ≤ 16) }
    {
        if self.count <= BLOCK && BLOCK <= self.bytes.len() {
            Some(&self.bytes[..BLOCK])
        } else {
            None
        }
    }
}
