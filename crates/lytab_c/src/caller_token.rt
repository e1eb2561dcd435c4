ghost use Rattle.std.specs.Prelude.{◌≡◌};
ghost use Rattle.lytab_c.specs.Tokens.{placed_from};

use ly_base::Sym;
use ly_places::{PlacedToken, Span};

/// A token that the caller found in a text.
#[repr(C)]
#[derive(Clone, Copy)]
pub struct CallerToken {
    /// The number of its terminal.
    pub terminal: u32,
    /// Ignored.
    pub unused: u32,
    /// The offset of its first byte in the text.
    pub start: u64,
    /// The offset of the byte after its last one.
    pub end: u64,
}

impl CallerToken {
    /// The same token as a parser takes it.
    pub(crate) fn placed(&self) -> PlacedToken
        ensures { result ≡ placed_from self.now }
    {
        PlacedToken {
            terminal: Sym(self.terminal),
            extent: Span {
                start: self.start as usize,
                end: self.end as usize,
            },
        }
    }
}
