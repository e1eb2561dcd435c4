ghost use Rattle.std.specs.Prelude.{◌≡◌, ◌<◌, ◌+◌, ◌^◌};
ghost use Rattle.lytab_c.specs.Parsing.{kind_number, kind_symbol, part_at};

use ly_places::{Part as TreePart, PartKind};

/// A part of a tree. A tree is a list of its parts in preorder: each part comes before its own parts.
#[repr(C)]
#[derive(Clone, Copy)]
pub struct Part {
    /// The kind: 0 for nothing, 1 for a token, 2 for a node.
    pub kind: u32,
    /// The terminal of a token, the rule of a node, 0 for nothing.
    pub number: u32,
    /// The offset of its first byte in the text.
    pub start: u64,
    /// The offset of the byte after its last one.
    pub end: u64,
    /// The index after its own last part.
    pub next: u64,
}

impl Part {
    /// The C form of a part with an index in its list.
    pub(crate) fn at(index: usize, part: &TreePart) -> Part
        requires { index + part.now.parts < 2 ^ 64 }
        ensures { result ≡ part_at index part.now }
    {
        Part {
            kind: kind_number(part.kind),
            number: kind_symbol(part.kind),
            start: part.extent.start as u64,
            end: part.extent.end as u64,
            next: (index + part.parts) as u64,
        }
    }
}

/// The number of a part's kind.
fn kind_number(kind: PartKind) -> u32
    ensures { result ≡ kind_number kind }
{
    match kind {
        PartKind::Nothing => 0,
        PartKind::Token(_) => 1,
        PartKind::Node(_) => 2,
    }
}

/// The terminal of a token, the rule of a node.
fn kind_symbol(kind: PartKind) -> u32
    ensures { result ≡ kind_symbol kind }
{
    match kind {
        PartKind::Nothing => 0,
        PartKind::Token(terminal) => terminal.0,
        PartKind::Node(rule) => rule.0,
    }
}
