ghost use Rattle.std.specs.Prelude.{◌≡◌, ◌<◌, ◌↔◌, ℕ, length, slice_index_or, All, Contains, OnOk};
ghost use Rattle.ly_position.specs.Nfa.{IsRoomFor, Stepped};
ghost use Rattle.ly_subset.specs.Private.Members.{listed};

use crate::chains::Span;
use crate::packed::numbers;
use ly_position::{PosNfa, PositionSet};
use std::alloc::{AllocError, Global};

/// The positions of a set in ascending order. A run isn't expanded, since it may be as long as a pattern.
#[derive(Drop)]
pub(crate) enum Members {
    /// All positions of a run.
    Span(Span),
    /// The positions of a list.
    List(Vec<u32>),
}

impl Members {
    /// The number of positions.
    pub(crate) fn len(&self) -> usize
        ensures { result ≡ length (listed self.now) }
    {
        match self {
            Members::Span(span) => span.len(),
            Members::List(numbers) => numbers.len(),
        }
    }

    /// The position at this index.
    pub(crate) fn at(&self, place: usize) -> u32
        requires { place < length (listed self.now) }
        ensures { result ≡ slice_index_or (listed self.now) place 0 }
    {
        match self {
            Members::Span(span) => span.at(place),
            Members::List(numbers) => numbers[place],
        }
    }

    /// Sets `into` to the positions that may come after these once the byte is read.
    pub(crate) fn step(
        &self,
        alloc: Global,
        nfa: &PosNfa,
        byte: u8,
        into: &mut PositionSet,
    ) -> Result<(), AllocError>
        requires from { All (λ p. p < length nfa.now.positions) (listed self.now) }
        requires room { IsRoomFor nfa.now into.old }
        ensures members { OnOk result ((q : ℕ) → Contains into.new.positions.members q
            ↔ Stepped nfa.now (listed self.now) byte q) }
        ensures room { IsRoomFor nfa.now into.new }
    {
        match self {
            Members::Span(span) => nfa.step(&numbers(alloc, *span)?, byte, into),
            Members::List(numbers) => nfa.step(numbers, byte, into),
        }
        Ok(())
    }
}
