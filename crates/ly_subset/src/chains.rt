// If each part of a pattern is optional, a set has most positions of the pattern, and so has the set that a byte leads
// to. Joining the follow lists anew for each set and class takes quadratic time for each class. But such positions form
// a chain: after each, exactly those before it may come, down to the start of the chain. So the last position of a set
// that reads a byte determines the result of the step, a run of numbers, which is stored as such.
ghost use Rattle.std.specs.Prelude.{◌≡◌, ◌<◌, ◌-◌, ◌≤◌, ◌^◌, ℕ, length, false, All, AllPairs, Contains, IfOk, IfSome};
ghost use Rattle.std.specs.Prelude.{slice_index_or};
ghost use Rattle.std.specs.Prelude.{MatchBool, MatchOption};
ghost use Rattle.ly_position.specs.Nfa.{ReadsByte};
ghost use Rattle.ly_subset.specs.Private.Chains.{AreChains, IsChain, IsLastReader, IsSpanAfter, ReadsNone};
ghost use Rattle.ly_subset.specs.Private.Members.{listed};
ghost use Rattle.ly_subset.specs.Private.Packed.{run_of};

use crate::members::Members;
use ly_position::PosNfa;
use std::alloc::{AllocError, Global};

/// A run of consecutive positions.
#[derive(Clone, Copy)]
pub(crate) struct Span {
    /// The first position.
    pub(crate) first: u32,
    /// The last position.
    pub(crate) last: u32,
}

impl Span {
    /// The number of positions.
    pub(crate) fn len(self) -> usize
        ensures count { result ≡ length (run_of self.first self.last) }
        ensures fits { self.last < 2 ^ 32 }
    {
        run_length(self.first, self.last)
    }

    /// The position at this index.
    pub(crate) fn at(self, place: usize) -> u32
        requires { place < length (run_of self.first self.last) }
        ensures { result ≡ slice_index_or (run_of self.first self.last) place 0 }
    {
        run_number(self.first, self.last, place)
    }

    /// Whether a position is in the run.
    pub(crate) fn contains(self, number: u32) -> bool
        ensures { MatchBool result (Contains (run_of self.first self.last) number)
            (Contains (run_of self.first self.last) number → ⊥) }
    {
        self.first <= number && number <= self.last
    }
}

/// The number of integers from the first to the last.
fn run_length(first: u32, last: u32) -> usize
    ensures count { result ≡ length (run_of first last) }
    ensures fits { last < 2 ^ 32 }
{
    (last as usize + 1).saturating_sub(first as usize)
}

/// The integer at this index of those from the first to the last.
fn run_number(first: u32, last: u32, place: usize) -> u32
    requires { place < length (run_of first last) }
    ensures { result ≡ slice_index_or (run_of first last) place 0 }
{
    first + place as u32
}

/// For each position the first one of its chain, or 0 if it is in no chain. For a position of a chain, exactly those
/// from before the chain's first up to before the position itself may come after it.
pub(crate) fn chains(alloc: Global, nfa: &PosNfa) -> Result<Vec<u32>, AllocError>
    ensures { IfOk result (λ f. AreChains nfa.now f.items) }
{
    let mut firsts = Vec::with_capacity(alloc, nfa.len())?;
    let mut first = 0;
    for number in 0..nfa.len() {
        first = first_of(nfa, first, number);
        firsts.push(first)?;
    }
    Ok(firsts)
}

/// The first position of the chain of a position, given that of the position before it, or 0 if it is in no chain.
fn first_of(nfa: &PosNfa, before: u32, number: usize) -> u32
    requires number { number < length nfa.now.positions }
    requires before { 0 < before → IsChain nfa.now before (number - 1) }
    ensures { 0 < result → IsChain nfa.now result number }
{
    let Ok(position) = u32::try_from(number) else {
        return 0;
    };
    if nfa.begins_chain(position) {
        position
    } else if before > 0 && nfa.goes_on_chain(position) {
        before
    } else {
        0
    }
}

/// The last of some ascending positions that reads the byte, if there is one. `unread` is a byte that no position
/// reads.
pub(crate) fn last_reader(nfa: &PosNfa, from: &Members, byte: u8, unread: Option<u8>) -> Option<u32>
    requires unread { IfSome unread (λ b. (p : ℕ) → ReadsByte nfa.now p b → ⊥) }
    requires from { All (λ p. p < length nfa.now.positions) (listed from.now) }
    requires rising { AllPairs (λ p q. p < q) (listed from.now) }
    ensures { MatchOption result (ReadsNone nfa.now (listed from.now) byte)
        (IsLastReader nfa.now (listed from.now) byte) }
{
    match unread {
        Some(none) if none == byte => None,
        _ => last_of(nfa, from, byte),
    }
}

/// The last of some ascending positions that reads the byte, if there is one.
fn last_of(nfa: &PosNfa, from: &Members, byte: u8) -> Option<u32>
    requires from { All (λ p. p < length nfa.now.positions) (listed from.now) }
    requires rising { AllPairs (λ p q. p < q) (listed from.now) }
    ensures { MatchOption result (ReadsNone nfa.now (listed from.now) byte)
        (IsLastReader nfa.now (listed from.now) byte) }
{
    for passed in 0..from.len() {
        let number = from.at(from.len() - 1 - passed);
        if nfa.reads(number, byte) {
            return Some(number);
        }
    }
    None
}

/// The positions that may come after some ascending ones once the byte is read, if a chain determines them. `last` is
/// the last of the given ones that reads it.
pub(crate) fn span_after(
    nfa: &PosNfa,
    firsts: &[u32],
    from: &Members,
    byte: u8,
    last: u32,
) -> Option<Span>
    requires firsts { AreChains nfa.now firsts.now }
    requires from { All (λ p. p < length nfa.now.positions) (listed from.now) }
    requires rising { AllPairs (λ p q. p < q) (listed from.now) }
    requires last { IsLastReader nfa.now (listed from.now) byte last }
    ensures { IfSome result (IsSpanAfter nfa.now (listed from.now) byte) }
{
    let first = firsts[last as usize];
    if first == 0 || reads_below(nfa, from, byte, first) {
        return None;
    }
    Some(Span {
        first: first - 1,
        last: last - 1,
    })
}

/// Whether one of some ascending positions below a bound reads the byte.
fn reads_below(nfa: &PosNfa, from: &Members, byte: u8, bound: u32) -> bool
    requires from { All (λ p. p < length nfa.now.positions) (listed from.now) }
    requires rising { AllPairs (λ p q. p < q) (listed from.now) }
    ensures { result ≡ false → (p : ℕ) → Contains (listed from.now) p → ReadsByte nfa.now p byte → bound ≤ p }
{
    for place in 0..from.len() {
        let number = from.at(place);
        if number >= bound {
            return false;
        }
        if nfa.reads(number, byte) {
            return true;
        }
    }
    false
}
