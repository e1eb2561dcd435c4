ghost use Rattle.std.specs.Prelude.{◌≡◌, ◌<◌, ◌≤◌, ◌++◌, ℕ, [], ◌∷◌, length, map, slice_index_or, AllPairs};
ghost use Rattle.std.specs.Prelude.{IfOk, IsErrOf, IsTrue, OnOk};
ghost use Rattle.ly_base.specs.Keys.{IsAbsent};
ghost use Rattle.ly_join.specs.Grammar.{IsAugmented, symbol_of};
ghost use Rattle.ly_grammar.specs.Derivations.{IsReduced};
ghost use Rattle.ly_grammar.specs.Items.{HasMoreCores};
ghost use Rattle.ly_lr0.specs.Private.Built.{AreFound, IsNumbered, IsWholeRow, link_of};
ghost use Rattle.ly_lr0.specs.Private.Found.{IsFound, links_of, with_row};
ghost use Rattle.ly_lr0.specs.Private.Closing.{AreMoves, IsGroupEnd};
ghost use Rattle.ly_lr0.specs.Private.Items.{AreRising};
ghost use Rattle.ly_lr0.specs.Private.Kernels.{KeepsKernels, kernel_at};
ghost use Rattle.ly_lr0.specs.Private.Shared.{AreMovesBefore, IsLastRowBefore, IsShared, move_at};
ghost use Rattle.ly_lr0.specs.Transitions.{transition_of};

use crate::fault::Lr0Fault;
use crate::item::{Item, Move};
use crate::kernels::Kernels;
use crate::lr0::{comes_before, place_of};
use crate::transition::{Link, Row, Transition};
use ly_base::StateNo;
use ly_grammar::Reduced;
use ly_join::Symbol;
use std::alloc::{AllocError, Global};
use std::cmp::min;

/// The kernels found so far, and the rows of the first of them.
#[derive(Drop)]
pub(crate) struct Found<'a> {
    /// The allocator.
    pub(crate) alloc: Global,
    /// The grammar.
    pub(crate) reduced: &'a Reduced<'a>,
    /// The greatest number of states allowed.
    pub(crate) limit: u32,
    /// The kernels, by state number.
    pub(crate) kernels: Kernels,
    /// For each state but the first, the link by which it was found.
    pub(crate) links: Vec<Link>,
    /// The finished rows.
    pub(crate) rows: Vec<Row>,
    /// All transitions of the last finished row; none before the first.
    pub(crate) last: Vec<Transition>,
}

impl<'a> Found<'a> {
    /// The kernel of the start state: rule 0 with the dot at the front.
    pub(crate) fn start(
        alloc: Global,
        reduced: &'a Reduced<'a>,
        limit: u32,
    ) -> Result<Found<'a>, Lr0Fault>
        requires augmented { IsAugmented reduced.now.grammar }
        requires reduced { IsReduced reduced.now.grammar }
        ensures found { IfOk result IsFound }
        ensures reduced { IfOk result (λ f. f.reduced.now ≡ reduced.now) }
        ensures limit { IfOk result (λ f. f.limit ≡ limit) }
        ensures rows { IfOk result (λ f. f.rows.items ≡ []) }
        ensures many { IsErrOf result Lr0Fault.TooManyStates → HasMoreCores reduced.now.grammar limit }
    {
        if limit == 0 {
            return Err(Lr0Fault::TooManyStates);
        }
        let mut kernel = Vec::new(alloc);
        kernel.push(Item { rule: 0, dot: 0 })?;
        let mut kernels = Kernels::new(alloc);
        kernels.push(kernel)?;
        Ok(Found {
            alloc,
            reduced,
            limit,
            kernels,
            links: Vec::new(alloc),
            rows: Vec::new(alloc),
            last: Vec::new(alloc),
        })
    }

    /// The transitions of the next row, from the moves of its kernel and those of the state before. New kernels get the
    /// next numbers. If the moves of both states begin alike, these lead to the same states.
    pub(crate) fn successors(
        &mut self,
        moves: &[Move],
        before: &[Move],
    ) -> Result<Vec<Transition>, Lr0Fault>
        requires found { IsFound self.old }
        requires next { length self.old.rows.items < length self.old.kernels }
        requires moves { AreMoves self.old.reduced.now.grammar
            (kernel_at self.old.kernels (length self.old.rows.items)) moves.now }
        requires before { AreMovesBefore self.old before.now }
        ensures found { IfOk result (λ ts. AreFound self.new.reduced.now.grammar self.new.kernels (links_of self.new)
            (with_row self.new (map transition_of ts.items))) }
        ensures whole { IfOk result (λ ts. IsWholeRow self.new.reduced.now.grammar
            (kernel_at self.new.kernels (length self.new.rows.items)) (map transition_of ts.items)) }
        ensures few { OnOk result (length self.new.kernels ≤ self.new.limit) }
        ensures kept { OnOk result (KeepsKernels self.old.kernels self.new.kernels) }
        ensures rows { self.new.rows ≡ self.old.rows }
        ensures reduced { self.new.reduced ≡ self.old.reduced }
        ensures limit { self.new.limit ≡ self.old.limit }
        ensures many { IsErrOf result Lr0Fault.TooManyStates →
            HasMoreCores self.old.reduced.now.grammar self.old.limit }
    {
        let from = self.rows.len();
        let mut at = shared_moves(moves, before);
        let mut transitions = self.begun_row(moves, at)?;
        let mut kernel = Vec::new(self.alloc);
        let mut place = transitions.len();
        while at < moves.len() {
            let symbol = moves[at].symbol;
            let end = group_end(moves, at);
            let hint = self.hint(symbol, &mut place);
            let target = self.target(&moves[at..end], Link { from, symbol }, hint, &mut kernel)?;
            transitions.push(Transition { symbol, target })?;
            at = end;
        }
        Ok(transitions)
    }

    /// The part of the next row that equals the last row: the transitions over the symbols before that of the move at
    /// this index; none before the first.
    fn begun_row(&self, moves: &[Move], at: usize) -> Result<Vec<Transition>, AllocError>
        requires found { IsFound self.now }
        requires at { 0 < at → at < length moves.now }
        ensures none { IfOk result (λ ts. at ≡ 0 → ts.items ≡ []) }
        ensures before { IfOk result (λ ts. 0 < at
            → IsLastRowBefore self.now (symbol_of (move_at moves.now at).symbol) (map transition_of ts.items)) }
    {
        let mut transitions = Vec::with_capacity(self.alloc, moves.len())?;
        if at > 0 {
            for transition in self.last_before(moves[at].symbol) {
                transitions.push(*transition)?;
            }
        }
        Ok(transitions)
    }

    /// The transitions of the last row over the symbols before this one.
    fn last_before(&self, symbol: Symbol) -> &[Transition]
        requires { IsFound self.now }
        ensures { IsLastRowBefore self.now (symbol_of symbol) (map transition_of result.now) }
    {
        let transitions: &[Transition] = &self.last;
        &transitions[..place_of(transitions, symbol)]
    }

    /// The state to which a symbol led from the state before, because it mostly leads there again. Its transition is
    /// searched from `place` on, so rising symbols are found in one pass. This is only a hint: the kernel is compared.
    fn hint(&self, symbol: Symbol, place: &mut usize) -> Option<StateNo> {
        let transitions: &[Transition] = &self.last;
        while *place < transitions.len() && comes_before(transitions[*place].symbol, symbol) {
            *place += 1;
        }
        let near = transitions.get(*place)?;
        if near.symbol != symbol {
            return None;
        }
        *place += 1;
        Some(near.target)
    }

    /// The state of the kernel that these moves lead to. The kernel is compared with that of the hint first; only then
    /// are the items listed.
    fn target(
        &mut self,
        moves: &[Move],
        link: Link,
        hint: Option<StateNo>,
        kernel: &mut Vec<Item>,
    ) -> Result<StateNo, Lr0Fault>
        requires { length self.old.kernels ≤ self.old.limit }
        ensures numbered { IfOk result (λ s. IsNumbered self.old.kernels (links_of self.old)
            (map (λ m. m.item) moves.now) (link_of link) self.new.kernels (links_of self.new) s.0) }
        ensures few { OnOk result (length self.new.kernels ≤ self.new.limit) }
        ensures rows { self.new.rows ≡ self.old.rows }
        ensures reduced { self.new.reduced ≡ self.old.reduced }
        ensures limit { self.new.limit ≡ self.old.limit }
        ensures full { IsErrOf result Lr0Fault.TooManyStates → (length self.old.kernels ≡ self.old.limit)
            × IsAbsent self.old.kernels (map (λ m. m.item) moves.now) }
    {
        if let Some(state) = hint {
            if self.has_kernel(state, moves) {
                return Ok(state);
            }
        }
        items_of(moves, kernel)?;
        self.number(kernel, link)
    }

    /// Whether the state has been found and its kernel consists of the items of these moves.
    fn has_kernel(&self, state: StateNo, moves: &[Move]) -> bool
        ensures { IsTrue result → (state.0 < length self.now.kernels)
            × (kernel_at self.now.kernels state.0 ≡ map (λ m. m.item) moves.now) }
    {
        let number = state.0 as usize;
        number < self.kernels.len() && are_items_of(self.kernels.kernel(number), moves)
    }

    /// The number of a kernel. A new one gets the next number.
    fn number(&mut self, kernel: &[Item], link: Link) -> Result<StateNo, Lr0Fault>
        requires { length self.old.kernels ≤ self.old.limit }
        ensures numbered { IfOk result (λ s. IsNumbered self.old.kernels (links_of self.old) kernel.now (link_of link)
            self.new.kernels (links_of self.new) s.0) }
        ensures few { OnOk result (length self.new.kernels ≤ self.new.limit) }
        ensures rows { self.new.rows ≡ self.old.rows }
        ensures reduced { self.new.reduced ≡ self.old.reduced }
        ensures limit { self.new.limit ≡ self.old.limit }
        ensures full { IsErrOf result Lr0Fault.TooManyStates →
            (length self.old.kernels ≡ self.old.limit) × IsAbsent self.old.kernels kernel.now }
    {
        let limit = self.limit as usize;
        if let Some(known) = self.kernels.find(kernel) {
            return Ok(StateNo(known as u32));
        }
        let count = self.kernels.len();
        if count >= limit {
            return Err(Lr0Fault::TooManyStates);
        }
        self.kernels.push(Vec::from_slice(self.alloc, kernel)?)?;
        self.links.push(link)?;
        Ok(StateNo(count as u32))
    }
}

/// The start of the last run of moves over one symbol at which two lists still agree. All moves before it are equal,
/// and so is the one there.
fn shared_moves(moves: &[Move], before: &[Move]) -> usize
    ensures { 0 < result → IsShared moves.now before.now result }
{
    let mut at = 0;
    for end in 0..min(moves.len(), before.len()) {
        if moves[end] != before[end] {
            return at;
        }
        if end > 0 && moves[end - 1].symbol != moves[end].symbol {
            at = end;
        }
    }
    at
}

/// The end of the run of moves over the same symbol as the one at this index.
fn group_end(moves: &[Move], at: usize) -> usize
    requires { at < length moves.now }
    ensures { IsGroupEnd moves.now at result }
{
    let symbol = moves[at].symbol;
    let mut end = at + 1;
    while end < moves.len() && moves[end].symbol == symbol {
        end += 1;
    }
    end
}

/// Fills a list with the items of moves.
fn items_of(moves: &[Move], items: &mut Vec<Item>) -> Result<(), AllocError>
    ensures { OnOk result (items.new.items ≡ map (λ m. m.item) moves.now) }
{
    items.clear();
    for step in moves {
        items.push(step.item)?;
    }
    Ok(())
}

/// Whether a kernel consists of the items of moves, in their order.
fn are_items_of(kernel: &[Item], moves: &[Move]) -> bool
    ensures { IsTrue result → kernel.now ≡ map (λ m. m.item) moves.now }
{
    if kernel.len() != moves.len() {
        return false;
    }
    for at in 0..moves.len() {
        if kernel[at] != moves[at].item {
            return false;
        }
    }
    true
}
