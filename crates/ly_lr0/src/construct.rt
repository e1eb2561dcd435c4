ghost use Rattle.std.specs.Prelude.{◌≡◌, ◌<◌, ◌≤◌, suc, length, IfOk, IsErrOf, OnOk};
ghost use Rattle.ly_grammar.specs.Items.{HasMoreCores};
ghost use Rattle.ly_lr0.specs.Automaton.{IsLr0Automaton};
ghost use Rattle.ly_lr0.specs.Private.Construction.{IsConstruction};

use crate::by_left::{RulesByLeft, rules_by_left};
use crate::closing::{close, complete_rules, list_moves};
use crate::fault::Lr0Fault;
use crate::found::Found;
use crate::item::Move;
use crate::lr0::Lr0;
use crate::nonkernel::Nonkernel;
use crate::row::row_of;
use ly_base::{Limits, SparseSet};
use ly_grammar::Reduced;
use std::alloc::Global;
use std::mem::swap;

/// Builds the LR(0) automaton of a reduced grammar.
///
/// `TooManyStates` if there are more cores of viable prefixes than the limit, `OutOfMemory` if an allocation fails.
pub fn automaton<'a>(
    alloc: Global,
    reduced: &'a Reduced<'a>,
    limits: &Limits,
) -> Result<Lr0<'a>, Lr0Fault>
    ensures grammar { IfOk result (λ a. a.grammar ≡ reduced.now.grammar) }
    ensures automaton { IfOk result IsLr0Automaton }
    ensures few { IfOk result (λ a. length a.states ≤ limits.now.parser_states) }
    ensures many { IsErrOf result Lr0Fault.TooManyStates
        → HasMoreCores reduced.now.grammar limits.now.parser_states }
{
    let mut construction = Construction::start(alloc, reduced, limits.parser_states())?;
    while construction.found.rows.len() < construction.found.kernels.len() {
        construction.push_row()?;
    }
    let Construction { found, by_left, .. } = construction;
    Ok(Lr0 {
        reduced,
        links: found.links,
        rows: found.rows,
        by_left,
    })
}

/// The automaton built so far, and the buffers for its next row.
#[derive(Drop)]
pub(crate) struct Construction<'a> {
    /// The kernels found so far, and the rows of the first of them.
    pub(crate) found: Found<'a>,
    /// The rules by their left sides.
    pub(crate) by_left: RulesByLeft,
    /// Buffer for the nonterminals that a row's kernel closes to.
    pub(crate) entered: SparseSet,
    /// The nonkernel items of the last row.
    pub(crate) nonkernel: Nonkernel,
    /// Buffer for the moves of the next row.
    pub(crate) moves: Vec<Move>,
    /// The moves of the last row.
    pub(crate) before: Vec<Move>,
}

impl<'a> Construction<'a> {
    /// The kernel of the start state, and no row.
    fn start(alloc: Global, reduced: &'a Reduced<'a>, limit: u32) -> Result<Self, Lr0Fault>
        ensures made { IfOk result IsConstruction }
        ensures reduced { IfOk result (λ c. c.found.reduced.now ≡ reduced.now) }
        ensures limit { IfOk result (λ c. c.found.limit ≡ limit) }
        ensures many { IsErrOf result Lr0Fault.TooManyStates → HasMoreCores reduced.now.grammar limit }
    {
        let entered = SparseSet::new(alloc, reduced.grammar().accept().0 as usize + 1)?;
        let by_left = rules_by_left(alloc, reduced)?;
        Ok(Construction {
            found: Found::start(alloc, reduced, limit)?,
            by_left,
            entered,
            nonkernel: Nonkernel::new(alloc),
            moves: Vec::new(alloc),
            before: Vec::new(alloc),
        })
    }

    /// Adds the row of the first kernel that has none.
    fn push_row(&mut self) -> Result<(), Lr0Fault>
        requires made { IsConstruction self.old }
        requires next { length self.old.found.rows.items < length self.old.found.kernels }
        ensures made { OnOk result (IsConstruction self.new) }
        ensures longer { OnOk result (length self.new.found.rows.items ≡ suc (length self.old.found.rows.items)) }
        ensures reduced { OnOk result (self.new.found.reduced ≡ self.old.found.reduced) }
        ensures limit { OnOk result (self.new.found.limit ≡ self.old.found.limit) }
        ensures many { IsErrOf result Lr0Fault.TooManyStates →
            HasMoreCores self.old.found.reduced.now.grammar self.old.found.limit }
    {
        let (alloc, reduced) = (self.found.alloc, self.found.reduced);
        let row = self.found.rows.len();
        let kernel = self.found.kernels.kernel(row);
        close(reduced, &self.by_left, kernel, &mut self.entered);
        self.nonkernel
            .enter(reduced, &self.by_left, self.entered.members())?;
        list_moves(reduced, kernel, &self.nonkernel.moves, &mut self.moves)?;
        let complete = complete_rules(alloc, reduced, kernel, &self.nonkernel.complete)?;
        let transitions = self.found.successors(&self.moves, &self.before)?;
        swap(&mut self.moves, &mut self.before);
        let next = row_of(alloc, &transitions, complete, &self.found.rows)?;
        self.found.rows.push(next)?;
        self.found.last = transitions;
        Ok(())
    }
}
