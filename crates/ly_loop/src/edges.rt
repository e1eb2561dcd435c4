ghost use Rattle.std.specs.Prelude.{◌<◌, [], ◌∷◌, suc, IfOk, OnOk};
ghost use Rattle.ly_pack.specs.Machine.{states_of};
ghost use Rattle.ly_pack.specs.Steady.{run_bound};
ghost use Rattle.ly_loop.specs.Private.Edges.{AreMoreDoubtful, AreTargets, AreTargetsOf, AreWithinStates, IsAbove};
ghost use Rattle.ly_loop.specs.Private.Edges.{IsBefore, IsFirstOf};
ghost use Rattle.ly_loop.specs.Private.Known.{AreKnown, IsWithinStates};
ghost use Rattle.ly_loop.specs.Private.Run.{EndsAs, IsCountable};
ghost use Rattle.ly_loop.specs.declared.tokens.Tokens.TheVariants.{All, One};

use crate::known::{Edge, Known};
use crate::listed::Listed;
use crate::run::{RUN_BOUND, ends_within};
use crate::tokens::Tokens;
use ly_base::{OutOfMemory, StateNo, Sym};
use ly_pack::{Cell, MachineView, Rows, TableAction};
use std::alloc::Global;

/// A run that makes too many reductions.
#[derive(Clone, Copy)]
pub(crate) struct Passing {
    /// Its edge.
    pub(crate) edge: Edge,
    /// Its terminal.
    pub(crate) token: Sym,
}

/// Lists the states to which a state's entries and gotos lead, each once. A default shifts nothing.
pub(crate) fn targets(
    entries: &[Cell<TableAction>],
    gotos: &[Cell<StateNo>],
    targets: &mut Vec<StateNo>,
) -> Result<(), OutOfMemory>
    ensures { OnOk result (AreTargetsOf entries.now gotos.now targets.new.items) }
{
    targets.clear();
    for cell in entries {
        if let TableAction::Shift(next) = cell.entry {
            targets.push(next)?;
        }
    }
    for led in gotos {
        targets.push(led.entry)?;
    }
    targets.sort_unstable();
    targets.dedup();
    Ok(())
}

impl<A: Rows<TableAction> + Drop, G: Rows<StateNo> + Drop> Listed<'_, A, G> {
    /// Adds the edges above a state that have no summary for all terminals.
    pub(crate) fn push_doubtful(
        &self,
        below: StateNo,
        targets: &[StateNo],
        known: &mut Known,
        doubtful: &mut Vec<Edge>,
    ) -> Result<(), OutOfMemory>
        requires below { below.0 < states_of self.now }
        requires targets { AreTargets self.now below.0 targets.now }
        requires known { AreKnown self.now All known.old.summaries }
        ensures known { OnOk result (AreKnown self.now All known.new.summaries) }
        ensures doubtful { OnOk result
            (AreMoreDoubtful self.now below targets.now doubtful.old.items doubtful.new.items) }
    {
        // the type's invariant guarantees that the targets are states
        let _machine = self.machine;
        known.summaries.turn_to(below);
        for top in targets {
            let edge = Edge { below, top: *top };
            let found = self.summary_of(Tokens::All, edge, known)?;
            match found {
                Some(_) => {}
                None => doubtful.push(edge)?,
            }
        }
        Ok(())
    }

    /// The first of these edges, and the first terminal, whose run makes too many reductions.
    pub(crate) fn first_passing(
        &self,
        alloc: Global,
        edges: &[Edge],
    ) -> Result<Option<Passing>, OutOfMemory>
        requires { AreWithinStates self.now edges.now }
        ensures { IfOk result (IsFirstOf self.now (IsAbove edges.now self.now.terminals)) }
    {
        let mut first = None;
        if edges.is_empty() {
            return Ok(first);
        }
        for number in 0..self.machine.terminals() {
            first = self.first_on(alloc, Sym(number as u32), edges, first)?;
        }
        Ok(first)
    }

    /// The first run on this terminal that makes too many reductions, given the first one on lower terminals. What is
    /// known of runs on this terminal is kept from edge to edge.
    fn first_on(
        &self,
        alloc: Global,
        token: Sym,
        edges: &[Edge],
        lower: Option<Passing>,
    ) -> Result<Option<Passing>, OutOfMemory>
        requires token { token.0 < self.now.terminals }
        requires edges { AreWithinStates self.now edges.now }
        requires lower { IsFirstOf self.now (IsAbove edges.now token.0) lower }
        ensures { IfOk result (IsFirstOf self.now (IsAbove edges.now (suc token.0))) }
    {
        let mut known = Known::new(alloc);
        let mut stack = Vec::new(alloc);
        let mut first = lower;
        for edge in edges {
            let passing = Passing { edge: *edge, token };
            if comes_before(passing, first) {
                if !self.ends_on(passing, &mut known, &mut stack)? {
                    first = Some(passing);
                }
            }
        }
        Ok(first)
    }

    /// Whether the run of an edge on a terminal makes at most the allowed number of reductions. It is followed step by
    /// step if no summary shows that.
    fn ends_on(
        &self,
        run: Passing,
        known: &mut Known,
        stack: &mut Vec<StateNo>,
    ) -> Result<bool, OutOfMemory>
        requires token { run.token.0 < self.now.terminals }
        requires edge { IsWithinStates self.now run.edge }
        requires known { AreKnown self.now (One run.token) known.old.summaries }
        ensures known { OnOk result (AreKnown self.now (One run.token) known.new.summaries) }
        ensures ends { IfOk result (EndsAs self.now run.token.0 (run.edge.top.0 ∷ run.edge.below.0 ∷ []) run_bound) }
    {
        let summary = self.summary_of(Tokens::One(run.token), run.edge, known)?;
        if summary.is_some() {
            return Ok(true);
        }
        edge_ends(self.machine, run.edge.below, run.edge.top, run.token, stack)
    }
}

/// Whether a run precedes another one, if there is one: by the state below, the state on top, and the terminal.
fn comes_before(run: Passing, other: Option<Passing>) -> bool
    ensures { IsBefore run other result }
{
    let Some(other) = other else {
        return true;
    };
    let (edge, later) = (run.edge, other.edge);
    if edge.below.0 != later.below.0 {
        return edge.below.0 < later.below.0;
    }
    if edge.top.0 != later.top.0 {
        return edge.top.0 < later.top.0;
    }
    run.token.0 < other.token.0
}

/// Whether the run of an edge on a terminal makes at most the allowed number of reductions.
fn edge_ends<A: Rows<TableAction> + Drop, G: Rows<StateNo> + Drop>(
    machine: &MachineView<'_, A, G>,
    below: StateNo,
    top: StateNo,
    token: Sym,
    stack: &mut Vec<StateNo>,
) -> Result<bool, OutOfMemory>
    requires countable { IsCountable machine.now }
    requires below { below.0 < states_of machine.now }
    requires top { top.0 < states_of machine.now }
    requires token { token.0 < machine.now.terminals }
    ensures { IfOk result (EndsAs machine.now token.0 (top.0 ∷ below.0 ∷ []) run_bound) }
{
    stack.clear();
    stack.push(below)?;
    stack.push(top)?;
    ends_within(machine, token, RUN_BOUND, stack)
}
