//! The known outcomes of the runs of edges, each computed once.
ghost use Rattle.std.specs.Prelude.{◌≡◌, ◌++◌, [], ◌∷◌, IfOk, IfSome, OnOk};
ghost use Rattle.ly_pack.specs.Machine.{Machine};
ghost use Rattle.ly_loop.specs.Private.Known.{AreKnown, ArePending, IsNoMore, IsSummaryOf, IsWithinStates};
ghost use Rattle.ly_loop.specs.Private.Summary.{IsSummary};
ghost use Rattle.ly_loop.specs.Private.Reductions.{AreReductions};
ghost use Rattle.ly_loop.specs.Private.Tokens.{AreThere};
ghost use Rattle.ly_loop.specs.declared.tokens.Tokens.{Tokens};

use crate::by_rule::look_up;
use crate::listed::Listed;
use crate::summaries::Summaries;
use crate::summary::Summary;
use crate::tokens::Tokens;
use ly_base::{OutOfMemory, RuleNo, StateNo};
use ly_pack::{Rows, TableAction};
use std::alloc::Global;

/// The two states of an edge.
#[derive(Clone, Copy)]
pub(crate) struct Edge {
    /// The state below.
    pub(crate) below: StateNo,
    /// The state on top.
    pub(crate) top: StateNo,
}

/// What is known of some runs.
#[derive(Clone, Copy)]
pub(crate) enum Lookup {
    /// Their outcome.
    Known(Summary),
    /// Nothing, and it isn't being computed.
    Unknown,
    /// The outcome of this edge's runs must be computed first.
    Wanted(Edge),
}

impl Lookup {
    /// The summary, if it is known.
    fn summary(self) -> Option<Summary>
        ensures { IsSummaryOf self result }
    {
        match self {
            Lookup::Known(summary) => Some(summary),
            _ => None,
        }
    }
}

/// An edge whose summary is being computed.
#[derive(Clone, Copy)]
pub(crate) struct Pending {
    /// The edge.
    pub(crate) edge: Edge,
    /// The number of rules of its state on top, from the first on, that need no other edge.
    pub(crate) passed: usize,
}

/// What is known of edges, on all terminals or on one.
#[derive(Drop)]
pub(crate) struct Known {
    /// The outcomes of the runs of edges.
    pub(crate) summaries: Summaries,
    /// The edges whose summaries are being computed, each needed by the one before it.
    pub(crate) agenda: Vec<Pending>,
}

impl Known {
    /// Without any outcome.
    pub(crate) fn new(alloc: Global) -> Known
        ensures { (m : Machine) → (k : Tokens) → AreKnown m k result.summaries }
    {
        Known {
            summaries: Summaries::new(alloc),
            agenda: Vec::new(alloc),
        }
    }
}

impl<A: Rows<TableAction> + Drop, G: Rows<StateNo> + Drop> Listed<'_, A, G> {
    /// The outcome of an edge's runs, on all terminals or on one, if it is defined. The edges that it depends on are
    /// computed first.
    pub(crate) fn summary_of(
        &self,
        tokens: Tokens,
        edge: Edge,
        known: &mut Known,
    ) -> Result<Option<Summary>, OutOfMemory>
        requires tokens { AreThere self.now tokens }
        requires edge { IsWithinStates self.now edge }
        requires known { AreKnown self.now tokens known.old.summaries }
        ensures known { OnOk result (AreKnown self.now tokens known.new.summaries) }
        ensures summary { IfOk result (λ found. IfSome found (IsSummary self.now tokens edge.below.0 edge.top.0)) }
    {
        match self.runs_of(tokens, edge, &known.summaries) {
            Lookup::Known(summary) => Ok(Some(summary)),
            Lookup::Unknown => Ok(None),
            Lookup::Wanted(_) => {
                self.seek(tokens, edge, known)?;
                Ok(look_up(self.reductions, &known.summaries, edge).summary())
            }
        }
    }

    /// Computes the outcome of an edge, and before it those that it depends on.
    fn seek(&self, tokens: Tokens, edge: Edge, known: &mut Known) -> Result<(), OutOfMemory>
        requires tokens { AreThere self.now tokens }
        requires edge { IsWithinStates self.now edge }
        requires known { AreKnown self.now tokens known.old.summaries }
        ensures { OnOk result (AreKnown self.now tokens known.new.summaries) }
    {
        known.agenda.clear();
        begin(edge, known)?;
        for _turn in 0..u64::MAX {
            if !self.work(tokens, known)? {
                break;
            }
        }
        Ok(())
    }

    /// Computes the outcome of the last edge on the agenda, or adds one to the agenda that must be computed first.
    /// Returns false if the agenda is empty.
    fn work(&self, tokens: Tokens, known: &mut Known) -> Result<bool, OutOfMemory>
        requires tokens { AreThere self.now tokens }
        requires known { AreKnown self.now tokens known.old.summaries }
        requires agenda { ArePending self.now known.old.agenda.items }
        ensures known { OnOk result (AreKnown self.now tokens known.new.summaries) }
        ensures agenda { OnOk result (ArePending self.now known.new.agenda.items) }
    {
        let Some(pending) = known.agenda.pop() else {
            return Ok(false);
        };
        let edge = pending.edge;
        if let Some((passed, wanted)) = self.wanted_for(tokens, pending, &known.summaries) {
            known.agenda.push(Pending { edge, passed })?;
            begin(wanted, known)?;
        } else {
            let found = self.runs_of(tokens, edge, &known.summaries);
            known.summaries.keep(edge, found.summary())?;
        }
        Ok(true)
    }

    /// The edge that must be computed before this one, if there is one, and the number of rules that need none.
    fn wanted_for(
        &self,
        tokens: Tokens,
        pending: Pending,
        summaries: &Summaries,
    ) -> Option<(usize, Edge)>
        requires tokens { AreThere self.now tokens }
        requires edge { IsWithinStates self.now pending.edge }
        requires known { AreKnown self.now tokens summaries.now }
        ensures { IfSome result (λ found. IsWithinStates self.now found.1) }
    {
        match tokens {
            Tokens::All => {
                let rules = &self.reductions[pending.edge.top.0 as usize];
                self.first_wanted(tokens, rules, pending, summaries)
            }
            Tokens::One(_) => match self.runs_of(tokens, pending.edge, summaries) {
                Lookup::Wanted(edge) => Some((0, edge)),
                _ => None,
            },
        }
    }

    /// The first rule, after those already visited, whose runs depend on an edge that must be computed first.
    fn first_wanted(
        &self,
        tokens: Tokens,
        rules: &[RuleNo],
        pending: Pending,
        summaries: &Summaries,
    ) -> Option<(usize, Edge)>
        requires rules { AreReductions self.now pending.edge.top.0 rules.now }
        requires edge { IsWithinStates self.now pending.edge }
        requires known { AreKnown self.now tokens summaries.now }
        ensures { IfSome result (λ found. IsWithinStates self.now found.1) }
    {
        for place in pending.passed..rules.len() {
            if let Lookup::Wanted(edge) = self.by_rule(
                tokens,
                rules[place],
                pending.edge,
                summaries,
            ) {
                return Some((place, edge));
            }
        }
        None
    }
}

/// Adds an edge to the agenda.
fn begin(edge: Edge, known: &mut Known) -> Result<(), OutOfMemory>
    ensures known { OnOk result (IsNoMore known.old.summaries known.new.summaries) }
    ensures agenda { OnOk result
        (known.new.agenda.items ≡ known.old.agenda.items ++ record { edge = edge; passed = 0 } ∷ []) }
{
    known.summaries.keep(edge, None)?;
    known.agenda.push(Pending { edge, passed: 0 })?;
    Ok(())
}
