//! The known outcomes of the runs of edges. Those above one state are computed together and stored separately. They are
//! dropped when the next state begins, because of other edges only those above an empty rule are needed.
ghost use Rattle.std.specs.Prelude.{◌≡◌, ◌⊎◌, OnOk};
ghost use Rattle.ly_pack.specs.Machine.{Machine};
ghost use Rattle.ly_loop.specs.Private.Known.{AreKnown, IsNoMore, IsPut};
ghost use Rattle.ly_loop.specs.declared.tokens.Tokens.{Tokens};

use crate::known::Edge;
use crate::summary::Summary;
use ly_base::{OutOfMemory, StateNo};
use std::alloc::Global;
use std::collections::BTreeMap;

/// The outcome of an edge's runs, by the numbers of its states. None if it is being computed or undefined.
type Kept = BTreeMap<(u32, u32), Option<Summary>>;

/// What is known of edges.
#[derive(Drop)]
pub(crate) struct Summaries {
    /// The state whose edges are being checked.
    below: StateNo,
    /// What is known of the edges above it.
    own: Kept,
    /// What is known of other edges.
    others: Kept,
}

impl Summaries {
    /// Without any outcome.
    pub(crate) fn new(alloc: Global) -> Summaries
        ensures { (m : Machine) → (k : Tokens) → AreKnown m k result }
    {
        Summaries {
            below: StateNo(0),
            own: BTreeMap::new(alloc),
            others: BTreeMap::new(alloc),
        }
    }

    /// Moves on to the edges above this state.
    pub(crate) fn turn_to(&mut self, below: StateNo)
        ensures { IsNoMore self.old self.new }
    {
        self.below = below;
        self.own.clear();
    }

    /// The map that holds what is known of the edges above a state.
    pub(crate) fn above(&self, below: StateNo) -> &Kept
        ensures { (result.now ≡ self.now.own) ⊎ (result.now ≡ self.now.others) }
    {
        if below == self.below {
            &self.own
        } else {
            &self.others
        }
    }

    /// Stores the outcome of an edge's runs, or that it is being computed or undefined.
    pub(crate) fn keep(&mut self, edge: Edge, found: Option<Summary>) -> Result<(), OutOfMemory>
        ensures { OnOk result (IsPut self.old self.new edge found) }
    {
        let states = (edge.below.0, edge.top.0);
        if edge.below == self.below {
            self.own.insert(states, found)?;
        } else {
            self.others.insert(states, found)?;
        }
        Ok(())
    }
}
