ghost use Rattle.std.specs.Prelude.{◌≡◌, ◌≢◌, ◌↔◌, ◌<◌, ◌++◌, [], ◌∷◌, length, slice_get};
ghost use Rattle.std.specs.Prelude.{AllPairs, Contains, IsTrue, OnOk};
ghost use Rattle.std.specs.Prelude.{Some};

use crate::claim::Demand;
use indexmap::IndexSet;
use ly_join::Symbol;
use std::alloc::{AllocError, Global};
use std::marker::Model;

/// How a demand was found.
#[derive(Clone, Copy)]
pub(crate) struct Link {
    /// The index of the demand from which it was found.
    pub(crate) from: usize,
    /// The symbol that was popped, if any.
    pub(crate) symbol: Option<Symbol>,
    /// How many symbols were popped up to this demand.
    pub(crate) popped: usize,
}

/// The demands found so far, each once, in the order in which they were found.
#[derive(Drop)]
pub(crate) struct Found {
    /// The demands.
    demands: IndexSet<Demand>,
}

impl Model for Found {
    ghost use Rattle.std.specs.Prelude.{◌≢◌, List, AllPairs};
    ghost use Rattle.ly_counterexamples.specs.declared.claim.Demand as claim;

    ghost Value = { List claim.Demand };

    ghost view = { λ f. f.demands.keys };

    ghost invariant = { λ f. AllPairs (λ d e. d ≢ e) f.demands.keys };
}

impl Found {
    /// No demands.
    pub(crate) fn new(alloc: Global) -> Self
        ensures { result ≡ [] }
    {
        Found {
            demands: IndexSet::new(alloc),
        }
    }

    /// How many demands there are.
    pub(crate) fn len(&self) -> usize
        ensures count { result ≡ length self.now }
        ensures apart { AllPairs (λ d e. d ≢ e) self.now }
    {
        self.demands.len()
    }

    /// The demand at an index.
    pub(crate) fn at(&self, place: usize) -> Demand
        requires { place < length self.now }
        ensures { slice_get self.now place ≡ Some result }
    {
        *self.demands.get_index(place).unwrap()
    }

    /// Whether a demand was found already.
    pub(crate) fn contains(&self, demand: &Demand) -> bool
        ensures { IsTrue result ↔ Contains self.now demand.now }
    {
        self.demands.contains(demand)
    }

    /// Adds a new demand.
    pub(crate) fn push(&mut self, demand: Demand) -> Result<(), AllocError>
        requires { Contains self.old demand → ⊥ }
        ensures { OnOk result (self.new ≡ self.old ++ demand ∷ []) }
    {
        self.demands.insert(demand)?;
        Ok(())
    }
}
