ghost use Rattle.std.specs.Prelude.{◌≡◌, map};
ghost use Rattle.ly_relate.specs.Values.{goto_from, lookback_from};

use crate::gotos::Goto;
use crate::pieces::Pieces;
use crate::walks::Lookback;
use ly_digraph::Graph;
use std::marker::Model;

/// The relations between the nonterminal transitions of an automaton.
#[derive(Drop)]
pub struct Relations {
    /// The transitions, by number.
    pub(crate) gotos: Vec<Goto>,
    /// An edge `i -> j` if transition `i` reads transition `j`.
    pub(crate) reads: Graph,
    /// An edge from transition `i` to nodes that represent each transition that it includes.
    pub(crate) includes: Graph,
    /// The nodes that represent the transitions to which complete rules look back.
    pub(crate) lookbacks: Pieces<Lookback>,
}

impl Model for Relations {
    ghost use Rattle.std.specs.Prelude.{map};
    ghost use Rattle.ly_relate.specs.Related as spec;
    ghost use Rattle.ly_relate.specs.Values.{goto_from, lookback_from};

    ghost Value = { spec.Relations };

    ghost view = { λ r. record {
      gotos = map goto_from r.gotos.items;
      reads = r.reads;
      includes = r.includes;
      lookbacks = map lookback_from r.lookbacks;
    } };
}

impl Relations {
    /// The nonterminal transitions, by number.
    pub fn gotos(&self) -> &[Goto]
        ensures { map goto_from result.now ≡ self.now.gotos }
    {
        &self.gotos
    }

    /// The relation reads.
    pub fn reads(&self) -> &Graph
        ensures { result.now ≡ self.now.reads }
    {
        &self.reads
    }

    /// The relation includes. A node represents the transition with its number. A node past all transitions represents
    /// each transition to which its edges lead.
    pub fn includes(&self) -> &Graph
        ensures { result.now ≡ self.now.includes }
    {
        &self.includes
    }

    /// The relation lookback: the transitions are given by the nodes of `includes` that represent them.
    pub fn lookbacks(&self) -> &Pieces<Lookback>
        ensures { map lookback_from result.now ≡ self.now.lookbacks }
    {
        &self.lookbacks
    }
}
