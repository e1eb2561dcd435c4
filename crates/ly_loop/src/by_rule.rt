//! The outcome of an edge's runs that begin with a reduction by a rule, computed from the known outcomes of others.
ghost use Rattle.std.specs.Prelude.{◌<◌, ◌≤◌, [], ◌∷◌, IfSome, length};
ghost use Rattle.ly_pack.specs.Machine.{IsRuleNumber, states_of};
ghost use Rattle.ly_pack.specs.Steady.{run_bound};
ghost use Rattle.ly_loop.specs.Private.Known.{AreKnown, IsKept, IsLonger, IsLookup, IsLow, IsWithinStates};
ghost use Rattle.ly_loop.specs.Private.Summary.{IsAllowed, IsBehind, IsGone, IsSummary, IsSummaryBy};
ghost use Rattle.ly_loop.specs.Private.Reductions.{AreReductions};
ghost use Rattle.ly_loop.specs.Private.Tokens.{AreThere};

use crate::known::{Edge, Lookup};
use crate::listed::Listed;
use crate::run::RUN_BOUND;
use crate::summaries::Summaries;
use crate::summary::{Ending, Summary};
use crate::tokens::Tokens;
use ly_base::{RuleNo, StateNo, Sym};
use ly_pack::{Rows, TableAction};

/// Runs that end at once.
const ENDED: Summary = Summary {
    most: 0,
    ending: Ending::Over,
};

impl<A: Rows<TableAction> + Drop, G: Rows<StateNo> + Drop> Listed<'_, A, G> {
    /// The outcome of an edge's runs, on all terminals or on one.
    pub(crate) fn runs_of(&self, tokens: Tokens, edge: Edge, summaries: &Summaries) -> Lookup
        requires tokens { AreThere self.now tokens }
        requires edge { IsWithinStates self.now edge }
        requires known { AreKnown self.now tokens summaries.now }
        ensures { IsLookup self.now (IsSummary self.now tokens edge.below.0 edge.top.0) result }
    {
        match tokens {
            Tokens::All => {
                let rules = &self.reductions[edge.top.0 as usize];
                self.all_by_rules(tokens, rules, edge, summaries)
            }
            Tokens::One(token) => match self.machine.action(edge.top, token) {
                TableAction::Reduce(rule) => self.by_rule(tokens, rule, edge, summaries),
                _ => Lookup::Known(ENDED),
            },
        }
    }

    /// The outcome of an edge's runs, if its state on top reduces by these rules.
    fn all_by_rules(
        &self,
        tokens: Tokens,
        rules: &[RuleNo],
        edge: Edge,
        summaries: &Summaries,
    ) -> Lookup
        requires edge { IsWithinStates self.now edge }
        requires rules { AreReductions self.now edge.top.0 rules.now }
        requires known { AreKnown self.now tokens summaries.now }
        ensures { IsLookup self.now (IsSummary self.now tokens edge.below.0 edge.top.0) result }
    {
        let mut all = ENDED;
        for rule in rules {
            match self.by_rule(tokens, *rule, edge, summaries) {
                Lookup::Known(summary) => all = all.joined(summary),
                other => return other,
            }
        }
        Lookup::Known(all)
    }

    /// The outcome of an edge's runs that begin with a reduction by a rule.
    #[inline(always)]
    pub(crate) fn by_rule(
        &self,
        tokens: Tokens,
        rule: RuleNo,
        edge: Edge,
        summaries: &Summaries,
    ) -> Lookup
        requires rule { IsRuleNumber self.now rule.0 }
        requires edge { IsWithinStates self.now edge }
        requires known { AreKnown self.now tokens summaries.now }
        ensures { IsLookup self.now (IsSummaryBy self.now tokens edge.below.0 edge.top.0 rule.0) result }
    {
        let rule = self.machine.rule(rule);
        if rule.body_length == 0 {
            return self.above(tokens, edge, rule.left, summaries);
        }
        if rule.body_length == 1 {
            return self.beside(tokens, edge.below, rule.left, summaries);
        }
        Lookup::Known(Summary {
            most: 0,
            ending: Ending::Leaves {
                rest: rule.body_length - 2,
                left: rule.left,
            },
        })
    }

    /// The outcome of an edge's runs that begin with a reduction of an empty body: they continue above both its states.
    #[inline(always)]
    fn above(&self, tokens: Tokens, edge: Edge, left: Sym, summaries: &Summaries) -> Lookup
        requires edge { IsWithinStates self.now edge }
        requires left { left.0 < self.now.nonterminals }
        requires known { AreKnown self.now tokens summaries.now }
        ensures { IsLookup self.now (IsGone self.now tokens edge.top.0 (edge.below.0 ∷ []) left.0) result }
    {
        let Some(next) = self.machine.goto(edge.top, left) else {
            return Lookup::Known(ENDED);
        };
        let upper = Edge {
            below: edge.top,
            top: next,
        };
        let found = match look_up(self.reductions, summaries, upper) {
            Lookup::Known(inner) => self.above_one_more(tokens, edge.below, inner, summaries),
            found => found,
        };
        longer(1, found)
    }

    /// The outcome of runs above one more state, from their outcome without it.
    #[inline(always)]
    fn above_one_more(
        &self,
        tokens: Tokens,
        below: StateNo,
        inner: Summary,
        summaries: &Summaries,
    ) -> Lookup
        requires below { below.0 < states_of self.now }
        requires inner { IsAllowed self.now inner }
        requires known { AreKnown self.now tokens summaries.now }
        ensures { IsLookup self.now (IsBehind self.now tokens below.0 inner) result }
    {
        match inner.ending {
            Ending::Over => Lookup::Known(inner),
            Ending::Leaves { rest, left } => {
                if rest == 0 {
                    longer(inner.most, self.beside(tokens, below, left, summaries))
                } else {
                    Lookup::Known(Summary {
                        most: inner.most,
                        ending: Ending::Leaves {
                            rest: rest - 1,
                            left,
                        },
                    })
                }
            }
            Ending::Mixed => Lookup::Unknown,
        }
    }

    /// The outcome of runs from a reduction on that pops all states above this one and has this left side.
    #[inline(always)]
    fn beside(&self, tokens: Tokens, below: StateNo, left: Sym, summaries: &Summaries) -> Lookup
        requires below { below.0 < states_of self.now }
        requires left { left.0 < self.now.nonterminals }
        requires known { AreKnown self.now tokens summaries.now }
        ensures { IsLookup self.now (IsGone self.now tokens below.0 [] left.0) result }
    {
        match self.machine.goto(below, left) {
            Some(top) => longer(1, look_up(self.reductions, summaries, Edge { below, top })),
            None => Lookup::Known(ENDED),
        }
    }
}

/// The outcome of runs that make this many reductions before.
#[inline(always)]
fn longer(made: usize, found: Lookup) -> Lookup
    requires made { made ≤ run_bound }
    requires low { IsLow found }
    ensures { IsLonger made found result }
{
    match found {
        Lookup::Known(summary) => {
            if made + summary.most <= RUN_BOUND {
                Lookup::Known(Summary {
                    most: made + summary.most,
                    ..summary
                })
            } else {
                Lookup::Unknown
            }
        }
        found => found,
    }
}

/// The known outcome of an edge's runs.
#[inline(always)]
pub(crate) fn look_up(reductions: &[Vec<RuleNo>], summaries: &Summaries, edge: Edge) -> Lookup
    requires { edge.top.0 < length reductions.now }
    ensures { IsKept reductions.now summaries.now edge result }
{
    if reductions[edge.top.0 as usize].is_empty() {
        return Lookup::Known(ENDED);
    }
    let kept = summaries.above(edge.below);
    match kept.get(&(edge.below.0, edge.top.0)) {
        Some(Some(summary)) => Lookup::Known(*summary),
        Some(None) => Lookup::Unknown,
        None => Lookup::Wanted(edge),
    }
}
