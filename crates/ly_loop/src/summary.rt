//! The outcome of an edge's runs over all terminals: the maximum number of reductions, and how they end.
ghost use Rattle.ly_pack.specs.Machine.{Machine};
ghost use Rattle.ly_loop.specs.Private.Summary.{IsJoined, IsOneOf, IsWider};

use ly_base::Sym;

/// How the runs of an edge end.
#[derive(Clone, Copy)]
pub(crate) enum Ending {
    /// None of them pops the state below.
    Over,
    /// Those that pop it do so by reductions with the same effect.
    Leaves {
        /// The number of states below it that such a reduction pops as well.
        rest: usize,
        /// The left side of its rule.
        left: Sym,
    },
    /// They may pop it by reductions with different effects.
    Mixed,
}

/// The outcome of an edge's runs, over all terminals.
#[derive(Clone, Copy)]
pub(crate) struct Summary {
    /// The maximum number of reductions that one of them makes. It is at most the allowed number.
    pub(crate) most: usize,
    /// How they end.
    pub(crate) ending: Ending,
}

impl Summary {
    /// The outcome of runs that each have one of both outcomes.
    #[inline(always)]
    pub(crate) fn joined(self, other: Summary) -> Summary
        ensures { (m : Machine) → IsJoined m self other result }
    {
        Summary {
            most: self.most.max(other.most),
            ending: joined(self.ending, other.ending),
        }
    }
}

/// How runs end that each end in one of two ways.
#[inline(always)]
fn joined(one: Ending, other: Ending) -> Ending
    ensures first { IsWider one result }
    ensures second { IsWider other result }
    ensures one { IsOneOf one other result }
{
    match (one, other) {
        (Ending::Over, _) => other,
        (_, Ending::Over) => one,
        (
            Ending::Leaves { rest, left },
            Ending::Leaves {
                rest: other_rest,
                left: other_left,
            },
        ) if rest == other_rest && left.0 == other_left.0 => one,
        _ => Ending::Mixed,
    }
}
