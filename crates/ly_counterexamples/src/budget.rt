ghost use Rattle.std.specs.Prelude.{◌≡◌, ◌-◌, ◌↔◌, IsTrue};

use std::marker::Model;

/// How much work is left for searches for counterexamples. A unit is a demand found, or a symbol looked at that follows
/// a nonterminal in a body.
///
/// A search that has begun is always finished, since its result is exact. Its work is taken off the budget, and a
/// caller with many searches stops once nothing is left.
#[derive(Drop)]
pub struct Budget {
    /// How much is left.
    left: usize,
}

impl Model for Budget {
    ghost use Rattle.std.specs.Prelude.{ℕ};

    ghost Value = { ℕ };

    ghost view = { λ budget. budget.left };
}

impl Budget {
    /// A budget of this size.
    pub fn new(left: usize) -> Budget
        ensures { result ≡ left }
    {
        Budget { left }
    }

    /// Whether nothing is left.
    pub fn is_over(&self) -> bool
        ensures { IsTrue result ↔ (self.now ≡ 0) }
    {
        self.left == 0
    }

    /// Takes this much off, or all that is left if that is less.
    pub fn take(&mut self, count: usize)
        ensures { self.new ≡ self.old - count }
    {
        self.left = self.left.saturating_sub(count);
    }
}
