ghost use Rattle.std.specs.Prelude.{◌≡◌};
ghost use Rattle.ly_drive.specs.Lines.{outcome_with};

use ly_feed::Outcome;

/// Whether the texts on all lines have trees.
#[derive(Clone, Copy, Debug, PartialEq, Eq)]
pub enum LinesOutcome {
    /// All of them do. Also if there are no lines.
    AllTrees,
    /// At least one doesn't.
    SomeRefused,
}

impl LinesOutcome {
    /// The outcome of these lines and one more.
    pub(crate) fn with(self, outcome: &Outcome) -> LinesOutcome
        ensures { result ≡ outcome_with outcome.now self }
    {
        match outcome {
            Outcome::Tree => self,
            Outcome::Syntax { .. } | Outcome::NoRule { .. } => LinesOutcome::SomeRefused,
        }
    }
}
