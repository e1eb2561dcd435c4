ghost use Rattle.std.specs.Prelude.{◌≡◌, ◌<◌, ◌+◌, ◌^◌, ℕ, List, [], ◌++◌, Bool, length, IfSome, MatchOption};
ghost use Rattle.ly_scan.specs.Matcher.{IsDecidedMatch, IsUnderway};

use crate::matching::{Match, better, match_of};
use crate::steps::Steps;
use ly_base::RuleNo;
use std::marker::Model;

/// A match whose bytes arrive in chunks. No byte is walked twice.
#[derive(Drop)]
pub struct Matcher<P> {
    /// The state of the walk after the bytes so far; `None` if it can't begin.
    at: Option<P>,
    /// The number of bytes so far.
    passed: usize,
    /// The length of the longest prefix that has a rule, and the rule.
    best: Option<(usize, RuleNo)>,
}

impl<P> Model for Matcher<P> {
    ghost use Rattle.ly_scan.specs.Matcher.{Underway};

    ghost Value = { Underway P };

    ghost view = { λ m. record { at = m.at; passed = m.passed; best = m.best } };
}

impl<P: Copy> Matcher<P> {
    /// Returns a match without bytes, which begins in a condition, at the start of a line or not.
    pub(crate) fn new<S: Steps<At = P>>(
        steps: &S,
        condition: u32,
        at_line_start: bool,
    ) -> Matcher<P>
        ensures { IsUnderway (S.walk steps.now condition at_line_start) (S.ahead steps.now) (S.stands steps.now) []
            result }
    {
        Matcher {
            at: steps.start(condition, at_line_start),
            passed: 0,
            best: None,
        }
    }

    /// Reads the next bytes. Returns `None` if they don't decide the match. Otherwise returns the match, which holds
    /// whatever bytes follow, and the matcher is finished.
    pub(crate) fn piece<S: Steps<At = P>>(&mut self, steps: &S, bytes: &[u8]) -> Option<Match>
        requires countable { self.old.passed + length bytes.now < 2 ^ 64 }
        requires stands { IfSome self.old.at (S.stands steps.now) }
        ensures { (condition : ℕ) (line : Bool) (seen : List ℕ)
            → IsUnderway (S.walk steps.now condition line) (S.ahead steps.now) (S.stands steps.now) seen self.old
            → MatchOption result
            (IsUnderway (S.walk steps.now condition line) (S.ahead steps.now) (S.stands steps.now) (seen ++ bytes.now)
            self.new) (IsDecidedMatch (S.walk steps.now condition line) (S.cut_of steps.now) (seen ++ bytes.now)) }
    {
        let Some(start) = self.at else {
            return if bytes.is_empty() {
                None
            } else {
                Some(Match::Stuck)
            };
        };
        let mut at = start;
        let mut best = self.best;
        for (count, byte) in bytes.iter().enumerate() {
            let Some(next) = steps.step(at, *byte) else {
                return Some(match_of(steps, best));
            };
            at = next;
            best = better(best, self.passed + count + 1, steps.accept(at));
        }
        self.at = Some(at);
        self.passed += bytes.len();
        self.best = best;
        None
    }
}
