ghost use Rattle.std.specs.Prelude.{◌≡◌, ◌≢◌, ◌<◌, ◌≤◌, ◌+◌, ℕ, List, [], ◌++◌, length, take, true, false, is_some};
ghost use Rattle.std.specs.Prelude.{IfSome, None};
ghost use Rattle.ly_scan.specs.Cuts.{token_len};
ghost use Rattle.ly_scan.specs.KnownWalks.{AreKnown, IsFound};
ghost use Rattle.ly_scan.specs.Matching.{IsMatch};
ghost use Rattle.ly_scan.specs.Private.Matching.{decided, found};
ghost use Rattle.ly_scan.specs.Pieces.{CanFollow};
ghost use Rattle.ly_scan.specs.Walk.{IsBest, IsStart, Walk, better_of};

use crate::known_walks::{KnownWalks, Longest};
use crate::steps::Steps;
use ly_base::{Cut, RuleNo};

/// The number of bytes from which on a walk counts as long.
const FAR: usize = 64;

/// The match at the start of a text.
#[derive(Clone, Copy)]
pub(crate) enum Match {
    /// A rule matches.
    Win {
        /// The rule of the longest match.
        rule: RuleNo,
        /// The length of the match in bytes.
        matched: usize,
        /// The length of the token in bytes: the whole match, or what its cut leaves of it.
        token_len: usize,
    },
    /// A rule matches, but its cut leaves no byte or more than the match.
    BadCut,
    /// No rule matches one or more bytes.
    Stuck,
}

/// The match at the start of some bytes, whatever bytes follow. `ended` is whether the text ends after them. `None` if
/// the match isn't decided. Long walks past the token are cached.
#[inline(always)] // a call would cost a third more instructions for each lexeme
pub(crate) fn known_match<S: Steps>(
    steps: &S,
    known: &mut KnownWalks,
    condition: u32,
    at_line_start: bool,
    bytes: &[u8],
    ended: bool,
) -> Option<Match>
    requires known { AreKnown (S.ahead_by steps.now) ended bytes.now known.old }
    ensures undecided { result ≡ None → (ended ≡ false) × (S.walk steps.now condition at_line_start bytes.now ≢ None) }
    ensures decided { IfSome result (λ m. (more : List ℕ) → CanFollow ended more
        → IsMatch (S.walk steps.now condition at_line_start) (S.cut_of steps.now) (bytes.now ++ more) m) }
    ensures known { AreKnown (S.ahead_by steps.now) ended bytes.now known.new }
{
    let Some(start) = steps.start(condition, at_line_start) else {
        return Some(Match::Stuck);
    };
    let best = if known.reaches(bytes.len()) {
        best_by_known(steps, known, start, bytes, ended)
    } else {
        best_by_walk(steps, known, start, bytes, ended)
    };
    if !best.is_decided() {
        return None;
    }
    Some(match_of(steps, best.found()))
}

/// The longest match of a walk, found by walking to its end.
#[inline(always)] // as `known_match`
fn best_by_walk<S: Steps>(
    steps: &S,
    known: &mut KnownWalks,
    start: S::At,
    bytes: &[u8],
    ended: bool,
) -> Best
    requires start { IsStart (S.stands steps.now start) (S.ahead steps.now start) }
    requires known { AreKnown (S.ahead_by steps.now) ended bytes.now known.old }
    ensures undecided { decided result ≡ false → (ended ≡ false) × (S.ahead steps.now start bytes.now ≢ None) }
    ensures found { decided result ≡ true → IsFound (S.ahead steps.now start) ended bytes.now (found result) }
    ensures known { AreKnown (S.ahead_by steps.now) ended bytes.now known.new }
{
    let (passed, at) = walk_on(steps, start, bytes);
    if passed == bytes.len() && !ended {
        return Best::undecided();
    }
    if FAR <= passed && falls_short(steps, at) {
        return best_by_known(steps, known, start, bytes, ended);
    }
    // most walks end where a rule matches, so this state is checked first
    match steps.accept(at) {
        Some(rule) if 0 < passed => Best {
            length: passed,
            rule,
        },
        _ => best_passed(steps, start, bytes),
    }
}

/// Whether the token is shorter than its walk: no rule matches where the walk ends, or the rule has trailing context.
#[inline(never)] // few walks are long
fn falls_short<S: Steps>(steps: &S, at: S::At) -> bool
    requires { S.stands steps.now at }
{
    match steps.accept(at) {
        Some(rule) => steps.cut(rule) != Cut::Whole,
        None => true,
    }
}

/// The longest match of a walk, found with the cache.
#[inline(never)] // leaves the registers to the walk that goes on
fn best_by_known<S: Steps>(
    steps: &S,
    known: &mut KnownWalks,
    start: S::At,
    bytes: &[u8],
    ended: bool,
) -> Best
    requires start { IsStart (S.stands steps.now start) (S.ahead steps.now start) }
    requires known { AreKnown (S.ahead_by steps.now) ended bytes.now known.old }
    ensures undecided { decided result ≡ false → (ended ≡ false) × (S.ahead steps.now start bytes.now ≢ None) }
    ensures found { decided result ≡ true → IsFound (S.ahead steps.now start) ended bytes.now (found result) }
    ensures known { AreKnown (S.ahead_by steps.now) ended bytes.now known.new }
{
    match known.find(steps, start, bytes, ended) {
        Some(longest) => Best::of(longest),
        None => Best::undecided(),
    }
}

/// The match of the longest prefix that has a rule, if there is one.
pub(crate) fn match_of<S: Steps>(steps: &S, found: Longest) -> Match
    ensures { (walk : Walk) (text : List ℕ) → IsBest walk text (length text) found
        → IsMatch walk (S.cut_of steps.now) text result }
{
    let Some((matched, rule)) = found else {
        return Match::Stuck;
    };
    match cut_down(steps.cut(rule), matched) {
        Some(token_len) => Match::Win {
            rule,
            matched,
            token_len,
        },
        None => Match::BadCut,
    }
}

/// Walks over bytes as far as possible. Returns their number and the state after them.
pub(crate) fn walk_on<S: Steps>(steps: &S, start: S::At, bytes: &[u8]) -> (usize, S::At)
    requires stands { S.stands steps.now start }
    requires alive { is_some (S.ahead steps.now start []) ≡ true }
    ensures within { result.0 ≤ length bytes.now }
    ensures stands { S.stands steps.now result.1 }
    ensures alive { is_some (S.ahead steps.now result.1 []) ≡ true }
    ensures ahead { (text : List ℕ) → S.ahead steps.now result.1 text
        ≡ S.ahead steps.now start (take result.0 bytes.now ++ text) }
    ensures ended { result.0 < length bytes.now → S.ahead steps.now start (take (result.0 + 1) bytes.now) ≡ None }
{
    let mut at = start;
    let mut passed = 0;
    // one bounds check for four steps
    while 4 <= bytes.len() - passed {
        let Some(first) = steps.step(at, bytes[passed]) else {
            return (passed, at);
        };
        let Some(second) = steps.step(first, bytes[passed + 1]) else {
            return (passed + 1, first);
        };
        let Some(third) = steps.step(second, bytes[passed + 2]) else {
            return (passed + 2, second);
        };
        let Some(fourth) = steps.step(third, bytes[passed + 3]) else {
            return (passed + 3, third);
        };
        at = fourth;
        passed += 4;
    }
    while passed < bytes.len() {
        let Some(next) = steps.step(at, bytes[passed]) else {
            return (passed, at);
        };
        at = next;
        passed += 1;
    }
    (passed, at)
}

/// The longest match of a walk.
#[inline(never)] // leaves the registers to the walk that goes on
fn best_passed<S: Steps>(steps: &S, start: S::At, rest: &[u8]) -> Best
    requires start { IsStart (S.stands steps.now start) (S.ahead steps.now start) }
    ensures found { IsBest (S.ahead steps.now start) rest.now (length rest.now) (found result) }
    ensures decided { decided result ≡ true }
{
    Best::of(best_of_all(steps, start, rest))
}

/// The longest match of a walk, with a look at each of its states.
fn best_of_all<S: Steps>(steps: &S, start: S::At, rest: &[u8]) -> Longest
    requires start { IsStart (S.stands steps.now start) (S.ahead steps.now start) }
    ensures { IsBest (S.ahead steps.now start) rest.now (length rest.now) result }
{
    let mut at = start;
    let mut best = None;
    for (passed, byte) in rest.iter().enumerate() {
        let Some(next) = steps.step(at, *byte) else {
            return best;
        };
        at = next;
        best = better(best, passed + 1, steps.accept(at));
    }
    best
}

/// Replaces the best match by a longer one, if that has a rule.
pub(crate) fn better(best: Longest, length: usize, rule: Option<RuleNo>) -> Longest
    ensures { result ≡ better_of best length rule }
{
    match rule {
        Some(rule) => Some((length, rule)),
        None => best,
    }
}

/// The length of the token of a match.
fn cut_down(cut: Cut, length: usize) -> Option<usize>
    ensures { result ≡ token_len cut length }
{
    match cut {
        Cut::Whole => Some(length),
        Cut::Head(len) if 0 < len && len <= length => Some(len),
        Cut::Tail(len) if len < length => Some(length - len),
        Cut::Head(_) | Cut::Tail(_) => None,
    }
}

/// The length of a match and its rule, which fit into two registers. If there is no match, or it isn't decided, the
/// length is 0 and the rule is 0 or 1.
#[derive(Clone, Copy)]
struct Best {
    /// The length.
    length: usize,
    /// The rule.
    rule: RuleNo,
}

impl Best {
    /// Packs a result.
    fn of(best: Longest) -> Best
        requires { IfSome best (λ b. 0 < b.0) }
        ensures found { found result ≡ best }
        ensures decided { decided result ≡ true }
    {
        match best {
            Some((length, rule)) => Best { length, rule },
            None => Best {
                length: 0,
                rule: RuleNo(0),
            },
        }
    }

    /// Returns the value for an undecided match.
    fn undecided() -> Best
        ensures { decided result ≡ false }
    {
        Best {
            length: 0,
            rule: RuleNo(1),
        }
    }

    /// Whether the match is decided.
    fn is_decided(self) -> bool
        ensures { result ≡ decided self }
    {
        self.length != 0 || self.rule.0 == 0
    }

    /// Unpacks the result.
    fn found(self) -> Longest
        ensures { result ≡ found self }
    {
        if self.length == 0 {
            None
        } else {
            Some((self.length, self.rule))
        }
    }
}
