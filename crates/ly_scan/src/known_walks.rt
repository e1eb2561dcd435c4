ghost use Rattle.std.specs.Prelude.{◌≡◌, ◌≢◌, ◌≤◌, ◌-◌, ℕ, List, [], Bool, All, IfSome, length};
ghost use Rattle.std.specs.Prelude.{MatchOption, None, false, option_copied};
ghost use Rattle.ly_scan.specs.KnownWalks.{known_at, last, AreKnown, IsFound};
ghost use Rattle.ly_scan.specs.Private.KnownWalks.{from_passed, joined, HasStood};
ghost use Rattle.ly_scan.specs.Walk.{IsStart, Walk};

use crate::matching::{Match, better, match_of};
use crate::steps::Steps;
use ly_base::RuleNo;
use std::alloc::Global;
use std::collections::HashMap;
use std::marker::Model;

/// A point of a walk: the number of its state, and the number of bytes of the text that were left.
type Stand = (usize, usize);

/// The length of the longest match and its rule, if there is one.
pub(crate) type Longest = Option<(usize, RuleNo)>;

/// Matches are cached only for points with a multiple of this many bytes left.
const STRIDE: usize = 16;

/// A walk records a point each time its length has grown by 1 / `PART`. So it records few points. A walk that starts a
/// few bytes later meets one of them before it has gone 1 / `PART` of those bytes.
const PART: usize = 4;

/// The number of matches that are cached before one of them has to be hit.
const TRUST: usize = 1 << 18;

/// The number of further matches that may be cached for each hit.
const PAY: usize = 64;

/// The greatest number of cached matches, in addition to one for each `STRIDE` bytes that are left.
const MOST: usize = 1 << 19;

/// The number of cached matches at which those that can't be hit any more are first dropped.
const FULL: usize = 1 << 10;

/// A cache of the longest matches in one text, by the points that walks have passed. A walk stops when it meets a
/// cached point. So scanning takes linear time, even if long walks fail again and again (Reps 1998). The size of the
/// cache is bounded by the text, and it stays small if nothing is hit.
///
/// If memory runs out, the cache is cleared, and the matches found are the same.
#[derive(Drop)]
pub struct KnownWalks {
    /// For each cached point the longest match from there.
    found: HashMap<Stand, Longest>,
    /// The points of the last walk.
    trail: Vec<Stand>,
    /// The number of bytes left at the last cached point, or the greatest number if nothing is cached.
    reach: usize,
    /// The number of matches that may still be cached.
    credit: usize,
    /// The number of cached matches at which those that can't be hit any more are dropped.
    full: usize,
}

impl Model for KnownWalks {
    ghost use Rattle.ly_scan.specs.KnownWalks.{Known};

    ghost Value = { Known };

    ghost view = { λ k. k.found.entries };
}

impl KnownWalks {
    /// Returns an empty cache.
    pub fn new(alloc: Global) -> KnownWalks
        ensures { (ahead : ℕ → Walk) (ended : Bool) (text : List ℕ) → AreKnown ahead ended text result }
    {
        KnownWalks {
            found: HashMap::new(alloc),
            trail: Vec::new(alloc),
            reach: usize::MAX,
            credit: TRUST,
            full: FULL,
        }
    }

    /// Whether matches are cached for points after this many bytes left.
    #[inline(always)]
    pub fn reaches(&self, left: usize) -> bool {
        self.reach < left
    }

    /// Finds the longest match of one or more bytes from a start. The walk stops when it meets a cached point. `ended`
    /// is whether the text ends after these bytes. Returns `None` if the bytes don't decide the match.
    pub(crate) fn find<S: Steps>(
        &mut self,
        steps: &S,
        start: S::At,
        bytes: &[u8],
        ended: bool,
    ) -> Option<Longest>
        requires start { IsStart (S.stands steps.now start) (S.ahead steps.now start) }
        requires known { AreKnown (S.ahead_by steps.now) ended bytes.now self.old }
        ensures found { MatchOption result ((ended ≡ false) × (S.ahead steps.now start bytes.now ≢ None))
            (IsFound (S.ahead steps.now start) ended bytes.now) }
        ensures known { AreKnown (S.ahead_by steps.now) ended bytes.now self.new }
    {
        self.trail.clear();
        if bytes.len() <= self.reach {
            // all cached points were passed, so none can be hit any more
            self.found.clear();
            self.reach = usize::MAX;
        }
        let mut met = false;
        let longest = walk_on_known(
            steps,
            &self.found,
            &mut self.trail,
            &mut met,
            start,
            bytes,
            ended,
        )?;
        self.full = give_up_passed(&mut self.found, self.full, bytes.len());
        let most = room_for(&self.found, self.credit, bytes.len());
        let kept = self.trail.len().min(most);
        let taken = taken_by(steps, longest, bytes.len());
        let last = keep(
            &mut self.found,
            &self.trail[..kept],
            bytes.len(),
            taken,
            longest,
        );
        self.credit = credit_behind(self.credit, kept, met);
        self.reach = self.reach.min(last);
        Some(longest)
    }
}

/// Once `full` matches are cached, drops those of points that were passed, which can't be hit any more. Returns the
/// size at which to do so next: by then as many are added as are visited.
fn give_up_passed(found: &mut HashMap<Stand, Longest>, full: usize, left: usize) -> usize
    ensures { (ahead : ℕ → Walk) (ended : Bool) (text : List ℕ) → AreKnown ahead ended text found.old.entries
        → AreKnown ahead ended text found.new.entries }
{
    if found.len() < full {
        return full;
    }
    found.retain(|stand, _| stand.1 <= left);
    found.len().saturating_mul(2).max(FULL)
}

/// The number of matches that may still be cached with this credit and this many bytes left. It is at least one for
/// each walk, unless the cache has its greatest size.
fn room_for(found: &HashMap<Stand, Longest>, credit: usize, left: usize) -> usize {
    if MOST + left / STRIDE <= found.len() {
        return 0;
    }
    credit.max(1)
}

/// The credit after a walk that cached `kept` matches, and hit one or none.
fn credit_behind(credit: usize, kept: usize, met: bool) -> usize {
    let left = credit.saturating_sub(kept);
    if met { left.saturating_add(PAY) } else { left }
}

/// The number of bytes taken if this is the longest match. Without a match it is all bytes, since scanning ends there.
fn taken_by<S: Steps>(steps: &S, longest: Longest, bytes: usize) -> usize {
    match match_of(steps, longest) {
        Match::Win { token_len, .. } => token_len,
        Match::BadCut | Match::Stuck => bytes,
    }
}

/// Walks from a start to a cached point, or until the walk ends, and returns the longest match. `trail` becomes the
/// points on the way, and `met` whether a cached one was reached.
fn walk_on_known<S: Steps>(
    steps: &S,
    found: &HashMap<Stand, Longest>,
    trail: &mut Vec<Stand>,
    met: &mut bool,
    start: S::At,
    bytes: &[u8],
    ended: bool,
) -> Option<Longest>
    requires start { IsStart (S.stands steps.now start) (S.ahead steps.now start) }
    requires known { AreKnown (S.ahead_by steps.now) ended bytes.now found.now.entries }
    requires no_trail { trail.old.items ≡ [] }
    ensures found { MatchOption result ((ended ≡ false) × (S.ahead steps.now start bytes.now ≢ None))
        (IsFound (S.ahead steps.now start) ended bytes.now) }
    ensures trail { All (HasStood (S.ahead steps.now start) (S.ahead_by steps.now) bytes.now) trail.new.items }
{
    let mut at = start;
    let mut longest = None;
    let mut noted = 0;
    for (count, byte) in bytes.iter().enumerate() {
        let Some(next) = steps.step(at, *byte) else {
            return Some(longest);
        };
        at = next;
        let passed = count + 1;
        longest = better(longest, passed, steps.accept(at));
        let left = bytes.len() - passed;
        if left % STRIDE == 0 {
            let stand = (steps.number(at), left);
            if let Some(ahead) = known_at(found, stand) {
                *met = true;
                return Some(joined(longest, bytes.len(), left, *ahead));
            }
            noted = note(trail, stand, passed, noted);
        }
    }
    if ended { Some(longest) } else { None }
}

/// The cached match from a point.
#[inline(never)] // leaves the registers to the walk
fn known_at(found: &HashMap<Stand, Longest>, stand: Stand) -> Option<&Longest>
    ensures { option_copied result ≡ known_at found.now.entries stand }
{
    found.get(&stand)
}

/// Records a point in the trail if the walk is long enough. Returns the length at which to do so next. If the
/// allocation fails, the point isn't recorded, and a later walk will pass it again.
#[inline(never)] // likewise
fn note(trail: &mut Vec<Stand>, stand: Stand, passed: usize, noted: usize) -> usize
    ensures { (walk : Walk) (ahead : ℕ → Walk) (text : List ℕ) → HasStood walk ahead text stand
        → All (HasStood walk ahead text) trail.old.items → All (HasStood walk ahead text) trail.new.items }
{
    if passed < noted {
        return noted;
    }
    let _ = trail.push(stand);
    passed.saturating_add(passed / PART)
}

/// The longest match of a walk, given that of its bytes so far and that of the bytes left.
fn joined(longest: Longest, bytes: usize, left: usize, ahead: Longest) -> Longest
    requires left { left ≤ bytes }
    requires ahead { IfSome ahead (λ m. m.0 ≤ left) }
    ensures { result ≡ joined longest (bytes - left) ahead }
{
    match ahead {
        Some((length, rule)) => Some((bytes - (left - length), rule)),
        None => longest,
    }
}

/// The longest match from a point that the walk has passed.
fn from_passed(longest: Longest, passed: usize) -> Longest
    ensures { result ≡ from_passed longest passed }
{
    match longest {
        Some((length, rule)) if passed < length => Some((length - passed, rule)),
        _ => None,
    }
}

/// Caches the longest match for the points of a walk over this many bytes, wherever a match may still begin. Returns
/// the number of bytes left at the last of them.
fn keep(
    found: &mut HashMap<Stand, Longest>,
    trail: &[Stand],
    bytes: usize,
    taken: usize,
    longest: Longest,
) -> usize
    ensures { (walk : Walk) (ahead : ℕ → Walk) (ended : Bool) (text : List ℕ) → bytes ≡ length text
        → IsFound walk ended text longest → All (HasStood walk ahead text) trail.now
        → AreKnown ahead ended text found.old.entries → AreKnown ahead ended text found.new.entries }
{
    make_room(found, trail.len());
    let mut last = usize::MAX;
    for stand in trail {
        let passed = bytes.saturating_sub(stand.1);
        if taken <= passed {
            keep_one(found, *stand, from_passed(longest, passed));
            last = stand.1;
        }
    }
    last
}

/// Reserves capacity for this many matches. If the allocation fails, the cache is cleared.
fn make_room(found: &mut HashMap<Stand, Longest>, count: usize)
    ensures { (ahead : ℕ → Walk) (ended : Bool) (text : List ℕ) → AreKnown ahead ended text found.old.entries
        → AreKnown ahead ended text found.new.entries }
{
    if found.reserve(count).is_err() {
        found.clear();
    }
}

/// Caches one match. If the allocation fails, the rest of the cache is cleared.
fn keep_one(found: &mut HashMap<Stand, Longest>, stand: Stand, longest: Longest)
    ensures { (ahead : ℕ → Walk) (ended : Bool) (text : List ℕ)
        → IsFound (ahead stand.0) ended (last stand.1 text) longest
        → AreKnown ahead ended text found.old.entries → AreKnown ahead ended text found.new.entries }
{
    if found.insert(stand, longest).is_err() {
        found.clear();
    }
}
