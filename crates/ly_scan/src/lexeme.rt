ghost use Rattle.std.specs.Prelude.{◌≡◌, ℕ, false, IfErr, IfOk, MatchOption};
ghost use Rattle.ly_scan.specs.KnownWalks.{AreKnown};
ghost use Rattle.ly_scan.specs.Lexer.{Scanner};
ghost use Rattle.ly_scan.specs.Pieces.{EndIsDecided, IsUndecided, IsDecided};

use crate::known_walks::KnownWalks;
use crate::matching::{Match, known_match};
use crate::steps::Steps;
use ly_base::{End, Lexeme, Place};

/// Returns the lexeme at a place: the longest match there, its rule, and the token that the rule's cut leaves. Or
/// returns how scanning ends there. `ended` is whether the text ends after these bytes. If not, the result holds
/// whatever bytes follow, and is `None` if they may change it. Uses and extends the cache of walks over these bytes.
#[inline(always)] // as `known_match`
pub fn next_lexeme<S: Steps>(
    steps: &S,
    place: &Place<'_>,
    known: &mut KnownWalks,
    ended: bool,
) -> Result<Option<Lexeme>, End>
    requires known { AreKnown (S.ahead_by steps.now) ended place.now.rest known.old }
    ensures found { let s : Scanner = record { walk = S.walk steps.now; cut = S.cut_of steps.now } in
        IfOk result (λ o. MatchOption o ((ended ≡ false) × IsUndecided s place.now) (IsDecided ended s place.now)) }
    ensures end { let s : Scanner = record { walk = S.walk steps.now; cut = S.cut_of steps.now } in
        IfErr result (EndIsDecided ended s place.now) }
    ensures known { AreKnown (S.ahead_by steps.now) ended place.now.rest known.new }
{
    let rest = place.rest();
    if rest.is_empty() {
        return if ended { Err(End::Clean) } else { Ok(None) };
    }
    let line = line_at(steps, place);
    let Some(found) = known_match(steps, known, place.condition(), line, rest, ended) else {
        return Ok(None);
    };
    match found {
        Match::Win {
            rule,
            matched,
            token_len,
        } => Ok(Some(Lexeme {
            rule,
            matched,
            taken: token_len,
        })),
        Match::BadCut => Err(End::BadCut { byte: place.at() }),
        Match::Stuck => Err(End::Stuck { byte: place.at() }),
    }
}

/// Whether a line begins at a place, if the walk depends on it. Otherwise the previous byte isn't looked at.
#[inline(always)]
pub(crate) fn line_at<S: Steps>(steps: &S, place: &Place<'_>) -> bool
    ensures { (condition : ℕ) → S.walk steps.now condition result ≡ S.walk steps.now condition place.now.line }
{
    steps.minds_lines() && place.at_line_start()
}
