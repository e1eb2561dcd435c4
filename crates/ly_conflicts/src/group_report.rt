//! The data of a group of conflicts that is reported.
use crate::ambiguity::Ambiguity;
use crate::ways::Ways;
use crate::yields::Derived;
use ly_analysis::Prefix;
use ly_base::Sym;
use ly_join::Symbol;
use ly_resolve::Conflict;

/// The data of a group of conflicts.
#[derive(Drop)]
pub(crate) struct GroupReport<'g> {
    /// The first conflict. The others differ from it only in the terminal.
    pub(crate) conflict: Conflict,
    /// The terminals of all conflicts.
    pub(crate) terminals: Vec<Sym>,
    /// The string that leads to their state.
    pub(crate) prefix: Prefix,
    /// How they arise, as far as it is known.
    pub(crate) shown: Shown<'g>,
    /// A sentence of another conflict of the group, if none was found for the first.
    pub(crate) other: Option<OtherSentence>,
}

/// A sentence of a conflict that isn't the first of its group.
#[derive(Drop)]
pub(crate) struct OtherSentence {
    /// The conflict.
    pub(crate) conflict: Conflict,
    /// The sentence, with two trees that take both actions of the conflict.
    pub(crate) found: Ambiguity,
}

/// How a conflict arises, as far as it is known.
#[derive(Drop)]
pub(crate) enum Shown<'g> {
    /// Unknown, since no search was made.
    Unsought,
    /// Both actions are possible after a string.
    At(Spot<'g>),
    /// Only the merging of states makes the conflict. The paths to each action are after strings of their own, if they
    /// were found.
    Merged(Option<Ways>),
    /// No string was found. There may be a sentence with two trees.
    Unknown(Option<Ambiguity>),
}

/// A string after which both actions of a conflict are possible.
#[derive(Drop)]
pub(crate) struct Spot<'g> {
    /// The string.
    pub(crate) string: &'g [Symbol],
    /// Its shortest tokens.
    pub(crate) derived: Derived,
    /// Whether the parser reaches the conflict on these tokens, as far as they are known.
    pub(crate) is_met: bool,
    /// How both actions arise.
    pub(crate) readings: Readings,
}

/// How both actions of a conflict arise after a string.
#[derive(Drop)]
pub(crate) enum Readings {
    /// From two equal rules.
    Same,
    /// By these paths, and perhaps with a sentence that has two trees.
    Ways(Ways, Option<Ambiguity>),
}

impl Shown<'_> {
    /// Whether a sentence with two trees was searched, and none was found.
    pub(crate) fn lacks_sentence(&self) -> bool {
        match self {
            Shown::Unsought | Shown::Merged(_) => false,
            Shown::Unknown(found) => found.is_none(),
            Shown::At(spot) => matches!(spot.readings, Readings::Ways(_, None)),
        }
    }
}
