ghost use Rattle.std.specs.Prelude.{◌≡◌, ◌<◌, IfOk, length, map, option_and_then, option_map, slice_get, slice_index};
ghost use Rattle.ly_listing.specs.Labels.{begin_by, fact_of, label_at, labelling, place_at};

use ly_base::{OutOfMemory, RuleNo};
use ly_print::Label;
use std::alloc::Global;

/// The number for tokens that aren't printed: they have no label.
pub const NOTHING: u32 = 1;

/// The number for tokens whose label is that of their first byte. Greater numbers are indices into the labels.
pub const FIRST_BYTE: u32 = 2;

/// What a listing knows of a rule.
#[derive(Clone, Copy, Debug, PartialEq, Eq)]
pub struct RuleLabel {
    /// The number of the label of the rule's tokens.
    pub number: u32,
    /// The condition that the rule sets, if any.
    pub begin: Option<u32>,
}

/// What is printed before the text of each token. The labels are made once, so printing a line is two copies.
#[derive(Drop)]
pub struct RuleLabels {
    /// The labels: first those of the 256 bytes, then those of the tokens that the rules name.
    pub labels: Vec<Label>,
    /// The rules.
    pub rules: Vec<RuleLabel>,
}

impl RuleLabels {
    /// The label of a rule's token, or `None` if the token isn't printed.
    pub(crate) fn get(&self, rule: RuleNo, token: &[u8]) -> Option<&Label>
        requires { 0 < length token.now }
        ensures { option_map (λ l. l.now) result ≡ labelling self.now rule.0 token.now }
    {
        self.numbered(self.rules.get(rule.0 as usize)?.number, token[0])
    }

    /// The index of the label of a rule's token, or `None` if the token isn't printed.
    pub(crate) fn place(&self, rule: RuleNo, token: &[u8]) -> Option<usize>
        requires { 0 < length token.now }
        ensures { labelling self.now rule.0 token.now ≡ option_and_then (slice_get self.now.labels.items) result }
    {
        place_of(self.rules.get(rule.0 as usize)?.number, token[0])
    }

    /// The label with a number, for a token that begins with this byte.
    #[inline(always)]
    pub(crate) fn numbered(&self, number: u32, first: u8) -> Option<&Label>
        ensures { option_map (λ l. l.now) result ≡ label_at self.now.labels.items number first }
    {
        self.labels.get(place_of(number, first)?)
    }

    /// The condition that a rule sets, if any.
    pub(crate) fn begin(&self, rule: RuleNo) -> Option<u32>
        ensures { result ≡ begin_by self.now rule.0 }
    {
        self.rules.get(rule.0 as usize)?.begin
    }

    /// The fact of each rule: its label's number if it sets no condition, else 0. Fails if memory runs out.
    pub(crate) fn facts(&self, alloc: Global) -> Result<Vec<u32>, OutOfMemory>
        ensures { IfOk result (λ facts. facts.items ≡ map fact_of self.now.rules.items) }
    {
        Ok(self.rules.iter().map(fact_of).collect(alloc)?)
    }
}

/// The index of the label with a number, for a token that begins with this byte. `None` if the token isn't printed.
#[inline(always)]
pub(crate) fn place_of(number: u32, first: u8) -> Option<usize>
    ensures { result ≡ place_at number first }
{
    if number <= NOTHING {
        return None;
    }
    Some(if number == FIRST_BYTE {
        usize::from(first)
    } else {
        number as usize
    })
}

/// The fact of a rule: its label's number if it sets no condition, else 0.
fn fact_of(rule: &RuleLabel) -> u32
    ensures { result ≡ fact_of rule.now }
{
    match rule.begin {
        None => rule.number,
        Some(_) => 0,
    }
}
