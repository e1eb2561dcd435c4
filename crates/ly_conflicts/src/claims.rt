//! The claims that are visited on the way from an action back to the start. Each is about a prefix of one string.
use indexmap::{IndexMap, IndexSet};
use ly_analysis::{Cores, behind_dot};
use ly_base::{OutOfMemory, StateNo, Sym};
use ly_counterexamples::Claim;
use ly_join::Symbol;
use ly_lr0::Item;
use std::alloc::{AllocError, Global};

/// The greatest number of claims that are visited to find how an action arises.
pub(crate) const MOST: usize = 50_000;

/// The greatest number of items of states that are visited for that.
const MOST_ITEMS: usize = 5_000_000;

/// A claim about a prefix of the string.
#[derive(Clone, Copy, PartialEq, Eq, Hash)]
pub(crate) struct Claimed {
    /// The number of symbols in the prefix.
    pub(crate) length: usize,
    /// The claim.
    pub(crate) claim: Claim,
}

/// A rule that begins at the end of a prefix of the string.
#[derive(Clone, Copy, PartialEq, Eq, Hash)]
pub(crate) struct Opening {
    /// The number of symbols in the prefix.
    pub(crate) length: usize,
    /// The left side of the rule.
    pub(crate) left: Sym,
    /// Whether it is claimed with any terminal as lookahead.
    pub(crate) in_core: bool,
}

/// The claims found on the way back to the start.
#[derive(Drop)]
pub(crate) struct Search {
    /// Each claim, with the index of the claim that it implies.
    pub(crate) found: IndexMap<Claimed, usize>,
    /// The openings of the claims that were visited.
    opened: IndexSet<Opening>,
    /// The core that was used last.
    last: Option<Core>,
    /// The number of items of states that were visited.
    items: usize,
}

/// The items of a state with the dot before a nonterminal.
#[derive(Drop)]
struct Core {
    /// The state.
    state: StateNo,
    /// The number of all items of the state.
    count: usize,
    /// The nonterminals.
    lefts: IndexSet<u32>,
    /// For each nonterminal the items with the dot before it, in the order in which they were found.
    waiting: Vec<Vec<Item>>,
}

impl Core {
    /// Computes the core of a state.
    fn of(alloc: Global, cores: &Cores<'_>, state: StateNo) -> Result<Core, AllocError> {
        let grammar = cores.lr0().reduced().grammar();
        let items = cores.items(alloc, state)?;
        let mut core = Core {
            state,
            count: items.len(),
            lefts: IndexSet::new(alloc),
            waiting: Vec::new(alloc),
        };
        for item in &items {
            if let Some(Symbol::Nonterminal(left)) = behind_dot(grammar, *item) {
                core.add(alloc, left, *item)?;
            }
        }
        Ok(core)
    }

    /// Adds an item with the dot before a nonterminal.
    fn add(&mut self, alloc: Global, left: Sym, item: Item) -> Result<(), AllocError> {
        if self.lefts.insert(left.0)? {
            self.waiting.push(Vec::new(alloc))?;
        }
        if let Some(place) = self.lefts.get_index_of(&left.0)
            && let Some(items) = self.waiting.get_mut(place)
        {
            items.push(item)?;
        }
        Ok(())
    }

    /// The items with the dot before a nonterminal.
    fn waiting(&self, left: Sym) -> &[Item] {
        match self.lefts.get_index_of(&left.0) {
            Some(place) => match self.waiting.get(place) {
                Some(items) => items,
                None => &[],
            },
            None => &[],
        }
    }
}

impl Search {
    /// Returns a search that has found nothing.
    pub(crate) fn new(alloc: Global) -> Search {
        Search {
            found: IndexMap::new(alloc),
            opened: IndexSet::new(alloc),
            last: None,
            items: 0,
        }
    }

    /// The claim at an index. `None` if there are so many that the search ends.
    pub(crate) fn claimed(&self, place: usize) -> Option<Claimed> {
        if self.found.len() > MOST || self.items > MOST_ITEMS {
            return None;
        }
        let (claimed, _) = self.found.get_index(place)?;
        Some(*claimed)
    }

    /// The items of a state with the dot before a nonterminal. The core of the last state is cached, since claims about
    /// one prefix mostly follow one another.
    pub(crate) fn waiting(
        &mut self,
        alloc: Global,
        cores: &Cores<'_>,
        state: StateNo,
        left: Sym,
    ) -> Result<&[Item], AllocError> {
        let known = match &self.last {
            Some(core) => core.state == state,
            None => false,
        };
        if !known {
            let core = Core::of(alloc, cores, state)?;
            self.items = self.items.saturating_add(core.count);
            self.last = Some(core);
        }
        match &self.last {
            Some(core) => Ok(core.waiting(left)),
            None => Ok(&[]),
        }
    }

    /// Whether a claim depends on an opening that was visited before. A new opening is recorded.
    pub(crate) fn opens_again(&mut self, opening: Option<Opening>) -> Result<bool, AllocError> {
        let Some(opening) = opening else {
            return Ok(false);
        };
        let again = self.opened.contains(&opening);
        if !again {
            self.opened.insert(opening)?;
        }
        Ok(again)
    }

    /// Adds claims that imply the one at `place`, up to the one about the start. Returns whether that is a new one
    /// among them.
    pub(crate) fn has_start(
        &mut self,
        claims: &[Claimed],
        place: usize,
    ) -> Result<bool, AllocError> {
        for before in claims {
            if self.found.contains_key(before) {
                continue;
            }
            self.found.insert(*before, place)?;
            if before.is_start() {
                return Ok(true);
            }
        }
        Ok(false)
    }

    /// The items of the claims from the last one back to the first. Each was found from the next.
    pub(crate) fn way_back(&self, alloc: Global) -> Result<Vec<Item>, OutOfMemory> {
        let mut way = Vec::new(alloc);
        let mut place = self.found.len().saturating_sub(1);
        for _ in 0..self.found.len() {
            let Some((claimed, from)) = self.found.get_index(place) else {
                break;
            };
            if let Some(item) = item_of(claimed.claim) {
                way.push(item)?;
            }
            if place == 0 {
                break;
            }
            place = *from;
        }
        Ok(way)
    }
}

impl Claimed {
    /// Whether it is the claim about the start, which always holds.
    pub(crate) fn is_start(&self) -> bool {
        self.length == 0 && self.claim == Claim::InCore(Item { rule: 0, dot: 0 })
    }
}

/// The item of a claim, if it has one.
pub(crate) fn item_of(claim: Claim) -> Option<Item> {
    match claim {
        Claim::Settled => None,
        Claim::InCore(item) | Claim::With(item) => Some(item),
    }
}

/// The claim of the same kind on another item.
pub(crate) fn with_item(claim: Claim, item: Item) -> Claim {
    match claim {
        Claim::Settled => Claim::Settled,
        Claim::InCore(_) => Claim::InCore(item),
        Claim::With(_) => Claim::With(item),
    }
}
