//! The search for a string that meets a demand: breadth first over demands, by the number of popped symbols.
ghost use Rattle.std.specs.Prelude.{◌≡◌, ◌<◌, ◌≤◌, ◌++◌, ◌∷◌, [], ℕ, None, Some, Contains, IfOk, IsErrOf, OnOk, length};
ghost use Rattle.std.specs.Prelude.{map, option_map, reverse, slice_get, true};
ghost use Rattle.ly_join.specs.Grammar.{symbol_of};
ghost use Rattle.ly_counterexamples.specs.Demands.{IsStep};
ghost use Rattle.ly_counterexamples.specs.Private.Kept.{IsKeptDemand};
ghost use Rattle.ly_counterexamples.specs.Private.Lists.{IsGround};
ghost use Rattle.ly_counterexamples.specs.Private.Met.{IsMet, IsProper};
ghost use Rattle.ly_counterexamples.specs.Private.Searches.{automaton_of, measure_of, GoesOn, HasMore};
ghost use Rattle.ly_counterexamples.specs.Private.Searches.{HasMoreThanAllowed};
ghost use Rattle.ly_counterexamples.specs.Private.Searches.{IsClimbed, IsFoundBy, IsPopped, IsSearch, IsUnderway};
ghost use Rattle.ly_counterexamples.specs.declared.claim.Demand as demands;

use crate::budget::Budget;
use crate::claim::{Claim, Demand};
use crate::found::{Found, Link};
use crate::ground::Ground;
use crate::halt::Halt;
use crate::steps::{climbs, pops};
use ly_base::{OutOfMemory, Sym};
use ly_join::Symbol;
use std::alloc::{AllocError, Global};

/// The cost of a demand that is found, in symbols looked at. The two take about the same time.
const FOUND: usize = 10;

/// What a search looks for.
#[derive(Clone, Copy)]
pub(crate) struct Sought<'a> {
    /// The automaton with its backward edges.
    pub(crate) ground: &'a Ground<'a>,
    /// The terminal of the conflict.
    pub(crate) terminal: Sym,
    /// The greatest number of demands.
    pub(crate) bound: usize,
}

/// The state of a search.
#[derive(Drop)]
pub(crate) struct Search {
    /// The demands, in the order in which they were found.
    found: Found,
    /// How each demand but the first was found.
    links: Vec<Link>,
    /// How many of the demands, from the first on, were climbed from.
    climbed: usize,
    /// How many of the demands, from the first on, were popped from.
    popped: usize,
    /// The index of the demand that the shortest string so far goes through.
    best: Option<usize>,
}

/// The shortest string that meets a demand, its first symbol first. The work is taken off the budget.
pub(crate) fn shortest(
    alloc: Global,
    sought: &Sought<'_>,
    demand: Demand,
    budget: &mut Budget,
) -> Result<Option<Vec<Symbol>>, Halt>
    requires ground { IsGround sought.now.ground.now }
    requires terminal { sought.now.terminal.0 < (automaton_of sought.now).grammar.terminals }
    requires kept { IsKeptDemand (automaton_of sought.now) demand }
    requires first { IsProper demand.first }
    requires second { IsProper demand.second }
    ensures found { IfOk result (IsFoundBy sought.now demand) }
    ensures many { IsErrOf result Halt.TooMany
        → HasMore (automaton_of sought.now) sought.now.terminal.0 sought.now.bound demand }
{
    let mut search = Search::new(alloc, sought, demand)?;
    search.finish(alloc, sought, budget)
}

impl Search {
    /// A search with its first demand.
    fn new(alloc: Global, sought: &Sought<'_>, demand: Demand) -> Result<Search, Halt>
        requires ground { IsGround sought.now.ground.now }
        requires terminal { sought.now.terminal.0 < (automaton_of sought.now).grammar.terminals }
        requires kept { IsKeptDemand (automaton_of sought.now) demand }
        ensures underway { IfOk result (IsUnderway sought.now) }
        ensures first { IfOk result (λ s. slice_get s.found 0 ≡ Some demand) }
        ensures many { IsErrOf result Halt.TooMany
            → HasMore (automaton_of sought.now) sought.now.terminal.0 sought.now.bound demand }
    {
        if sought.bound == 0 {
            return Err(Halt::TooMany);
        }
        let mut found = Found::new(alloc);
        found.push(demand)?;
        Ok(Search {
            found,
            links: Vec::new(alloc),
            climbed: 0,
            popped: 0,
            best: None,
        })
    }

    /// Searches to the end, and returns the shortest string that meets the first demand.
    fn finish(
        &mut self,
        alloc: Global,
        sought: &Sought<'_>,
        budget: &mut Budget,
    ) -> Result<Option<Vec<Symbol>>, Halt>
        requires underway { IsUnderway sought.now self.old }
        ensures found { (d : demands.Demand) → slice_get self.old.found 0 ≡ Some d → IsProper d.first
            → IsProper d.second → IfOk result (IsFoundBy sought.now d) }
        ensures many { IsErrOf result Halt.TooMany → HasMoreThanAllowed sought.now self.old }
    {
        while self.popped < self.found.len() {
            self.advance(alloc, sought, budget)?;
        }
        match self.best {
            Some(place) => Ok(Some(self.string(alloc, sought, place)?)),
            None => Ok(None),
        }
    }

    /// Climbs from the next demand. If all were climbed from, pops a symbol from the next one.
    fn advance(
        &mut self,
        alloc: Global,
        sought: &Sought<'_>,
        budget: &mut Budget,
    ) -> Result<(), Halt>
        requires underway { IsUnderway sought.now self.old }
        requires left { self.old.popped < length self.old.found }
        ensures underway { OnOk result (IsUnderway sought.now self.new) }
        ensures first { OnOk result (slice_get self.new.found 0 ≡ slice_get self.old.found 0) }
        ensures nearer { OnOk result (measure_of sought.now self.new < measure_of sought.now self.old) }
        ensures many { IsErrOf result Halt.TooMany → HasMoreThanAllowed sought.now self.old }
    {
        if self.climbed < self.found.len() {
            let place = self.climbed;
            if self.may_serve(sought, place) {
                self.climb(alloc, sought, place, budget)?;
            }
            self.climbed = place + 1;
        } else {
            let place = self.popped;
            if self.may_serve(sought, place) {
                self.pop(alloc, sought, place, budget)?;
            }
            self.popped = place + 1;
        }
        Ok(())
    }

    /// Whether a string through the demand at an index may be shorter than the shortest one so far.
    fn may_serve(&self, sought: &Sought<'_>, place: usize) -> bool
        requires underway { IsUnderway sought.now self.now }
        requires place { place < length self.now.found }
        ensures { self.now.best ≡ None → result ≡ true }
    {
        match self.best {
            Some(best) => self.length(sought, place) < self.length(sought, best),
            None => true,
        }
    }

    /// The least length of a string through the demand at an index.
    fn length(&self, sought: &Sought<'_>, place: usize) -> usize
        requires search { IsSearch sought.now self.now }
        requires place { place < length self.now.found }
    {
        let state = self.found.at(place).state.0 as usize;
        self.popped_to(place)
            .saturating_add(sought.ground.lengths[state])
    }

    /// How many symbols were popped up to the demand at an index.
    fn popped_to(&self, place: usize) -> usize {
        match place.checked_sub(1) {
            Some(before) => match self.links.get(before) {
                Some(link) => link.popped,
                None => 0,
            },
            None => 0,
        }
    }

    /// Adds the demands that the demand at an index climbs to. If it has nothing left to claim, it becomes the best
    /// one.
    fn climb(
        &mut self,
        alloc: Global,
        sought: &Sought<'_>,
        place: usize,
        budget: &mut Budget,
    ) -> Result<(), Halt>
        requires search { IsSearch sought.now self.old }
        requires place { place < length self.old.found }
        ensures on { OnOk result (GoesOn sought.now self.old self.new) }
        ensures climbs { OnOk result (IsClimbed sought.now self.old self.new place) }
        ensures climbed { self.new.climbed ≡ self.old.climbed }
        ensures popped { self.new.popped ≡ self.old.popped }
        ensures many { IsErrOf result Halt.TooMany → HasMoreThanAllowed sought.now self.old }
    {
        let demand = self.found.at(place);
        if demand.first == Claim::Settled && demand.second == Claim::Settled {
            self.best = Some(place);
            return Ok(());
        }
        let popped = self.popped_to(place);
        budget.take(sought.ground.weight(demand));
        let demands = climbs(alloc, sought.ground, sought.terminal, demand)?;
        budget.take(demands.len().saturating_mul(FOUND));
        for next in &demands {
            let link = Link {
                from: place,
                symbol: None,
                popped,
            };
            self.add(sought, *next, link)?;
        }
        Ok(())
    }

    /// Adds the demands that the demand at an index leads to by popping a symbol.
    fn pop(
        &mut self,
        alloc: Global,
        sought: &Sought<'_>,
        place: usize,
        budget: &mut Budget,
    ) -> Result<(), Halt>
        requires search { IsSearch sought.now self.old }
        requires place { place < length self.old.found }
        ensures on { OnOk result (GoesOn sought.now self.old self.new) }
        ensures pops { OnOk result (IsPopped sought.now self.old self.new place) }
        ensures climbed { self.new.climbed ≡ self.old.climbed }
        ensures popped { self.new.popped ≡ self.old.popped }
        ensures best { self.new.best ≡ self.old.best }
        ensures many { IsErrOf result Halt.TooMany → HasMoreThanAllowed sought.now self.old }
    {
        let demand = self.found.at(place);
        let popped = self.popped_to(place).saturating_add(1);
        let demands = pops(alloc, sought.ground, demand)?;
        budget.take(demands.len().saturating_mul(FOUND));
        for next in &demands {
            let link = Link {
                from: place,
                symbol: Some(next.symbol),
                popped,
            };
            self.add(sought, next.demand, link)?;
        }
        Ok(())
    }

    /// Adds a demand, unless it was found before.
    fn add(&mut self, sought: &Sought<'_>, demand: Demand, link: Link) -> Result<(), Halt>
        requires search { IsSearch sought.now self.old }
        requires step { (d : demands.Demand) × (slice_get self.old.found link.from ≡ Some d)
            × IsStep (automaton_of sought.now) sought.now.terminal.0 (option_map symbol_of link.symbol) d demand }
        requires kept { IsKeptDemand (automaton_of sought.now) demand }
        ensures on { OnOk result (GoesOn sought.now self.old self.new) }
        ensures there { OnOk result (Contains self.new.found demand) }
        ensures climbed { self.new.climbed ≡ self.old.climbed }
        ensures popped { self.new.popped ≡ self.old.popped }
        ensures best { self.new.best ≡ self.old.best }
        ensures many { IsErrOf result Halt.TooMany → HasMoreThanAllowed sought.now self.old }
    {
        if self.found.contains(&demand) {
            return Ok(());
        }
        if self.found.len() >= sought.bound {
            return Err(Halt::TooMany);
        }
        self.push(demand, link)?;
        Ok(())
    }

    /// Adds a demand, with how it was found.
    fn push(&mut self, demand: Demand, link: Link) -> Result<(), AllocError>
        requires { Contains self.old.found demand → ⊥ }
        ensures found { OnOk result (self.new.found ≡ self.old.found ++ demand ∷ []) }
        ensures links { OnOk result (self.new.links.items ≡ self.old.links.items ++ link ∷ []) }
        ensures climbed { self.new.climbed ≡ self.old.climbed }
        ensures popped { self.new.popped ≡ self.old.popped }
        ensures best { self.new.best ≡ self.old.best }
    {
        self.found.push(demand)?;
        self.links.push(link)?;
        Ok(())
    }

    /// The string through the demand at an index that has nothing left to claim: the prefix of its state, then the
    /// popped symbols.
    fn string(
        &self,
        alloc: Global,
        sought: &Sought<'_>,
        place: usize,
    ) -> Result<Vec<Symbol>, OutOfMemory>
        requires underway { IsUnderway sought.now self.now }
        requires best { self.now.best ≡ Some place }
        ensures { IfOk result (λ string. (d : demands.Demand) → slice_get self.now.found 0 ≡ Some d
            → IsMet (automaton_of sought.now) sought.now.terminal.0 (reverse (map symbol_of string.items)) d) }
    {
        let mut string = sought.ground.lr0.prefix(alloc, self.found.at(place).state)?;
        string.reverse();
        let mut place = place;
        while place > 0 {
            let link = self.links[place - 1];
            if let Some(symbol) = link.symbol {
                string.push(symbol)?;
            }
            place = link.from;
        }
        Ok(string)
    }
}
