//! Searches for an ambiguous sentence: a sentence with two trees that take the two actions of a conflict. The search
//! goes outwards from the conflict point (in the manner of Isradisaikul and Myers 2015). Two partial parses advance
//! over the same tokens and get enclosing rules, until both derive the same nonterminal from the same tokens. The
//! search isn't proved. `ly_counterexamples` checks each sentence before it is printed.
ghost use Rattle.std.specs.Prelude.{◌≡◌, IfOk};
ghost use Rattle.ly_resolve.specs.Values.{conflict_from, IsInside};
ghost use Rattle.ly_conflicts.specs.GroupReport.{IsFoundIn};

use crate::growing::Search;
use crate::pair::{Pair, beginning};
use crate::reading::Reading;
use crate::waiting::states_before;
use crate::ways::Ways;
use crate::yields::{Derived, Yields};
use ly_analysis::{Cores, behind_dot, body_of};
use ly_base::{OutOfMemory, StateNo, Sym};
use ly_counterexamples::{Budget, Examples};
use ly_join::{Grammar, Symbol};
use ly_lr0::{Item, Lr0};
use ly_resolve::{Action, Conflict, ConflictKind};
use std::alloc::{AllocError, Global};

/// The greatest number of pairs of parses of whole texts that are visited for a conflict.
const MOST_WHOLE: usize = 2_000;

/// The greatest number of other pairs of parses that are visited for a conflict.
pub(crate) const MOST: usize = 6_000;

/// The greatest number of steps for all sentences together. A step is something that is visited or copied; a pair and a
/// derived symbol take some more.
const STEPS: usize = 1_000_000_000;

/// A sentence with two trees.
#[derive(Drop)]
pub(crate) struct Ambiguity {
    /// The tokens.
    pub(crate) sentence: Vec<Sym>,
    /// The rules of the first tree in preorder.
    pub(crate) one: Vec<usize>,
    /// The rules of the second tree in preorder.
    pub(crate) other: Vec<usize>,
}

/// The data for the search.
#[derive(Drop)]
pub(crate) struct Finder<'a> {
    /// The conflicts, the predecessors of states, and the items with the dot before each nonterminal.
    pub(crate) examples: &'a Examples<'a>,
    /// The automaton, which has the rules of each nonterminal.
    pub(crate) lr0: &'a Lr0<'a>,
    /// The items of its states.
    pub(crate) cores: &'a Cores<'a>,
    /// The grammar.
    pub(crate) grammar: &'a Grammar,
    /// The shortest token strings of nonterminals.
    pub(crate) yields: &'a Yields,
    /// The number of steps that are left.
    steps: usize,
    /// The budget that is left for searches for counterexamples.
    pub(crate) budget: Budget,
}

impl<'a> Finder<'a> {
    /// Prepares the search for a grammar with conflicts.
    pub(crate) fn new(
        examples: &'a Examples<'a>,
        cores: &'a Cores<'a>,
        yields: &'a Yields,
        budget: Budget,
    ) -> Finder<'a>
        ensures { result.examples.now ≡ examples.now }
    {
        Finder {
            examples,
            lr0: cores.lr0(),
            cores,
            grammar: examples.resolved().spec().grammar(),
            yields,
            steps: STEPS,
            budget,
        }
    }

    /// Searches for a sentence with two trees that take the two actions of a conflict. First both derivations after a
    /// common string, from the start symbol on, are completed. If that fails, the search goes outwards from the
    /// conflict.
    pub(crate) fn find(
        &mut self,
        alloc: Global,
        conflict: &Conflict,
        at: Option<(&[Symbol], &Ways)>,
    ) -> Result<Option<Ambiguity>, OutOfMemory>
        requires { IsInside self.old.examples.now.automaton conflict.now }
        ensures found { IfOk result (IsFoundIn self.old.examples.now
            (conflict_from self.old.examples.now.automaton conflict.now)) }
        ensures stays { self.new.examples ≡ self.old.examples }
    {
        if let Some((string, ways)) = at {
            let mut search = Search::new(alloc, conflict, self.steps)?;
            self.begin_whole(alloc, &mut search, conflict, string, ways)?;
            let found = self.search(alloc, conflict, &mut search, MOST_WHOLE)?;
            self.steps = search.steps;
            if found.is_some() {
                return Ok(found);
            }
        }
        self.find_outwards(alloc, conflict, MOST)
    }

    /// Searches outwards from a conflict for a sentence with two trees that take its two actions, over at most this
    /// many pairs.
    pub(crate) fn find_outwards(
        &mut self,
        alloc: Global,
        conflict: &Conflict,
        most: usize,
    ) -> Result<Option<Ambiguity>, OutOfMemory>
        requires { IsInside self.old.examples.now.automaton conflict.now }
        ensures found { IfOk result (IsFoundIn self.old.examples.now
            (conflict_from self.old.examples.now.automaton conflict.now)) }
        ensures stays { self.new.examples ≡ self.old.examples }
    {
        let mut search = Search::new(alloc, conflict, self.steps)?;
        self.begin(alloc, &mut search, conflict)?;
        let found = self.search(alloc, conflict, &mut search, most)?;
        self.steps = search.steps;
        Ok(found)
    }

    /// Continues a search for a sentence of a conflict, over at most this many pairs.
    fn search(
        &self,
        alloc: Global,
        conflict: &Conflict,
        search: &mut Search,
        most: usize,
    ) -> Result<Option<Ambiguity>, OutOfMemory>
        requires { IsInside self.now.examples.now.automaton conflict.now }
        ensures { IfOk result (IsFoundIn self.now.examples.now
            (conflict_from self.now.examples.now.automaton conflict.now)) }
    {
        for _ in 0..most {
            let Some(pair) = search.next() else {
                break;
            };
            if let Some(found) = self.look_at(alloc, conflict, search, pair)? {
                return Ok(Some(found));
            }
        }
        Ok(None)
    }

    /// Adds the pair of parses of whole texts that begins with two paths for the same string.
    fn begin_whole(
        &self,
        alloc: Global,
        search: &mut Search,
        conflict: &Conflict,
        string: &[Symbol],
        ways: &Ways,
    ) -> Result<(), OutOfMemory> {
        let mut string = Vec::from_slice(alloc, string)?;
        string.reverse();
        let mut states = Vec::new(alloc);
        states.push(StateNo(0))?;
        let passed = string.len();
        let pair = Pair {
            one: Reading::of_way(alloc, self.grammar, &ways.one, passed)?,
            other: Reading::of_way(alloc, self.grammar, &ways.other, passed)?,
            string,
            states,
            pending: conflict.kind == ConflictKind::ReduceReduce,
            read: 0,
            taken: 0,
        };
        Ok(search.push(self.yields, pair)?)
    }

    /// Adds the initial pairs of a search.
    fn begin(
        &self,
        alloc: Global,
        search: &mut Search,
        conflict: &Conflict,
    ) -> Result<(), OutOfMemory> {
        let other = self.complete(conflict.rule.0 as usize);
        if let (ConflictKind::ReduceReduce, Action::Reduce(rule)) = (
            conflict.kind,
            conflict.choice,
        ) {
            let one = self.complete(rule.0 as usize);
            return Ok(self.begin_with(alloc, search, conflict.state, one, other)?);
        }
        let ahead = Some(Symbol::Terminal(conflict.terminal));
        for item in &self.cores.items(alloc, conflict.state)? {
            if behind_dot(self.grammar, *item) == ahead {
                self.begin_with(alloc, search, conflict.state, *item, other)?;
            }
        }
        Ok(())
    }

    /// The item of a rule with its dot at the end.
    fn complete(&self, rule: usize) -> Item {
        let dot = body_of(self.grammar, rule).len();
        Item { rule, dot }
    }

    /// Adds the initial pair with these two items of the state.
    fn begin_with(
        &self,
        alloc: Global,
        search: &mut Search,
        state: StateNo,
        one: Item,
        other: Item,
    ) -> Result<(), AllocError> {
        let (longer, _) = if one.dot > other.dot {
            (one, other)
        } else {
            (other, one)
        };
        let mut string = Vec::new(alloc);
        let mut states = Vec::new(alloc);
        states.push(state)?;
        for symbol in body_of(self.grammar, longer.rule)
            .iter()
            .take(longer.dot)
            .rev()
        {
            string.push(*symbol)?;
            states = states_before(alloc, self.examples, &states, *symbol)?;
        }
        let states = beginning(alloc, self.lr0, &states, longer.rule)?;
        let one = Reading::of(alloc, self.grammar, one)?;
        let other = Reading::of(alloc, self.grammar, other)?;
        let pair = Pair {
            pending: one.ahead.is_empty(),
            one,
            other,
            string,
            states,
            read: 0,
            taken: 0,
        };
        search.push(self.yields, pair)
    }
}
