//! How a pair of partial parses grows: forward over the next symbols, and outwards by enclosing rules.
ghost use Rattle.std.specs.Prelude.{IfOk};
ghost use Rattle.ly_resolve.specs.Values.{conflict_from, IsInside};
ghost use Rattle.ly_conflicts.specs.GroupReport.{IsFoundIn};

use crate::ambiguity::{Ambiguity, Finder};
use crate::pair::{Pair, Which};
use crate::queue::Queue;
use crate::reading::LONGEST;
use crate::waiting::waiting;
use crate::yields::{Derived, Yields};
use indexmap::IndexSet;
use ly_analysis::{body_of, rest_of};
use ly_base::{OutOfMemory, Sym};
use ly_join::Symbol;
use ly_resolve::Conflict;
use std::alloc::{AllocError, Global};

/// Where two parses stop advancing together.
#[derive(Clone, Copy)]
enum Course {
    /// One of them has to expand a nonterminal.
    Open,
    /// One of them has no symbols ahead.
    Ended,
    /// They can't read the same tokens.
    Parted,
}

/// The number of steps that a pair takes in addition to its size.
const PAIR: usize = 50;

/// The number of steps that a derived symbol takes.
const DERIVED: usize = 50;

/// A search for a sentence.
#[derive(Drop)]
pub(crate) struct Search {
    /// The pairs that are still to be visited.
    queue: Queue,
    /// The keys of the pairs that were visited.
    seen: IndexSet<Vec<u32>>,
    /// The terminal of the conflict.
    terminal: Sym,
    /// The number of steps that are left. A step is something that is visited or copied.
    pub(crate) steps: usize,
}

impl Search {
    /// Returns a search for a sentence of a conflict with this many steps and without pairs.
    pub(crate) fn new(
        alloc: Global,
        conflict: &Conflict,
        steps: usize,
    ) -> Result<Search, OutOfMemory> {
        Ok(Search {
            queue: Queue::new(alloc)?,
            seen: IndexSet::new(alloc),
            terminal: conflict.terminal,
            steps,
        })
    }

    /// Subtracts so many steps.
    pub(crate) fn take_steps(&mut self, count: usize) {
        self.steps = self.steps.saturating_sub(count);
    }

    /// The next pair to visit, if there is one and steps are left.
    pub(crate) fn next(&mut self) -> Option<Pair> {
        if self.steps == 0 {
            return None;
        }
        self.queue.pop()
    }

    /// Adds a pair.
    pub(crate) fn push(&mut self, yields: &Yields, pair: Pair) -> Result<(), AllocError> {
        self.take_steps(pair.size().saturating_add(PAIR));
        self.queue.push(yields, pair)
    }

    /// Whether no more pairs are added.
    fn is_closed(&self) -> bool {
        self.steps == 0 || self.queue.is_full()
    }

    /// Whether no pair with this key was visited. Records the key.
    fn is_new(&mut self, key: Vec<u32>) -> Result<bool, OutOfMemory> {
        self.take_steps(key.len());
        Ok(self.seen.insert(key)?)
    }
}

impl Finder<'_> {
    /// Visits a pair for a conflict. Returns the sentence that it completes, or adds its successors.
    pub(crate) fn look_at(
        &self,
        alloc: Global,
        conflict: &Conflict,
        search: &mut Search,
        pair: Pair,
    ) -> Result<Option<Ambiguity>, OutOfMemory>
        requires { IsInside self.now.examples.now.automaton conflict.now }
        ensures { IfOk result (IsFoundIn self.now.examples.now
            (conflict_from self.now.examples.now.automaton conflict.now)) }
    {
        let mut pair = pair;
        let course = self.go_on(alloc, &mut pair, search)?;
        if !search.is_new(pair.key(alloc, self.grammar)?)? {
            return Ok(None);
        }
        match course {
            Course::Parted => {}
            Course::Open => self.push_derived(alloc, search, &pair)?,
            Course::Ended => {
                let ended = !pair.pending || search.terminal.0 == 0 && pair.is_whole(self.grammar);
                if ended && pair.is_joined(self.grammar) {
                    let found = self.joined(alloc, conflict, search, &pair)?;
                    if found.is_some() {
                        return Ok(found);
                    }
                }
                self.push_around(alloc, search, &pair)?;
            }
        }
        Ok(None)
    }

    /// Advances two parses as long as they have the same symbol ahead.
    fn go_on(
        &self,
        alloc: Global,
        pair: &mut Pair,
        search: &mut Search,
    ) -> Result<Course, AllocError> {
        for _ in 0..LONGEST {
            let (Some(symbol), Some(same)) = (pair.one.next(), pair.other.next()) else {
                return Ok(Course::Ended);
            };
            match (symbol, same) {
                (Symbol::Terminal(read), Symbol::Terminal(other)) => {
                    if read != other || pair.pending && read != search.terminal {
                        return Ok(Course::Parted);
                    }
                    pair.pending = false;
                }
                _ => {
                    if symbol != same || pair.pending {
                        return Ok(Course::Open);
                    }
                }
            }
            self.pass_both(alloc, pair, search, symbol)?;
        }
        Ok(Course::Parted)
    }

    /// Advances two parses over the symbol that both have ahead.
    fn pass_both(
        &self,
        alloc: Global,
        pair: &mut Pair,
        search: &mut Search,
        symbol: Symbol,
    ) -> Result<(), AllocError> {
        pair.one.ahead.pop();
        pair.other.ahead.pop();
        let passed = self.yielded(alloc, search, &[symbol])?;
        pair.read = pair.read.saturating_add(passed.tokens.len() as u64);
        pair.one.rules.extend_from_slice(&passed.rules)?;
        pair.other.rules.extend_from_slice(&passed.rules)
    }

    /// Adds the successors of a pair in which a nonterminal ahead is expanded.
    fn push_derived(
        &self,
        alloc: Global,
        search: &mut Search,
        pair: &Pair,
    ) -> Result<(), AllocError> {
        if pair.one.next() == pair.other.next() {
            return self.push_replaced(alloc, search, pair, Which::Both);
        }
        self.push_replaced(alloc, search, pair, Which::One)?;
        self.push_replaced(alloc, search, pair, Which::Other)
    }

    /// Adds the successors of a pair in which these parses expand the next nonterminal, if it is one.
    fn push_replaced(
        &self,
        alloc: Global,
        search: &mut Search,
        pair: &Pair,
        which: Which,
    ) -> Result<(), AllocError> {
        let Some(Symbol::Nonterminal(left)) = pair.reading(which).next() else {
            return Ok(());
        };
        if left.0 > self.lr0.reduced().grammar().accept().0 {
            return Ok(());
        }
        for rule in self.lr0.rules_of(left) {
            search.take_steps(1);
            if search.is_closed() {
                break;
            }
            if pair.may_meet(
                self.lr0,
                search.terminal,
                which,
                body_of(self.grammar, *rule),
            ) {
                let next = pair.with_rule(alloc, self.grammar, which, *rule)?;
                search.push(self.yields, next)?;
            }
        }
        Ok(())
    }

    /// Adds the successors of a pair in which a parse that has nothing ahead gets an enclosing rule.
    fn push_around(
        &self,
        alloc: Global,
        search: &mut Search,
        pair: &Pair,
    ) -> Result<(), AllocError> {
        match pair.shorter(self.grammar) {
            Some(which) => self.push_within(alloc, search, pair, which),
            None => {
                self.push_within(alloc, search, pair, Which::One)?;
                self.push_within(alloc, search, pair, Which::Other)
            }
        }
    }

    /// Adds the pairs in which parses get an enclosing rule.
    fn push_within(
        &self,
        alloc: Global,
        search: &mut Search,
        pair: &Pair,
        which: Which,
    ) -> Result<(), AllocError> {
        let Some(left) = pair.reading(which).left(self.grammar) else {
            return Ok(());
        };
        for around in waiting(self.examples, left) {
            search.take_steps(1);
            if search.is_closed() {
                break;
            }
            let before = pair.before_within(alloc, self.examples, search, which, *around)?;
            let Some(before) = before else {
                continue;
            };
            let behind = rest_of(self.grammar, around.rule, around.dot.saturating_add(1));
            if pair.may_meet(self.lr0, search.terminal, which, behind) {
                let next = pair.within(alloc, self.grammar, before, which, *around)?;
                search.push(self.yields, next)?;
            }
        }
        Ok(())
    }

    /// The trees of symbols with the fewest tokens.
    pub(crate) fn yielded(
        &self,
        alloc: Global,
        search: &mut Search,
        symbols: &[Symbol],
    ) -> Result<Derived, AllocError> {
        let derived = self.yields.derive(alloc, self.grammar, symbols)?;
        let count = derived.rules.len().saturating_add(derived.tokens.len());
        search.take_steps(count.saturating_mul(DERIVED));
        Ok(derived)
    }
}
