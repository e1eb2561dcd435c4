//! Runs of the tables on single terminals, and on the terminals that a text has left.
ghost use Rattle.std.specs.Prelude.{◌≡◌, ◌↔◌, ◌+◌, ◌<◌, ◌≤◌, IfOk, IsTrue, OnOk, [], ◌∷◌, drop, length, map};
ghost use Rattle.ly_repair.specs.Private.Stacks.{stack_of, IsGrown};
ghost use Rattle.ly_repair.specs.Private.Text.{after, ComesUpTo, IsNext, IsOutcome, IsReadable, IsStackAt};
ghost use Rattle.ly_repair.specs.Runs.{Holds};
ghost use Rattle.ly_repair.specs.Values.{stack_in};

use crate::place::Place;
use crate::stacks::{BOTTOM, StackNo, Stacks};
use crate::unfinished::Unfinished;
use ly_base::{OutOfMemory, StateNo, Sym};
use ly_pack::{MachineView, Rows, TableAction};
use std::alloc::Global;
use std::marker::Model;

/// How a run on a terminal ends.
#[derive(Clone, Copy, Debug, PartialEq, Eq)]
pub(crate) enum RunEnd {
    /// The terminal is read, and this is the stack after it.
    Reads(StackNo),
    /// The end of the text is accepted.
    Accepts,
    /// Neither.
    Stops,
}

/// The stacks that runs lead to.
#[derive(Drop)]
pub(crate) struct Runs {
    /// The allocator.
    alloc: Global,
    /// The stacks.
    pub(crate) stacks: Stacks,
    /// The number of moves of all runs.
    pub(crate) moves: u64,
}

/// A parser's tables, and the terminals that a text has left, without the end.
#[derive(Drop)]
pub(crate) struct Text<'a, A: Rows<TableAction> + Drop, G: Rows<StateNo> + Drop> {
    /// The tables.
    machine: &'a MachineView<'a, A, G>,
    /// The terminals.
    rest: &'a [Sym],
}

impl<'a, A: Rows<TableAction> + Drop, G: Rows<StateNo> + Drop> Model for Text<'a, A, G> {
    ghost use Rattle.std.specs.Prelude.{map};
    ghost use Rattle.ly_repair.specs.Private.Text as value;
    ghost use Rattle.ly_repair.specs.Private.Text.{IsReadable};

    ghost Value = { value.Text };

    ghost view = { λ x. record { machine = x.machine.now; terminals = map (λ t. t.0) x.rest.now } };

    ghost invariant = { λ x. IsReadable (record { machine = x.machine.now; terminals = map (λ t. t.0) x.rest.now }) };
}

impl Runs {
    /// No runs.
    pub(crate) fn new(alloc: Global) -> Runs
        ensures { result.stacks ≡ (0 ∷ []) ∷ [] }
    {
        Runs {
            alloc,
            stacks: Stacks::new(alloc),
            moves: 0,
        }
    }

    /// Adds a stack, given by its states above the bottom, the top last.
    pub(crate) fn enter(&mut self, stack: &[StateNo]) -> Result<StackNo, OutOfMemory>
        requires { self.old.stacks ≡ (0 ∷ []) ∷ [] }
        ensures within { IfOk result (λ at. at.0 < length self.new.stacks) }
        ensures entered { IfOk result (λ at. stack_of self.new.stacks at.0 ≡ stack_in stack.now) }
    {
        let mut at = BOTTOM;
        for &state in stack {
            at = self.stacks.push(at, state)?;
        }
        Ok(at)
    }
}

impl<'a, A: Rows<TableAction> + Drop, G: Rows<StateNo> + Drop> Text<'a, A, G> {
    /// These tables and terminals.
    pub(crate) fn new(machine: &'a MachineView<'a, A, G>, rest: &'a [Sym]) -> Self
        requires { IsReadable (record { machine = machine.now; terminals = map (λ t. t.0) rest.now }) }
        ensures { result ≡ record { machine = machine.now; terminals = map (λ t. t.0) rest.now } }
    {
        Text { machine, rest }
    }

    /// The number of terminals of the tables.
    pub(crate) fn terminals(&self) -> usize
        ensures count { result ≡ self.now.machine.terminals }
        ensures readable { IsReadable self.now }
    {
        self.machine.terminals()
    }

    /// The number of terminals that are left.
    pub(crate) fn len(&self) -> usize
        ensures { result ≡ length self.now.terminals }
    {
        self.rest.len()
    }

    /// The outcome for a terminal from a stack.
    pub(crate) fn run(
        &self,
        runs: &mut Runs,
        at: StackNo,
        terminal: Sym,
    ) -> Result<RunEnd, OutOfMemory>
        requires at { IsStackAt self.now.machine runs.old.stacks at.0 }
        requires terminal { terminal.0 < self.now.machine.terminals }
        ensures grown { OnOk result (IsGrown runs.old.stacks runs.new.stacks) }
        ensures outcome { IfOk result (IsOutcome self.now.machine terminal.0 (stack_of runs.old.stacks at.0)
            runs.new.stacks) }
    {
        let machine = self.machine;
        let mut stack = Unfinished::new(runs.alloc, at);
        loop {
            runs.moves = runs.moves.saturating_add(1);
            let top = stack.top(&runs.stacks);
            match machine.action(top, terminal) {
                TableAction::Shift(state) => {
                    let next = stack.finish(&mut runs.stacks, state)?;
                    return Ok(RunEnd::Reads(next));
                }
                TableAction::Accept => {
                    if stack.has_term(&runs.stacks) {
                        return Ok(RunEnd::Accepts);
                    }
                    return Ok(RunEnd::Stops);
                }
                TableAction::Error => return Ok(RunEnd::Stops),
                TableAction::Reduce(rule) => {
                    if !stack.reduce(machine, &runs.stacks, rule)? {
                        return Ok(RunEnd::Stops);
                    }
                }
            }
        }
    }

    /// The outcome for the terminal with this index among those that are left, or for the end after them.
    pub(crate) fn read(
        &self,
        runs: &mut Runs,
        at: StackNo,
        index: usize,
    ) -> Result<RunEnd, OutOfMemory>
        requires { IsStackAt self.now.machine runs.old.stacks at.0 }
        ensures grown { OnOk result (IsGrown runs.old.stacks runs.new.stacks) }
        ensures next { IfOk result (IsNext self.now.machine (after self.now index) (stack_of runs.old.stacks at.0)
            runs.new.stacks) }
    {
        if index < self.rest.len() {
            let terminal = self.rest[index];
            return self.run(runs, at, terminal);
        }
        self.run(runs, at, Sym(0))
    }

    /// How far the tables read on from a place: the index of the first terminal that isn't read, but at most a limit.
    /// It is the limit if the end is accepted.
    pub(crate) fn comes_to(
        &self,
        runs: &mut Runs,
        place: Place,
        limit: usize,
    ) -> Result<usize, OutOfMemory>
        requires { IsStackAt self.now.machine runs.old.stacks place.stack.0 }
        ensures grown { OnOk result (IsGrown runs.old.stacks runs.new.stacks) }
        ensures far { IfOk result (ComesUpTo self.now.machine (after self.now place.taken)
            (stack_of runs.old.stacks place.stack.0) place.taken limit) }
    {
        let mut at = place.stack;
        for index in place.taken..limit {
            match self.read(runs, at, index)? {
                RunEnd::Reads(next) => at = next,
                RunEnd::Accepts => return Ok(limit),
                RunEnd::Stops => return Ok(index),
            }
        }
        Ok(limit)
    }

    /// Whether so many terminals are read from a place as a repair needs, or all that are left and the end is accepted.
    pub(crate) fn is_whole(&self, runs: &mut Runs, place: Place) -> Result<bool, OutOfMemory>
        requires at { IsStackAt self.now.machine runs.old.stacks place.stack.0 }
        requires taken { place.taken ≤ length self.now.terminals }
        ensures grown { OnOk result (IsGrown runs.old.stacks runs.new.stacks) }
        ensures whole { IfOk result (λ whole. IsTrue whole ↔ Holds self.now.machine 3 (stack_of runs.old.stacks
            place.stack.0) (after self.now place.taken)) }
    {
        let _left = self.rest.len(); // so the sum fits
        let limit = place.taken + NEEDED;
        let far = self.comes_to(runs, place, limit)?;
        Ok(far == limit)
    }
}

/// The number of terminals that must be read after the edits of a repair.
pub(crate) const NEEDED: usize = 3;
