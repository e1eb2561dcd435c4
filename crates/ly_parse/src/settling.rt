//! The passes and reductions before a terminal, until its outcome is known.
ghost use Rattle.std.specs.Prelude.{◌≡◌, ◌≢◌, ◌<◌, ◌≤◌, ◌+◌, ◌-◌, ◌*◌, ℕ, Err, None, drop, length, take, IfOk, IfSome};
ghost use Rattle.std.specs.Prelude.{List, OnOk};
ghost use Rattle.ly_base.specs.Shape.{shape_of};
ghost use Rattle.ly_pack.specs.Machine.{action_of, states_of, IsLegal, IsRuleNumber, IsShapeFor};
ghost use Rattle.ly_pack.specs.Values.{action_from};
ghost use Rattle.ly_parse.specs.Feeding.{faulty, states_on, top_of};
ghost use Rattle.ly_parse.specs.Private.Answered.{IsSettled};
ghost use Rattle.ly_parse.specs.Private.Before.{before_on, with_top, AreAlikeBelow, IsNoteOf, IsOpen};
ghost use Rattle.ly_parse.specs.Private.Paying.{places_in};
ghost use Rattle.ly_parse.specs.Private.Stack.{terms_onto, FailsByRule, FeedAs, LeadsByReductions, LeadsByRule};
ghost use Rattle.ly_parse.specs.declared.fault.ParseFault.TheVariants as fault;
ghost use Rattle.ly_tree.specs.Costs.{budget};
ghost use Rattle.ly_tree.specs.Forest.{StandsFor};
ghost use Rattle.ly_tree.specs.Term.{made, none};

use crate::before::Before;
use crate::fault::ParseFault;
use crate::landing::Landing;
use crate::level::Level;
use crate::running::Running;
use crate::settled::Settled;
use crate::shortcut::{Shortcut, Situation};
use ly_base::{OutOfMemory, RuleNo, RuleTree, StateNo, Sym};
use ly_pack::{Rows, TableAction};
use ly_tree::TermRef;

impl<A: Rows<TableAction> + Drop, G: Rows<StateNo> + Drop> Running<'_, A, G> {
    /// Makes the reductions before a terminal, and returns the outcome. If it is rejected, the stack as it was is
    /// noted.
    #[inline(always)] // a call would cost a fifteenth more instructions per token
    pub(crate) fn settle(&mut self, terminal: Sym, before: &mut Before) -> Settled
        requires { terminal.0 < self.old.machine.terminals }
        ensures settled { IsSettled self.old.machine terminal.0 self.old.stack (states_on self.old.stack) self.new.stack
            before.new result }
        ensures machine { self.new.machine ≡ self.old.machine }
        ensures count { self.new.count ≡ self.old.count }
        ensures over { self.new.over ≡ self.old.over }
    {
        // from here on no step needs to check for the bottom
        if self.stack.len() < 2 {
            return self.settle_low(terminal, before);
        }
        let Some((first, action)) = self.pass(terminal) else {
            return self.settle_by_tables(terminal, before);
        };
        // most tokens are read at once, so this is checked first
        if let TableAction::Shift(state) = action {
            return Settled::Reads(state);
        }
        self.settle_above(action, terminal, first, before)
    }

    /// Makes the reductions before a terminal like `settle`, if few states are on the stack.
    #[inline(never)] // so that the common case gets the registers
    fn settle_low(&mut self, terminal: Sym, before: &mut Before) -> Settled
        requires { terminal.0 < self.old.machine.terminals }
        ensures settled { IsSettled self.old.machine terminal.0 self.old.stack (states_on self.old.stack) self.new.stack
            before.new result }
        ensures machine { self.new.machine ≡ self.old.machine }
        ensures count { self.new.count ≡ self.old.count }
        ensures over { self.new.over ≡ self.old.over }
    {
        match self.pass(terminal) {
            Some((first, action)) => self.settle_above(action, terminal, first, before),
            None => self.settle_by_tables(terminal, before),
        }
    }

    /// Makes the reductions before a terminal, the first passes by the tables, and returns the outcome. If it is
    /// rejected, the stack as it was is noted.
    #[inline(never)] // so that a cached shortcut gets the registers
    fn settle_by_tables(&mut self, terminal: Sym, before: &mut Before) -> Settled
        requires { terminal.0 < self.old.machine.terminals }
        ensures settled { IsSettled self.old.machine terminal.0 self.old.stack (states_on self.old.stack) self.new.stack
            before.new result }
        ensures machine { self.new.machine ≡ self.old.machine }
        ensures count { self.new.count ≡ self.old.count }
        ensures over { self.new.over ≡ self.old.over }
    {
        let first = self.top();
        match self.pass_by_tables(terminal) {
            Ok(action) => self.settle_from(action, terminal, first, before),
            Err(ParseFault::FaultyTables) => Settled::FaultyTables,
            Err(ParseFault::OutOfMemory) => Settled::OutOfMemory,
            Err(ParseFault::Over) => unreachable!(),
        }
    }

    /// Executes the actions of the tables before a terminal like `settle_behind`. If the terminal is rejected, the
    /// stack as it was, with this state on top, is noted.
    fn settle_from(
        &mut self,
        action: TableAction,
        terminal: Sym,
        first: StateNo,
        before: &mut Before,
    ) -> Settled
        requires terminal { terminal.0 < self.old.machine.terminals }
        requires action { action_from action ≡ action_of self.old.machine (top_of self.old.stack) terminal.0 }
        requires legal { IsLegal self.old.machine terminal.0 (action_from action) }
        ensures settled { IsSettled self.old.machine terminal.0 self.old.stack (with_top first.0 self.old.stack)
            self.new.stack before.new result }
        ensures machine { self.new.machine ≡ self.old.machine }
        ensures count { self.new.count ≡ self.old.count }
        ensures over { self.new.over ≡ self.old.over }
    {
        before.begin(&self.stack, first);
        self.settle_behind(action, terminal, before)
    }

    /// Executes the actions of the tables before a terminal like `settle_from`, if there is a state above the bottom.
    #[inline(always)] // so that most tokens skip it
    fn settle_above(
        &mut self,
        action: TableAction,
        terminal: Sym,
        first: StateNo,
        before: &mut Before,
    ) -> Settled
        requires terminal { terminal.0 < self.old.machine.terminals }
        requires action { action_from action ≡ action_of self.old.machine (top_of self.old.stack) terminal.0 }
        requires legal { IsLegal self.old.machine terminal.0 (action_from action) }
        requires some { 0 < length self.old.stack }
        ensures settled { IsSettled self.old.machine terminal.0 self.old.stack (with_top first.0 self.old.stack)
            self.new.stack before.new result }
        ensures machine { self.new.machine ≡ self.old.machine }
        ensures count { self.new.count ≡ self.old.count }
        ensures over { self.new.over ≡ self.old.over }
    {
        before.begin_above(&self.stack, first);
        self.settle_behind(action, terminal, before)
    }

    /// Executes the actions of the tables before a terminal as long as they reduce, and returns the outcome. If the
    /// terminal is rejected, the notes still describe the same stack as before.
    #[inline(never)] // so that a token that is read at once gets the registers
    fn settle_behind(&mut self, action: TableAction, terminal: Sym, before: &mut Before) -> Settled
        requires terminal { terminal.0 < self.old.machine.terminals }
        requires action { action_from action ≡ action_of self.old.machine (top_of self.old.stack) terminal.0 }
        requires legal { IsLegal self.old.machine terminal.0 (action_from action) }
        requires kept { before.old.kept ≤ length self.old.stack }
        ensures settled { IsSettled self.old.machine terminal.0 self.old.stack (before_on self.old.stack before.old)
            self.new.stack before.new result }
        ensures machine { self.new.machine ≡ self.old.machine }
        ensures count { self.new.count ≡ self.old.count }
        ensures over { self.new.over ≡ self.old.over }
    {
        // the invariant guarantees that the run on a token ends
        let _ = &self.machine;
        let mut next = action;
        loop {
            let number = match next {
                TableAction::Reduce(number) => number,
                TableAction::Shift(state) => return Settled::Reads(state),
                TableAction::Accept => return Settled::Accepts,
                TableAction::Error => return Settled::Refuses,
            };
            match self.reduce(number, terminal, before) {
                Ok(action) => next = action,
                Err(ParseFault::FaultyTables) => return Settled::FaultyTables,
                Err(ParseFault::OutOfMemory) => return Settled::OutOfMemory,
                Err(ParseFault::Over) => unreachable!(),
            }
        }
    }

    /// Makes the passes before a terminal, if they are cached as a shortcut. Returns the state that was on top before,
    /// and the next action.
    #[inline(always)] // like `settle`
    fn pass(&mut self, terminal: Sym) -> Option<(StateNo, TableAction)>
        requires { terminal.0 < self.old.machine.terminals }
        ensures first { IfSome result (λ r. r.0.0 ≡ top_of self.old.stack) }
        ensures leads { IfSome result
            (λ r. LeadsByReductions self.old.machine terminal.0 self.old.stack self.new.stack) }
        ensures action { IfSome result (λ r. action_from r.1
            ≡ action_of self.old.machine (top_of self.new.stack) terminal.0) }
        ensures legal { IfSome result (λ r. IsLegal self.old.machine terminal.0 (action_from r.1)) }
        ensures below { IfSome result (λ r. AreAlikeBelow self.old.stack self.new.stack) }
        ensures some { IfSome result (λ r. 0 < length self.new.stack) }
        ensures none { result ≡ None → self.new ≡ self.old }
        ensures machine { self.new.machine ≡ self.old.machine }
        ensures count { self.new.count ≡ self.old.count }
        ensures over { self.new.over ≡ self.old.over }
    {
        let height = self.stack.len();
        if 0 < height {
            let place = height - 1;
            let from = Situation {
                below: self.top_at(place),
                top: self.stack[place].state,
                terminal,
            };
            if let Some(shortcut) = self.shortcuts.get(from) {
                self.stack[place].state = shortcut.state;
                return Some((from.top, shortcut.action));
            }
        }
        None
    }

    /// Makes the passes before a terminal by the tables, caches their outcome as a shortcut, and returns the next
    /// action.
    #[inline(never)] // so that a cached shortcut gets the registers
    fn pass_by_tables(&mut self, terminal: Sym) -> Result<TableAction, ParseFault>
        requires { terminal.0 < self.old.machine.terminals }
        ensures leads { OnOk result (LeadsByReductions self.old.machine terminal.0 self.old.stack self.new.stack) }
        ensures action { IfOk result (λ a. action_from a
            ≡ action_of self.old.machine (top_of self.new.stack) terminal.0) }
        ensures legal { IfOk result (λ a. IsLegal self.old.machine terminal.0 (action_from a)) }
        ensures below { OnOk result (AreAlikeBelow self.old.stack self.new.stack) }
        ensures faulty { result ≡ Err fault.FaultyTables → FeedAs self.old.machine terminal.0 self.old.stack faulty }
        ensures not_over { result ≢ Err fault.Over }
        ensures machine { self.new.machine ≡ self.old.machine }
        ensures count { self.new.count ≡ self.old.count }
        ensures over { self.new.over ≡ self.old.over }
    {
        // there is no term to pass on above the bottom
        let Some(place) = self.stack.len().checked_sub(1) else {
            return Ok(self.machine.action(StateNo(0), terminal));
        };
        let from = Situation {
            below: self.top_at(place),
            top: self.stack[place].state,
            terminal,
        };
        let Some(shortcut) = Shortcut::find(&self.machine, from) else {
            return Err(ParseFault::FaultyTables);
        };
        self.shortcuts.keep(shortcut)?;
        self.stack[place].state = shortcut.state;
        Ok(shortcut.action)
    }

    /// The state on top of the stack.
    fn top(&self) -> StateNo
        ensures top { result.0 ≡ top_of self.now.stack }
        ensures known { result.0 < states_of self.now.machine }
    {
        self.top_at(self.stack.len())
    }

    /// Makes a reduction and the passes after it before a terminal, and returns the next action. The popped states are
    /// noted unless that action reads the terminal.
    fn reduce(
        &mut self,
        number: RuleNo,
        terminal: Sym,
        before: &mut Before,
    ) -> Result<TableAction, ParseFault>
        requires rule { IsRuleNumber self.old.machine number.0 }
        requires terminal { terminal.0 < self.old.machine.terminals }
        requires kept { before.old.kept ≤ length self.old.stack }
        ensures leads { OnOk result (LeadsByRule self.old.machine number.0 terminal.0 self.old.stack self.new.stack) }
        ensures action { IfOk result (λ a. action_from a
            ≡ action_of self.old.machine (top_of self.new.stack) terminal.0) }
        ensures legal { IfOk result (λ a. IsLegal self.old.machine terminal.0 (action_from a)) }
        ensures noted { IfOk result (λ a. IsOpen (action_from a) → (states : List ℕ)
            → IsNoteOf states self.old.stack before.old → IsNoteOf states self.new.stack before.new) }
        ensures faulty { result ≡ Err fault.FaultyTables
            → FailsByRule self.old.machine number.0 terminal.0 self.old.stack }
        ensures not_over { result ≢ Err fault.Over }
        ensures machine { self.new.machine ≡ self.old.machine }
        ensures count { self.new.count ≡ self.old.count }
        ensures over { self.new.over ≡ self.old.over }
    {
        let rule = self.machine.rule(number);
        let left = rule.left;
        let height = self.stack.len();
        if height < rule.body_length {
            return Err(ParseFault::FaultyTables);
        }
        let below = height - rule.body_length;
        let term = self.make(number, &rule.tree, below)?;
        let from = Landing {
            below: self.top_at(below),
            left,
            terminal,
        };
        let shortcut = self.landings.land(&self.machine, from)?;
        // if the terminal is read next, the old stack isn't needed
        if !matches!(shortcut.action, TableAction::Shift(_)) {
            before.note(&self.stack, below)?;
        }
        self.stack.truncate(below);
        self.stack.reserve(1)?;
        self.stack.push_reserved(Level {
            state: shortcut.state,
            term,
        });
        Ok(shortcut.action)
    }

    /// The top state of this many levels, from the bottom on.
    fn top_at(&self, height: usize) -> StateNo
        requires { height ≤ length self.now.stack }
        ensures top { result.0 ≡ top_of (drop (length self.now.stack - height) self.now.stack) }
        ensures known { result.0 < states_of self.now.machine }
    {
        match height.checked_sub(1) {
            Some(place) => self.stack[place].state,
            None => StateNo(0),
        }
    }

    /// The term that a rule builds from the terms on the stack above this many levels.
    fn make(
        &mut self,
        number: RuleNo,
        tree: &RuleTree,
        below: usize,
    ) -> Result<TermRef, OutOfMemory>
        requires within { below ≤ length self.old.stack }
        requires shape { IsShapeFor (length self.old.stack - below) (shape_of tree.now) }
        ensures made { IfOk result (λ n. StandsFor self.new.forest n (made number.0 (shape_of tree.now)
            (terms_onto (take (length self.old.stack - below) self.old.stack) none))) }
        ensures pays { OnOk result ((each byte : ℕ) → budget each byte self.new.forest
            ≡ budget each byte self.old.forest + each * places_in (shape_of tree.now)) }
        ensures stack { self.new.stack ≡ self.old.stack }
        ensures machine { self.new.machine ≡ self.old.machine }
        ensures count { self.new.count ≡ self.old.count }
        ensures over { self.new.over ≡ self.old.over }
    {
        match tree {
            RuleTree::Nil => Ok(TermRef::Nothing),
            RuleTree::Pass(place) => Ok(self.stack[below + (*place as usize - 1)].term),
            RuleTree::Build { places, .. } => self
                .forest
                .node(number, &self.stack[below..], places),
        }
    }
}
