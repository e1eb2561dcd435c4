//! A copy of a stack of states that shares the unchanged part with the stack.
ghost use Rattle.std.specs.Prelude.{◌≡◌, ◌↔◌, ◌<◌, [], ◌∷◌, All, IfOk, IsTrue, OnOk, drop, false, length, true};
ghost use Rattle.ly_pack.specs.Machine.{states_of, IsMachine, IsRuleNumber};
ghost use Rattle.ly_parse.specs.Private.Copied.{states_in, top_in, IsMade};

use ly_base::{OutOfMemory, RuleNo, StateNo};
use ly_pack::{MachineView, Rows, TableAction};
use std::alloc::{AllocError, Global};
use std::marker::Model;

/// A copy of a stack of states. States that a run doesn't reach are only in the stack.
#[derive(Drop)]
pub(crate) struct Copied<'a> {
    /// The states above the bottom, the top last.
    stack: &'a [StateNo],
    /// The number of these, from the bottom on, that are still in the copy.
    kept: usize,
    /// The states of the copy above these, the top last.
    above: Vec<StateNo>,
}

impl<'a> Model for Copied<'a> {
    ghost use Rattle.std.specs.Prelude.{◌≤◌, length};
    ghost use Rattle.ly_parse.specs.Private.Copied as value;
    ghost use Rattle.ly_parse.specs.Private.Copied.{copied_from};

    ghost Value = { value.Copied };

    ghost view = { λ c. copied_from c.stack.now c.kept c.above.items };

    ghost invariant = { λ c. c.kept ≤ length c.stack.now };
}

impl<'a> Copied<'a> {
    /// A copy of a stack.
    pub(crate) fn new(alloc: Global, stack: &'a [StateNo]) -> Self
        ensures { result ≡ record { whole = states_in stack.now; now = states_in stack.now } }
    {
        Copied {
            stack,
            kept: stack.len(),
            above: Vec::new(alloc),
        }
    }

    /// Makes it a copy of the whole stack again.
    pub(crate) fn restart(&mut self)
        ensures { self.new ≡ record { whole = self.old.whole; now = self.old.whole } }
    {
        self.kept = self.stack.len();
        self.above.clear();
    }

    /// The state on top.
    pub(crate) fn top(&self) -> StateNo
        ensures top { result.0 ≡ top_in self.now.now }
        ensures some { 0 < length self.now.now }
    {
        if let Some(&state) = self.above.last() {
            return state;
        }
        match self.kept.checked_sub(1) {
            Some(place) => self.stack[place],
            None => StateNo(0),
        }
    }

    /// Whether there is a state above the bottom.
    pub(crate) fn has_term(&self) -> bool
        ensures { IsTrue result ↔ (1 < length self.now.now) }
    {
        0 < self.kept || !self.above.is_empty()
    }

    /// Pops this many states, if there are as many above the bottom.
    fn pop(&mut self, count: usize) -> bool
        ensures whole { self.new.whole ≡ self.old.whole }
        ensures popped { result ≡ true → self.new.now ≡ drop count self.old.now }
        ensures past { result ≡ false → drop count self.old.now ≡ [] }
        ensures kept { result ≡ false → self.new.now ≡ self.old.now }
    {
        if count <= self.above.len() {
            self.above.truncate(self.above.len() - count);
            return true;
        }
        let Some(kept) = self.kept.checked_sub(count - self.above.len()) else {
            return false;
        };
        self.above.clear();
        self.kept = kept;
        true
    }

    /// Pushes a state.
    fn push(&mut self, state: StateNo) -> Result<(), AllocError>
        ensures whole { self.new.whole ≡ self.old.whole }
        ensures pushed { OnOk result (self.new.now ≡ state.0 ∷ self.old.now) }
    {
        self.above.push(state)?;
        Ok(())
    }

    /// Reduces by a rule. Returns false if the run ends there, because a goto is missing or the body extends past the
    /// bottom.
    pub(crate) fn reduce<A: Rows<TableAction> + Drop, G: Rows<StateNo> + Drop>(
        &mut self,
        machine: &MachineView<'_, A, G>,
        rule: RuleNo,
    ) -> Result<bool, OutOfMemory>
        requires machine { IsMachine machine.now }
        requires rule { IsRuleNumber machine.now rule.0 }
        requires states { All (λ s. s < states_of machine.now) self.old.now }
        ensures made { IfOk result (λ made. IsMade machine.now rule.0 self.old.now made self.new.now) }
        ensures whole { self.new.whole ≡ self.old.whole }
        ensures states { OnOk result (All (λ s. s < states_of machine.now) self.new.now) }
    {
        let rule = machine.rule(rule);
        if !self.pop(rule.body_length) {
            return Ok(false);
        }
        let Some(next) = machine.goto(self.top(), rule.left) else {
            return Ok(false);
        };
        self.push(next)?;
        Ok(true)
    }
}
