//! A stack during a run.
ghost use Rattle.std.specs.Prelude.{◌≡◌, ◌↔◌, ◌<◌, [], ◌∷◌, All, IfOk, IsTrue, List, OnOk, drop, false, length, true};
ghost use Rattle.std.specs.Prelude.{ℕ};
ghost use Rattle.ly_pack.specs.Machine.{states_of, IsMachine, IsRuleNumber};
ghost use Rattle.ly_repair.specs.Private.Stacks.{now_of, stack_of, top_in, IsGrown, IsMade};

use crate::stacks::{StackNo, Stacks};
use ly_base::{OutOfMemory, RuleNo, StateNo};
use ly_pack::{MachineView, Rows, TableAction};
use std::alloc::{AllocError, Global};

/// A stack during a run. Its upper states aren't among the stacks yet, because most runs end without a stack that is
/// needed.
#[derive(Drop)]
pub(crate) struct Unfinished {
    /// The lower part.
    lower: StackNo,
    /// The states above it, the top last.
    above: Vec<StateNo>,
}

impl Unfinished {
    /// A stack as it is.
    pub(crate) fn new(alloc: Global, lower: StackNo) -> Unfinished
        ensures lower { result.lower ≡ lower }
        ensures above { result.above.items ≡ [] }
    {
        Unfinished {
            lower,
            above: Vec::new(alloc),
        }
    }

    /// The state on top.
    pub(crate) fn top(&self, stacks: &Stacks) -> StateNo
        requires { self.now.lower.0 < length stacks.now }
        ensures top { result.0 ≡ top_in (now_of stacks.now self.now) }
        ensures some { 0 < length (now_of stacks.now self.now) }
    {
        match self.above.last() {
            Some(&state) => state,
            None => stacks.top(self.lower),
        }
    }

    /// Whether there is a state above the bottom.
    pub(crate) fn has_term(&self, stacks: &Stacks) -> bool
        requires { self.now.lower.0 < length stacks.now }
        ensures { IsTrue result ↔ (1 < length (now_of stacks.now self.now)) }
    {
        if !self.above.is_empty() {
            let _state = stacks.top(self.lower); // the contract of this call says that the lower part isn't empty
            return true;
        }
        stacks.below(self.lower).is_some()
    }

    /// Pops this many states, if there are as many above the bottom.
    fn pop(&mut self, stacks: &Stacks, count: usize) -> bool
        requires { self.old.lower.0 < length stacks.now }
        ensures within { self.new.lower.0 < length stacks.now }
        ensures popped { result ≡ true → now_of stacks.now self.new ≡ drop count (now_of stacks.now self.old) }
        ensures past { result ≡ false → drop count (now_of stacks.now self.old) ≡ [] }
    {
        if count <= self.above.len() {
            self.above.truncate(self.above.len() - count);
            return true;
        }
        match stacks.without(self.lower, count - self.above.len()) {
            Some(lower) => {
                self.above.clear();
                self.lower = lower;
                true
            }
            None => false,
        }
    }

    /// Pushes a state.
    fn push(&mut self, state: StateNo) -> Result<(), AllocError>
        ensures lower { self.new.lower ≡ self.old.lower }
        ensures pushed { OnOk result ((stacks : List (List ℕ)) → now_of stacks self.new
            ≡ state.0 ∷ now_of stacks self.old) }
    {
        self.above.push(state)?;
        Ok(())
    }

    /// Reduces by a rule. Returns false if the run ends there, because a goto is missing or the body extends past the
    /// bottom.
    pub(crate) fn reduce<A: Rows<TableAction> + Drop, G: Rows<StateNo> + Drop>(
        &mut self,
        machine: &MachineView<'_, A, G>,
        stacks: &Stacks,
        rule: RuleNo,
    ) -> Result<bool, OutOfMemory>
        requires machine { IsMachine machine.now }
        requires rule { IsRuleNumber machine.now rule.0 }
        requires lower { self.old.lower.0 < length stacks.now }
        requires states { All (λ s. s < states_of machine.now) (now_of stacks.now self.old) }
        ensures made { IfOk result (λ made. IsMade machine.now rule.0 (now_of stacks.now self.old) made
            (now_of stacks.now self.new)) }
        ensures lower { self.new.lower.0 < length stacks.now }
    {
        let rule = machine.rule(rule);
        if !self.pop(stacks, rule.body_length) {
            return Ok(false);
        }
        let Some(next) = machine.goto(self.top(stacks), rule.left) else {
            return Ok(false);
        };
        self.push(next)?;
        Ok(true)
    }

    /// Adds the stack with a state on top to the stacks.
    pub(crate) fn finish(&self, stacks: &mut Stacks, state: StateNo) -> Result<StackNo, OutOfMemory>
        requires { self.now.lower.0 < length stacks.old }
        ensures grown { OnOk result (IsGrown stacks.old stacks.new) }
        ensures within { IfOk result (λ at. at.0 < length stacks.new) }
        ensures finished { IfOk result (λ at. stack_of stacks.new at.0 ≡ state.0 ∷ now_of stacks.old self.now) }
    {
        let mut at = self.lower;
        for &state in &self.above {
            at = stacks.push(at, state)?;
        }
        stacks.push(at, state)
    }
}
