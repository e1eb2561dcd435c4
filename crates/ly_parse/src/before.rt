//! The stack as it was before the current token, while reductions pop it.
ghost use Rattle.std.specs.Prelude.{◌≡◌, ◌<◌, ◌≤◌, [], ◌∷◌, IfOk, OnOk, length};
ghost use Rattle.ly_parse.specs.Private.Before.{before_of, before_on, levels_with_top};
ghost use Rattle.ly_parse.specs.Private.Copied.{states_in};

use crate::level::Level;
use ly_base::StateNo;
use std::alloc::{AllocError, Global};

/// The states that a stack had before a token, as far as they are gone: each is noted once, before it is popped.
#[derive(Drop)]
pub(crate) struct Before {
    /// The number of levels, from the bottom on, that are unchanged.
    kept: usize,
    /// The state that was on top, if there was one above the bottom.
    top: Option<StateNo>,
    /// The states between these two, the uppermost first; after them remains of other tokens.
    popped: Vec<StateNo>,
    /// The number of these that belong to this token.
    noted: usize,
}

impl Before {
    /// Without notes.
    pub(crate) fn new(alloc: Global) -> Self
        ensures { before_on [] result ≡ 0 ∷ [] }
    {
        Before {
            kept: 0,
            top: None,
            popped: Vec::new(alloc),
            noted: 0,
        }
    }

    /// Starts again: the stack is unchanged, except that `first` was the state on top, if there is one above the
    /// bottom.
    pub(crate) fn begin(&mut self, stack: &[Level], first: StateNo)
        ensures kept { self.new.kept ≤ length stack.now }
        ensures before { before_of stack.now self.new ≡ levels_with_top first.0 stack.now }
    {
        // without a look at what was popped before, because that branch would be mispredicted
        self.noted = 0;
        match stack.len().checked_sub(1) {
            Some(kept) => {
                self.kept = kept;
                self.top = Some(first);
            }
            None => {
                self.kept = 0;
                self.top = None;
            }
        }
    }

    /// Starts again like `begin`, if there is a state above the bottom.
    #[inline(always)] // only stores
    pub(crate) fn begin_above(&mut self, stack: &[Level], first: StateNo)
        requires { 0 < length stack.now }
        ensures kept { self.new.kept ≤ length stack.now }
        ensures before { before_of stack.now self.new ≡ levels_with_top first.0 stack.now }
    {
        self.noted = 0;
        self.kept = stack.len() - 1;
        self.top = Some(first);
    }

    /// Notes the states above a height, which are popped next.
    pub(crate) fn note(&mut self, stack: &[Level], height: usize) -> Result<(), AllocError>
        requires { self.old.kept ≤ length stack.now }
        ensures before { OnOk result (before_of stack.now self.new ≡ before_of stack.now self.old) }
        ensures low { OnOk result (self.new.kept ≤ height) }
        ensures kept { OnOk result (self.new.kept ≤ length stack.now) }
    {
        if height < self.kept {
            self.note_popped(stack, height)?;
        }
        Ok(())
    }

    /// Notes the states above a height, some of which are unchanged. The list has enough elements to overwrite.
    #[inline(never)] // so that reductions get the registers
    fn note_popped(&mut self, stack: &[Level], height: usize) -> Result<(), AllocError>
        requires kept { self.old.kept ≤ length stack.now }
        requires some { height ≤ self.old.kept }
        ensures before { OnOk result (before_of stack.now self.new ≡ before_of stack.now self.old) }
        ensures low { OnOk result (self.new.kept ≤ height) }
        ensures kept { OnOk result (self.new.kept ≤ length stack.now) }
    {
        let mut noted = self.noted;
        let mut kept = self.kept;
        let room = self.popped.len();
        if room < noted || room - noted < kept - height {
            return self.note_further(stack, height);
        }
        while height < kept {
            self.popped[noted] = stack[kept - 1].state;
            noted += 1;
            kept -= 1;
        }
        self.noted = noted;
        self.kept = kept;
        Ok(())
    }

    /// Notes the states above a height, some of which are unchanged. The list has to grow.
    #[inline(never)] // few tokens need this
    fn note_further(&mut self, stack: &[Level], height: usize) -> Result<(), AllocError>
        requires kept { self.old.kept ≤ length stack.now }
        requires some { height ≤ self.old.kept }
        ensures before { OnOk result (before_of stack.now self.new ≡ before_of stack.now self.old) }
        ensures low { OnOk result (self.new.kept ≤ height) }
        ensures kept { OnOk result (self.new.kept ≤ length stack.now) }
    {
        self.popped.truncate(self.noted);
        self.popped.reserve(self.kept - height)?;
        let mut kept = self.kept;
        while height < kept {
            self.popped.push_reserved(stack[kept - 1].state);
            kept -= 1;
        }
        self.noted = self.popped.len();
        self.kept = kept;
        Ok(())
    }

    /// The states that the stack had above the bottom, the top last.
    pub(crate) fn states(&self, alloc: Global, stack: &[Level]) -> Result<Vec<StateNo>, AllocError>
        ensures { IfOk result (λ states. states_in states.items ≡ before_of stack.now self.now) }
    {
        let mut states = Vec::new(alloc);
        // after a token that is read, the stack may be lower than what is unchanged
        for place in 0..self.kept.min(stack.len()) {
            states.push(stack[place].state)?;
        }
        let mut left = self.noted.min(self.popped.len());
        while 0 < left {
            left -= 1;
            states.push(self.popped[left])?;
        }
        if let Some(top) = self.top {
            states.push(top)?;
        }
        Ok(states)
    }
}
