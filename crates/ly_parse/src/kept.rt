ghost use Rattle.std.specs.Prelude.{◌≡◌, IfSome};
ghost use Rattle.ly_parse.specs.Private.Shortcuts.{shortcut_of};

use crate::origin::Origin;
use crate::shortcut::Shortcut;
use ly_base::StateNo;
use ly_pack::TableAction;

/// A cached shortcut. It takes 16 bytes, so that more of those used together fit in a cache line.
#[derive(Clone, Copy)]
pub(crate) struct Kept {
    /// The number of a state.
    below: u16,
    /// The number of what is above it.
    above: u16,
    /// The number of the next terminal.
    terminal: u16,
    /// The number of the state that is on top after it.
    state: u16,
    /// The action there before the terminal.
    action: TableAction,
}

impl Kept {
    /// The cached form of a shortcut. None if one of its numbers is above `u16::MAX`.
    pub(crate) fn new<O: Origin>(shortcut: Shortcut<O>) -> Option<Kept>
        ensures { IfSome result (λ k. shortcut_of O.origin_of k ≡ shortcut) }
    {
        let numbers = shortcut.from.numbers();
        Some(Kept {
            below: u16::try_from(numbers.below).ok()?,
            above: u16::try_from(numbers.above).ok()?,
            terminal: u16::try_from(numbers.terminal).ok()?,
            state: u16::try_from(shortcut.state.0).ok()?,
            action: shortcut.action,
        })
    }

    /// The shortcut, if it has this origin. All three numbers are one condition, so that a compiler may use one branch.
    pub(crate) fn shortcut<O: Origin>(&self, from: O) -> Option<Shortcut<O>>
        ensures same { IfSome result (λ s. s ≡ shortcut_of O.origin_of self.now) }
        ensures from { IfSome result (λ s. s.from ≡ from) }
    {
        let numbers = from.numbers();
        if (u32::from(self.below) == numbers.below)
            & (u32::from(self.above) == numbers.above)
            & (u32::from(self.terminal) == numbers.terminal)
        {
            return Some(Shortcut {
                from,
                state: StateNo(u32::from(self.state)),
                action: self.action,
            });
        }
        None
    }
}
