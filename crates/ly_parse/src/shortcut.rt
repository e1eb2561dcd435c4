ghost use Rattle.std.specs.Prelude.{◌≡◌, ◌<◌, ℕ, IfSome, MatchOption};
ghost use Rattle.ly_pack.specs.Machine.{reduce, IsMachine, IsRuleNumber};
ghost use Rattle.ly_pack.specs.Steady.{IsSteady};
ghost use Rattle.ly_pack.specs.Values.{action_from};
ghost use Rattle.ly_parse.specs.Private.Shortcuts.{ArePasses, IsFrom, IsPass, IsSituation, LacksGoto};
ghost use Rattle.ly_parse.specs.Private.Shortcuts.{situation_of};

use crate::origin::{Numbers, Origin};
use ly_base::{RuleTree, StateNo, Sym};
use ly_pack::{MachineView, Rows, TableAction};

/// Everything that a run of passes depends on. A pass is a reduction by a rule of one symbol that passes its term on:
/// it changes the state on top of the stack, and nothing else.
#[derive(Clone, Copy)]
pub(crate) struct Situation {
    /// The state below the one on top of the stack.
    pub(crate) below: StateNo,
    /// The state on top.
    pub(crate) top: StateNo,
    /// The next terminal.
    pub(crate) terminal: Sym,
}

impl Origin for Situation {
    ghost leads = { ArePasses };

    ghost origin_of = { situation_of };

    fn numbers(self) -> Numbers {
        Numbers {
            below: self.below.0,
            above: self.top.0,
            terminal: self.terminal.0,
        }
    }
}

/// Where the tables lead from an origin.
#[derive(Clone, Copy)]
pub(crate) struct Shortcut<O> {
    /// The origin.
    pub(crate) from: O,
    /// The state that is on top after it.
    pub(crate) state: StateNo,
    /// The action there before the terminal.
    pub(crate) action: TableAction,
}

impl Shortcut<Situation> {
    /// The shortcut from a situation, computed pass by pass. None if a goto is missing on the way.
    pub(crate) fn find<A: Rows<TableAction> + Drop, G: Rows<StateNo> + Drop>(
        machine: &MachineView<'_, A, G>,
        from: Situation,
    ) -> Option<Shortcut<Situation>>
        requires machine { IsMachine machine.now }
        requires steady { IsSteady machine.now }
        requires from { IsSituation machine.now from }
        ensures { MatchOption result (LacksGoto machine.now from) (λ s.
            IsFrom (ArePasses machine.now) from s) }
    {
        let mut state = from.top;
        loop {
            let action = machine.action(state, from.terminal);
            let Some(left) = passed_to(machine, action) else {
                return Some(Shortcut {
                    from,
                    state,
                    action,
                });
            };
            let Some(next) = machine.goto(from.below, left) else {
                return None;
            };
            state = next;
        }
    }
}

/// The left side to which an action passes the term on top, if it is a reduction that does only that.
fn passed_to<A: Rows<TableAction> + Drop, G: Rows<StateNo> + Drop>(
    machine: &MachineView<'_, A, G>,
    action: TableAction,
) -> Option<Sym>
    requires machine { IsMachine machine.now }
    requires legal { (p : ℕ) → action_from action ≡ reduce p → IsRuleNumber machine.now p }
    ensures pass { IfSome result (λ left. IsPass machine.now (action_from action) left.0) }
    ensures left { IfSome result (λ left. left.0 < machine.now.nonterminals) }
{
    let TableAction::Reduce(number) = action else {
        return None;
    };
    let rule = machine.rule(number);
    if rule.body_length == 1 {
        if let RuleTree::Pass(_) = rule.tree {
            return Some(rule.left);
        }
    }
    None
}
