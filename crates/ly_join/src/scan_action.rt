//! The actions of a lex file's rules, over numbered terminals.
ghost use Rattle.std.specs.Prelude.{◌≡◌, map, IfErr, IfOk};
ghost use Rattle.std.specs.List.{AllZip};
ghost use Rattle.ly_join.specs.Scanning.{acting_of, returning_of, IsEmitted, IsScanAction};
ghost use Rattle.ly_join.specs.Private.Rules.{IsFaultOfActions, IsUndeclaredIn};

use crate::fault::JoinFault;
use crate::terminal::Terminals;
use ly_base::{Emitted, ScanAction};
use ly_lexread::{LexAction, Returned};
use std::alloc::Global;

/// The actions of a lex file.
pub(crate) fn scan_actions(
    alloc: Global,
    terminals: &Terminals<'_>,
    actions: &[LexAction],
) -> Result<Vec<ScanAction>, JoinFault>
    ensures ok { IfOk result (λ joined.
        AllZip (IsScanAction terminals.now) (map acting_of actions.now) joined.items) }
    ensures fault { IfErr result (IsFaultOfActions terminals.now (map acting_of actions.now)) }
{
    let mut joined = Vec::new(alloc);
    for action in actions {
        let emits = emitted_by(alloc, terminals, &action.returns)?;
        joined.push(ScanAction {
            begin: action.begin,
            emits,
        })?;
    }
    Ok(joined)
}

/// The token that an action emits, from what it returns.
fn emitted_by(
    alloc: Global,
    terminals: &Terminals<'_>,
    returned: &Returned,
) -> Result<Emitted, JoinFault>
    ensures ok { IfOk result (IsEmitted terminals.now (returning_of returned.now)) }
    ensures fault { IfErr result (IsUndeclaredIn terminals.now (returning_of returned.now)) }
{
    match returned {
        Returned::Nothing => Ok(Emitted::Nothing),
        Returned::FirstByte => Ok(Emitted::FirstByte),
        Returned::Literal(byte) => Ok(Emitted::Terminal(terminals.of_byte(*byte))),
        Returned::Token(name) => match terminals.token(name) {
            Some(terminal) => Ok(Emitted::Terminal(terminal)),
            None => Err(JoinFault::ReturnUndeclared(Vec::from_slice(alloc, name)?)),
        },
    }
}
