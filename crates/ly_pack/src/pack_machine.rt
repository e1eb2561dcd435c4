ghost use Rattle.std.specs.Prelude.{◌≡◌, ℕ, length, IfOk};
ghost use Rattle.ly_pack.specs.Rows.{comb_entry, dense_entry};

use crate::action::TableAction;
use crate::dense::Dense;
use crate::machine::Machine;
use crate::machine_parts::MachineParts;
use crate::packed::Packed;
use crate::placing::comb;
use ly_base::{OutOfMemory, StateNo};
use std::alloc::Global;

/// The machine over combs that are placed by first fit. It fails if an allocation fails, or if a base or a column
/// doesn't fit in a `u32`.
pub fn pack(
    alloc: Global,
    machine: Machine<Dense<TableAction>, Dense<StateNo>>,
) -> Result<Machine<Packed<TableAction>, Packed<StateNo>>, OutOfMemory>
    ensures { IfOk result (λ packed. packed ≡ machine) }
{
    let MachineParts {
        terminals,
        nonterminals,
        actions,
        gotos,
        defaults,
        rules,
    } = machine.into_parts();
    Ok(Machine::new(MachineParts {
        terminals,
        nonterminals,
        actions: pack_rows(alloc, &actions)?,
        gotos: pack_rows(alloc, &gotos)?,
        defaults,
        rules,
    }))
}

/// The rows as a comb.
fn pack_rows<E: Copy>(alloc: Global, dense: &Dense<E>) -> Result<Packed<E>, OutOfMemory>
    ensures entries { IfOk result (λ packed. (row column : ℕ) → comb_entry packed row column
        ≡ dense_entry dense.now row column) }
    ensures rows { IfOk result (λ packed. length packed.bases ≡ dense.now.rows) }
    ensures width { IfOk result (λ packed. packed.width ≡ dense.now.width) }
{
    Ok(Packed::new(comb(alloc, dense)?))
}
