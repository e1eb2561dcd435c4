// Patterns become positions in four steps.
// - Names and intervals are expanded into a graph of plain expressions. The graph shares equal parts and leaves out
//   redundant operators.
// - The graph is compiled to a program of reads, forks and ends (Thompson 1968). Each pattern is compiled from its end
//   to its start, so an instruction is final when it is appended.
// - The reads and ends of the program are the positions (McNaughton and Yamada 1960). The positions that may follow one
//   are those that its successor reaches through forks alone. These follow lists aren't built: for a sequence of
//   optional parts their total length is quadratic. Each step follows the forks instead, each fork once, so memory is
//   linear in the expanded patterns.
// - Only the start lists are built, and equal ones are stored once.
// Nothing recurses, so nesting costs only memory.
ghost use Rattle.std.specs.Prelude.{◌≡◌, ◌<◌, ◌≤◌, length, All, IfOk, IsErrOf, OnOk};
ghost use Rattle.ly_ere.specs.Names.{defined};
ghost use Rattle.ly_position.specs.Private.Plain.{IsPlainPart};
ghost use Rattle.ly_position.specs.Private.Program.{steps_of};
ghost use Rattle.ly_position.specs.Private.Reach.{StaysInside};
ghost use Rattle.ly_position.specs.Patterns.{ArePositions};
ghost use Rattle.ly_position.specs.Spots.{HasPositions};
ghost use Rattle.ly_position.specs.Private.Assembled.{Assembled};
ghost use Rattle.ly_position.specs.TotalWeight.{total_weight};

use crate::fault::PosFault;
use crate::link::link;
use crate::nfa::PosNfa;
use crate::plan::write_out;
use crate::program::{Program, compile};
use crate::starts::starts;
use crate::weight::weigh_all;
use ly_base::Limits;
use ly_ere::{Names, Rule};
use std::alloc::{AllocError, Global};

/// Computes the positions of the rules, with start lists for this many conditions.
///
/// Errors: `TooManyPositions` if the weight of all patterns together is above the limit, `OutOfMemory` if an allocation
/// failed.
pub fn positions(
    alloc: Global,
    rules: &[Rule],
    names: &Names,
    conditions: u32,
    limits: &Limits,
) -> Result<PosNfa, PosFault>
    ensures positions { IfOk result (ArePositions (defined names.now) rules.now conditions) }
    ensures spots { IfOk result (HasPositions (defined names.now) rules.now conditions) }
    ensures light { OnOk result (total_weight (defined names.now) rules.now ≤ limits.now.total_weight) }
    ensures heavy { IsErrOf result PosFault.TooManyPositions → limits.now.total_weight <
        total_weight (defined names.now) rules.now }
{
    if weigh_all(alloc, rules, names, limits.total_weight())?.is_none() {
        return Err(PosFault::TooManyPositions);
    }
    let plan = write_out(alloc, rules, names)?;
    let program = compile(alloc, &plan)?;
    drop(plan);
    Ok(assemble(alloc, rules, conditions, &program)?)
}

/// Computes the positions of a program: its reads and ends, and what each reaches through forks alone.
fn assemble(
    alloc: Global,
    rules: &[Rule],
    conditions: u32,
    program: &Program,
) -> Result<PosNfa, AllocError>
    requires closed { StaysInside (steps_of program.now.instructions.items) }
    requires within { All (IsPlainPart (length program.now.instructions.items))
        program.now.entries.items }
    requires count { length program.now.entries.items ≡ length rules.now }
    ensures { IfOk result (Assembled (steps_of program.now.instructions.items) rules.now
        program.now.entries.items conditions) }
{
    let linked = link(alloc, &program.instructions)?;
    let starts = starts(alloc, rules, conditions, program, &linked)?;
    Ok(PosNfa::of(linked.slots, linked.forks, starts))
}
