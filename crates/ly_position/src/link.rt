ghost use Rattle.std.specs.Prelude.{◌≡◌, length, IfOk};
ghost use Rattle.ly_position.specs.Private.Link.{AreTargets, IsLinkOf};
ghost use Rattle.ly_position.specs.Private.Program.{steps_of};
ghost use Rattle.ly_position.specs.Private.Reach.{StaysInside};

use crate::nfa::{Fork, Slot, Target};
use crate::program::Instruction;
use std::alloc::{AllocError, Global};

/// A program as positions and forks.
#[derive(Drop)]
pub struct Linked {
    /// The target of each instruction.
    pub targets: Vec<Target>,
    /// The positions: the reads and ends.
    pub slots: Vec<Slot>,
    /// The forks.
    pub forks: Vec<Fork>,
}

/// Numbers the positions and the forks of a program, and resolves the successors of each.
pub fn link(alloc: Global, code: &[Instruction]) -> Result<Linked, AllocError>
    requires { StaysInside (steps_of code.now) }
    ensures { IfOk result (λ l. IsLinkOf (steps_of code.now) l.targets.items l.slots.items l.forks.items) }
{
    let targets = targets(alloc, code)?;
    let mut slots = Vec::new(alloc);
    let mut forks = Vec::new(alloc);
    for instruction in code {
        match *instruction {
            Instruction::Read(bytes, next) => slots.push(Slot::Reads {
                bytes,
                next: targets[next],
            })?,
            Instruction::Fork(first, second) => forks.push(Fork {
                first: targets[first],
                second: targets[second],
            })?,
            Instruction::End(rule) => slots.push(Slot::Ends(rule))?,
        }
    }
    Ok(Linked {
        targets,
        slots,
        forks,
    })
}

/// The position or fork of each instruction. Both are numbered from 0.
fn targets(alloc: Global, code: &[Instruction]) -> Result<Vec<Target>, AllocError>
    ensures { IfOk result (λ ts. AreTargets (steps_of code.now) ts.items) }
{
    let mut targets = Vec::new(alloc);
    let mut positions = 0u32;
    let mut forks = 0u32;
    for instruction in code {
        // No memory holds more instructions than a u32 can count.
        if let Instruction::Fork(_, _) = instruction {
            targets.push(Target::Fork(forks))?;
            forks = forks.checked_add(1).ok_or(AllocError)?;
        } else {
            targets.push(Target::Position(positions))?;
            positions = positions.checked_add(1).ok_or(AllocError)?;
        }
    }
    Ok(targets)
}
