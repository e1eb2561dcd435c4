ghost use Rattle.std.specs.Prelude.{◌≡◌, ◌<◌, length, All, IfOk};
ghost use Rattle.ly_subset.specs.Automaton.{IsAutomaton, IsTrim};
ghost use Rattle.ly_minim.specs.Private.Blocks.{AreApart, AreBlocks};
ghost use Rattle.ly_minim.specs.Private.Groups.{AreChains, AreGrouped};
ghost use Rattle.ly_minim.specs.Private.Halves.{AreGroupsOf, AreUnions, IsByClass, IsRefinedBy};
ghost use Rattle.ly_minim.specs.Private.Partition.{AreClear, IsPartition};
ghost use Rattle.ly_minim.specs.Private.Signature.{block_of};

use crate::blocks::Blocks;
use crate::groups::Groups;
use crate::partition::Partition;
use ly_subset::Dfa;
use std::alloc::{AllocError, Global};

/// Refines a partition by halves (Hopcroft 1971). Whenever a block is split, the smaller half is kept; later it splits
/// the blocks by their transitions into it.
pub(crate) fn refine_by_halves(
    alloc: Global,
    dfa: &Dfa,
    start: &Blocks,
    states: u32,
) -> Result<Blocks, AllocError>
    requires states { states ≡ length dfa.now.rules }
    requires start { AreBlocks (length dfa.now.rules) start.now.of.items start.now.count }
    ensures blocks { IfOk result (λ b. AreBlocks (length dfa.now.rules) b.of.items b.count) }
    ensures apart { IfOk result (λ b. IsAutomaton dfa.now → IsTrim dfa.now → AreApart dfa.now start.now.of.items
        → AreApart dfa.now b.of.items) }
{
    if states == 0 {
        return Ok(Blocks {
            of: Vec::new(alloc),
            count: 0,
        });
    }
    let mut halves = Vec::new(alloc);
    let mut partition = start_partition(alloc, start, states, &mut halves)?;
    let by_class = groups_by_class(alloc, dfa, states)?;
    while let Some(half) = halves.pop() {
        for groups in &by_class {
            partition.split_by(alloc, groups, &half, &mut halves)?;
        }
    }
    Ok(Blocks {
        count: partition.first.len(),
        of: partition.of,
    })
}

/// The partition with the given blocks, and the halves that were split off on the way.
fn start_partition(
    alloc: Global,
    start: &Blocks,
    states: u32,
    halves: &mut Vec<Vec<u32>>,
) -> Result<Partition, AllocError>
    requires some { 0 < states }
    requires start { AreBlocks states start.now.of.items start.now.count }
    requires halves { length halves.old.items ≡ 0 }
    ensures laid { IfOk result IsPartition }
    ensures clear { IfOk result AreClear }
    ensures count { IfOk result (λ p. length p.of.items ≡ states) }
    ensures within { IfOk result (λ p. IsRefinedBy states p.of.items start.now.of.items) }
    ensures halves { IfOk result (λ p. AreUnions p.of.items halves.new.items) }
{
    let mut partition = Partition::whole(alloc, states)?;
    let groups = groups_of_blocks(alloc, start, states)?;
    for block in 0..start.count {
        partition.split_by(alloc, &groups, &[block as u32], halves)?;
    }
    Ok(partition)
}

/// The states of each block.
fn groups_of_blocks(alloc: Global, blocks: &Blocks, states: u32) -> Result<Groups, AllocError>
    requires { AreBlocks states blocks.now.of.items blocks.now.count }
    ensures keys { IfOk result (λ g. length g.last ≡ blocks.now.count) }
    ensures chains { IfOk result (λ g. AreChains states g.last g.before) }
    ensures grouped { IfOk result (λ g. AreGrouped states (λ s. Some (block_of blocks.now.of.items s)) g.last
        g.before) }
{
    let mut groups = Groups::new(alloc, blocks.count)?;
    for state in 0..states {
        groups.push(state, Some(blocks.of[state as usize]))?;
    }
    Ok(groups)
}

/// For each class the states by their target.
fn groups_by_class(alloc: Global, dfa: &Dfa, states: u32) -> Result<Vec<Groups>, AllocError>
    requires { states ≡ length dfa.now.rules }
    ensures { IfOk result (λ v. All (IsByClass dfa.now) v.items) }
{
    let mut by_class = Vec::with_capacity(alloc, dfa.classes())?;
    for class in 0..dfa.classes() {
        by_class.push(groups_of_class(alloc, dfa, states, class)?)?;
    }
    Ok(by_class)
}

/// The states by their target by a class.
fn groups_of_class(
    alloc: Global,
    dfa: &Dfa,
    states: u32,
    class: usize,
) -> Result<Groups, AllocError>
    requires states { states ≡ length dfa.now.rules }
    requires class { class < dfa.now.classes }
    ensures { IfOk result (AreGroupsOf dfa.now class) }
{
    let mut groups = Groups::new(alloc, dfa.len())?;
    for state in 0..states {
        groups.push(state, dfa.next(state, class))?;
    }
    Ok(groups)
}
