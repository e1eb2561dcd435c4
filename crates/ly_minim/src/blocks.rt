ghost use Rattle.std.specs.Prelude.{◌≡◌, ◌<◌, ◌≤◌, length, IfOk};
ghost use Rattle.ly_subset.specs.Automaton.{IsTrim};
ghost use Rattle.ly_minim.specs.Private.Blocks.{AreApart, AreBlocks, IsNamed, IsRefined, IsStable};

use crate::halves::refine_by_halves;
use crate::signature::signature;
use ly_base::OutOfMemory;
use ly_subset::{Dfa, Keys};
use std::alloc::{AllocError, Global};

/// A partition of the states into blocks.
#[derive(Drop)]
pub(crate) struct Blocks {
    /// The block of each state.
    pub(crate) of: Vec<u32>,
    /// The number of blocks.
    pub(crate) count: usize,
}

/// Computes the coarsest partition in which the states of a block have the same rule, and each class leads from all of
/// them to one block or from none of them anywhere. It is refined by halves (Hopcroft 1971), then by rounds over all
/// states until a round splits no block (Moore 1956). If the halves left nothing to split, the first round is the last.
pub(crate) fn coarsest(alloc: Global, dfa: &Dfa) -> Result<Blocks, OutOfMemory>
    ensures blocks { IfOk result (λ b. AreBlocks (length dfa.now.rules) b.of.items b.count) }
    ensures stable { IfOk result (λ b. IsStable dfa.now b.of.items) }
    ensures apart { IfOk result (λ b. IsTrim dfa.now → AreApart dfa.now b.of.items) }
{
    let Ok(states) = u32::try_from(dfa.len()) else {
        return Err(OutOfMemory);
    };
    let start = refine(alloc, dfa, &vec![in alloc; 0; dfa.len()]?, states)?;
    let mut blocks = refine_by_halves(alloc, dfa, &start, states)?;
    loop {
        let finer = refine(alloc, dfa, &blocks.of, states)?;
        if finer.count == blocks.count {
            return Ok(blocks);
        }
        blocks = finer;
    }
}

/// Splits the blocks of a partition by the signatures of their states.
fn refine(alloc: Global, dfa: &Dfa, of: &[u32], states: u32) -> Result<Blocks, AllocError>
    requires states { states ≡ length dfa.now.rules }
    requires of { length of.now ≡ length dfa.now.rules }
    ensures refined { IfOk result (λ b. IsRefined dfa.now of.now b.of.items) }
    ensures blocks { IfOk result (λ b. AreBlocks (length dfa.now.rules) b.of.items b.count) }
{
    let mut keys = Keys::new(alloc);
    let mut finer = Vec::with_capacity(alloc, of.len())?;
    for state in 0..states {
        let key = signature(alloc, dfa, of, state)?;
        finer.push(number(&mut keys, key)? as u32)?;
    }
    Ok(Blocks {
        of: finer,
        count: keys.len(),
    })
}

/// The number of a key. A new key gets the next number.
fn number(keys: &mut Keys, key: Vec<u32>) -> Result<usize, AllocError>
    ensures { IfOk result (IsNamed keys.old key.items keys.new) }
{
    if let Some(number) = keys.find(&key) {
        return Ok(number);
    }
    let number = keys.len();
    keys.push(key)?;
    Ok(number)
}
