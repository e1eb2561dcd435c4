ghost use Rattle.std.specs.Prelude.{◌≡◌, ◌<◌, ◌++◌, length, IfOk, OnOk, option_map};
ghost use Rattle.ly_subset.specs.Automaton.{next_by_class};
ghost use Rattle.ly_minim.specs.Private.Signature.{block_of, block_after, marked, signature_of};

use ly_base::OutOfMemory;
use ly_subset::Dfa;
use std::alloc::{AllocError, Global};

/// The signature of a state under a partition: its block, its rule, and the blocks that its classes lead to.
pub(crate) fn signature(
    alloc: Global,
    dfa: &Dfa,
    of: &[u32],
    state: u32,
) -> Result<Vec<u32>, AllocError>
    requires state { state < length dfa.now.rules }
    requires states { length of.now ≡ length dfa.now.rules }
    ensures { IfOk result (λ key. key.items ≡ signature_of dfa.now of.now state) }
{
    let length = dfa.classes().saturating_mul(2).saturating_add(3);
    let mut key = Vec::with_capacity(alloc, length)?;
    key.push(of[state as usize])?;
    push_marked(&mut key, dfa.rule(state).map(|rule| rule.0))?;
    for class in 0..dfa.classes() {
        push_marked(&mut key, block_after(dfa, of, state, class))?;
    }
    Ok(key)
}

/// Appends whether there is a number, then the number.
fn push_marked(key: &mut Vec<u32>, number: Option<u32>) -> Result<(), AllocError>
    ensures { OnOk result (key.new.items ≡ key.old.items ++ marked number) }
{
    match number {
        Some(number) => {
            key.push(1)?;
            key.push(number)?;
        }
        None => {
            key.push(0)?;
            key.push(0)?;
        }
    }
    Ok(())
}

/// The block that a class leads to from a state, if it leads anywhere.
fn block_after(dfa: &Dfa, of: &[u32], state: u32, class: usize) -> Option<u32>
    requires state { state < length dfa.now.rules }
    requires class { class < dfa.now.classes }
    requires states { length of.now ≡ length dfa.now.rules }
    ensures { result ≡ option_map (block_of of.now) (next_by_class dfa.now state class) }
{
    match dfa.next(state, class) {
        Some(next) => Some(of[next as usize]),
        None => None,
    }
}
