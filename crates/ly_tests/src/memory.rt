//! Out of memory: a result is right, or it is out of memory, and nothing else. Here this is tested for `tokens`.

use ly_engine::{AnswerForm, TokenEnd, TokensFault, tokens};
use ly_print::{Counted, MemSource};
use std::alloc::{AllocError, Global};
use std::test::Fail;

const LEX: &[u8] = b"%%\nif return IF;\n[a-z]+ return ID;\n\" \" ;\n";

const TEXT: &[u8] = b"if ifx";

const LINES: &[u8] = b"IF\"if\"\nID\"ifx\"\n";

/// The number of tries.
pub(crate) const TRIES: u32 = 4_000;

/// Allocates this many small blocks, one after another.
pub(crate) fn small_blocks(alloc: Global, count: u32) -> Result<Vec<Vec<u8>>, AllocError> {
    let mut blocks = Vec::new(alloc);
    for _ in 0..count {
        blocks.push(Vec::with_capacity(alloc, 256)?)?;
    }
    Ok(blocks)
}

/// Frees the last block.
pub(crate) fn give_back(blocks: &mut Vec<Vec<u8>>) {
    let _ = blocks.pop();
}

/// Allocates all memory that is left, the smallest blocks last.
pub(crate) fn hog(alloc: Global) -> Vec<Vec<u8>> {
    let mut held = Vec::new(alloc);
    let _ = held.reserve(60_000);
    let mut size = 1usize << 46;
    for _ in 0..60_000u32 {
        match Vec::with_capacity(alloc, size) {
            Ok(block) => {
                if held.push(block).is_err() {
                    return held;
                }
            }
            Err(_) => {
                size /= 2;
                if size < 32 {
                    return held;
                }
            }
        }
    }
    held
}

/// How a try ends.
#[derive(Clone, Copy)]
pub(crate) enum Trial {
    /// With the right lines.
    Answered,
    /// Out of memory, with nothing written.
    Refused,
    /// In any other way.
    Wrong,
}

/// What is tried again and again, with more memory each time.
pub(crate) trait Attempt {
    /// Makes one try.
    fn trial(&mut self, alloc: Global) -> Trial;
}

/// How many of the tries run out of memory, and how many succeed. One block is freed before each.
fn trials<A: Attempt>(
    alloc: Global,
    blocks: &mut Vec<Vec<u8>>,
    attempt: &mut A,
    count: u32,
) -> Result<(u32, u32), Fail> {
    let mut refused = 0u32;
    let mut answered = 0u32;
    for _ in 0..count {
        match attempt.trial(alloc) {
            Trial::Answered => answered = answered.wrapping_add(1),
            Trial::Refused => refused = refused.wrapping_add(1),
            Trial::Wrong => return Err(Fail::from("neither the lines nor a want of memory")),
        }
        give_back(blocks);
    }
    Ok((refused, answered))
}

/// How many of the tries run out of memory and succeed, if no memory is left at first and each try gets one more small
/// block. (All memory can be allocated if a process has a limit of it, or if its addresses end.) That memory never runs
/// out while there is enough is shown by the worked examples.
pub(crate) fn trials_of_all_room<A: Attempt>(
    alloc: Global,
    attempt: &mut A,
    count: u32,
) -> Result<(u32, u32), Fail> {
    let mut blocks = small_blocks(alloc, count)?;
    let _held = hog(alloc);
    trials(alloc, &mut blocks, attempt, count)
}

/// The tokens of `TEXT`.
#[derive(Drop)]
struct Tokens;

impl Tokens {
    /// Writes them to a block.
    fn write_into(alloc: Global, room: &mut [u8]) -> Result<TokenEnd, TokensFault> {
        let mut writer = Counted::new(room);
        tokens(
            alloc,
            LEX,
            AnswerForm::Plain,
            &mut MemSource::new(TEXT),
            &mut writer,
        )
    }
}

impl Attempt for Tokens {
    fn trial(&mut self, alloc: Global) -> Trial {
        let mut room = [0u8; LINES.len() + 1];
        let result = Tokens::write_into(alloc, &mut room);
        let (written, left) = room.split_at(LINES.len());
        if left != [0].as_slice() {
            return Trial::Wrong;
        }
        match result {
            Ok(TokenEnd::Clean) if written == LINES => Trial::Answered,
            Err(TokensFault::OutOfMemory) if written == [0; LINES.len()].as_slice() => {
                Trial::Refused
            }
            _ => Trial::Wrong,
        }
    }
}

#[test]
fn want_of_memory_is_told(rt: HostRuntime) -> Result<(), Fail> {
    let (refused, answered) = trials_of_all_room(rt.alloc(), &mut Tokens, TRIES)?;
    assert!(rt;
        refused > 0 && answered > 0,
        "{refused} refused, {answered} answered"
    );
    Ok(())
}
