ghost use Rattle.std.specs.Prelude.{◌≡◌, ◌+◌, ◌^◌, ◌<◌, ◌≤◌, ◌++◌, [], ◌∷◌, nat_eq, IfOk, IfSome, List, OnOk, ℕ};
ghost use Rattle.ly_subset.specs.Private.Packed.{AreWords, breaks_of, members_of, pack, pack_blocks, pack_runs};
ghost use Rattle.ly_subset.specs.Private.Packed.{packed_with, run_of, run_with, unpack, unpack_by};

use crate::chains::Span;
use std::alloc::{AllocError, Global};

/// The number of bits in a block: those of a word.
const BLOCK: u32 = 32;

/// A list that is being packed by blocks.
#[derive(Drop)]
struct Packing {
    /// The finished blocks.
    row: Vec<u32>,
    /// The block of the last number.
    block: u32,
    /// A bitmap of that block's numbers so far.
    bits: u32,
}

impl Packing {
    /// Adds the next number.
    fn add(&mut self, number: u32) -> Result<(), AllocError>
        ensures { OnOk result ((ns : List ℕ) → packed_with self.new ns ≡ packed_with self.old (number ∷ ns)) }
    {
        if number / BLOCK != self.block {
            self.row.push(self.block)?;
            self.row.push(self.bits)?;
            self.block = number / BLOCK;
            self.bits = 0;
        }
        self.bits |= 1 << (number % BLOCK);
        Ok(())
    }
}

/// A list that is being packed by runs.
#[derive(Drop)]
struct Running {
    /// The finished runs.
    row: Vec<u32>,
    /// The first number of the last run.
    first: u32,
    /// The last number of the last run so far.
    last: u32,
}

impl Running {
    /// Adds the next number.
    fn add(&mut self, number: u32) -> Result<(), AllocError>
        ensures { OnOk result ((ns : List ℕ) → run_with self.new ns ≡ run_with self.old (number ∷ ns)) }
    {
        if !is_next(self.last, number) {
            self.row.push(self.first)?;
            self.row.push(self.last)?;
            self.first = number;
        }
        self.last = number;
        Ok(())
    }
}

/// Whether a number is the successor of another.
fn is_next(before: u32, number: u32) -> bool
    ensures { result ≡ nat_eq number (before + 1) }
{
    number > 0 && number - 1 == before
}

/// Packs an ascending list by its runs if these are long, else by blocks. The first word of the row records which. The
/// row is at most three words longer than twice the list, and takes little more than two bits for each possible number.
pub(crate) fn pack(alloc: Global, numbers: &[u32]) -> Result<Vec<u32>, AllocError>
    ensures packed { IfOk result (λ r. r.items ≡ pack numbers.now) }
    ensures words { AreWords numbers.now }
{
    if breaks(numbers) <= numbers.len() / BLOCK as usize {
        pack_runs(alloc, numbers)
    } else {
        pack_blocks(alloc, numbers)
    }
}

/// The packed list of the numbers of a run.
pub(crate) fn pack_span(alloc: Global, span: Span) -> Result<Vec<u32>, AllocError>
    requires { span.first ≤ span.last }
    ensures packed { IfOk result (λ r. r.items ≡ 1 ∷ span.first ∷ span.last ∷ []) }
    ensures fits { span.last < 2 ^ 32 }
{
    let row = vec![in alloc; 1, span.first, span.last]?;
    Ok(row)
}

/// How often a number isn't the successor of the one before it.
fn breaks(numbers: &[u32]) -> usize
    ensures { result ≡ breaks_of numbers.now }
{
    let mut count = 0usize;
    for at in 1..numbers.len() {
        if !is_next(numbers[at - 1], numbers[at]) {
            count += 1;
        }
    }
    count
}

/// Packs by runs: the first and the last number of each.
fn pack_runs(alloc: Global, numbers: &[u32]) -> Result<Vec<u32>, AllocError>
    ensures { IfOk result (λ r. r.items ≡ 1 ∷ pack_runs numbers.now) }
{
    let mut row = Vec::new(alloc);
    row.push(1)?;
    let Some(first) = numbers.first() else {
        return Ok(row);
    };
    let mut running = Running {
        row,
        first: *first,
        last: *first,
    };
    for at in 1..numbers.len() {
        running.add(numbers[at])?;
    }
    running.row.push(running.first)?;
    running.row.push(running.last)?;
    Ok(running.row)
}

/// Packs by blocks: for each block with members, its number and a bitmap.
fn pack_blocks(alloc: Global, numbers: &[u32]) -> Result<Vec<u32>, AllocError>
    ensures { IfOk result (λ r. r.items ≡ 0 ∷ pack_blocks numbers.now) }
{
    let mut row = Vec::new(alloc);
    row.push(0)?;
    let Some(first) = numbers.first() else {
        return Ok(row);
    };
    let mut packing = Packing {
        row,
        block: *first / BLOCK,
        bits: 0,
    };
    for number in numbers {
        packing.add(*number)?;
    }
    packing.row.push(packing.block)?;
    packing.row.push(packing.bits)?;
    Ok(packing.row)
}

/// Unpacks a list.
pub(crate) fn unpack(alloc: Global, row: &[u32]) -> Result<Vec<u32>, AllocError>
    requires { AreWords (unpack row.now) }
    ensures { IfOk result (λ m. m.items ≡ unpack row.now) }
{
    match row.split_first() {
        None => Ok(Vec::new(alloc)),
        Some((kind, pairs)) if *kind == 0 => unpack_blocks(alloc, pairs),
        Some((_, pairs)) => unpack_runs(alloc, pairs),
    }
}

/// Returns the run of a packed list that is a single run.
pub(crate) fn unpack_run(row: &[u32]) -> Option<Span>
    ensures { IfSome result (λ s. run_of s.first s.last ≡ unpack row.now) }
{
    if row.len() == 3 && row[0] > 0 {
        Some(Span {
            first: row[1],
            last: row[2],
        })
    } else {
        None
    }
}

/// The numbers of a run.
pub(crate) fn numbers(alloc: Global, span: Span) -> Result<Vec<u32>, AllocError>
    ensures { IfOk result (λ n. n.items ≡ run_of span.first span.last) }
{
    let mut numbers = Vec::new(alloc);
    push_run(&mut numbers, span.first, span.last)?;
    Ok(numbers)
}

/// Unpacks blocks.
fn unpack_blocks(alloc: Global, row: &[u32]) -> Result<Vec<u32>, AllocError>
    requires { AreWords (unpack_by members_of row.now) }
    ensures { IfOk result (λ m. m.items ≡ unpack_by members_of row.now) }
{
    let mut numbers = Vec::new(alloc);
    for pair in 0..row.len() / 2 {
        push_members(&mut numbers, row[2 * pair], row[2 * pair + 1])?;
    }
    Ok(numbers)
}

/// Unpacks runs.
fn unpack_runs(alloc: Global, row: &[u32]) -> Result<Vec<u32>, AllocError>
    requires { AreWords (unpack_by run_of row.now) }
    ensures { IfOk result (λ m. m.items ≡ unpack_by run_of row.now) }
{
    let mut numbers = Vec::new(alloc);
    for pair in 0..row.len() / 2 {
        push_run(&mut numbers, row[2 * pair], row[2 * pair + 1])?;
    }
    Ok(numbers)
}

/// Appends the numbers of a run.
fn push_run(numbers: &mut Vec<u32>, first: u32, last: u32) -> Result<(), AllocError>
    ensures { OnOk result (numbers.new.items ≡ numbers.old.items ++ run_of first last) }
{
    for number in u64::from(first)..u64::from(last) + 1 {
        numbers.push(number as u32)?;
    }
    Ok(())
}

/// Appends the members of a block.
fn push_members(numbers: &mut Vec<u32>, block: u32, bits: u32) -> Result<(), AllocError>
    requires { AreWords (members_of block bits) }
    ensures { OnOk result (numbers.new.items ≡ numbers.old.items ++ members_of block bits) }
{
    for bit in 0..BLOCK {
        if bits >> bit & 1 == 1 {
            numbers.push(BLOCK * block + bit)?;
        }
    }
    Ok(())
}
