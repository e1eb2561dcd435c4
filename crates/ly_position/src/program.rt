ghost use Rattle.std.specs.Prelude.{◌≡◌, ℕ, ◌+◌, ◌^◌, ◌<◌, ◌≤◌, List, ◌∷◌, ◌++◌, length, map, min, reverse};
ghost use Rattle.std.specs.Prelude.{sum_by, All, IfOk, OnOk};
ghost use Rattle.ly_ere.specs.Arena.{part_of, FitsAt};
ghost use Rattle.ly_position.specs.Private.Plain.{IsPlainPart, listed};
ghost use Rattle.ly_position.specs.Private.Program.{code, counted, ends, entry, most_counted, node_size, size};
ghost use Rattle.ly_position.specs.Private.Program.{steps_of, IsPlainExpression};
ghost use Rattle.ly_position.specs.Private.Compile.{IsProgram, TaskFits, planned, task_work, work};

use crate::plain::Plain;
use crate::plan::Plan;
use ly_base::{ByteSet, RuleNo};
use ly_ere::Node;
use std::alloc::{AllocError, Global};

/// An instruction of a program that reads a string (Thompson 1968). Instructions refer to others by number.
#[derive(Clone, Copy)]
pub enum Instruction {
    /// Reads a byte of the set and continues at the instruction.
    Read(ByteSet, usize),
    /// Continues at either instruction.
    Fork(usize, usize),
    /// The pattern of the rule ends here.
    End(RuleNo),
}

/// The program of all rules.
#[derive(Drop)]
pub struct Program {
    /// The instructions.
    pub instructions: Vec<Instruction>,
    /// For each rule the instruction where it begins; `None` if it matches nothing.
    pub entries: Vec<Option<usize>>,
}

/// A task: something still to be appended to a program.
#[derive(Clone, Copy)]
pub enum Task {
    /// The code of an expression, which continues at an instruction.
    Code(usize, usize),
    /// A fork.
    Fork(usize, usize),
}

/// Plain expressions and the size of each one's code.
#[derive(Drop)]
struct Measured<'a> {
    /// The expressions.
    plain: &'a Plain,
    /// The sizes in instructions, capped at the greatest number: an expression that no rule uses, such as the operand
    /// of `(((a{255}){255}){255}){0}`, may have code of any size.
    sizes: &'a [usize],
    ghost measured: { sizes.now ≡ map counted plain.now },
}

impl Measured<'_> {
    /// The size of an expression's code in instructions, capped at the greatest number.
    fn size(&self, part: usize) -> usize
        requires part { part < length self.now.plain.now }
        requires room { size (part_of self.now.plain.now part) < 2 ^ 64 }
        ensures { result ≡ size (part_of self.now.plain.now part) }
    {
        self.sizes[part]
    }
}

/// Compiles a plan. For each rule it appends the end mark and then the code, so that the code comes after its
/// successor.
pub fn compile(alloc: Global, plan: &Plan) -> Result<Program, AllocError>
    requires { All (IsPlainPart (length plan.now.plain)) plan.now.parts.items }
    ensures { IfOk result (λ p. IsProgram (listed plan.now.plain plan.now.parts.items)
        (length plan.now.parts.items) (steps_of p.instructions.items) p.entries.items) }
{
    let sizes = sizes(alloc, &plan.plain)?;
    let source = Measured {
        plain: &plan.plain,
        sizes: &sizes,
    };
    let mut program = Program {
        instructions: Vec::new(alloc),
        entries: Vec::new(alloc),
    };
    for (number, part) in plan.parts.iter().enumerate() {
        let entry = match part {
            None => None,
            Some(part) => Some(append_rule(
                alloc,
                &source,
                &mut program.instructions,
                number,
                *part,
            )?),
        };
        program.entries.push(entry)?;
    }
    Ok(program)
}

/// Appends the end mark of a rule and its code. Returns where the code begins.
fn append_rule(
    alloc: Global,
    source: &Measured,
    instructions: &mut Vec<Instruction>,
    rule: usize,
    part: usize,
) -> Result<usize, AllocError>
    requires part { part < length source.now.plain.now }
    ensures entry { IfOk result (λ e.
        e ≡ entry (length instructions.old.items + 1) (size (part_of source.now.plain.now part))
        (length instructions.old.items)) }
    ensures steps { OnOk result (steps_of instructions.new.items
        ≡ steps_of instructions.old.items
        ++ ends rule ∷ code (part_of source.now.plain.now part)
        (length instructions.old.items + 1) (length instructions.old.items)) }
{
    let end = instructions.len();
    // No memory holds so many rules or steps that one of these numbers doesn't fit.
    let number = u32::try_from(rule).map_err(|_| AllocError)?;
    let size = source.sizes[part].checked_add(1).ok_or(AllocError)?;
    let after = end.checked_add(size).ok_or(AllocError)?;
    instructions.push(Instruction::End(RuleNo(number)))?;
    append(alloc, source, instructions, part, end)?;
    Ok(after - 1)
}

/// Appends the code of an expression that continues at `next`.
fn append(
    alloc: Global,
    source: &Measured,
    instructions: &mut Vec<Instruction>,
    part: usize,
    next: usize,
) -> Result<(), AllocError>
    requires part { part < length source.now.plain.now }
    requires room { length instructions.old.items + size (part_of source.now.plain.now part) < 2 ^ 64 }
    ensures { OnOk result (steps_of instructions.new.items ≡ steps_of instructions.old.items ++
        code (part_of source.now.plain.now part) (length instructions.old.items) next) }
{
    let mut tasks = Vec::new(alloc);
    tasks.push(Task::Code(part, next))?;
    while let Some(task) = tasks.pop() {
        match task {
            Task::Fork(first, second) => instructions.push(Instruction::Fork(first, second))?,
            Task::Code(part, next) => {
                append_node(source, instructions, &mut tasks, part, next)?;
            }
        }
    }
    Ok(())
}

/// Appends the first instruction of an expression's code, and adds tasks for the rest.
fn append_node(
    source: &Measured,
    instructions: &mut Vec<Instruction>,
    tasks: &mut Vec<Task>,
    part: usize,
    next: usize,
) -> Result<(), AllocError>
    requires part { part < length source.now.plain.now }
    requires room { length instructions.old.items + size (part_of source.now.plain.now part) < 2 ^ 64 }
    requires tasks { All (TaskFits (length source.now.plain.now)) tasks.old.items }
    ensures fits { OnOk result (All (TaskFits (length source.now.plain.now)) tasks.new.items) }
    ensures less { OnOk result (sum_by (task_work source.now.plain.now) tasks.new.items
        < sum_by (task_work source.now.plain.now) tasks.old.items + work (part_of source.now.plain.now part)) }
    ensures steps { OnOk result (
        steps_of instructions.new.items
        ++ planned source.now.plain.now (reverse tasks.new.items) (length instructions.new.items)
        ≡ steps_of instructions.old.items
        ++ (code (part_of source.now.plain.now part) (length instructions.old.items) next
        ++ planned source.now.plain.now (reverse tasks.old.items)
        (length instructions.old.items + size (part_of source.now.plain.now part)))) }
{
    let base = instructions.len();
    match source.plain.node(part) {
        Node::Set(bytes) => Ok(instructions.push(Instruction::Read(bytes, next))?),
        Node::Concat(a, b) => {
            let middle = entry_at(base, source.size(b), next);
            tasks.extend_from_slice(&[Task::Code(a, middle), Task::Code(b, next)])
        }
        Node::Either(a, b) => {
            let first = entry_at(base, source.size(a), next);
            let second = entry_at(base + source.size(a), source.size(b), next);
            tasks.extend_from_slice(&[
                Task::Fork(first, second),
                Task::Code(b, next),
                Task::Code(a, next),
            ])
        }
        Node::Star(a) => {
            let fork = base + source.size(a);
            let first = entry_at(base, source.size(a), fork);
            tasks.extend_from_slice(&[Task::Fork(first, next), Task::Code(a, fork)])
        }
        Node::Plus(a) => {
            let first = entry_at(base + 1, source.size(a), base);
            instructions.push(Instruction::Fork(first, next))?;
            tasks.extend_from_slice(&[Task::Code(a, base)])
        }
        Node::Optional(a) => {
            let first = entry_at(base, source.size(a), next);
            tasks.extend_from_slice(&[Task::Fork(first, next), Task::Code(a, next)])
        }
        Node::Empty | Node::Repeat { .. } | Node::Name(_) => Ok(()),
    }
}

/// The start of code of this size that is appended at `base` and continues at `next`.
fn entry_at(base: usize, size: usize, next: usize) -> usize
    requires { base + size < 2 ^ 64 }
    ensures { result ≡ entry base size next }
{
    if size == 0 { next } else { base + size - 1 }
}

/// The size of each expression's code in instructions, capped.
fn sizes(alloc: Global, plain: &Plain) -> Result<Vec<usize>, AllocError>
    ensures sizes { IfOk result (λ ss. ss.items ≡ map counted plain.now) }
    ensures plain { OnOk result (All IsPlainExpression plain.now) }
{
    let mut sizes = Vec::new(alloc);
    for number in 0..plain.len() {
        sizes.push(counted_size(plain.node(number), &sizes))?;
    }
    Ok(sizes)
}

/// The size of a node's code in instructions, computed from those of the nodes before it.
fn counted_size(node: Node, sizes: &[usize]) -> usize
    requires { FitsAt (length sizes.now) node }
    ensures { result ≡ min (node_size sizes.now node) most_counted }
{
    match node {
        Node::Set(_) => 1,
        Node::Concat(a, b) => sizes[a].saturating_add(sizes[b]),
        Node::Either(a, b) => sizes[a].saturating_add(sizes[b]).saturating_add(1),
        Node::Star(a) | Node::Plus(a) | Node::Optional(a) => sizes[a].saturating_add(1),
        Node::Empty | Node::Repeat { .. } | Node::Name(_) => 0,
    }
}
