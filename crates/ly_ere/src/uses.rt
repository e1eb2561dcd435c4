ghost use Rattle.std.specs.Prelude.{◌≡◌, ◌+◌, ◌<◌, ℕ, List, ◌++◌, All, length, map, IfOk, OnOk};
ghost use Rattle.ly_ere.specs.Arena.{FitsAt, expression_of};
ghost use Rattle.ly_ere.specs.Expression.{Expression};
ghost use Rattle.ly_ere.specs.Private.Uses.{number_for, renumbered, size_of, size_of_all, uses_of, uses_of_all};

use crate::arena::Arena;
use crate::node::Node;
use crate::re::Re;
use std::alloc::{AllocError, Global};

/// The numbers of the names in an expression, from left to right, each as often as it occurs.
pub(crate) fn uses(alloc: Global, re: &Re) -> Result<Vec<usize>, AllocError>
    ensures { IfOk result (λ found. found.items ≡ uses_of re.now) }
{
    let (nodes, root) = re.nodes();
    let mut found = Vec::new(alloc);
    let mut pending = Vec::new(alloc);
    pending.push(root)?;
    while let Some(number) = pending.pop() {
        open_node(nodes[number], &mut pending, &mut found)?;
    }
    Ok(found)
}

/// Visits a node: its operands are visited next, the first before the second, and a name is recorded.
fn open_node(node: Node, pending: &mut Vec<usize>, found: &mut Vec<usize>) -> Result<(), AllocError>
    ensures within { (n : ℕ) → FitsAt n node → All (λ k. k < n) pending.old.items
        → OnOk result (All (λ k. k < n) pending.new.items) }
    ensures uses { (done : List Expression) → OnOk result (found.new.items ++ uses_of_all done pending.new.items
        ≡ found.old.items ++ (uses_of (expression_of done node) ++ uses_of_all done pending.old.items)) }
    ensures smaller { (done : List Expression) → OnOk result (size_of_all done pending.new.items
        < size_of (expression_of done node) + size_of_all done pending.old.items) }
{
    match node {
        Node::Name(name) => found.push(name)?,
        Node::Concat(first, second) | Node::Either(first, second) => {
            pending.push(second)?;
            pending.push(first)?;
        }
        Node::Star(part) | Node::Plus(part) | Node::Optional(part) | Node::Repeat { part, .. } =>
            pending.push(part)?,
        Node::Set(_) | Node::Empty => {}
    }
    Ok(())
}

/// Returns the expression with its names renumbered: name x becomes `numbers[x]`, if there is one.
pub(crate) fn renumber(alloc: Global, re: &Re, numbers: &[usize]) -> Result<Re, AllocError>
    ensures { IfOk result (λ r. r ≡ renumbered (number_for numbers.now) re.now) }
{
    let (nodes, root) = re.nodes();
    let mut arena = Arena::new(alloc);
    for node in nodes {
        arena.push(with_number(*node, numbers))?;
    }
    Ok(Re::of(arena, root))
}

/// Returns the node with its number replaced if it is a name.
fn with_number(node: Node, numbers: &[usize]) -> Node
    ensures fits { (n : ℕ) → FitsAt n node → FitsAt n result }
    ensures expression { (done : List Expression) → expression_of (map (renumbered
        (number_for numbers.now)) done) result
        ≡ renumbered (number_for numbers.now) (expression_of done node) }
{
    match node {
        Node::Name(name) => Node::Name(*numbers.get(name).unwrap_or(&name)),
        other => other,
    }
}
