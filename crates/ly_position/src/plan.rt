ghost use Rattle.std.specs.Prelude.{◌≡◌, ℕ, ◌<◌, List, length, slice_index_or, All, IfOk, None};
ghost use Rattle.ly_ere.specs.Names.{defined};
ghost use Rattle.ly_ere.specs.Arena.{FitsAt};
ghost use Rattle.ly_position.specs.Written.{named_up_to};
ghost use Rattle.ly_position.specs.Private.Plain.{IsPlainPart, Makes, listed};
ghost use Rattle.ly_position.specs.Private.Plan.{IsPlan};
ghost use Rattle.ly_position.specs.Private.Slim.{slim, slim_node, slim_pattern, slim_under};

use crate::plain::{Plain, PlainPart};
use ly_ere::{Names, Node, Re, Rule};
use std::alloc::{AllocError, Global};

/// The plain expressions of rules.
#[derive(Drop)]
pub struct Plan {
    /// The expressions.
    pub plain: Plain,
    /// For each rule the concatenation of its head and its tail.
    pub parts: Vec<PlainPart>,
}

/// Expands the names and repetitions of rules.
pub fn write_out(alloc: Global, rules: &[Rule], names: &Names) -> Result<Plan, AllocError>
    ensures { IfOk result (λ plan. IsPlan (defined names.now) rules.now plan.plain plan.parts.items) }
{
    let mut plain = Plain::new(alloc);
    let definitions = add_names(alloc, &mut plain, names)?;
    let mut parts = Vec::new(alloc);
    for rule in rules {
        let part = add_rule(alloc, &mut plain, &definitions, rule)?;
        parts.push(part)?;
    }
    Ok(Plan { plain, parts })
}

/// Adds the definitions.
fn add_names(alloc: Global, plain: &mut Plain, names: &Names) -> Result<Vec<PlainPart>, AllocError>
    ensures within { IfOk result (λ ds. All (IsPlainPart (length plain.new)) ds.items) }
    ensures each { IfOk result (λ ds. (x : ℕ) → listed plain.new ds.items x
        ≡ slim (named_up_to (defined names.now) (length (defined names.now)) x)) }
{
    let mut definitions: Vec<PlainPart> = Vec::new(alloc);
    for definition in names.definitions() {
        let part = add(alloc, plain, &definitions, definition)?;
        definitions.push(part)?;
    }
    Ok(definitions)
}

/// Adds the concatenation of a pattern's head and tail.
fn add_rule(
    alloc: Global,
    plain: &mut Plain,
    names: &[PlainPart],
    rule: &Rule,
) -> Result<PlainPart, AllocError>
    requires { All (IsPlainPart (length plain.old)) names.now }
    ensures { IfOk result (λ p. Makes plain.old plain.new p
        (slim_pattern (listed plain.old names.now) rule.now.pattern)) }
{
    let head = add(alloc, plain, names, &rule.pattern.head)?;
    match &rule.pattern.tail {
        None => Ok(head),
        Some(tail) => {
            let tail = add(alloc, plain, names, tail)?;
            plain.concat(head, tail)
        }
    }
}

/// Adds an expression.
fn add(
    alloc: Global,
    plain: &mut Plain,
    names: &[PlainPart],
    re: &Re,
) -> Result<PlainPart, AllocError>
    requires { All (IsPlainPart (length plain.old)) names.now }
    ensures { IfOk result (λ p. Makes plain.old plain.new p (slim_under (listed plain.old names.now) re.now)) }
{
    let (nodes, root) = re.nodes();
    let mut parts: Vec<PlainPart> = Vec::new(alloc);
    for node in nodes {
        let part = add_node(plain, names, &parts, *node)?;
        parts.push(part)?;
    }
    Ok(parts[root])
}

/// Adds a node whose operands have been added.
fn add_node(
    plain: &mut Plain,
    names: &[PlainPart],
    parts: &[PlainPart],
    node: Node,
) -> Result<PlainPart, AllocError>
    requires names { All (IsPlainPart (length plain.old)) names.now }
    requires parts { All (IsPlainPart (length plain.old)) parts.now }
    requires fits { FitsAt (length parts.now) node }
    ensures { IfOk result (λ p. Makes plain.old plain.new p
        (slim_node (listed plain.old names.now) (listed plain.old parts.now) node)) }
{
    match node {
        Node::Set(bytes) => plain.set(bytes),
        Node::Empty => plain.empty(),
        Node::Concat(a, b) => plain.concat(parts[a], parts[b]),
        Node::Either(a, b) => plain.either(parts[a], parts[b]),
        Node::Star(a) => plain.star(parts[a]),
        Node::Plus(a) => plain.plus(parts[a]),
        Node::Optional(a) => plain.optional(parts[a]),
        Node::Repeat { least, most, part } => plain.repeat(parts[part], least, most),
        Node::Name(number) => Ok(named(names, number)),
    }
}

/// The expression of a name; `None` if it is undefined.
fn named(names: &[PlainPart], number: usize) -> PlainPart
    ensures { result ≡ slice_index_or names.now number None }
{
    if number < names.len() {
        names[number]
    } else {
        None
    }
}
