//! Least sets along graphs: a long chain and a ring, each with few changes.

use crate::sets::{count, holds, insert};
use ly_base::OutOfMemory;
use ly_digraph::{Graph, least};
use ly_sets::SetMatrix;
use std::alloc::Global;
use std::test::Fail;

/// Adds an edge between existing nodes.
fn add(graph: &mut Graph, from: u32, to: u32) -> Result<(), OutOfMemory> {
    if (from as usize) < graph.nodes() && (to as usize) < graph.nodes() {
        graph.add(from as usize, to as usize)?;
    }
    Ok(())
}

/// Solves in one pass, if there is a set for each node.
fn pass(alloc: Global, graph: &Graph, sets: &mut SetMatrix) -> Result<(), OutOfMemory> {
    if sets.rows() < graph.nodes() {
        return Ok(());
    }
    least(alloc, graph, sets)
}

/// By how much one pass increases `changes`.
fn solve(alloc: Global, graph: Graph, sets: &mut SetMatrix) -> Result<u64, OutOfMemory> {
    let before = sets.changes();
    let passed = pass(alloc, &graph, sets);
    drop(graph);
    passed?;
    Ok(sets.changes().saturating_sub(before))
}

/// Adds an edge from each node to the next.
fn add_steps(graph: &mut Graph, nodes: u32) -> Result<(), OutOfMemory> {
    for node in 1..nodes {
        add(graph, node - 1, node)?;
    }
    Ok(())
}

/// The graph in which each node leads to the next.
fn chain(alloc: Global, nodes: u32) -> Result<Graph, OutOfMemory> {
    let mut graph = Graph::new(alloc, nodes as usize)?;
    add_steps(&mut graph, nodes)?;
    Ok(graph)
}

/// The graph in which each node leads to the next, and the last one to the first.
fn ring(alloc: Global, nodes: u32) -> Result<Graph, OutOfMemory> {
    let mut graph = chain(alloc, nodes)?;
    add(&mut graph, nodes.saturating_sub(1), 0)?;
    Ok(graph)
}

/// Whether each node of a chain gets the number of the last one, with few changes.
fn is_chain_solved(alloc: Global, nodes: u32) -> Result<bool, OutOfMemory> {
    let mut sets = SetMatrix::new(alloc, nodes as usize, 1)?;
    insert(&mut sets, nodes.saturating_sub(1) as usize, 0)?;
    let rise = solve(alloc, chain(alloc, nodes)?, &mut sets)?;
    Ok(rise <= u64::from(nodes).saturating_mul(2) && all_hold_first(&sets))
}

/// Whether each set has its first number.
fn all_hold_first(sets: &SetMatrix) -> bool {
    let mut held = true;
    for node in 0..sets.rows() {
        held &= holds(sets, node, 0);
    }
    held
}

/// Whether each node of a ring gets the numbers of all, with few changes.
fn is_ring_solved(alloc: Global, nodes: u32) -> Result<bool, OutOfMemory> {
    let mut sets = own_numbers(alloc, nodes)?;
    let rise = solve(alloc, ring(alloc, nodes)?, &mut sets)?;
    Ok(rise <= u64::from(nodes).saturating_mul(2) && all_have(&sets, nodes as usize))
}

/// The sets of this many nodes. Each node has its own number.
fn own_numbers(alloc: Global, nodes: u32) -> Result<SetMatrix, OutOfMemory> {
    let mut sets = SetMatrix::new(alloc, nodes as usize, nodes as usize)?;
    for number in 0..nodes {
        insert(&mut sets, number as usize, number)?;
    }
    Ok(sets)
}

/// Whether each set has this many numbers.
fn all_have(sets: &SetMatrix, wanted: usize) -> bool {
    let mut have = true;
    for node in 0..sets.rows() {
        have &= count(sets, node) == wanted;
    }
    have
}

/// Whether a long chain and a ring are solved.
fn are_chain_and_ring_solved(alloc: Global) -> Result<bool, OutOfMemory> {
    Ok(is_chain_solved(alloc, 200_000)? && is_ring_solved(alloc, 1_000)?)
}

#[test]
fn least_sets_of_a_long_chain_and_of_a_ring_are_found(rt: HostRuntime) -> Result<(), Fail> {
    assert!(rt; are_chain_and_ring_solved(rt.alloc())?);
    Ok(())
}
