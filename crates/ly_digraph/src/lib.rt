//! The least sets that grow along the edges of a directed graph (the `digraph` algorithm of DeRemer and Pennello).
//!
//! Each node has a given set. `least` computes the least sets that contain the given ones, such that the set of a node
//! contains those of its successors. Proved: they are least (`IsLeast`), and the pass takes at most one union for each
//! edge and each node (`changes`).
//!
//! `least` makes one depth-first pass over the strongly connected components. Each node's edges are a linked list in
//! reverse order, so building a graph is one pass too. Rows of the matrix past the nodes are unchanged.
//!
//! Not covered: what the nodes and the numbers mean.
#![tactic(auto)]

mod graph;
mod solution;
mod walk;

pub use graph::Graph;
pub use solution::least;
