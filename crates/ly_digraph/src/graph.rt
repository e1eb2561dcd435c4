ghost use Rattle.std.specs.Prelude.{◌≡◌, ◌<◌, [], ◌∷◌, ◌++◌, length, All, IfOk, OnOk, OnErr};

use ly_base::OutOfMemory;
use std::alloc::Global;
use std::marker::Model;

/// A directed graph. Nodes are the numbers below a bound. Edges are kept in the order in which they were added, with
/// duplicates.
#[derive(Drop)]
pub struct Graph {
    edges: Vec<Edge>,
    /// For each node the length of the shortest prefix of the edges that has all of its edges. The last edge of the
    /// prefix is one of them.
    ends: Vec<u32>,
}

/// An edge.
#[derive(Clone, Copy)]
struct Edge {
    /// The node where it begins.
    from: u32,
    /// The node where it leads.
    to: u32,
    /// The length of the shortest prefix of the edges that has all edges of the same node before this one.
    before: u32,
}

/// Converts a count to 32 bits: a large graph has millions of edges and nodes, but memory holds no more than 2^32.
pub(crate) fn narrow(count: usize) -> Result<u32, OutOfMemory>
    ensures { IfOk result (λ n. n ≡ count) }
{
    u32::try_from(count).map_err(|_| OutOfMemory)
}

impl Model for Graph {
    ghost use Rattle.std.specs.Prelude.{◌≡◌, vec_len};
    ghost use Rattle.ly_digraph.specs.Digraph.{Digraph, digraph_code};

    ghost Value = { Digraph };

    ghost coded = { digraph_code };

    ghost use Rattle.ly_digraph.specs.Graph.{ends_of, IsEdgeList};

    ghost view = { λ g. record { nodes = vec_len g.ends; edges = ends_of g.edges.items } };

    ghost invariant = { λ g. IsEdgeList g.ends.items g.edges.items };
}

impl Graph {
    ghost use Rattle.ly_digraph.specs.Digraph.{source, target, IsInside, IsEndBefore};

    /// Makes a graph of this many nodes without edges.
    pub fn new(alloc: Global, nodes: usize) -> Result<Graph, OutOfMemory>
        ensures { IfOk result (λ g. g ≡ record { nodes = nodes; edges = [] }) }
    {
        Ok(Graph {
            edges: Vec::new(alloc),
            ends: vec![in alloc; 0u32; nodes]?,
        })
    }

    /// Adds the edge `from -> to` after the others. On an error the graph is unchanged.
    pub fn add(&mut self, from: usize, to: usize) -> Result<(), OutOfMemory>
        requires { IsInside self.old.nodes (from, to) }
        ensures ok { OnOk result (self.new ≡
            record self.old { edges = self.old.edges ++ (from, to) ∷ [] }) }
        ensures err { OnErr result (self.new ≡ self.old) }
    {
        let source = narrow(from)?;
        let target = narrow(to)?;
        let end = narrow(self.edges.len() + 1)?;
        self.edges.push(Edge {
            from: source,
            to: target,
            before: self.ends[from],
        })?;
        self.ends[from] = end;
        Ok(())
    }

    /// The number of nodes. Every edge connects two of them.
    pub fn nodes(&self) -> usize
        ensures count { result ≡ self.now.nodes }
        ensures inside { All (IsInside result) self.now.edges }
    {
        self.ends.len()
    }

    /// The number of edges.
    pub fn edges(&self) -> usize
        ensures { result ≡ length self.now.edges }
    {
        self.edges.len()
    }

    /// The length of the shortest prefix of the edges that has all edges of a node.
    pub(crate) fn end(&self, node: usize) -> u32
        requires { node < self.now.nodes }
        ensures { IsEndBefore self.now node (length self.now.edges) result }
    {
        self.ends[node]
    }

    /// The length of the shortest prefix of the edges that has all edges of the same node before this edge.
    pub(crate) fn end_before(&self, edge: usize) -> u32
        requires { edge < length self.now.edges }
        ensures { IsEndBefore self.now (source self.now edge) edge result }
    {
        self.edges[edge].before
    }

    /// The node where an edge leads.
    pub(crate) fn target(&self, edge: usize) -> usize
        requires { edge < length self.now.edges }
        ensures value { result ≡ target self.now edge }
        ensures inside { result < self.now.nodes }
    {
        self.edges[edge].to as usize
    }
}
