//! A depth-first walk that closes components, with an explicit stack in place of recursion.
//!
//! The nodes that were seen and aren't done are pending. They are kept in a list in the order in which they were
//! entered. The frames of the path divide it into parts. A part begins at its frame's node and has the nodes that were
//! entered from there and left, but couldn't be closed. `low` is the least position that a part is known to reach
//! (Tarjan's low link, for a frame and not for a node). A part whose low position is its own start is a component.
ghost use Rattle.std.specs.Prelude.{◌≡◌, ◌≢◌, ◌<◌, ◌≤◌, ◌+◌, ◌-◌, ◌↔◌, List, length, take, vec_len, slice_index, false};
ghost use Rattle.std.specs.Prelude.{true, IfOk, OnOk};

use crate::graph::{Graph, narrow};
use ly_base::OutOfMemory;
use ly_sets::SetMatrix;
use std::alloc::Global;

/// The state of a node.
#[derive(Clone, Copy)]
pub(crate) enum Place {
    /// Not seen yet.
    New,
    /// Pending, at this position.
    Open(u32),
    /// In a component that is closed: its row is final.
    Done,
}

/// A node on the path from the root of the walk to the current node.
#[derive(Clone, Copy)]
pub(crate) struct Frame {
    /// The node.
    node: usize,
    /// The position of the node among the pending ones, where its part begins.
    start: usize,
    /// The least position that the part is known to reach.
    low: usize,
}

/// A depth-first walk over a graph.
#[derive(Drop)]
pub(crate) struct Walk {
    /// For each node the length of the shortest prefix of the edges that has all of its edges still to be visited.
    cursors: Vec<u32>,
    places: Vec<Place>,
    /// The nodes that were seen and aren't done, in the order in which they were entered.
    pending: Vec<usize>,
    /// The path from the root to the current node.
    path: Vec<Frame>,
}

impl Walk {
    ghost use Rattle.ly_sets.specs.NumberSet.{NumberSet};
    ghost use Rattle.ly_sets.specs.SetMatrix.{Matrix};
    ghost use Rattle.ly_digraph.specs.Digraph.{target};
    ghost use Rattle.ly_digraph.specs.Walk.{place, frame, entered};
    ghost use Rattle.ly_digraph.specs.Search.{IsAt, IsAtFrame, IsOver, WasSeen, IsListed, IsClosed, IsWaiting};
    ghost use Rattle.ly_digraph.specs.Search.{IsTurned, IsLowered, IsEntered, Continues, top, next_target, steps_left};
    ghost use Rattle.ly_digraph.specs.Search.{unions_left};
    ghost use Rattle.ly_digraph.specs.declared.walk.Frame.{Frame};
    ghost use Rattle.ly_digraph.specs.declared.walk.Place.TheVariants.{New, Open, Done};

    /// Returns a walk that has seen nothing.
    pub(crate) fn new(alloc: Global, graph: &Graph) -> Result<Walk, OutOfMemory>
        ensures at { IfOk result (λ w. (sets : List NumberSet) → graph.now.nodes ≤ length sets →
            IsAt graph.now sets w) }
        ensures left { IfOk result (λ w. unions_left graph.now w ≤
            length graph.now.edges + graph.now.nodes) }
        ensures over { IfOk result IsOver }
    {
        let nodes = graph.nodes();
        let mut cursors = Vec::with_capacity(alloc, nodes)?;
        for node in 0..nodes {
            cursors.push(graph.end(node))?;
        }
        Ok(Walk {
            cursors,
            places: vec![in alloc; Place::New; nodes]?,
            pending: Vec::with_capacity(alloc, nodes)?,
            path: Vec::with_capacity(alloc, nodes)?,
        })
    }

    /// Visits everything that a node reaches and that wasn't seen.
    pub(crate) fn visit(
        &mut self,
        root: usize,
        graph: &Graph,
        sets: &mut SetMatrix,
    ) -> Result<(), OutOfMemory>
        requires at { IsAt graph.now sets.old.sets self.old }
        requires inside { root < graph.now.nodes }
        requires over { IsOver self.old }
        ensures on { OnOk result (Continues graph.now sets.old self.old sets.new self.new) }
        ensures over { OnOk result (IsOver self.new) }
        ensures seen { OnOk result (WasSeen self.new root) }
    {
        if self.is_seen(root) {
            return Ok(());
        }
        self.enter(root)?;
        while self.step(graph, sets)? {}
        Ok(())
    }

    /// Whether a node was seen.
    fn is_seen(&self, node: usize) -> bool
        requires { node < vec_len self.now.places }
        ensures { (result ≡ false) ↔ (place self.now.places.items node ≡ New) }
    {
        !matches!(self.places[node], Place::New)
    }

    /// Enters a node that wasn't seen.
    fn enter(&mut self, node: usize) -> Result<(), OutOfMemory>
        requires { node < vec_len self.old.places }
        ensures { OnOk result (IsEntered self.old self.new node) }
    {
        let start = self.pending.len();
        self.places[node] = Place::Open(narrow(start)?);
        self.pending.push(node)?;
        self.path.push(Frame {
            node,
            start,
            low: start,
        })?;
        Ok(())
    }

    /// Makes one step. Returns false if the walk is over.
    fn step(&mut self, graph: &Graph, sets: &mut SetMatrix) -> Result<bool, OutOfMemory>
        requires { IsAt graph.now sets.old.sets self.old }
        ensures on { OnOk result (Continues graph.now sets.old self.old sets.new self.new) }
        ensures fewer { result ≡ Ok true →
            steps_left graph.now self.new < steps_left graph.now self.old }
        ensures over { result ≡ Ok false → vec_len self.new.path ≡ 0 }
    {
        if self.path.is_empty() {
            return Ok(false);
        }
        let frame = self.path[self.path.len() - 1];
        let cursor = self.cursors[frame.node];
        if cursor == 0 {
            self.leave(graph, sets)?;
            return Ok(true);
        }
        let target = graph.target(cursor as usize - 1);
        match self.places[target] {
            Place::New => self.enter(target)?,
            Place::Open(position) => self.meet(graph, position as usize),
            Place::Done => self.absorb(graph, target, sets)?,
        }
        Ok(true)
    }

    /// Visits an edge to a pending node: the last part reaches its position.
    fn meet(&mut self, graph: &Graph, position: usize)
        requires waits { IsWaiting graph.now self.old }
        requires pends { place self.old.places.items (next_target graph.now self.old) ≡
            Open position }
        ensures on { (m : Matrix) → IsAt graph.now m.sets self.old →
            Continues graph.now m self.old m self.new }
        ensures fewer { (m : Matrix) → IsAt graph.now m.sets self.old →
            steps_left graph.now self.new < steps_left graph.now self.old }
    {
        self.lower(position);
        self.advance(graph);
    }

    /// Visits an edge to a node that is done, whose row is final.
    fn absorb(
        &mut self,
        graph: &Graph,
        target: usize,
        sets: &mut SetMatrix,
    ) -> Result<(), OutOfMemory>
        requires at { IsAt graph.now sets.old.sets self.old }
        requires waits { IsWaiting graph.now self.old }
        requires next { target ≡ next_target graph.now self.old }
        requires done { place self.old.places.items target ≡ Done }
        ensures on { OnOk result (Continues graph.now sets.old self.old sets.new self.new) }
        ensures fewer { OnOk result (steps_left graph.now self.new < steps_left graph.now self.old) }
    {
        let node = self.path[self.path.len() - 1].node;
        sets.union_row(node, target)?;
        self.advance(graph);
        Ok(())
    }

    /// Leaves a node whose edges were all visited.
    fn leave(&mut self, graph: &Graph, sets: &mut SetMatrix) -> Result<(), OutOfMemory>
        requires at { IsAt graph.now sets.old.sets self.old }
        requires some { 0 < vec_len self.old.path }
        requires spent { slice_index self.old.cursors.items (top self.old).node ≡ 0 }
        ensures on { OnOk result (Continues graph.now sets.old self.old sets.new self.new) }
        ensures fewer { OnOk result (steps_left graph.now self.new < steps_left graph.now self.old) }
    {
        if let Some(frame) = self.path.pop() {
            if frame.low == frame.start {
                self.close(frame, sets)?;
            } else {
                self.merge(frame, graph, sets)?;
            }
        }
        Ok(())
    }

    /// Closes a component: all of its nodes get the row of its root.
    fn close(&mut self, root: Frame, sets: &mut SetMatrix) -> Result<(), OutOfMemory>
        requires listed { IsListed self.old.places.items self.old.pending.items }
        requires rows { length self.old.places.items ≤ length sets.old.sets }
        requires root { (root.start < length self.old.pending.items) ×
            (slice_index self.old.pending.items root.start ≡ root.node) }
        ensures closed { OnOk result (IsClosed sets.old sets.new self.old.places.items self.new.places.items
            root.start (vec_len self.old.pending) root.node) }
        ensures pending { OnOk result (self.new.pending.items ≡ take root.start self.old.pending.items) }
        ensures cursors { OnOk result (self.new.cursors ≡ self.old.cursors) }
        ensures path { OnOk result (self.new.path ≡ self.old.path) }
    {
        self.places[root.node] = Place::Done;
        for position in root.start + 1..self.pending.len() {
            let member = self.pending[position];
            self.places[member] = Place::Done;
            sets.union_row(member, root.node)?;
        }
        self.pending.truncate(root.start);
        Ok(())
    }

    /// Merges a part that reaches further down into the part before it.
    fn merge(
        &mut self,
        frame: Frame,
        graph: &Graph,
        sets: &mut SetMatrix,
    ) -> Result<(), OutOfMemory>
        requires at { IsAtFrame graph.now sets.old.sets self.old frame }
        requires spent { slice_index self.old.cursors.items frame.node ≡ 0 }
        requires turns { frame.low ≢ frame.start }
        ensures on { OnOk result (Continues graph.now sets.old self.old sets.new self.new) }
        ensures fewer { OnOk result (steps_left graph.now self.new ≤ steps_left graph.now self.old) }
    {
        let parent = self.path[self.path.len() - 1].node;
        sets.union_row(parent, frame.node)?;
        self.lower(frame.low);
        self.advance(graph);
        Ok(())
    }

    /// Records that the last part reaches a position.
    fn lower(&mut self, position: usize)
        requires { 0 < vec_len self.old.path }
        ensures { IsLowered self.old self.new position }
    {
        let last = self.path.len() - 1;
        let frame = &mut self.path[last];
        frame.low = frame.low.min(position);
    }

    /// Advances to the next edge of the last frame's node.
    fn advance(&mut self, graph: &Graph)
        requires { IsWaiting graph.now self.old }
        ensures { IsTurned graph.now self.old self.new }
    {
        let node = self.path[self.path.len() - 1].node;
        self.cursors[node] = graph.end_before(self.cursors[node] as usize - 1);
    }
}
