//! A graph as lists with one number for each edge.

use crate::fault::CallFault;
use chip_graph::{Edge, Graph, GraphFault, Limits, MAX_EDGES, MAX_VERTICES};
use std::alloc::{AllocError, Global};

/// A graph's number of vertices, its sink, and for each edge its tail, its head and the number of chips that one firing
/// of the tail sends along it: a sparse matrix in coordinates.
#[derive(Clone, Copy)]
pub struct EdgeLists<'a> {
    pub vertices: u64,
    pub sink: u64,
    pub tails: &'a [u64],
    pub heads: &'a [u64],
    pub mults: &'a [u64],
}

impl EdgeLists<'_> {
    ghost use Rattle.std.specs.Prelude.{◌≡◌, ◌↔◌, length, IsTrue, IfOk, MatchResult};
    ghost use Rattle.chip_library.specs.EdgeLists.{HasWholeRows, edges_of, graph_of};
    ghost use Rattle.chip_library.specs.CallFaults.{IsFaultOfGraph};
    ghost use Rattle.chip_graph.specs.Multigraph.{IsGraph};
    ghost use Rattle.chip_graph.specs.Limits.{large};
    ghost use Rattle.chip_graph.specs.Faults.{refusal, fault_of_sizes};

    /// Whether each list has one number per edge.
    pub(crate) fn has_whole_rows(&self) -> bool
        ensures { IsTrue result ↔ HasWholeRows self.now }
    {
        self.heads.len() == self.tails.len() && self.mults.len() == self.tails.len()
    }

    /// The graph, or its first fault. Copies no edge if there are too many.
    #[tactic(auto, using(crate::proofs::EdgesLemmas::sizes_pass, crate::proofs::EdgesLemmas::sizes_refuse))]
    pub(crate) fn graph(&self, alloc: Global) -> Result<Graph, CallFault>
        requires { HasWholeRows self.now }
        ensures { MatchResult result (λ graph. (graph ≡ graph_of self.now) × IsGraph graph)
            (IsFaultOfGraph (graph_of self.now)) }
    {
        self.check_sizes()?;
        let edges = self.edges(alloc)?;
        let graph = Graph::within(alloc, Limits::large(), self.vertices, self.sink, edges)?;
        Ok(graph)
    }

    /// The first fault of the sizes.
    fn check_sizes(&self) -> Result<(), GraphFault>
        ensures { result ≡ refusal (fault_of_sizes large self.now.vertices self.now.sink (length self.now.tails.now)) }
    {
        if self.vertices == 0 || self.vertices > MAX_VERTICES {
            return Err(GraphFault::Vertices);
        }
        if self.sink >= self.vertices {
            return Err(GraphFault::Sink);
        }
        if self.tails.len() as u64 > MAX_EDGES {
            return Err(GraphFault::EdgeCount);
        }
        Ok(())
    }

    /// The edges.
    fn edges(&self, alloc: Global) -> Result<Vec<Edge>, AllocError>
        requires { HasWholeRows self.now }
        ensures { IfOk result (λ edges. edges.items ≡ edges_of self.now) }
    {
        let mut edges = Vec::with_capacity(alloc, self.tails.len())?;
        for e in 0..self.tails.len() {
            edges.push_reserved(Edge {
                tail: self.tails[e],
                head: self.heads[e],
                mult: self.mults[e],
            });
        }
        Ok(edges)
    }
}
