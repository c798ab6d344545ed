ghost use Rattle.std.specs.Prelude.{◌≡◌, ◌≢◌, ◌<◌, ◌≤◌, ◌⊎◌, ℕ, length, IfOk, IfErr, OnOk, MatchResult, Some, None};
ghost use Rattle.std.specs.Prelude.{slice_index};
ghost use Rattle.chip_graph.specs.Limits.{max_vertices, max_edges, AreLimits};
ghost use Rattle.chip_graph.specs.Counts.{AreCounted};
ghost use Rattle.chip_graph.specs.Faults.{refusal, fault_of_sizes, fault_of_edge, fault_of_edges};
ghost use Rattle.chip_graph.specs.declared.fault.GraphFault.TheVariants.{NoMemory, Unreached};

use crate::distance::{UNREACHED, ins_and_distances};
use crate::edge::{AnyEdge, Edge, End, Link};
use crate::fault::GraphFault;
use crate::index::{Counts, edges_by};
use crate::limits::Limits;
use crate::packed_lists::PackedLists;
use std::alloc::{AllocError, Global};
use std::marker::Model;

/// The most chips that one firing sends along one edge.
pub const MAX_MULT: u64 = 1_048_576;

/// A directed multigraph with a global sink: a vertex without edges out, which every vertex reaches.
///
/// Vertices are the numbers below `vertices()`. The number of an edge is its index in `edges()`. Every call on one
/// vertex takes constant time.
#[derive(Drop)]
pub struct Graph {
    rows: Box<Rows>,
}

impl Model for Graph {
    ghost use Rattle.chip_graph.specs.Multigraph.{Multigraph};

    ghost Value = { Multigraph };

    ghost view = { λ a. a.rows.value };
}

/// The edges of a graph, and the data computed from them.
#[derive(Drop)]
struct Rows {
    vertices: u64,
    sink: u64,
    /// The edges, by number.
    edges: Vec<Edge>,
    /// The out-degrees, by vertex.
    degrees: Vec<u64>,
    /// The distance of each vertex from the sink, by vertex: each reaches it.
    distances: Vec<u32>,
    /// The edges out of each vertex, ascending.
    outs: PackedLists<u64>,
    /// The edges into each vertex, ascending.
    ins: PackedLists<u64>,
    /// The edges in the order of `outs`.
    links: Vec<Link>,
}

impl Model for Rows {
    ghost use Rattle.chip_graph.specs.Multigraph.{Multigraph};

    ghost Value = { Multigraph };

    ghost use Rattle.chip_graph.specs.Index.{graph_inside, IsIndexed};

    ghost view = { graph_inside };

    ghost invariant = { IsIndexed };
}

impl Graph {
    ghost use Rattle.std.specs.Prelude.{◌≡◌, ◌<◌, map};
    ghost use Rattle.chip_graph.specs.Limits.{standard};
    ghost use Rattle.chip_graph.specs.Multigraph.{Multigraph, IsGraph, IsDistance};
    ghost use Rattle.chip_graph.specs.Multigraph.{edge_at, link_of, edges_out, edges_in, degree};
    ghost use Rattle.chip_graph.specs.Edges.{edges_and_roots, root_edge_to, IsNumbered};
    ghost use Rattle.chip_graph.specs.Faults.{MakesGraph};

    /// A graph of these edges within the standard limits, or the first fault; in time linear in vertices and edges.
    pub fn new(
        alloc: Global,
        vertices: u64,
        sink: u64,
        edges: Vec<Edge>,
    ) -> Result<Graph, GraphFault>
        ensures { MakesGraph standard (record { vertices = vertices; sink = sink; edges = edges.items }) result }
    {
        Graph::within(alloc, Limits::standard(), vertices, sink, edges)
    }

    /// A graph of these edges within these limits, or the first fault; in time linear in vertices and edges.
    pub fn within(
        alloc: Global,
        limits: Limits,
        vertices: u64,
        sink: u64,
        edges: Vec<Edge>,
    ) -> Result<Graph, GraphFault>
        ensures { MakesGraph limits (record { vertices = vertices; sink = sink; edges = edges.items }) result }
    {
        let rows = edges.as_slice();
        check_sizes(limits, vertices, sink, rows.len())?;
        let counts = count(alloc, vertices, sink, rows)?;
        let (ins, distances) = ins_and_distances(alloc, vertices, sink, rows, counts.heads)?;
        check_reached(&distances)?;
        let (outs, links) = edges_by(alloc, vertices, counts.tails, rows, End::Tail)?;
        let indexed = Rows {
            vertices,
            sink,
            edges,
            degrees: counts.degrees,
            distances,
            outs,
            ins,
            links,
        };
        Ok(Graph {
            rows: Box::new(alloc, indexed)?,
        })
    }

    /// An equal graph, in time linear in vertices and edges.
    pub fn copy(&self, alloc: Global) -> Result<Graph, AllocError>
        ensures { IfOk result (λ graph. graph ≡ self.now) }
    {
        let edges = Vec::from_slice(alloc, self.edges())?;
        match Graph::within(alloc, Limits::large(), self.vertices(), self.sink(), edges) {
            Ok(graph) => Ok(graph),
            Err(_) => Err(AllocError),
        }
    }

    /// The number of vertices, 1 to 2^21.
    pub fn vertices(&self) -> u64
        ensures value { result ≡ self.now.vertices }
        ensures graph { IsGraph self.now }
    {
        let rows: &Rows = &self.rows;
        rows.vertices
    }

    /// The sink, which never fires.
    pub fn sink(&self) -> u64
        ensures value { result ≡ self.now.sink }
        ensures graph { IsGraph self.now }
    {
        let rows: &Rows = &self.rows;
        rows.sink
    }

    /// The graph's own edges, by their numbers.
    pub fn edges(&self) -> &[Edge]
        ensures value { result.now ≡ self.now.edges }
        ensures graph { IsGraph self.now }
    {
        let rows: &Rows = &self.rows;
        &rows.edges
    }

    /// The number of edges of a running game: the graph's own, and then a root edge for each vertex.
    pub fn all_edges(&self) -> u64
        ensures value { result ≡ edges_and_roots self.now }
        ensures graph { IsGraph self.now }
    {
        let rows: &Rows = &self.rows;
        rows.edges.len() as u64 + rows.vertices
    }

    /// The number of the root edge into this vertex.
    pub fn root_edge(&self, vertex: u64) -> u64
        requires { vertex < self.now.vertices }
        ensures value { result ≡ root_edge_to self.now vertex }
        ensures graph { IsGraph self.now }
    {
        let rows: &Rows = &self.rows;
        rows.edges.len() as u64 + vertex
    }

    /// The edge with this number, or `None` from `all_edges()` on.
    pub fn edge(&self, number: u64) -> Option<AnyEdge>
        ensures edge { IsNumbered self.now number result }
        ensures graph { IsGraph self.now }
    {
        let rows: &Rows = &self.rows;
        let graph_edges = rows.edges.len() as u64;
        if number < graph_edges {
            Some(AnyEdge::Own(rows.edges[number as usize]))
        } else if number < self.all_edges() {
            Some(AnyEdge::Root {
                head: number - graph_edges,
            })
        } else {
            None
        }
    }

    /// The number of chips that one firing of this vertex takes: the sum of `mult` over the edges out of it, 0 to 2^43.
    pub fn out_degree(&self, vertex: u64) -> u64
        requires { vertex < self.now.vertices }
        ensures { result ≡ degree self.now vertex }
    {
        let rows: &Rows = &self.rows;
        rows.degrees[vertex as usize]
    }

    /// The numbers of the edges out of this vertex, ascending.
    pub fn outs(&self, vertex: u64) -> &[u64]
        requires { vertex < self.now.vertices }
        ensures { result.now ≡ edges_out self.now vertex }
    {
        let rows: &Rows = &self.rows;
        rows.outs.list(vertex as usize)
    }

    /// The numbers of the edges into this vertex, ascending.
    pub fn ins(&self, vertex: u64) -> &[u64]
        requires { vertex < self.now.vertices }
        ensures { result.now ≡ edges_in self.now vertex }
    {
        let rows: &Rows = &self.rows;
        rows.ins.list(vertex as usize)
    }

    /// The edges out of this vertex, in the order of `outs`, contiguous in memory.
    pub fn links(&self, vertex: u64) -> &[Link]
        requires { vertex < self.now.vertices }
        ensures { result.now ≡ map (λ e. link_of (edge_at self.now e)) (edges_out self.now vertex) }
    {
        let rows: &Rows = &self.rows;
        rows.outs.beside(vertex as usize, &rows.links)
    }

    /// The number of edges of a shortest walk from this vertex to the sink; 0 at the sink.
    pub fn distance(&self, vertex: u64) -> u64
        requires { vertex < self.now.vertices }
        ensures { IsDistance self.now vertex result }
    {
        let rows: &Rows = &self.rows;
        u64::from(rows.distances[vertex as usize])
    }
}

/// The first fault of edge `i`, if it has one.
fn check_edge(vertices: u64, sink: u64, i: u64, edge: &Edge) -> Result<(), GraphFault>
    ensures { result ≡ refusal (fault_of_edge vertices sink i edge.now) }
{
    if edge.tail >= vertices || edge.head >= vertices {
        return Err(GraphFault::Endpoint(i));
    }
    if edge.mult == 0 || edge.mult > MAX_MULT {
        return Err(GraphFault::Mult(i));
    }
    if edge.tail == edge.head {
        return Err(GraphFault::Loop(i));
    }
    if edge.tail == sink {
        return Err(GraphFault::FromSink(i));
    }
    Ok(())
}

/// The first fault of these sizes within these limits.
fn check_sizes(limits: Limits, vertices: u64, sink: u64, edges: usize) -> Result<(), GraphFault>
    ensures first { result ≡ refusal (fault_of_sizes limits vertices sink edges) }
    ensures limits { IfOk result (λ _. AreLimits limits) }
{
    if vertices == 0 || vertices > limits.vertices() {
        return Err(GraphFault::Vertices);
    }
    if sink >= vertices {
        return Err(GraphFault::Sink);
    }
    if edges as u64 > limits.edges() {
        return Err(GraphFault::EdgeCount);
    }
    Ok(())
}

/// The first fault of an edge.
fn check_edges(vertices: u64, sink: u64, edges: &[Edge]) -> Result<(), GraphFault>
    ensures { result ≡ refusal (fault_of_edges vertices sink 0 edges.now) }
{
    for (i, edge) in edges.iter().enumerate() {
        check_edge(vertices, sink, i as u64, edge)?;
    }
    Ok(())
}

/// The counts of edges without a fault, or the first fault. Memory can run out only without a fault.
fn count(alloc: Global, vertices: u64, sink: u64, edges: &[Edge]) -> Result<Counts, GraphFault>
    requires few_vertices { vertices ≤ max_vertices }
    requires few_edges { length edges.now ≤ max_edges }
    ensures { MatchResult result
        (λ counts. (fault_of_edges vertices sink 0 edges.now ≡ None)
        × AreCounted edges.now vertices (length edges.now) counts)
        (λ fault. ((fault ≡ NoMemory) × (fault_of_edges vertices sink 0 edges.now ≡ None))
        ⊎ (fault_of_edges vertices sink 0 edges.now ≡ Some fault)) }
{
    let mut counts = match Counts::begin(alloc, vertices) {
        Ok(counts) => counts,
        Err(_) => {
            check_edges(vertices, sink, edges)?;
            return Err(GraphFault::NoMemory);
        }
    };
    for (i, edge) in edges.iter().enumerate() {
        check_edge(vertices, sink, i as u64, edge)?;
        counts.add(edges, i);
    }
    Ok(counts)
}

/// Finds the fault: the least vertex without a distance.
fn check_reached(distances: &[u32]) -> Result<(), GraphFault>
    ensures all { OnOk result ((v : ℕ) → v < length distances.now → slice_index distances.now v ≢ UNREACHED) }
    ensures least { IfErr result (λ fault. (v : ℕ) × (fault ≡ Unreached v)
        × (v < length distances.now)
        × (slice_index distances.now v ≡ UNREACHED)
        × ((u : ℕ) → u < v → slice_index distances.now u ≢ UNREACHED)) }
{
    for (v, distance) in distances.iter().enumerate() {
        if *distance == UNREACHED {
            return Err(GraphFault::Unreached(v as u64));
        }
    }
    Ok(())
}
