ghost use Rattle.std.specs.Prelude.{◌≡◌, ◌<◌, ◌≤◌, ℕ, [], length, map, replicate, IfOk, All, None, vec_len};
ghost use Rattle.chip_graph.specs.Limits.{max_vertices, max_edges};
ghost use Rattle.chip_graph.specs.Ends.{edge_of, AreEndCounts, AreEdgesBy};
ghost use Rattle.chip_graph.specs.Multigraph.{IsEdge};
ghost use Rattle.chip_graph.specs.declared.edge.End.TheVariants.{Head};
ghost use Rattle.chip_graph.specs.Distances.{AreDistances};
ghost use Rattle.chip_graph.specs.Found.{findings, noted, with_vertex, with_all};

use crate::edge::{Edge, End};
use crate::index::edges_by;
use crate::packed_lists::PackedLists;
use std::alloc::{AllocError, Global};

/// The distance of a vertex that no search has reached.
pub(crate) const UNREACHED: u32 = u32::MAX;

/// A vertex that a search has reached, and its distance from the sink.
#[derive(Clone, Copy)]
struct Reached {
    vertex: u32,
    distance: u32,
}

/// The state of a search from the sink backwards.
#[derive(Drop)]
struct Search {
    /// The distances, by vertex.
    distances: Vec<u32>,
    /// The vertices that have a distance, nearest first.
    reached: Vec<Reached>,
}

impl Search {
    /// A search that has reached only the sink.
    fn begin(alloc: Global, vertices: usize, sink: u32) -> Result<Self, AllocError>
        requires { sink < vertices }
        ensures { IfOk result (λ search.
            findings search ≡ with_vertex sink 0 (record { distances = replicate vertices None; reached = [] })) }
    {
        let mut distances = Vec::new(alloc);
        distances.resize(vertices, UNREACHED)?;
        let reached = Vec::new(alloc);
        let mut search = Search { distances, reached };
        search.reach(sink, 0)?;
        Ok(search)
    }

    /// Notes this distance, unless the vertex was reached before.
    fn reach(&mut self, vertex: u32, distance: u32) -> Result<(), AllocError>
        requires vertex { vertex < vec_len self.old.distances }
        requires distance { distance < UNREACHED }
        ensures { IfOk result (λ _. findings self.new ≡ with_vertex vertex distance (findings self.old)) }
    {
        if self.distances[vertex as usize] == UNREACHED {
            self.reached.push(Reached { vertex, distance })?;
            self.distances[vertex as usize] = distance;
        }
        Ok(())
    }

    /// Notes this distance for each of these vertices.
    fn reach_all(&mut self, vertices: &[u32], distance: u32) -> Result<(), AllocError>
        requires vertices { All (λ v. v < vec_len self.old.distances) vertices.now }
        requires distance { distance < UNREACHED }
        ensures { IfOk result (λ _. findings self.new ≡ with_all distance vertices.now (findings self.old)) }
    {
        for vertex in vertices {
            self.reach(*vertex, distance)?;
        }
        Ok(())
    }
}

/// The edges into each vertex, and each vertex's distance from the sink: the length of a shortest walk, or `UNREACHED`
/// without a walk. Vertex v has `counts[v + 1]` edges into it.
pub(crate) fn ins_and_distances(
    alloc: Global,
    vertices: u64,
    sink: u64,
    edges: &[Edge],
    counts: Vec<u32>,
) -> Result<(PackedLists<u64>, Vec<u32>), AllocError>
    requires sink_is_vertex { sink < vertices }
    requires few_vertices { vertices ≤ max_vertices }
    requires few_edges { length edges.now ≤ max_edges }
    requires edges { (e : ℕ) → e < length edges.now → IsEdge vertices sink (edge_of edges.now e) }
    requires counted { AreEndCounts Head edges.now vertices (length edges.now) counts.items }
    ensures ins { IfOk result (λ r. AreEdgesBy Head edges.now vertices r.0) }
    ensures distances { IfOk result (λ r.
        AreDistances (record { vertices = vertices; sink = sink; edges = edges.now }) (map noted r.1.items)) }
{
    let mut search = Search::begin(alloc, vertices as usize, sink as u32)?;
    // The tails are in one list, so that the search reads no edge.
    let (ins, tails): (PackedLists<u64>, Vec<u32>) = edges_by(
        alloc,
        vertices,
        counts,
        edges,
        End::Head,
    )?;
    let mut next = 0;
    while next < search.reached.len() {
        let Reached { vertex, distance } = search.reached[next];
        search.reach_all(ins.beside(vertex as usize, &tails), distance + 1)?;
        next += 1;
    }
    Ok((ins, search.distances))
}
