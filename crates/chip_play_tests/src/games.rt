//! Graphs and games that several modules play.

ghost use Rattle.std.specs.Prelude.{◌≡◌, length};

use chip_graph::{Edge, Game, Graph};
use std::process::Abort;

/// Edges by tail, head and multiplicity.
pub(crate) type Rows = &'static [(u64, u64, u64)];

/// Two vertices that send to each other, and both to the sink 2.
pub(crate) const TRIANGLE: Rows = &[(0, 1, 1), (0, 2, 1), (1, 0, 1), (1, 2, 1)];

/// The edges of these rows.
pub(crate) fn edges_of(rt: &(impl AllocGlobal + Abort), rows: &[(u64, u64, u64)]) -> Vec<Edge> {
    let mut edges = Vec::new(rt.alloc());
    for &(tail, head, mult) in rows {
        edges.push(Edge { tail, head, mult }).expect(rt, "memory");
    }
    edges
}

/// A graph of these edges.
pub(crate) fn graph_of(
    rt: &(impl AllocGlobal + Abort),
    vertices: u64,
    sink: u64,
    rows: &[(u64, u64, u64)],
) -> Box<Graph>
    ensures { result.value.vertices ≡ vertices }
{
    let graph = Graph::new(rt.alloc(), vertices, sink, edges_of(rt, rows)).expect(rt, "a graph");
    Box::new(rt.alloc(), graph).expect(rt, "memory")
}

/// The graph of the triangle.
pub(crate) fn triangle(rt: &(impl AllocGlobal + Abort)) -> Box<Graph>
    ensures { result.value.vertices ≡ 3 }
{
    graph_of(rt, 3, 2, TRIANGLE)
}

/// A game whose sink is the last vertex.
pub(crate) fn game_of(
    rt: &(impl AllocGlobal + Abort),
    rows: &[(u64, u64, u64)],
    start: &[u64],
    limit: u64,
) -> Box<Game>
    ensures { result.value.graph.vertices ≡ length start.now }
{
    let vertices = start.len() as u64;
    let graph = Box::into_inner(graph_of(rt, vertices, vertices.saturating_sub(1), rows));
    let start = start.to_vec(rt.alloc()).expect(rt, "memory");
    let game = Game::new(graph, start, limit).expect(rt, "a game");
    Box::new(rt.alloc(), game).expect(rt, "memory")
}
