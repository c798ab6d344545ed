//! Worked refusals and results, with values from outside.

use crate::games::{Rows, TRIANGLE, edges_of, game_of, triangle};
use chip_graph::{AnyEdge, Edge, Game, GameFault, Graph, GraphFault, Limits};
use std::process::Abort;

/// A vertex of the triangle: its number, its degree, its distance, and the edges out of it and into it.
struct Shown {
    vertex: u64,
    degree: u64,
    distance: u64,
    outs: &'static [u64],
    ins: &'static [u64],
}

const SHOWN: &[&Shown] = &[
    &Shown {
        vertex: 0,
        degree: 2,
        distance: 1,
        outs: &[0, 1],
        ins: &[2],
    },
    &Shown {
        vertex: 1,
        degree: 2,
        distance: 1,
        outs: &[2, 3],
        ins: &[0],
    },
    &Shown {
        vertex: 2,
        degree: 0,
        distance: 0,
        outs: &[],
        ins: &[1, 3],
    },
];

/// The degree, the distance and the edges of a vertex.
fn shows(rt: &impl Abort, graph: &Graph, shown: &Shown) {
    let vertex = shown.vertex;
    assert!(rt; vertex < graph.vertices());
    assert!(rt;
        graph.out_degree(vertex) == shown.degree,
        "degree of {vertex}"
    );
    assert!(rt;
        graph.distance(vertex) == shown.distance,
        "distance of {vertex}"
    );
    assert!(rt; graph.outs(vertex) == shown.outs, "edges out of {vertex}");
    assert!(rt; graph.ins(vertex) == shown.ins, "edges into {vertex}");
    assert!(rt;
        graph.links(vertex).len() == shown.outs.len(),
        "links of {vertex}"
    );
}

#[test]
fn shows_the_triangle(rt: HostRuntime) {
    let triangle = triangle(&rt);
    assert!(rt; triangle.vertices() == 3);
    assert!(rt; triangle.sink() == 2);
    assert!(rt; triangle.edges().len() == 4);
    for shown in SHOWN {
        shows(&rt, &triangle, shown);
    }
}

/// The number of the root edge into a vertex of the triangle, and what it is.
fn has_root_edge(rt: &impl Abort, graph: &Graph, vertex: u64) {
    assert!(rt; vertex < graph.vertices());
    let root_edge = graph.root_edge(vertex);
    assert!(rt;
        Some(root_edge) == vertex.checked_add(4),
        "root edge of {vertex}"
    );
    assert!(rt; graph.edge(root_edge) == Some(AnyEdge::Root { head: vertex }));
}

#[test]
fn numbers_the_edges(rt: HostRuntime) {
    let triangle = triangle(&rt);
    assert!(rt; triangle.all_edges() == 7);
    let back = Edge {
        tail: 1,
        head: 0,
        mult: 1,
    };
    assert!(rt; triangle.edge(2) == Some(AnyEdge::Own(back)));
    for vertex in 0..triangle.vertices() {
        has_root_edge(&rt, &triangle, vertex);
    }
    assert!(rt; triangle.edge(7) == None);
    assert!(rt; triangle.edge(u64::MAX) == None);
}

/// Vertices, the sink, rows, and the first fault of them.
const FAULTS: &[&(u64, u64, Rows, Option<GraphFault>)] = &[
    &(0, 0, &[], Some(GraphFault::Vertices)),
    &(4097, 4097, &[], Some(GraphFault::Vertices)),
    &(3, 3, &[], Some(GraphFault::Sink)),
    &(3, 2, &[(0, 3, 0)], Some(GraphFault::Endpoint(0))),
    &(3, 2, &[(0, 0, 0)], Some(GraphFault::Mult(0))),
    &(3, 2, &[(0, 1, 1_048_577)], Some(GraphFault::Mult(0))),
    &(3, 2, &[(1, 1, 1)], Some(GraphFault::Loop(0))),
    &(3, 2, &[(2, 2, 1)], Some(GraphFault::Loop(0))),
    &(3, 2, &[(0, 2, 1), (2, 0, 1)], Some(GraphFault::FromSink(1))),
    &(
        4,
        3,
        &[(0, 1, 1), (1, 0, 1), (2, 3, 1)],
        Some(GraphFault::Unreached(0)),
    ),
    &(
        4,
        3,
        &[(0, 3, 1), (2, 1, 1), (1, 2, 1)],
        Some(GraphFault::Unreached(1)),
    ),
    &(1, 0, &[], None),
];

/// What is wrong with a graph, if something is.
fn fault_of(
    rt: &(impl AllocGlobal + Abort),
    vertices: u64,
    sink: u64,
    rows: Rows,
) -> Option<GraphFault> {
    Graph::new(rt.alloc(), vertices, sink, edges_of(rt, rows)).err()
}

#[test]
fn names_the_first_fault(rt: HostRuntime) {
    for (vertices, sink, rows, fault) in FAULTS {
        let found = fault_of(&rt, *vertices, *sink, rows);
        assert!(rt; found == *fault, "{vertices} {sink} {rows:?}: {found:?}");
    }
}

/// The chips of the triangle, a limit, and the first fault of them.
const GAME_FAULTS: &[&(&[u64], u64, GameFault)] = &[
    &(&[1, 2], 1, GameFault::StartLength),
    &(&[1 << 40, 1, 0], 1 << 41, GameFault::Total),
    &(&[u64::MAX, u64::MAX, 2], 0, GameFault::Total),
    &(&[0, 0, 0], (1 << 40) + 1, GameFault::Limit),
];

/// What is wrong with a game on the triangle, if something is.
fn fault_of_game(rt: &(impl AllocGlobal + Abort), start: &[u64], limit: u64) -> Option<GameFault> {
    let graph = Box::into_inner(triangle(rt));
    let start = start.to_vec(rt.alloc()).expect(rt, "memory");
    Game::new(graph, start, limit).err()
}

#[test]
fn refuses_games(rt: HostRuntime) {
    for (start, limit, fault) in GAME_FAULTS {
        let found = fault_of_game(&rt, start, *limit);
        assert!(rt; found == Some(*fault), "{start:?}: {found:?}");
    }
}

#[test]
fn takes_the_largest_total(rt: HostRuntime) {
    let start = [1 << 40, 0, 0].as_slice();
    let game = game_of(&rt, TRIANGLE, start, 1 << 40);
    assert!(rt; game.start() == start);
    assert!(rt; game.limit() == 1 << 40 && game.total() == 1 << 40);
    assert!(rt; game.graph().vertices() == 3);
}

/// A copy of a game.
fn copy_of(rt: &(impl AllocGlobal + Abort), game: &Game) -> Box<Game> {
    let copy = game.copy(rt.alloc()).expect(rt, "memory");
    Box::new(rt.alloc(), copy).expect(rt, "memory")
}

#[test]
fn copies_a_game(rt: HostRuntime) {
    let game = game_of(&rt, TRIANGLE, &[4, 0, 0], 7);
    let copy = copy_of(&rt, &game);
    assert!(rt; copy.start() == [4, 0, 0].as_slice());
    assert!(rt; copy.limit() == 7 && copy.total() == 4);
    assert!(rt; copy.graph().edges() == game.graph().edges());
    assert!(rt; copy.graph().vertices() == 3 && copy.graph().sink() == 2);
}

#[test]
fn adds_chips(rt: HostRuntime) {
    let game = Box::into_inner(game_of(&rt, TRIANGLE, &[4, 0, 1], 7));
    let Ok(more) = game.with_more(&[(2, 5), (0, 1), (2, 10)]) else {
        panic!(rt; "refused");
    };
    assert!(rt; more.start() == [5, 0, 16].as_slice());
    assert!(rt; (more.limit(), more.total()) == (7, 21));
    assert!(rt; more.graph().edges().len() == 4);
    let Ok(same) = more.with_more(&[]) else {
        panic!(rt; "refused");
    };
    assert!(rt; same.start() == [5, 0, 16].as_slice());
}

#[test]
fn adds_no_more_than_the_largest_total(rt: HostRuntime) {
    let game = Box::into_inner(game_of(&rt, TRIANGLE, &[4, 0, 0], 7));
    let Ok(full) = game.with_more(&[(1, (1 << 40) - 4)]) else {
        panic!(rt; "refused");
    };
    assert!(rt; full.total() == 1 << 40);
    let Err(same) = full.with_more(&[(2, 0), (0, 1)]) else {
        panic!(rt; "taken");
    };
    assert!(rt; same.start() == [4, (1 << 40) - 4, 0].as_slice());
    assert!(rt; (same.limit(), same.total()) == (7, 1 << 40));
    // The sum of these counts is above 2^64.
    assert!(rt; same.with_more(&[(0, u64::MAX), (1, 5)]).is_err());
}

/// `count` edges of a long row of vertices: 16 from each to the one before it, and the rest from the last one.
fn long_row(rt: &(impl AllocGlobal + Abort), count: u64) -> Vec<Edge> {
    let mut edges = Vec::new(rt.alloc());
    for i in 0..count {
        let head = (i / 16).min(4_094);
        edges
            .push(Edge {
                tail: head + 1,
                head,
                mult: 1,
            })
            .expect(rt, "memory");
    }
    edges
}

/// The largest graph.
fn largest(rt: &(impl AllocGlobal + Abort)) -> Graph {
    Graph::new(rt.alloc(), 4_096, 0, long_row(rt, 65_536)).expect(rt, "a graph")
}

/// The degree and the distance of a vertex.
fn lies_at(rt: &impl Abort, graph: &Graph, vertex: u64, degree: u64, distance: u64) {
    assert!(rt; vertex < graph.vertices());
    assert!(rt; graph.out_degree(vertex) == degree, "degree of {vertex}");
    assert!(rt; graph.distance(vertex) == distance, "distance of {vertex}");
}

#[test]
fn takes_the_largest_graph(rt: HostRuntime) {
    let graph = largest(&rt);
    assert!(rt; graph.edges().len() == 65_536 && graph.all_edges() == 69_632);
    lies_at(&rt, &graph, 0, 0, 0);
    lies_at(&rt, &graph, 1, 16, 1);
    lies_at(&rt, &graph, 4_094, 16, 4_094);
    lies_at(&rt, &graph, 4_095, 32, 4_095);
}

#[test]
fn refuses_one_edge_more(rt: HostRuntime) {
    let fault = Graph::new(rt.alloc(), 4_096, 0, long_row(&rt, 65_537)).err();
    assert!(rt; fault == Some(GraphFault::EdgeCount));
}

/// What is wrong with a row of `vertices` vertices and `edges` edges by these limits, if something is.
fn fault_of_row(
    rt: &(impl AllocGlobal + Abort),
    limits: Limits,
    vertices: u64,
    edges: u64,
) -> Option<GraphFault> {
    Graph::within(rt.alloc(), limits, vertices, 0, long_row(rt, edges)).err()
}

#[test]
fn takes_a_large_graph(rt: HostRuntime) {
    let large = Limits::large();
    assert!(rt; fault_of_row(&rt, large, 4_096, 65_537) == None);
    assert!(rt; fault_of_row(&rt, large, 4_097, 65_536) == Some(GraphFault::Unreached(4_096)));
    assert!(rt; fault_of_row(&rt, large, (1 << 21) + 1, 65_536) == Some(GraphFault::Vertices));
}

#[test]
fn limits_of_its_own(rt: HostRuntime) {
    assert!(rt; Limits::new((1 << 21) + 1, 0, 0).is_none());
    assert!(rt; Limits::new(0, (1 << 23) + 1, 0).is_none());
    assert!(rt; Limits::new(0, 0, (1 << 28) + 1).is_none());
    let limits = Limits::new(4_096, 20, 30).expect(&rt, "limits");
    assert!(rt; limits.vertices() == 4_096 && limits.edges() == 20 && limits.bytes() == 30);
    assert!(rt; fault_of_row(&rt, limits, 4_096, 21) == Some(GraphFault::EdgeCount));
}

/// The largest graph with 2^28 chips on each vertex.
fn largest_game(rt: &(impl AllocGlobal + Abort)) -> Box<Game> {
    let start = vec![in rt.alloc(); 1 << 28; 4_096].expect(rt, "memory");
    let game = Game::new(largest(rt), start, 1 << 40).expect(rt, "a game");
    Box::new(rt.alloc(), game).expect(rt, "memory")
}

#[test]
fn copies_the_largest_game(rt: HostRuntime) {
    let game = largest_game(&rt);
    let copy = copy_of(&rt, &game);
    assert!(rt; copy.limit() == 1 << 40 && copy.total() == 1 << 40);
    assert!(rt; copy.start().last().copied() == Some(1 << 28));
    assert!(rt; copy.graph().edges().len() == 65_536);
}
