//! Games worked out by hand, and each call once. What holds for all inputs stands in the contracts.

ghost use Rattle.std.specs.Prelude.{◌≡◌, ◌<◌, ◌≤◌};
ghost use Rattle.chip_graph.specs.Limits.{max_total};

use crate::games::{TRIANGLE, game_of, graph_of};
use chip_graph::{Game, Graph};
use chip_sequence::{AfterFault, after, after_into, enough, enough_by_distance, fire};
use std::process::Abort;

/// The game on the triangle, whose sink is 2, with four chips on vertex 0.
fn four_chips(rt: &(impl AllocGlobal + Abort)) -> Box<Game>
    ensures { result.value.graph.vertices ≡ 3 }
{
    game_of(rt, TRIANGLE, &[4, 0, 0], 1 << 40)
}

#[test]
fn positions_by_counts(rt: HostRuntime) {
    let game = four_chips(&rt);
    let chips = after(rt.alloc(), &game, &[2, 1, 0]).expect(&rt, "a position");
    assert!(rt; chips.as_slice() == [1, 0, 3].as_slice());
    let mut into = [7, 7, 7];
    assert!(rt; after_into(&game, &[2, 1, 0], &mut into).is_ok());
    assert!(rt; into == [1, 0, 3]);
}

/// Counts by which a vertex would be below 0, and the least such vertex.
const NEGATIVE: [([u64; 3], u64); 3] = [
    ([0, 1, 0], 1),
    ([3, 0, 0], 0),
    ([u64::MAX, u64::MAX, 0], 0),
];

#[test]
fn negative_counts(rt: HostRuntime) {
    let game = four_chips(&rt);
    for (fired, vertex) in NEGATIVE {
        let mut into = [1, 0, 3];
        let answer = after_into(&game, &fired, &mut into);
        assert!(rt;
            matches!(answer, Err(AfterFault::Negative(least)) if least == vertex),
            "{fired:?}"
        );
        assert!(rt; into == [1, 0, 3], "{fired:?}");
    }
}

#[test]
fn no_position(rt: HostRuntime) {
    let game = four_chips(&rt);
    let answer = after(rt.alloc(), &game, &[0, 1, 0]);
    assert!(rt; matches!(answer, Err(AfterFault::Negative(1))));
}

/// A chain whose sink is its last vertex.
fn chain(rt: &(impl AllocGlobal + Abort), vertices: u64, mult: u64) -> Box<Graph>
    requires { 0 < vertices }
{
    let mut rows = Vec::new(rt.alloc());
    for vertex in 0..vertices - 1 {
        rows.push((vertex, vertex + 1, mult)).expect(rt, "memory");
    }
    graph_of(rt, vertices, vertices - 1, &rows)
}

/// How often a vertex fires at most on such a chain, with `total` chips: by the degrees, and by the distance alone.
fn expect_enough(
    rt: &(impl AllocGlobal + Abort),
    vertices: u64,
    mult: u64,
    total: u64,
    most: Option<u64>,
    by_distance: Option<u64>,
)
    requires vertices { 0 < vertices }
    requires total { total ≤ max_total }
{
    let graph = chain(rt, vertices, mult);
    assert!(rt;
        enough(&graph, total) == most && enough_by_distance(&graph, total) == by_distance,
        "{vertices} vertices, {total} chips"
    );
}

#[test]
fn limits(rt: HostRuntime) {
    let triangle = four_chips(&rt);
    assert!(rt; enough(triangle.graph(), 4) == Some(4));
    assert!(rt; enough_by_distance(triangle.graph(), 4) == Some(4));
    expect_enough(&rt, 3, 1, 3, Some(6), Some(6));
    expect_enough(&rt, 3, 1, 1 << 40, None, None);
    expect_enough(&rt, 41, 2, 1, Some(1_099_511_627_775), Some(40));
    expect_enough(&rt, 42, 2, 1, None, Some(41));
    expect_enough(&rt, 1, 1, 1 << 40, Some(0), Some(0));
    // more comes into vertex 2 than it sends
    let two_in_one = graph_of(&rt, 4, 3, &[(0, 2, 1), (1, 2, 1), (2, 3, 1)]);
    assert!(rt; enough(&two_in_one, 10) == Some(20));
    assert!(rt; enough_by_distance(&two_in_one, 10) == None);
}

/// A vertex that may not fire so often, and how often: the sink, no times, and more often than it has chips for.
const NOT_LEGAL: [(u64, u64); 5] = [(2, 1), (0, 0), (0, 3), (1, 1), (0, u64::MAX)];

#[test]
fn firings(rt: HostRuntime) {
    let game = four_chips(&rt);
    let graph = game.graph();
    for (vertex, k) in NOT_LEGAL {
        let mut position = [4, 0, 0];
        assert!(rt;
            fire(&mut position, graph, vertex, k).is_err(),
            "{k} times {vertex}"
        );
        assert!(rt; position == [4, 0, 0], "{k} times {vertex}");
    }
    let mut position = [4, 0, 0];
    assert!(rt; fire(&mut position, graph, 0, 2).is_ok());
    assert!(rt; position == [0, 2, 2]);
}
