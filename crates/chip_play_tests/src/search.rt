//! Plays that are long without a search of counts: by their visits and rounds, which do not depend on the machine.

use crate::fire::{Told, heap};
use crate::games::graph_of;
use chip_fire::plain_watched;
use chip_graph::Game;
use chip_sequence::Outcome;
use std::process::Abort;

/// Plays a game in which counts are searched. While the search goes on, it says that some chips are still to move, and no
/// more than there are.
fn play(rt: &(impl AllocGlobal + Abort), game: &Game) -> Box<(Told, Outcome)> {
    let mut told = Told::nothing();
    let outcome = plain_watched(rt.alloc(), game, &mut told).expect(rt, "memory");
    assert!(rt; told.searches == 1);
    assert!(rt; told.least_to_move > 0);
    assert!(rt; told.most_to_move <= game.total());
    Box::new(rt.alloc(), (told, outcome)).expect(rt, "memory")
}

/// On a path of 2,048 vertices a search makes more visits than lie between two reports of its progress.
#[test]
fn a_search_is_reported(rt: HostRuntime) {
    let game = heap(&rt, 2_047, 2_000, 1 << 40);
    let (told, _outcome) = Box::into_inner(play(&rt, &game));
    assert!(rt; told.most_to_move > 0);
}

/// The last vertex of the path with heaps.
const LAST: u32 = 511;

/// How often a vertex fires at this distance from the middle of the path, where `2 * half` chips lie. In the end there is
/// no chip in the middle, and one on each other vertex to which the chips come: up to the distance `half`, or on all,
/// whose ends are 255 edges away. So the counts' second differences are 1, and the two sides are the same.
fn firings(half: u64, distance: u64) -> u64 {
    let reach = half.min(256);
    let left = reach.saturating_sub(distance);
    let rises = left.wrapping_mul(left.wrapping_add(1)) / 2;
    rises.wrapping_add(left.wrapping_mul(half.saturating_sub(reach)))
}

/// Rounds alone take thousands.
#[test]
fn heaps_on_a_long_path(rt: HostRuntime) {
    for chips in [250, 376, 450, 500, 562, 626, 750, 876] {
        let game = heap(&rt, LAST, chips, 1 << 40);
        let (told, outcome) = Box::into_inner(play(&rt, &game));
        assert!(rt;
            told.visits < 1_000,
            "{} visits for {chips} chips",
            told.visits
        );
        assert!(rt;
            told.rounds < 500,
            "{} rounds for {chips} chips",
            told.rounds
        );
        for vertex in 0..u64::from(LAST) {
            let expected = firings(chips / 2, vertex.abs_diff(255));
            assert!(rt; outcome.fired.get(vertex as usize).copied() == Some(expected));
        }
    }
}

/// Twice as many chips as vertices, in the middle of a strip of columns that has edges both ways and loses chips at its
/// first and last column.
fn strip(rt: &(impl AllocGlobal + Abort), columns: u64, width: u64, is_grid: bool) -> Box<Game> {
    let sink = columns.saturating_mul(width);
    let mut rows = Vec::new(rt.alloc());
    for vertex in 0..sink {
        let row = vertex % width.max(1);
        let mut beside = Vec::new(rt.alloc());
        if is_grid || row == 0 {
            beside
                .push(vertex.checked_sub(width).unwrap_or(sink))
                .expect(rt, "memory");
            beside
                .push(vertex.saturating_add(width).min(sink))
                .expect(rt, "memory");
        }
        if row > 0 {
            beside.push(vertex.saturating_sub(1)).expect(rt, "memory");
        }
        if row < width.saturating_sub(1) {
            beside.push(vertex.saturating_add(1)).expect(rt, "memory");
        }
        for head in &beside {
            rows.push((vertex, *head, 1)).expect(rt, "memory");
        }
    }
    let mut start = vec![in rt.alloc(); 0; sink.saturating_add(1) as usize].expect(rt, "memory");
    let middle = (columns / 2).saturating_mul(width);
    if let Some(chips) = start.get_mut(middle as usize) {
        *chips = sink.saturating_mul(2);
    }
    let graph = graph_of(rt, sink.saturating_add(1), sink, &rows);
    let game = Game::new(Box::into_inner(graph), start, 1 << 40).expect(rt, "a game");
    Box::new(rt.alloc(), game).expect(rt, "memory")
}

/// Grids of 2 and 3 rows, a path with a leaf at each vertex, and one with a path of three. Rounds alone take from
/// 1,373 to 7,201.
#[test]
fn heaps_on_strips(rt: HostRuntime) {
    for (width, is_grid) in [(2, true), (3, true), (2, false), (4, false)] {
        let game = strip(&rt, 100, width, is_grid);
        let (told, outcome) = Box::into_inner(play(&rt, &game));
        assert!(rt; told.visits < 1_000, "{} visits", told.visits);
        assert!(rt; told.rounds < 1_000, "{} rounds", told.rounds);
        assert!(rt; outcome.over.is_empty());
    }
}

/// The search makes most visits if the play is far from its end: it takes some 60,000 visits of each vertex and edge
/// alone.
#[test]
fn long_strips_are_searched(rt: HostRuntime) {
    let game = strip(&rt, 1_000, 2, false);
    let (told, outcome) = Box::into_inner(play(&rt, &game));
    assert!(rt; outcome.over.is_empty());
    assert!(rt;
        told.beside.saturating_mul(2) < told.searched,
        "{} visits of the play beside {} of the search",
        told.beside,
        told.searched
    );
}
