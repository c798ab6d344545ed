//! Small games at random, which a play begins by each of its ways: what no contract says of `chip_fire`.

ghost use Rattle.std.specs.Prelude.{◌<◌};

use crate::fire::is_same;
use crate::games::graph_of;
use chip_fire::{Course, Outcome, Play, Unwatched};
use chip_graph::Game;
use std::process::Abort;

/// The next of a row of numbers that look random, below `below`.
fn next(row: &mut u64, below: u64) -> u64
    requires { 0 < below }
    ensures { result < below }
{
    *row = row
        .wrapping_mul(6_364_136_223_846_793_005)
        .wrapping_add(1_442_695_040_888_963_407);
    (*row >> 33) % below
}

/// A game on up to 40 vertices, of which the last one is the sink. Each other one has one edge or two, and lacks one chip
/// or two to be legal; `more` chips lie anywhere.
fn game(rt: &(impl AllocGlobal + Abort), row: &mut u64, more: u64, limit: u64) -> Box<Game> {
    let sink = 1 + next(row, 39);
    let mut rows = Vec::new(rt.alloc());
    let mut start = vec![in rt.alloc(); 0; sink as usize + 1].expect(rt, "memory");
    for vertex in 0..sink {
        let mult = 1 + next(row, 2);
        let head = next(row, sink + 1);
        if head != vertex && head != vertex + 1 {
            rows.push((vertex, head, 1)).expect(rt, "memory");
        }
        rows.push((vertex, vertex + 1, mult)).expect(rt, "memory");
        start[vertex as usize] = mult - 1;
    }
    for _ in 0..more {
        let vertex = next(row, sink);
        if let Some(chips) = start.get_mut(vertex as usize) {
            *chips = chips.wrapping_add(1);
        }
    }
    let graph = Box::into_inner(graph_of(rt, sink + 1, sink, &rows));
    let game = Game::new(graph, start, limit).expect(rt, "a game");
    Box::new(rt.alloc(), game).expect(rt, "memory")
}

/// What a vertex sends in one firing.
fn degree(game: &Game, vertex: u64) -> u64 {
    let mut sum = 0u64;
    for edge in game.graph().edges() {
        if edge.tail == vertex {
            sum = sum.saturating_add(edge.mult);
        }
    }
    sum
}

/// The legal vertices that have fired less often than this, ascending.
fn legal_below(
    rt: &(impl AllocGlobal + Abort),
    game: &Game,
    chips: &[u64],
    fired: &[u64],
    most: u64,
) -> Vec<u64> {
    let mut legal = Vec::new(rt.alloc());
    for (vertex, (has, times)) in chips.iter().zip(fired).enumerate() {
        let vertex = vertex as u64;
        let is_sink = vertex == game.graph().sink();
        if !is_sink && degree(game, vertex) <= *has && *times < most {
            legal.push(vertex).expect(rt, "memory");
        }
    }
    legal
}

/// Lets a vertex fire once.
fn fire_once(game: &Game, vertex: u64, chips: &mut [u64], fired: &mut [u64]) {
    for edge in game.graph().edges() {
        if edge.tail == vertex {
            if let Some(left) = chips.get_mut(vertex as usize) {
                *left = left.wrapping_sub(edge.mult);
            }
            if let Some(got) = chips.get_mut(edge.head as usize) {
                *got = got.wrapping_add(edge.mult);
            }
        }
    }
    if let Some(times) = fired.get_mut(vertex as usize) {
        *times = times.wrapping_add(1);
    }
}

/// The outcome if the last legal vertex fires once, time after time.
fn one_by_one(rt: &(impl AllocGlobal + Abort), game: &Game) -> Box<Outcome> {
    let mut chips = game.start().to_vec(rt.alloc()).expect(rt, "memory");
    let mut fired = vec![in rt.alloc(); 0; chips.len()].expect(rt, "memory");
    for _ in 0..1_000_000u64 {
        let legal = legal_below(rt, game, &chips, &fired, game.limit());
        let Some(vertex) = legal.last() else {
            break;
        };
        fire_once(game, *vertex, &mut chips, &mut fired);
    }
    let over = legal_below(rt, game, &chips, &fired, u64::MAX);
    let sealed = Vec::new(rt.alloc());
    let outcome = Outcome {
        fired,
        chips,
        over,
        sealed,
    };
    Box::new(rt.alloc(), outcome).expect(rt, "memory")
}

/// Plays a game by a way for so many visits, and then to its end, and compares the outcome.
fn expect_by(
    rt: &(impl AllocGlobal + Abort),
    game: &Game,
    way: u64,
    visits: u64,
    expected: &Outcome,
) {
    let course = match way {
        0 => Course::Begins,
        1 => Course::WorkList(u64::MAX),
        2 => Course::WorkList(20),
        3 => Course::FewChips(u64::MAX),
        4 => Course::FewChips(20),
        _ => Course::Rounds,
    };
    let mut play = Play::new(rt.alloc(), game).expect(rt, "memory");
    let (course, _) = play.go_on(rt.alloc(), course, visits, &mut 0, &mut Unwatched);
    let _ = play.go_on(rt.alloc(), course, u64::MAX, &mut 0, &mut Unwatched);
    let outcome = play.outcome(rt.alloc()).expect(rt, "memory");
    assert!(rt;
        is_same(&outcome, expected),
        "way {way}, {visits} visits: fired {:?}",
        outcome.fired
    );
}

/// With no chip that moves, or up to 14, and with limits that stop a play, or do not.
#[test]
fn small_games_by_each_way(rt: HostRuntime) {
    let mut row = 1;
    for more in 0..30 {
        for limit in [1, 2, 1 << 40] {
            let game = game(&rt, &mut row, more / 2, limit);
            let expected = one_by_one(&rt, &game);
            for way in 0..6 {
                for visits in [0, 1, 50, 5_000, u64::MAX] {
                    expect_by(&rt, &game, way, visits, &expected);
                }
            }
        }
    }
}
