//! Small nets, turn by turn, and nets whose tokens go to threads.

ghost use Rattle.std.specs.Prelude.{◌≡◌, All, IfSome};

mod feeding;
mod threads;

use crate::games::{Edges, Ends, FOUR_CHIPS, LIMIT, TRIANGLE, expect_outcome, game_of};
use chip_link::TraceRow;
use chip_net::{Actor, Net, NoEdge, Root, RootState, SealedAt, Stopper, Turn};
use chip_sequence::Outcome;
use std::process::Abort;

/// A net of this game with rings of one cell, and its tokens.
fn open_net(
    rt: &(impl AllocGlobal + Abort),
    edges: &[(u64, u64, u64)],
    start: &[u64],
    limit: u64,
    trace_rows: u64,
    stoppable: bool,
) -> (Net, Root, Vec<Actor>, Option<Stopper>)
    ensures root { result.1.net ≡ result.0 }
    ensures actors { All (λ a. a.net ≡ result.0) result.2.items }
    ensures stopper { IfSome result.3 (λ s. s.net ≡ result.0) }
{
    let game = game_of(rt, edges, start, limit);
    Net::open(rt.alloc(), &game, 1, trace_rows, stoppable).expect(rt, "memory")
}

/// Gives the actor of this vertex a turn, and expects this result.
fn expect_turn(rt: &impl Abort, net: &Net, actors: &mut Vec<Actor>, vertex: usize, turn: Turn)
    requires { All (λ a. a.net ≡ net.now) actors.old.items }
    ensures { All (λ a. a.net ≡ net.now) actors.new.items }
{
    assert!(rt; vertex < actors.len());
    let actor = &mut actors[vertex];
    let made = actor.turn(net);
    assert!(rt; made == turn);
}

fn expect_poll(rt: &impl Abort, net: &Net, root: &mut Root, state: RootState)
    requires { root.old.net ≡ net.now }
    ensures { root.new.net ≡ root.old.net }
{
    let polled = root.poll(net);
    assert!(rt; polled == state);
}

fn expect_open(rt: &impl Abort, net: &Net, root: Root) -> Root
    requires { root.net ≡ net.now }
    ensures { result ≡ root }
{
    let Err(root) = root.finish(net) else {
        panic!(rt; "the root is closed");
    };
    root
}

fn finished(rt: &impl Abort, net: &Net, root: Root) -> Outcome
    requires { root.net ≡ net.now }
{
    let Ok((outcome, _receipt)) = root.finish(net) else {
        panic!(rt; "the root is open");
    };
    outcome
}

/// Expects a closed root and this end of the game.
fn finishes(rt: &impl Abort, net: &Net, root: Root, ends: &Ends, name: &str)
    requires { root.net ≡ net.now }
{
    let outcome = finished(rt, net, root);
    expect_outcome(rt, &outcome, ends, name);
}

/// The turns of four chips on the first vertex, and their end.
fn four_chips_turn(rt: &impl Abort, net: &Net, root: Root, actors: &mut Vec<Actor>)
    requires root { root.net ≡ net.now }
    requires actors { All (λ a. a.net ≡ net.now) actors.old.items }
{
    let mut root = expect_open(rt, net, root);
    expect_poll(rt, net, &mut root, RootState::Running(1));
    expect_turn(rt, net, actors, 0, Turn::Worked(6));
    expect_turn(rt, net, actors, 0, Turn::Idle);
    expect_turn(rt, net, actors, 1, Turn::Worked(6));
    expect_turn(rt, net, actors, 2, Turn::Worked(4));
    expect_poll(rt, net, &mut root, RootState::Running(1));
    expect_turn(rt, net, actors, 0, Turn::Worked(3));
    expect_turn(rt, net, actors, 1, Turn::Worked(3));
    expect_turn(rt, net, actors, 0, Turn::Worked(2));
    expect_poll(rt, net, &mut root, RootState::Closed);
    finishes(rt, net, root, &FOUR_CHIPS, "four chips");
}

/// Their traces: the first vertex has three rows, and room for two.
fn four_chips_traced(rt: &impl Abort, actors: &[Actor]) {
    let [zero, one, two] = actors else {
        panic!(rt; "the triangle has three actors");
    };
    assert!(rt; zero.vertex() == 0 && one.vertex() == 1 && two.vertex() == 2);
    expect_trace(
        rt,
        zero,
        &[
            TraceRow::Take { edge: 4, count: 4 },
            TraceRow::Fire { k: 2 },
        ],
        true,
    );
    expect_trace(
        rt,
        one,
        &[
            TraceRow::Take { edge: 0, count: 2 },
            TraceRow::Fire { k: 1 },
        ],
        false,
    );
}

fn expect_trace(rt: &impl Abort, actor: &Actor, rows: &[TraceRow], cut: bool) {
    let (written, was_cut) = actor.trace();
    assert!(rt; written == rows);
    assert!(rt; was_cut == cut);
}

/// Four chips on the triangle, by one thread.
#[test]
fn four_chips(rt: HostRuntime) {
    let (net, root, mut actors, _stopper) = open_net(&rt, TRIANGLE, &[4, 0, 0], LIMIT, 2, false);
    four_chips_turn(&rt, &net, root, &mut actors);
    four_chips_traced(&rt, &actors);
}

/// Gives each actor a turn.
fn all_turn(net: &Net, actors: &mut Vec<Actor>)
    requires { All (λ a. a.net ≡ net.now) actors.old.items }
    ensures { All (λ a. a.net ≡ net.now) actors.new.items }
{
    for index in 0..actors.len() {
        let actor = &mut actors[index];
        actor.turn(net);
    }
}

/// Gives rounds of turns until the root is closed.
fn drive(net: &Net, mut root: Root, actors: &mut Vec<Actor>) -> Root
    requires root { root.net ≡ net.now }
    requires actors { All (λ a. a.net ≡ net.now) actors.old.items }
    ensures { result.net ≡ net.now }
{
    for _ in 0..1_000 {
        if root.poll(net) == RootState::Closed {
            break;
        }
        all_turn(net, actors);
    }
    root
}

/// A game and its end.
struct Played {
    name: &'static str,
    edges: Edges,
    start: &'static [u64],
    limit: u64,
    ends: Ends,
}

/// Plays a game by turns to its end.
fn plays(rt: &(impl AllocGlobal + Abort), played: &Played, stoppable: bool) {
    let (net, root, mut actors, _stopper) = open_net(
        rt,
        played.edges,
        played.start,
        played.limit,
        0,
        stoppable,
    );
    let root = drive(&net, root, &mut actors);
    finishes(rt, &net, root, &played.ends, played.name);
}

/// Games on the triangle, and on two vertices.
const PLAYED: &[&Played] = &[
    &Played {
        name: "empty game",
        edges: TRIANGLE,
        start: &[0, 0, 0],
        limit: LIMIT,
        ends: Ends {
            fired: &[0, 0, 0],
            chips: &[0, 0, 0],
            over: &[],
            sealed: &[],
        },
    },
    &Played {
        name: "chips on the sink",
        edges: TRIANGLE,
        start: &[0, 0, 9],
        limit: LIMIT,
        ends: Ends {
            fired: &[0, 0, 0],
            chips: &[0, 0, 9],
            over: &[],
            sealed: &[],
        },
    },
    &Played {
        name: "one chip short",
        edges: TRIANGLE,
        start: &[3, 0, 0],
        limit: LIMIT,
        ends: Ends {
            fired: &[1, 0, 0],
            chips: &[1, 1, 1],
            over: &[],
            sealed: &[],
        },
    },
    &Played {
        name: "small triangle",
        edges: TRIANGLE,
        start: &[4, 0, 0],
        limit: LIMIT,
        ends: FOUR_CHIPS,
    },
    &Played {
        name: "fires again",
        edges: TRIANGLE,
        start: &[5, 0, 0],
        limit: LIMIT,
        ends: FIVE_CHIPS,
    },
    &Played {
        name: "limit of two",
        edges: TRIANGLE,
        start: &[5, 0, 0],
        limit: 2,
        ends: Ends {
            fired: &[2, 1, 0],
            chips: &[2, 0, 3],
            over: &[0],
            sealed: &[],
        },
    },
    &Played {
        name: "batch of two",
        edges: &[(0, 1, 3)],
        start: &[7, 0],
        limit: LIMIT,
        ends: Ends {
            fired: &[2, 0],
            chips: &[1, 6],
            over: &[],
            sealed: &[],
        },
    },
    &Played {
        name: "largest total",
        edges: &[(0, 1, 1)],
        start: &[LIMIT, 0],
        limit: LIMIT,
        ends: Ends {
            fired: &[LIMIT, 0],
            chips: &[0, LIMIT],
            over: &[],
            sealed: &[],
        },
    },
];

/// The end of five chips on the first vertex, which fires again.
const FIVE_CHIPS: Ends = Ends {
    fired: &[3, 1, 0],
    chips: &[0, 1, 4],
    over: &[],
    sealed: &[],
};

/// Plays each game without a stopper, and with an idle one.
#[test]
fn triangles(rt: HostRuntime) {
    for played in PLAYED {
        plays(&rt, played, false);
        plays(&rt, played, true);
    }
}

fn expect_seal(rt: &impl Abort, net: &Net, stopper: &mut Stopper, edge: u64, at: SealedAt)
    requires { stopper.old.net ≡ net.now }
    ensures { stopper.new.net ≡ stopper.old.net }
{
    let sealed = stopper.seal(net, edge);
    assert!(rt; sealed == Ok(at));
}

fn expect_no_edge(rt: &impl Abort, net: &Net, stopper: &mut Stopper, edge: u64)
    requires { stopper.old.net ≡ net.now }
{
    let sealed = stopper.seal(net, edge);
    assert!(rt; sealed == Err(NoEdge));
}

/// Seals an edge twice, and a root edge.
fn seal_twice(rt: &impl Abort, net: &Net, stopper: Option<Stopper>)
    requires { IfSome stopper (λ s. s.net ≡ net.now) }
{
    let Some(mut stopper) = stopper else {
        panic!(rt; "no stopper");
    };
    let first = SealedAt {
        count: 0,
        first: true,
    };
    let again = SealedAt {
        count: 0,
        first: false,
    };
    expect_seal(rt, net, &mut stopper, 1, first);
    expect_seal(rt, net, &mut stopper, 1, again);
    expect_no_edge(rt, net, &mut stopper, 4);
}

/// An edge that is sealed twice, and a root edge.
#[test]
fn sealed_twice(rt: HostRuntime) {
    let (net, _root, _actors, stopper) = open_net(&rt, TRIANGLE, &[4, 0, 0], LIMIT, 0, true);
    seal_twice(&rt, &net, stopper);
}

/// The root takes the stopper back, polls and finishes: no vertex had a chip, so none claimed on the sealed edge.
fn take_back_and_finish(rt: &impl Abort, net: &Net, mut root: Root, stopper: Option<Stopper>)
    requires root { root.net ≡ net.now }
    requires stopper { IfSome stopper (λ s. s.net ≡ net.now) }
{
    let Some(mut stopper) = stopper else {
        panic!(rt; "no stopper");
    };
    let first = SealedAt {
        count: 0,
        first: true,
    };
    expect_seal(rt, net, &mut stopper, 1, first);
    root.take_back(net, stopper);
    assert!(rt; root.poll(net) == RootState::Closed);
    let Ok((outcome, _)) = root.finish(net) else {
        panic!(rt; "the root is open");
    };
    assert!(rt; outcome.sealed.is_empty());
}

/// A stopper that is taken back.
#[test]
fn stopper_taken_back(rt: HostRuntime) {
    let (net, root, _actors, stopper) = open_net(&rt, TRIANGLE, &[0, 0, 0], LIMIT, 0, true);
    take_back_and_finish(&rt, &net, root, stopper);
}
