//! Tokens on threads of their own.

ghost use Rattle.std.specs.Prelude.{◌≡◌, ◌<◌, All, IfOk, IfSome};

use super::{FIVE_CHIPS, all_turn, drive, finished, open_net};
use crate::games::{Ends, LIMIT, TRIANGLE, adds_up, expect_outcome};
use chip_net::{Actor, Net, Root, RootState, Stopper};
use chip_sequence::Outcome;
use std::alloc::AllocError;
use std::process::Abort;
use std::sync::atomic::AtomicBool;
use std::sync::atomic::Ordering::SeqCst;
use std::thread::{self, Threads};

/// The most calls of a thread.
pub(crate) const MOST: u64 = 10_000_000;

/// Gives these actors turns, one after another, until the root is closed.
pub(crate) fn turn_until(net: &Net, closed: &AtomicBool, mut actors: Vec<Actor>)
    requires { All (λ a. a.net ≡ net.now) actors.items }
{
    for _ in 0..MOST {
        if closed.load(SeqCst) {
            break;
        }
        all_turn(net, &mut actors);
        thread::yield_now();
    }
}

/// Polls until the root is closed.
pub(crate) fn poll_until(net: &Net, closed: &AtomicBool, mut root: Root) -> Root
    requires { root.net ≡ net.now }
    ensures { result.net ≡ net.now }
{
    for _ in 0..MOST {
        if root.poll(net) == RootState::Closed {
            break;
        }
        thread::yield_now();
    }
    closed.store(true, SeqCst);
    root
}

/// Seals an edge, if there is a stopper.
fn seal_once(net: &Net, stopper: Option<Stopper>, edge: u64) -> bool
    requires { IfSome stopper (λ s. s.net ≡ net.now) }
{
    match stopper {
        Some(mut stopper) => stopper.seal(net, edge).is_ok(),
        None => false,
    }
}

/// Two shares of the actors, each in a thread of its own.
fn two_turn<R: Threads>(
    rt: &R,
    net: &Net,
    closed: &AtomicBool,
    first: Vec<Actor>,
    second: Vec<Actor>,
)
    requires first { All (λ a. a.net ≡ net.now) first.items }
    requires second { All (λ a. a.net ≡ net.now) second.items }
{
    thread::join(
        rt,
        move ||
            requires { All (λ a. a.net ≡ net.now) first.items }
        { turn_until(net, closed, first) },
        move ||
            requires { All (λ a. a.net ≡ net.now) second.items }
        { turn_until(net, closed, second) },
    );
}

/// The stopper seals while the root polls.
fn seal_and_poll<R: Threads>(
    rt: &R,
    net: &Net,
    closed: &AtomicBool,
    stopper: Option<Stopper>,
    edge: u64,
    root: Root,
) -> Root
    requires stopper { IfSome stopper (λ s. s.net ≡ net.now) }
    requires root { root.net ≡ net.now }
    ensures { result.net ≡ net.now }
{
    let (_, root) = thread::join(
        rt,
        move || -> bool
            requires { IfSome stopper (λ s. s.net ≡ net.now) }
        { seal_once(net, stopper, edge) },
        move || -> Root
            requires { root.net ≡ net.now }
            ensures { result.net ≡ net.entry.now }
        { poll_until(net, closed, root) },
    );
    root
}

/// A share of the actors turns on another thread.
fn turn_and_poll<R: Threads + Sync>(
    rt: &R,
    net: &Net,
    closed: &AtomicBool,
    third: Vec<Actor>,
    stopper: Option<Stopper>,
    edge: u64,
    root: Root,
) -> Root
    requires third { All (λ a. a.net ≡ net.now) third.items }
    requires stopper { IfSome stopper (λ s. s.net ≡ net.now) }
    requires root { root.net ≡ net.now }
    ensures { result.net ≡ net.now }
{
    let (root, _) = thread::join(
        rt,
        move || -> Root
            requires { IfSome stopper (λ s. s.net ≡ net.now) × (root.net ≡ net.now) }
            ensures { result.net ≡ net.entry.now }
        { seal_and_poll(rt, net, closed, stopper, edge, root) },
        move ||
            requires { All (λ a. a.net ≡ net.now) third.items }
        { turn_until(net, closed, third) },
    );
    root
}

/// Three shares of the actors, the stopper and the root, each in a thread of its own, until the root is closed.
fn all_play<R: Threads + Sync>(
    rt: &R,
    net: &Net,
    shares: (Vec<Actor>, Vec<Actor>, Vec<Actor>),
    stopper: Option<Stopper>,
    edge: u64,
    root: Root,
) -> Root
    requires first { All (λ a. a.net ≡ net.now) shares.0.items }
    requires second { All (λ a. a.net ≡ net.now) shares.1.items }
    requires third { All (λ a. a.net ≡ net.now) shares.2.items }
    requires stopper { IfSome stopper (λ s. s.net ≡ net.now) }
    requires root { root.net ≡ net.now }
    ensures { result.net ≡ net.now }
{
    let closed = AtomicBool::new(false);
    let closed = &closed;
    let (first, second, third) = shares;
    let (_, root) = thread::join(
        rt,
        move ||
            requires { All (λ a. a.net ≡ net.now) first.items × All (λ a. a.net ≡ net.now) second.items }
        { two_turn(rt, net, closed, first, second) },
        move || -> Root
            requires { All (λ a. a.net ≡ net.now) third.items × IfSome stopper (λ s. s.net ≡ net.now)
                × (root.net ≡ net.now) }
            ensures { result.net ≡ net.entry.now }
        { turn_and_poll(rt, net, closed, third, stopper, edge, root) },
    );
    root
}

/// Removes the actors from this one on from the list, and returns them.
fn tail_of(net: &Net, actors: &mut Vec<Actor>, at: usize) -> Result<Vec<Actor>, AllocError>
    requires { All (λ a. a.net ≡ net.now) actors.old.items }
    ensures first { All (λ a. a.net ≡ net.now) actors.new.items }
    ensures tail { IfOk result (λ tail. All (λ a. a.net ≡ net.now) tail.items) }
{
    let at = at.min(actors.len());
    let tail = actors.split_off(at)?;
    Ok(tail)
}

/// Plays a game on three threads with a third of the actors each; seals an edge if the game is stoppable.
fn played_on_threads<R: Threads + Sync + Abort + AllocGlobal>(
    rt: &R,
    edges: &[(u64, u64, u64)],
    start: &[u64],
    stoppable: bool,
    edge: u64,
) -> Outcome {
    let (net, root, mut actors, stopper) = open_net(rt, edges, start, LIMIT, 0, stoppable);
    let third = actors.len() / 3;
    let last = tail_of(&net, &mut actors, 2 * third).expect(rt, "memory");
    let middle = tail_of(&net, &mut actors, third).expect(rt, "memory");
    let shares = (actors, middle, last);
    let root = all_play(rt, &net, shares, stopper, edge, root);
    finished(rt, &net, root)
}

/// A vertex fires again, with a thread for each actor and one that polls.
#[test]
fn fires_again(rt: HostRuntime) {
    let outcome = played_on_threads(&rt, TRIANGLE, &[5, 0, 0], false, 0);
    expect_outcome(&rt, &outcome, &FIVE_CHIPS, "fires again");
}

/// The width of the grid.
const SIDE: u64 = 8;

/// The neighbours of a cell of the grid, with the sink in place of each missing one.
fn neighbours(row: u64, column: u64) -> [u64; 4]
    requires row { row < 8 }
    requires column { column < 8 }
{
    let sink = SIDE * SIDE;
    let cell = row * SIDE + column;
    [
        if row > 0 { cell - SIDE } else { sink },
        if row + 1 < SIDE { cell + SIDE } else { sink },
        if column > 0 { cell - 1 } else { sink },
        if column + 1 < SIDE { cell + 1 } else { sink },
    ]
}

/// The edges of the grid: each cell has one to each of its neighbours, and one to the sink for each missing one.
fn grid(rt: &(impl AllocGlobal + Abort)) -> Vec<(u64, u64, u64)> {
    let mut edges = Vec::new(rt.alloc());
    for tail in 0..SIDE * SIDE {
        for head in neighbours(tail / SIDE, tail % SIDE) {
            edges.push((tail, head, 1)).expect(rt, "memory");
        }
    }
    edges
}

/// The firing counts of all cells and the sink with four chips on each cell, and the final chips, as computed by
/// `examples/play.py`.
const GRID_ENDS: Ends = Ends {
    fired: &[
        3, 4, 4, 4, 4, 4, 4, 3, 4, 6, 7, 7, 7, 7, 6, 4, 4, 7, 9, 9, 9, 9, 7, 4, 4, 7, 9, 10, 10, 9,
        7, 4, 4, 7, 9, 10, 10, 9, 7, 4, 4, 7, 9, 9, 9, 9, 7, 4, 4, 6, 7, 7, 7, 7, 6, 4, 3, 4, 4, 4,
        4, 4, 4, 3, 0,
    ],
    chips: &[
        0, 1, 3, 3, 3, 3, 1, 0, 1, 2, 2, 3, 3, 2, 2, 1, 3, 2, 0, 3, 3, 0, 2, 3, 3, 3, 3, 2, 2, 3,
        3, 3, 3, 3, 3, 2, 2, 3, 3, 3, 3, 2, 0, 3, 3, 0, 2, 3, 1, 2, 2, 3, 3, 2, 2, 1, 0, 1, 3, 3,
        3, 3, 1, 0, 120,
    ],
    over: &[],
    sealed: &[],
};

/// Plays on by turns from these chips.
fn played_on(rt: &(impl AllocGlobal + Abort), edges: &[(u64, u64, u64)], chips: &[u64]) -> Outcome {
    let (net, root, mut actors, _stopper) = open_net(rt, edges, chips, LIMIT, 0, false);
    let root = drive(&net, root, &mut actors);
    finished(rt, &net, root)
}

/// Threads play the game; all but each fourth round seal an edge, another one each time. Playing on by turns from there
/// reaches the game's end.
fn plays_round<R: Threads + Sync + Abort + AllocGlobal>(
    rt: &R,
    edges: &[(u64, u64, u64)],
    start: &[u64],
    round: u64,
)
    requires { round < 100 }
{
    let outcome = played_on_threads(rt, edges, start, round % 4 != 0, round * 2);
    if outcome.sealed.is_empty() {
        expect_outcome(rt, &outcome, &GRID_ENDS, "grid");
    }
    let more = played_on(rt, edges, &outcome.chips);
    assert!(rt; adds_up(&outcome, &more, &GRID_ENDS), "round {round}");
}

/// Threads turn, poll and seal at once, a hundred times on the grid, sealing another edge each time.
#[test]
fn grids(rt: HostRuntime) {
    let edges = grid(&rt);
    let mut start = vec![in rt.alloc(); 4; (SIDE * SIDE) as usize].expect(&rt, "memory");
    start.push(0).expect(&rt, "memory");
    for round in 0..100 {
        plays_round(&rt, &edges, &start, round);
    }
}
