//! Nets that are fed while they run.

ghost use Rattle.std.specs.Prelude.{◌≡◌, ◌<◌, ◌≤◌, All};

use super::threads::{poll_until, turn_until};
use super::{all_turn, drive, expect_open, expect_poll, finishes};
use crate::games::{Ends, FOUR_CHIPS, LIMIT, TRIANGLE, game_of};
use chip_net::{Actor, FeedFault, Net, Root, RootState};
use std::process::Abort;
use std::sync::atomic::AtomicBool;
use std::thread::{self, Threads};

/// The triangle with these chips as a net that is fed, with rings of one cell.
fn open_triangle(rt: &(impl AllocGlobal + Abort), start: &[u64]) -> (Net, Root, Vec<Actor>)
    ensures root { result.1.net ≡ result.0 }
    ensures actors { All (λ a. a.net ≡ result.0) result.2.items }
    ensures vertices { 0 < result.0.setting.game.graph.vertices }
{
    let game = game_of(rt, TRIANGLE, start, LIMIT);
    let (net, root, actors, _stopper) = Net::open_fed(rt.alloc(), &game, 1, 0, false).expect(
        rt, "memory",
    );
    assert!(rt; !actors.is_empty());
    (net, root, actors)
}

/// Feeds `count` chips to the first vertex.
fn expect_feed(
    rt: &impl Abort,
    net: &Net,
    root: &mut Root,
    count: u64,
    answer: Result<u64, FeedFault>,
)
    requires net { root.old.net ≡ net.now }
    requires vertices { 0 < net.now.setting.game.graph.vertices }
    requires count { 1 ≤ count }
    ensures { root.new.net ≡ root.old.net }
{
    let fed = root.feed(net, 0, count);
    assert!(rt; fed == answer);
}

fn expect_end(rt: &impl Abort, net: &Net, root: &mut Root, state: RootState)
    requires { root.old.net ≡ net.now }
    ensures { root.new.net ≡ root.old.net }
{
    let ended = root.end(net);
    assert!(rt; ended == state);
}

/// Feeds four chips at once, and notes the end.
fn feed_four(rt: &impl Abort, net: &Net, mut root: Root) -> Root
    requires root { root.net ≡ net.now }
    requires vertices { 0 < net.now.setting.game.graph.vertices }
    ensures { result.net ≡ net.now }
{
    expect_poll(rt, net, &mut root, RootState::Running(0));
    let mut root = expect_open(rt, net, root);
    expect_feed(rt, net, &mut root, 4, Ok(0));
    expect_end(rt, net, &mut root, RootState::Running(1));
    root
}

/// Four chips at once, then the end.
#[test]
fn four_fed(rt: HostRuntime) {
    let (net, root, mut actors) = open_triangle(&rt, &[0, 0, 0]);
    let root = feed_four(&rt, &net, root);
    let root = drive(&net, root, &mut actors);
    finishes(&rt, &net, root, &FOUR_CHIPS, "four chips");
}

/// Three chips fill the ring; a fourth goes in after the actors have turned.
fn feed_twice(rt: &impl Abort, net: &Net, mut root: Root, actors: &mut Vec<Actor>) -> Root
    requires root { root.net ≡ net.now }
    requires actors { All (λ a. a.net ≡ net.now) actors.old.items }
    requires vertices { 0 < net.now.setting.game.graph.vertices }
    ensures root { result.net ≡ net.now }
    ensures actors { All (λ a. a.net ≡ net.now) actors.new.items }
{
    expect_feed(rt, net, &mut root, 3, Ok(0));
    expect_feed(rt, net, &mut root, 1, Err(FeedFault::Full));
    all_turn(net, actors);
    expect_feed(rt, net, &mut root, 1, Ok(1));
    root
}

/// The end closes a net with nothing outstanding, and nothing is fed after it.
fn end_twice(rt: &impl Abort, net: &Net, mut root: Root) -> Root
    requires root { root.net ≡ net.now }
    requires vertices { 0 < net.now.setting.game.graph.vertices }
    ensures { result.net ≡ net.now }
{
    expect_poll(rt, net, &mut root, RootState::Running(0));
    let mut root = expect_open(rt, net, root);
    expect_end(rt, net, &mut root, RootState::Closed);
    expect_end(rt, net, &mut root, RootState::Closed);
    expect_feed(rt, net, &mut root, 1, Err(FeedFault::Ended));
    root
}

/// A full ring, which has room again after turns. Without the end the net stays open with nothing outstanding.
#[test]
fn fed_twice(rt: HostRuntime) {
    let (net, root, mut actors) = open_triangle(&rt, &[0, 0, 0]);
    let root = feed_twice(&rt, &net, root, &mut actors);
    let root = drive(&net, root, &mut actors);
    let root = end_twice(&rt, &net, root);
    finishes(&rt, &net, root, &FOUR_CHIPS, "four chips");
}

/// Expects that a chip for the first vertex is refused.
fn expect_refused(rt: &impl Abort, net: &Net, mut root: Root, fault: FeedFault)
    requires root { root.net ≡ net.now }
    requires vertices { 0 < net.now.setting.game.graph.vertices }
{
    expect_feed(rt, net, &mut root, 1, Err(fault));
}

/// No chip is fed past the largest total.
#[test]
fn largest_total(rt: HostRuntime) {
    let (net, root, _actors) = open_triangle(&rt, &[0, 0, LIMIT]);
    expect_refused(&rt, &net, root, FeedFault::Total);
}

/// A net that isn't opened for feeding refuses all feeds.
#[test]
fn not_for_feeding(rt: HostRuntime) {
    let game = game_of(&rt, TRIANGLE, &[0, 0, 0], LIMIT);
    let (net, root, actors, _stopper) = Net::open(rt.alloc(), &game, 1, 0, false).expect(
        &rt, "memory",
    );
    assert!(rt; !actors.is_empty());
    expect_refused(&rt, &net, root, FeedFault::Ended);
}

/// Feeds `chips` single chips to the first vertex, notes the end, and polls until the root is closed.
fn feed_until(net: &Net, closed: &AtomicBool, mut root: Root, chips: u64) -> Root
    requires root { root.net ≡ net.now }
    requires vertices { 0 < net.now.setting.game.graph.vertices }
    ensures { result.net ≡ net.now }
{
    let mut left = chips;
    for _ in 0..super::threads::MOST {
        if left == 0 {
            break;
        }
        if root.feed(net, 0, 1).is_ok() {
            left -= 1;
        }
        thread::yield_now();
    }
    root.end(net);
    poll_until(net, closed, root)
}

/// One thread makes turns, another one feeds.
fn turn_and_feed<R: Threads>(rt: &R, net: &Net, actors: Vec<Actor>, root: Root, chips: u64) -> Root
    requires actors { All (λ a. a.net ≡ net.now) actors.items }
    requires root { root.net ≡ net.now }
    requires vertices { 0 < net.now.setting.game.graph.vertices }
    ensures { result.net ≡ net.now }
{
    let closed = AtomicBool::new(false);
    let closed = &closed;
    let (_, root) = thread::join(
        rt,
        move ||
            requires { All (λ a. a.net ≡ net.now) actors.items }
        { turn_until(net, closed, actors) },
        move || -> Root
            requires { (root.net ≡ net.now) × (0 < net.now.setting.game.graph.vertices) }
            ensures { result.net ≡ net.entry.now }
        { feed_until(net, closed, root, chips) },
    );
    root
}

/// A thousand chips, fed one by one while another thread makes turns, end as if all were there from the start: vertex 0
/// has 1000 - 2 * 666 + 333 left, vertex 1 has 666 - 2 * 333, and the sink got 666 + 333.
#[test]
fn fed_on_threads(rt: HostRuntime) {
    let (net, root, actors) = open_triangle(&rt, &[0, 0, 0]);
    let root = turn_and_feed(&rt, &net, actors, root, 1000);
    finishes(&rt, &net, root, &THOUSAND, "a thousand chips");
}

const THOUSAND: Ends = Ends {
    fired: &[666, 333, 0],
    chips: &[1, 0, 999],
    over: &[],
    sealed: &[],
};
