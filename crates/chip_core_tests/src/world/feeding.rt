//! Worlds that are fed while they run.

use super::*;

/// The triangle, opened for feeding with such rings.
fn fed_triangle(rt: &(impl AllocGlobal + Abort), start: &[u64], ring: Ring) -> Box<World> {
    let game = game_of(rt, TRIANGLE, start, MOST);
    let world = World::open_fed(rt.alloc(), &game, ring.cells()).expect(rt, "memory");
    Box::new(rt.alloc(), world).expect(rt, "memory")
}

/// Three chips for vertex 0, whose edge is then full.
const THREE_CHIPS: [(Event, Reply); 4] = [
    (Event::Clear(4), Reply::Done(0)),
    (feed!(4, 3), sent!(4, 0, 3)),
    (Event::Put(4), Reply::Done(3)),
    (Event::Clear(4), Reply::Full),
];

/// The messages sent then, by edge.
const THREE_CHIPS_SENT: [&[Message]; 7] = [&[], &[], &[], &[], &[message!(4, 0, 3)], &[], &[]];

/// One more chip, and the end.
const THE_LAST_CHIP: [(Event, Reply); 5] = [
    (Event::Clear(4), Reply::Done(1)),
    (feed!(4, 1), sent!(4, 1, 1)),
    (Event::Put(4), Reply::Done(1)),
    (Event::End, Reply::Done(0)),
    (Event::Clear(4), Reply::NotNow(Rule::Ended)),
];

/// Feeds three chips, and sends nothing else.
fn feeds_three(rt: &(impl AllocGlobal + Abort), world: &mut World) {
    let record = recorded(rt, world, &THREE_CHIPS);
    expect_lists(rt, &record.sent, &THREE_CHIPS_SENT);
}

#[test]
fn fed_twice(rt: HostRuntime) {
    let mut world = fed_triangle(&rt, &[0, 0, 0], Ring::of(1));
    feeds_three(&rt, &mut world);
    assert!(rt; world.drive(10) == Drive::Unfinished(10));
    assert!(rt; fired(&world, &[1, 0, 0]));
    is_open(&rt, &world);
    expect(&rt, &mut world, &THE_LAST_CHIP);
    assert!(rt; world.drive(10) == Drive::Closed);
    ends(&rt, &world, &[2, 1, 0], &[1, 0, 3], &[], &[]);
}

/// Three chips for vertex 0 and the end, if there is room for more messages.
const THREE_CHIPS_AND_THE_END: [(Event, Reply); 5] = [
    (Event::Clear(4), Reply::Done(0)),
    (feed!(4, 3), sent!(4, 0, 3)),
    (Event::Put(4), Reply::Done(3)),
    (Event::Clear(4), Reply::Done(1)),
    (Event::End, Reply::Done(0)),
];

/// Feeds a triangle with rings of `cells` cells, and plays it to the end.
fn feeds_wide(rt: &(impl AllocGlobal + Abort), cells: u64) {
    let ring = Ring::new(cells).expect(rt, "1 to 64 cells");
    let mut world = fed_triangle(rt, &[0, 0, 0], ring);
    expect(rt, &mut world, &THREE_CHIPS_AND_THE_END);
    assert!(rt; world.drive(10) == Drive::Closed);
    ends(rt, &world, &[1, 0, 0], &[1, 1, 1], &[], &[]);
}

#[test]
fn fed_in_wide_rings(rt: HostRuntime) {
    for cells in [2, 63, 64] {
        feeds_wide(&rt, cells);
    }
}

/// More chips than allowed.
const TOO_MANY: [(Event, Reply); 3] = [
    (Event::Clear(4), Reply::Done(0)),
    (feed!(4, 1), Reply::NotNow(Rule::TooMuch)),
    (feed!(4, u64::MAX), Reply::NotNow(Rule::TooMuch)),
];

#[test]
fn fed_past_the_total(rt: HostRuntime) {
    let mut world = fed_triangle(&rt, &[0, 0, 1 << 40], Ring::of(1));
    expect(&rt, &mut world, &TOO_MANY);
}

/// Each rule of the root, unmet.
const OUT_OF_TURN: [(Event, Reply); 20] = [
    (Event::Clear(7), Reply::NotNow(Rule::NoSuch)),
    (Event::Put(7), Reply::NotNow(Rule::NoSuch)),
    (feed!(7, 1), Reply::NotNow(Rule::NoSuch)),
    (feed!(3, 1), Reply::NotNow(Rule::NoSuch)),
    (Event::Claim(5), Reply::NotNow(Rule::NoSuch)),
    (Event::Seal(5), Reply::NotNow(Rule::NoSuch)),
    (feed!(5, 2), Reply::NotNow(Rule::NotCleared)),
    (feed!(5, 0), Reply::NotNow(Rule::Zero)),
    (Event::Put(5), Reply::NotNow(Rule::NotClaimed)),
    (Event::Clear(4), Reply::Full),
    (Event::Clear(5), Reply::Done(0)),
    (feed!(5, 2), sent!(5, 0, 2)),
    (Event::Clear(5), Reply::NotNow(Rule::Unput)),
    (feed!(5, 2), Reply::NotNow(Rule::NotCleared)),
    (Event::Read(0), Reply::NotNow(Rule::NotClosed)),
    (Event::End, Reply::Done(0)),
    (Event::Read(0), Reply::NotNow(Rule::NotClosed)),
    (feed!(5, 2), Reply::NotNow(Rule::Ended)),
    (Event::Put(5), Reply::Done(2)),
    (Event::Take(5), got!(5, 0, 2)),
];

#[test]
fn fed_out_of_turn(rt: HostRuntime) {
    let mut world = fed_triangle(&rt, &[1, 0, 0], Ring::of(1));
    expect(&rt, &mut world, &OUT_OF_TURN);
    assert!(rt; world.drive(10) == Drive::Closed);
    ends(&rt, &world, &[1, 1, 0], &[0, 1, 2], &[], &[]);
}

/// A world that isn't fed refuses clears, puts and feeds of the root; its end is noted from the start.
const UNFED: [(Event, Reply); 5] = [
    (Event::Clear(4), Reply::NotNow(Rule::Ended)),
    (Event::Put(4), Reply::NotNow(Rule::NotClaimed)),
    (feed!(4, 1), Reply::NotNow(Rule::Ended)),
    (feed!(7, 1), Reply::NotNow(Rule::NoSuch)),
    (Event::End, Reply::Done(0)),
];

#[test]
fn unfed(rt: HostRuntime) {
    let mut world = triangle(&rt, &[4, 0, 0], MOST);
    expect(&rt, &mut world, &UNFED);
    assert!(rt; world.drive(10) == Drive::Closed);
    ends(&rt, &world, &[2, 1, 0], &[1, 0, 3], &[], &[]);
}
