//! Small games: each reply, the record of a run, each round, and until the root closes.

use crate::games::{feed, fire, got, message, sent};
use chip_graph::{Edge, Game, Graph};
use chip_link::{Event, Message, Ring};
use chip_part::{Cause, Reply, Rule};
use chip_world::{Drive, Record, World, WorldFault};
use std::process::Abort;

/// A row of a graph.
macro_rules! edge {
    ($tail:expr, $head:expr, $mult:expr) => {
        Edge {
            tail: $tail,
            head: $head,
            mult: $mult,
        }
    };
}

mod feeding;

/// The rows of a graph.
type Edges = &'static [Edge];

/// Two vertices that send to each other, and both to the sink 2.
const TRIANGLE: Edges = &[
    edge!(0, 1, 1),
    edge!(0, 2, 1),
    edge!(1, 0, 1),
    edge!(1, 2, 1),
];

/// A chain of two edges to the sink 2.
const CHAIN: Edges = &[edge!(0, 1, 1), edge!(1, 2, 1)];

/// A limit that no vertex reaches.
const MOST: u64 = 1 << 40;

/// A graph whose last vertex is the sink.
fn graph_of(rt: &(impl AllocGlobal + Abort), edges: &[Edge], vertices: u64) -> Graph {
    let rows = Vec::from_slice(rt.alloc(), edges).expect(rt, "memory");
    Graph::new(rt.alloc(), vertices, vertices.saturating_sub(1), rows).expect(rt, "a graph")
}

/// A game whose last vertex is the sink.
fn game_of(rt: &(impl AllocGlobal + Abort), edges: &[Edge], start: &[u64], limit: u64) -> Game {
    let graph = graph_of(rt, edges, start.len() as u64);
    let start = Vec::from_slice(rt.alloc(), start).expect(rt, "memory");
    Game::new(graph, start, limit).expect(rt, "a game")
}

/// The same game, as it opens.
fn opened(
    rt: &(impl AllocGlobal + Abort),
    edges: &[Edge],
    start: &[u64],
    limit: u64,
    ring: Ring,
) -> Box<World> {
    let game = game_of(rt, edges, start, limit);
    let world = World::open(rt.alloc(), &game, ring.cells()).expect(rt, "memory");
    Box::new(rt.alloc(), world).expect(rt, "memory")
}

/// The triangle, as it opens with rings of one cell.
fn triangle(rt: &(impl AllocGlobal + Abort), start: &[u64], limit: u64) -> Box<World> {
    opened(rt, TRIANGLE, start, limit, Ring::of(1))
}

/// Compares the messages of all edges.
fn expect_lists(rt: &impl Abort, lists: &[Vec<Message>], wanted: &[&[Message]]) {
    assert!(rt; lists.len() == wanted.len());
    for (list, messages) in lists.iter().zip(wanted) {
        assert!(rt; list.as_slice() == *messages);
    }
}

/// The record of some events.
fn run(rt: &(impl AllocGlobal + Abort), world: &mut World, events: &[Event]) -> Record {
    world.run(rt.alloc(), events).expect(rt, "memory")
}

/// Runs some events, each with its expected reply; returns the record.
fn recorded(
    rt: &(impl AllocGlobal + Abort),
    world: &mut World,
    steps: &[(Event, Reply)],
) -> Record {
    let mut events = Vec::new(rt.alloc());
    for step in steps {
        events.push(step.0).expect(rt, "memory");
    }
    let record = run(rt, world, &events);
    assert!(rt; record.replies.len() == steps.len());
    for (reply, step) in record.replies.iter().zip(steps) {
        assert!(rt; *reply == step.1);
    }
    record
}

/// Runs some events, each with its expected reply.
fn expect(rt: &(impl AllocGlobal + Abort), world: &mut World, steps: &[(Event, Reply)]) {
    let _record = recorded(rt, world, steps);
}

/// Opens a game and runs some events, each with its expected reply.
fn plays(
    rt: &(impl AllocGlobal + Abort),
    edges: Edges,
    start: &[u64],
    ring: Ring,
    steps: &[(Event, Reply)],
) {
    let mut world = opened(rt, edges, start, MOST, ring);
    expect(rt, &mut world, steps);
}

/// Makes these events, all of which must be accepted.
fn play(rt: &impl Abort, world: &mut World, events: &[Event]) {
    for (index, event) in events.iter().enumerate() {
        let refused = matches!(world.step(*event), Reply::NotNow(_));
        assert!(rt; !refused, "event {index}");
    }
}

/// Expects that there is no outcome yet.
fn is_open(rt: &(impl AllocGlobal + Abort), world: &World) {
    let fault = world.outcome(rt.alloc()).err();
    assert!(rt; fault == Some(WorldFault::NotClosed));
}

/// Compares an outcome: the firing counts, the chips, and the vertices halted by the limit and by a seal.
fn ends(
    rt: &(impl AllocGlobal + Abort),
    world: &World,
    fired: &[u64],
    chips: &[u64],
    over: &[u64],
    sealed: &[u64],
) {
    let outcome = world.outcome(rt.alloc()).expect(rt, "an outcome");
    let same = outcome.fired.as_slice() == fired
        && outcome.chips.as_slice() == chips
        && outcome.over.as_slice() == over
        && outcome.sealed.as_slice() == sealed;
    assert!(rt;
        same,
        "fired {:?}, chips {:?}, over {:?}, sealed {:?}",
        outcome.fired, outcome.chips, outcome.over, outcome.sealed
    );
}

/// Whether these are the chips of all vertices.
fn holds(world: &World, chips: &[u64]) -> bool {
    if chips.len() as u64 != world.setting().vertices() {
        return false;
    }
    for vertex in 0..chips.len() {
        if world.chips(vertex as u64) != chips[vertex] {
            return false;
        }
    }
    true
}

/// Whether these are the firings of all vertices.
fn fired(world: &World, counts: &[u64]) -> bool {
    if counts.len() as u64 != world.setting().vertices() {
        return false;
    }
    for vertex in 0..counts.len() {
        if world.fired(vertex as u64) != counts[vertex] {
            return false;
        }
    }
    true
}

/// Whether these are the numbers of delivered messages, of all edges.
fn delivered(world: &World, counts: &[u64]) -> bool {
    if counts.len() as u64 != world.setting().all_edges() {
        return false;
    }
    for edge in 0..counts.len() {
        if world.delivered(edge as u64) != counts[edge] {
            return false;
        }
    }
    true
}

/// A ring of one cell that is full.
const FULL_RING: [(Event, Reply); 7] = [
    (Event::Take(2), got!(2, 0, 3)),
    (fire!(0, 1), Reply::Done(1)),
    (Event::Clear(0), Reply::Done(0)),
    (Event::Claim(0), sent!(0, 0, 1)),
    (Event::Put(0), Reply::Done(1)),
    (fire!(0, 1), Reply::Done(2)),
    (Event::Clear(0), Reply::Full),
];

/// The messages sent then, by edge.
const FULL_RING_SENT: [&[Message]; 5] = [&[message!(0, 0, 1)], &[], &[message!(2, 0, 3)], &[], &[]];

/// The messages delivered then, by edge.
const FULL_RING_DELIVERED: [&[Message]; 5] = [&[], &[], &[message!(2, 0, 3)], &[], &[]];

#[test]
fn full_ring(rt: HostRuntime) {
    let mut world = opened(&rt, CHAIN, &[3, 0, 0], MOST, Ring::of(1));
    let record = recorded(&rt, &mut world, &FULL_RING);
    expect_lists(&rt, &record.sent, &FULL_RING_SENT);
    expect_lists(&rt, &record.delivered, &FULL_RING_DELIVERED);
}

/// The edge to the sink is sealed before the firing that would send over it.
const SEALED_HALF_WAY: [(Event, Reply); 9] = [
    (Event::Seal(1), Reply::Done(0)),
    (Event::Take(4), got!(4, 0, 4)),
    (fire!(0, 2), Reply::Done(2)),
    (Event::Clear(0), Reply::Done(0)),
    (Event::Claim(0), sent!(0, 0, 2)),
    (Event::Put(0), Reply::Done(2)),
    (Event::Clear(1), Reply::Done(0)),
    (Event::Claim(1), Reply::Sealed),
    (Event::Halt(0), Reply::Done(0)),
];

/// A vertex engaged by the last of two messages.
const ENGAGING_MESSAGE_LAST: [(Event, Reply); 13] = [
    (Event::Take(2), got!(2, 0, 2)),
    (fire!(0, 1), Reply::Done(1)),
    (Event::Clear(0), Reply::Done(0)),
    (Event::Claim(0), sent!(0, 0, 1)),
    (Event::Put(0), Reply::Done(1)),
    (Event::Clear(1), Reply::Done(0)),
    (Event::Claim(1), sent!(1, 0, 1)),
    (Event::Put(1), Reply::Done(1)),
    (Event::Take(0), got!(0, 0, 1)),
    (Event::Take(1), got!(1, 0, 1)),
    (Event::Ack(0), Reply::NotNow(Rule::Engaged)),
    (Event::Ack(1), Reply::Done(1)),
    (Event::Ack(0), Reply::Done(1)),
];

#[test]
fn engaging_message_last(rt: HostRuntime) {
    let twice = &[edge!(0, 1, 1), edge!(0, 1, 1)];
    plays(&rt, twice, &[2, 0], Ring::of(1), &ENGAGING_MESSAGE_LAST);
}

/// A ring of two cells, with a second message while the first is not yet taken.
const RING_OF_TWO: [(Event, Reply); 18] = [
    (Event::Take(2), got!(2, 0, 3)),
    (fire!(0, 1), Reply::Done(1)),
    (Event::Clear(0), Reply::Done(0)),
    (Event::Claim(0), sent!(0, 0, 1)),
    (Event::Put(0), Reply::Done(1)),
    (fire!(0, 1), Reply::Done(2)),
    (Event::Clear(0), Reply::Done(1)),
    (Event::Claim(0), sent!(0, 1, 1)),
    (Event::Put(0), Reply::Done(1)),
    (fire!(0, 1), Reply::Done(3)),
    (Event::Clear(0), Reply::Full),
    (Event::Take(0), got!(0, 0, 1)),
    (Event::Clear(0), Reply::Done(2)),
    (Event::Claim(0), sent!(0, 2, 1)),
    (Event::Put(0), Reply::Done(1)),
    (Event::Take(0), got!(0, 1, 1)),
    (Event::Take(0), got!(0, 2, 1)),
    (Event::Take(0), Reply::Empty),
];

#[test]
fn ring_of_two(rt: HostRuntime) {
    plays(&rt, CHAIN, &[3, 0, 0], Ring::of(2), &RING_OF_TWO);
}

/// `count` takes of an edge on which nothing was sent.
fn takes_nothing(rt: &(impl AllocGlobal + Abort), world: &mut World, edge: u64, count: usize) {
    let events = Vec::from_elem(rt.alloc(), Event::Take(edge), count).expect(rt, "memory");
    let record = run(rt, world, &events);
    assert!(rt; record.replies.len() == count);
    for reply in record.replies.iter() {
        assert!(rt; *reply == Reply::Empty);
    }
}

#[test]
fn long_schedule(rt: HostRuntime) {
    let mut world = opened(&rt, CHAIN, &[3, 0, 0], MOST, Ring::of(64));
    takes_nothing(&rt, &mut world, 0, 100_000);
}

/// A game and its end.
struct Ending {
    edges: Edges,
    start: &'static [u64],
    limit: u64,
    chips: &'static [u64],
    fired: &'static [u64],
    over: &'static [u64],
}

const ENDINGS: [Ending; 7] = [
    Ending {
        edges: TRIANGLE,
        start: &[0, 0, 0],
        limit: MOST,
        chips: &[0, 0, 0],
        fired: &[0, 0, 0],
        over: &[],
    },
    Ending {
        edges: TRIANGLE,
        start: &[3, 0, 0],
        limit: MOST,
        chips: &[1, 1, 1],
        fired: &[1, 0, 0],
        over: &[],
    },
    Ending {
        edges: TRIANGLE,
        start: &[4, 0, 0],
        limit: MOST,
        chips: &[1, 0, 3],
        fired: &[2, 1, 0],
        over: &[],
    },
    Ending {
        edges: TRIANGLE,
        start: &[5, 0, 0],
        limit: MOST,
        chips: &[0, 1, 4],
        fired: &[3, 1, 0],
        over: &[],
    },
    Ending {
        edges: &[edge!(0, 1, 3)],
        start: &[7, 0],
        limit: MOST,
        chips: &[1, 6],
        fired: &[2, 0],
        over: &[],
    },
    Ending {
        edges: TRIANGLE,
        start: &[5, 0, 0],
        limit: 2,
        chips: &[2, 0, 3],
        fired: &[2, 1, 0],
        over: &[0],
    },
    Ending {
        edges: &[edge!(0, 1, 1)],
        start: &[MOST, 0],
        limit: MOST,
        chips: &[0, MOST],
        fired: &[MOST, 0],
        over: &[],
    },
];

/// Drives a game from its opening until the root closes.
fn drives_to(rt: &(impl AllocGlobal + Abort), ending: &Ending) {
    let mut world = opened(rt, ending.edges, ending.start, ending.limit, Ring::of(1));
    assert!(rt; world.drive(10) == Drive::Closed);
    ends(rt, &world, ending.fired, ending.chips, ending.over, &[]);
}

#[test]
fn drives_to_the_end(rt: HostRuntime) {
    for ending in &ENDINGS {
        drives_to(&rt, ending);
    }
}

/// The result of a round, the state after it, and what is owed then.
struct Round {
    drive: Drive,
    chips: &'static [u64],
    fired: &'static [u64],
    delivered: &'static [u64],
    then: &'static [(Event, Reply)],
}

/// The rounds that follow `SEALED_HALF_WAY`.
const ROUNDS: [Round; 3] = [
    Round {
        drive: Drive::Unfinished(1),
        chips: &[0, 0, 1],
        fired: &[2, 1, 0],
        delivered: &[1, 0, 0, 1, 1, 0, 0],
        then: &[
            (Event::Ack(3), Reply::NotNow(Rule::NothingOwed)),
            (Event::Ack(0), Reply::NotNow(Rule::Engaged)),
        ],
    },
    Round {
        drive: Drive::Unfinished(1),
        chips: &[1, 0, 1],
        fired: &[2, 1, 0],
        delivered: &[1, 0, 1, 1, 1, 0, 0],
        then: &[
            (Event::Ack(2), Reply::NotNow(Rule::NothingOwed)),
            (Event::Ack(0), Reply::NotNow(Rule::NothingOwed)),
            (Event::Ack(4), Reply::NotNow(Rule::Engaged)),
        ],
    },
    Round {
        drive: Drive::Closed,
        chips: &[1, 0, 1],
        fired: &[2, 1, 0],
        delivered: &[1, 0, 1, 1, 1, 0, 0],
        then: &[
            (Event::Ack(4), Reply::NotNow(Rule::NothingOwed)),
            (Event::Settle(4), Reply::Done(0)),
        ],
    },
];

/// The triangle after `SEALED_HALF_WAY`.
fn sealed_half_way(rt: &(impl AllocGlobal + Abort)) -> Box<World> {
    let mut world = triangle(rt, &[4, 0, 0], MOST);
    expect(rt, &mut world, &SEALED_HALF_WAY);
    world
}

/// Compares the chips and the firings of all vertices, and the numbers of delivered messages of all edges.
fn stands_at(rt: &impl Abort, world: &World, chips: &[u64], counts: &[u64], messages: &[u64]) {
    assert!(rt; holds(world, chips));
    assert!(rt; fired(world, counts));
    assert!(rt; delivered(world, messages));
}

/// Drives a world round by round.
fn drives_rounds(rt: &(impl AllocGlobal + Abort), world: &mut World, rounds: &[Round]) {
    for round in rounds {
        assert!(rt; world.drive(1) == round.drive);
        stands_at(rt, world, round.chips, round.fired, round.delivered);
        expect(rt, world, round.then);
    }
}

#[test]
fn drives_round_by_round(rt: HostRuntime) {
    let mut world = sealed_half_way(&rt);
    stands_at(&rt, &world, &[0, 0, 0], &[2, 0, 0], &[0, 0, 0, 0, 1, 0, 0]);
    drives_rounds(&rt, &mut world, &ROUNDS);
}

/// Whether the vertex claimed on a sealed edge and halted.
fn halted_by_seal(world: &World, vertex: u64) -> bool {
    vertex < world.setting().vertices() && world.halted(vertex) == Some(Cause::SealedEdge)
}

#[test]
fn drives_no_further_than_asked(rt: HostRuntime) {
    let mut world = sealed_half_way(&rt);
    assert!(rt; world.drive(2) == Drive::Unfinished(2));
    assert!(rt; !world.closed());
    assert!(rt; world.drive(10) == Drive::Closed);
    assert!(rt; holds(&world, &[1, 0, 1]));
    assert!(rt; fired(&world, &[2, 1, 0]));
    assert!(rt; halted_by_seal(&world, 0));
}

/// Vertex 0 fires twice and sends, and then vertex 1 fires once.
const FIRINGS: [Event; 18] = [
    Event::Take(4),
    Event::Fire { vertex: 0, k: 2 },
    Event::Clear(0),
    Event::Claim(0),
    Event::Put(0),
    Event::Clear(1),
    Event::Claim(1),
    Event::Put(1),
    Event::Take(0),
    Event::Fire { vertex: 1, k: 1 },
    Event::Clear(2),
    Event::Claim(2),
    Event::Put(2),
    Event::Clear(3),
    Event::Claim(3),
    Event::Put(3),
    Event::Take(1),
    Event::Take(3),
];

/// The acknowledgements, until the root has settled its own message.
const CLOSING: [Event; 8] = [
    Event::Settle(1),
    Event::Ack(2),
    Event::Settle(2),
    Event::Settle(3),
    Event::Ack(0),
    Event::Settle(0),
    Event::Ack(4),
    Event::Settle(4),
];

/// The edge to the sink is sealed before the chips for it are sent.
const SEALED_HALF_SENT: [Event; 9] = [
    Event::Seal(1),
    Event::Take(4),
    Event::Fire { vertex: 0, k: 2 },
    Event::Clear(0),
    Event::Claim(0),
    Event::Put(0),
    Event::Clear(1),
    Event::Claim(1),
    Event::Halt(0),
];

/// What is left to do then.
const PLAYED_ON: [Event; 18] = [
    Event::Take(0),
    Event::Fire { vertex: 1, k: 1 },
    Event::Clear(2),
    Event::Claim(2),
    Event::Put(2),
    Event::Clear(3),
    Event::Claim(3),
    Event::Put(3),
    Event::Take(3),
    Event::Ack(3),
    Event::Take(2),
    Event::Settle(3),
    Event::Ack(2),
    Event::Settle(2),
    Event::Ack(0),
    Event::Settle(0),
    Event::Ack(4),
    Event::Settle(4),
];

#[test]
fn chips_on_the_sink(rt: HostRuntime) {
    let mut world = triangle(&rt, &[0, 0, 9], MOST);
    is_open(&rt, &world);
    play(&rt, &mut world, &[Event::Take(6), Event::Ack(6)]);
    is_open(&rt, &world);
    play(&rt, &mut world, &[Event::Settle(6)]);
    ends(&rt, &world, &[0, 0, 0], &[0, 0, 9], &[], &[]);
}

#[test]
fn whole_schedule(rt: HostRuntime) {
    let mut world = triangle(&rt, &[4, 0, 0], MOST);
    play(&rt, &mut world, &FIRINGS);
    play(
        &rt,
        &mut world,
        &[Event::Ack(3), Event::Ack(1), Event::Take(2)],
    );
    is_open(&rt, &world);
    play(&rt, &mut world, &CLOSING);
    ends(&rt, &world, &[2, 1, 0], &[1, 0, 3], &[], &[]);
}

#[test]
fn stopped_by_limit(rt: HostRuntime) {
    let mut world = triangle(&rt, &[5, 0, 0], 2);
    play(&rt, &mut world, &FIRINGS);
    play(
        &rt,
        &mut world,
        &[Event::Ack(3), Event::Ack(1), Event::Take(2), Event::Halt(0)],
    );
    play(&rt, &mut world, &CLOSING);
    ends(&rt, &world, &[2, 1, 0], &[2, 0, 3], &[0], &[]);
}

#[test]
fn stopped_by_a_seal(rt: HostRuntime) {
    let mut world = triangle(&rt, &[4, 0, 0], MOST);
    play(&rt, &mut world, &SEALED_HALF_SENT);
    is_open(&rt, &world);
    play(&rt, &mut world, &PLAYED_ON);
    ends(&rt, &world, &[2, 1, 0], &[1, 0, 3], &[], &[0]);
}
