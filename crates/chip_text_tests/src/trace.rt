//! Worked runs of the triangle, with expected values from outside.

ghost use Rattle.std.specs.Prelude.{◌<◌};

use crate::writers::Faulty;
use chip_graph::{Edge, Game, Graph};
use chip_link::TraceRow;
use chip_trace::{Left, ReplayFault, Replayed, TraceFault, replay, replay_complete, write_trace};
use std::io::Write;
use std::process::Abort;

const fn take(edge: u64, count: u64) -> TraceRow {
    TraceRow::Take { edge, count }
}

const fn fire(k: u64) -> TraceRow {
    TraceRow::Fire { k }
}

/// A game on these edges, which send one chip for each firing.
fn game_of(
    rt: &(impl AllocGlobal + Abort),
    ends: &[(u64, u64)],
    sink: u64,
    start: Vec<u64>,
    limit: u64,
) -> Game {
    let mut edges = Vec::new(rt.alloc());
    for &(tail, head) in ends {
        edges
            .push(Edge {
                tail,
                head,
                mult: 1,
            })
            .expect(rt, "memory");
    }
    let graph = Graph::new(rt.alloc(), start.len() as u64, sink, edges).expect(rt, "a graph");
    Game::new(graph, start, limit).expect(rt, "a game")
}

/// The result of a replay on the triangle, with four chips on vertex 0: its root edges are 4, 5 and 6.
fn replayed(
    rt: &(impl AllocGlobal + Abort),
    limit: u64,
    traces: &[&[TraceRow]],
) -> Result<Replayed, ReplayFault> {
    let mut copies = Vec::new(rt.alloc());
    for rows in traces {
        copies
            .push(rows.to_vec(rt.alloc()).expect(rt, "memory"))
            .expect(rt, "memory");
    }
    let start = [4, 0, 0].to_vec(rt.alloc()).expect(rt, "memory");
    let game = game_of(rt, &[(0, 1), (0, 2), (1, 0), (1, 2)], 2, start, limit);
    assert!(rt; copies.len() as u64 == game.graph().vertices());
    replay_complete(rt.alloc(), &game, &copies)
}

/// The runs of the three vertices.
const FIRST: &[TraceRow] = &[
    TraceRow::Take { edge: 4, count: 4 },
    TraceRow::Fire { k: 2 },
    TraceRow::Take { edge: 2, count: 1 },
];

const SECOND: &[TraceRow] = &[
    TraceRow::Take { edge: 0, count: 2 },
    TraceRow::Fire { k: 1 },
];

const SINK: &[TraceRow] = &[
    TraceRow::Take { edge: 1, count: 2 },
    TraceRow::Take { edge: 3, count: 1 },
];

/// Vertex 0 fires twice, and then vertex 1.
fn is_replayed(rt: &(impl AllocGlobal + Abort), traces: &[&[TraceRow]]) {
    let told = replayed(rt, 1 << 40, traces).expect(rt, "a replay");
    assert!(rt; told.firings.as_slice() == [(0, 2), (1, 1)].as_slice());
}

#[test]
fn replays_the_triangle(rt: HostRuntime) {
    is_replayed(&rt, &[FIRST, SECOND, SINK]);
    // messages that nobody takes are allowed
    is_replayed(&rt, &[&[take(4, 4), fire(2)], SECOND, &[]]);
}

/// What a replay within this limit reports as left.
fn leaves(rt: &(impl AllocGlobal + Abort), limit: u64, traces: &[&[TraceRow]], left: &[Left]) {
    let told = replayed(rt, limit, traces).expect(rt, "a replay");
    assert!(rt; told.left.as_slice() == left, "{:?}", told.left);
}

/// `count` messages of an edge.
const fn messages(edge: u64, count: u64) -> Left {
    Left::Messages { edge, count }
}

/// Vertex 0 fires once with its four chips, and again.
const ONCE: &[TraceRow] = &[
    TraceRow::Take { edge: 4, count: 4 },
    TraceRow::Fire { k: 1 },
];

const TWICE: &[TraceRow] = &[
    TraceRow::Take { edge: 4, count: 4 },
    TraceRow::Fire { k: 1 },
    TraceRow::Fire { k: 1 },
];

#[test]
fn reports_what_is_left(rt: HostRuntime) {
    leaves(&rt, 1 << 40, &[FIRST, SECOND, SINK], &[]);
    leaves(&rt, 1 << 40, &[&[], &[], &[]], &[messages(4, 1)]);
    // two of its four chips are enough for one more firing
    let can_fire = [messages(1, 1), Left::CanFire { vertex: 0 }];
    leaves(&rt, 2, &[ONCE, &[take(0, 1)], &[]], &can_fire);
    let at_limit = [messages(1, 1), Left::AtLimit { vertex: 0 }];
    leaves(&rt, 1, &[ONCE, &[take(0, 1)], &[]], &at_limit);
    // vertex 1 took the two chips that it needs in two messages, and the sink one message of two
    let second = [messages(1, 1), Left::CanFire { vertex: 1 }];
    leaves(
        &rt,
        2,
        &[TWICE, &[take(0, 1), take(0, 1)], &[take(1, 1)]],
        &second,
    );
    leaves(
        &rt,
        2,
        &[TWICE, &[], &[]],
        &[messages(0, 2), messages(1, 2)],
    );
}

fn is_stuck(
    rt: &(impl AllocGlobal + Abort),
    limit: u64,
    traces: &[&[TraceRow]],
    vertex: u64,
    row: u64,
) {
    let stuck = replayed(rt, limit, traces).err();
    assert!(rt;
        stuck == Some(ReplayFault::Stuck { vertex, row }),
        "{stuck:?}, not at {vertex} {row}"
    );
}

#[test]
fn names_where_it_is_stuck(rt: HostRuntime) {
    // a message of two chips taken as one; vertex 0 waits at its last row
    is_stuck(&rt, 1 << 40, &[FIRST, &[take(0, 1), fire(1)], SINK], 1, 0);
    // each trace cut after its first row
    is_stuck(
        &rt,
        1 << 40,
        &[&[take(4, 4)], &[take(0, 2)], &[take(1, 2)]],
        1,
        0,
    );
    // a second firing past the limit
    is_stuck(&rt, 1, &[FIRST, SECOND, SINK], 0, 1);
}

#[test]
fn writes_the_triangle(rt: HostRuntime) {
    let mut written = Vec::new(rt.alloc());
    let told = write_trace(rt.alloc(), &[FIRST, SECOND, SINK], &mut written);
    assert!(rt; told == Ok(()));
    let lines =
        "vertex,kind,edge,count\n0,take,4,4\n0,fire,0,2\n0,take,2,1\n1,take,0,2\n1,fire,0,1\n2,take,1,2\n2,take,3,1\n";
    assert!(rt; written.as_slice() == lines.as_bytes());
}

/// As many vertices as possible, each with a chip and an edge to the one before it; the sink is vertex 0.
fn row(rt: &(impl AllocGlobal + Abort)) -> Game {
    let mut ends = Vec::new(rt.alloc());
    for head in 0..4_095u64 {
        ends.push((head + 1, head)).expect(rt, "memory");
    }
    let start = vec![in rt.alloc(); 1; 4_096].expect(rt, "memory");
    game_of(rt, &ends, 0, start, 1 << 40)
}

/// The run of one of them: it takes its chip, and fires unless it is the sink.
fn run_in_the_row(rt: &(impl AllocGlobal + Abort), vertex: u64) -> Vec<TraceRow>
    requires { vertex < 4096 }
{
    let mut rows = Vec::new(rt.alloc());
    rows.push(take(4_095 + vertex, 1)).expect(rt, "memory");
    if vertex > 0 {
        rows.push(fire(1)).expect(rt, "memory");
    }
    rows
}

/// A run of all of them.
fn run_of_the_row(rt: &(impl AllocGlobal + Abort)) -> Vec<Vec<TraceRow>> {
    let mut traces = Vec::new(rt.alloc());
    for vertex in 0..4_096u64 {
        traces.push(run_in_the_row(rt, vertex)).expect(rt, "memory");
    }
    traces
}

/// Checks that a replay has this number of firings, each of one.
fn replays_ones(
    rt: &(impl AllocGlobal + Abort),
    game: &Game,
    traces: &Vec<Vec<TraceRow>>,
    firings: usize,
) -> Vec<(u64, u64)> {
    assert!(rt; traces.len() as u64 == game.graph().vertices());
    let fired = replay(rt.alloc(), game, traces).expect(rt, "a replay");
    assert!(rt; fired.len() == firings);
    assert!(rt; fired.iter().all(|firing| firing.1 == 1));
    fired
}

#[test]
fn replays_a_run_of_every_vertex(rt: HostRuntime) {
    let traces = run_of_the_row(&rt);
    let _fired = replays_ones(&rt, &row(&rt), &traces, 4_095);
}

/// A vertex with one edge to the sink, and 50,000 chips on it; its root edge is 1.
fn single(rt: &(impl AllocGlobal + Abort)) -> Game {
    let start = [50_000, 0].to_vec(rt.alloc()).expect(rt, "memory");
    game_of(rt, &[(0, 1)], 1, start, 1 << 40)
}

/// A run of it: 50,000 single firings, each message taken by itself.
fn long_run(rt: &(impl AllocGlobal + Abort)) -> Vec<Vec<TraceRow>> {
    let mut sender = vec![in rt.alloc(); fire(1); 50_000].expect(rt, "memory");
    sender.insert(0, take(1, 50_000)).expect(rt, "memory");
    let taker = vec![in rt.alloc(); take(0, 1); 50_000].expect(rt, "memory");
    let mut traces = Vec::new(rt.alloc());
    traces.push(sender).expect(rt, "memory");
    traces.push(taker).expect(rt, "memory");
    traces
}

#[test]
fn replays_a_long_run(rt: HostRuntime) {
    let traces = long_run(&rt);
    let fired = replays_ones(&rt, &single(&rt), &traces, 50_000);
    assert!(rt; fired.last().copied() == Some((0, 1)));
}

/// Writes the long run to a writer.
fn write_long_run<W: Write>(
    rt: &(impl AllocGlobal + Abort),
    traces: &[Vec<TraceRow>],
    writer: &mut W,
) -> Result<(), TraceFault> {
    let [sender, taker] = traces else {
        panic!(rt; "the long run is of two vertices");
    };
    write_trace(rt.alloc(), &[sender, taker], writer)
}

#[test]
fn writes_a_long_run(rt: HostRuntime) {
    let traces = long_run(&rt);
    let mut written = Vec::new(rt.alloc());
    assert!(rt; write_long_run(&rt, &traces, &mut written) == Ok(()));
    assert!(rt; written.len() == 1_100_038, "more than a mebibyte");
    assert!(rt; written.ends_with(b"1,take,0,1\n1,take,0,1\n"));
}

/// A writer that takes nothing.
#[test]
fn reports_a_write_that_failed(rt: HostRuntime) {
    let mut full = Faulty::new(&rt, 0, false, true);
    let told = write_trace(rt.alloc(), &[&[fire(1)]], &mut full);
    assert!(rt; told == Err(TraceFault::Write));
}

/// The long run is written byte by byte, and a failure is reported when it comes, even an interruption.
fn trickles(
    rt: &(impl AllocGlobal + Abort),
    traces: &[Vec<TraceRow>],
    room: usize,
    answer: Result<(), TraceFault>,
) {
    for stays in [true, false] {
        let mut writer = Faulty::new(rt, room, true, stays);
        let told = write_long_run(rt, traces, &mut writer);
        assert!(rt; told == answer, "room for {room} bytes");
        assert!(rt; writer.taken.len() == room, "room for {room} bytes");
    }
}

#[test]
fn writes_byte_by_byte(rt: HostRuntime) {
    let traces = long_run(&rt);
    trickles(&rt, &traces, 1_100_038, Ok(()));
    trickles(&rt, &traces, 1_100_037, Err(TraceFault::Write));
    trickles(&rt, &traces, 1, Err(TraceFault::Write));
}
