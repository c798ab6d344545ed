//! Crews on small games: numbers of workers and ways of sharing, gates that hold them, seals, traces and feeds.

ghost use Rattle.std.specs.Prelude.{◌<◌, ◌≤◌};

mod gates;

use crate::games::{Edges, Ends, FOUR_CHIPS, LIMIT, TRIANGLE, adds_up, expect_outcome, game_of};
use chip_crew::{CrewFault, Finished, Plan, SealAt, Sharing, run, run_fed, run_with};
use chip_graph::{Edge, Game, Graph, Limits};
use chip_link::TraceRow;
use gates::{Keeper, Rule};
use std::process::Abort;
use std::sync::Wait;
use std::sync::atomic::Ordering::SeqCst;
use std::thread::Threads;

/// Two workers, one cell for each edge, no trace, no seal, and enough turns.
const PAIR: Plan = Plan {
    workers: 2,
    ring: 1,
    turns: 1 << 30,
    trace_rows: 0,
    seal: None,
};

/// The same with one worker.
const ONE: Plan = Plan { workers: 1, ..PAIR };

/// A vertex and its number of chips, each.
type Feeds = &'static [(u64, u64)];

/// How a crew ends.
enum Ending {
    /// It finishes with this outcome.
    Finished(&'static Ends),
    /// The plan or the feeds are out of range.
    Plan,
    /// There are too many chips.
    Total,
    /// A gate was shut.
    GateShut,
    /// The turns are used up, and this number of messages is open.
    Unfinished(u64),
}

/// A crew on a game, and its expected end.
struct Case {
    name: &'static str,
    edges: Edges,
    start: &'static [u64],
    limit: u64,
    plan: Plan,
    sharing: Sharing,
    feeds: Option<Feeds>,
    rule: &'static Rule,
    ending: Ending,
}

/// Four chips on the triangle.
const FOUR: Case = Case {
    name: "four chips",
    edges: TRIANGLE,
    start: &[4, 0, 0],
    limit: LIMIT,
    plan: PAIR,
    sharing: Sharing::Queue,
    feeds: None,
    rule: &Rule::Always,
    ending: Ending::Finished(&FOUR_CHIPS),
};

/// The result of a crew, by the call for such a crew.
fn played<R: Threads + Wait + Sync + Abort + AllocGlobal>(
    rt: &R,
    game: &Game,
    plan: Plan,
    sharing: Sharing,
    feeds: Option<Feeds>,
    gate: &Keeper,
) -> Result<Finished, CrewFault> {
    match (sharing, feeds) {
        (Sharing::Queue, None) => run(rt, rt.alloc(), game, plan, gate),
        (Sharing::Queue, Some(feeds)) => run_fed(rt, rt.alloc(), game, plan, feeds, gate),
        (Sharing::Dealt, feeds) => {
            let game = game.copy(rt.alloc())?;
            run_with(rt, rt.alloc(), game, plan, sharing, feeds, gate)
        }
    }
}

/// Whether a crew ended as expected. Compares the outcome of one that finishes.
fn is_ending(
    rt: &impl Abort,
    answer: &Result<Finished, CrewFault>,
    ending: &Ending,
    name: &str,
) -> bool {
    match (answer, ending) {
        (Ok(finished), Ending::Finished(ends)) => {
            expect_outcome(rt, &finished.outcome, ends, name);
            finished.actors.len() == ends.fired.len()
        }
        (Err(CrewFault::Plan), Ending::Plan) => true,
        (Err(CrewFault::Total), Ending::Total) => true,
        (Err(CrewFault::GateShut), Ending::GateShut) => true,
        (Err(CrewFault::Unfinished { deficit, .. }), Ending::Unfinished(open)) => deficit == open,
        _ => false,
    }
}

/// Plays a case by this plan, with actors shared in this way, and with this gate. Checks that the gate was called less
/// often than a long play would.
fn ends_by<R: Threads + Wait + Sync + Abort + AllocGlobal>(
    rt: &R,
    case: &Case,
    plan: Plan,
    sharing: Sharing,
    gate: &Keeper,
) {
    let game = game_of(rt, case.edges, case.start, case.limit);
    let answer = played(rt, &game, plan, sharing, case.feeds, gate);
    let as_wanted = is_ending(rt, &answer, &case.ending, case.name);
    let workers = plan.workers;
    let ring = plan.ring;
    assert!(rt;
        as_wanted,
        "{}, {workers} workers, rings of {ring}: it ends otherwise",
        case.name
    );
    assert!(rt; gate.asked.load(SeqCst) < 1_000_000);
}

/// Plays a case by its own rule and this plan, with actors shared in this way.
fn ends<R: Threads + Wait + Sync + Abort + AllocGlobal>(
    rt: &R,
    case: &Case,
    plan: Plan,
    sharing: Sharing,
) {
    let gate = Keeper::new(case.rule);
    ends_by(rt, case, plan, sharing, &gate);
}

/// Plays each case by its own plan.
fn all_end<R: Threads + Wait + Sync + Abort + AllocGlobal>(rt: &R, cases: &[&Case]) {
    for case in cases {
        ends(rt, case, case.plan, case.sharing);
    }
}

/// Plays each case by its own plan, with a queue and dealt out.
fn all_end_both_ways<R: Threads + Wait + Sync + Abort + AllocGlobal>(rt: &R, cases: &[&Case]) {
    for case in cases {
        ends(rt, case, case.plan, Sharing::Queue);
        ends(rt, case, case.plan, Sharing::Dealt);
    }
}

/// `workers` workers play four chips with rings of `ring` cells, with a queue and dealt out.
fn four_end<R: Threads + Wait + Sync + Abort + AllocGlobal>(rt: &R, workers: u64, ring: u64) {
    let plan = Plan {
        workers,
        ring,
        ..PAIR
    };
    ends(rt, &FOUR, plan, Sharing::Queue);
    ends(rt, &FOUR, plan, Sharing::Dealt);
}

/// With one vertex for each worker, two for one, all for one, and none for most.
#[test]
fn of_every_size(rt: HostRuntime) {
    for workers in [1, 2, 3, 64] {
        for ring in [1, 2, 64] {
            four_end(&rt, workers, ring);
        }
    }
}

/// The gate of each of three workers is called before one goes on: they are threads of their own. There is no fourth.
#[test]
fn side_by_side(rt: HostRuntime) {
    let gate = Keeper::new(&Rule::Together(3));
    let plan = Plan { workers: 3, ..PAIR };
    ends_by(&rt, &FOUR, plan, Sharing::Queue, &gate);
    assert!(rt; gate.asked.load(SeqCst) == 3);
}

/// Worker 1 makes all its turns before worker 0's first, so it has to get every actor in turn.
#[test]
fn shared_by_one_queue(rt: HostRuntime) {
    let gate = Keeper::new(&Rule::Behind(7));
    let plan = Plan { turns: 8, ..PAIR };
    ends_by(&rt, &FOUR, plan, Sharing::Queue, &gate);
}

/// Worker 1 gives vertices 0, 1 and 2 a turn each, and worker 0 goes on from there. The root is closed after its fourth
/// turn, unless worker 1 makes that turn at the same time.
#[test]
fn turns_of_another_worker(rt: HostRuntime) {
    let gate = Keeper::new(&Rule::Relay);
    let plan = Plan { turns: 4, ..PAIR };
    ends_by(&rt, &FOUR, plan, Sharing::Queue, &gate);
    let polls = gate.polls.load(SeqCst);
    assert!(rt; polls == 3 || polls == 4);
}

/// Expects this number of reported polls if one worker plays four chips, and this turn of the last one.
fn reports_polls<R: Threads + Wait + Sync + Abort + AllocGlobal>(
    rt: &R,
    sharing: Sharing,
    polls: u64,
    last_turn: u64,
) {
    let gate = Keeper::new(&Rule::Always);
    ends_by(rt, &FOUR, ONE, sharing, &gate);
    let reported = gate.polls.load(SeqCst);
    assert!(rt;
        reported == polls,
        "{reported} polls are reported, not {polls}"
    );
    assert!(rt; gate.last_turn.load(SeqCst) == last_turn);
    assert!(rt; gate.most.load(SeqCst) == 1);
}

/// One worker gives vertices 0, 1 and 2 a turn each, and again. In its third turn vertex 0 acknowledges the root's one
/// message, after which the root is closed. With a queue the six polls before are reported. If the actors are dealt
/// out, it polls after each round of three turns: two polls are reported, and the third finds the root closed.
#[test]
fn polls_are_reported(rt: HostRuntime) {
    reports_polls(&rt, Sharing::Queue, 6, 5);
    reports_polls(&rt, Sharing::Dealt, 2, 5);
}

/// Gates that are shut at once.
const SHUT: &[&Case] = &[
    &Case {
        name: "shut for one",
        plan: ONE,
        rule: &Rule::Never,
        ending: Ending::GateShut,
        ..FOUR
    },
    &Case {
        name: "shut for two",
        rule: &Rule::Never,
        ending: Ending::GateShut,
        ..FOUR
    },
    &Case {
        name: "shut for 64",
        plan: Plan {
            workers: 64,
            ..PAIR
        },
        rule: &Rule::Never,
        ending: Ending::GateShut,
        ..FOUR
    },
    // Worker 0 has made its one turn when the gate of worker 1 returns false: that is reported, not the open messages.
    &Case {
        name: "shut for another",
        plan: Plan { turns: 1, ..PAIR },
        rule: &Rule::ZeroAlone,
        ending: Ending::GateShut,
        ..FOUR
    },
];

#[test]
fn shut(rt: HostRuntime) {
    all_end_both_ways(&rt, SHUT);
}

const HALF: u64 = 1 << 20;

/// A game in which two vertices fire a million times in turn, and only the first time twice at once: each firing sends
/// one chip to the sink, and a vertex needs one more than half of the other chips to fire.
const LONG: Case = Case {
    name: "long game",
    edges: &[(0, 1, HALF), (0, 2, 1), (1, 0, HALF), (1, 2, 1)],
    start: &[2 * HALF + 1_000_000, 0, 0],
    ending: Ending::GateShut,
    ..FOUR
};

/// The gate is shut for one worker at one turn of a long game.
const SHUT_FOR_ALL: &[&Case] = &[
    &Case {
        name: "worker 1 of 2, turn 0",
        rule: &Rule::ShutAt { worker: 1, turn: 0 },
        ..LONG
    },
    &Case {
        name: "worker 1 of 2, turn 50",
        rule: &Rule::ShutAt {
            worker: 1,
            turn: 50,
        },
        ..LONG
    },
    &Case {
        name: "worker 2 of 4, turn 0",
        plan: Plan { workers: 4, ..PAIR },
        rule: &Rule::ShutAt { worker: 2, turn: 0 },
        ..LONG
    },
    &Case {
        name: "worker 3 of 4, turn 20",
        plan: Plan { workers: 4, ..PAIR },
        rule: &Rule::ShutAt {
            worker: 3,
            turn: 20,
        },
        ..LONG
    },
    &Case {
        name: "worker 0 of 4, turn 0",
        plan: Plan { workers: 4, ..PAIR },
        rule: &Rule::ShutAt { worker: 0, turn: 0 },
        ..LONG
    },
];

/// A shut gate stops all workers, long before the end of the play: at once or in mid-play, and for each worker.
#[test]
fn shut_for_all(rt: HostRuntime) {
    all_end(&rt, SHUT_FOR_ALL);
}

/// Plans that are out of range.
const PLANS: &[&Case] = &[
    &Case {
        name: "no worker",
        plan: Plan { workers: 0, ..PAIR },
        ending: Ending::Plan,
        ..FOUR
    },
    &Case {
        name: "65 workers",
        plan: Plan {
            workers: 65,
            ..PAIR
        },
        ending: Ending::Plan,
        ..FOUR
    },
    &Case {
        name: "no cell",
        plan: Plan { ring: 0, ..PAIR },
        ending: Ending::Plan,
        ..FOUR
    },
    &Case {
        name: "65 cells",
        plan: Plan { ring: 65, ..PAIR },
        ending: Ending::Plan,
        ..FOUR
    },
    &Case {
        name: "no turn",
        plan: Plan { turns: 0, ..PAIR },
        ending: Ending::Plan,
        ..FOUR
    },
    &Case {
        name: "a turn too many",
        plan: Plan {
            turns: (1 << 40) + 1,
            ..PAIR
        },
        ending: Ending::Plan,
        ..FOUR
    },
    &Case {
        name: "a trace row too many",
        plan: Plan {
            trace_rows: (1 << 20) + 1,
            ..PAIR
        },
        ending: Ending::Plan,
        ..FOUR
    },
    &Case {
        name: "a seal of a root edge",
        plan: Plan {
            seal: Some(SealAt { turn: 0, edge: 4 }),
            ..PAIR
        },
        ending: Ending::Plan,
        ..FOUR
    },
];

/// These plans play nothing.
#[test]
fn plans(rt: HostRuntime) {
    all_end_both_ways(&rt, PLANS);
}

/// Plans with too few turns, or just enough.
const TURNS: &[&Case] = &[
    &Case {
        name: "one turn of each of two workers",
        plan: Plan { turns: 1, ..PAIR },
        ending: Ending::Unfinished(1),
        ..FOUR
    },
    // One worker gives vertices 0, 1 and 2 a turn each, and again. In its third turn, the worker's seventh, vertex 0
    // acknowledges the root's one message. The last poll finds that.
    &Case {
        name: "six turns of dealt actors",
        plan: Plan { turns: 6, ..ONE },
        sharing: Sharing::Dealt,
        ending: Ending::Unfinished(1),
        ..FOUR
    },
    &Case {
        name: "seven turns of dealt actors",
        plan: Plan { turns: 7, ..ONE },
        sharing: Sharing::Dealt,
        ..FOUR
    },
    // One worker gives vertices 0, 1, 2 and so on a turn each, and each turn begins with a feed. Vertex 0 takes the
    // first and acknowledges it in its turn, since it can't fire. The second is not made.
    &Case {
        name: "one turn for two feeds, of vertex 0 first",
        start: &[0, 0, 0],
        plan: Plan { turns: 1, ..ONE },
        feeds: Some(&[(0, 1), (1, 1)]),
        ending: Ending::Unfinished(0),
        ..FOUR
    },
    // Vertex 1 has no turn.
    &Case {
        name: "one turn for two feeds, of vertex 1 first",
        start: &[0, 0, 0],
        plan: Plan { turns: 1, ..ONE },
        feeds: Some(&[(1, 1), (0, 1)]),
        ending: Ending::Unfinished(1),
        ..FOUR
    },
    // The sink takes the first in the third turn. Before the second and third turn its cell is full, so nothing is fed.
    &Case {
        name: "three turns for two feeds of the sink",
        start: &[0, 0, 0],
        plan: Plan { turns: 3, ..ONE },
        feeds: Some(&[(2, 1), (2, 1)]),
        ending: Ending::Unfinished(0),
        ..FOUR
    },
    // The second is fed before the fourth turn, which is one of vertex 0.
    &Case {
        name: "four turns for two feeds of the sink",
        start: &[0, 0, 0],
        plan: Plan { turns: 4, ..ONE },
        feeds: Some(&[(2, 1), (2, 1)]),
        ending: Ending::Unfinished(1),
        ..FOUR
    },
];

#[test]
fn out_of_turns(rt: HostRuntime) {
    all_end(&rt, TURNS);
}

/// Feeds that are refused.
const WRONG_FEEDS: &[&Case] = &[
    &Case {
        name: "no such vertex",
        start: &[0, 0, 0],
        feeds: Some(&[(1, 1), (3, 1)]),
        ending: Ending::Plan,
        ..FOUR
    },
    &Case {
        name: "no chip",
        start: &[0, 0, 0],
        feeds: Some(&[(1, 1), (0, 0)]),
        ending: Ending::Plan,
        ..FOUR
    },
    // One is out of range, and the total is too large: the first fault is reported.
    &Case {
        name: "no such vertex, and too many chips",
        start: &[0, 0, 0],
        feeds: Some(&[(2, LIMIT), (3, 1)]),
        ending: Ending::Plan,
        ..FOUR
    },
    &Case {
        name: "too many chips",
        start: &[0, 0, 0],
        feeds: Some(&[(2, LIMIT), (2, 1)]),
        ending: Ending::Total,
        ..FOUR
    },
    &Case {
        name: "too many chips with one that lies there",
        start: &[1, 0, 0],
        feeds: Some(&[(2, LIMIT)]),
        ending: Ending::Total,
        ..FOUR
    },
];

#[test]
fn feeds_out_of_range(rt: HostRuntime) {
    all_end(&rt, WRONG_FEEDS);
}

/// Vertex 0 gets four chips in all, at the start and by feeds.
const FED: &[&Case] = &[
    &Case {
        name: "four at once",
        start: &[0, 0, 0],
        feeds: Some(&[(0, 4)]),
        ..FOUR
    },
    &Case {
        name: "four times one",
        start: &[0, 0, 0],
        feeds: Some(&[(0, 1), (0, 1), (0, 1), (0, 1)]),
        ..FOUR
    },
    // The cell is full at first.
    &Case {
        name: "one after three",
        start: &[3, 0, 0],
        feeds: Some(&[(0, 1)]),
        ..FOUR
    },
    &Case {
        name: "none after four",
        feeds: Some(&[]),
        ..FOUR
    },
];

#[test]
fn feeds(rt: HostRuntime) {
    for case in FED {
        for workers in [1, 2, 3] {
            let plan = Plan { workers, ..PAIR };
            ends(&rt, case, plan, Sharing::Queue);
            ends(&rt, case, plan, Sharing::Dealt);
        }
    }
}

/// Feeds that reach a limit.
const FED_UP_TO: &[&Case] = &[
    // With five chips vertex 0 fires twice and has two again, which it may not fire.
    &Case {
        name: "the limit of firings",
        start: &[2, 0, 0],
        limit: 2,
        feeds: Some(&[(0, 3)]),
        ending: Ending::Finished(&Ends {
            fired: &[2, 1, 0],
            chips: &[2, 0, 3],
            over: &[0],
            sealed: &[],
        }),
        ..FOUR
    },
    // The most chips allowed, all on the sink.
    &Case {
        name: "the largest total",
        start: &[0, 0, 0],
        feeds: Some(&[(2, LIMIT)]),
        ending: Ending::Finished(&Ends {
            fired: &[0, 0, 0],
            chips: &[0, 0, LIMIT],
            over: &[],
            sealed: &[],
        }),
        ..FOUR
    },
];

#[test]
fn feeds_up_to_a_limit(rt: HostRuntime) {
    all_end(&rt, FED_UP_TO);
}

/// One worker, and the first edge is sealed before anything was sent on it.
const SEALED: Case = Case {
    name: "with a queue",
    plan: Plan {
        seal: Some(SealAt { turn: 0, edge: 0 }),
        ..ONE
    },
    ending: Ending::Finished(&Ends {
        fired: &[2, 0, 0],
        chips: &[0, 2, 2],
        over: &[],
        sealed: &[0],
    }),
    ..FOUR
};

const SEALED_AT_ONCE: &[&Case] = &[
    &SEALED,
    &Case {
        name: "dealt out",
        sharing: Sharing::Dealt,
        ..SEALED
    },
    // Vertex 1 keeps what it would send over the edge.
    &Case {
        name: "fed",
        start: &[0, 0, 0],
        feeds: Some(&[(0, 4)]),
        ..SEALED
    },
];

#[test]
fn sealed_at_once(rt: HostRuntime) {
    all_end(&rt, SEALED_AT_ONCE);
}

/// Four chips, played to the end, with a vertex that fires and then claims on a sealed edge.
const HALTED_ZERO: Ends = Ends {
    sealed: &[0],
    ..FOUR_CHIPS
};

const HALTED_ONE: Ends = Ends {
    sealed: &[1],
    ..FOUR_CHIPS
};

/// One worker gives vertices 0, 1 and 2 a turn each, and again. Vertex 0 sends on edges 0 and 1 in turn 0 only, and
/// vertex 1 on edge 2 in turn 1 only. A vertex that claims on a sealed edge there has fired, and halts.
const SEALED_BEFORE_A_TURN: &[&Case] = &[
    &Case {
        name: "edge 0 before turn 1",
        plan: Plan {
            seal: Some(SealAt { turn: 1, edge: 0 }),
            ..ONE
        },
        ..FOUR
    },
    &Case {
        name: "edge 1 before turn 0",
        plan: Plan {
            seal: Some(SealAt { turn: 0, edge: 1 }),
            ..ONE
        },
        ending: Ending::Finished(&HALTED_ZERO),
        ..FOUR
    },
    &Case {
        name: "edge 2 before turn 0",
        plan: Plan {
            seal: Some(SealAt { turn: 0, edge: 2 }),
            ..ONE
        },
        ending: Ending::Finished(&HALTED_ONE),
        ..FOUR
    },
    &Case {
        name: "edge 2 before turn 1",
        plan: Plan {
            seal: Some(SealAt { turn: 1, edge: 2 }),
            ..ONE
        },
        ending: Ending::Finished(&HALTED_ONE),
        ..FOUR
    },
    &Case {
        name: "edge 2 before turn 2",
        plan: Plan {
            seal: Some(SealAt { turn: 2, edge: 2 }),
            ..ONE
        },
        ..FOUR
    },
];

#[test]
fn sealed_before_a_turn(rt: HostRuntime) {
    all_end(&rt, SEALED_BEFORE_A_TURN);
}

/// The result of a crew on the triangle that must finish.
fn finished<R: Threads + Wait + Sync + Abort + AllocGlobal>(
    rt: &R,
    start: &[u64],
    plan: Plan,
) -> Box<Finished> {
    let game = game_of(rt, TRIANGLE, start, LIMIT);
    let gate = Keeper::new(&Rule::Always);
    match run(rt, rt.alloc(), &game, plan, &gate) {
        Ok(finished) => Box::new(rt.alloc(), finished).expect(rt, "memory"),
        Err(_) => panic!(rt; "the crew did not finish"),
    }
}

/// Plays four chips until an edge is sealed; another crew plays on from there.
fn plays_on<R: Threads + Wait + Sync + Abort + AllocGlobal>(rt: &R, turn: u64, edge: u64) {
    let plan = Plan {
        seal: Some(SealAt { turn, edge }),
        ..PAIR
    };
    let first = finished(rt, &[4, 0, 0], plan);
    let more = finished(rt, &first.outcome.chips, PAIR);
    let same = adds_up(&first.outcome, &more.outcome, &FOUR_CHIPS);
    assert!(rt; same, "edge {edge} sealed before turn {turn}");
}

/// Each edge of the triangle is sealed before each of the first turns of worker 0.
#[test]
fn seals(rt: HostRuntime) {
    for edge in 0..4 {
        for turn in 0..10 {
            plays_on(&rt, turn, edge);
        }
    }
}

/// Expects this trace of an actor.
fn expect_trace(rt: &impl Abort, ended: &Finished, vertex: usize, rows: &[TraceRow], cut: bool) {
    let Some(actor) = ended.actors.get(vertex) else {
        panic!(rt; "an actor is not there");
    };
    let (written, was_cut) = actor.trace();
    assert!(rt;
        written == rows && was_cut == cut,
        "the trace of vertex {vertex}"
    );
}

const fn take(edge: u64, count: u64) -> TraceRow {
    TraceRow::Take { edge, count }
}

const fn fire(k: u64) -> TraceRow {
    TraceRow::Fire { k }
}

/// The traces of one worker's actors, with room for two rows each.
#[test]
fn traces(rt: HostRuntime) {
    let plan = Plan {
        trace_rows: 2,
        ..ONE
    };
    let ended = finished(&rt, &[4, 0, 0], plan);
    expect_trace(&rt, &ended, 0, &[take(4, 4), fire(2)], true);
    expect_trace(&rt, &ended, 1, &[take(0, 2), fire(1)], false);
    expect_trace(&rt, &ended, 2, &[take(1, 2), take(3, 1)], false);
}

/// A chain of `vertices` vertices without chips. The last one is the sink.
fn chain(rt: &(impl AllocGlobal + Abort), vertices: u64) -> Game
    requires { (0 < vertices) × (vertices ≤ 1000000) }
{
    let mut edges = Vec::new(rt.alloc());
    for tail in 0..vertices - 1 {
        let head = tail + 1;
        let edge = Edge {
            tail,
            head,
            mult: 1,
        };
        edges.push(edge).expect(rt, "memory");
    }
    let sink = vertices - 1;
    let limits = Limits::large();
    let graph = Graph::within(rt.alloc(), limits, vertices, sink, edges).expect(rt, "a graph");
    let start = vec![in rt.alloc(); 0; vertices as usize].expect(rt, "memory");
    Game::new(graph, start, LIMIT).expect(rt, "a game")
}

/// All of many actors meet after they have played, however small the stack is.
#[test]
fn many_actors_meet(rt: HostRuntime) {
    let game = chain(&rt, 200_000);
    let gate = Keeper::new(&Rule::Always);
    let Ok(finished) = run(&rt, rt.alloc(), &game, ONE, &gate) else {
        panic!(&rt; "the crew does not finish");
    };
    assert!(&rt; finished.actors.len() == 200_000);
}
