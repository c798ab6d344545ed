//! Worked games and graphs through the engines, with results by hand.

use chip_command::{Ended, Fault};
use chip_engine::{
    PlayOptions, ReplayOptions, check_engine, check_engine_with, plain_engine, plain_engine_with,
    plain_guess_engine_with, replay_engine, replay_engine_with, resume_engine, resume_engine_with,
    simulate_engine, verify_engine,
};
use chip_file::{FileFault, read_graph, read_trace};
use chip_fire::{Play, ResumeFault, Unwatched, Watch};
use chip_graph::{GameFault, GraphFault, Limits};
use chip_link::{Ring, TraceRow};
use chip_report::WriteFault;
use chip_trace::write_trace;
use std::alloc::Global;
use std::io;
use std::io::Write;
use std::process::Abort;

pub(crate) const TRIANGLE: &str =
    "{\"edges\":[[0,1,1],[0,2,1],[1,0,1],[1,2,1]],\"sink\":2,\"version\":1,\"vertices\":3}";

pub(crate) const NO_LIMIT: u64 = 1 << 40;

/// The report of the triangle with four chips on vertex 0.
pub(crate) const PLAYED: &str =
    "{\"chips\":[1,0,3],\"closed\":true,\"fired\":[2,1,0],\"over\":[],\"sealed\":[],\"version\":1}\n";

/// The result of `plain`, and what it writes.
fn play(alloc: Global, graph: &str, chips: &str, limit: u64) -> (Result<Ended, Fault>, Vec<u8>) {
    let mut output = Vec::new(alloc);
    let ended = plain_engine(
        alloc,
        &mut graph.as_bytes(),
        &mut chips.as_bytes(),
        limit,
        &mut output,
    );
    (ended, output)
}

pub(crate) fn closed(status: u8) -> Result<Ended, Fault> {
    Ok(Ended { status, cut: false })
}

#[test]
fn plays_the_triangle(rt: HostRuntime) {
    let (ended, output) = play(rt.alloc(), TRIANGLE, "vertex,chips\n0,4\n", NO_LIMIT);
    assert!(rt; ended == closed(0));
    assert!(rt; output.as_slice() == PLAYED.as_bytes());
    let (ended, output) = play(rt.alloc(), TRIANGLE, "vertex,chips\n0,5\n", 2);
    assert!(rt; ended == closed(2));
    assert!(rt; output.as_slice() == STOPPED.as_bytes());
}

/// The result of `plain` for four chips on vertex 0 of the triangle, with a guess, and what it writes.
fn play_guess(alloc: Global, chips: &str, guess: &str) -> (Result<Ended, Fault>, Vec<u8>) {
    let mut output = Vec::new(alloc);
    let ended = plain_guess_engine_with(
        alloc,
        &mut TRIANGLE.as_bytes(),
        &mut chips.as_bytes(),
        &mut guess.as_bytes(),
        PlayOptions::standard(NO_LIMIT),
        &mut Unwatched,
        &mut output,
    );
    (ended, output)
}

/// Guesses of four chips on vertex 0: the counts of the end as rows and as a report, none, and too many.
const GUESSES: [&str; 5] = [
    "vertex,fired\n0,2\n1,1\n",
    PLAYED,
    "vertex,fired\n",
    "vertex,fired\n0,3\n1,2\n",
    "vertex,fired\n0,18446744073709551615\n1,1\n",
];

#[test]
fn plays_with_a_guess(rt: HostRuntime) {
    for guess in GUESSES {
        let (ended, output) = play_guess(rt.alloc(), "vertex,chips\n0,4\n", guess);
        assert!(rt; ended == closed(0));
        assert!(rt; output.as_slice() == PLAYED.as_bytes());
    }
}

/// Texts that are no guess for the triangle, and their faults.
const NO_GUESSES: [(&str, Fault); 6] = [
    ("", Fault::File(FileFault::Header)),
    ("vertex,chips\n0,2\n", Fault::File(FileFault::Header)),
    (
        "vertex,fired\n0,2\n3,1\n",
        Fault::File(FileFault::Vertex(1)),
    ),
    ("{", Fault::NotReport),
    (" {", Fault::File(FileFault::Header)),
    (
        "{\"chips\":[1,0],\"closed\":true,\"fired\":[2,0],\"over\":[],\"sealed\":[],\"version\":1}\n",
        Fault::Resume(ResumeFault::Mismatch),
    ),
];

#[test]
fn refuses_what_is_no_guess(rt: HostRuntime) {
    for (guess, fault) in NO_GUESSES {
        let (ended, output) = play_guess(rt.alloc(), "vertex,chips\n0,4\n", guess);
        assert!(rt; ended == Err(fault));
        assert!(rt; output.is_empty());
    }
    let (ended, _) = play_guess(rt.alloc(), "vertex,chips\n3,4\n", "{");
    assert!(rt;
        ended == Err(Fault::File(FileFault::Vertex(0))),
        "the chips come first"
    );
}

/// How often the vertices had fired at the last report of a play.
#[derive(Drop)]
pub(crate) struct Heard {
    pub(crate) fired: [u64; 3],
}

impl Watch for Heard {
    fn rounds(&mut self, _more: u64, play: &Play<'_>) {
        for (vertex, times) in self.fired.iter_mut().enumerate() {
            *times = play.fired.get(vertex).copied().unwrap_or(0);
        }
    }
}

#[test]
fn reports_to_its_watcher(rt: HostRuntime) {
    let mut heard = Heard { fired: [0; 3] };
    let mut output = Vec::new(rt.alloc());
    let options = PlayOptions {
        limits: Limits::large(),
        limit: NO_LIMIT,
    };
    let ended = plain_engine_with(
        rt.alloc(),
        &mut TRIANGLE.as_bytes(),
        &mut "vertex,chips\n0,4\n".as_bytes(),
        options,
        &mut heard,
        &mut output,
    );
    assert!(rt; ended == closed(0));
    assert!(rt; heard.fired == [2, 1, 0]);
}

#[test]
fn shows_the_triangle(rt: HostRuntime) {
    let mut output = Vec::new(rt.alloc());
    let ended = check_engine(rt.alloc(), &mut TRIANGLE.as_bytes(), &mut output);
    assert!(rt; ended == closed(0));
    assert!(rt;
        output.as_slice()
            == "vertices 3\nedges 4\nsink 2\nvertex 0 degree 2 distance 1\nvertex 1 degree 2 distance 1\n\
        vertex 2 degree 0 distance 0\n"
                .as_bytes()
    );
}

/// Inputs that are refused: the graph, the chips, the limit and the fault.
const REFUSED: &[&(&str, &str, u64, Fault)] = &[
    &(
        "{\"edges\":[[0,1,1],[1,0,1],[2,3,1]],\"sink\":3,\"version\":1,\"vertices\":4}",
        "",
        NO_LIMIT,
        Fault::File(FileFault::Graph(GraphFault::Unreached(0))),
    ),
    &(TRIANGLE, "", NO_LIMIT, Fault::File(FileFault::Header)),
    &(
        TRIANGLE,
        "vertex,chips\n0,1099511627776\n1,1\n",
        NO_LIMIT,
        Fault::File(FileFault::Total),
    ),
    &(
        TRIANGLE,
        "vertex,chips\n",
        NO_LIMIT + 1,
        Fault::Game(GameFault::Limit),
    ),
];

#[test]
fn refuses_inputs(rt: HostRuntime) {
    for (graph, chips, limit, fault) in REFUSED {
        let (ended, output) = play(rt.alloc(), graph, chips, *limit);
        assert!(rt;
            ended.err().as_ref() == Some(fault),
            "{graph} {chips:?} {limit}"
        );
        assert!(rt; output.is_empty());
    }
}

/// The rows of vertex 1 come first, though it cannot begin.
const RUN: &str =
    "vertex,kind,edge,count\n1,take,0,2\n1,fire,0,1\n0,take,4,4\n0,fire,0,2\n0,take,2,1\n2,take,1,2\n2,take,3,1\n";

/// The same, with one chip taken of a message of two.
const WRONG_RUN: &str =
    "vertex,kind,edge,count\n1,take,0,1\n1,fire,0,1\n0,take,4,4\n0,fire,0,2\n0,take,2,1\n2,take,1,2\n2,take,3,1\n";

/// The result of `replay` for a trace with this limit, and what it writes.
fn replayed(
    rt: &(impl AllocGlobal + Abort),
    trace: &str,
    limit: u64,
    lines: &str,
) -> Result<Ended, Fault> {
    let mut output = Vec::new(rt.alloc());
    let ended = replay_engine(
        rt.alloc(),
        &mut TRIANGLE.as_bytes(),
        &mut "vertex,chips\n0,4\n".as_bytes(),
        &mut trace.as_bytes(),
        limit,
        &mut output,
    );
    assert!(rt; output.as_slice() == lines.as_bytes(), "{trace}");
    ended
}

#[test]
fn replays_the_triangle(rt: HostRuntime) {
    let lines = "fire 0 2\nfire 1 1\n";
    assert!(rt; replayed(&rt, RUN, NO_LIMIT, lines) == closed(0));
    assert!(rt; replayed(&rt, RUN, 2, lines) == closed(0));
    assert!(rt; replayed(&rt, RUN, 1, "") == Err(Fault::Stuck { vertex: 0, row: 1 }));
    assert!(rt; replayed(&rt, WRONG_RUN, NO_LIMIT, "") == Err(Fault::Stuck { vertex: 1, row: 0 }));
    assert!(rt; replayed(&rt, "", NO_LIMIT, "") == Err(Fault::File(FileFault::Header)));
    let no_kind = "vertex,kind,edge,count\n0,taken,4,4\n";
    assert!(rt; replayed(&rt, no_kind, NO_LIMIT, "") == Err(Fault::File(FileFault::Kind(0))));
}

/// Vertex 0 fires once, and vertex 1 takes what it sent there.
const BEGUN: &str = "vertex,kind,edge,count\n0,take,4,4\n0,fire,0,1\n1,take,0,1\n";

/// A trace with its limit, and the text and the status of a replay with what is left.
struct Remainder {
    trace: &'static str,
    limit: u64,
    lines: &'static str,
    status: u8,
}

const REMAINDERS: &[&Remainder] = &[
    &Remainder {
        trace: RUN,
        limit: NO_LIMIT,
        lines: "fire 0 2\nfire 1 1\n",
        status: 0,
    },
    &Remainder {
        trace: BEGUN,
        limit: 2,
        lines: "fire 0 1\nleft: edge 1 has 1 messages\nleft: vertex 0 can fire\n",
        status: 2,
    },
    &Remainder {
        trace: BEGUN,
        limit: 1,
        lines: "fire 0 1\nleft: edge 1 has 1 messages\nleft: vertex 0 is at its limit\n",
        status: 2,
    },
];

/// Checks what a replay of the triangle leaves.
fn check_remainder(rt: &(impl AllocGlobal + Abort), told: &Remainder) {
    let mut output = Vec::new(rt.alloc());
    let options = ReplayOptions {
        play: PlayOptions::standard(told.limit),
        complete: true,
    };
    let ended = replay_engine_with(
        rt.alloc(),
        &mut TRIANGLE.as_bytes(),
        &mut "vertex,chips\n0,4\n".as_bytes(),
        &mut told.trace.as_bytes(),
        options,
        &mut output,
    );
    assert!(rt; ended == closed(told.status), "{}", told.trace);
    assert!(rt;
        output.as_slice() == told.lines.as_bytes(),
        "{}",
        told.trace
    );
}

#[test]
fn reports_what_is_left_of_the_triangle(rt: HostRuntime) {
    for told in REMAINDERS {
        check_remainder(&rt, told);
    }
}

/// Edge 1 is sealed before vertex 0 sends on it.
const HALF: &str =
    "event,at,count\nseal,1,0\ntake,4,0\nfire,0,2\nclear,0,0\nclaim,0,0\nput,0,0\nclear,1,0\nclaim,1,0\nhalt,0,0\n";

/// A schedule on the triangle, and the status and the text that it ends with.
struct Scheduled {
    name: &'static str,
    chips: &'static str,
    schedule: &'static str,
    cells: u64,
    rounds: u64,
    fed: bool,
    status: u8,
    text: &'static str,
}

/// The result of `simulate` for a schedule.
fn simulated(rt: &(impl AllocGlobal + Abort), scheduled: &Scheduled) -> Result<Ended, Fault> {
    let ring = Ring::new(scheduled.cells).expect(rt, "1 to 64 cells");
    let mut output = Vec::new(rt.alloc());
    let ended = simulate_engine(
        rt.alloc(),
        &mut TRIANGLE.as_bytes(),
        &mut scheduled.chips.as_bytes(),
        &mut scheduled.schedule.as_bytes(),
        NO_LIMIT,
        ring.cells(),
        scheduled.rounds,
        scheduled.fed,
        &mut output,
    );
    assert!(rt;
        output.as_slice() == scheduled.text.as_bytes(),
        "{}",
        scheduled.name
    );
    ended
}

/// Checks that a schedule plays to its end.
fn simulates(rt: &(impl AllocGlobal + Abort), scheduled: &Scheduled) {
    let ended = simulated(rt, scheduled);
    assert!(rt; ended == closed(scheduled.status), "{}", scheduled.name);
}

const IN_ROUNDS: Scheduled = Scheduled {
    name: "sealed half way",
    chips: "vertex,chips\n0,4\n",
    schedule: HALF,
    cells: 1,
    rounds: 10,
    fed: false,
    status: 2,
    text: "done 0\ngot 0 4\ndone 2\ndone 0\nsent 0 2\ndone 2\ndone 0\nsealed\ndone 0\nroot closed\n\
        {\"chips\":[1,0,3],\"closed\":false,\"fired\":[2,1,0],\"over\":[],\"sealed\":[0],\"version\":1}\n",
};

const SEALED_HALF_WAY: &[&Scheduled] = &[
    &IN_ROUNDS,
    &Scheduled {
        name: "sealed half way in a wide ring",
        cells: 64,
        rounds: 3,
        ..IN_ROUNDS
    },
    &Scheduled {
        name: "sealed half way, and left open",
        rounds: 2,
        status: 3,
        text: "done 0\ngot 0 4\ndone 2\ndone 0\nsent 0 2\ndone 2\ndone 0\nsealed\ndone 0\nroot open\n",
        ..IN_ROUNDS
    },
];

#[test]
fn simulates_what_is_sealed_half_way(rt: HostRuntime) {
    for scheduled in SEALED_HALF_WAY {
        simulates(&rt, scheduled);
    }
}

/// A schedule with an event of no kind.
const NO_KIND: &Scheduled = &Scheduled {
    name: "no kind",
    schedule: "event,at,count\nfires,0,2\n",
    text: "",
    ..IN_ROUNDS
};

#[test]
fn simulates_no_kind(rt: HostRuntime) {
    assert!(rt; simulated(&rt, NO_KIND) == Err(Fault::File(FileFault::Kind(0))));
}

/// Vertex 0 gets four chips while the game runs.
const FED_WHILE_IT_RUNS: Scheduled = Scheduled {
    name: "fed",
    chips: "vertex,chips\n",
    schedule: "event,at,count\nclear,4,0\nfeed,4,4\nput,4,0\nend,0,0\n",
    cells: 1,
    rounds: 10,
    fed: true,
    status: 0,
    text: "done 0\nsent 0 4\ndone 4\ndone 0\nroot closed\n\
        {\"chips\":[1,0,3],\"closed\":true,\"fired\":[2,1,0],\"over\":[],\"sealed\":[],\"version\":1}\n",
};

const FED: &[&Scheduled] = &[
    &FED_WHILE_IT_RUNS,
    &Scheduled {
        name: "not fed",
        fed: false,
        text: "not-now 17\nnot-now 17\nnot-now 12\ndone 0\nroot closed\n\
            {\"chips\":[0,0,0],\"closed\":true,\"fired\":[0,0,0],\"over\":[],\"sealed\":[],\"version\":1}\n",
        ..FED_WHILE_IT_RUNS
    },
    &Scheduled {
        name: "fed without an end",
        schedule: "event,at,count\n",
        status: 3,
        text: "root open\n",
        ..FED_WHILE_IT_RUNS
    },
];

#[test]
fn simulates_what_is_fed(rt: HostRuntime) {
    for scheduled in FED {
        simulates(&rt, scheduled);
    }
}

/// The triangle with five chips on vertex 0, after a stage with limit 2.
pub(crate) const STOPPED: &str =
    "{\"chips\":[2,0,3],\"closed\":false,\"fired\":[2,1,0],\"over\":[0],\"sealed\":[],\"version\":1}\n";

/// After a second stage.
pub(crate) const WENT_ON: &str =
    "{\"chips\":[0,1,4],\"closed\":true,\"fired\":[1,0,0],\"over\":[],\"prior\":[2,1,0],\"sealed\":[],\"version\":2}\n";

/// After a second stage with limit 0.
const STOOD_STILL: &str = "{\"chips\":[2,0,3],\"closed\":false,\"fired\":[0,0,0],\"over\":[0],\
    \"prior\":[2,1,0],\"sealed\":[],\"version\":2}\n";

/// Four chips, after edge 0 was sealed.
const SEALED: &str =
    "{\"chips\":[0,2,2],\"closed\":false,\"fired\":[2,0,0],\"over\":[],\"sealed\":[0],\"version\":1}\n";

/// After a stage without the seal.
const UNSEALED: &str = "{\"chips\":[1,0,3],\"closed\":true,\"fired\":[0,1,0],\"over\":[],\
    \"prior\":[2,0,0],\"sealed\":[],\"version\":2}\n";

/// A report of two vertices.
const OF_TWO: &str =
    "{\"chips\":[0,0],\"closed\":true,\"fired\":[0,0],\"over\":[],\"sealed\":[],\"version\":1}\n";

/// The result of `resume` for a report with this limit, if it is to write this text.
fn resumed(
    rt: &(impl AllocGlobal + Abort),
    report: &str,
    limit: u64,
    text: &str,
) -> Result<Ended, Fault> {
    let mut output = Vec::new(rt.alloc());
    let ended = resume_engine(
        rt.alloc(),
        &mut TRIANGLE.as_bytes(),
        &mut report.as_bytes(),
        limit,
        &mut output,
    );
    assert!(rt; output.as_slice() == text.as_bytes(), "{report}");
    ended
}

/// The results of `check` and `resume` for the triangle, with limits of `vertices` vertices.
fn answers_within(rt: &impl AllocGlobal, vertices: u64) -> Option<(Option<Fault>, Option<Fault>)> {
    let options = PlayOptions {
        limits: Limits::new(vertices, 4, 1_000)?,
        limit: NO_LIMIT,
    };
    let (mut lines, mut report) = (Vec::new(rt.alloc()), Vec::new(rt.alloc()));
    let graph = &mut TRIANGLE.as_bytes();
    let checked = check_engine_with(rt.alloc(), graph, options.limits, &mut lines);
    let (graph, earlier) = (&mut TRIANGLE.as_bytes(), &mut STOPPED.as_bytes());
    let watch = &mut Unwatched;
    let resumed = resume_engine_with(rt.alloc(), graph, earlier, options, watch, &mut report);
    Some((checked.err(), resumed.err()))
}

#[test]
fn asks_for_the_limits(rt: HostRuntime) {
    let vertices = Fault::File(FileFault::Graph(GraphFault::Vertices));
    assert!(rt; answers_within(&rt, 3) == Some((None, None)));
    assert!(rt; answers_within(&rt, 2) == Some((Some(vertices), Some(vertices))));
}

#[test]
fn goes_on_with_the_triangle(rt: HostRuntime) {
    assert!(rt; resumed(&rt, STOPPED, NO_LIMIT, WENT_ON) == closed(0));
    assert!(rt; resumed(&rt, STOPPED, 0, STOOD_STILL) == closed(2));
    assert!(rt; resumed(&rt, STOOD_STILL, NO_LIMIT, WENT_ON) == closed(0));
    assert!(rt; resumed(&rt, SEALED, NO_LIMIT, UNSEALED) == closed(0));
    let mismatch = Err(Fault::Resume(ResumeFault::Mismatch));
    assert!(rt; resumed(&rt, OF_TWO, NO_LIMIT, "") == mismatch);
    let limit = Err(Fault::Resume(ResumeFault::Limit));
    assert!(rt; resumed(&rt, STOPPED, NO_LIMIT + 1, "") == limit);
    assert!(rt; resumed(&rt, "", NO_LIMIT, "") == Err(Fault::NotReport));
}

/// The result of `verify` for a report of the triangle with five chips on vertex 0, by this limit.
fn verified(rt: &(impl AllocGlobal + Abort), report: &str, limit: u64) -> Result<Ended, Fault> {
    let mut output = Vec::new(rt.alloc());
    let ended = verify_engine(
        rt.alloc(),
        &mut TRIANGLE.as_bytes(),
        &mut "vertex,chips\n0,5\n".as_bytes(),
        &mut report.as_bytes(),
        limit,
        &mut output,
    );
    let text = if ended.is_ok() { "verified\n" } else { "" };
    assert!(rt; output.as_slice() == text.as_bytes(), "{report}");
    ended
}

#[test]
fn verifies_the_triangle(rt: HostRuntime) {
    assert!(rt; verified(&rt, STOPPED, 2) == closed(0));
    assert!(rt; verified(&rt, WENT_ON, NO_LIMIT) == closed(0));
    assert!(rt; verified(&rt, STOPPED, NO_LIMIT) == Err(Fault::Differs(0)));
    assert!(rt; verified(&rt, PLAYED, NO_LIMIT) == Err(Fault::Differs(0)));
    let mismatch = Err(Fault::Resume(ResumeFault::Mismatch));
    assert!(rt; verified(&rt, OF_TWO, NO_LIMIT) == mismatch);
    assert!(rt; verified(&rt, "", NO_LIMIT) == Err(Fault::NotReport));
}

/// If the graph is refused, nothing of the report is read.
#[test]
fn reads_no_report_of_a_refused_graph(rt: HostRuntime) {
    let no_edge = "{\"edges\":[],\"sink\":1,\"version\":1,\"vertices\":2}";
    let mut report = STOPPED.as_bytes();
    let mut output = Vec::new(rt.alloc());
    let ended = resume_engine(
        rt.alloc(),
        &mut no_edge.as_bytes(),
        &mut report,
        NO_LIMIT,
        &mut output,
    );
    let unreached = FileFault::Graph(GraphFault::Unreached(0));
    assert!(rt; ended == Err(Fault::File(unreached)));
    assert!(rt; report == STOPPED.as_bytes());
    assert!(rt; output.is_empty());
}

/// What is recorded of each vertex.
const RECORDED: [&[TraceRow]; 3] = [
    &[
        TraceRow::Take { edge: 4, count: 4 },
        TraceRow::Fire { k: 2 },
        TraceRow::Take { edge: 2, count: 1 },
    ],
    &[],
    &[TraceRow::Take { edge: 1, count: 2 }],
];

/// What is read of a text of traces of the triangle.
fn traces_of(rt: &(impl AllocGlobal + Abort), mut text: &[u8]) -> Vec<Vec<TraceRow>> {
    let graph = read_graph(rt.alloc(), &mut TRIANGLE.as_bytes()).expect(rt, "a graph");
    read_trace(rt.alloc(), &mut text, &graph).expect(rt, "traces")
}

#[test]
fn reads_the_traces_that_were_written(rt: HostRuntime) {
    let mut text = Vec::new(rt.alloc());
    assert!(rt; write_trace(rt.alloc(), &RECORDED, &mut text) == Ok(()));
    let read = traces_of(&rt, &text);
    assert!(rt; read.len() == 3);
    for (trace, written) in read.iter().zip(&RECORDED) {
        assert!(rt; trace.as_slice() == *written);
    }
}

/// A writer that takes one byte at each write, and fails after a number of bytes.
#[derive(Drop)]
struct Trickle {
    taken: Vec<u8>,
    room: usize,
}

impl Write for Trickle {
    fn write(&mut self, bytes: &[u8]) -> io::Result<usize> {
        match bytes.first() {
            Some(byte) if self.taken.len() < self.room => {
                self.taken.push(*byte)?;
                Ok(1)
            }
            _ => Err(io::Error::from(io::ErrorKind::Other)),
        }
    }

    fn flush(&mut self) -> io::Result<()> {
        Ok(())
    }
}

#[test]
fn writes_as_far_as_the_writer_goes(rt: HostRuntime) {
    let lines = "vertices 3\nedges 4\nsink 2\nvertex 0 degree 2 distance 1\n".as_bytes();
    for room in 0..30 {
        let mut writer = Trickle {
            taken: Vec::new(rt.alloc()),
            room,
        };
        let ended = check_engine(rt.alloc(), &mut TRIANGLE.as_bytes(), &mut writer);
        let written = room as u64;
        assert!(rt; ended == Err(Fault::Write(WriteFault { written })));
        assert!(rt;
            Some(writer.taken.as_slice()) == lines.get(..room),
            "room for {room} bytes"
        );
    }
}
