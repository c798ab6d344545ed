//! The texts of faults: the line that the program prints, and the message of each library.

use chip_command::{Fault, explanations};
use chip_file::FileFault;
use chip_fire::{AfterFault, NotLegal, ResumeFault};
use chip_graph::{GameFault, GraphFault};
use chip_net::{FeedFault, NoEdge};
use chip_report::{ReportFault, WriteFault};
use chip_trace::{ReplayFault, TraceFault};
use chip_world::WorldFault;
use std::fmt::Display;
use std::process::Abort;

/// Checks the text of a fault.
fn shows<R: Abort + AllocGlobal, F: Display>(rt: &R, fault: &F, text: &str) {
    let shown = fault.to_string(rt.alloc()).expect(rt, "memory");
    assert!(rt; shown.as_str() == text, "{shown} and not {text}");
}

/// The lines of faults that no command line causes. `tests/cli/` has the others.
const LINES: &[&(Fault, &str)] = &[
    &(Fault::Game(GameFault::StartLength), "fault 9 StartLength"),
    &(Fault::Game(GameFault::Limit), "fault 11 Limit"),
    &(Fault::Resume(ResumeFault::Limit), "fault 11 Limit"),
    &(Fault::Plan, "fault 60 Plan"),
    &(Fault::GateShut, "fault 62 GateShut"),
    &(Fault::Lost(5), "fault 63 Lost 5"),
    &(Fault::Doubled(0), "fault 64 Doubled 0"),
];

#[test]
fn prints_each_line(rt: HostRuntime) {
    for (fault, text) in LINES {
        shows(&rt, fault, text);
    }
}

/// The messages of `chip_graph` for a graph.
const GRAPH_TEXTS: &[&(GraphFault, &str)] = &[
    &(GraphFault::Vertices, "there are no vertices, or too many"),
    &(GraphFault::Sink, "the sink is no vertex"),
    &(GraphFault::EdgeCount, "there are too many edges"),
    &(
        GraphFault::Endpoint(1),
        "edge 1 has an end that is no vertex",
    ),
    &(GraphFault::Mult(2), "edge 2 must send 1 to 1048576 chips"),
    &(GraphFault::Loop(0), "edge 0 is a loop"),
    &(GraphFault::FromSink(3), "edge 3 leaves the sink"),
    &(
        GraphFault::Unreached(4),
        "no walk leads from vertex 4 to the sink",
    ),
    &(GraphFault::NoMemory, "out of memory"),
];

/// The messages of `chip_graph` for a game.
const GAME_TEXTS: &[&(GameFault, &str)] = &[
    &(
        GameFault::StartLength,
        "the start must have one number for each vertex",
    ),
    &(GameFault::Total, "there are more than 1099511627776 chips"),
    &(GameFault::Limit, "the firing limit is above 1099511627776"),
];

#[test]
fn libraries_say_what_is_wrong(rt: HostRuntime) {
    for (fault, text) in GRAPH_TEXTS {
        shows(&rt, fault, text);
        shows(&rt, &FileFault::Graph(*fault), text);
    }
    for (fault, text) in GAME_TEXTS {
        shows(&rt, fault, text);
    }
}

/// The messages of `chip_file`.
const FILE_TEXTS: &[&(FileFault, &str)] = &[
    &(FileFault::NotJson, "the text is no JSON"),
    &(FileFault::Shape, "the JSON has not the shape of a graph"),
    &(FileFault::Version, "the version is not 1"),
    &(FileFault::Header, "the first record is not the header"),
    &(
        FileFault::Row(1),
        "row 1 has another number of fields than the header",
    ),
    &(FileFault::Number(3), "a field of row 3 is no number"),
    &(FileFault::Vertex(0), "row 0 names no vertex"),
    &(FileFault::Repeated(2), "row 2 names a vertex again"),
    &(FileFault::Kind(5), "row 5 has no such kind"),
    &(
        FileFault::End(4),
        "row 4 is at an end of a stream that another process has",
    ),
    &(
        FileFault::Passive(6),
        "row 6 sends while its process is passive",
    ),
    &(
        FileFault::Woken(7),
        "row 7 begins active, and is not the first of its process",
    ),
    &(FileFault::Total, "there are more than 1099511627776 chips"),
    &(FileFault::Read, "a read failed"),
    &(
        FileFault::TooLong,
        "there are more bytes than the limits allow",
    ),
    &(FileFault::NoMemory, "out of memory"),
];

#[test]
fn readers_say_what_is_wrong(rt: HostRuntime) {
    for (fault, text) in FILE_TEXTS {
        shows(&rt, fault, text);
    }
}

/// The messages of `chip_fire` for a play that is to go on.
const RESUME_TEXTS: &[&(ResumeFault, &str)] = &[
    &(
        ResumeFault::Mismatch,
        "the earlier play has another number of vertices",
    ),
    &(
        ResumeFault::Total,
        "there are more than 1099511627776 chips",
    ),
    &(
        ResumeFault::Limit,
        "the firing limit is above 1099511627776",
    ),
    &(
        ResumeFault::Prior(3),
        "vertex 3 fired more than 1152921504606846976 times before",
    ),
    &(ResumeFault::NoMemory, "out of memory"),
];

/// The messages of `chip_net` for chips that are not fed.
const FEED_TEXTS: &[&(FeedFault, &str)] = &[
    &(FeedFault::Ended, "the end of feeding is noted"),
    &(
        FeedFault::Total,
        "more than 1099511627776 chips would have been given",
    ),
    &(
        FeedFault::Full,
        "the next cell of the ring to the vertex is full",
    ),
];

#[test]
fn the_other_libraries_say_what_is_wrong(rt: HostRuntime) {
    shows(&rt, &ReportFault::NotReport, "the bytes are no report");
    shows(&rt, &ReportFault::NoMemory, "out of memory");
    shows(
        &rt,
        &WriteFault { written: 7 },
        "a write failed after 7 bytes",
    );
    let stuck = ReplayFault::Stuck { vertex: 1, row: 0 };
    shows(&rt, &stuck, "vertex 1 is stuck at its row 0");
    shows(&rt, &ReplayFault::NoMemory, "out of memory");
    shows(&rt, &TraceFault::Write, "a write failed");
    shows(&rt, &TraceFault::NoMemory, "out of memory");
    for (fault, text) in RESUME_TEXTS {
        shows(&rt, fault, text);
    }
    shows(&rt, &WorldFault::NotClosed, "the root is not closed");
    shows(&rt, &WorldFault::NoMemory, "out of memory");
    for (fault, text) in FEED_TEXTS {
        shows(&rt, fault, text);
    }
    shows(&rt, &NoEdge, "no edge of the graph has this number");
}

/// The faults that only callers of the libraries get have rows of the table, by their numbers.
#[test]
fn explains_faults_of_libraries(rt: HostRuntime) {
    let rows = explanations();
    for (number, name) in [
        (NotLegal.number(), "NotLegal"),
        (AfterFault::Negative(0).number(), "Negative"),
        (WorldFault::NotClosed.number(), "NotClosed"),
        (NoEdge.number(), "NoEdge"),
        (FeedFault::Ended.number(), "Ended"),
        (FeedFault::Full.number(), "Full"),
    ] {
        let is_there = rows
            .iter()
            .any(|row| row.number == number && row.name == name);
        assert!(rt; is_there, "{name}");
    }
}
