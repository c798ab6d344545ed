//! Worked schedules and recorded runs of the triangle, with expected values from outside.

use crate::file::{MAX_BYTES, Slow, spaces, triangle};
use chip_file::{FileFault, read_schedule, read_trace};
use chip_link::{Event, TraceRow};
use std::alloc::Global;
use std::io::Read;

/// A seal of edge 1 while vertex 0 sends.
const SEALED_HALF_WAY: &str =
    "event,at,count\nseal,1,0\ntake,4,0\nfire,0,2\nclear,0,0\nclaim,0,0\nput,0,0\nclear,1,0\nclaim,1,0\nhalt,0,0\n";

/// What that schedule means.
const SEALED_HALF_WAY_EVENTS: [Event; 9] = [
    Event::Seal(1),
    Event::Take(4),
    Event::Fire { vertex: 0, k: 2 },
    Event::Clear(0),
    Event::Claim(0),
    Event::Put(0),
    Event::Clear(1),
    Event::Claim(1),
    Event::Halt(0),
];

/// What is read of a schedule of the triangle.
pub(crate) fn read_events<R: Read>(alloc: Global, reader: &mut R) -> Result<Vec<Event>, FileFault> {
    let graph = triangle(alloc)?;
    read_schedule(alloc, reader, &graph)
}

/// The events that a text means.
pub(crate) fn events_of(alloc: Global, mut text: &[u8]) -> Result<Vec<Event>, FileFault> {
    read_events(alloc, &mut text)
}

#[test]
fn reads_the_schedule_of_sealed_half_way(rt: HostRuntime) {
    let events = events_of(rt.alloc(), SEALED_HALF_WAY.as_bytes()).expect(&rt, "events");
    assert!(rt; events.as_slice() == SEALED_HALF_WAY_EVENTS.as_slice());
}

/// Schedules of the triangle, each with its one event, if it has one.
const SCHEDULES: &[&(&str, Option<Event>)] = &[
    &("event,at,count\ntake,6,0\n", Some(Event::Take(6))),
    &("event,at,count\nack,06,007\n", Some(Event::Ack(6))),
    &(
        "event,at,count\nfire,2,18446744073709551615\n",
        Some(Event::Fire {
            vertex: 2,
            k: u64::MAX,
        }),
    ),
    &("\u{feff}event,at,count\nclear,0,0\n", Some(Event::Clear(0))),
    &("event,at,count\r\nclaim,3,0", Some(Event::Claim(3))),
    &(
        "\"event\",\"at\",\"count\"\n\"put\",\"3\",\"0\"\n",
        Some(Event::Put(3)),
    ),
    &("event,at,count\n\nhalt,2,1\n\n", Some(Event::Halt(2))),
    &("event,at,count\nsettle,6,\"0", Some(Event::Settle(6))),
    &("event,at,count\nseal,5,0\n", Some(Event::Seal(5))),
    &("event,at,count\nread,2,0\n", Some(Event::Read(2))),
    &(
        "event,at,count\nfeed,6,1099511627777\n",
        Some(Event::Feed {
            edge: 6,
            count: 1_099_511_627_777,
        }),
    ),
    &("event,at,count\nend,7,5\n", Some(Event::End)),
    &(
        "event,at,count\nend,18446744073709551615,0\n",
        Some(Event::End),
    ),
    &("event,at,count\n", None),
];

#[test]
fn reads_every_kind_of_event(rt: HostRuntime) {
    for (text, event) in SCHEDULES {
        let events = events_of(rt.alloc(), text.as_bytes()).expect(&rt, text);
        assert!(rt; events.as_slice() == event.as_slice(), "{text}");
    }
}

/// Schedules of the triangle that mean none, each with the first thing wrong with it.
const WRONG_SCHEDULES: &[&(&str, FileFault)] = &[
    &("", FileFault::Header),
    &("take,0,0\n", FileFault::Header),
    &("event,at\n", FileFault::Header),
    &("Event,at,count\n", FileFault::Header),
    &("vertex,kind,edge,count\n", FileFault::Header),
    &("event,at,count\nput,0\n", FileFault::Row(0)),
    &("event,at,count\nput,0,0\nspin,x,9,9\n", FileFault::Row(1)),
    &("event,at,count\nspin,x,9\n", FileFault::Kind(0)),
    &("event,at,count\nTake,0,0\n", FileFault::Kind(0)),
    &("event,at,count\ntake ,0,0\n", FileFault::Kind(0)),
    &("event,at,count\ntak,0,0\n", FileFault::Kind(0)),
    &("event,at,count\n,0,0\n", FileFault::Kind(0)),
    &("event,at,count\nevent,at,count\n", FileFault::Kind(0)),
    &("event,at,count\nput,9,-1\n", FileFault::Number(0)),
    &("event,at,count\nput,,0\n", FileFault::Number(0)),
    &(
        "event,at,count\nput,0,18446744073709551616\n",
        FileFault::Number(0),
    ),
    &("event,at,count\nput,0,0\nput,7,0\n", FileFault::Vertex(1)),
    &("event,at,count\nfire,3,1\n", FileFault::Vertex(0)),
    &("event,at,count\nhalt,3,0\n", FileFault::Vertex(0)),
    &("event,at,count\nread,3,0\n", FileFault::Vertex(0)),
    &("event,at,count\nfeed,7,1\n", FileFault::Vertex(0)),
    &("event,at,count\nend,0,x\n", FileFault::Number(0)),
    &("event,at,count\nput,7,0\nspin,0,0\n", FileFault::Vertex(0)),
];

#[test]
fn names_the_first_fault_of_a_schedule(rt: HostRuntime) {
    for (text, fault) in WRONG_SCHEDULES {
        let found = events_of(rt.alloc(), text.as_bytes()).err();
        assert!(rt; found.as_ref() == Some(fault), "{text}: {found:?}");
    }
}

#[test]
fn a_kind_that_is_no_text(rt: HostRuntime) {
    let found = events_of(rt.alloc(), b"event,at,count\n\xff,0,0\n").err();
    assert!(rt; found == Some(FileFault::Kind(0)));
}

/// A whole run from four chips on vertex 0, the rows of vertex 1 first.
const RECORDED: &str =
    "vertex,kind,edge,count\n1,take,0,2\n1,fire,0,1\n0,take,4,4\n0,fire,0,2\n0,take,2,1\n2,take,1,2\n2,take,3,1\n";

/// The same run, its vertices mixed, with other numbers in rows of firings, which have no edge.
const MIXED: &str =
    "vertex,kind,edge,count\n2,take,1,2\n0,take,4,4\n1,take,0,2\n0,fire,99,2\n2,take,3,1\n1,fire,18446744073709551615,01\n0,take,2,1";

/// What is recorded of each vertex in that run.
const RUNS: [&[TraceRow]; 3] = [
    &[
        TraceRow::Take { edge: 4, count: 4 },
        TraceRow::Fire { k: 2 },
        TraceRow::Take { edge: 2, count: 1 },
    ],
    &[
        TraceRow::Take { edge: 0, count: 2 },
        TraceRow::Fire { k: 1 },
    ],
    &[
        TraceRow::Take { edge: 1, count: 2 },
        TraceRow::Take { edge: 3, count: 1 },
    ],
];

/// What is read of recorded runs of the triangle.
fn read_runs<R: Read>(alloc: Global, reader: &mut R) -> Result<Vec<Vec<TraceRow>>, FileFault> {
    let graph = triangle(alloc)?;
    read_trace(alloc, reader, &graph)
}

/// The recorded runs that a text means.
pub(crate) fn runs_of(alloc: Global, mut text: &[u8]) -> Result<Vec<Vec<TraceRow>>, FileFault> {
    read_runs(alloc, &mut text)
}

/// Whether the three vertices have these runs.
fn are_runs(traces: &[Vec<TraceRow>], runs: &[&[TraceRow]; 3]) -> bool {
    let [first, second, sink] = runs;
    match traces {
        [zero, one, two] => {
            zero.as_slice() == *first && one.as_slice() == *second && two.as_slice() == *sink
        }
        _ => false,
    }
}

#[test]
fn reads_recorded_runs(rt: HostRuntime) {
    for text in [RECORDED, MIXED] {
        let traces = runs_of(rt.alloc(), text.as_bytes()).expect(&rt, text);
        assert!(rt; are_runs(&traces, &RUNS), "{text}");
    }
}

#[test]
fn reads_runs_of_no_rows(rt: HostRuntime) {
    let traces = runs_of(rt.alloc(), b"vertex,kind,edge,count").expect(&rt, "runs");
    assert!(rt; are_runs(&traces, &[&[], &[], &[]]));
}

/// Recorded runs of the triangle that mean none, each with the first thing wrong with it.
const WRONG_RUNS: &[&(&str, FileFault)] = &[
    &("", FileFault::Header),
    &("0,take,4,4\n", FileFault::Header),
    &("event,at,count\n", FileFault::Header),
    &("vertex,kind,edge,count,\n", FileFault::Header),
    &("vertex,kind,edge,count\n0,fire,2\n", FileFault::Row(0)),
    &(
        "vertex,kind,edge,count\n0,fire,0,2\nx,spin,0,0,0\n",
        FileFault::Row(1),
    ),
    &("vertex,kind,edge,count\nx,put,0,0\n", FileFault::Kind(0)),
    &("vertex,kind,edge,count\n0,Fire,0,1\n", FileFault::Kind(0)),
    &("vertex,kind,edge,count\nx,fire,0,1\n", FileFault::Number(0)),
    &("vertex,kind,edge,count\n3,fire,,1\n", FileFault::Number(0)),
    &(
        "vertex,kind,edge,count\n3,take,7,+1\n",
        FileFault::Number(0),
    ),
    &("vertex,kind,edge,count\n3,fire,0,1\n", FileFault::Vertex(0)),
    &("vertex,kind,edge,count\n3,take,0,1\n", FileFault::Vertex(0)),
    &(
        "vertex,kind,edge,count\n0,take,6,1\n0,take,7,1\n",
        FileFault::Vertex(1),
    ),
    &(
        "vertex,kind,edge,count\n0,take,7,1\n0,put,0,0\n",
        FileFault::Vertex(0),
    ),
];

#[test]
fn names_the_first_fault_of_recorded_runs(rt: HostRuntime) {
    for (text, fault) in WRONG_RUNS {
        let found = runs_of(rt.alloc(), text.as_bytes()).err();
        assert!(rt; found.as_ref() == Some(fault), "{text}: {found:?}");
    }
}

/// What is read of the schedule byte by byte, while a read may fail.
fn events_read_slowly(alloc: Global, fails_at: Option<usize>) -> Result<Vec<Event>, FileFault> {
    read_events(alloc, &mut Slow::new(SEALED_HALF_WAY.as_bytes(), fails_at))
}

/// What is read of the whole run byte by byte, while a read may fail.
fn runs_read_slowly(
    alloc: Global,
    fails_at: Option<usize>,
) -> Result<Vec<Vec<TraceRow>>, FileFault> {
    read_runs(alloc, &mut Slow::new(RECORDED.as_bytes(), fails_at))
}

#[test]
fn a_slow_reader_gives_the_same_schedule(rt: HostRuntime) {
    let events = events_read_slowly(rt.alloc(), None).expect(&rt, "events");
    assert!(rt; events.as_slice() == SEALED_HALF_WAY_EVENTS.as_slice());
}

#[test]
fn a_slow_reader_gives_the_same_runs(rt: HostRuntime) {
    let traces = runs_read_slowly(rt.alloc(), None).expect(&rt, "runs");
    assert!(rt; are_runs(&traces, &RUNS));
}

#[test]
fn a_failing_read_of_a_schedule_is_reported(rt: HostRuntime) {
    for read in 0..=SEALED_HALF_WAY.len() {
        let found = events_read_slowly(rt.alloc(), Some(read)).err();
        assert!(rt; found == Some(FileFault::Read), "{found:?}");
    }
}

#[test]
fn a_failing_read_of_runs_is_reported(rt: HostRuntime) {
    for read in 0..=RECORDED.len() {
        let found = runs_read_slowly(rt.alloc(), Some(read)).err();
        assert!(rt; found == Some(FileFault::Read), "{found:?}");
    }
}

#[test]
fn a_schedule_that_is_too_long(rt: HostRuntime) {
    let spaces = spaces(rt.alloc(), MAX_BYTES + 1).expect(&rt, "memory");
    let found = events_of(rt.alloc(), spaces.as_slice()).err();
    assert!(rt; found == Some(FileFault::TooLong));
}

#[test]
fn runs_that_are_too_long(rt: HostRuntime) {
    let spaces = spaces(rt.alloc(), MAX_BYTES + 1).expect(&rt, "memory");
    let found = runs_of(rt.alloc(), spaces.as_slice()).err();
    assert!(rt; found == Some(FileFault::TooLong));
}
