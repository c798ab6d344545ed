//! Reports of plays in several stages, worked out by hand.

use crate::report::{is_same, wide};
use chip_report::{ReportFault, read_any, read_report, report_two};
use chip_sequence::Resumed;
use std::process::Abort;

/// The triangle with five chips on vertex 0, after a stage with limit 2 and one without a limit.
const WENT_ON: &[u8] =
    b"{\"chips\":[0,1,4],\"closed\":true,\"fired\":[1,0,0],\"over\":[],\"prior\":[2,1,0],\"sealed\":[],\"version\":2}\n";
/// The first of these stages.
const FIRST: &[u8] =
    b"{\"chips\":[2,0,3],\"closed\":false,\"fired\":[2,1,0],\"over\":[0],\"sealed\":[],\"version\":1}\n";

#[test]
fn stage_that_went_on(rt: HostRuntime) {
    let resumed = read_any(rt.alloc(), WENT_ON).expect(&rt, "a report");
    assert!(rt; resumed.outcome.fired.as_slice() == [1, 0, 0].as_slice());
    assert!(rt; resumed.outcome.chips.as_slice() == [0, 1, 4].as_slice());
    assert!(rt; resumed.prior.as_slice() == [2, 1, 0].as_slice());
    let text = report_two(rt.alloc(), &resumed).expect(&rt, "memory");
    assert!(rt; text.as_slice() == WENT_ON);
}

#[test]
fn first_stage(rt: HostRuntime) {
    let resumed = read_any(rt.alloc(), FIRST).expect(&rt, "a report");
    assert!(rt; resumed.outcome.fired.as_slice() == [2, 1, 0].as_slice());
    assert!(rt; resumed.outcome.over.as_slice() == [0].as_slice());
    assert!(rt; resumed.prior.as_slice() == [0, 0, 0].as_slice());
}

/// Checks that the text of a stage is read back.
fn reads_back(rt: &(impl AllocGlobal + Abort), text: &[u8], resumed: &Resumed) {
    let read = read_any(rt.alloc(), text).expect(rt, "a report");
    assert!(rt; is_same(&read.outcome, &resumed.outcome));
    assert!(rt; read.prior.as_slice() == resumed.prior.as_slice());
}

/// A report of a first stage is read as one, before which no vertex had fired.
fn reads_first(rt: &(impl AllocGlobal + Abort), text: &[u8], resumed: &Resumed) {
    let first = read_any(rt.alloc(), text).expect(rt, "a report");
    assert!(rt; is_same(&first.outcome, &resumed.outcome));
    assert!(rt; first.prior.len() == 4_096 && first.prior.iter().all(|times| *times == 0));
}

/// The outcome of a report of a first stage, after a stage in which each vertex fired 2^60 times.
fn after_many(rt: &(impl AllocGlobal + Abort), text: &[u8]) -> Resumed {
    let outcome = read_report(rt.alloc(), text).expect(rt, "a report");
    let prior = vec![in rt.alloc(); 1 << 60; 4_096].expect(rt, "memory");
    Resumed { outcome, prior }
}

#[test]
fn the_widest_stage(rt: HostRuntime) {
    let last = wide(rt.alloc(), 4_096, "1099511627776").expect(&rt, "memory");
    let resumed = after_many(&rt, last.as_bytes());
    let text = report_two(rt.alloc(), &resumed).expect(&rt, "memory");
    // `,"prior":[]`, 19 digits for each vertex and a comma between two of them
    assert!(rt; text.len().checked_sub(last.len()) == Some(81_930));
    reads_back(&rt, &text, &resumed);
    reads_first(&rt, last.as_bytes(), &resumed);
}

/// Whether a text is the report of no stage.
fn is_refused(rt: &(impl AllocGlobal + Abort), text: &[u8]) -> bool {
    matches!(read_any(rt.alloc(), text), Err(ReportFault::NotReport))
}

/// Fewer numbers of earlier firings than vertices, one above 2^60, none, some in the wrong place, one with a leading
/// zero, lists alone, none of them, and some in a first stage's report.
const NO_STAGES: &[&str] = &[
    "{\"chips\":[0,1,4],\"closed\":true,\"fired\":[1,0,0],\"over\":[],\"prior\":[2,1],\"sealed\":[],\"version\":2}\n",
    "{\"chips\":[0],\"closed\":true,\"fired\":[1],\"over\":[],\"prior\":[1152921504606846977],\"sealed\":[],\"version\":2}\n",
    "{\"chips\":[0],\"closed\":true,\"fired\":[1],\"over\":[],\"sealed\":[],\"version\":2}\n",
    "{\"chips\":[0],\"closed\":true,\"fired\":[1],\"over\":[],\"sealed\":[],\"prior\":[0],\"version\":2}\n",
    "{\"chips\":[0],\"closed\":true,\"fired\":[1],\"over\":[],\"prior\":[00],\"sealed\":[],\"version\":2}\n",
    "[0][1][][0][],\"version\":2}\n",
    ",\"version\":2}\n",
    "{\"chips\":[0],\"closed\":true,\"fired\":[1],\"over\":[],\"prior\":[0],\"sealed\":[],\"version\":1}\n",
];

#[test]
fn no_reports_of_stages(rt: HostRuntime) {
    for text in NO_STAGES {
        assert!(rt; is_refused(&rt, text.as_bytes()), "{text}");
    }
}

#[test]
fn each_cut_of_a_stage_is_none(rt: HostRuntime) {
    for end in 0..WENT_ON.len() {
        assert!(rt; is_refused(&rt, &WENT_ON[..end]), "the first {end} bytes");
    }
}
