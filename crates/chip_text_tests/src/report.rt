//! Reports worked out by hand, and writers that are slow or fail. What holds for all inputs is in the contracts.

use crate::writers::Faulty;
use chip_graph::Limits;
use chip_report::{
    LastWrite, ReportFault, Sink, WriteFault, read_any_within, read_report, read_report_within,
    report, write_all_of, write_all_to,
};
use chip_sequence::Outcome;
use std::alloc::{AllocError, Global};
use std::process::Abort;

/// The report of the small triangle, played to its end.
const TRIANGLE: &str =
    "{\"chips\":[1,0,3],\"closed\":true,\"fired\":[2,1,0],\"over\":[],\"sealed\":[],\"version\":1}\n";

/// An outcome worked out by hand, and its report.
struct Worked {
    name: &'static str,
    fired: &'static [u64],
    chips: &'static [u64],
    over: &'static [u64],
    sealed: &'static [u64],
    text: &'static str,
}

/// A copy of some numbers.
fn numbers(rt: &(impl AllocGlobal + Abort), slice: &[u64]) -> Vec<u64> {
    Vec::from_slice(rt.alloc(), slice).expect(rt, "memory")
}

fn outcome_of(rt: &(impl AllocGlobal + Abort), worked: &Worked) -> Outcome {
    Outcome {
        fired: numbers(rt, worked.fired),
        chips: numbers(rt, worked.chips),
        over: numbers(rt, worked.over),
        sealed: numbers(rt, worked.sealed),
    }
}

/// Whether two outcomes are the same.
pub(crate) fn is_same(outcome: &Outcome, other: &Outcome) -> bool {
    outcome.fired.as_slice() == other.fired.as_slice()
        && outcome.chips.as_slice() == other.chips.as_slice()
        && outcome.over.as_slice() == other.over.as_slice()
        && outcome.sealed.as_slice() == other.sealed.as_slice()
}

/// Checks that the report of an outcome is this text, which is read back.
fn writes_and_reads(rt: &(impl AllocGlobal + Abort), worked: &Worked) {
    let name = worked.name;
    let outcome = outcome_of(rt, worked);
    let written = report(rt.alloc(), &outcome).expect(rt, name);
    assert!(rt;
        written.as_slice() == worked.text.as_bytes(),
        "{name} is written otherwise"
    );
    let read = read_report(rt.alloc(), worked.text.as_bytes()).expect(rt, name);
    assert!(rt; is_same(&read, &outcome), "{name} is read otherwise");
}

const LARGEST: u64 = 1_099_511_627_776;

const SMALL_TRIANGLE: Worked = Worked {
    name: "small triangle",
    fired: &[2, 1, 0],
    chips: &[1, 0, 3],
    over: &[],
    sealed: &[],
    text: TRIANGLE,
};

const WORKED: &[&Worked] = &[
    &Worked {
        name: "empty game",
        fired: &[0, 0, 0],
        chips: &[0, 0, 0],
        over: &[],
        sealed: &[],
        text: "{\"chips\":[0,0,0],\"closed\":true,\"fired\":[0,0,0],\"over\":[],\"sealed\":[],\"version\":1}\n",
    },
    &SMALL_TRIANGLE,
    &Worked {
        name: "limit of two",
        fired: &[2, 1, 0],
        chips: &[2, 0, 3],
        over: &[0],
        sealed: &[],
        text: "{\"chips\":[2,0,3],\"closed\":false,\"fired\":[2,1,0],\"over\":[0],\"sealed\":[],\"version\":1}\n",
    },
    &Worked {
        name: "sealed half way",
        fired: &[2, 1, 0],
        chips: &[1, 0, 3],
        over: &[],
        sealed: &[0],
        text: "{\"chips\":[1,0,3],\"closed\":false,\"fired\":[2,1,0],\"over\":[],\"sealed\":[0],\"version\":1}\n",
    },
    &Worked {
        name: "two lists",
        fired: &[2, 1, 4, 10],
        chips: &[1, 0, 3, 0],
        over: &[0, 3],
        sealed: &[1, 2],
        text: "{\"chips\":[1,0,3,0],\"closed\":false,\"fired\":[2,1,4,10],\"over\":[0,3],\"sealed\":[1,2],\"version\":1}\n",
    },
    &Worked {
        name: "largest numbers",
        fired: &[LARGEST],
        chips: &[LARGEST],
        over: &[],
        sealed: &[],
        text: "{\"chips\":[1099511627776],\"closed\":true,\"fired\":[1099511627776],\"over\":[],\"sealed\":[],\"version\":1}\n",
    },
];

#[test]
fn writes_and_reads_worked_reports(rt: HostRuntime) {
    for worked in WORKED {
        writes_and_reads(&rt, worked);
    }
}

/// Texts that are no reports.
const NO_REPORTS: &[&str] = &[
    "",
    "\n",
    "null\n",
    "00\n",
    "{}\n",
    // without its newline, with one more, with another end, with something before
    "{\"chips\":[1,0,3],\"closed\":true,\"fired\":[2,1,0],\"over\":[],\"sealed\":[],\"version\":1}",
    "{\"chips\":[1,0,3],\"closed\":true,\"fired\":[2,1,0],\"over\":[],\"sealed\":[],\"version\":1}\n\n",
    "{\"chips\":[1,0,3],\"closed\":true,\"fired\":[2,1,0],\"over\":[],\"sealed\":[],\"version\":1}\r\n",
    " {\"chips\":[1,0,3],\"closed\":true,\"fired\":[2,1,0],\"over\":[],\"sealed\":[],\"version\":1}\n",
    "\u{feff}{\"chips\":[1,0,3],\"closed\":true,\"fired\":[2,1,0],\"over\":[],\"sealed\":[],\"version\":1}\n",
    // a space, another spelling, another order, a member more or less, a member twice
    "{\"chips\":[1,0, 3],\"closed\":true,\"fired\":[2,1,0],\"over\":[],\"sealed\":[],\"version\":1}\n",
    "{\"\\u0063hips\":[1,0,3],\"closed\":true,\"fired\":[2,1,0],\"over\":[],\"sealed\":[],\"version\":1}\n",
    "{\"closed\":true,\"chips\":[1,0,3],\"fired\":[2,1,0],\"over\":[],\"sealed\":[],\"version\":1}\n",
    "{\"chips\":[1,0,3],\"closed\":true,\"fired\":[2,1,0],\"over\":[],\"sealed\":[],\"version\":1,\"x\":0}\n",
    "{\"chips\":[1,0,3],\"closed\":true,\"fired\":[2,1,0],\"over\":[],\"version\":1}\n",
    "{\"chips\":[9,0,3],\"chips\":[1,0,3],\"closed\":true,\"fired\":[2,1,0],\"over\":[],\"sealed\":[],\"version\":1}\n",
    // its lists alone, members of other names, without a bracket, with a list more, without an end
    "[1,0,3][2,1,0][][]\n",
    "{\"chips\":[1,0,3],\"closed\":true,\"fired\":[2,1,0],\"over\":[],\"sealed\":[]\n",
    "{\"chops\":[1,0,3],\"closed\":true,\"fired\":[2,1,0],\"over\":[],\"sealed\":[],\"version\":1}\n",
    "{\"fired\":[1,0,3],\"closed\":true,\"chips\":[2,1,0],\"over\":[],\"sealed\":[],\"version\":1}\n",
    "{\"chips\":1,0,3],\"closed\":true,\"fired\":[2,1,0],\"over\":[],\"sealed\":[],\"version\":1}\n",
    "{\"chips\":[1,0,3,\"closed\":true,\"fired\":[2,1,0],\"over\":[],\"sealed\":[],\"version\":1}\n",
    "{\"chips\":[[1,0,3]],\"closed\":true,\"fired\":[2,1,0],\"over\":[],\"sealed\":[],\"version\":1}\n",
    "{\"chips\":[1,0,3],\"closed\":true,\"fired\":[2,1,0],\"more\":[],\"over\":[],\"sealed\":[],\"version\":1}\n",
    // version 2
    "{\"chips\":[1,0,3],\"closed\":true,\"fired\":[2,1,0],\"over\":[],\"sealed\":[],\"version\":2}\n",
    "{\"chips\":[0,1,4],\"closed\":true,\"fired\":[1,0,0],\"over\":[],\"prior\":[2,1,0],\"sealed\":[],\"version\":2}\n",
    // `closed` that does not fit
    "{\"chips\":[1,0,3],\"closed\":false,\"fired\":[2,1,0],\"over\":[],\"sealed\":[],\"version\":1}\n",
    "{\"chips\":[2,0,3],\"closed\":true,\"fired\":[2,1,0],\"over\":[0],\"sealed\":[],\"version\":1}\n",
    // numbers that are spelled otherwise, or too large
    "{\"chips\":[01,0,3],\"closed\":true,\"fired\":[2,1,0],\"over\":[],\"sealed\":[],\"version\":1}\n",
    "{\"chips\":[+1,0,3],\"closed\":true,\"fired\":[2,1,0],\"over\":[],\"sealed\":[],\"version\":1}\n",
    "{\"chips\":[1,,3],\"closed\":true,\"fired\":[2,1,0],\"over\":[],\"sealed\":[],\"version\":1}\n",
    "{\"chips\":[1,0,3,],\"closed\":true,\"fired\":[2,1,0],\"over\":[],\"sealed\":[],\"version\":1}\n",
    "{\"chips\":[1,0,3],\"closed\":true,\"fired\":[2,1,0],\"over\":[,],\"sealed\":[],\"version\":1}\n",
    "{\"chips\":[1,0,18446744073709551616],\"closed\":true,\"fired\":[2,1,0],\"over\":[],\"sealed\":[],\"version\":1}\n",
    "{\"chips\":[1,00,3],\"closed\":true,\"fired\":[2,1,0],\"over\":[],\"sealed\":[],\"version\":1}\n",
    "{\"chips\":[1.0,0,3],\"closed\":true,\"fired\":[2,1,0],\"over\":[],\"sealed\":[],\"version\":1}\n",
    "{\"chips\":[1e0,0,3],\"closed\":true,\"fired\":[2,1,0],\"over\":[],\"sealed\":[],\"version\":1}\n",
    "{\"chips\":[1,-0,3],\"closed\":true,\"fired\":[2,1,0],\"over\":[],\"sealed\":[],\"version\":1}\n",
    "{\"chips\":[1,\"0\",3],\"closed\":true,\"fired\":[2,1,0],\"over\":[],\"sealed\":[],\"version\":1}\n",
    "{\"chips\":[1,0,1099511627777],\"closed\":true,\"fired\":[2,1,0],\"over\":[],\"sealed\":[],\"version\":1}\n",
    "{\"chips\":[1,0,3],\"closed\":true,\"fired\":[2,1099511627777,0],\"over\":[],\"sealed\":[],\"version\":1}\n",
    // lists of different lengths, and no vertex
    "{\"chips\":[1,0],\"closed\":true,\"fired\":[2,1,0],\"over\":[],\"sealed\":[],\"version\":1}\n",
    "{\"chips\":[],\"closed\":true,\"fired\":[],\"over\":[],\"sealed\":[],\"version\":1}\n",
    // halted vertices that do not ascend, are no vertices, or are in both lists
    "{\"chips\":[1,0,3],\"closed\":false,\"fired\":[2,1,0],\"over\":[1,0],\"sealed\":[],\"version\":1}\n",
    "{\"chips\":[1,0,3],\"closed\":false,\"fired\":[2,1,0],\"over\":[],\"sealed\":[1,1],\"version\":1}\n",
    "{\"chips\":[1,0,3],\"closed\":false,\"fired\":[2,1,0],\"over\":[3],\"sealed\":[],\"version\":1}\n",
    "{\"chips\":[1,0,3],\"closed\":false,\"fired\":[2,1,0],\"over\":[0,1],\"sealed\":[1,2],\"version\":1}\n",
];

/// Whether bytes are no report.
fn is_refused(rt: &(impl AllocGlobal + Abort), bytes: &[u8]) -> bool {
    matches!(read_report(rt.alloc(), bytes), Err(ReportFault::NotReport))
}

#[test]
fn refuses_what_is_no_report(rt: HostRuntime) {
    for text in NO_REPORTS {
        assert!(rt; is_refused(&rt, text.as_bytes()), "{text}");
    }
    assert!(rt; is_refused(&rt, b"\"\xff\"\n"), "no text");
    assert!(rt;
        is_refused(&rt, b"{\"chips\":[0],\xff\n"),
        "no text after a list"
    );
    assert!(rt; is_refused(&rt, &[b'['; 200]), "too deep");
}

#[test]
fn each_cut_of_a_report_is_none(rt: HostRuntime) {
    let text = TRIANGLE.as_bytes();
    for end in 0..text.len() {
        assert!(rt; is_refused(&rt, &text[..end]), "the first {end} bytes");
    }
}

/// Whether a text and a newline are the report of no outcome.
fn is_refused_as_a_line(rt: &(impl AllocGlobal + Abort), text: &[u8]) -> bool {
    let mut line = text.to_vec(rt.alloc()).expect(rt, "memory");
    line.push(b'\n').expect(rt, "memory");
    is_refused(rt, &line)
}

#[test]
fn each_cut_of_a_report_with_a_newline_is_none(rt: HostRuntime) {
    let text = TRIANGLE.as_bytes();
    for end in 0..text.len().saturating_sub(1) {
        assert!(rt;
            is_refused_as_a_line(&rt, &text[..end]),
            "the first {end} bytes"
        );
    }
}

/// The number of vertices of a wide report that are over.
const HALF: u64 = 2_048;

/// A report of `vertices` vertices with these chips and firings each. The first half is over, and all others but the
/// last were sealed.
pub(crate) fn wide(alloc: Global, vertices: u64, number: &str) -> Result<String, AllocError> {
    let mut text = String::new(alloc);
    text.push_str("{\"chips\":[")?;
    push_same(&mut text, vertices, number)?;
    text.push_str("],\"closed\":false,\"fired\":[")?;
    push_same(&mut text, vertices, number)?;
    text.push_str("],\"over\":[")?;
    push_vertices(&mut text, 0, HALF)?;
    text.push_str("],\"sealed\":[")?;
    push_vertices(&mut text, HALF, vertices.saturating_sub(1))?;
    text.push_str("],\"version\":1}\n")?;
    Ok(text)
}

fn push_vertices(text: &mut String, from: u64, end: u64) -> Result<(), AllocError> {
    for vertex in from..end {
        if vertex > from {
            text.push_str(",")?;
        }
        write!(text, "{vertex}")?;
    }
    Ok(())
}

fn push_same(text: &mut String, times: u64, number: &str) -> Result<(), AllocError> {
    for i in 0..times {
        if i > 0 {
            text.push_str(",")?;
        }
        text.push_str(number)?;
    }
    Ok(())
}

#[test]
fn the_widest_report(rt: HostRuntime) {
    let text = wide(rt.alloc(), 4_096, "1099511627776").expect(&rt, "memory");
    let read = read_report(rt.alloc(), text.as_bytes()).expect(&rt, "a report");
    assert!(rt; read.fired.len() == 4_096 && read.chips.len() == 4_096);
    assert!(rt; read.over.len() == 2_048 && read.sealed.len() == 2_047);
    assert!(rt; read.chips.last().copied() == Some(1 << 40));
    assert!(rt; read.over.last().copied() == Some(2_047));
    assert!(rt; read.sealed.last().copied() == Some(4_094));
}

#[test]
fn a_report_of_one_vertex_too_many(rt: HostRuntime) {
    let wider = wide(rt.alloc(), 4_097, "0").expect(&rt, "memory");
    assert!(rt; is_refused(&rt, wider.as_bytes()));
    let read = read_report_within(rt.alloc(), Limits::large(), wider.as_bytes());
    let read = read.expect(&rt, "a report");
    assert!(rt; read.fired.len() == 4_097);
    let stage = read_any_within(rt.alloc(), Limits::large(), wider.as_bytes());
    assert!(rt; stage.expect(&rt, "a stage").prior.len() == 4_097);
}

/// Writes bytes to a writer that fails at this write, or takes none there, and maybe from there on. The output ends
/// there, and the writer is not called again.
fn writes_up_to(
    rt: &(impl AllocGlobal + Abort),
    bytes: &[u8],
    index: usize,
    fails: bool,
    stays: bool,
) {
    let mut writer = Faulty::new(rt, index, fails, stays);
    let mut sink = Sink::new(&mut writer);
    let result = write_all_to(&mut sink, bytes);
    let (wanted, last) = if index >= bytes.len() {
        (Ok(()), LastWrite::Bytes)
    } else {
        let written = index as u64;
        let last = if fails {
            LastWrite::Failure
        } else {
            LastWrite::Nothing
        };
        (Err(WriteFault { written }), last)
    };
    assert!(rt; result == wanted, "write {index}");
    assert!(rt; sink.last_write() == last, "write {index}");
    let writes = bytes.len().min(index.saturating_add(1));
    assert!(rt; sink.writes() == writes as u64, "write {index}");
    assert!(rt; writer.writes == writes, "write {index}: no further write");
    assert!(rt;
        Some(writer.taken.as_slice()) == bytes.get(..index),
        "write {index}"
    );
}

#[test]
fn does_not_ask_again_after_a_failure(rt: HostRuntime) {
    let bytes = TRIANGLE.as_bytes();
    for index in 0..bytes.len() {
        writes_up_to(&rt, bytes, index, false, false);
        writes_up_to(&rt, bytes, index, true, false);
    }
}

#[test]
fn writes_nothing_where_there_is_nothing(rt: HostRuntime) {
    let mut writer = Faulty::new(&rt, 0, true, false);
    assert!(rt; write_all_of(&mut writer, b"") == Ok(()));
    assert!(rt; writer.writes == 0, "the writer is not asked");
}

#[test]
fn writes_an_output_above_one_mebibyte(rt: HostRuntime) {
    let bytes = vec![in rt.alloc(); b'7'; 1_048_577].expect(&rt, "memory");
    let mut taken = Vec::new(rt.alloc());
    let mut sink = Sink::new(&mut taken);
    assert!(rt; write_all_to(&mut sink, &bytes) == Ok(()));
    assert!(rt; sink.writes() == 1 && sink.last_write() == LastWrite::Bytes);
    assert!(rt; taken == bytes, "all of it");
    let mut taken = Vec::new(rt.alloc());
    assert!(rt; write_all_of(&mut taken, &bytes) == Ok(()));
    assert!(rt; taken == bytes, "all of it");
}

#[test]
fn writes_as_far_as_the_writer_goes(rt: HostRuntime) {
    let outcome = outcome_of(&rt, &SMALL_TRIANGLE);
    let bytes = report(rt.alloc(), &outcome).expect(&rt, "memory");
    assert!(rt; bytes.len() == 82 && bytes.as_slice() == TRIANGLE.as_bytes());
    for room in 0..=bytes.len() {
        writes_up_to(&rt, &bytes, room, false, true);
        writes_up_to(&rt, &bytes, room, true, true);
    }
}
