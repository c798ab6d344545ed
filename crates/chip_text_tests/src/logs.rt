//! Logs, with expected values from outside.

use chip_file::{FileFault, Log, read_log_within};
use chip_graph::Limits;
use chip_log::{LogRow, Step, Stream};
use std::alloc::{AllocError, Global};

/// The log that a text means within the standard limits.
fn read(alloc: Global, text: &str) -> Result<Log, FileFault> {
    read_log_within(alloc, Limits::standard(), &mut text.as_bytes())
}

/// A row of a process.
fn row(process: u32, step: Step) -> LogRow {
    LogRow { process, step }
}

/// The basic or the control messages of a channel.
fn stream(channel: u32, is_control: bool) -> Stream {
    Stream {
        channel,
        is_control,
    }
}

/// Process 0 gives process 2 work, and claims the end once it heard that the work is done.
const WORK: &str =
    "process,kind,channel\n0,active,7\n0,send,3\n2,receive,3\n0,passive,18446744073709551615\n\
2,passive,7\n2,tell,4\n0,hear,4\n0,over,7\n";

#[test]
fn reads_each_kind_of_row(rt: HostRuntime) {
    let log = read(rt.alloc(), WORK).expect(&rt, "a log");
    let rows = [
        row(0, Step::Active),
        row(0, Step::Out(stream(3, false))),
        row(2, Step::In(stream(3, false))),
        row(0, Step::Passive),
        row(2, Step::Passive),
        row(2, Step::Out(stream(4, true))),
        row(0, Step::In(stream(4, true))),
        row(0, Step::Over),
    ];
    assert!(rt; log.rows.as_slice() == rows.as_slice());
    assert!(rt; log.sizes.processes == 3 && log.sizes.channels == 5);
    assert!(rt; log.beginners.as_slice() == [Some(true), None, Some(false)].as_slice());
}

#[test]
fn reads_a_log_of_no_rows(rt: HostRuntime) {
    let log = read(rt.alloc(), "process,kind,channel\n").expect(&rt, "a log");
    assert!(rt; log.rows.is_empty() && log.beginners.is_empty());
    assert!(rt; log.sizes.processes == 0 && log.sizes.channels == 0);
}

/// Rows without a fault.
const TAKEN: &[&str] = &[
    // An acknowledgement goes back on its channel's number, and work on another's.
    "0,active,0\n0,send,1\n1,receive,1\n1,tell,1\n0,hear,1\n1,send,0\n",
    // A control message may be sent by a passive process, and got before it is sent.
    "1,hear,1\n0,tell,1\n",
    // A process may send to itself, and work again.
    "0,active,0\n0,send,1\n0,passive,0\n0,receive,1\n0,send,1\n",
];

#[test]
fn takes_rows_without_a_fault(rt: HostRuntime) {
    for rows in TAKEN {
        let text = format!(in rt.alloc(); "process,kind,channel\n{rows}").expect(&rt, "memory");
        assert!(rt; read(rt.alloc(), &text).is_ok(), "{rows}");
    }
}

/// Rows with a fault. The first row with one decides, and of its faults the first in the order of the table.
const FAULTS: &[&(&str, FileFault)] = &[
    &("0,active\nx,y,z\n", FileFault::Row(0)),
    &("0,over,0\n0,Send,0\n", FileFault::Kind(1)),
    &("x,claim,x\n", FileFault::Kind(0)),
    &("8192,send,-1\n", FileFault::Number(0)),
    &("0,over,\n", FileFault::Number(0)),
    &("8191,over,0\n8192,over,0\n", FileFault::Vertex(1)),
    &("0,tell,131071\n0,tell,131072\n", FileFault::Vertex(1)),
    &("0,send,4294967296\n", FileFault::Vertex(0)),
    // Another process sends, or gets; and that is reported before a send while passive.
    &("0,tell,1\n1,hear,1\n1,tell,1\n", FileFault::End(2)),
    &("0,hear,1\n1,hear,1\n", FileFault::End(1)),
    &("0,active,0\n0,send,1\n1,send,1\n", FileFault::End(2)),
    // A send of a process that never was active, that is passive again, or that only heard something.
    &("0,send,1\n", FileFault::Passive(0)),
    &("0,active,0\n0,passive,0\n0,send,1\n", FileFault::Passive(2)),
    &("0,hear,1\n0,send,1\n", FileFault::Passive(1)),
    // A process that begins after its first row.
    &("0,over,0\n1,active,0\n0,active,0\n", FileFault::Woken(2)),
    &("0,active,0\n0,active,0\n", FileFault::Woken(1)),
];

#[test]
fn refuses_rows_with_a_fault(rt: HostRuntime) {
    for (rows, fault) in FAULTS {
        let text = format!(in rt.alloc(); "process,kind,channel\n{rows}").expect(&rt, "memory");
        assert!(rt; read(rt.alloc(), &text).err() == Some(*fault), "{rows}");
    }
}

#[test]
fn refuses_another_header(rt: HostRuntime) {
    let found = read(rt.alloc(), "process,channel,kind\n0,0,over\n").err();
    assert!(rt; found == Some(FileFault::Header));
}

/// A row of each channel within the standard limits, and so of each process.
fn row_of_every_channel(alloc: Global) -> Result<String, AllocError> {
    let mut text = String::new(alloc);
    text.push_str("process,kind,channel\n")?;
    for channel in 0..131_072u64 {
        let process = channel / 16;
        write!(text, "{process},tell,{channel}\n")?;
    }
    Ok(text)
}

#[test]
fn reads_a_row_of_every_channel(rt: HostRuntime) {
    let text = row_of_every_channel(rt.alloc()).expect(&rt, "memory");
    let log = read(rt.alloc(), &text).expect(&rt, "a log");
    assert!(rt; log.rows.len() == 131_072);
    assert!(rt; log.sizes.processes == 8_192 && log.sizes.channels == 131_072);
}

/// The sizes of a log of one row within the large limits, or its fault.
fn large_sizes(alloc: Global, row: &str) -> Result<(u32, u32), FileFault> {
    let text = format!(in alloc; "process,kind,channel\n{row}\n")?;
    let log = read_log_within(alloc, Limits::large(), &mut text.as_bytes())?;
    Ok((log.sizes.processes, log.sizes.channels))
}

#[test]
fn reads_larger_numbers_within_the_large_limits(rt: HostRuntime) {
    let past = Some(FileFault::Vertex(0));
    assert!(rt; large_sizes(rt.alloc(), "4194303,over,0") == Ok((4_194_304, 0)));
    assert!(rt; large_sizes(rt.alloc(), "4194304,over,0").err() == past);
    assert!(rt; large_sizes(rt.alloc(), "0,hear,16777215") == Ok((1, 16_777_216)));
    assert!(rt; large_sizes(rt.alloc(), "0,hear,16777216").err() == past);
}
