//! Inputs of the largest graph, and of the greatest length. A reader that gives up for want of memory meets its
//! contract. Only these tests tell it from one that reads.

use crate::file::{
    MAX_BYTES, Slow, are_largest_chips, largest_chips, largest_graph, read_largest_chips,
    read_largest_graph,
};
use crate::runs::{events_of, runs_of};
use chip_file::{FileFault, read_graph, read_schedule, read_trace, read_whole};
use chip_link::{Event, TraceRow};
use std::alloc::{AllocError, Global};

/// A row of each vertex of the largest graph, the last one first: a take from its root edge.
fn row_of_every_vertex(alloc: Global) -> Result<String, AllocError> {
    let mut text = String::new(alloc);
    text.push_str("vertex,kind,edge,count\n")?;
    for vertex in (0..4_096u64).rev() {
        let root_edge = vertex + 65_536;
        write!(text, "{vertex},take,{root_edge},{vertex}\n")?;
    }
    Ok(text)
}

/// What is read of that text.
fn read_run_of_every_vertex(alloc: Global) -> Result<Vec<Vec<TraceRow>>, FileFault> {
    let text = row_of_every_vertex(alloc)?;
    let graph = read_largest_graph(alloc)?;
    read_trace(alloc, &mut text.as_bytes(), &graph)
}

#[test]
fn reads_a_run_of_every_vertex(rt: HostRuntime) {
    let traces = read_run_of_every_vertex(rt.alloc()).expect(&rt, "runs");
    assert!(rt; traces.len() == 4_096);
    for (vertex, trace) in traces.iter().enumerate() {
        let count = vertex as u64;
        let edge = count.saturating_add(65_536);
        assert!(rt; trace.as_slice() == [TraceRow::Take { edge, count }].as_slice());
    }
}

/// An event at each edge of the largest graph, the root's among them.
fn event_at_every_edge(alloc: Global) -> Result<String, AllocError> {
    let mut text = String::new(alloc);
    text.push_str("event,at,count\n")?;
    for edge in 0..69_632u64 {
        write!(text, "settle,{edge},0\n")?;
    }
    Ok(text)
}

/// What is read of that text.
fn read_event_at_every_edge(alloc: Global) -> Result<Vec<Event>, FileFault> {
    let text = event_at_every_edge(alloc)?;
    let graph = read_largest_graph(alloc)?;
    read_schedule(alloc, &mut text.as_bytes(), &graph)
}

#[test]
fn reads_an_event_at_every_edge(rt: HostRuntime) {
    let events = read_event_at_every_edge(rt.alloc()).expect(&rt, "events");
    assert!(rt; events.len() == 69_632);
    for (edge, event) in events.iter().enumerate() {
        assert!(rt; *event == Event::Settle(edge as u64));
    }
}

/// The text followed by copies of this byte, 16,777,216 bytes in all.
fn filled(mut text: String, byte: char) -> Result<String, AllocError> {
    for _ in text.len()..MAX_BYTES {
        text.push(byte)?;
    }
    Ok(text)
}

/// A header, and the same row `count` times.
fn rows(alloc: Global, header: &str, row: &str, count: u64) -> Result<String, AllocError> {
    let mut text = String::new(alloc);
    text.push_str(header)?;
    for _ in 0..count {
        text.push_str(row)?;
    }
    Ok(text)
}

/// A header, and the same row `count` times, with empty lines up to 16,777,216 bytes.
fn longest_rows(alloc: Global, header: &str, row: &str, count: u64) -> Result<String, AllocError> {
    let text = rows(alloc, header, row, count)?;
    filled(text, '\n')
}

#[test]
fn the_longest_graph(rt: HostRuntime) {
    let text = filled(largest_graph(rt.alloc()).expect(&rt, "memory"), ' ').expect(&rt, "memory");
    let graph = read_graph(rt.alloc(), &mut text.as_bytes()).expect(&rt, "a graph");
    assert!(rt; text.len() == MAX_BYTES && graph.edges().len() == 65_536);
}

#[test]
fn the_longest_chips(rt: HostRuntime) {
    let text = filled(largest_chips(rt.alloc()).expect(&rt, "memory"), '\n').expect(&rt, "memory");
    let chips = read_largest_chips(rt.alloc(), &text).expect(&rt, "chips");
    assert!(rt; text.len() == MAX_BYTES && are_largest_chips(&chips));
}

#[test]
fn the_longest_schedule(rt: HostRuntime) {
    let text = longest_rows(rt.alloc(), "event,at,count\n", "end,0,0\n", 2_097_150).expect(
        &rt, "memory",
    );
    let events = events_of(rt.alloc(), text.as_bytes()).expect(&rt, "events");
    assert!(rt; text.len() == MAX_BYTES && events.len() == 2_097_150);
}

#[test]
fn the_longest_run(rt: HostRuntime) {
    let text = longest_rows(
        rt.alloc(),
        "vertex,kind,edge,count\n",
        "1,fire,0,1\n",
        1_525_199,
    )
    .expect(&rt, "memory");
    let traces = runs_of(rt.alloc(), text.as_bytes()).expect(&rt, "runs");
    assert!(rt; text.len() == MAX_BYTES && traces.len() == 3 && traces[1].len() == 1_525_199);
}

#[test]
fn the_longest_input_byte_by_byte(rt: HostRuntime) {
    let text = filled(String::new(rt.alloc()), 'x').expect(&rt, "memory");
    let mut slow = Slow::new(text.as_bytes(), None);
    let bytes = read_whole(rt.alloc(), &mut slow).expect(&rt, "a whole read");
    assert!(rt; bytes.len() == MAX_BYTES && bytes.as_slice() == text.as_bytes());
}
