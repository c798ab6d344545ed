//! Worked files, with expected values from outside, and readers that are slow or fail.

ghost use Rattle.chip_file.specs.Source.{IsFresh};

use chip_file::{
    FileFault, LastRead, Source, chips_of_source, chips_of_text, drops_of_text, graph_of_source,
    graph_of_text, guess_of_text, log_of_source, read_chips, read_chips_within, read_graph,
    read_graph_within, read_schedule_within, read_source, read_trace_within, read_whole,
    read_whole_within, schedule_of_source, schedule_of_text, trace_of_source, trace_of_text,
};
use chip_graph::{Edge, Graph, GraphFault, Limits};
use std::alloc::{AllocError, Global};
use std::io;
use std::io::{ErrorKind, Read};

/// The most bytes of an input within the standard limits.
pub(crate) const MAX_BYTES: usize = 16_777_216;

/// The triangle: its root edges are 4, 5 and 6.
pub(crate) const TRIANGLE: &str =
    "{\"edges\":[[0,1,1],[0,2,1],[1,0,1],[1,2,1]],\"sink\":2,\"version\":1,\"vertices\":3}";

/// The graph that the triangle's text means.
pub(crate) fn triangle(alloc: Global) -> Result<Graph, FileFault> {
    read_graph(alloc, &mut TRIANGLE.as_bytes())
}

/// A reader that gives one byte at each read, and may fail at one of them.
#[derive(Drop)]
pub(crate) struct Slow<'t> {
    text: &'t [u8],
    reads: usize,
    fails_at: Option<usize>,
}

impl Slow<'_> {
    pub(crate) fn new(text: &[u8], fails_at: Option<usize>) -> Slow<'_> {
        Slow {
            text,
            reads: 0,
            fails_at,
        }
    }
}

impl Read for Slow<'_> {
    fn read(&mut self, buf: &mut [u8]) -> io::Result<usize> {
        let read = self.reads;
        self.reads = read.saturating_add(1);
        if self.fails_at == Some(read) {
            return Err(io::Error::from(ErrorKind::Interrupted));
        }
        let count = self.text.len().min(buf.len()).min(1);
        buf[..count].copy_from_slice(&self.text[..count]);
        self.text = &self.text[count..];
        Ok(count)
    }
}

/// A reader that never ends, and counts its reads, of one byte each.
#[derive(Drop)]
struct Endless(u64);

impl Read for Endless {
    fn read(&mut self, buf: &mut [u8]) -> io::Result<usize> {
        self.0 = self.0.saturating_add(1);
        Ok(buf.len().min(1))
    }
}

/// A single edge.
const fn edge(tail: u64, head: u64) -> Edge {
    Edge {
        tail,
        head,
        mult: 1,
    }
}

#[test]
fn reads_the_triangle(rt: HostRuntime) {
    let graph = triangle(rt.alloc()).expect(&rt, "a graph");
    let edges = [edge(0, 1), edge(0, 2), edge(1, 0), edge(1, 2)];
    assert!(rt; graph.vertices() == 3 && graph.sink() == 2);
    assert!(rt; graph.edges() == edges.as_slice());
}

/// Texts of graphs, each with the first thing wrong with it, if anything.
const GRAPHS: &[&(&str, Option<FileFault>)] = &[
    &(TRIANGLE, None),
    &(
        "{\"edges\":[],\"sink\":0,\"version\":1,\"vertices\":1}",
        None,
    ),
    &(
        " {\"sink\":7, \"vertices\":1,\"edges\":[],\"version\":1,\"sink\":0}\r\n",
        None,
    ),
    &(
        "{\"edges\":[[0,1,1],[1,0,1],[2,3,1]],\"sink\":3,\"version\":1,\"vertices\":4}",
        Some(FileFault::Graph(GraphFault::Unreached(0))),
    ),
    &(
        "{\"edges\":[[1,1,1]],\"sink\":2,\"version\":1,\"vertices\":3}",
        Some(FileFault::Graph(GraphFault::Loop(0))),
    ),
    &(
        "{\"edges\":[[2,2,1]],\"sink\":2,\"version\":1,\"vertices\":3}",
        Some(FileFault::Graph(GraphFault::Loop(0))),
    ),
    &(
        "{\"edges\":[],\"sink\":0,\"version\":1,\"vertices\":0}",
        Some(FileFault::Graph(GraphFault::Vertices)),
    ),
    &(
        "{\"edges\":[],\"sink\":0,\"version\":2,\"vertices\":0}",
        Some(FileFault::Version),
    ),
    &(
        "{\"edges\":[],\"sink\":0,\"version\":1,\"vertices\":1,\"x\":0}",
        Some(FileFault::Shape),
    ),
    &(
        "{\"edges\":[],\"sink\":0,\"version\":1}",
        Some(FileFault::Shape),
    ),
    &(
        "{\"edges\":[[0,1,1.5]],\"sink\":1,\"version\":2,\"vertices\":2}",
        Some(FileFault::Shape),
    ),
    &(
        "{\"edges\":[[0,1]],\"sink\":1,\"version\":1,\"vertices\":2}",
        Some(FileFault::Shape),
    ),
    &(
        "{\"edges\":[[0,1,1,1]],\"sink\":1,\"version\":1,\"vertices\":2}",
        Some(FileFault::Shape),
    ),
    &(
        "{\"edges\":[],\"sink\":-0,\"version\":1,\"vertices\":1}",
        Some(FileFault::Shape),
    ),
    &(
        "{\"edges\":[],\"sink\":0,\"version\":1,\"vertices\":1e0}",
        Some(FileFault::Shape),
    ),
    &(
        "{\"edges\":[],\"sink\":18446744073709551616,\"version\":1,\"vertices\":1}",
        Some(FileFault::Shape),
    ),
    &(
        "{\"edges\":[],\"sink\":18446744073709551615,\"version\":1,\"vertices\":1}",
        Some(FileFault::Graph(GraphFault::Sink)),
    ),
    // These have their edges first, and something else in or after them.
    &(
        " { \"edges\": [ [0, 1,\t1],\n[0,1,2] ] , \"sink\":1,\"version\":1,\"vertices\":2 } ",
        None,
    ),
    &(
        "{\"edges\":[[0,1,1]],\"edges\":[[1,0,1]],\"sink\":0,\"version\":1,\"vertices\":2}",
        None,
    ),
    &(
        "{\"edges\":[[0,01,1]],\"sink\":1,\"version\":1,\"vertices\":2}",
        Some(FileFault::NotJson),
    ),
    &(
        "{\"edges\":[[0,1,1],],\"sink\":1,\"version\":1,\"vertices\":2}",
        Some(FileFault::NotJson),
    ),
    &(
        "{\"edges\":[[0,1,1]],\"sink\":1,\"version\":1,\"vertices\":2}]",
        Some(FileFault::NotJson),
    ),
    &(
        "{\"edges\":[[0,1,18446744073709551616]],\"sink\":1,\"version\":1,\"vertices\":2}",
        Some(FileFault::Shape),
    ),
    &("{\"edges\":[[0,1,1]],}", Some(FileFault::NotJson)),
    &("{\"edges\":[[0,1,1]]}", Some(FileFault::Shape)),
    &("[]", Some(FileFault::Shape)),
    &("", Some(FileFault::NotJson)),
    &("{}}", Some(FileFault::NotJson)),
    &("\u{feff}{}", Some(FileFault::NotJson)),
    &("1e400", Some(FileFault::NotJson)),
    &("1e300", Some(FileFault::Shape)),
];

/// The first thing wrong with a text of a graph, if anything.
fn fault_of_graph(alloc: Global, text: &[u8]) -> Option<FileFault> {
    graph_of_text(alloc, Limits::standard(), text).err()
}

#[test]
fn names_the_first_fault_of_a_graph(rt: HostRuntime) {
    for (text, fault) in GRAPHS {
        let found = fault_of_graph(rt.alloc(), text.as_bytes());
        assert!(rt; found == *fault, "{text}: {found:?}");
    }
}

#[test]
fn bytes_that_are_no_json(rt: HostRuntime) {
    let no_text = fault_of_graph(rt.alloc(), &[b'[', 0xff, b']']);
    assert!(rt; no_text == Some(FileFault::NotJson));
    let too_deep = fault_of_graph(rt.alloc(), &[b'['; 200]);
    assert!(rt; too_deep == Some(FileFault::NotJson));
}

#[test]
fn each_cut_of_the_triangle_is_no_json(rt: HostRuntime) {
    let text = TRIANGLE.as_bytes();
    for end in 0..text.len() {
        let found = fault_of_graph(rt.alloc(), &text[..end]);
        assert!(rt;
            found == Some(FileFault::NotJson),
            "the first {end} bytes: {found:?}"
        );
    }
}

/// Texts of chips on three vertices, each with what it means.
const CHIPS: &[&(&str, [u64; 3])] = &[
    &("vertex,chips\n", [0, 0, 0]),
    &("vertex,chips\n00,04\n", [4, 0, 0]),
    &("vertex,chips\r\n2,7\r\n\r\n0,4", [4, 0, 7]),
    &("\"vertex\",\"chips\"\n\"1\",\"5\"\n", [0, 5, 0]),
    &("\u{feff}vertex,chips\n1,1099511627776\n", [0, 1 << 40, 0]),
    &("vertex,chips\n1,\"2", [0, 2, 0]),
    // Quotes round a part of a field, and round nothing; lines that end in carriage returns.
    &("vertex,chips\r\"0\"2,3\r0,4\r", [4, 0, 3]),
    &("vertex,chips\n\"\"1,\"\"4\n", [0, 4, 0]),
    &("\u{feff}\"vertex\",chips\r\n\"0\",4\n\r1,2\n\r", [4, 2, 0]),
    &("vertex,chips\n1,00000000000000000002\n", [0, 2, 0]),
];

/// The chips on three vertices that a text means.
fn chips_of(alloc: Global, text: &[u8]) -> Result<Vec<u64>, FileFault> {
    chips_of_text(alloc, text, 3)
}

#[test]
fn reads_chips(rt: HostRuntime) {
    for (text, chips) in CHIPS {
        let read = chips_of(rt.alloc(), text.as_bytes()).expect(&rt, text);
        assert!(rt; read.as_slice() == chips.as_slice(), "{text}");
    }
}

/// Texts that mean no chips on three vertices, each with the first thing wrong with it.
const WRONG_CHIPS: &[&(&str, FileFault)] = &[
    &("", FileFault::Header),
    &("0,4\n", FileFault::Header),
    &("vertex,chips,more\n", FileFault::Header),
    &("vertex\n", FileFault::Header),
    &("vertex, chips\n", FileFault::Header),
    &("chips,vertex\n", FileFault::Header),
    &("vertex,chips\n0,4\n0,1\n", FileFault::Repeated(1)),
    &("vertex,chips\n0,-1\n", FileFault::Number(0)),
    &("vertex,chips\n0,+1\n", FileFault::Number(0)),
    &("vertex,chips\n0,\n", FileFault::Number(0)),
    &("vertex,chips\n0, 1\n", FileFault::Number(0)),
    &("vertex,chips\n0,1e3\n", FileFault::Number(0)),
    &(
        "vertex,chips\n0,18446744073709551616\n",
        FileFault::Number(0),
    ),
    &(
        "vertex,chips\n0,000000000000000000001\n",
        FileFault::Number(0),
    ),
    &("vertex,chips\n0,4\nvertex,chips\n", FileFault::Number(1)),
    &("vertex,chips\n3,x\n", FileFault::Number(0)),
    &("vertex,chips\n3,1\n", FileFault::Vertex(0)),
    &(
        "vertex,chips\n18446744073709551615,1\n",
        FileFault::Vertex(0),
    ),
    &("vertex,chips\n0\n", FileFault::Row(0)),
    &("vertex,chips\n1,1\n0,1,1\n", FileFault::Row(1)),
    // The end of a line in quotes ends no row, and a comma there separates no fields.
    &("vertex,chips\n0,\"1\n2\"\n1,1\n", FileFault::Number(0)),
    &("vertex,chips\n0,1\r1,\"1\r", FileFault::Number(1)),
    &("vertex,chips\n0,\",\"\n", FileFault::Number(0)),
    // Two quotes within quotes are one, and the field goes on after them.
    &("vertex,chips\n\"0\"\"\n\",1\n", FileFault::Number(0)),
    // A quote in a field that does not begin with one opens none.
    &("vertex,chips\n0\"\n1,1\n\"", FileFault::Row(0)),
    // A byte order mark is one only at the start.
    &("vertex,chips\n0,1\n\u{feff}1,1\n", FileFault::Number(1)),
    &("vertex,chips\n0,1\r\n,,,,,\"", FileFault::Row(1)),
    &("vertex,chips\n0,1099511627777\n", FileFault::Total),
    &("vertex,chips\n0,1099511627776\n1,1\n", FileFault::Total),
    &(
        "vertex,chips\n0,18446744073709551615\n1,1\n5,5\n",
        FileFault::Vertex(2),
    ),
];

#[test]
fn names_the_first_fault_of_chips(rt: HostRuntime) {
    for (text, fault) in WRONG_CHIPS {
        let found = chips_of(rt.alloc(), text.as_bytes()).err();
        assert!(rt; found.as_ref() == Some(fault), "{text}: {found:?}");
    }
}

#[test]
fn chips_that_are_no_text(rt: HostRuntime) {
    let found = chips_of(rt.alloc(), &[0xff, b',']).err();
    assert!(rt; found == Some(FileFault::Header));
}

/// Drops on three vertices, in the order of the file.
#[test]
fn reads_drops(rt: HostRuntime) {
    let text = "\u{feff}vertex,chips\n2,1\n\n0,18446744073709551615\r\n\"2\",0";
    let read = drops_of_text(rt.alloc(), text.as_bytes(), 3).expect(&rt, text);
    assert!(rt; read.as_slice() == [(2, 1), (0, u64::MAX), (2, 0)].as_slice());
}

/// Texts that are no drops on three vertices, each with the first thing wrong with it.
const WRONG_DROPS: &[&(&str, FileFault)] = &[
    &("", FileFault::Header),
    &("vertex,fired\n", FileFault::Header),
    &("vertex,chips\n0,1\n0,1,1\n3,1\n", FileFault::Row(1)),
    &("vertex,chips\n3,\n", FileFault::Number(0)),
    &("vertex,chips\n0,1\n0,1\n3,1\n", FileFault::Vertex(2)),
];

#[test]
fn names_the_first_fault_of_drops(rt: HostRuntime) {
    for (text, fault) in WRONG_DROPS {
        let found = drops_of_text(rt.alloc(), text.as_bytes(), 3).err();
        assert!(rt; found.as_ref() == Some(fault), "{text}: {found:?}");
    }
}

#[test]
fn reads_a_guess(rt: HostRuntime) {
    let text = "vertex,fired\r\n2,18446744073709551615\n0,02";
    let read = guess_of_text(rt.alloc(), text.as_bytes(), 3).expect(&rt, text);
    assert!(rt; read.as_slice() == [2, 0, u64::MAX].as_slice());
}

/// Texts that are no guess for three vertices, each with the first thing wrong with it.
const WRONG_GUESSES: &[&(&str, FileFault)] = &[
    &("", FileFault::Header),
    &("vertex,chips\n", FileFault::Header),
    &("vertex,fired\n0\n3,1\n", FileFault::Row(0)),
    &("vertex,fired\n3,-1\n", FileFault::Number(0)),
    &("vertex,fired\n3,1\n", FileFault::Vertex(0)),
    &("vertex,fired\n1,0\n1,0\n3,1\n", FileFault::Repeated(1)),
];

#[test]
fn names_the_first_fault_of_a_guess(rt: HostRuntime) {
    for (text, fault) in WRONG_GUESSES {
        let found = guess_of_text(rt.alloc(), text.as_bytes(), 3).err();
        assert!(rt; found.as_ref() == Some(fault), "{text}: {found:?}");
    }
}

#[test]
fn a_slow_reader_gives_the_same_graph(rt: HostRuntime) {
    let graph = read_graph(rt.alloc(), &mut Slow::new(TRIANGLE.as_bytes(), None)).expect(
        &rt, "a graph",
    );
    assert!(rt; graph.vertices() == 3 && graph.edges().len() == 4);
}

#[test]
fn a_slow_reader_gives_the_same_chips(rt: HostRuntime) {
    let rows = b"vertex,chips\n2,3\n0,1\n";
    let chips = read_chips(rt.alloc(), &mut Slow::new(rows, None), 3).expect(&rt, "chips");
    assert!(rt; chips.as_slice() == [1, 0, 3].as_slice());
}

#[test]
fn a_slow_reader_is_read_to_its_end(rt: HostRuntime) {
    let text = TRIANGLE.as_bytes();
    let mut slow = Slow::new(text, None);
    let read = read_whole(rt.alloc(), &mut slow).expect(&rt, "a whole read");
    assert!(rt; read.as_slice() == text);
    assert!(rt; slow.reads == text.len().saturating_add(1));
}

#[test]
fn a_source_reports_the_reads_to_the_end(rt: HostRuntime) {
    let mut slow = Slow::new(b"abc", None);
    let mut source = Source::new(&mut slow);
    assert!(rt; source.reads() == 0 && source.last_read() == LastRead::NotYet);
    let read = read_source(rt.alloc(), Limits::standard(), &mut source).expect(&rt, "a whole read");
    assert!(rt; read.as_slice() == b"abc".as_slice());
    assert!(rt; source.reads() == 4 && source.last_read() == LastRead::End);
    assert!(rt; slow.reads == 4);
}

#[test]
fn a_source_reports_the_reads_to_a_failed_one(rt: HostRuntime) {
    let mut slow = Slow::new(b"abc", Some(2));
    let mut source = Source::new(&mut slow);
    let found = read_source(rt.alloc(), Limits::standard(), &mut source).err();
    assert!(rt; found == Some(FileFault::Read));
    assert!(rt; source.reads() == 3 && source.last_read() == LastRead::Failure);
    assert!(rt; slow.reads == 3);
}

/// Whether a source of `bytes` bytes counted one read for each, and its last read ended so.
fn has_counted(source: &Source<'_, Slow<'_>>, bytes: usize, last: LastRead) -> bool {
    source.reads() == (bytes as u64).saturating_add(1) && source.last_read() == last
}

/// A text of each kind, for the triangle.
const TEXTS: [&str; 5] = [
    TRIANGLE,
    "vertex,chips\n2,3\n",
    "event,at,count\nend,0,0\n",
    "vertex,kind,edge,count\n0,fire,0,1\n",
    "process,kind,channel\n0,over,0\n",
];

/// The result of reading a source as this kind of text: none, or its fault.
fn fault_of_source(
    alloc: Global,
    source: &mut Source<'_, Slow<'_>>,
    kind: usize,
) -> Option<FileFault>
    requires { IsFresh source.old }
{
    let limits = Limits::standard();
    let graph = match triangle(alloc) {
        Ok(graph) => graph,
        Err(fault) => return Some(fault),
    };
    match kind {
        0 => graph_of_source(alloc, limits, source).err(),
        1 => chips_of_source(alloc, limits, source, 3).err(),
        2 => schedule_of_source(alloc, limits, source, &graph).err(),
        3 => trace_of_source(alloc, limits, source, &graph).err(),
        _ => log_of_source(alloc, limits, source).err(),
    }
}

#[test]
fn a_source_reports_the_reads_of_each_kind_of_text(rt: HostRuntime) {
    for (kind, text) in TEXTS.iter().enumerate() {
        let mut slow = Slow::new(text.as_bytes(), None);
        let mut source = Source::new(&mut slow);
        let found = fault_of_source(rt.alloc(), &mut source, kind);
        assert!(rt;
            found == None && has_counted(&source, text.len(), LastRead::End),
            "{text}"
        );
    }
}

#[test]
fn a_source_reports_a_failed_read_of_each_kind_of_text(rt: HostRuntime) {
    for (kind, text) in TEXTS.iter().enumerate() {
        let mut slow = Slow::new(text.as_bytes(), Some(9));
        let mut source = Source::new(&mut slow);
        let found = fault_of_source(rt.alloc(), &mut source, kind);
        assert!(rt;
            found == Some(FileFault::Read) && has_counted(&source, 9, LastRead::Failure),
            "{text}"
        );
    }
}

#[test]
fn texts_of_events_and_runs(rt: HostRuntime) {
    let graph = triangle(rt.alloc()).expect(&rt, "a graph");
    let events = schedule_of_text(rt.alloc(), TEXTS[2].as_bytes(), &graph).expect(&rt, "events");
    let runs = trace_of_text(rt.alloc(), TEXTS[3].as_bytes(), &graph).expect(&rt, "runs");
    assert!(rt; events.len() == 1 && runs.len() == 3 && runs[0].len() == 1);
}

#[test]
fn a_failing_read_of_a_graph_is_reported(rt: HostRuntime) {
    for read in 0..=TRIANGLE.len() {
        let mut slow = Slow::new(TRIANGLE.as_bytes(), Some(read));
        let found = read_graph(rt.alloc(), &mut slow).err();
        assert!(rt; found == Some(FileFault::Read), "{found:?}");
        assert!(rt; slow.reads == read.saturating_add(1), "no further read");
    }
}

#[test]
fn a_failing_read_of_chips_is_reported(rt: HostRuntime) {
    let rows = b"vertex,chips\n2\n3,3\n";
    for read in 0..=rows.len() {
        let mut slow = Slow::new(rows, Some(read));
        let found = read_chips(rt.alloc(), &mut slow, 3).err();
        assert!(rt; found == Some(FileFault::Read), "{found:?}");
        assert!(rt; slow.reads == read.saturating_add(1), "no further read");
    }
}

/// `count` spaces.
pub(crate) fn spaces(alloc: Global, count: usize) -> Result<Vec<u8>, AllocError> {
    vec![in alloc; b' '; count]
}

#[test]
fn the_longest_input(rt: HostRuntime) {
    let spaces = spaces(rt.alloc(), MAX_BYTES).expect(&rt, "memory");
    let found = fault_of_graph(rt.alloc(), spaces.as_slice());
    assert!(rt; found == Some(FileFault::NotJson));
}

#[test]
fn a_graph_of_one_byte_too_many(rt: HostRuntime) {
    let spaces = spaces(rt.alloc(), MAX_BYTES + 1).expect(&rt, "memory");
    let found = read_graph(rt.alloc(), &mut spaces.as_slice()).err();
    assert!(rt; found == Some(FileFault::TooLong));
}

#[test]
fn chips_of_one_byte_too_many(rt: HostRuntime) {
    let spaces = spaces(rt.alloc(), MAX_BYTES + 1).expect(&rt, "memory");
    let found = read_chips(rt.alloc(), &mut spaces.as_slice(), 3).err();
    assert!(rt; found == Some(FileFault::TooLong));
}

#[test]
fn an_input_that_never_ends(rt: HostRuntime) {
    let mut endless = Endless(0);
    let found = read_whole(rt.alloc(), &mut endless).err();
    assert!(rt; found == Some(FileFault::TooLong));
    assert!(rt; endless.0 == 16_777_217, "one read more than bytes");
}

/// A file of the largest graph: 4,096 vertices in a row, 16 edges from each to the one before it, and 32 from the last.
pub(crate) fn largest_graph(alloc: Global) -> Result<String, AllocError> {
    let mut text = String::new(alloc);
    text.push_str("{\"version\":1,\"vertices\":4096,\"sink\":0,\"edges\":[[1,0,1]")?;
    for i in 1..65_536u64 {
        let head = (i / 16).min(4_094);
        let tail = head + 1;
        write!(text, ",[{tail},{head},1]")?;
    }
    text.push_str("]}\n")?;
    Ok(text)
}

/// What is read of the largest graph: 4,096 vertices and 65,536 edges.
pub(crate) fn read_largest_graph(alloc: Global) -> Result<Graph, FileFault> {
    let text = largest_graph(alloc)?;
    read_graph(alloc, &mut text.as_bytes())
}

#[test]
fn reads_the_largest_graph(rt: HostRuntime) {
    let graph = read_largest_graph(rt.alloc()).expect(&rt, "a graph");
    assert!(rt; graph.vertices() == 4_096 && graph.edges().len() == 65_536);
    assert!(rt; graph.edges().last() == Some(&edge(4_095, 4_094)));
}

/// Chips for each of 4,096 vertices, a total of 2^40.
pub(crate) fn largest_chips(alloc: Global) -> Result<String, AllocError> {
    let mut text = String::new(alloc);
    text.push_str("vertex,chips\n")?;
    for vertex in 0..4_096u64 {
        write!(text, "{vertex},268435456\n")?;
    }
    Ok(text)
}

/// What is read of a text of chips for each of 4,096 vertices.
pub(crate) fn read_largest_chips(alloc: Global, text: &str) -> Result<Vec<u64>, FileFault> {
    read_chips(alloc, &mut text.as_bytes(), 4_096)
}

/// Whether each of 4,096 vertices has 2^28 chips.
pub(crate) fn are_largest_chips(chips: &[u64]) -> bool {
    chips.len() == 4_096 && chips.iter().all(|count| *count == 1 << 28)
}

#[test]
fn reads_chips_of_every_vertex(rt: HostRuntime) {
    let text = largest_chips(rt.alloc()).expect(&rt, "memory");
    let chips = read_largest_chips(rt.alloc(), &text).expect(&rt, "chips");
    assert!(rt; are_largest_chips(&chips));
}

/// Limits that the triangle's text just meets, less this number of vertices, edges and bytes.
fn limits_less(vertices: u64, edges: u64, bytes: u64) -> Option<Limits> {
    let length = TRIANGLE.len() as u64;
    Limits::new(
        3u64.saturating_sub(vertices),
        4u64.saturating_sub(edges),
        length.saturating_sub(bytes),
    )
}

/// What is wrong with the triangle's text by such limits, if anything.
fn fault_within(alloc: Global, vertices: u64, edges: u64, bytes: u64) -> Option<FileFault> {
    let limits = limits_less(vertices, edges, bytes)?;
    read_graph_within(alloc, limits, &mut TRIANGLE.as_bytes()).err()
}

#[test]
fn each_limit_is_met(rt: HostRuntime) {
    let alloc = rt.alloc();
    assert!(rt; limits_less(0, 0, 0).is_some() && fault_within(alloc, 0, 0, 0) == None);
    let vertices = fault_within(alloc, 1, 0, 0);
    assert!(rt; vertices == Some(FileFault::Graph(GraphFault::Vertices)));
    let edges = fault_within(alloc, 0, 1, 0);
    assert!(rt; edges == Some(FileFault::Graph(GraphFault::EdgeCount)));
    assert!(rt; fault_within(alloc, 0, 0, 1) == Some(FileFault::TooLong));
}

/// What is wrong with chips within `bytes` bytes, if anything.
fn fault_of_chips_within(alloc: Global, bytes: u64) -> Option<FileFault> {
    let limits = Limits::new(3, 4, bytes)?;
    read_chips_within(alloc, limits, &mut "vertex,chips\n0,4\n".as_bytes(), 3).err()
}

#[test]
fn chips_meet_their_limit(rt: HostRuntime) {
    assert!(rt; fault_of_chips_within(rt.alloc(), 17) == None);
    assert!(rt; fault_of_chips_within(rt.alloc(), 16) == Some(FileFault::TooLong));
}

/// What is wrong with a schedule and with a run of the triangle within `bytes` bytes, if anything.
fn faults_of_rows_within(
    alloc: Global,
    graph: &Graph,
    bytes: u64,
) -> Option<[Option<FileFault>; 2]> {
    let limits = Limits::new(3, 4, bytes)?;
    Some([
        read_schedule_within(alloc, limits, &mut TEXTS[2].as_bytes(), graph).err(),
        read_trace_within(alloc, limits, &mut TEXTS[3].as_bytes(), graph).err(),
    ])
}

#[test]
fn schedules_and_runs_meet_their_limit(rt: HostRuntime) {
    let graph = triangle(rt.alloc()).expect(&rt, "a graph");
    let long = Some(FileFault::TooLong);
    assert!(rt; faults_of_rows_within(rt.alloc(), &graph, 34) == Some([None, None]));
    assert!(rt; faults_of_rows_within(rt.alloc(), &graph, 33) == Some([None, long]));
    assert!(rt; faults_of_rows_within(rt.alloc(), &graph, 22) == Some([long, long]));
}

#[test]
fn an_input_past_the_standard_limit(rt: HostRuntime) {
    let spaces = spaces(rt.alloc(), MAX_BYTES + 1).expect(&rt, "memory");
    let read = read_whole_within(rt.alloc(), Limits::large(), &mut spaces.as_slice());
    let read = read.expect(&rt, "a whole read");
    assert!(rt; read.len() == MAX_BYTES + 1);
}
