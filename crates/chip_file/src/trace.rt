//! Recorded runs as rows of text.

ghost use Rattle.std.specs.Prelude.{◌≡◌, [], length, map, replicate, Some, None, IfOk, IfErr};
ghost use Rattle.csv.specs.Records.{fields_of};
ghost use Rattle.chip_file.specs.Answer.{Gives};
ghost use Rattle.chip_file.specs.Numbers.{number_in};
ghost use Rattle.chip_file.specs.Rows.{by_index};
ghost use Rattle.chip_file.specs.Source.{IsFresh, ReadsSource};
ghost use Rattle.chip_file.specs.TraceText.{row_of_kind, names_edge, trace_row_in, trace_row_fault, trace_in};
ghost use Rattle.chip_file.specs.TraceText.{trace_text_fault, traces_of_text, ReadsTraces};
ghost use Rattle.chip_file.specs.VertexRows.{IsByVertex};

use crate::fault::FileFault;
use crate::kind::kind_at;
use crate::number::number_at;
use crate::rows::{RowVisitor, visit_text};
use crate::source::Source;
use crate::whole::read_source;
use chip_graph::{Graph, Limits};
use chip_link::TraceRow;
use csv::ByteRecord;
use std::alloc::{AllocError, Global};
use std::io::Read;

/// The header of a file of recorded runs.
const HEADER: [&str; 4] = ["vertex", "kind", "edge", "count"];

/// What a row of a recorded run may be.
#[derive(Clone, Copy)]
enum TraceKind {
    Take,
    Fire,
}

/// The kinds of rows, by their names.
static KINDS: [(&str, TraceKind); 2] = [("take", TraceKind::Take), ("fire", TraceKind::Fire)];

impl TraceKind {
    /// The row of this kind; a firing is over no edge.
    fn row(self, edge: u64, count: u64) -> TraceRow
        ensures { result ≡ row_of_kind self edge count }
    {
        match self {
            TraceKind::Take => TraceRow::Take { edge, count },
            TraceKind::Fire => TraceRow::Fire { k: count },
        }
    }
}

/// The recorded run of each vertex of a graph by the rows so far.
impl RowVisitor for Vec<Vec<TraceRow>> {
    type Context = Graph;

    ghost row_fault = { λ graph. by_index (trace_row_fault graph) };

    ghost HasVisited = { λ graph rows traces.
        IsByVertex graph.vertices (trace_in rows) [] (map (λ trace. trace.items) traces.items) };

    fn visit(&mut self, graph: &Graph, row: &ByteRecord, index: u64) -> Result<(), FileFault> {
        let (vertex, recorded) = row_of(graph, row, index)?;
        if vertex >= self.len() as u64 {
            return Err(FileFault::Vertex(index));
        }
        let trace = &mut self[vertex as usize];
        trace.push(recorded)?;
        Ok(())
    }
}

/// Reads the recorded run of each vertex from a file of rows within the limits, or returns the file's first fault.
///
/// The rows of one vertex keep the order of the file.
pub fn read_trace_within<R: Read>(
    alloc: Global,
    limits: Limits,
    reader: &mut R,
    graph: &Graph,
) -> Result<Vec<Vec<TraceRow>>, FileFault>
    ensures { ReadsTraces limits graph.now (R.remaining reader.old) (R.remaining reader.new) result }
{
    trace_of_source(alloc, limits, &mut Source::new(reader), graph)
}

/// The same from a source, which counts the reads.
pub fn trace_of_source<R: Read>(
    alloc: Global,
    limits: Limits,
    source: &mut Source<'_, R>,
    graph: &Graph,
) -> Result<Vec<Vec<TraceRow>>, FileFault>
    requires { IsFresh source.old }
    ensures lent { source.new.reader.ghost_name ≡ source.old.reader.ghost_name }
    ensures reads { ReadsSource R.remaining limits
        (λ text traces. traces_of_text graph.now text ≡ Some (map (λ trace. trace.items) traces.items))
        (λ text f. trace_text_fault graph.now text ≡ Some f) source.old source.new result }
    ensures each { IfOk result (λ traces. length traces.items ≡ graph.now.vertices) }
{
    let text = read_source(alloc, limits, source)?;
    trace_of_text(alloc, &text, graph)
}

/// The recorded run of each vertex that a text means, or its first fault.
pub fn trace_of_text(
    alloc: Global,
    text: &[u8],
    graph: &Graph,
) -> Result<Vec<Vec<TraceRow>>, FileFault>
    ensures means { Gives
        (λ traces. traces_of_text graph.now text.now ≡ Some (map (λ trace. trace.items) traces.items))
        (λ f. trace_text_fault graph.now text.now ≡ Some f) result }
    ensures each { IfOk result (λ traces. length traces.items ≡ graph.now.vertices) }
{
    let traces = empty_traces(alloc, graph.vertices())?;
    visit_text(alloc, text, &HEADER, graph, traces)
}

/// `vertices` runs without rows.
fn empty_traces(alloc: Global, vertices: u64) -> Result<Vec<Vec<TraceRow>>, AllocError>
    ensures { IfOk result (λ traces. map (λ trace. trace.items) traces.items ≡ replicate vertices []) }
{
    let mut traces = Vec::with_capacity(alloc, vertices as usize)?;
    for _ in 0..vertices {
        traces.push(Vec::new(alloc))?;
    }
    Ok(traces)
}

/// The vertex that the row with this index names, and what it says.
fn row_of(graph: &Graph, row: &ByteRecord, index: u64) -> Result<(u64, TraceRow), FileFault>
    ensures ok { IfOk result (λ found.
        (trace_row_fault graph.now index (fields_of row.now) ≡ None)
        × (found.0 ≡ number_in 0 (fields_of row.now))
        × (found.1 ≡ trace_row_in (fields_of row.now))) }
    ensures err { IfErr result (λ f. trace_row_fault graph.now index (fields_of row.now) ≡ Some f) }
{
    if row.len() != HEADER.len() {
        return Err(FileFault::Row(index));
    }
    let kind = kind_at(&KINDS, row, 1).ok_or(FileFault::Kind(index))?;
    let vertex = number_at(row, 0).ok_or(FileFault::Number(index))?;
    let edge = number_at(row, 2).ok_or(FileFault::Number(index))?;
    let count = number_at(row, 3).ok_or(FileFault::Number(index))?;
    let recorded = kind.row(edge, count);
    if vertex >= graph.vertices() || !names_edge(graph, recorded) {
        return Err(FileFault::Vertex(index));
    }
    Ok((vertex, recorded))
}

/// Whether a row names an edge of the graph or a root edge; a firing names none.
fn names_edge(graph: &Graph, row: TraceRow) -> bool
    ensures { result ≡ names_edge graph.now row }
{
    match row {
        TraceRow::Take { edge, .. } => edge < graph.all_edges(),
        TraceRow::Fire { .. } => true,
    }
}
