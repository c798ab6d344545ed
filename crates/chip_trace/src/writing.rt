//! Recorded runs as text.

ghost use Rattle.std.specs.Prelude.{◌≡◌, ◌≤◌, ◌↔◌, ◌++◌, false, length, map, Err, IfOk, string_bytes};
ghost use Rattle.chip_report.specs.Sink.{IsUnwritten, bytes_out, goes_on, last_write, writes};
ghost use Rattle.chip_trace.specs.TraceText.{trace_row_text, trace_rows_text, trace_text, WritesText};
ghost use Rattle.chip_trace.specs.declared.fault.TraceFault.TheVariants as fault;

use crate::fault::TraceFault;
use chip_link::TraceRow;
use chip_report::{Sink, write_all_to};
use std::alloc::{AllocError, Global};
use std::io::Write;

/// Writes recorded runs as rows of text, the vertices ascending, and counts the writes in the sink.
///
/// `traces` has the rows of each vertex. The whole text is made before any of it is written, as `write_all_to` writes
/// it.
pub fn write_trace_to<W: Write>(
    alloc: Global,
    traces: &[&[TraceRow]],
    sink: &mut Sink<'_, W>,
) -> Result<(), TraceFault>
    requires { IsUnwritten sink.old }
    ensures text { WritesText (bytes_out W.contents sink.old) (bytes_out W.contents sink.new)
        (trace_text (map (λ t. t.now) traces.now)) result }

    // At any writer.
    ensures lent { sink.new.writer.ghost_name ≡ sink.old.writer.ghost_name }
    ensures few_writes { writes sink.new ≤ length (trace_text (map (λ t. t.now) traces.now)) }
    ensures told { (goes_on (last_write sink.new) ≡ false) ↔ (result ≡ Err fault.Write) }
{
    let text = text_of(alloc, traces)?;
    match write_all_to(sink, text.as_bytes()) {
        Ok(()) => Ok(()),
        Err(_) => Err(TraceFault::Write),
    }
}

/// Writes recorded runs, as `write_trace_to` writes them.
pub fn write_trace<W: Write>(
    alloc: Global,
    traces: &[&[TraceRow]],
    writer: &mut W,
) -> Result<(), TraceFault>
    ensures { WritesText (W.contents writer.old) (W.contents writer.new)
        (trace_text (map (λ t. t.now) traces.now)) result }
{
    let mut sink = Sink::new(writer);
    write_trace_to(alloc, traces, &mut sink)
}

/// The text of recorded runs.
fn text_of(alloc: Global, traces: &[&[TraceRow]]) -> Result<String, AllocError>
    ensures { IfOk result (λ text. string_bytes text ≡ trace_text (map (λ t. t.now) traces.now)) }
{
    let mut text = String::new(alloc);
    text.push_str("vertex,kind,edge,count\n")?;
    for (vertex, rows) in traces.iter().enumerate() {
        push_rows(&mut text, vertex as u64, rows)?;
    }
    Ok(text)
}

/// Appends the lines of the rows of one vertex.
fn push_rows(text: &mut String, vertex: u64, rows: &[TraceRow]) -> Result<(), AllocError>
    ensures { IfOk result (λ _. string_bytes text.new ≡ string_bytes text.old ++ trace_rows_text vertex rows.now) }
{
    for row in rows {
        push_row(text, vertex, *row)?;
    }
    Ok(())
}

/// Appends the line of a row.
fn push_row(text: &mut String, vertex: u64, row: TraceRow) -> Result<(), AllocError>
    ensures { IfOk result (λ _. string_bytes text.new ≡ string_bytes text.old ++ trace_row_text vertex row) }
{
    match row {
        TraceRow::Take { edge, count } => writeln!(text, "{vertex},take,{edge},{count}"),
        TraceRow::Fire { k } => writeln!(text, "{vertex},fire,0,{k}"),
    }
}
