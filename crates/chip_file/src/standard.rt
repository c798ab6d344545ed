//! The readers within the standard limits.

ghost use Rattle.std.specs.Prelude.{◌≡◌, Some};
ghost use Rattle.chip_graph.specs.Limits.{standard};
ghost use Rattle.chip_file.specs.Answer.{ReadsText, ReadsWhole};
ghost use Rattle.chip_file.specs.ChipsText.{chips_of_text, chips_text_fault};
ghost use Rattle.chip_file.specs.GraphText.{MeansGraph, IsGraphTextFault};
ghost use Rattle.chip_file.specs.ScheduleText.{schedule_of_text, schedule_text_fault};
ghost use Rattle.chip_file.specs.TraceText.{ReadsTraces};

use crate::chips::read_chips_within;
use crate::fault::FileFault;
use crate::graph::read_graph_within;
use crate::schedule::read_schedule_within;
use crate::trace::read_trace_within;
use crate::whole::read_whole_within;
use chip_graph::{Graph, Limits};
use chip_link::{Event, TraceRow};
use std::alloc::Global;
use std::io::Read;

/// Reads the graph of a file of JSON, or returns the file's first fault.
pub fn read_graph<R: Read>(alloc: Global, reader: &mut R) -> Result<Graph, FileFault>
    ensures { ReadsText standard (MeansGraph standard) (IsGraphTextFault standard) (R.remaining reader.old)
        (R.remaining reader.new) result }
{
    read_graph_within(alloc, Limits::standard(), reader)
}

/// Reads the chips of each of `vertices` vertices from a file of rows, or returns the file's first fault.
///
/// A vertex that no row names has 0.
pub fn read_chips<R: Read>(
    alloc: Global,
    reader: &mut R,
    vertices: u64,
) -> Result<Vec<u64>, FileFault>
    ensures { ReadsText standard (λ text chips. chips_of_text vertices text ≡ Some chips.items)
        (λ text f. chips_text_fault vertices text ≡ Some f) (R.remaining reader.old) (R.remaining reader.new) result }
{
    read_chips_within(alloc, Limits::standard(), reader, vertices)
}

/// Reads the events of a schedule from a file of rows, in order, or returns the file's first fault.
pub fn read_schedule<R: Read>(
    alloc: Global,
    reader: &mut R,
    graph: &Graph,
) -> Result<Vec<Event>, FileFault>
    ensures { ReadsText standard (λ text events. schedule_of_text graph.now text ≡ Some events.items)
        (λ text f. schedule_text_fault graph.now text ≡ Some f) (R.remaining reader.old) (R.remaining reader.new) result }
{
    read_schedule_within(alloc, Limits::standard(), reader, graph)
}

/// Reads the recorded run of each vertex from a file of rows, or returns the file's first fault.
///
/// The rows of one vertex keep the order of the file.
pub fn read_trace<R: Read>(
    alloc: Global,
    reader: &mut R,
    graph: &Graph,
) -> Result<Vec<Vec<TraceRow>>, FileFault>
    ensures { ReadsTraces standard graph.now (R.remaining reader.old) (R.remaining reader.new) result }
{
    read_trace_within(alloc, Limits::standard(), reader, graph)
}

/// Reads the whole of a reader's input.
pub fn read_whole<R: Read>(alloc: Global, reader: &mut R) -> Result<Vec<u8>, FileFault>
    ensures { ReadsWhole standard (R.remaining reader.old) (R.remaining reader.new) result }
{
    read_whole_within(alloc, Limits::standard(), reader)
}
