ghost use Rattle.std.specs.Prelude.{◌≡◌, ℕ, List};
ghost use Rattle.chip_file.specs.Answer.{Gives, ReadsText};
ghost use Rattle.chip_file.specs.GraphText.{IsKeptText, MeansGraph, IsGraphTextFault};
ghost use Rattle.chip_file.specs.Source.{IsFresh, ReadsSource};

use crate::fault::FileFault;
use crate::graph_text;
use crate::graph_text::GraphFile;
use crate::source::Source;
use crate::whole::read_source;
use chip_graph::{Graph, Limits};
use std::alloc::Global;
use std::io::Read;

/// The version of graph files.
const VERSION: u64 = 1;

/// Reads the graph of a file of JSON within the limits, or returns the file's first fault.
pub fn read_graph_within<R: Read>(
    alloc: Global,
    limits: Limits,
    reader: &mut R,
) -> Result<Graph, FileFault>
    ensures { ReadsText limits (MeansGraph limits) (IsGraphTextFault limits) (R.remaining reader.old)
        (R.remaining reader.new) result }
{
    graph_of_source(alloc, limits, &mut Source::new(reader))
}

/// The same from a source, which counts the reads. The text is freed before the graph is made.
pub fn graph_of_source<R: Read>(
    alloc: Global,
    limits: Limits,
    source: &mut Source<'_, R>,
) -> Result<Graph, FileFault>
    requires { IsFresh source.old }
    ensures lent { source.new.reader.ghost_name ≡ source.old.reader.ghost_name }
    ensures reads { ReadsSource R.remaining limits (MeansGraph limits) (IsGraphTextFault limits) source.old source.new
        result }
{
    let text = read_source(alloc, limits, source)?;
    let file = file_of_text(alloc, limits, &text)?;
    drop(text);
    graph_of_file(alloc, limits, file)
}

/// The graph within the limits that a text of JSON means, or its first fault.
pub fn graph_of_text(alloc: Global, limits: Limits, text: &[u8]) -> Result<Graph, FileFault>
    ensures { Gives (MeansGraph limits text.now) (IsGraphTextFault limits text.now) result }
{
    let file = file_of_text(alloc, limits, text)?;
    graph_of_file(alloc, limits, file)
}

/// The graph file of the right version that a text is. If it has more edges than the limits allow, only the first are
/// kept.
fn file_of_text(alloc: Global, limits: Limits, text: &[u8]) -> Result<GraphFile, FileFault>
    ensures { Gives (IsKeptText limits text.now) (IsGraphTextFault limits text.now) result }
{
    let file = graph_text::file_of_text(alloc, text, limits.edges())?;
    if file.version != VERSION {
        return Err(FileFault::Version);
    }
    Ok(file)
}

/// The graph of a kept file, whatever its text is.
fn graph_of_file(alloc: Global, limits: Limits, file: GraphFile) -> Result<Graph, FileFault>
    ensures { (text : List ℕ) → IsKeptText limits text file
        → Gives (MeansGraph limits text) (IsGraphTextFault limits text) result }
{
    Ok(Graph::within(alloc, limits, file.vertices, file.sink, file.edges)?)
}
