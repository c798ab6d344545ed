//! `check`: the lines that show a valid graph.

ghost use Rattle.std.specs.Prelude.{◌≡◌, ◌++◌, IfOk, string_bytes};
ghost use Rattle.chip_graph.specs.Limits.{standard};
ghost use Rattle.chip_graph.specs.Multigraph.{IsGraph};
ghost use Rattle.chip_engine.specs.CheckCommand.{CheckAnswers, IsShownBelow, head_text, vertex_text};

use chip_command::{Answer, Ended, Fault, deliver};
use chip_file::read_graph_within;
use chip_graph::{Graph, Limits};
use std::alloc::{AllocError, Global};
use std::io::{Read, Write};

/// Shows the graph of a file within the standard limits: its numbers of vertices and edges, its sink, and one line for
/// each vertex with its out-degree and its distance to the sink.
pub fn check_engine<G: Read, W: Write>(
    alloc: Global,
    graph: &mut G,
    output: &mut W,
) -> Result<Ended, Fault>
    ensures { CheckAnswers standard (G.remaining graph.old) (W.contents output.old) (W.contents output.new) result }
{
    check_engine_with(alloc, graph, Limits::standard(), output)
}

/// Does what `check_engine` does, for a graph within these limits.
pub fn check_engine_with<G: Read, W: Write>(
    alloc: Global,
    graph: &mut G,
    limits: Limits,
    output: &mut W,
) -> Result<Ended, Fault>
    ensures { CheckAnswers limits (G.remaining graph.old) (W.contents output.old) (W.contents output.new) result }
{
    let graph = read_graph_within(alloc, limits, graph)?;
    let lines = show(alloc, &graph)?;
    deliver(output, Answer::of_lines(lines))
}

/// The lines of a graph.
fn show(alloc: Global, graph: &Graph) -> Result<String, AllocError>
    ensures shown { IfOk result (λ text. IsShownBelow graph.now graph.now.vertices (string_bytes text)) }
    ensures graph { IfOk result (λ _. IsGraph graph.now) }
{
    let mut text = String::new(alloc);
    push_head(&mut text, graph)?;
    for vertex in 0..graph.vertices() {
        push_vertex(
            &mut text,
            vertex,
            graph.out_degree(vertex),
            graph.distance(vertex),
        )?;
    }
    Ok(text)
}

/// Appends the lines on the graph as a whole.
fn push_head(text: &mut String, graph: &Graph) -> Result<(), AllocError>
    ensures { IfOk result (λ _. string_bytes text.new ≡ string_bytes text.old ++ head_text graph.now) }
{
    let vertices = graph.vertices();
    let edges = graph.edges().len();
    let sink = graph.sink();
    write!(text, "vertices {vertices}\nedges {edges}\nsink {sink}\n")
}

/// Appends the line of a vertex.
fn push_vertex(text: &mut String, vertex: u64, degree: u64, distance: u64) -> Result<(), AllocError>
    ensures { IfOk result
        (λ _. string_bytes text.new ≡ string_bytes text.old ++ vertex_text vertex degree distance) }
{
    write!(
        text,
        "vertex {vertex} degree {degree} distance {distance}\n"
    )
}
