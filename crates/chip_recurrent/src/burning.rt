//! The least burning script of a graph.

ghost use Rattle.std.specs.Prelude.{◌≡◌, ℕ, ◌<◌, ◌+◌, ◌-◌, ◌^◌, length, min, slice_index, IfOk, MatchResult};
ghost use Rattle.chip_graph.specs.Multigraph.{degree};
ghost use Rattle.chip_sequence.specs.Certificate.{in_degree};
ghost use Rattle.chip_group.specs.Recurrent.{EachNonSink};
ghost use Rattle.chip_recurrent.specs.Stabilizations.{IsFaultOfRow};
ghost use Rattle.chip_recurrent.specs.Burning.{burning_start, IsBurning};

use crate::fault::RowFault;
use crate::stabilization::stabilize_on;
use chip_graph::Graph;
use chip_sequence::in_degree;
use std::alloc::{AllocError, Global};

/// The least burning script of a graph and its chips.
#[derive(Drop)]
pub struct Burning {
    /// How often each vertex fires.
    pub script: Vec<u64>,
    /// How many chips each vertex loses on balance by these firings.
    pub chips: Vec<u64>,
}

/// The burning script in which each vertex fires least often (Speer, Asymmetric abelian sandpile models, 1993). It is
/// one more than the odometer of a stabilization: of one chip less on each vertex than edges lead in. The graph is
/// unchanged at the end.
pub fn burning_script(alloc: Global, graph: &mut Graph) -> Result<Burning, RowFault>
    ensures graph { graph.new ≡ graph.old }
    ensures burning { MatchResult result (λ b. IsBurning graph.old b.script.items b.chips.items)
        (IsFaultOfRow graph.old (burning_start graph.old) 0) }
{
    let start = start_to_burn(alloc, graph)?;
    let end = stabilize_on(alloc, graph, &start, &[], 0)?;
    let script = one_more(alloc, graph, &end.fired)?;
    let chips = burning_chips(alloc, graph, &start, &end.chips)?;
    Ok(Burning { script, chips })
}

/// One chip less on each vertex than edges lead in, or no chips.
fn start_to_burn(alloc: Global, graph: &Graph) -> Result<Vec<u64>, AllocError>
    ensures each { IfOk result (λ start. length start.items ≡ graph.now.vertices) }
    ensures start { IfOk result (λ start. (v : ℕ) → v < graph.now.vertices
        → slice_index start.items v ≡ burning_start graph.now v) }
{
    let mut start = Vec::new(alloc);
    for vertex in 0..graph.vertices() {
        start.push(in_degree(graph, vertex).saturating_sub(1))?;
    }
    Ok(start)
}

/// These counts, with one more firing of each vertex but the sink.
fn one_more(alloc: Global, graph: &Graph, fired: &[u64]) -> Result<Vec<u64>, AllocError>
    requires each { length fired.now ≡ graph.now.vertices }
    requires few { (v : ℕ) → slice_index fired.now v < 2 ^ 63 }
    ensures each { IfOk result (λ script. length script.items ≡ graph.now.vertices) }
    ensures script { IfOk result (λ script. EachNonSink graph.now
        (λ v. slice_index script.items v ≡ slice_index fired.now v + 1)) }
    ensures sink { IfOk result (λ script. slice_index script.items graph.now.sink ≡ 0) }
{
    let mut script = Vec::from_slice(alloc, fired)?;
    for count in script.iter_mut() {
        *count += 1;
    }
    script[graph.sink() as usize] = 0;
    Ok(script)
}

/// The chips of the script, from the start of the stabilization and its end.
fn burning_chips(
    alloc: Global,
    graph: &Graph,
    starts: &[u64],
    ends: &[u64],
) -> Result<Vec<u64>, AllocError>
    requires starts_each { length starts.now ≡ graph.now.vertices }
    requires starts { (v : ℕ) → v < graph.now.vertices → slice_index starts.now v ≡ burning_start graph.now v }
    requires each { length ends.now ≡ graph.now.vertices }
    requires few { (v : ℕ) → v < graph.now.vertices → slice_index ends.now v < 2 ^ 63 }
    ensures each { IfOk result (λ chips. length chips.items ≡ graph.now.vertices) }
    ensures chips { IfOk result (λ chips. (v : ℕ) → v < graph.now.vertices
        → slice_index chips.items v ≡ degree graph.now v - (slice_index ends.now v + min (in_degree graph.now v) 1)) }
{
    let mut chips = Vec::new(alloc);
    for vertex in 0..graph.vertices() {
        let left = ends[vertex as usize] + one_if_edges_lead_in(graph, starts, vertex);
        chips.push(graph.out_degree(vertex).saturating_sub(left))?;
    }
    Ok(chips)
}

/// 1 if an edge leads into a vertex, else 0. Where the start has chips, no edge needs to be read.
fn one_if_edges_lead_in(graph: &Graph, starts: &[u64], vertex: u64) -> u64
    requires is_vertex { vertex < graph.now.vertices }
    requires starts_each { length starts.now ≡ graph.now.vertices }
    requires start { slice_index starts.now vertex ≡ burning_start graph.now vertex }
    ensures { result ≡ min (in_degree graph.now vertex) 1 }
{
    if starts[vertex as usize] > 0 {
        return 1;
    }
    in_degree(graph, vertex).min(1)
}
