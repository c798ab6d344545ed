ghost use Rattle.std.specs.Prelude.{◌≡◌, ◌<◌, ◌≤◌, length, slice_index, IfOk};
ghost use Rattle.chip_diffusing.specs.Network.{AreAll};
ghost use Rattle.chip_flooding.specs.Running.{IsTopology, OpensProcess};

use chip_detect::Detect;
use std::alloc::{AllocError, Global};

/// Processes that send to one another over edges, and the one that starts. Processes and edges are numbered from 0.
#[derive(Drop)]
pub struct Topology {
    /// The number of processes.
    pub parts: usize,
    /// The process that starts. No edge leads to it.
    pub root: usize,
    /// The process that sends on each edge.
    pub tails: Vec<usize>,
    /// The process that receives from each edge.
    pub heads: Vec<usize>,
}

/// A process: its books, and whether it has nothing to do until a message comes.
#[derive(Drop)]
pub struct Process {
    pub books: Detect,
    pub passive: bool,
}

/// A process before the first message. Only the root is at work.
pub fn opening(alloc: Global, topology: &Topology, part: usize) -> Result<Process, AllocError>
    requires { IsTopology topology.now }
    ensures { IfOk result (OpensProcess topology.now part) }
{
    let ins = edges_at(alloc, &topology.heads, part)?;
    let outs = edges_at(alloc, &topology.tails, part)?;
    Ok(Process {
        books: Detect::new(alloc, &ins, &outs)?,
        passive: part != topology.root,
    })
}

/// The edges of which the process is this end.
fn edges_at(alloc: Global, ends: &[usize], part: usize) -> Result<Vec<u64>, AllocError>
    ensures all { IfOk result (λ edges. AreAll edges.items (λ e. (e < length ends.now) × (slice_index ends.now e ≡ part))) }
    ensures no_more { IfOk result (λ edges. length edges.items ≤ length ends.now) }
{
    let mut edges = Vec::new(alloc);
    for (edge, end) in ends.iter().enumerate() {
        if *end == part {
            edges.push(edge as u64)?;
        }
    }
    Ok(edges)
}
