use crate::runner::Runner;
use chip_graph::Game;
use chip_link::TraceRow;
use std::alloc::{AllocError, Global};

/// How far a replay has come.
#[derive(Drop)]
pub(crate) struct ReplayProgress {
    /// How far each vertex has come.
    pub(crate) runners: Vec<Runner>,
    /// The number of messages taken from each edge.
    pub(crate) taken: Vec<usize>,
    /// The vertex of each firing, with the number of times that it fired.
    pub(crate) firings: Vec<(u64, u64)>,
}

impl ReplayProgress {
    ghost use Rattle.std.specs.Prelude.{◌≡◌, ◌+◌, ◌^◌, ◌<◌, [], length, replicate, IfOk};
    ghost use Rattle.chip_graph.specs.Edges.{edges_and_roots};
    ghost use Rattle.chip_trace.specs.Runner.{at_start};
    ghost use Rattle.chip_trace.specs.Kept.{runner_at, UsesRow, FitsTypes};

    /// The progress with no row used.
    pub(crate) fn new(alloc: Global, game: &Game) -> Result<ReplayProgress, AllocError>
        ensures runners { IfOk result (λ p. p.runners.items ≡ replicate game.now.graph.vertices at_start) }
        ensures taken { IfOk result (λ p. p.taken.items ≡ replicate (edges_and_roots game.now.graph) 0) }
        ensures firings { IfOk result (λ p. p.firings.items ≡ []) }
    {
        let vertices = game.graph().vertices();
        Ok(ReplayProgress {
            runners: runners_at_start(alloc, vertices)?,
            taken: vec![in alloc; 0; game.graph().all_edges() as usize]?,
            firings: Vec::new(alloc),
        })
    }

    /// How many rows this vertex has used.
    pub(crate) fn used_rows(&self, vertex: u64) -> usize
        requires { vertex < length self.now.runners.items }
        ensures { result ≡ (runner_at self.now vertex).used }
    {
        self.runners[vertex as usize].used_rows()
    }

    /// Notes that this vertex has used this row.
    pub(crate) fn use_row(&mut self, vertex: u64, row: TraceRow) -> Result<(), AllocError>
        requires has_runner { vertex < length self.old.runners.items }
        requires room { (runner_at self.old vertex).used + 1 < 2 ^ 64 }
        requires fits { FitsTypes vertex row self.old }
        ensures { IfOk result (λ _. UsesRow vertex row self.old self.new) }
    {
        match row {
            TraceRow::Take { edge, count } => {
                self.runners[vertex as usize].take(count);
                self.taken[edge as usize] += 1;
            }
            TraceRow::Fire { k } => {
                self.firings.push((vertex, k))?;
                self.runners[vertex as usize].fire(k)?;
            }
        }
        Ok(())
    }
}

ghost use Rattle.std.specs.Prelude.{◌≡◌, replicate, IfOk};
ghost use Rattle.chip_trace.specs.Runner.{at_start};

/// `count` vertices that have used no row.
fn runners_at_start(alloc: Global, count: u64) -> Result<Vec<Runner>, AllocError>
    ensures { IfOk result (λ runners. runners.items ≡ replicate count at_start) }
{
    let mut runners = Vec::new(alloc);
    for _ in 0..count {
        runners.push(Runner::new(alloc))?;
    }
    Ok(runners)
}
