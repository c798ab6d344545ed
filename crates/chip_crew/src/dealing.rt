//! Deals the actors out to the workers.

ghost use Rattle.std.specs.Prelude.{◌≡◌, ◌+◌, ◌*◌, ◌≤◌, ◌<◌, ◌^◌, ℕ, IfOk, length};
ghost use Rattle.chip_graph.specs.Limits.{max_edges};
ghost use Rattle.chip_crew.specs.declared.plan.Sharing.TheVariants as shares;
ghost use Rattle.chip_crew.specs.Plans.{max_workers};
ghost use Rattle.chip_crew.specs.Dealing.{ends_at, ends_before};
ghost use Rattle.chip_crew.specs.Gathering.{AreBack, queue_for};
ghost use Rattle.chip_crew.specs.Joining.{AreShares, queue_of_all};
ghost use Rattle.chip_crew.specs.Crew.{AreFrom, all_turns};

use crate::gathering::Back;
use crate::queue::Crew;
use crate::worker::Share;
use chip_graph::Graph;
use chip_net::Actor;
use std::alloc::{AllocError, Global};

/// The number of edge ends at a vertex, with its root edge's: a turn of its actor reads them.
fn ends_at(graph: &Graph, vertex: u64) -> u64
    requires vertex { vertex < graph.now.vertices }
    requires few_edges { length graph.now.edges ≤ max_edges }
    ensures value { result ≡ ends_at graph.now vertex }
    ensures few { result ≤ 2 ^ 24 + 1 }
{
    graph.outs(vertex).len() as u64 + graph.ins(vertex).len() as u64 + 1
}

/// The number of edge ends at all vertices.
fn all_ends(graph: &Graph) -> u64
    ensures value { result ≡ ends_before graph.now graph.now.vertices }
    ensures few { result ≤ 2 ^ 46 }
{
    let mut ends = 0;
    for vertex in 0..graph.vertices() {
        ends += ends_at(graph, vertex);
    }
    ends
}

/// The first vertex of the next worker and the number of ends before it, from these two of a worker.
fn next_cut(graph: &Graph, workers: u64, share: u64, first: u64, before: u64) -> (u64, u64)
    requires workers { (0 < workers) × (workers ≤ max_workers) }
    requires share { share ≤ workers * ends_before graph.now graph.now.vertices }
    requires first { (first ≤ graph.now.vertices) × (before ≡ ends_before graph.now first) × (before ≤ first * (2 ^ 24 + 1)) }
    ensures reached { share ≤ workers * result.1 }
    ensures least { (u : ℕ) → first ≤ u → u < result.0 → workers * ends_before graph.now u < share }
    ensures next { (first ≤ result.0) × (result.0 ≤ graph.now.vertices) × (result.1 ≡ ends_before graph.now result.0)
        × (result.1 ≤ result.0 * (2 ^ 24 + 1)) }
{
    let mut ends = before;
    for vertex in first..graph.vertices() {
        if share <= workers * ends {
            return (vertex, ends);
        }
        ends += ends_at(graph, vertex);
    }
    (graph.vertices(), ends)
}

/// Deals the actors of all vertices, in ascending order, out to the workers in runs. Before a run are the fewest
/// vertices that have at least as many edge ends as an even deal gives the workers before. Also returns a row with room
/// for all actors to come back to.
pub(crate) fn deal<'q, B: Crew>(
    alloc: Global,
    graph: &Graph,
    mut actors: Vec<Actor>,
    workers: u64,
) -> Result<(Vec<Share<'q, B>>, Back<'q, B>), AllocError>
    requires graph { graph.now ≡ B.asked.crew.net.setting.game.graph }
    requires workers { (0 < workers) × (workers ≤ max_workers) × (workers ≡ B.asked.crew.workers) }
    requires actors { AreFrom B.asked.crew 0 actors.items }
    requires count { length actors.items ≡ B.asked.crew.net.setting.game.graph.vertices }
    requires no_turns { all_turns actors.items ≡ 0 }
    requires sharing { B.asked.crew.sharing ≡ shares.Dealt }
    ensures shares { IfOk result (λ r. AreShares B.asked r.0.items × (queue_of_all r.0.items ≡ queue_for r.1)) }
    ensures back { IfOk result (λ r. AreBack B.asked 0 r.1) }
{
    let all_ends = all_ends(graph);
    let row = Vec::with_capacity(alloc, actors.len())?;
    let mut all = Vec::with_capacity(alloc, workers as usize)?;
    let mut first = 0;
    let mut ends = 0;
    for worker in 0..workers {
        let (next, before) = next_cut(graph, workers, (worker + 1) * all_ends, first, ends);
        let rest = actors.split_off((next - first) as usize)?;
        all.push_reserved(Share::Dealt(actors));
        actors = rest;
        first = next;
        ends = before;
    }
    Ok((all, Back::Dealt(row)))
}
