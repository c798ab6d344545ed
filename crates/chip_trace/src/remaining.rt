//! What is left of a game when all rows are used.

ghost use Rattle.std.specs.Prelude.{◌≡◌, ◌<◌, IfOk, length, nat_le, ◌==◌, ◌&&◌, not};
ghost use Rattle.chip_graph.specs.Multigraph.{degree};
ghost use Rattle.chip_graph.specs.Edges.{edges_and_roots};
ghost use Rattle.chip_trace.specs.Left.{messages_left, chips_held, legal_left};
ghost use Rattle.chip_trace.specs.Kept.{kept_fires, kept_chips, kept_taken, kept_left};

use crate::progress::ReplayProgress;
use chip_graph::{AnyEdge, Edge, Game};
use std::alloc::{AllocError, Global};

/// Something that is left of a game.
#[derive(Clone, Copy, Debug, PartialEq, Eq)]
pub enum Left {
    /// `count` messages of this edge were not taken.
    Messages { edge: u64, count: u64 },
    /// This vertex holds the chips for a firing, and has fired less often than the limit.
    CanFire { vertex: u64 },
    /// This vertex holds the chips for a firing, and has fired as often as the limit.
    AtLimit { vertex: u64 },
}

/// All that is left: first of edges, and then of vertices, both ascending.
pub(crate) fn all_left(
    alloc: Global,
    game: &Game,
    progress: &ReplayProgress,
) -> Result<Vec<Left>, AllocError>
    requires runner_each { length progress.now.runners.items ≡ game.now.graph.vertices }
    requires taken_each { length progress.now.taken.items ≡ edges_and_roots game.now.graph }
    ensures { IfOk result (λ left. left.items ≡ kept_left game.now progress.now) }
{
    let mut left = Vec::new(alloc);
    for edge in 0..game.graph().all_edges() {
        let count = messages_left(game, progress, edge);
        if count > 0 {
            left.push(Left::Messages { edge, count })?;
        }
    }
    for vertex in 0..game.graph().vertices() {
        if is_legal(game, progress, vertex) {
            left.push(legal_left(game, progress, vertex))?;
        }
    }
    Ok(left)
}

/// How many messages of this edge were sent and not taken.
fn messages_left(game: &Game, progress: &ReplayProgress, edge: u64) -> u64
    requires runner_each { length progress.now.runners.items ≡ game.now.graph.vertices }
    requires taken_each { length progress.now.taken.items ≡ edges_and_roots game.now.graph }
    requires is_edge { edge < edges_and_roots game.now.graph }
    ensures { result ≡ messages_left game.now (kept_fires progress.now) (kept_taken progress.now) edge }
{
    let sent = match game.graph().edge(edge) {
        Some(AnyEdge::Own(Edge { tail, .. })) => progress.runners[tail as usize].firings(),
        Some(AnyEdge::Root { head }) => usize::from(game.start()[head as usize] > 0),
        None => 0,
    };
    sent.saturating_sub(progress.taken[edge as usize]) as u64
}

/// Whether this vertex may fire by the chips that it holds.
fn is_legal(game: &Game, progress: &ReplayProgress, vertex: u64) -> bool
    requires runner_each { length progress.now.runners.items ≡ game.now.graph.vertices }
    requires is_vertex { vertex < game.now.graph.vertices }
    ensures { result ≡ (not (vertex == game.now.graph.sink) && nat_le (degree game.now.graph vertex)
        (chips_held game.now (kept_fires progress.now) (kept_chips progress.now) vertex)) }
{
    let degree = game.graph().out_degree(vertex);
    let held = progress.runners[vertex as usize].held(degree);
    vertex != game.graph().sink() && u128::from(degree) <= held
}

/// What is left at a vertex that is legal.
fn legal_left(game: &Game, progress: &ReplayProgress, vertex: u64) -> Left
    requires runner_each { length progress.now.runners.items ≡ game.now.graph.vertices }
    requires is_vertex { vertex < game.now.graph.vertices }
    ensures { result ≡ legal_left game.now (kept_fires progress.now) vertex }
{
    if progress.runners[vertex as usize].fired() < game.limit() {
        Left::CanFire { vertex }
    } else {
        Left::AtLimit { vertex }
    }
}
