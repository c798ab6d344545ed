//! Which vertex is to blame if rows are left.

ghost use Rattle.std.specs.Prelude.{◌≡◌, ◌<◌, length, map};
ghost use Rattle.chip_trace.specs.Kept.{IsReplayKept, IsWrongAt, IsUnusedAt, IsLeastFound, IsToBlame};

use crate::look::{Finding, look_at};
use crate::progress::ReplayProgress;
use chip_graph::Game;
use chip_link::TraceRow;

/// The vertex that is to blame for rows that are left, if no next row is enabled.
pub(crate) fn vertex_to_blame(
    game: &Game,
    traces: &[Vec<TraceRow>],
    progress: &ReplayProgress,
) -> Option<u64>
    requires trace_each { length traces.now ≡ game.now.graph.vertices }
    requires kept { IsReplayKept game.now (map (λ t. t.items) traces.now) progress.now }
    ensures { IsToBlame game.now (map (λ t. t.items) traces.now) progress.now result }
{
    if let Some(vertex) = first_wrong(game, traces, progress) {
        return Some(vertex);
    }
    first_unused(traces, progress)
}

/// The least vertex whose next row is wrong.
fn first_wrong(game: &Game, traces: &[Vec<TraceRow>], progress: &ReplayProgress) -> Option<u64>
    requires trace_each { length traces.now ≡ game.now.graph.vertices }
    requires kept { IsReplayKept game.now (map (λ t. t.items) traces.now) progress.now }
    ensures { IsLeastFound game.now.graph.vertices (IsWrongAt game.now (map (λ t. t.items) traces.now) progress.now) result }
{
    for vertex in 0..game.graph().vertices() {
        if let Finding::Wrong = look_at(game, traces, progress, vertex) {
            return Some(vertex);
        }
    }
    None
}

/// The least vertex with an unused row.
fn first_unused(traces: &[Vec<TraceRow>], progress: &ReplayProgress) -> Option<u64>
    requires { length progress.now.runners.items ≡ length traces.now }
    ensures { IsLeastFound (length traces.now) (IsUnusedAt (map (λ t. t.items) traces.now) progress.now) result }
{
    for vertex in 0..traces.len() as u64 {
        if progress.used_rows(vertex) < traces[vertex as usize].len() {
            return Some(vertex);
        }
    }
    None
}
