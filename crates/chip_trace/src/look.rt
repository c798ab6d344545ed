//! Whether the next row of a vertex is enabled.

ghost use Rattle.std.specs.Prelude.{◌≡◌, ◌+◌, ◌^◌, ◌<◌, length, map, sum, slice_get, slice_index, OnSome};
ghost use Rattle.chip_graph.specs.ChipGame.{IsGame};
ghost use Rattle.chip_graph.specs.Edges.{edges_and_roots};
ghost use Rattle.chip_trace.specs.Interleaving.{messages, goes_into, may_fire};
ghost use Rattle.chip_trace.specs.Kept.{runner_at, row_after, IsReplayKept, Finds};

use crate::progress::ReplayProgress;
use crate::runner::Runner;
use chip_graph::{AnyEdge, Edge, Game, Graph};
use chip_link::TraceRow;

/// What a visit to the next row of a vertex finds.
#[derive(Clone, Copy)]
pub(crate) enum Finding {
    /// There is none: all its rows are used.
    Done,
    /// It is enabled: this is the row.
    Met(TraceRow),
    /// It is wrong.
    Wrong,
    /// It waits for the next message of this edge.
    Waits(u64),
}

/// Visits the next row of this vertex.
pub(crate) fn look_at(
    game: &Game,
    traces: &[Vec<TraceRow>],
    progress: &ReplayProgress,
    vertex: u64,
) -> Finding
    requires is_vertex { vertex < game.now.graph.vertices }
    requires trace_each { length traces.now ≡ game.now.graph.vertices }
    requires kept { IsReplayKept game.now (map (λ t. t.items) traces.now) progress.now }
    ensures { Finds game.now (map (λ t. t.items) traces.now) progress.now vertex result }
{
    match next_row(traces, progress, vertex) {
        None => Finding::Done,
        Some(TraceRow::Take { edge, count }) => {
            if !goes_into(game.graph(), vertex, edge) {
                return Finding::Wrong;
            }
            match next_message(game, progress, edge) {
                None => Finding::Waits(edge),
                Some(message) if message == u128::from(count) => {
                    Finding::Met(TraceRow::Take { edge, count })
                }
                Some(_) => Finding::Wrong,
            }
        }
        Some(TraceRow::Fire { k }) => {
            if may_fire(game, &progress.runners[vertex as usize], vertex, k) {
                Finding::Met(TraceRow::Fire { k })
            } else {
                Finding::Wrong
            }
        }
    }
}

/// The next unused row of this vertex, if it has one.
fn next_row(traces: &[Vec<TraceRow>], progress: &ReplayProgress, vertex: u64) -> Option<TraceRow>
    requires has_trace { vertex < length traces.now }
    requires has_runner { vertex < length progress.now.runners.items }
    ensures row { result ≡ row_after (map (λ t. t.items) traces.now) progress.now vertex }
    ensures room { OnSome result ((runner_at progress.now vertex).used + 1 < 2 ^ 64) }
{
    traces[vertex as usize]
        .get(progress.used_rows(vertex))
        .copied()
}

/// Whether this edge goes into the vertex; its root edge does.
fn goes_into(graph: &Graph, vertex: u64, edge: u64) -> bool
    requires { vertex < graph.now.vertices }
    ensures { result ≡ goes_into graph.now vertex edge }
{
    match graph.edge(edge) {
        Some(AnyEdge::Own(Edge { head, .. }) | AnyEdge::Root { head }) => head == vertex,
        None => false,
    }
}

/// The first message of this edge that was not taken, if there is one.
fn next_message(game: &Game, progress: &ReplayProgress, edge: u64) -> Option<u128>
    requires runner_each { length progress.now.runners.items ≡ game.now.graph.vertices }
    requires taken_each { length progress.now.taken.items ≡ edges_and_roots game.now.graph }
    requires is_edge { edge < edges_and_roots game.now.graph }
    ensures { result
        ≡ slice_get (messages game.now (λ u. (runner_at progress.now u).fires) edge)
        (slice_index progress.now.taken.items edge) }
{
    let taken = progress.taken[edge as usize];
    match game.graph().edge(edge)? {
        AnyEdge::Own(Edge { tail, mult, .. }) => {
            let k = progress.runners[tail as usize].firing(taken)?;
            Some(u128::from(k) * u128::from(mult))
        }
        AnyEdge::Root { head } => {
            let chips = game.start()[head as usize];
            (chips > 0 && taken == 0).then_some(u128::from(chips))
        }
    }
}

/// Whether the vertex may fire `k` times.
fn may_fire(game: &Game, runner: &Runner, vertex: u64, k: u64) -> bool
    requires { vertex < game.now.graph.vertices }
    ensures value { result ≡ may_fire game.now vertex (sum runner.now.fires) runner.now.chips k }
    ensures game { IsGame game.now }
{
    let graph = game.graph();
    vertex != graph.sink() && k > 0 && runner.can_pay(k, graph.out_degree(vertex), game.limit())
}
