//! Replaying recorded runs.

ghost use Rattle.std.specs.Prelude.{◌≡◌, ◌+◌, ◌^◌, ◌<◌, ℕ, length, map, IfOk, MatchOption, MatchResult};
ghost use Rattle.chip_trace.specs.Kept.{runner_at, IsReplayKept, UsesRow, FitsTypes, MayUse, IsReplayBlocked, ReplayGoesOn};
ghost use Rattle.chip_trace.specs.Replay.{AreFirings, IsReplayed, IsReplayFault};

use crate::agenda::Agenda;
use crate::fault::ReplayFault;
use crate::look::{Finding, look_at};
use crate::progress::ReplayProgress;
use crate::remaining::{Left, all_left};
use crate::verdict::vertex_to_blame;
use chip_graph::Game;
use chip_link::TraceRow;
use std::alloc::{AllocError, Global};

/// A replay that used all rows.
#[derive(Drop)]
pub struct Replayed {
    /// The firings of one interleaving, each with its vertex, in order.
    pub firings: Vec<(u64, u64)>,
    /// What is left of the game then: first of edges, and then of vertices, both ascending.
    pub left: Vec<Left>,
}

/// Notes that a vertex has used a row that is enabled, and wakes those that waited for it.
fn use_met(
    progress: &mut ReplayProgress,
    agenda: &mut Agenda,
    vertex: u64,
    row: TraceRow,
) -> Result<(), AllocError>
    requires is_vertex { vertex < agenda.old.vertices }
    requires has_runner { vertex < length progress.old.runners.items }
    requires room { (runner_at progress.old vertex).used + 1 < 2 ^ 64 }
    requires fits { FitsTypes vertex row progress.old }
    ensures uses { IfOk result (λ _. UsesRow vertex row progress.old progress.new) }
    ensures same { agenda.new.vertices ≡ agenda.old.vertices }
    ensures few { agenda.new.due < agenda.old.due + 2 ^ 64 }
{
    progress.use_row(vertex, row)?;
    if let TraceRow::Fire { .. } = row {
        agenda.wake(vertex)?;
    }
    Ok(())
}

/// Uses the rows of this vertex while they are enabled.
fn advance(
    game: &Game,
    traces: &[Vec<TraceRow>],
    progress: &mut ReplayProgress,
    agenda: &mut Agenda,
    vertex: u64,
) -> Result<(), AllocError>
    requires is_vertex { vertex < game.now.graph.vertices }
    requires trace_each { length traces.now ≡ game.now.graph.vertices }
    requires agenda_each { agenda.old.vertices ≡ game.now.graph.vertices }
    requires kept { IsReplayKept game.now (map (λ t. t.items) traces.now) progress.old }
    ensures { IfOk result (λ _. ReplayGoesOn game.now (map (λ t. t.items) traces.now) progress.old agenda.old progress.new
        agenda.new) }
{
    loop {
        match look_at(game, traces, progress, vertex) {
            Finding::Met(row) => use_met(progress, agenda, vertex, row)?,
            Finding::Waits(edge) => {
                if let Some(edge) = game.graph().edges().get(edge as usize) {
                    agenda.wait_for(vertex, edge.tail)?;
                }
                return Ok(());
            }
            Finding::Done | Finding::Wrong => return Ok(()),
        }
    }
}

/// Visits all vertices on the agenda, and those added meanwhile.
fn run_agenda(
    game: &Game,
    traces: &[Vec<TraceRow>],
    progress: &mut ReplayProgress,
    agenda: &mut Agenda,
) -> Result<(), AllocError>
    requires trace_each { length traces.now ≡ game.now.graph.vertices }
    requires agenda_each { agenda.old.vertices ≡ game.now.graph.vertices }
    requires kept { IsReplayKept game.now (map (λ t. t.items) traces.now) progress.old }
    ensures { IfOk result (λ _. ReplayGoesOn game.now (map (λ t. t.items) traces.now) progress.old agenda.old progress.new
        agenda.new) }
{
    while let Some(vertex) = agenda.next() {
        advance(game, traces, progress, agenda, vertex)?;
    }
    Ok(())
}

/// The least vertex whose next row is enabled, with that row.
fn first_met(
    game: &Game,
    traces: &[Vec<TraceRow>],
    progress: &ReplayProgress,
) -> Option<(u64, TraceRow)>
    requires trace_each { length traces.now ≡ game.now.graph.vertices }
    requires kept { IsReplayKept game.now (map (λ t. t.items) traces.now) progress.now }
    ensures { MatchOption result
        (IsReplayBlocked game.now (map (λ t. t.items) traces.now) progress.now)
        (λ found. (found.0 < game.now.graph.vertices)
        × MayUse game.now (map (λ t. t.items) traces.now) progress.now found.0 found.1) }
{
    for vertex in 0..game.graph().vertices() {
        if let Finding::Met(row) = look_at(game, traces, progress, vertex) {
            return Some((vertex, row));
        }
    }
    None
}

/// Uses rows until no next row is enabled.
///
/// The agenda only saves time. Each vertex is visited once more at the end, to see that no next row is enabled.
fn settle(
    game: &Game,
    traces: &[Vec<TraceRow>],
    progress: &mut ReplayProgress,
    agenda: &mut Agenda,
) -> Result<(), AllocError>
    requires trace_each { length traces.now ≡ game.now.graph.vertices }
    requires agenda_each { agenda.old.vertices ≡ game.now.graph.vertices }
    requires kept { IsReplayKept game.now (map (λ t. t.items) traces.now) progress.old }
    ensures kept { IfOk result (λ _. IsReplayKept game.now (map (λ t. t.items) traces.now) progress.new) }
    ensures settled { IfOk result (λ _. IsReplayBlocked game.now (map (λ t. t.items) traces.now) progress.new) }
{
    loop {
        run_agenda(game, traces, progress, agenda)?;
        match first_met(game, traces, progress) {
            Some((vertex, row)) => use_met(progress, agenda, vertex, row)?,
            None => return Ok(()),
        }
    }
}

/// The firings of one interleaving of recorded runs, each with its vertex, in order; `Stuck` if there is none. The time
/// is linear in rows and edges.
///
/// `traces` has the rows of each vertex.
pub fn replay(
    alloc: Global,
    game: &Game,
    traces: &[Vec<TraceRow>],
) -> Result<Vec<(u64, u64)>, ReplayFault>
    requires { length traces.now ≡ game.now.graph.vertices }
    ensures { MatchResult result (λ fired. AreFirings game.now (map (λ t. t.items) traces.now) fired.items)
        (IsReplayFault game.now (map (λ t. t.items) traces.now)) }
{
    Ok(replay_complete(alloc, game, traces)?.firings)
}

/// The firings that `replay` returns, and what is left of the game then.
pub fn replay_complete(
    alloc: Global,
    game: &Game,
    traces: &[Vec<TraceRow>],
) -> Result<Replayed, ReplayFault>
    requires { length traces.now ≡ game.now.graph.vertices }
    ensures { MatchResult result (IsReplayed game.now (map (λ t. t.items) traces.now))
        (IsReplayFault game.now (map (λ t. t.items) traces.now)) }
{
    let mut progress = ReplayProgress::new(alloc, game)?;
    let mut agenda = Agenda::of_all(alloc, game.graph().vertices())?;
    settle(game, traces, &mut progress, &mut agenda)?;
    match vertex_to_blame(game, traces, &progress) {
        Some(vertex) => Err(ReplayFault::Stuck {
            vertex,
            row: progress.used_rows(vertex) as u64,
        }),
        None => {
            let left = all_left(alloc, game, &progress)?;
            Ok(Replayed {
                firings: progress.firings,
                left,
            })
        }
    }
}
