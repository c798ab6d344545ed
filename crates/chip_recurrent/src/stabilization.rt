//! Stabilizations within the limits of a game.

ghost use Rattle.std.specs.Prelude.{◌≡◌, ◌⊎◌, ℕ, ◌<◌, ◌≤◌, length, sum, slice_index, IfOk, MatchResult};
ghost use Rattle.chip_graph.specs.Limits.{max_total, max_limit};
ghost use Rattle.chip_sequence.specs.Counted.{game_from};
ghost use Rattle.chip_sequence.specs.Play.{IsPlayed};
ghost use Rattle.chip_group.specs.Recurrent.{AgreeOffSink};
ghost use Rattle.chip_recurrent.specs.Stabilizations.{sum_of, IsStart, IsStabilized, IsFaultOfRow};
ghost use Rattle.chip_recurrent.specs.declared.fault.RowFault.TheVariants.{Total, NoMemory};

use crate::fault::RowFault;
use chip_fire::{Outcome, plain};
use chip_graph::game::MAX_LIMIT;
use chip_graph::{Game, Graph, total_of};
use core::mem::replace_with;
use std::alloc::{AllocError, Global};

/// A graph with the stable chips of each vertex, and how often each fired to stabilize.
#[derive(Drop)]
pub struct Stabilized {
    pub graph: Graph,
    pub chips: Vec<u64>,
    pub fired: Vec<u64>,
}

/// The stable chips of each vertex, and how often each fired to stabilize.
#[derive(Drop)]
pub(crate) struct Stabilization {
    pub chips: Vec<u64>,
    pub fired: Vec<u64>,
}

/// The stabilization of the sum of two configurations, the second of which has 0 where it has no number. A fault names
/// this row.
pub fn stabilized_sum(
    alloc: Global,
    graph: Graph,
    chips: &[u64],
    more: &[u64],
    row: u64,
) -> Result<Stabilized, RowFault>
    requires { length chips.now ≡ graph.vertices }
    ensures { (x : ℕ → ℕ) → AgreeOffSink graph (sum_of chips.now more.now) x
        → MatchResult result (λ s. (s.graph ≡ graph) × IsStabilized graph x s.chips.items s.fired.items)
        (IsFaultOfRow graph x row) }
{
    let mut graph = graph;
    let end = stabilize_on(alloc, &mut graph, chips, more, row)?;
    Ok(Stabilized {
        graph,
        chips: end.chips,
        fired: end.fired,
    })
}

/// The same on a graph that is lent, and is unchanged at the end.
pub(crate) fn stabilize_on(
    alloc: Global,
    graph: &mut Graph,
    chips: &[u64],
    more: &[u64],
    row: u64,
) -> Result<Stabilization, RowFault>
    requires { length chips.now ≡ graph.old.vertices }
    ensures graph { graph.new ≡ graph.old }
    ensures end { (x : ℕ → ℕ) → AgreeOffSink graph.old (sum_of chips.now more.now) x
        → MatchResult result (λ s. IsStabilized graph.old x s.chips.items s.fired.items)
        (IsFaultOfRow graph.old x row) }
{
    let start = start_of(alloc, graph, chips, more)?;
    let outcome = replace_with(graph, (alloc, start, row), played)?;
    if !outcome.over.is_empty() {
        return Err(RowFault::Stopped(row));
    }
    let mut chips = outcome.chips;
    chips[graph.sink() as usize] = 0;
    Ok(Stabilization {
        chips,
        fired: outcome.fired,
    })
}

/// The graph, and the outcome of the game on it that begins with these chips. A fault names this row.
fn played(graph: Graph, given: (Global, Vec<u64>, u64)) -> (Graph, Result<Outcome, RowFault>)
    requires { length given.1.items ≡ graph.vertices }
    ensures graph { result.0 ≡ graph }
    ensures outcome { MatchResult result.1
        (λ outcome. (sum given.1.items ≤ max_total) × IsPlayed (game_from graph given.1.items max_limit) outcome)
        (λ fault. (fault ≡ NoMemory) ⊎ ((fault ≡ Total given.2) × (max_total < sum given.1.items))) }
{
    let (alloc, start, row) = given;
    if total_of(&start).is_none() {
        return (graph, Err(RowFault::Total(row)));
    }
    let game = game_from(graph, start);
    match plain(alloc, &game) {
        Ok(outcome) => (game.into_graph(), Ok(outcome)),
        Err(_) => (game.into_graph(), Err(RowFault::NoMemory)),
    }
}

/// The game that begins with these chips.
fn game_from(graph: Graph, start: Vec<u64>) -> Game
    requires each { length start.items ≡ graph.vertices }
    requires few { sum start.items ≤ max_total }
    ensures { result ≡ game_from graph start.items max_limit }
{
    match Game::new(graph, start, MAX_LIMIT) {
        Ok(game) => game,
        Err(_) => unreachable!(),
    }
}

/// The chips of both, up to 2^64 - 1, and none on the sink.
fn start_of(
    alloc: Global,
    graph: &Graph,
    chips: &[u64],
    more: &[u64],
) -> Result<Vec<u64>, AllocError>
    requires { length chips.now ≡ graph.now.vertices }
    ensures { IfOk result (λ start. IsStart graph.now (sum_of chips.now more.now) start.items) }
{
    let mut start = Vec::from_slice(alloc, chips)?;
    for (vertex, count) in start.iter_mut().enumerate() {
        *count = count.saturating_add(number_at(more, vertex));
    }
    start[graph.sink() as usize] = 0;
    Ok(start)
}

/// The number of a vertex, or 0 if there is none.
#[inline]
fn number_at(numbers: &[u64], vertex: usize) -> u64
    ensures { result ≡ slice_index numbers.now vertex }
{
    if vertex < numbers.len() {
        return numbers[vertex];
    }
    0
}
