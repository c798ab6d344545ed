//! Counts that are given, not searched for.

ghost use Rattle.std.specs.Prelude.{◌≡◌, ◌≤◌, ℕ, length, slice_index, IfSome};

use crate::burning::Burning;
use crate::hierarchy::Hierarchy;
use crate::solver::{Progress, Target};
use crate::tuning::AHEAD;
use chip_graph::Game;
use std::alloc::{AllocError, Global};
use std::num::nearest_u64_to_f64;

/// Counts given for a game, each up to its limit and 0 for the sink, lowered until they pass the test. `None` if that
/// fails or takes too many steps, or memory runs out. A missing count is 0.
pub fn lower_counts(alloc: Global, game: &Game, given: &[u64]) -> Option<Vec<u64>>
    ensures each { IfSome result (λ counts. length counts.items ≡ game.now.graph.vertices) }
    ensures lowered { IfSome result
        (λ counts. (v : ℕ) → slice_index counts.items v ≤ slice_index given.now v) }
{
    let hierarchy = Hierarchy::flat(alloc, game.graph()).ok()?;
    let fired = vec![in alloc; 0; game.graph().vertices() as usize].ok()?;
    let mut counts = lower_by(alloc, &hierarchy, game, &fired, given)?;
    keep_below(&mut counts, given);
    Some(counts)
}

/// Lowers each number to at most the other one, or to 0 if there is none.
fn keep_below(numbers: &mut [u64], others: &[u64])
    ensures { (v : ℕ) → slice_index numbers.new v ≤ slice_index others.now v }
{
    for (index, number) in numbers.iter_mut().enumerate() {
        *number = (*number).min(others.get(index).copied().unwrap_or(0));
    }
}

/// The given counts, lowered on a graph on which nothing has fired.
fn lower_by(
    alloc: Global,
    hierarchy: &Hierarchy,
    game: &Game,
    fired: &[u64],
    given: &[u64],
) -> Option<Vec<u64>>
    ensures { IfSome result (λ counts. length counts.items ≡ length fired.now) }
{
    let counts = floats_of(alloc, game, given).ok()?;
    let mut burning = Burning::new(alloc);
    if !burning
        .begin(alloc, hierarchy, Target { game, fired }, &counts)
        .ok()?
    {
        return None;
    }
    // A step visits each vertex and edge about once.
    for _ in 0..AHEAD {
        match burning.step(hierarchy) {
            Progress::Converged => return burning.counts(alloc, fired, game.limit()).ok(),
            Progress::Diverged => return None,
            Progress::Going => {}
        }
    }
    None
}

/// A count for each vertex of a game, up to its limit and 0 for the sink.
pub(crate) fn floats_of(alloc: Global, game: &Game, given: &[u64]) -> Result<Vec<f64>, AllocError> {
    let graph = game.graph();
    let mut counts = vec![in alloc; 0.0; graph.vertices() as usize]?;
    for (vertex, count) in counts.iter_mut().enumerate() {
        if vertex < given.len() && vertex as u64 != graph.sink() {
            *count = nearest_u64_to_f64(given[vertex].min(game.limit()));
        }
    }
    Ok(counts)
}
