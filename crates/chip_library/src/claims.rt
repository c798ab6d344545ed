//! Claims of a game's outcome: its counts and chips.

ghost use Rattle.std.specs.Prelude.{◌≡◌, ℕ, ◌<◌, length, MatchOption};
ghost use Rattle.chip_library.specs.Claims.{AgreesAt, IsDifference, Verifies};

use crate::edges::EdgeLists;
use crate::fault::CallFault;
use crate::game::game_of;
use chip_fire::{Unwatched, Watch, plain_given};
use chip_sequence::Outcome;
use std::alloc::Global;

/// Verifies that a game ends, within the firing limit (at most 2^40), with the counts `fired` and the chips `ends`.
/// Each slice has one number per vertex; `chips` holds the chips at the start.
///
/// Otherwise the fault names the least vertex that differs. Faults of the lengths, the graph and the game come first.
pub fn verify(
    alloc: Global,
    edges: EdgeLists<'_>,
    limit: u64,
    chips: &[u64],
    fired: &[u64],
    ends: &[u64],
) -> Result<(), CallFault>
    ensures { Verifies edges.entry limit chips.now fired.now ends.now result }
{
    verify_watched(alloc, edges, limit, chips, fired, ends, &mut Unwatched)
}

/// Does the same as `verify` and reports the progress of its play to `watch`. The result does not depend on `watch`.
pub fn verify_watched<W: Watch>(
    alloc: Global,
    edges: EdgeLists<'_>,
    limit: u64,
    chips: &[u64],
    fired: &[u64],
    ends: &[u64],
    watch: &mut W,
) -> Result<(), CallFault>
    ensures { Verifies edges.entry limit chips.now fired.now ends.now result }
{
    if !edges.has_whole_rows() || fired.len() != chips.len() || ends.len() != chips.len() {
        return Err(CallFault::Lengths);
    }
    let graph = edges.graph(alloc)?;
    let game = game_of(alloc, graph, limit, chips, 0)?;
    let outcome = plain_given(alloc, &game, fired, watch)?;
    match first_difference(&outcome, fired, ends) {
        Some(vertex) => Err(CallFault::Differs(vertex)),
        None => Ok(()),
    }
}

/// The least vertex at which the claimed counts or chips differ from the outcome's.
fn first_difference(outcome: &Outcome, fired: &[u64], ends: &[u64]) -> Option<u64>
    requires fired_each { length outcome.now.fired.items ≡ length fired.now }
    requires chips_each { length outcome.now.chips.items ≡ length fired.now }
    requires ends_each { length ends.now ≡ length fired.now }
    ensures { MatchOption result ((v : ℕ) → v < length fired.now → AgreesAt outcome.now fired.now ends.now v)
        (IsDifference outcome.now fired.now ends.now) }
{
    for vertex in 0..fired.len() {
        if fired[vertex] != outcome.fired[vertex] || ends[vertex] != outcome.chips[vertex] {
            return Some(vertex as u64);
        }
    }
    None
}
