//! Many games on one graph.

ghost use Rattle.std.specs.Prelude.{◌≡◌, ◌↔◌, ℕ, ◌+◌, ◌*◌, ◌<◌, ◌++◌, ◌∷◌, [], length, IsTrue, OnOk, IfOk, MatchResult};
ghost use Rattle.chip_graph.specs.Multigraph.{IsGraph};
ghost use Rattle.chip_library.specs.Batch.{IsBatch, ArePlayed, IsFaultOfGames, StabilizesAll};

use crate::edges::EdgeLists;
use crate::fault::CallFault;
use crate::game::game_of;
use chip_fire::{Unwatched, Watch, plain_given};
use chip_graph::Graph;
use chip_sequence::Outcome;
use std::alloc::{AllocError, Global};

/// Plays games on one graph, each to its end within the firing limit (at most 2^40).
///
/// `stopped` has one number per game; `chips` and `fired` have one per vertex of each game, game after game. A game has
/// at most 2^40 chips. `guesses` is as long as `chips`, or empty: how often each vertex might fire, which only affects
/// the speed.
///
/// On success `chips` holds the chips at the end, `fired` how often each vertex fired, and `stopped` how many vertices
/// of each game the limit stopped. On a fault all three are unchanged. Returns the first fault: of the lengths, the
/// graph, or the first game that has one.
pub fn stabilize_all(
    alloc: Global,
    edges: EdgeLists<'_>,
    limit: u64,
    guesses: &[u64],
    chips: &mut [u64],
    fired: &mut [u64],
    stopped: &mut [u64],
) -> Result<(), CallFault>
    ensures { StabilizesAll edges.entry limit guesses.now
        (record { chips = chips.old; fired = fired.old; stopped = stopped.old })
        (record { chips = chips.new; fired = fired.new; stopped = stopped.new }) result }
{
    stabilize_all_watched(
        alloc,
        edges,
        limit,
        guesses,
        chips,
        fired,
        stopped,
        &mut Unwatched,
    )
}

/// Does the same as `stabilize_all` and reports each play's progress to `watch`, which does not affect the results.
pub fn stabilize_all_watched<W: Watch>(
    alloc: Global,
    edges: EdgeLists<'_>,
    limit: u64,
    guesses: &[u64],
    chips: &mut [u64],
    fired: &mut [u64],
    stopped: &mut [u64],
    watch: &mut W,
) -> Result<(), CallFault>
    ensures { StabilizesAll edges.entry limit guesses.now
        (record { chips = chips.old; fired = fired.old; stopped = stopped.old })
        (record { chips = chips.new; fired = fired.new; stopped = stopped.new }) result }
{
    if !is_batch(edges, guesses, chips, fired, stopped) {
        return Err(CallFault::Lengths);
    }
    let graph = edges.graph(alloc)?;
    let ends = play_each(alloc, graph, limit, guesses, chips, stopped.len(), watch)?;
    chips.copy_from_slice(&ends.chips);
    fired.copy_from_slice(&ends.fired);
    stopped.copy_from_slice(&ends.stopped);
    Ok(())
}

/// Whether the slices have matching lengths.
fn is_batch(
    edges: EdgeLists<'_>,
    guesses: &[u64],
    chips: &[u64],
    fired: &[u64],
    stopped: &[u64],
) -> bool
    ensures { IsTrue result ↔ IsBatch edges.entry guesses.now
        (record { chips = chips.now; fired = fired.now; stopped = stopped.now }) }
{
    let numbers = (stopped.len() as u64).checked_mul(edges.vertices);
    edges.has_whole_rows()
        && numbers == Some(chips.len() as u64)
        && fired.len() == chips.len()
        && (guesses.is_empty() || guesses.len() == chips.len())
}

/// The ends of games, in order.
#[derive(Drop)]
struct Ends {
    chips: Vec<u64>,
    fired: Vec<u64>,
    /// For each game the number of vertices that the limit stopped.
    stopped: Vec<u64>,
}

impl Ends {
    /// No ends, with room for `numbers` numbers of vertices and `games` games, if these are two or more.
    fn with_room(alloc: Global, numbers: usize, games: usize) -> Result<Ends, AllocError>
        ensures { IfOk result (λ ends. (ends.chips.items ≡ []) × (ends.fired.items ≡ []) × (ends.stopped.items ≡ [])) }
    {
        // (one outcome is not copied)
        let room = if games > 1 { numbers } else { 0 };
        Ok(Ends {
            chips: Vec::with_capacity(alloc, room)?,
            fired: Vec::with_capacity(alloc, room)?,
            stopped: Vec::with_capacity(alloc, games)?,
        })
    }

    /// Appends an outcome.
    fn push(&mut self, outcome: Outcome) -> Result<(), AllocError>
        ensures chips { OnOk result (self.new.chips.items ≡ self.old.chips.items ++ outcome.chips.items) }
        ensures fired { OnOk result (self.new.fired.items ≡ self.old.fired.items ++ outcome.fired.items) }
        ensures stopped { OnOk result
            (self.new.stopped.items ≡ self.old.stopped.items ++ length outcome.over.items ∷ []) }
    {
        let Outcome {
            fired,
            chips,
            over,
            ..
        } = outcome;
        append(&mut self.chips, chips)?;
        append(&mut self.fired, fired)?;
        self.stopped.push(over.len() as u64)?;
        Ok(())
    }
}

/// Appends numbers to others. If there is no room for any, they are moved and not copied.
fn append(numbers: &mut Vec<u64>, more: Vec<u64>) -> Result<(), AllocError>
    ensures { OnOk result (numbers.new.items ≡ numbers.old.items ++ more.items) }
{
    if numbers.is_empty() && numbers.capacity() == 0 {
        *numbers = more;
        return Ok(());
    }
    numbers.extend_from_slice(&more)
}

/// The ends of `games` games that begin with these chips.
fn play_each<W: Watch>(
    alloc: Global,
    mut graph: Graph,
    limit: u64,
    guesses: &[u64],
    chips: &[u64],
    games: usize,
    watch: &mut W,
) -> Result<Ends, CallFault>
    requires graph { IsGraph graph }
    requires chips_each { length chips.now ≡ games * graph.vertices }
    ensures { MatchResult result
        (λ ends. ArePlayed graph limit chips.now games
        (record { chips = ends.chips.items; fired = ends.fired.items; stopped = ends.stopped.items }))
        (IsFaultOfGames graph limit chips.now games) }
{
    let vertices = graph.vertices() as usize;
    let mut ends = Ends::with_room(alloc, chips.len(), games)?;
    let (mut rest, mut left) = (chips, guesses);
    for number in 0..games {
        let (start, later) = rest.split_at(vertices);
        let (guess, later_guesses) = left.split_at(vertices.min(left.len()));
        let game = game_of(alloc, graph, limit, start, number as u64)?;
        let outcome = plain_given(alloc, &game, guess, watch)?;
        ends.push(outcome)?;
        graph = game.into_graph();
        (rest, left) = (later, later_guesses);
    }
    Ok(ends)
}
