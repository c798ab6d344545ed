ghost use Rattle.std.specs.Prelude.{◌≡◌, ◌<◌, MatchResult};
ghost use Rattle.std.specs.Option.{option_copied};
ghost use Rattle.chip_crew.specs.Plans.{is_plan};
ghost use Rattle.chip_crew.specs.Feeding.{pairs};
ghost use Rattle.chip_crew.specs.Finished.{CanPlay, RefusesPlan};

use crate::fault::CrewFault;
use chip_graph::Game;
use chip_link::{MAX_RING, Ring};

/// The most workers of a crew.
pub const MAX_WORKERS: u64 = 64;

/// The most turns of each worker.
pub const MAX_TURNS: u64 = 1 << 40;

/// The most trace rows of each actor.
pub const MAX_TRACE_ROWS: u64 = 1 << 20;

/// The caller's control of a crew: each worker's thread calls it before each of its turns, worker 0's also after its
/// polls. Each call returns.
pub trait Gate {
    ghost use Rattle.std.specs.Prelude.{ℕ, Bool, ⊤};

    // What the result implies for a worker and one of its turns: nothing, unless the gate says more.
    ghost may_answer: { Self → ℕ → ℕ → Bool → Type 0 } = { λ _ _ _ _. ⊤ };

    /// Whether the worker may begin its turn of this number. Workers and turns are numbered from 0, and each worker
    /// counts its own turns. On false the whole crew ends.
    fn pass(&self, worker: u64, turn: u64) -> bool
        ensures { may_answer self.now worker turn result };

    /// Reports `deficit`, the number of the root's unacknowledged messages. Worker 0 calls it after a poll that finds
    /// some, in its turn of this number. The call has no effect on the crew's work.
    fn polled(&self, turn: u64, deficit: u64)
        requires { 0 < deficit }
    {}
}

/// When worker 0 seals an edge.
#[derive(Clone, Copy)]
pub struct SealAt {
    /// Before this turn of worker 0, counted from 0. A turn that is never made seals nothing.
    pub turn: u64,
    /// The number of the edge in the graph.
    pub edge: u64,
}

/// How the workers of a crew share its actors.
#[derive(Clone, Copy)]
pub enum Sharing {
    /// All actors wait in one queue. A worker takes one, gives it a turn and puts it back.
    Queue,
    /// Each worker owns the actors of a run of vertices.
    Dealt,
}

/// The plan of a crew's work.
#[derive(Clone, Copy)]
pub struct Plan {
    /// The number of threads that share the actors, 1 to `MAX_WORKERS`.
    pub workers: u64,
    /// The number of cells in the ring of each edge, 1 to `MAX_RING`.
    pub ring: u64,
    /// The most turns of each worker, 1 to `MAX_TURNS`. Each gives one actor a turn.
    pub turns: u64,
    /// The number of rows in the trace of each actor, up to `MAX_TRACE_ROWS`.
    pub trace_rows: u64,
    /// The seal to make, if any.
    pub seal: Option<SealAt>,
}

impl Plan {
    /// The rings of this plan's net, if a crew can play this game with these feeds.
    pub(crate) fn ring_for(
        &self,
        game: &Game,
        feeds: Option<&[(u64, u64)]>,
    ) -> Result<Ring, CrewFault>
        ensures { MatchResult result (λ ring. CanPlay game.now (option_copied feeds.entry) self.now × (ring ≡ self.now.ring))
            (RefusesPlan game.now (option_copied feeds.entry) self.now) }
    {
        let ring = match Ring::new(self.ring) {
            Some(ring) if self.is_within(game) && are_feeds(game, feeds) => ring,
            _ => return Err(CrewFault::Plan),
        };
        match feeds {
            Some(feeds) if !game.has_room(feeds) => Err(CrewFault::Total),
            _ => Ok(ring),
        }
    }

    /// Whether the numbers are in their ranges for this game.
    fn is_within(&self, game: &Game) -> bool
        ensures { result ≡ is_plan game.now self.now }
    {
        let names_edge = match self.seal {
            Some(at) => at.edge < game.graph().edges().len() as u64,
            None => true,
        };
        is_count(MAX_WORKERS, self.workers)
            && is_count(MAX_RING, self.ring)
            && is_count(MAX_TURNS, self.turns)
            && self.trace_rows <= MAX_TRACE_ROWS
            && names_edge
    }
}

fn is_count(most: u64, count: u64) -> bool
    ensures { result ≡ Rattle.chip_crew.specs.Plans.is_within most count }
{
    0 < count && count <= most
}

/// Whether each feed is of a vertex of the graph and of 1 chip or more.
fn are_feeds(game: &Game, feeds: Option<&[(u64, u64)]>) -> bool
    ensures { result ≡ Rattle.chip_crew.specs.Plans.are_feeds game.now (pairs (option_copied feeds.entry)) }
{
    let Some(feeds) = feeds else {
        return true;
    };
    let vertices = game.graph().vertices();
    feeds
        .iter()
        .all(|&(vertex, count)| vertex < vertices && 0 < count)
}
