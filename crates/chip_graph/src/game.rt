ghost use Rattle.std.specs.Prelude.{◌≡◌, ◌<◌, ◌≤◌, IfOk, IfSome, IfNone, sum};
ghost use Rattle.chip_graph.specs.Limits.{max_total};

use crate::fault::GameFault;
use crate::graph::Graph;
use std::alloc::{AllocError, Global};
use std::marker::Model;

/// The most chips that a game holds: 2^40.
pub const MAX_TOTAL: u64 = 1 << 40;
/// The greatest firing limit: 2^40.
pub const MAX_LIMIT: u64 = 1 << 40;

/// A chip-firing game (a sandpile): a graph, the chips at the start (the configuration), and the most firings of each
/// vertex (topplings).
#[derive(Drop)]
pub struct Game {
    graph: Graph,
    /// The chips at the start, by vertex.
    start: Vec<u64>,
    limit: u64,
    /// The sum of `start`.
    total: u64,
}

impl Model for Game {
    ghost use Rattle.chip_graph.specs.ChipGame.{ChipGame};

    ghost Value = { ChipGame };

    ghost use Rattle.chip_graph.specs.GameFields.{game_inside, IsCounted};

    ghost view = { game_inside };

    ghost invariant = { IsCounted };
}

impl Game {
    ghost use Rattle.std.specs.Prelude.{◌≡◌, ◌↔◌, IsTrue, sum};
    ghost use Rattle.chip_graph.specs.ChipGame.{IsGame};
    ghost use Rattle.chip_graph.specs.Faults.{MakesGame};
    ghost use Rattle.chip_graph.specs.More.{AreOfVertices, HasRoomForChips, AddsChips};

    /// A game, or the first fault. `start` has the chips of each vertex.
    pub fn new(graph: Graph, start: Vec<u64>, limit: u64) -> Result<Game, GameFault>
        ensures { MakesGame (record { graph = graph; start = start.items; limit = limit }) result }
    {
        if start.len() as u64 != graph.vertices() {
            return Err(GameFault::StartLength);
        }
        let total = total_of(&start).ok_or(GameFault::Total)?;
        if limit > MAX_LIMIT {
            return Err(GameFault::Limit);
        }
        Ok(Game {
            graph,
            start,
            limit,
            total,
        })
    }

    /// An equal game, in time linear in vertices and edges.
    pub fn copy(&self, alloc: Global) -> Result<Game, AllocError>
        ensures { IfOk result (λ game. game ≡ self.now) }
    {
        let graph = self.graph.copy(alloc)?;
        let start = Vec::from_slice(alloc, &self.start)?;
        Ok(Game {
            graph,
            start,
            limit: self.limit,
            total: self.total,
        })
    }

    /// Adds chips to the start. Each pair is a vertex and its number of chips; a vertex may be in several pairs. If the
    /// total would be above `MAX_TOTAL`, returns the unchanged game as the error. Allocates nothing.
    pub fn with_more(self, more: &[(u64, u64)]) -> Result<Game, Game>
        requires { AreOfVertices self more.now }
        ensures { AddsChips self more.now result }
    {
        let Some(total) = total_with(self.total, more) else {
            return Err(self);
        };
        let Game {
            graph,
            mut start,
            limit,
            ..
        } = self;
        add_each(&mut start, more);
        Ok(Game {
            graph,
            start,
            limit,
            total,
        })
    }

    /// Whether these chips and those of the start are at most `MAX_TOTAL`. Each pair is a vertex and its number of
    /// chips.
    pub fn has_room(&self, more: &[(u64, u64)]) -> bool
        ensures { IsTrue result ↔ HasRoomForChips self.now more.now }
    {
        total_with(self.total, more).is_some()
    }

    /// The graph of the game.
    pub fn graph(&self) -> &Graph
        ensures value { result.now ≡ self.now.graph }
        ensures game { IsGame self.now }
    {
        &self.graph
    }

    /// The graph of the game, for another game.
    pub fn into_graph(self) -> Graph
        ensures value { result ≡ self.graph }
        ensures game { IsGame self }
    {
        self.graph
    }

    /// The chips at the start, one number for each vertex.
    pub fn start(&self) -> &[u64]
        ensures value { result.now ≡ self.now.start }
        ensures game { IsGame self.now }
    {
        &self.start
    }

    /// The most firings of each vertex, 0 to `MAX_LIMIT`.
    pub fn limit(&self) -> u64
        ensures value { result ≡ self.now.limit }
        ensures game { IsGame self.now }
    {
        self.limit
    }

    /// The number of chips in all, 0 to `MAX_TOTAL`.
    pub fn total(&self) -> u64
        ensures value { result ≡ sum self.now.start }
        ensures game { IsGame self.now }
    {
        self.total
    }
}

/// The sum of chips, or `None` if it is above `MAX_TOTAL`.
pub fn total_of(chips: &[u64]) -> Option<u64>
    ensures some { IfSome result (λ total. (total ≡ sum chips.now) × (total ≤ max_total)) }
    ensures none { IfNone result (max_total < sum chips.now) }
{
    let mut total = 0u64;
    for count in chips {
        if *count > MAX_TOTAL - total {
            return None;
        }
        total += *count;
    }
    Some(total)
}

ghost use Rattle.std.specs.Prelude.{ℕ, ◌+◌, length, slice_index, All};
ghost use Rattle.chip_graph.specs.More.{brought_to, all_brought};

/// The total with the chips of the pairs, or `None` if it is above `MAX_TOTAL`.
fn total_with(total: u64, more: &[(u64, u64)]) -> Option<u64>
    requires { total ≤ max_total }
    ensures some { IfSome result (λ all. (all ≡ total + all_brought more.now) × (all ≤ max_total)) }
    ensures none { IfNone result (max_total < total + all_brought more.now) }
{
    let mut all = total;
    for &(_, count) in more {
        if count > MAX_TOTAL - all {
            return None;
        }
        all += count;
    }
    Some(all)
}

/// Adds the chips of each pair to its vertex.
fn add_each(start: &mut [u64], more: &[(u64, u64)])
    requires vertices { All (λ pair. pair.0 < length start.old) more.now }
    requires few { sum start.old + all_brought more.now ≤ max_total }
    ensures each { length start.new ≡ length start.old }
    ensures start { (v : ℕ) → v < length start.old
        → slice_index start.new v ≡ slice_index start.old v + brought_to more.now v }
    ensures total { sum start.new ≡ sum start.old + all_brought more.now }
{
    for &(vertex, count) in more {
        start[vertex as usize] += count;
    }
}
