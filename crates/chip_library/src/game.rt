ghost use Rattle.std.specs.Prelude.{◌≡◌, MatchResult};
ghost use Rattle.chip_graph.specs.Multigraph.{IsGraph};
ghost use Rattle.chip_graph.specs.ChipGame.{IsGame};
ghost use Rattle.chip_sequence.specs.Counted.{game_from};
ghost use Rattle.chip_library.specs.CallFaults.{IsFaultOfGame};

use crate::fault::CallFault;
use chip_graph::{Game, Graph};
use std::alloc::Global;

/// The game on this graph that begins with these chips, or its first fault, under this number.
pub(crate) fn game_of(
    alloc: Global,
    graph: Graph,
    limit: u64,
    chips: &[u64],
    number: u64,
) -> Result<Game, CallFault>
    requires { IsGraph graph }
    ensures { MatchResult result (λ game. (game ≡ game_from graph chips.now limit) × IsGame game)
        (IsFaultOfGame (game_from graph chips.now limit) number) }
{
    let start = Vec::from_slice(alloc, chips)?;
    Game::new(graph, start, limit).map_err(|fault| CallFault::Game(fault, number))
}
