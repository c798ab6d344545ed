//! The game that the files of a command mean.

ghost use Rattle.chip_command.specs.CommandAnswers.{MeetsSpec};
ghost use Rattle.chip_command.specs.Inputs.{reading_game};

use crate::fault::Fault;
use chip_file::{read_chips_within, read_graph_within};
use chip_graph::{Game, Limits};
use std::alloc::Global;
use std::io::Read;

/// Reads the game within these limits that two files and a firing limit mean, or returns their first fault.
pub fn read_game<G: Read, C: Read>(
    alloc: Global,
    limits: Limits,
    graph: &mut G,
    chips: &mut C,
    limit: u64,
) -> Result<Game, Fault>
    ensures { MeetsSpec (reading_game limits (G.remaining graph.old) (C.remaining chips.old) limit) result }
{
    let graph = read_graph_within(alloc, limits, graph)?;
    let start = read_chips_within(alloc, limits, chips, graph.vertices())?;
    Ok(Game::new(graph, start, limit)?)
}
