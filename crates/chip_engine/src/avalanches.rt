//! `avalanches`: chips dropped one after another, and the avalanche that each drop starts.

ghost use Rattle.std.specs.Prelude.{◌≡◌, MatchResult, option_map};
ghost use Rattle.chip_graph.specs.Limits.{standard};
ghost use Rattle.chip_graph.specs.ChipGame.{IsGame};
ghost use Rattle.chip_graph.specs.More.{AreOfVertices, HasRoomForChips};
ghost use Rattle.chip_sequence.specs.Play.{IsPlayed};
ghost use Rattle.chip_engine.specs.AvalanchesCommand.{AvalanchesAnswers, PlaysDrops, ReportAnswer};
ghost use Rattle.chip_engine.specs.AvalanchesCommand.{reading_drops};

use crate::drop_rows::{HEADER, write_rows};
use chip_command::{Ended, Fault, PlayOptions, read_game, status_of};
use chip_file::{drops_of_text, read_whole_within};
use chip_fire::{Pile, Unwatched, Watch, plain_watched};
use chip_graph::{Game, GameFault, Limits};
use chip_report::{is_closed, report, write_all_of};
use chip_sequence::Outcome;
use std::alloc::Global;
use std::io::{Read, Write};

/// Plays the game of a graph file, a chips file and a firing limit to its end, within the standard limits, and then
/// drops the chips of a third file on it, row by row, each played to its end. Writes the rows of the avalanches, and
/// then, if asked, the report of the game that has all these chips at the start.
///
/// All files are read before the first byte is written. The limit counts all firings of a vertex. A drop whose play it
/// stops has no row, and ends the command.
pub fn avalanches_engine<G: Read, C: Read, D: Read, W: Write, T: Write>(
    alloc: Global,
    graph: &mut G,
    chips: &mut C,
    drops: &mut D,
    limit: u64,
    output: &mut W,
    report: &mut Option<T>,
) -> Result<Ended, Fault>
    ensures { AvalanchesAnswers standard (G.remaining graph.old) (C.remaining chips.old) (D.remaining drops.old) limit
        (record { rows = W.contents output.old; report = option_map T.contents report.old })
        (record { rows = W.contents output.new; report = option_map T.contents report.new }) result }
{
    avalanches_engine_with(
        alloc,
        graph,
        chips,
        drops,
        PlayOptions::standard(limit),
        &mut Unwatched,
        output,
        report,
    )
}

/// Does what `avalanches_engine` does, by these options. Reports progress to `watch` during the play before the drops,
/// after a slow drop, and during the report. The watcher changes neither the result nor the bytes.
pub fn avalanches_engine_with<G: Read, C: Read, D: Read, P: Watch, W: Write, T: Write>(
    alloc: Global,
    graph: &mut G,
    chips: &mut C,
    drops: &mut D,
    options: PlayOptions,
    watch: &mut P,
    output: &mut W,
    report: &mut Option<T>,
) -> Result<Ended, Fault>
    ensures { AvalanchesAnswers options.limits (G.remaining graph.old) (C.remaining chips.old) (D.remaining drops.old)
        options.limit (record { rows = W.contents output.old; report = option_map T.contents report.old })
        (record { rows = W.contents output.new; report = option_map T.contents report.new }) result }
{
    let game = read_game(alloc, options.limits, graph, chips, options.limit)?;
    let drops = read_drops(alloc, options.limits, drops, &game)?;
    watch.plays(&game);
    let rest = plain_watched(alloc, &game, watch)?;
    let outcome = play_drops(alloc, game, rest, &drops, watch, output)?;
    write_report(alloc, &outcome, watch, report)
}

/// The drops of a file for a game, each a vertex and the number of chips added there.
fn read_drops<D: Read>(
    alloc: Global,
    limits: Limits,
    drops: &mut D,
    game: &Game,
) -> Result<Vec<(u64, u64)>, Fault>
    ensures { let reading = reading_drops limits (D.remaining drops.old) game.now in
        MatchResult result (λ ds. reading.gives ds.items) reading.refuses }
{
    let text = read_whole_within(alloc, limits, drops)?;
    let drops = drops_of_text(alloc, &text, game.graph().vertices())?;
    if !game.has_room(&drops) {
        return Err(Fault::Game(GameFault::Total));
    }
    Ok(drops)
}

/// Drops chips one after another on a pile; the outcome of the game with the dropped chips.
fn play_drops<P: Watch, W: Write>(
    alloc: Global,
    game: Game,
    rest: Outcome,
    drops: &[(u64, u64)],
    watch: &mut P,
    output: &mut W,
) -> Result<Outcome, Fault>
    requires game { IsGame game }
    requires played { IsPlayed game rest }
    requires vertices { AreOfVertices game drops.now }
    requires few { HasRoomForChips game drops.now }
    ensures { PlaysDrops game drops.now (W.contents output.old) (W.contents output.new) result }
{
    if !is_closed(&rest) {
        write_all_of(output, HEADER.as_bytes())?;
        return Ok(rest);
    }
    let pile = Pile::new(alloc, game, rest)?;
    let (pile, written) = write_rows(alloc, pile, drops, watch, output);
    match written {
        Ok(_) => Ok(pile.outcome(alloc)?),
        Err(fault) => Err(fault),
    }
}

/// Writes the report of an outcome, if asked.
fn write_report<P: Watch, T: Write>(
    alloc: Global,
    outcome: &Outcome,
    watch: &mut P,
    output: &mut Option<T>,
) -> Result<Ended, Fault>
    ensures { ReportAnswer (option_map T.contents output.old) (option_map T.contents output.new) outcome.now result }
{
    let ended = Ended::of(status_of(outcome));
    let Some(writer) = output else {
        return Ok(ended);
    };
    let text = report(alloc, outcome)?;
    watch.writes(text.len() as u64);
    match write_all_of(writer, &text) {
        Ok(()) => Ok(ended),
        Err(_) => Err(Fault::WriteFile),
    }
}
