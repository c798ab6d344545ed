//! `plain`: the report of a game played on one thread.

ghost use Rattle.chip_graph.specs.Limits.{standard};
ghost use Rattle.chip_command.specs.CommandAnswers.{GivesAnswer};
ghost use Rattle.chip_command.specs.PlainCommand.{PlainAnswers, PlainReports, playing};
ghost use Rattle.chip_engine.specs.GuessCommand.{GuessAnswers};

use crate::guess::read_guess;
use chip_command::{Answer, Ended, Fault, PlayOptions, deliver, read_game};
use chip_fire::{Unwatched, Watch, plain_given};
use chip_graph::Game;
use std::alloc::Global;
use std::io::{Read, Write};

/// Plays the game of a graph file, a chips file and a firing limit, within the standard limits, and writes its report.
///
/// The whole report is made before the first byte is written.
pub fn plain_engine<G: Read, C: Read, W: Write>(
    alloc: Global,
    graph: &mut G,
    chips: &mut C,
    limit: u64,
    output: &mut W,
) -> Result<Ended, Fault>
    ensures known { PlainAnswers standard (G.remaining graph.old) (C.remaining chips.old) limit
        (W.contents output.old) (W.contents output.new) result }
    ensures report { PlainReports standard (G.remaining graph.old) (C.remaining chips.old) limit
        (W.contents output.old) (W.contents output.new) result }
{
    plain_engine_with(
        alloc,
        graph,
        chips,
        PlayOptions::standard(limit),
        &mut Unwatched,
        output,
    )
}

/// Does what `plain_engine` does, by these options, and reports progress to `watch` every few rounds. The watcher
/// changes neither the result nor the bytes.
pub fn plain_engine_with<G: Read, C: Read, P: Watch, W: Write>(
    alloc: Global,
    graph: &mut G,
    chips: &mut C,
    options: PlayOptions,
    watch: &mut P,
    output: &mut W,
) -> Result<Ended, Fault>
    ensures known { PlainAnswers options.limits (G.remaining graph.old) (C.remaining chips.old) options.limit
        (W.contents output.old) (W.contents output.new) result }
    ensures report { PlainReports options.limits (G.remaining graph.old) (C.remaining chips.old) options.limit
        (W.contents output.old) (W.contents output.new) result }
{
    let game = read_game(alloc, options.limits, graph, chips, options.limit)?;
    let answer = play(alloc, game, &[], watch)?;
    deliver(output, answer)
}

/// Does what `plain_engine_with` does, from a guess of how often each vertex fires, the third text. A good guess makes
/// the play shorter; none changes what is written. A text that is no guess is a fault.
pub fn plain_guess_engine_with<G: Read, C: Read, Q: Read, P: Watch, W: Write>(
    alloc: Global,
    graph: &mut G,
    chips: &mut C,
    guess: &mut Q,
    options: PlayOptions,
    watch: &mut P,
    output: &mut W,
) -> Result<Ended, Fault>
    ensures known { GuessAnswers options.limits (G.remaining graph.old) (C.remaining chips.old)
        (Q.remaining guess.old) options.limit (W.contents output.old) (W.contents output.new) result }
    ensures report { PlainReports options.limits (G.remaining graph.old) (C.remaining chips.old) options.limit
        (W.contents output.old) (W.contents output.new) result }
{
    let PlayOptions { limits, limit } = options;
    let game = read_game(alloc, limits, graph, chips, limit)?;
    let counts = read_guess(alloc, limits, guess, game.graph().vertices())?;
    let answer = play(alloc, game, &counts, watch)?;
    deliver(output, answer)
}

/// The report of a game, played from given counts.
fn play<P: Watch>(alloc: Global, game: Game, given: &[u64], watch: &mut P) -> Result<Answer, Fault>
    ensures { GivesAnswer (playing game) result }
{
    watch.plays(&game);
    let outcome = plain_given(alloc, &game, given, watch)?;
    // (the report needs room)
    drop(game);
    let answer = Answer::of_outcome(alloc, &outcome)?;
    watch.writes(answer.text.len() as u64);
    Ok(answer)
}
