//! The commands of one thread: each opens the files that its arguments name and calls its engine.
//!
//! No contract can name the bytes of a real file. So a command gets its opener as an argument, and its contract is
//! about files whose bytes are known.

ghost use Rattle.std.specs.Prelude.{◌≡◌, ◌⊎◌, IfErr, IfOk};
ghost use Rattle.chip_console.specs.Commands.{ChecksFiles, DropsFiles, IdentifiesFiles, JudgesFiles, PlaysFiles, ReplaysFiles, RepresentsFiles, ResumesFiles};
ghost use Rattle.chip_console.specs.Commands.{SimulatesFiles, VerifiesFiles};
ghost use Rattle.chip_console.specs.Options.{limits_of, judge_options, play_options, replay_options, simulate_options};

use crate::console::{Console, Opener};
use crate::progress::{ClaimProgress, RoundProgress};
use chip_arguments::{
    AvalancheArguments, GameArguments, GraphArguments, JudgeArguments, PlainArguments,
    ReplayArguments, SimulationArguments, VerifyArguments,
};
use chip_command::{Ended, Fault};
use chip_engine::{
    JudgeOptions, PlayOptions, ReplayOptions, SimulateOptions, avalanches_engine_with,
    check_engine_with, identity_engine, judge_engine_with, plain_engine_with,
    plain_guess_engine_with, recurrent_engine, replay_engine_with, resume_engine_with,
    simulate_engine_with, verify_engine_with,
};
use chip_graph::Limits;
use chip_link::Ring;
use std::fs::File;
use std::io::{Input, Write};
use std::rt::{Clock, Files};

impl<R: Files<File = File> + Input + Clock + Eprint + AllocGlobal> Console<'_, R> {
    /// Checks a graph.
    pub fn check<O: Opener, W: Write>(
        &self,
        files: &O,
        asked: &GraphArguments<'_>,
        output: &mut W,
    ) -> Result<Ended, Fault>
        ensures { ChecksFiles O.known asked.now (W.contents output.old) (W.contents output.new) result }
    {
        let mut graph = files.open(&asked.graph)?;
        check_engine_with(self.rt.alloc(), &mut graph, limits_of(asked.large), output)
    }

    /// Plays a game on one thread, from a guess if one is named.
    pub fn play<O: Opener, W: Write>(
        &self,
        files: &O,
        asked: &PlainArguments<'_>,
        output: &mut W,
    ) -> Result<Ended, Fault>
        ensures { PlaysFiles O.known asked.now (W.contents output.old) (W.contents output.new) result }
    {
        let (mut graph, mut chips) = open_game(files, &asked.game)?;
        let (alloc, options) = (self.rt.alloc(), play_options(&asked.game));
        let mut progress = RoundProgress::start(self);
        match &asked.guess {
            Some(file) => plain_guess_engine_with(
                alloc,
                &mut graph,
                &mut chips,
                &mut files.open(file)?,
                options,
                &mut progress,
                output,
            ),
            None => plain_engine_with(
                alloc,
                &mut graph,
                &mut chips,
                options,
                &mut progress,
                output,
            ),
        }
    }

    /// Drops chips, one row after another.
    pub fn drop_chips<O: Opener, W: Write>(
        &self,
        files: &O,
        asked: &AvalancheArguments<'_>,
        output: &mut W,
    ) -> Result<Ended, Fault>
        ensures { DropsFiles O.known asked.now (W.contents output.old) (W.contents output.new) result }
    {
        let (mut graph, mut chips) = open_game(files, &asked.game)?;
        let mut drops = files.open(&asked.drops)?;
        let mut report = self.try_report(&asked.report, &[&graph, &chips, &drops])?;
        let ended = avalanches_engine_with(
            self.rt.alloc(),
            &mut graph,
            &mut chips,
            &mut drops,
            play_options(&asked.game),
            &mut RoundProgress::start(self),
            output,
            &mut report,
        );
        match report {
            Some(report) => report.put(ended),
            None => ended,
        }
    }

    /// Finds the recurrent configuration that is equivalent to a file's chips.
    pub fn represent<O: Opener, W: Write>(
        &self,
        files: &O,
        asked: &GameArguments<'_>,
        output: &mut W,
    ) -> Result<Ended, Fault>
        ensures { RepresentsFiles O.known asked.now (W.contents output.old) (W.contents output.new) result }
    {
        let (mut graph, mut chips) = open_game(files, asked)?;
        recurrent_engine(
            self.rt.alloc(),
            &mut graph,
            &mut chips,
            limits_of(asked.large),
            output,
        )
    }

    /// Finds the identity of the sandpile group of a graph.
    pub fn identify<O: Opener, W: Write>(
        &self,
        files: &O,
        asked: &GraphArguments<'_>,
        output: &mut W,
    ) -> Result<Ended, Fault>
        ensures { IdentifiesFiles O.known asked.now (W.contents output.old) (W.contents output.new) result }
    {
        let mut graph = files.open(&asked.graph)?;
        identity_engine(self.rt.alloc(), &mut graph, limits_of(asked.large), output)
    }

    /// Runs a schedule.
    pub fn simulate<O: Opener, W: Write>(
        &self,
        files: &O,
        asked: &SimulationArguments<'_>,
        output: &mut W,
    ) -> Result<Ended, Fault>
        ensures { SimulatesFiles O.known asked.now (W.contents output.old) (W.contents output.new) result }
    {
        let Some(options) = simulate_options(asked) else {
            return Err(Fault::Usage);
        };
        let (mut graph, mut chips) = open_game(files, &asked.game)?;
        let mut schedule = files.open(&asked.schedule)?;
        simulate_engine_with(
            self.rt.alloc(),
            &mut graph,
            &mut chips,
            &mut schedule,
            options,
            output,
        )
    }

    /// Replays a recorded run.
    pub fn replay<O: Opener, W: Write>(
        &self,
        files: &O,
        asked: &ReplayArguments<'_>,
        output: &mut W,
    ) -> Result<Ended, Fault>
        ensures { ReplaysFiles O.known asked.now (W.contents output.old) (W.contents output.new) result }
    {
        let (mut graph, mut chips) = open_game(files, &asked.game)?;
        let mut trace = files.open(&asked.trace)?;
        replay_engine_with(
            self.rt.alloc(),
            &mut graph,
            &mut chips,
            &mut trace,
            replay_options(asked),
            output,
        )
    }

    /// Goes on with a play.
    pub fn resume<O: Opener, W: Write>(
        &self,
        files: &O,
        asked: &GameArguments<'_>,
        output: &mut W,
    ) -> Result<Ended, Fault>
        ensures { ResumesFiles O.known asked.now (W.contents output.old) (W.contents output.new) result }
    {
        let (mut graph, mut report) = open_game(files, asked)?;
        resume_engine_with(
            self.rt.alloc(),
            &mut graph,
            &mut report,
            play_options(asked),
            &mut RoundProgress::start(self),
            output,
        )
    }

    /// Says whether a report is that of a game.
    pub fn verify<O: Opener, W: Write>(
        &self,
        files: &O,
        asked: &VerifyArguments<'_>,
        output: &mut W,
    ) -> Result<Ended, Fault>
        ensures { VerifiesFiles O.known asked.now (W.contents output.old) (W.contents output.new) result }
    {
        let (mut graph, mut chips) = open_game(files, &asked.game)?;
        let mut report = files.open(&asked.report)?;
        verify_engine_with(
            self.rt.alloc(),
            &mut graph,
            &mut chips,
            &mut report,
            play_options(&asked.game),
            &mut RoundProgress::start(self),
            output,
        )
    }

    /// Judges the claims of a log. If its rows have no order, `waits` gets a line that says where the waits lead.
    pub fn judge<O: Opener, W: Write>(
        &self,
        files: &O,
        asked: &JudgeArguments<'_>,
        waits: &mut String,
        output: &mut W,
    ) -> Result<Ended, Fault>
        ensures { JudgesFiles O.known asked.now (W.contents output.old) (W.contents output.new) result }
    {
        let mut log = files.open(&asked.log)?;
        let mut progress = ClaimProgress::start(self);
        let ended = judge_engine_with(
            self.rt.alloc(),
            &mut log,
            judge_options(asked),
            &mut progress,
            output,
        );
        *waits = progress.waits;
        ended
    }
}

/// Opens the graph of a game, and then the file of its start.
pub(crate) fn open_game<O: Opener>(
    files: &O,
    game: &GameArguments<'_>,
) -> Result<(O::File, O::File), Fault>
    ensures opened { IfOk result (λ opened.
        (O.File.remaining opened.0 ≡ O.known game.now.graph) × (O.File.remaining opened.1 ≡ O.known game.now.start)) }
    ensures refused { IfErr result (λ fault.
        (fault ≡ Fault.Open game.now.graph.number) ⊎ (fault ≡ Fault.Open game.now.start.number)) }
{
    Ok((files.open(&game.graph)?, files.open(&game.start)?))
}

/// The options of a simulation. `None` if a ring cannot have this number of cells.
fn simulate_options(asked: &SimulationArguments<'_>) -> Option<SimulateOptions>
    ensures { result ≡ simulate_options asked.now }
{
    Some(SimulateOptions {
        play: play_options(&asked.game),
        ring: Ring::new(asked.ring)?,
        rounds: asked.rounds,
        books: asked.books,
        fed: asked.fed,
    })
}

/// The options of a replay.
fn replay_options(asked: &ReplayArguments<'_>) -> ReplayOptions
    ensures { result ≡ replay_options asked.now }
{
    ReplayOptions {
        play: play_options(&asked.game),
        complete: asked.complete,
    }
}

/// The options of a judgment.
fn judge_options(asked: &JudgeArguments<'_>) -> JudgeOptions
    ensures { result ≡ judge_options asked.now }
{
    JudgeOptions {
        limits: limits_of(asked.large),
        past: asked.past,
        first: asked.first,
        processes: asked.processes,
    }
}

/// The options of a play.
fn play_options(game: &GameArguments<'_>) -> PlayOptions
    ensures { result ≡ play_options game.now }
{
    PlayOptions {
        limits: limits_of(game.large),
        limit: game.limit,
    }
}

/// The limits of a graph and of the files of its game.
pub(crate) fn limits_of(is_large: bool) -> Limits
    ensures { result ≡ limits_of is_large }
{
    if is_large {
        Limits::large()
    } else {
        Limits::standard()
    }
}
