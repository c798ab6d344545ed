//! The command of many threads: it opens the files that its arguments name and calls its engine.

ghost use Rattle.std.specs.Prelude.{◌≡◌, IfErr, IfOk, is_some, option_map};
ghost use Rattle.chip_console.specs.Commands.{RunsFiles, IsUnopenedOption};
ghost use Rattle.chip_console.specs.Options.{run_options};
ghost use Rattle.chip_run.specs.RunCommand.{ReportsSomeRun};

use crate::commands::{limits_of, open_game};
use crate::console::{Console, Opened, Opener};
use crate::progress::TurnProgress;
use chip_arguments::{FileArgument, RunArguments};
use chip_command::{Ended, Fault};
use chip_crew::{Plan, Sharing};
use chip_run::{RunOptions, run_engine_with};
use std::fs::File;
use std::io::{Input, Write};
use std::rt::{Clock, Files};
use std::sync::Wait;
use std::thread::Threads;

impl<R: Files<File = File> + Input + Clock + Eprint + AllocGlobal + Threads + Wait + Sync> Console<
    '_,
    R,
> {
    /// Plays a game on threads.
    pub fn run<O: Opener, W: Write>(
        &self,
        files: &O,
        asked: &RunArguments<'_>,
        output: &mut W,
    ) -> Result<Ended, Fault>
        ensures known { RunsFiles O.known asked.now (W.contents output.old) (W.contents output.new) result }
        ensures any { ReportsSomeRun (W.contents output.old) (W.contents output.new) result }
    {
        let (mut graph, mut chips) = open_game(files, &asked.game)?;
        let mut feed = open_feed(files, &asked.feed)?;
        let mut trace = self.create_trace(&asked.trace, &graph, &chips, &feed)?;
        run_engine_with(
            self.rt,
            self.rt.alloc(),
            &mut graph,
            &mut chips,
            feed.as_mut(),
            run_options(asked),
            &TurnProgress::start(self),
            &mut trace,
            output,
        )
    }

    /// Creates the file of `--trace`, if there is one and it is no input.
    fn create_trace<I: Opened>(
        &self,
        file: &Option<FileArgument<'_>>,
        graph: &I,
        chips: &I,
        feed: &Option<I>,
    ) -> Result<Option<File>, Fault>
        ensures opened { IfOk result (λ trace. is_some trace ≡ is_some file.now) }
        ensures refused { IfErr result (IsUnopenedOption file.now) }
    {
        match feed {
            Some(feed) => self.create(file, &[graph, chips, feed]),
            None => self.create(file, &[graph, chips]),
        }
    }
}

/// Opens the file of feeds, if there is one.
fn open_feed<O: Opener>(
    files: &O,
    file: &Option<FileArgument<'_>>,
) -> Result<Option<O::File>, Fault>
    ensures opened { IfOk result (λ feed. option_map O.File.remaining feed ≡ option_map O.known file.now) }
    ensures refused { IfErr result (IsUnopenedOption file.now) }
{
    match file {
        Some(file) => Ok(Some(files.open(file)?)),
        None => Ok(None),
    }
}

/// The options of a run on threads.
fn run_options(asked: &RunArguments<'_>) -> RunOptions
    ensures { result ≡ run_options asked.now }
{
    RunOptions {
        limits: limits_of(asked.game.large),
        limit: asked.game.limit,
        plan: Plan {
            workers: asked.workers,
            ring: asked.ring,
            turns: asked.turns,
            trace_rows: asked.trace_rows,
            seal: None,
        },
        sharing: if asked.dealt {
            Sharing::Dealt
        } else {
            Sharing::Queue
        },
    }
}
