//! The arguments of the program, and what they ask for.

ghost use Rattle.std.specs.Prelude.{◌≡◌, false, map, string_bytes};
ghost use Rattle.chip_arguments.specs.Places.{HasPlace, argument_places, places_of};
ghost use Rattle.chip_arguments.specs.Progress.{asks_progress};

use crate::commands::{
    Argument, ArgumentRow, BOOKS, CHIPS, CLAIM_PROGRESS, COMPLETE, CommandRow, DEALT, DROPS,
    FAULT_NUMBER, FED, FEED, FIRST, GRAPH, GUESS, LARGE, LARGE_LOG, LIMIT, LOG, PAST, PROCESSES,
    PROGRESS, REPORT, RING, ROUNDS, RULE_NUMBER, SCHEDULE, TRACE, TRACE_FILE, TRACE_ROWS, TURNS,
    WORKERS, WRITTEN_REPORT, commands,
};
use crate::fault::ArgumentsFault;
use crate::help_texts as texts;
use crate::limits::MAX_LIMIT;
use clap::builder::ValueParser;
use clap::error::ErrorKind;
use clap::{Arg, ArgAction, ArgMatches, Command, Error};
use std::alloc::{AllocError, Global};

// What numbers are if no option gives them.
const USUAL_RING: u64 = 1;

const USUAL_WORKERS: u64 = 2;

const USUAL_TURNS: u64 = 1 << 30;
/// The usual number of rows of a trace, if there is one. Else it is 0.
const USUAL_TRACE_ROWS: u64 = 1024;

/// A file that an argument names.
#[derive(Clone, Copy)]
pub struct FileArgument<'a> {
    pub path: &'a str,
    /// The number of the argument, from 1 for the first after the command.
    pub number: u64,
}

/// A game, and the file of its start.
#[derive(Clone, Copy)]
pub struct GameArguments<'a> {
    pub graph: FileArgument<'a>,
    /// The chips, or the report of the play to resume.
    pub start: FileArgument<'a>,
    /// How often each vertex may fire, 0 to 2^40.
    pub limit: u64,
    pub large: bool,
    pub progress: bool,
}

/// A graph alone.
#[derive(Clone, Copy)]
pub struct GraphArguments<'a> {
    pub graph: FileArgument<'a>,
    pub large: bool,
}

/// A play on one thread.
#[derive(Clone, Copy)]
pub struct PlainArguments<'a> {
    pub game: GameArguments<'a>,
    pub guess: Option<FileArgument<'a>>,
}

/// Drops of chips, one row after another.
#[derive(Clone, Copy)]
pub struct AvalancheArguments<'a> {
    pub game: GameArguments<'a>,
    pub drops: FileArgument<'a>,
    /// Where the report goes.
    pub report: Option<FileArgument<'a>>,
}

/// A simulation.
#[derive(Clone, Copy)]
pub struct SimulationArguments<'a> {
    pub game: GameArguments<'a>,
    pub schedule: FileArgument<'a>,
    /// The number of cells of an edge's ring, 1 to 64.
    pub ring: u64,
    /// The most rounds, 0 to 2^40.
    pub rounds: u64,
    pub books: bool,
    pub fed: bool,
}

/// A play on threads.
#[derive(Clone, Copy)]
pub struct RunArguments<'a> {
    pub game: GameArguments<'a>,
    /// The number of cells of an edge's ring, 1 to 64.
    pub ring: u64,
    /// The number of threads, 1 to 64.
    pub workers: u64,
    pub dealt: bool,
    /// The most turns of each thread, 1 to 2^40.
    pub turns: u64,
    pub feed: Option<FileArgument<'a>>,
    pub trace: Option<FileArgument<'a>>,
    /// The most rows of each vertex in the trace, 0 to 2^20.
    pub trace_rows: u64,
}

/// A recorded run to replay.
#[derive(Clone, Copy)]
pub struct ReplayArguments<'a> {
    pub game: GameArguments<'a>,
    pub trace: FileArgument<'a>,
    /// Whether to list what is left.
    pub complete: bool,
}

/// A report to verify.
#[derive(Clone, Copy)]
pub struct VerifyArguments<'a> {
    pub game: GameArguments<'a>,
    pub report: FileArgument<'a>,
}

/// A log to judge.
#[derive(Clone, Copy)]
pub struct JudgeArguments<'a> {
    pub log: FileArgument<'a>,
    /// Whether to list the past of each early claim.
    pub past: bool,
    /// Whether to end at the first early claim.
    pub first: bool,
    /// The number of processes that must have a row, 0 to 2^22.
    pub processes: u64,
    pub large: bool,
    pub progress: bool,
}

/// What the arguments ask for.
#[derive(Drop)]
pub enum Request<'a> {
    /// The help or the version, to be printed.
    Help(String),
    Check(GraphArguments<'a>),
    Plain(PlainArguments<'a>),
    Avalanches(AvalancheArguments<'a>),
    Recurrent(GameArguments<'a>),
    /// Asks for the group of this graph.
    Identity(GraphArguments<'a>),
    Simulate(SimulationArguments<'a>),
    Run(RunArguments<'a>),
    Replay(ReplayArguments<'a>),
    /// Starts from a report.
    Resume(GameArguments<'a>),
    Verify(VerifyArguments<'a>),
    Judge(JudgeArguments<'a>),
    /// The number of a fault, if one is named.
    Explain(Option<u64>),
    /// The number of a rule, if one is named.
    ExplainRule(Option<u64>),
}

impl Request<'_> {
    /// Whether lines of progress are asked for.
    pub fn has_progress(&self) -> bool
        ensures { result ≡ asks_progress self.now }
    {
        match self {
            Request::Plain(asked) => asked.game.progress,
            Request::Avalanches(asked) => asked.game.progress,
            Request::Run(asked) => asked.game.progress,
            Request::Resume(asked) => asked.progress,
            Request::Verify(asked) => asked.game.progress,
            Request::Judge(asked) => asked.progress,
            _ => false,
        }
    }
}

/// Reads the arguments of a process, of which the first is the program's own name.
pub fn parse<'a>(alloc: Global, arguments: &'a [String]) -> Result<Request<'a>, ArgumentsFault> {
    match program(alloc)?.try_get_matches_from(arguments) {
        Ok(matches) => request_of(alloc, &matches, arguments),
        Err(error) => answer_of(alloc, &error),
    }
}

/// The request of arguments that the command-line library refused.
fn answer_of<'a>(alloc: Global, error: &Error) -> Result<Request<'a>, ArgumentsFault> {
    match error.kind() {
        ErrorKind::DisplayHelp | ErrorKind::DisplayVersion => {
            Ok(Request::Help(error.to_string(alloc)?))
        }
        ErrorKind::OutOfMemory => Err(ArgumentsFault::NoMemory),
        _ => Err(ArgumentsFault::Usage(error.to_string(alloc)?)),
    }
}

/// The request of arguments that the command-line library accepted.
fn request_of<'a>(
    alloc: Global,
    matches: &ArgMatches<'a>,
    arguments: &[String],
) -> Result<Request<'a>, ArgumentsFault> {
    if let Some((name, matches)) = matches.subcommand() {
        let found = Found { matches, arguments };
        if let Some(request) = found.request(name) {
            return Ok(request);
        }
    }
    Err(ArgumentsFault::Usage(String::new(alloc)))
}

/// What the command-line library found in the arguments of a command.
#[derive(Clone, Copy)]
struct Found<'m, 'a> {
    matches: &'m ArgMatches<'a>,
    arguments: &'m [String],
}

impl<'m, 'a> Found<'m, 'a> {
    /// The request of the command with this name.
    fn request(&self, name: &str) -> Option<Request<'a>> {
        match name {
            "check" => Some(Request::Check(self.graph())),
            "plain" => self.plain(),
            "avalanches" => self.avalanches(),
            "recurrent" => Some(Request::Recurrent(self.game(CHIPS))),
            "identity" => Some(Request::Identity(self.graph())),
            "simulate" => self.simulation(),
            "run" => self.play_on_threads(),
            "replay" => self.replay(),
            "resume" => Some(Request::Resume(self.game(REPORT))),
            "verify" => self.verify(),
            "judge" => self.judge(),
            _ => self.explanation(),
        }
    }

    fn plain(&self) -> Option<Request<'a>> {
        Some(Request::Plain(PlainArguments {
            game: self.game(CHIPS),
            guess: self.file_if_named(GUESS),
        }))
    }

    fn avalanches(&self) -> Option<Request<'a>> {
        Some(Request::Avalanches(AvalancheArguments {
            game: self.game(CHIPS),
            drops: self.file(DROPS),
            report: self.file_if_named(WRITTEN_REPORT),
        }))
    }

    fn simulation(&self) -> Option<Request<'a>> {
        Some(Request::Simulate(SimulationArguments {
            game: self.game(CHIPS),
            schedule: self.file(SCHEDULE),
            ring: self.number_or(RING, USUAL_RING),
            rounds: self.number_or(ROUNDS, 0),
            books: self.matches.get_flag(BOOKS.name),
            fed: self.matches.get_flag(FED.name),
        }))
    }

    fn play_on_threads(&self) -> Option<Request<'a>> {
        let trace = self.file_if_named(TRACE);
        let usual_rows = if trace.is_some() { USUAL_TRACE_ROWS } else { 0 };
        Some(Request::Run(RunArguments {
            game: self.game(CHIPS),
            ring: self.number_or(RING, USUAL_RING),
            workers: self.number_or(WORKERS, USUAL_WORKERS),
            dealt: self.matches.get_flag(DEALT.name),
            turns: self.number_or(TURNS, USUAL_TURNS),
            feed: self.file_if_named(FEED),
            trace,
            trace_rows: self.number_or(TRACE_ROWS, usual_rows),
        }))
    }

    fn replay(&self) -> Option<Request<'a>> {
        Some(Request::Replay(ReplayArguments {
            game: self.game(CHIPS),
            trace: self.file(TRACE_FILE),
            complete: self.matches.get_flag(COMPLETE.name),
        }))
    }

    fn verify(&self) -> Option<Request<'a>> {
        Some(Request::Verify(VerifyArguments {
            game: self.game(CHIPS),
            report: self.file(REPORT),
        }))
    }

    fn judge(&self) -> Option<Request<'a>> {
        Some(Request::Judge(JudgeArguments {
            log: self.file(LOG),
            past: self.matches.get_flag(PAST.name),
            first: self.matches.get_flag(FIRST.name),
            processes: self.number_or(PROCESSES, 0),
            large: self.matches.get_flag(LARGE_LOG.name),
            progress: self.matches.get_flag(CLAIM_PROGRESS.name),
        }))
    }

    /// Asks for a fault, or after the word `rule` for a rule.
    fn explanation(&self) -> Option<Request<'a>> {
        let rule = self.matches.get_one::<u64>(RULE_NUMBER.name);
        match self.matches.get_str(FAULT_NUMBER.name) {
            None => Some(Request::Explain(None)),
            Some("rule") => Some(Request::ExplainRule(rule)),
            Some(_) if rule.is_some() => None,
            Some(_) => {
                let number = self.matches.get_one::<u64>(FAULT_NUMBER.name)?;
                Some(Request::Explain(Some(number)))
            }
        }
    }

    /// The requested graph.
    fn graph(&self) -> GraphArguments<'a> {
        GraphArguments {
            graph: self.file(GRAPH),
            large: self.matches.get_flag(LARGE.name),
        }
    }

    /// The requested game, which starts with the file of this operand.
    fn game(&self, start: &ArgumentRow) -> GameArguments<'a> {
        GameArguments {
            graph: self.file(GRAPH),
            start: self.file(start),
            limit: self.number_or(LIMIT, MAX_LIMIT),
            large: self.matches.get_flag(LARGE.name),
            progress: self.matches.get_flag(PROGRESS.name),
        }
    }

    /// The file of an argument that must be there, as of each operand with a file.
    fn file(&self, row: &ArgumentRow) -> FileArgument<'a> {
        let place = self.matches.index_of(row.name).unwrap_or(0);
        FileArgument {
            path: self.matches.get_str(row.name).unwrap_or(""),
            number: number_at(self.arguments.get(2..).unwrap_or(&[]), place),
        }
    }

    /// The file of an option, if it is there.
    fn file_if_named(&self, option: &ArgumentRow) -> Option<FileArgument<'a>> {
        if self.matches.contains_id(option.name) {
            Some(self.file(option))
        } else {
            None
        }
    }

    /// The number of an option, or else the usual one.
    fn number_or(&self, option: &ArgumentRow, usual: u64) -> u64 {
        self.matches.get_one::<u64>(option.name).unwrap_or(usual)
    }
}

/// The number of the argument after the command with this place, from 1; 0 if none has it.
///
/// The command-line library counts places from 1. An argument takes one, but an option with its value after `=` takes
/// two, and the first `--` takes none: only operands follow it.
fn number_at(arguments: &[String], place: usize) -> u64
    ensures { HasPlace (argument_places false (map string_bytes arguments.now)) place result }
{
    if place == 0 {
        return 0;
    }
    let mut left = place;
    let mut only_operands = false;
    for (index, argument) in arguments.iter().enumerate() {
        let argument = argument.as_str();
        let taken = places_of(only_operands, argument);
        if left <= taken {
            return index as u64 + 1;
        }
        left -= taken;
        let ends_options = argument == "--";
        only_operands = only_operands | ends_options;
    }
    0
}

/// The number of places of an argument.
fn places_of(only_operands: bool, argument: &str) -> usize
    ensures { result ≡ places_of only_operands argument.now }
{
    let bytes = argument.as_bytes();
    if only_operands {
        1
    } else if argument == "--" {
        0
    } else if bytes.starts_with(b"--") && bytes.contains(&b'=') {
        2
    } else {
        1
    }
}

/// The program as the command-line library knows it.
fn program<'a>(alloc: Global) -> Result<Command<'a>, AllocError> {
    let commands = commands_of(alloc, &commands())?;
    Command::new(alloc, "chipfire")
        .about("A chip-firing machine that is proved right")
        .version(texts::VERSION)
        .after_help(texts::PROGRAM)
        .subcommand_required(true)
        .subcommands(commands)
}

/// The commands as the library knows them.
fn commands_of<'a>(alloc: Global, rows: &[&CommandRow]) -> Result<Vec<Command<'a>>, AllocError> {
    let mut commands = Vec::new(alloc);
    for row in rows {
        push_command(&mut commands, alloc, row)?;
    }
    Ok(commands)
}

/// Adds a command as the library knows it.
fn push_command<'a>(
    commands: &mut Vec<Command<'a>>,
    alloc: Global,
    row: &CommandRow,
) -> Result<(), AllocError> {
    let arguments = arguments_of(alloc, row.arguments)?;
    let command = Command::new(alloc, row.name)
        .about(row.about)
        .after_help(row.after_help)
        .args(arguments)?;
    Ok(commands.push(command)?)
}

/// The operands and the options of a command as the library knows them.
fn arguments_of<'a>(alloc: Global, rows: &[&ArgumentRow]) -> Result<Vec<Arg<'a>>, AllocError> {
    let mut arguments = Vec::new(alloc);
    for row in rows {
        arguments.push(argument_of(alloc, row))?;
    }
    Ok(arguments)
}

/// An operand or an option as the library knows it.
fn argument_of<'a>(alloc: Global, row: &ArgumentRow) -> Arg<'a> {
    let argument = Arg::new(alloc, row.name).help(row.help);
    match row.is {
        Argument::File => argument.required(true),
        Argument::Word => argument,
        Argument::Number => argument.value_parser(ValueParser::Unsigned(0, u64::MAX)),
        Argument::Flag => argument.long(row.name).action(ArgAction::SetTrue),
        Argument::FileOption => argument.long(row.name).value_name("FILE"),
        Argument::NumberOption(letter, least, most) => argument
            .long(row.name)
            .value_name(letter)
            .value_parser(ValueParser::Unsigned(least, most)),
    }
}
