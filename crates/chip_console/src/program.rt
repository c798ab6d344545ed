//! The program but for its start: it reads the arguments, runs the command that they ask for, and says how it ended.

ghost use Rattle.std.specs.Prelude.{◌≡◌};
ghost use Rattle.std.specs.Process.{exit_status};
ghost use Rattle.chip_console.specs.ExitStatus.{exit_status_of};

use crate::console::Console;
use crate::terminal::{say_no_text, say_unexpected, tell_more};
use chip_arguments::{ArgumentsFault, Request, limits, parse};
use chip_command::{Ended, Fault, Status, conclude, explanations, rules};
use chip_crew::{MAX_TRACE_ROWS, MAX_TURNS, MAX_WORKERS};
use chip_engine::{explain_engine, plain_engine};
use chip_graph::MAX_LIMIT;
use chip_link::MAX_RING;
use std::fs::File;
use std::io::{Input, IsTerminal};
use std::process::ExitCode;
use std::rt::{Clock, Env, Files};
use std::sync::Wait;
use std::thread::Threads;
use std::{env, io};

// The limits of the arguments are those of the engines.
const _: () = prove!(limits::MAX_LIMIT == MAX_LIMIT);

const _: () = prove!(limits::MAX_RING == MAX_RING);

const _: () = prove!(limits::MAX_WORKERS == MAX_WORKERS);

const _: () = prove!(limits::MAX_TURNS == MAX_TURNS);

const _: () = prove!(limits::MAX_TRACE_ROWS == MAX_TRACE_ROWS);

/// The graph of the game that is played without arguments.
const TRIANGLE: &str =
    r#"{"version": 1, "vertices": 3, "sink": 2, "edges": [[0, 1, 1], [0, 2, 1], [1, 0, 1], [1, 2, 1]]}"#;
/// Its chips.
const FOUR_CHIPS: &str = "vertex,chips\n0,4\n";

/// Does what the process's arguments ask for, and says on standard error, `errors`, what is wrong.
pub fn respond<
    R: Env
        + Files<File = File>
        + Input
        + Print
        + Eprint
        + Clock
        + AllocGlobal
        + Threads
        + Wait
        + Sync,
    T: IsTerminal,
>(rt: &R, errors: &T) -> ExitCode {
    // What the command-line library says of the arguments, or the name of the file that was opened or read last.
    let mut about = String::new(rt.alloc());
    // Where the waits of a log without an order lead.
    let mut waits = String::new(rt.alloc());
    let ended = run(rt, &mut about, &mut waits);
    // If this cannot be written, the exit status still says it.
    match &ended {
        Ok(ended) if ended.cut => {
            let _ = eprintln!(rt; "chipfire: trace cut");
        }
        Ok(_) => {}
        Err(fault) => {
            let _ = eprintln!(rt; "chipfire: {fault}");
            if errors.is_terminal() {
                let _ = tell_more(rt, fault, &about, &waits);
            }
        }
    }
    exit_code(&ended)
}

/// The exit status after a command.
fn exit_code(ended: &Result<Ended, Fault>) -> ExitCode
    ensures { exit_status result ≡ exit_status_of ended.now }
{
    match ended {
        Ok(ended) => ExitCode::from(ended.status),
        Err(fault) => ExitCode::from(fault.status().number()),
    }
}

/// Does what the program's arguments ask for. If there is a fault, `about` gets what it is about, and `waits` where the
/// waits of a log lead, if there is memory for that.
fn run<
    R: Env
        + Files<File = File>
        + Input
        + Print
        + Eprint
        + Clock
        + AllocGlobal
        + Threads
        + Wait
        + Sync,
>(rt: &R, about: &mut String, waits: &mut String) -> Result<Ended, Fault> {
    let arguments: Vec<String> = match env::args(rt) {
        Ok(arguments) => arguments.collect(rt.alloc())?,
        Err(error) => {
            let _ = say_no_text(about, rt);
            return Err(fault_of_arguments(error));
        }
    };
    let mut output = io::writer(rt);
    if arguments.len() < 2 {
        let (mut graph, mut chips) = (TRIANGLE.as_bytes(), FOUR_CHIPS.as_bytes());
        return plain_engine(rt.alloc(), &mut graph, &mut chips, MAX_LIMIT, &mut output);
    }
    match parse(rt.alloc(), &arguments) {
        Ok(request) => {
            let console = Console::start(rt, request.has_progress());
            let ended = serve(&console, &request, waits, &mut output);
            if let Some(place) = console.last_argument() {
                if let Some(argument) = arguments.get(place) {
                    let _ = about.push_str(argument.as_str());
                }
            } else if ended == Err(Fault::Usage) {
                let _ = say_unexpected(about, &arguments);
            }
            ended
        }
        Err(ArgumentsFault::Usage(said)) => {
            *about = said;
            if about.is_empty() {
                let _ = say_unexpected(about, &arguments);
            }
            Err(Fault::Usage)
        }
        Err(ArgumentsFault::NoMemory) => Err(Fault::NoMemory),
    }
}

/// Runs the requested command.
fn serve<
    R: Files<File = File> + Input + Clock + Eprint + AllocGlobal + Threads + Wait + Sync,
    W: io::Write,
>(
    console: &Console<'_, R>,
    request: &Request<'_>,
    waits: &mut String,
    output: &mut W,
) -> Result<Ended, Fault> {
    let alloc = console.rt.alloc();
    match request {
        Request::Help(text) => conclude(output, text.as_bytes(), Ended::of(Status::Done)),
        Request::Check(asked) => console.check(&console, asked, output),
        Request::Plain(asked) => console.play(&console, asked, output),
        Request::Avalanches(asked) => console.drop_chips(&console, asked, output),
        Request::Recurrent(asked) => console.represent(&console, asked, output),
        Request::Identity(asked) => console.identify(&console, asked, output),
        Request::Simulate(asked) => console.simulate(&console, asked, output),
        Request::Run(asked) => console.run(&console, asked, output),
        Request::Replay(asked) => console.replay(&console, asked, output),
        Request::Resume(asked) => console.resume(&console, asked, output),
        Request::Verify(asked) => console.verify(&console, asked, output),
        Request::Judge(asked) => console.judge(&console, asked, waits, output),
        Request::Explain(number) => explain_engine(
            alloc,
            "fault",
            &explanations(),
            *number,
            output,
        ),
        Request::ExplainRule(number) => explain_engine(alloc, "rule", &rules(), *number, output),
    }
}

/// Why there are no arguments: there is no memory for them, or one is no UTF-8.
#[cold]
fn fault_of_arguments(error: io::Error) -> Fault {
    match error.kind() {
        io::ErrorKind::OutOfMemory => Fault::NoMemory,
        _ => Fault::Usage,
    }
}
