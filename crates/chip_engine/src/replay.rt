//! `replay`: the firings of a recorded run, in an order in which all rows are enabled, and what is left.

ghost use Rattle.std.specs.Prelude.{◌≡◌, ◌++◌, false, IfOk, flat_map, string_bytes, if◌then◌else◌, []};
ghost use Rattle.chip_graph.specs.Limits.{standard};
ghost use Rattle.chip_command.specs.CommandAnswers.{GivesAnswer};
ghost use Rattle.chip_engine.specs.ReplayCommand.{ReplayAnswers, replaying_from, firing_text, left_text, status_of_left};

use crate::lines::{end_by_number, push_number};
use chip_command::{Answer, Ended, Fault, PlayOptions, Status, deliver, read_game};
use chip_file::read_trace_within;
use chip_graph::Game;
use chip_trace::{Left, Replayed, replay_complete};
use std::alloc::{AllocError, Global};
use std::io::{Read, Write};

/// The options of a replay.
#[derive(Clone, Copy)]
pub struct ReplayOptions {
    /// The limits of the game, and how often a vertex may fire.
    pub play: PlayOptions,
    /// Whether to write also what is left when all rows are used.
    pub complete: bool,
}

/// Replays the traces of a file on the game of a graph file, a chips file and a firing limit, within the standard limits,
/// and writes a line for each firing.
pub fn replay_engine<G: Read, C: Read, T: Read, W: Write>(
    alloc: Global,
    graph: &mut G,
    chips: &mut C,
    trace: &mut T,
    limit: u64,
    output: &mut W,
) -> Result<Ended, Fault>
    ensures { ReplayAnswers (G.remaining graph.old) (C.remaining chips.old) (T.remaining trace.old)
        (record { play = record { limits = standard; limit = limit }; complete = false })
        (W.contents output.old) (W.contents output.new) result }
{
    let options = ReplayOptions {
        play: PlayOptions::standard(limit),
        complete: false,
    };
    replay_engine_with(alloc, graph, chips, trace, options, output)
}

/// Does what `replay_engine` does, by these options. If asked, the lines of what is left follow those of the firings,
/// first of edges and then of vertices, both ascending; the status is 2 if there is one.
pub fn replay_engine_with<G: Read, C: Read, T: Read, W: Write>(
    alloc: Global,
    graph: &mut G,
    chips: &mut C,
    trace: &mut T,
    options: ReplayOptions,
    output: &mut W,
) -> Result<Ended, Fault>
    ensures { ReplayAnswers (G.remaining graph.old) (C.remaining chips.old) (T.remaining trace.old) options
        (W.contents output.old) (W.contents output.new) result }
{
    let play = options.play;
    let game = read_game(alloc, play.limits, graph, chips, play.limit)?;
    let answer = replay_traces(alloc, options, &game, trace)?;
    deliver(output, answer)
}

/// The replay of the traces of a file, in a game, as text.
fn replay_traces<T: Read>(
    alloc: Global,
    options: ReplayOptions,
    game: &Game,
    trace: &mut T,
) -> Result<Answer, Fault>
    ensures { GivesAnswer (replaying_from options (T.remaining trace.old) game.now) result }
{
    let traces = read_trace_within(alloc, options.play.limits, trace, game.graph())?;
    let replayed = replay_complete(alloc, game, &traces)?;
    // They take more than the firings, and the lines need room.
    drop(traces);
    Ok(tell(alloc, &replayed, options.complete)?)
}

/// The lines of a replay and its status, with what is left if asked.
fn tell(alloc: Global, replayed: &Replayed, complete: bool) -> Result<Answer, AllocError>
    ensures text { IfOk result (λ answer. answer.text.items
        ≡ flat_map firing_text replayed.now.firings.items
        ++ flat_map left_text (if complete then replayed.now.left.items else [])) }
    ensures status { IfOk result (λ answer. answer.status
        ≡ status_of_left (if complete then replayed.now.left.items else [])) }
{
    let mut lines = lines_of(alloc, &replayed.firings)?;
    if !complete {
        return Ok(Answer::of_lines(lines));
    }
    push_all_left(&mut lines, &replayed.left)?;
    Ok(Answer {
        text: lines.into_bytes(),
        status: status_of_left(&replayed.left),
    })
}

/// The lines of firings.
fn lines_of(alloc: Global, firings: &[(u64, u64)]) -> Result<String, AllocError>
    ensures { IfOk result (λ lines. string_bytes lines ≡ flat_map firing_text firings.now) }
{
    let mut lines = String::new(alloc);
    for (vertex, count) in firings {
        push_firing(&mut lines, *vertex, *count)?;
    }
    Ok(lines)
}

/// Appends the line of a firing.
fn push_firing(lines: &mut String, vertex: u64, count: u64) -> Result<(), AllocError>
    ensures { IfOk result (λ _. string_bytes lines.new ≡ string_bytes lines.old ++ firing_text (vertex, count)) }
{
    push_number(lines, "fire ", vertex)?;
    end_by_number(lines, " ", count)
}

/// Appends the lines of what is left.
fn push_all_left(lines: &mut String, left: &[Left]) -> Result<(), AllocError>
    ensures { IfOk result (λ _. string_bytes lines.new ≡ string_bytes lines.old ++ flat_map left_text left.now) }
{
    for one in left {
        push_left(lines, *one)?;
    }
    Ok(())
}

/// Appends the line of one thing that is left.
fn push_left(lines: &mut String, left: Left) -> Result<(), AllocError>
    ensures { IfOk result (λ _. string_bytes lines.new ≡ string_bytes lines.old ++ left_text left) }
{
    match left {
        Left::Messages { edge, count } => write!(lines, "left: edge {edge} has {count} messages\n"),
        Left::CanFire { vertex } => write!(lines, "left: vertex {vertex} can fire\n"),
        Left::AtLimit { vertex } => write!(lines, "left: vertex {vertex} is at its limit\n"),
    }
}

/// The exit status of a replay that left this.
fn status_of_left(left: &[Left]) -> Status
    ensures { result ≡ status_of_left left.now }
{
    if left.is_empty() {
        Status::Done
    } else {
        Status::Halted
    }
}
