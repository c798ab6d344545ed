//! `simulate`: the core's replies to a schedule, and the report if the root closes.

ghost use Rattle.std.specs.Prelude.{◌≡◌, ◌++◌, [], true, false, IfOk, codes, flat_map, string_bytes};
ghost use Rattle.chip_graph.specs.Limits.{standard};
ghost use Rattle.chip_link.specs.Rings.{IsRing};
ghost use Rattle.chip_part.specs.Setting.{Setting};
ghost use Rattle.chip_core.specs.Core.{Log, IsClosed};
ghost use Rattle.chip_world.specs.World.{StandsForLog, WhateverLog};
ghost use Rattle.chip_world.specs.declared.world.driving.Drive.TheVariants.{Closed};
ghost use Rattle.chip_command.specs.Statuses.{number_of_status};
ghost use Rattle.chip_engine.specs.SimulateReport.{SimulateReports};
ghost use Rattle.chip_engine.specs.SimulateCommand.{SimulateAnswers, Simulates, EndsClosed, EndsBy, IsRunThrough};
ghost use Rattle.chip_engine.specs.SimulateCommand.{message_text, reply_text, answers_text};

use crate::board::push_board;
use crate::lines::{end_by_number, push_number};
use chip_command::{Answer, Ended, Fault, PlayOptions, Status, deliver, read_game, status_of};
use chip_file::read_schedule_within;
use chip_link::{Event, Message, Ring};
use chip_part::{Reply, Setting};
use chip_report::report;
use chip_world::{Drive, World, WorldFault};
use std::alloc::{AllocError, Global};
use std::io::{Read, Write};

/// The number of events that are run at a time, or that of the edges if it is larger: each run visits every edge.
const STRETCH: usize = 1 << 17;

/// The options of a simulation.
#[derive(Clone, Copy)]
pub struct SimulateOptions {
    /// The limits of the game, and how often a vertex may fire.
    pub play: PlayOptions,
    pub ring: Ring,
    /// The most rounds of turns after the schedule.
    pub rounds: u64,
    /// Whether the books of the detector follow each reply.
    pub books: bool,
    /// Whether the schedule also feeds chips.
    pub fed: bool,
}

/// Runs a schedule on the game of a graph file, a chips file and a firing limit, within the standard limits, with rings
/// of `ring` cells (1 to 64), and then at most `rounds` rounds of turns. Writes a line for each reply of the schedule,
/// and the report if the root closes. With `fed` the schedule also feeds chips, and the game closes only after the
/// schedule ends the feeding. Then `rounds_to_close` rounds (of `chip_world`) close it, if the root has put what it
/// claimed.
pub fn simulate_engine<G: Read, C: Read, S: Read, W: Write>(
    alloc: Global,
    graph: &mut G,
    chips: &mut C,
    schedule: &mut S,
    limit: u64,
    ring: u64,
    rounds: u64,
    fed: bool,
    output: &mut W,
) -> Result<Ended, Fault>
    requires { IsRing ring }
    ensures known { SimulateAnswers (G.remaining graph.old) (C.remaining chips.old) (S.remaining schedule.old)
        (record { play = record { limits = standard; limit = limit }; ring = ring; rounds = rounds; books = false; fed = fed })
        (W.contents output.old) (W.contents output.new) result }
    ensures report { SimulateReports (G.remaining graph.old) (C.remaining chips.old) (S.remaining schedule.old)
        (record { play = record { limits = standard; limit = limit }; ring = ring; rounds = rounds; books = false; fed = fed })
        (W.contents output.old) (W.contents output.new) result }
{
    let options = SimulateOptions {
        play: PlayOptions::standard(limit),
        ring: Ring::of(ring),
        rounds,
        books: false,
        fed,
    };
    simulate_engine_with(alloc, graph, chips, schedule, options, output)
}

/// Does what `simulate_engine` does, by these options: with the books of the detector after each reply, if asked.
pub fn simulate_engine_with<G: Read, C: Read, S: Read, W: Write>(
    alloc: Global,
    graph: &mut G,
    chips: &mut C,
    schedule: &mut S,
    options: SimulateOptions,
    output: &mut W,
) -> Result<Ended, Fault>
    ensures known { SimulateAnswers (G.remaining graph.old) (C.remaining chips.old) (S.remaining schedule.old) options
        (W.contents output.old) (W.contents output.new) result }
    ensures report { SimulateReports (G.remaining graph.old) (C.remaining chips.old) (S.remaining schedule.old) options
        (W.contents output.old) (W.contents output.new) result }
{
    let PlayOptions { limits, limit } = options.play;
    let game = read_game(alloc, limits, graph, chips, limit)?;
    let events = read_schedule_within(alloc, limits, schedule, game.graph())?;
    let setting = Setting::new(game, options.ring, options.fed);
    let answer = simulate(alloc, setting, events, options.rounds, options.books)?;
    deliver(output, answer)
}

/// The lines of a simulation, and the exit status.
fn simulate(
    alloc: Global,
    setting: Setting,
    events: Vec<Event>,
    rounds: u64,
    books: bool,
) -> Result<Answer, AllocError>
    ensures { IfOk result
        (λ made. Simulates setting rounds books events.items made.text.items (number_of_status made.status)) }
{
    let mut world = World::of(alloc, setting)?;
    run(alloc, &mut world, &events, rounds, books)
}

/// Runs a world from its opening, through a schedule and then some rounds: the lines, and the exit status.
fn run(
    alloc: Global,
    world: &mut World,
    events: &[Event],
    rounds: u64,
    books: bool,
) -> Result<Answer, AllocError>
    requires { StandsForLog world.old.setting [] world.old }
    ensures { IfOk result
        (λ made. Simulates world.old.setting rounds books events.now made.text.items (number_of_status made.status)) }
{
    let mut text = run_schedule(alloc, world, events, books)?.into_bytes();
    let drive = world.drive(rounds);
    let end = end_of(alloc, world, drive)?;
    text.extend_from_slice(&end.text)?;
    Ok(Answer {
        text,
        status: end.status,
    })
}

/// Runs a world from its opening through a schedule: the lines of its replies, with or without the books.
fn run_schedule(
    alloc: Global,
    world: &mut World,
    events: &[Event],
    books: bool,
) -> Result<String, AllocError>
    requires { StandsForLog world.old.setting [] world.old }
    ensures world { IfOk result (λ _. IsRunThrough world.old.setting events.now world.new) }
    ensures lines { IfOk result (λ lines. string_bytes lines ≡ answers_text books world.old.setting [] events.now) }
{
    if books {
        step_by_step(alloc, world, events)
    } else {
        stretch_by_stretch(alloc, world, events)
    }
}

/// Runs one event at a time, with the books after each reply.
fn step_by_step(alloc: Global, world: &mut World, events: &[Event]) -> Result<String, AllocError>
    requires { StandsForLog world.old.setting [] world.old }
    ensures world { IfOk result (λ _. IsRunThrough world.old.setting events.now world.new) }
    ensures lines { IfOk result (λ lines. string_bytes lines ≡ answers_text true world.old.setting [] events.now) }
{
    let mut lines = String::new(alloc);
    for event in events {
        let reply = world.step(*event);
        push_reply(&mut lines, reply)?;
        push_board(&mut lines, world)?;
    }
    Ok(lines)
}

/// Runs many events at a time, whose replies the world keeps. The core theorem holds of each such run.
fn stretch_by_stretch(
    alloc: Global,
    world: &mut World,
    events: &[Event],
) -> Result<String, AllocError>
    requires { StandsForLog world.old.setting [] world.old }
    ensures world { IfOk result (λ _. IsRunThrough world.old.setting events.now world.new) }
    ensures lines { IfOk result (λ lines. string_bytes lines ≡ answers_text false world.old.setting [] events.now) }
{
    let most = STRETCH.max(world.setting().all_edges() as usize);
    let mut lines = String::new(alloc);
    let mut left = events;
    while !left.is_empty() {
        let (stretch, rest) = left.split_at(left.len().min(most));
        let record = world.run(alloc, stretch)?;
        push_replies(&mut lines, &record.replies)?;
        left = rest;
    }
    Ok(lines)
}

/// The end of a run whose rounds ended so, and the exit status.
fn end_of(alloc: Global, world: &World, drive: Drive) -> Result<Answer, AllocError>
    requires { (g : Setting) × (log : Log) × StandsForLog g log world.now
        × (drive ≡ Closed → IsClosed g log) }
    ensures { IfOk result (λ made. WhateverLog world.now
        (λ g log. EndsBy g log drive made.text.items (number_of_status made.status))) }
{
    match drive {
        Drive::Closed => end_of_closed(alloc, world),
        Drive::Unfinished(_) => Ok(Answer {
            text: Vec::from_slice(alloc, b"root open\n")?,
            status: Status::Unfinished,
        }),
    }
}

/// The end of a closed run, its report, and the exit status.
fn end_of_closed(alloc: Global, world: &World) -> Result<Answer, AllocError>
    requires { (g : Setting) × (log : Log) × StandsForLog g log world.now × IsClosed g log }
    ensures { IfOk result (λ made. WhateverLog world.now
        (λ g log. EndsClosed g log made.text.items (number_of_status made.status))) }
{
    let outcome = match world.outcome(alloc) {
        Ok(outcome) => outcome,
        Err(WorldFault::NotClosed) => unreachable!(),
        Err(WorldFault::NoMemory) => return Err(AllocError),
    };
    let mut text = Vec::from_slice(alloc, b"root closed\n")?;
    text.extend_from_slice(&report(alloc, &outcome)?)?;
    Ok(Answer {
        text,
        status: status_of(&outcome),
    })
}

/// Appends the lines of replies.
fn push_replies(lines: &mut String, replies: &[Reply]) -> Result<(), AllocError>
    ensures { IfOk result
        (λ _. string_bytes lines.new ≡ string_bytes lines.old ++ flat_map reply_text replies.now) }
{
    for reply in replies {
        push_reply(lines, *reply)?;
    }
    Ok(())
}

/// Appends the line of a reply.
fn push_reply(lines: &mut String, reply: Reply) -> Result<(), AllocError>
    ensures { IfOk result (λ _. string_bytes lines.new ≡ string_bytes lines.old ++ reply_text reply) }
{
    match reply {
        Reply::Done(number) => end_by_number(lines, "done ", number),
        Reply::Got(message) => push_message(lines, "got ", message),
        Reply::Sent(message) => push_message(lines, "sent ", message),
        Reply::Empty => lines.push_str("empty\n"),
        Reply::Full => lines.push_str("full\n"),
        Reply::Sealed => lines.push_str("sealed\n"),
        Reply::NotNow(rule) => end_by_number(lines, "not-now ", u64::from(rule.number())),
    }
}

/// Appends a line that names a message by its place and its count.
fn push_message(lines: &mut String, what: &str, message: Message) -> Result<(), AllocError>
    ensures { IfOk result (λ _. string_bytes lines.new
        ≡ string_bytes lines.old ++ what.now ++ message_text message ++ codes "\n") }
{
    push_number(lines, what, message.place)?;
    end_by_number(lines, " ", message.count)
}
