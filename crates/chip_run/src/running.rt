//! The engine.

ghost use Rattle.std.specs.Prelude.{◌≡◌, ℕ, false, None, option_map, IfOk, IfErr};
ghost use Rattle.chip_graph.specs.Limits.{standard};
ghost use Rattle.chip_graph.specs.ChipGame.{IsGame};
ghost use Rattle.chip_command.specs.FaultNumbers.{command_fault_number};
ghost use Rattle.chip_command.specs.Statuses.{number_of_status};
ghost use Rattle.chip_crew.specs.FaultNumbers.{crew_fault_number};
ghost use Rattle.chip_crew.specs.declared.plan.Sharing.TheVariants.{Queue};
ghost use Rattle.chip_run.specs.RunCommand.{RunReads, RunReports, ReportsSomeRun, PlaysByCrew, IsNotPlayed, plan_of};

use crate::feeding::read_fed;
use crate::recording::record_if_asked;
use chip_command::{Answer, Ended, Fault, conclude, read_game};
use chip_crew::{CrewFault, Gate, Plan, Sharing, run_with};
use chip_graph::{Game, GameFault, Limits};
use chip_net::Actor;
use std::alloc::Global;
use std::io::{Read, Write};
use std::sync::Wait;
use std::thread::Threads;

/// Admits every turn.
struct Always;

impl Gate for Always {
    ghost use Rattle.std.specs.Prelude.{◌≡◌, true};

    ghost may_answer = { λ _ _ _ answer. answer ≡ true };

    fn pass(&self, _worker: u64, _turn: u64) -> bool {
        true
    }
}

/// The options of a run.
#[derive(Clone, Copy)]
pub struct RunOptions {
    /// The limits of the game.
    pub limits: Limits,
    /// The most firings of a vertex, 0 to 2^40.
    pub limit: u64,
    /// A plan that seals nothing.
    pub plan: Plan,
    pub sharing: Sharing,
}

/// Plays the game of a graph file, a chips file and a firing limit, within the standard limits, on `workers` threads (1
/// to 64), with rings of `ring` cells (1 to 64), each thread for at most `turns` turns (1 to 2^40). The chips of the
/// file of feeds, if there is one, come while the vertices fire. If a trace is asked for, the rows that the actors
/// wrote down, at most `trace_rows` of each vertex (0 to 2^20), are written before the report.
///
/// Its bytes and its status are those of `plain_engine` for the game that has all these chips at the start, however the
/// threads were scheduled. The readers are read in order. The whole report is made before the first byte of either
/// output is written. If the trace cannot be written, nothing of the report is.
pub fn run_engine<R: Threads + Wait + Sync, G: Read, C: Read, F: Read, T: Write, W: Write>(
    rt: &R,
    alloc: Global,
    graph: &mut G,
    chips: &mut C,
    feed: Option<&mut F>,
    limit: u64,
    ring: u64,
    workers: u64,
    turns: u64,
    trace_rows: u64,
    trace: &mut Option<T>,
    output: &mut W,
) -> Result<Ended, Fault>
    ensures known { RunReads standard Queue (G.remaining graph.old) (C.remaining chips.old)
        (option_map (λ reader. F.remaining reader.now) feed.entry) limit (plan_of ring workers turns trace_rows)
        (record { report = W.contents output.old; trace = option_map T.contents trace.old })
        (record { report = W.contents output.new; trace = option_map T.contents trace.new }) result }
    ensures report { RunReports standard (G.remaining graph.old) (C.remaining chips.old)
        (option_map (λ reader. F.remaining reader.now) feed.entry) limit
        (W.contents output.old) (W.contents output.new) result }
    ensures any { ReportsSomeRun (W.contents output.old) (W.contents output.new) result }
{
    let plan = Plan {
        workers,
        ring,
        turns,
        trace_rows,
        seal: None,
    };
    let options = RunOptions {
        limits: Limits::standard(),
        limit,
        plan,
        sharing: Sharing::Queue,
    };
    run_engine_with(
        rt, alloc, graph, chips, feed, options, &Always, trace, output,
    )
}

/// Does what `run_engine` does, by these options; the workers of `run_engine` share one queue. The gate is asked before
/// each turn and always returns true. It also sees the polls, and changes neither the bytes nor the status.
pub fn run_engine_with<
    R: Threads + Wait + Sync,
    G: Read,
    C: Read,
    F: Read,
    K: Gate + Sync,
    T: Write,
    W: Write,
>(
    rt: &R,
    alloc: Global,
    graph: &mut G,
    chips: &mut C,
    feed: Option<&mut F>,
    options: RunOptions,
    gate: &K,
    trace: &mut Option<T>,
    output: &mut W,
) -> Result<Ended, Fault>
    requires seal { options.plan.seal ≡ None }
    requires gate { (worker turn : ℕ) → K.may_answer gate.now worker turn false → ⊥ }
    ensures known { RunReads options.limits options.sharing (G.remaining graph.old) (C.remaining chips.old)
        (option_map (λ reader. F.remaining reader.now) feed.entry) options.limit options.plan
        (record { report = W.contents output.old; trace = option_map T.contents trace.old })
        (record { report = W.contents output.new; trace = option_map T.contents trace.new }) result }
    ensures report { RunReports options.limits (G.remaining graph.old) (C.remaining chips.old)
        (option_map (λ reader. F.remaining reader.now) feed.entry) options.limit
        (W.contents output.old) (W.contents output.new) result }
    ensures any { ReportsSomeRun (W.contents output.old) (W.contents output.new) result }
{
    // (the game is dropped before the texts are written)
    let (answer, actors) = {
        let game = read_game(alloc, options.limits, graph, chips, options.limit)?;
        let feeds = read_fed(alloc, options.limits, feed, game.graph().vertices())?;
        play(rt, alloc, game, feeds, options, gate)?
    };
    let cut = record_if_asked(alloc, &actors, trace)?;
    conclude(
        output,
        &answer.text,
        Ended {
            status: answer.status.number(),
            cut,
        },
    )
}

/// Plays a game, with these feeds if there are any: its report with the exit status, and the actors that played it.
fn play<R: Threads + Wait + Sync, K: Gate + Sync>(
    rt: &R,
    alloc: Global,
    game: Game,
    feeds: Option<Vec<(u64, u64)>>,
    options: RunOptions,
    gate: &K,
) -> Result<(Answer, Vec<Actor>), Fault>
    requires seal { options.plan.seal ≡ None }
    requires gate { (worker turn : ℕ) → K.may_answer gate.now worker turn false → ⊥ }
    requires game { IsGame game }
    ensures played { IfOk result (λ p. PlaysByCrew options.sharing game (option_map (λ fed. fed.items) feeds) options.plan
        p.1.items p.0.text.items (number_of_status p.0.status)) }
    ensures fault { IfErr result
        (IsNotPlayed options.sharing game (option_map (λ fed. fed.items) feeds) options.plan) }
{
    let RunOptions { plan, sharing, .. } = options;
    match run_with(rt, alloc, game, plan, sharing, feeds.as_deref(), gate) {
        Ok(finished) => {
            let answer = Answer::of_outcome(alloc, &finished.outcome)?;
            Ok((answer, finished.actors))
        }
        Err(fault) => Err(fault_of_crew(fault)),
    }
}

/// A crew's fault without the root. Its number is the same.
fn fault_of_crew(fault: CrewFault) -> Fault
    ensures fault { result ≡ Rattle.chip_run.specs.RunCommand.fault_of_crew fault }
    ensures number { command_fault_number result ≡ crew_fault_number fault }
{
    match fault {
        CrewFault::Plan => Fault::Plan,
        CrewFault::Total => Fault::Game(GameFault::Total),
        CrewFault::NoMemory => Fault::NoMemory,
        CrewFault::Spawn => Fault::Spawn,
        CrewFault::GateShut => Fault::GateShut,
        CrewFault::Doubled(vertex) => Fault::Doubled(vertex),
        CrewFault::Lost(vertex) => Fault::Lost(vertex),
        CrewFault::Unfinished { deficit, root: _ } => Fault::Unfinished(deficit),
    }
}
