//! The machine, on one thread and on many, and a process of its detector.

ghost use Rattle.std.specs.Prelude.{◌≡◌, ◌<◌, Contains, IfOk, MatchOption, true};
ghost use Rattle.chip_graph.specs.ChipGame.{ChipGame};
ghost use Rattle.chip_graph.specs.More.{HasMore};
ghost use Rattle.chip_link.specs.Rings.{IsRing};
ghost use Rattle.chip_detect.specs.Tally.{message_limit};
ghost use Rattle.chip_detect.specs.Books.{in_edges, out_edges, got_of, sent_of, is_engaged};
ghost use Rattle.chip_report.specs.Reportable.{content};
ghost use Rattle.examples.specs.Answers.{IsEveryEnd, IsSomeEnd};

use chip_crew::{CrewFault, Gate, Plan, SealAt, run, run_fed};
use chip_detect::Detect;
use chip_fire::{Outcome, plain};
use chip_graph::Game;
use chip_world::{World, WorldFault};
use std::alloc::Global;
use std::sync::Wait;
use std::thread::Threads;

/// How a game ends that actors play, each making one turn per round; `NotClosed` if `rounds` rounds are too few.
pub fn end_of_actors(
    alloc: Global,
    game: &Game,
    ring: u64,
    rounds: u64,
) -> Result<Outcome, WorldFault>
    requires { IsRing ring }
    ensures { IfOk result (λ o. IsEveryEnd game.now o.fired.items o.chips.items) }
{
    let mut world = World::open(alloc, game, ring)?;
    world.drive(rounds);
    world.outcome(alloc)
}

/// Admits every turn of each worker's plan.
struct Open;

impl Gate for Open {
    fn pass(&self, _worker: u64, _turn: u64) -> bool {
        true
    }
}

/// A plan for `workers` workers.
fn plan(workers: u64, seal: Option<SealAt>) -> Plan
    ensures { result.seal ≡ seal }
{
    Plan {
        workers,
        ring: 1,
        turns: 1 << 30,
        trace_rows: 0,
        seal,
    }
}

/// How a game ends that threads play, and how it ends on one thread: the same.
pub fn end_of_threads<R: Threads + Wait>(
    rt: &R,
    alloc: Global,
    game: &Game,
    workers: u64,
) -> Result<(Outcome, Outcome), CrewFault>
    ensures end { IfOk result (λ r. IsEveryEnd game.now r.0.fired.items r.0.chips.items) }
    ensures same { IfOk result (λ r. content r.0 ≡ content r.1) }
{
    let finished = run(rt, alloc, game, plan(workers, None), &Open)?;
    Ok((finished.outcome, plain(alloc, game)?))
}

/// How a game ends that threads play while chips are fed, each time to one vertex: as the game with all of them at its
/// start.
pub fn end_of_feeds<R: Threads + Wait>(
    rt: &R,
    alloc: Global,
    game: &Game,
    feeds: &[(u64, u64)],
    workers: u64,
) -> Result<Outcome, CrewFault>
    ensures { IfOk result (λ o. (whole : ChipGame) × HasMore game.now feeds.now whole
        × IsEveryEnd whole o.fired.items o.chips.items) }
{
    let finished = run_fed(rt, alloc, game, plan(workers, None), feeds, &Open)?;
    Ok(finished.outcome)
}

/// How a game ends that threads play with an edge sealed at the start: some firing sequence leads there.
pub fn end_of_seal<R: Threads + Wait>(
    rt: &R,
    alloc: Global,
    game: &Game,
    edge: u64,
    workers: u64,
) -> Result<Outcome, CrewFault>
    ensures { IfOk result (λ o. IsSomeEnd game.now o.fired.items o.chips.items) }
{
    let seal = Some(SealAt { turn: 0, edge });
    let finished = run(rt, alloc, game, plan(workers, seal), &Open)?;
    Ok(finished.outcome)
}

/// A process of another computation gets a message and passes one on. Returns how many messages it may then acknowledge
/// with nothing else to do: none, since it waits for its own. `None` if it was engaged before.
pub fn pass_on(detect: &mut Detect, from: u64, to: u64) -> Option<u64>
    requires into { Contains (in_edges detect.old) from }
    requires out { Contains (out_edges detect.old) to }
    requires got { got_of detect.old from < message_limit }
    requires sent { sent_of detect.old to < message_limit }
    ensures { MatchOption result (is_engaged detect.old ≡ true) (λ count. count ≡ 0) }
{
    if detect.parent().is_some() {
        return None;
    }
    detect.got(from);
    detect.sent(to);
    Some(detect.may_ack(from, true))
}
