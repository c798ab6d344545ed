//! A crew's play of a game, from its opening to its end.

ghost use Rattle.chip_crew.specs.Places.{HasNothing};
ghost use Rattle.chip_crew.specs.Ledger.{got_turns, gave_turns};
ghost use Rattle.std.specs.Prelude.{◌≡◌, ◌<◌, ◌≤◌, true, false, All, map, length, Some, None, IfOk, IfErr};
ghost use Rattle.std.specs.Option.{option_copied, option_zip};
ghost use Rattle.crossbeam_queue.specs.Passes.{view, IsPassOf, ruled_capacity};
ghost use Rattle.chip_crew.specs.declared.plan.Sharing.TheVariants as shares;
ghost use Rattle.chip_crew.specs.Asked.{IsAsked};
ghost use Rattle.chip_crew.specs.Crew.{IsOurs, all_turns};
ghost use Rattle.chip_crew.specs.Leading.{IsLeader};
ghost use Rattle.chip_crew.specs.Plans.{max_workers};
ghost use Rattle.chip_crew.specs.Gathering.{AreBack, queue_for};
ghost use Rattle.chip_crew.specs.Joining.{AreOpened, AreShares, HasJoined, queue_of_all};
ghost use Rattle.chip_crew.specs.Finished.{HasFinished, IsFinished, IsCrewStopped, IsFaultOf};

use crate::dealing::deal;
use crate::ending::{last_poll, take_back};
use crate::fault::CrewFault;
use crate::gathering::{Back, gather};
use crate::joining::{Joined, join_all, start_all};
use crate::leader::Leader;
use crate::plan::{Gate, Plan, Sharing};
use crate::queue::{Crew, Pushed, Queue, QueuePass, SplitLedger};
use crate::shared::Shared;
use crate::worker::Share;
use chip_graph::Game;
use chip_net::{Actor, Net, Opened, Receipt};
use chip_part::Setting;
use chip_sequence::Outcome;
use std::alloc::{AllocError, Global};
use std::marker::{Brand, PhantomData};
use std::sync::Wait;
use std::sync::atomic::AtomicBool;
use std::thread::{self, Threads};

/// The result of a game that a crew played.
#[derive(Drop)]
pub struct Finished {
    /// The counts, the chips and the halted vertices.
    pub outcome: Outcome,
    /// The root's token, which has read the outcome.
    pub receipt: Receipt,
    /// The actor of each vertex, ascending.
    pub actors: Vec<Actor>,
}

/// Puts the actors into the queue, in their order. The queue has room for all of them.
fn fill<R: Wait, B: Crew>(rt: &R, queue: &Queue<B>, pass: &mut QueuePass, actors: Vec<Actor>)
    requires pass { IsPassOf queue.now pass.old }
    requires room { ruled_capacity queue.now ≡ B.asked.crew.net.setting.game.graph.vertices }
    requires actors { All (IsOurs B.asked.crew) actors.items }
    requires has { (view pass.old).has ≡ map (λ a. a.vertex) actors.items }
    requires turns { (got_turns (view pass.old) ≡ 0) × (gave_turns (view pass.old) ≡ 0) × (all_turns actors.items ≡ 0) }
    ensures pass { IsPassOf queue.now pass.new }
    ensures has { HasNothing (view pass.new) × ((view pass.new).workers ≡ (view pass.old).workers) }
{
    for actor in actors {
        let Ok(()) = queue.push_as::<Pushed<B>, R>(rt, pass, actor) else {
            unreachable!()
        };
    }
}

/// The start of workers that share a queue: their shares, each with a pass of its own, and the place their actors come
/// back to.
fn passes<'q, B: Crew>(
    alloc: Global,
    queue: &'q Queue<B>,
    mut pass: QueuePass,
    vertices: usize,
    workers: u64,
) -> Result<(Vec<Share<'q, B>>, Back<'q, B>), AllocError>
    requires sharing { B.asked.crew.sharing ≡ shares.Queue }
    requires workers { (workers ≡ B.asked.crew.workers) × (0 < workers) × (workers ≤ max_workers) }
    requires pass { IsPassOf queue.now pass }
    requires has { HasNothing (view pass) × ((view pass).workers ≡ workers) }
    requires vertices { vertices ≡ B.asked.crew.net.setting.game.graph.vertices }
    ensures shares { IfOk result (λ r. AreShares B.asked r.0.items × (queue_of_all r.0.items ≡ queue_for r.1)) }
    ensures back { IfOk result (λ r. AreBack B.asked 0 r.1) }
{
    let row = Vec::with_capacity(alloc, vertices)?;
    let mut all = Vec::with_capacity(alloc, workers as usize)?;
    for _ in 0..workers {
        all.push_reserved(Share::Queue {
            queue,
            pass: queue.another::<SplitLedger>(&mut pass),
            kept: None,
        });
    }
    Ok((all, Back::Queue { queue, pass, row }))
}

/// Continues for worker 0 once all workers have ended, polls once more, and returns the result.
fn end_play<R: Wait, B: Crew, G: Gate>(
    rt: &R,
    shared: &Shared<B, G>,
    joined: Joined<B>,
) -> Result<Finished, CrewFault>
    requires joined { HasJoined B.asked joined }
    requires workers { 0 < B.asked.crew.workers }
    ensures passed { IfOk result (λ _. joined.entry.collected.passed ≡ true) }
    ensures finished { IfOk result (HasFinished B.asked.crew B.asked.feeds B.asked.plan) }
    ensures stopped { IfErr result (IsCrewStopped B.asked) }
{
    let Joined {
        mut leader,
        turns,
        round,
        collected,
    } = joined;
    if !collected.passed {
        return Err(CrewFault::GateShut);
    }
    leader.go_on(shared, round, turns);
    let Leader { mut root, seal, .. } = leader;
    take_back(shared.net, &mut root, seal);
    match last_poll(shared.net, root) {
        Ok((outcome, mut receipt)) => {
            let mut actors = gather::<R, B>(rt, collected.back);
            receipt.meet(shared.net, &mut actors);
            Ok(Finished {
                outcome,
                receipt,
                actors,
            })
        }
        Err((deficit, root)) => Err(CrewFault::Unfinished { deficit, root }),
    }
}

/// Runs all workers until they have ended, and gathers the actors.
fn work_all<'a, R: Threads + Wait, B: Crew + Send + Sync, G: Gate + Sync>(
    rt: &R,
    alloc: Global,
    shared: &'a Shared<'a, B, G>,
    leader: Leader<'a>,
    own: Vec<Share<'a, B>>,
    back: Back<'a, B>,
) -> Result<Finished, CrewFault>
    requires leader { IsLeader B.asked leader }
    requires shares { AreShares B.asked own.items }
    requires uses { queue_of_all own.items ≡ queue_for back }
    requires back { AreBack B.asked 0 back }
    ensures finished { IfOk result (HasFinished B.asked.crew B.asked.feeds B.asked.plan) }
    ensures stopped { IfErr result (IsCrewStopped B.asked) }
{
    thread::scope(
        thread::scope_env(),
        rt,
        |scope| -> Result<Finished, CrewFault>
            requires { IsLeader B.asked leader × AreShares B.asked own.items × (queue_of_all own.items ≡ queue_for back)
                × AreBack B.asked 0 back }
            ensures { IfOk result (HasFinished B.asked.crew B.asked.feeds B.asked.plan) × IfErr result (IsCrewStopped B.asked) }
        {
            let (leader, others) = start_all(scope, alloc, shared, leader, own)?;
            end_play(rt, shared, join_all(rt, leader, others, back))
        },
    )
}

/// Plays with actors shared in this way: all start in a queue, or they are dealt out.
fn play_shared<'a, R: Threads + Wait, B: Crew + Send + Sync, G: Gate + Sync>(
    rt: &R,
    alloc: Global,
    sharing: Sharing,
    shared: &'a Shared<'a, B, G>,
    leader: Leader<'a>,
    actors: Vec<Actor>,
) -> Result<Finished, CrewFault>
    requires sharing { sharing ≡ B.asked.crew.sharing }
    requires opened { AreOpened B.asked leader actors.items }
    ensures finished { IfOk result (HasFinished B.asked.crew B.asked.feeds B.asked.plan) }
    ensures stopped { IfErr result (IsCrewStopped B.asked) }
{
    match sharing {
        Sharing::Queue => {
            let vertices = actors.len();
            let (queue, mut pass) = Queue::<B>::ruled(alloc, vertices)?;
            fill(rt, &queue, &mut pass, actors);
            let (own, back) = passes(alloc, &queue, pass, vertices, shared.plan.workers)?;
            work_all(rt, alloc, shared, leader, own, back)
        }
        Sharing::Dealt => {
            let graph = shared.net.setting().game().graph();
            let (own, back) = deal(alloc, graph, actors, shared.plan.workers)?;
            work_all(rt, alloc, shared, leader, own, back)
        }
    }
}

/// Plays on a net that has just opened, and feeds it.
fn play_on<R: Threads + Wait, B: Crew + Send + Sync, G: Gate + Sync>(
    rt: &R,
    alloc: Global,
    opened: Opened,
    feeds: Option<&[(u64, u64)]>,
    plan: &Plan,
    sharing: Sharing,
    gate: &G,
) -> Result<Finished, CrewFault>
    requires asked { IsAsked B.asked opened.net plan.now (G.may_answer gate.now) }
    requires sharing { sharing ≡ B.asked.crew.sharing }
    requires opened { AreOpened B.asked (record { root = opened.root; feeds = feeds; seal = option_zip opened.stopper plan.now.seal; is_closed = false }) opened.actors.items }
    ensures finished { IfOk result (HasFinished B.asked.crew B.asked.feeds B.asked.plan) }
    ensures stopped { IfErr result (IsCrewStopped B.asked) }
{
    let Opened {
        net,
        root,
        actors,
        stopper,
    } = opened;
    let leader = Leader {
        root,
        feeds,
        seal: stopper.zip(plan.seal),
        is_closed: false,
    };
    let stop = AtomicBool::new(false);
    let shared: Shared<B, G> = Shared {
        net: &net,
        stop: &stop,
        gate,
        plan,
        of: PhantomData,
    };
    play_shared(rt, alloc, sharing, &shared, leader, actors)
}

/// Plays a game on a net of its own, with the plan's number of threads, which share its actors in this way. Each of
/// `feeds` is a vertex and a number of chips for it.
///
/// Worker 0 polls the root after each of its rounds, and stops the others once it is closed. With a queue each turn is
/// a round; if the actors are dealt out, a round is one turn of each of worker 0's actors. Before each of its turns
/// worker 0 makes the next feed, if the cell for its message is empty; after the last feed it notes the end of feeding.
/// When all workers have ended, the calling thread polls once more and finishes. Without a seal, the result is that of
/// the game with all these chips at the start. All threads are joined on every path.
pub fn run_with<R: Threads + Wait, G: Gate + Sync>(
    rt: &R,
    alloc: Global,
    game: Game,
    plan: Plan,
    sharing: Sharing,
    feeds: Option<&[(u64, u64)]>,
    gate: &G,
) -> Result<Finished, CrewFault>
    ensures finished { IfOk result (IsFinished sharing game (option_copied feeds.entry) plan) }
    ensures fault { IfErr result (IsFaultOf sharing game (option_copied feeds.entry) plan (G.may_answer gate.now)) }
{
    let ring = plan.ring_for(&game, feeds)?;
    let setting = Setting::new(game, ring, feeds.is_some());
    let opened = Net::of(alloc, setting, plan.trace_rows, plan.seal.is_some())?;
    play_on::<R, Brand, G>(rt, alloc, opened, feeds, &plan, sharing, gate)
}

/// Plays as `run_with` does with a queue and without feeds.
pub fn run<R: Threads + Wait, G: Gate + Sync>(
    rt: &R,
    alloc: Global,
    game: &Game,
    plan: Plan,
    gate: &G,
) -> Result<Finished, CrewFault>
    ensures finished { IfOk result (IsFinished shares.Queue game.now None plan) }
    ensures fault { IfErr result (IsFaultOf shares.Queue game.now None plan (G.may_answer gate.now)) }
{
    // (refuses a bad plan before it takes memory)
    plan.ring_for(game, None)?;
    let game = game.copy(alloc)?;
    run_with(rt, alloc, game, plan, Sharing::Queue, None, gate)
}

/// Plays as `run_with` does with a queue and feeds.
pub fn run_fed<R: Threads + Wait, G: Gate + Sync>(
    rt: &R,
    alloc: Global,
    game: &Game,
    plan: Plan,
    feeds: &[(u64, u64)],
    gate: &G,
) -> Result<Finished, CrewFault>
    ensures finished { IfOk result (IsFinished shares.Queue game.now (Some feeds.now) plan) }
    ensures fault { IfErr result (IsFaultOf shares.Queue game.now (Some feeds.now) plan (G.may_answer gate.now)) }
{
    plan.ring_for(game, Some(feeds))?;
    let game = game.copy(alloc)?;
    run_with(rt, alloc, game, plan, Sharing::Queue, Some(feeds), gate)
}
