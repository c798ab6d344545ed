//! Starts the workers, and takes back what they have once they have ended.

ghost use Rattle.std.specs.Prelude.{◌≡◌, ◌+◌, ◌≤◌, length, IfOk, IfErr};
ghost use Rattle.chip_crew.specs.declared.fault.CrewFault.TheVariants.{Spawn};
ghost use Rattle.chip_crew.specs.Finished.{IsCrewStopped};
ghost use Rattle.chip_crew.specs.Handed.{HasMade};
ghost use Rattle.chip_crew.specs.Leading.{IsLeader};
ghost use Rattle.chip_crew.specs.Crew.{EachFrom};
ghost use Rattle.chip_crew.specs.Gathering.{AreBack, queue_for};
ghost use Rattle.chip_crew.specs.Plans.{max_workers};
ghost use Rattle.chip_crew.specs.Joining.{AreShares, IsWorker, HasJoined, queue_of_all};

use crate::duties::{Duties, NoDuties};
use crate::fault::CrewFault;
use crate::gathering::{Back, Collected};
use crate::leader::Leader;
use crate::plan::Gate;
use crate::queue::Crew;
use crate::shared::Shared;
use crate::worker::{Share, Worker, WorkerResult};
use std::alloc::Global;
use std::snapshot::Snapshot;
use std::sync::atomic::Ordering::SeqCst;
use std::thread::{Promise, PromisedHandle, Scope, Threads};

/// The contract of the worker of this number, which starts with this share and these duties: its gate accepted each of
/// its turns, each gave one actor one turn, its gate returned false only if it may, and it did its duties.
#[derive(Drop)]
pub(crate) struct WorkerPromise<'a, B: Crew, D> {
    number: u64,
    share: Snapshot<Share<'a, B>>,
    duties: Snapshot<D>,
}

impl<'a, B: Crew, D: Duties> Promise<WorkerResult<'a, B, D>> for WorkerPromise<'a, B, D> {
    ghost use Rattle.chip_crew.specs.Handed.{HasWorked};

    ghost kept_by = { λ p result. HasWorked B.asked D.can D.before D.after p.number p.share.value p.duties.value result };
}

/// A worker that has started.
type Started<'a, B, D> = PromisedHandle<WorkerResult<'a, B, D>, WorkerPromise<'a, B, D>>;

/// What the workers give back, once all have ended.
#[derive(Drop)]
pub(crate) struct Joined<'l, 'q, B: Crew> {
    pub leader: Leader<'l>,
    /// The number of turns that worker 0 made.
    pub turns: u64,
    /// The number of turns of a round of worker 0.
    pub round: u64,
    pub collected: Collected<'q, B>,
}

/// Starts a worker. If it can't be started, the started ones are stopped.
fn start<'s, E, B: Crew + Send + Sync, G: Gate + Sync, D: Duties + Send + Drop + 's>(
    scope: &Scope<'s, E>,
    worker: Worker<'s, B, G, D>,
) -> Result<Started<'s, B, D>, CrewFault>
    requires made { HasMade B.asked worker.number 0 worker.share }
    requires can { D.can B.asked.crew.net worker.duties }
    requires goes_on { D.goes_on worker.duties }
    ensures fault { IfErr result (λ fault. fault ≡ Spawn) }
    ensures started { IfOk result (λ s. (s.promise.number ≡ worker.entry.number) × (s.promise.share.value ≡ worker.entry.share) × (s.promise.duties.value ≡ worker.entry.duties)) }
{
    let promise = WorkerPromise {
        number: worker.number,
        share: Snapshot::of(&worker.share),
        duties: Snapshot::of(&worker.duties),
    };
    let shared = worker.shared;
    match scope.spawn_with(promise, move || worker.work()) {
        Ok(started) => Ok(started),
        Err(_) => {
            shared.stop.store(true, SeqCst);
            Err(CrewFault::Spawn)
        }
    }
}

/// Starts all workers, worker 0 first.
pub(crate) fn start_all<'s, E, B: Crew + Send + Sync, G: Gate + Sync>(
    scope: &Scope<'s, E>,
    alloc: Global,
    shared: &'s Shared<'s, B, G>,
    leader: Leader<'s>,
    shares: Vec<Share<'s, B>>,
) -> Result<(Started<'s, B, Leader<'s>>, Vec<Started<'s, B, NoDuties>>), CrewFault>
    requires leader { IsLeader B.asked leader }
    requires shares { AreShares B.asked shares.items }
    ensures fault { IfErr result (IsCrewStopped B.asked) }
    ensures leader { IfOk result (λ s. IsWorker B.asked (queue_of_all shares.entry.items) 0 s.0.promise × (s.0.promise.duties.value ≡ leader.entry)) }
    ensures count { IfOk result (λ s. length s.1.items + 1 ≡ B.asked.crew.workers) }
    ensures others { IfOk result (λ s. EachFrom (λ worker h. IsWorker B.asked (queue_of_all shares.entry.items) worker h.promise) 1 s.1.items) }
{
    let mut others = Vec::with_capacity(alloc, shares.len())?;
    let mut rest = shares.into_iter();
    let Some(share) = rest.next() else {
        unreachable!()
    };
    let first = start(
        scope,
        Worker {
            shared,
            number: 0,
            share,
            duties: leader,
        },
    )?;
    let mut number = 1;
    for share in rest {
        let worker = Worker {
            shared,
            number,
            share,
            duties: NoDuties,
        };
        let started = start(scope, worker)?;
        others.push_reserved(started);
        number += 1;
    }
    Ok((first, others))
}

/// Waits until all workers have ended, and takes back what they have.
pub(crate) fn join_all<'s, 'q, R: Threads, B: Crew>(
    rt: &R,
    leader: Started<'s, B, Leader<'s>>,
    others: Vec<Started<'s, B, NoDuties>>,
    back: Back<'q, B>,
) -> Joined<'s, 'q, B>
    requires leader { IsWorker B.asked (queue_for back) 0 leader.promise × IsLeader B.asked leader.promise.duties.value }
    requires count { length others.items + 1 ≡ B.asked.crew.workers }
    requires others { EachFrom (λ worker h. IsWorker B.asked (queue_for back) worker h.promise) 1 others.items }
    requires back { AreBack B.asked 0 back }
    requires few { B.asked.crew.workers ≤ max_workers }
    ensures { HasJoined B.asked result }
{
    let WorkerResult {
        share,
        duties: leader,
        passed,
        turns,
    } = leader.join(rt);
    let round = share.round();
    let mut collected = Collected {
        workers: 0,
        passed: true,
        back,
    };
    collected.take(share, passed);
    for started in others {
        let WorkerResult { share, passed, .. } = started.join(rt);
        collected.take(share, passed);
    }
    Joined {
        leader,
        turns,
        round,
        collected,
    }
}
