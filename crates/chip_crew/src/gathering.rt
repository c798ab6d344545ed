//! Gathers the actors once all workers have ended.

ghost use Rattle.std.specs.Prelude.{◌≡◌, ◌+◌, ◌<◌, ◌≤◌, ℕ, IfSome, ◌*◌};
ghost use Rattle.chip_crew.specs.Crew.{IsOurs, AreActors, all_turns};
ghost use Rattle.chip_crew.specs.Handed.{HasMade, queue_of};
ghost use Rattle.chip_crew.specs.Gathering.{IsGatheringFor, AreGathered, AreBack, Collects, queue_for};
ghost use Rattle.chip_crew.specs.Ledger.{HasJust, got_turns, gave_turns, kept_turns};
ghost use Rattle.chip_crew.specs.Plans.{max_workers};
ghost use Rattle.crossbeam_queue.specs.Passes.{view, IsPassOf};

use crate::queue::{Crew, Popped, Pushed, Queue, QueuePass, SplitLedger};
use crate::worker::Share;
use chip_net::Actor;
use std::sync::Wait;

/// The place the actors come back to once the workers have ended: a row with room for all of them.
#[derive(Drop)]
pub(crate) enum Back<'a, B: Crew> {
    /// They come through a queue. The row has those that the calling thread has, in order of arrival.
    Queue {
        queue: &'a Queue<B>,
        /// The calling thread's pass of the queue; those of the workers join it.
        pass: QueuePass,
        row: Vec<Actor>,
    },
    /// The runs that were dealt out, one after the other.
    Dealt(Vec<Actor>),
}

/// What the workers gave back.
#[derive(Drop)]
pub(crate) struct Collected<'a, B: Crew> {
    /// The number of workers.
    pub workers: u64,
    /// Whether no gate of theirs returned false.
    pub passed: bool,
    /// The workers' actors.
    pub back: Back<'a, B>,
}

/// Takes back the pass of a worker, and the actor that it kept.
fn join_pass<B: Crew>(
    queue: &Queue<B>,
    pass: &mut QueuePass,
    row: &mut Vec<Actor>,
    theirs: QueuePass,
    kept: Option<Actor>,
)
    requires pass { IsPassOf queue.now pass.old × IsPassOf queue.now theirs }
    requires gathering { IsGatheringFor B.asked (view pass.old).workers (view pass.old) row.old }
    requires kept { IfSome kept (IsOurs B.asked.crew) }
    requires has { HasJust (view theirs) kept }
    requires turns { gave_turns (view theirs) + kept_turns kept ≤ got_turns (view theirs) + B.asked.plan.turns }
    ensures pass { IsPassOf queue.now pass.new }
    ensures gathering { IsGatheringFor B.asked ((view pass.old).workers + 1) (view pass.new) row.new }
{
    queue.absorb::<SplitLedger>(pass, theirs);
    // (shows that there is room for the actor)
    queue.learn_as::<Pushed<B>>(pass);
    if let Some(actor) = kept {
        row.push_reserved(actor);
    }
}

impl<'a, B: Crew> Collected<'a, B> {
    /// Takes back what a worker has. All lower workers have given back theirs.
    pub fn take(&mut self, share: Share<B>, passed: bool)
        requires next { (self.old.workers < B.asked.crew.workers) × (B.asked.crew.workers ≤ max_workers) }
        requires back { AreBack B.asked self.old.workers self.old.back }
        requires made { (turns : ℕ) × (turns ≤ B.asked.plan.turns) × HasMade B.asked self.old.workers turns share }
        requires uses { queue_of share ≡ queue_for self.old.back }
        ensures { Collects B.asked passed self.old self.new }
    {
        match share {
            Share::Queue {
                pass: theirs,
                kept,
                ..
            } => {
                let Back::Queue { queue, pass, row } = &mut self.back else {
                    unreachable!()
                };
                join_pass(queue, pass, row, theirs, kept);
            }
            Share::Dealt(mut actors) => {
                let Back::Dealt(row) = &mut self.back else {
                    unreachable!()
                };
                let Ok(()) = row.append(&mut actors) else {
                    unreachable!()
                };
            }
        }
        self.workers += 1;
        self.passed &= passed;
    }
}

/// Takes all actors from the queue. All workers have given back what they had.
fn drain<R: Wait, B: Crew>(rt: &R, queue: &Queue<B>, pass: &mut QueuePass, row: &mut Vec<Actor>)
    requires pass { IsPassOf queue.now pass.old }
    requires gathering { IsGatheringFor B.asked B.asked.crew.workers (view pass.old) row.old }
    requires some { 0 < B.asked.crew.workers }
    ensures all { AreGathered B.asked.crew row.new.items }
    ensures turns { all_turns row.new.items ≤ B.asked.crew.workers * B.asked.plan.turns }
{
    while let Some(actor) = queue.pop_as::<Popped<B>, R>(rt, pass) {
        row.push_reserved(actor);
    }
}

/// The actors of all vertices, ascending. All workers have given back what they had.
pub(crate) fn gather<R: Wait, B: Crew>(rt: &R, back: Back<B>) -> Vec<Actor>
    requires back { AreBack B.asked B.asked.crew.workers back }
    requires some { 0 < B.asked.crew.workers }
    ensures actors { AreActors B.asked.crew result.items }
    ensures turns { all_turns result.items ≤ B.asked.crew.workers * B.asked.plan.turns }
{
    match back {
        Back::Queue {
            queue,
            mut pass,
            mut row,
        } => {
            drain(rt, queue, &mut pass, &mut row);
            row.sort_unstable_by_key(|actor| actor.vertex());
            row
        }
        Back::Dealt(row) => row,
    }
}
