//! The work of each worker.

ghost use Rattle.std.specs.Prelude.{◌≡◌, ◌+◌, ◌%◌, ◌<◌, ◌≤◌, IfSome, length, max};
ghost use Rattle.crossbeam_queue.specs.Passes.{view, IsPassOf};
ghost use Rattle.chip_crew.specs.Crew.{IsOurs};
ghost use Rattle.chip_crew.specs.Asked.{passes, ShutFor};
ghost use Rattle.chip_crew.specs.Ledger.{HasJust, IsNextActor, MakesOneTurn};
ghost use Rattle.chip_crew.specs.Duties.{BeginsTurn, BeginsEach};
ghost use Rattle.chip_crew.specs.Handed.{HasMade, HasDealt, HasWorked, IsRoundOf, round_of, queue_of};

use crate::duties::Duties;
use crate::plan::Gate;
use crate::queue::{Crew, Popped, Pushed, Queue, QueuePass};
use crate::shared::Shared;
use chip_net::{Actor, Net, Turn};
use std::sync::atomic::Ordering::SeqCst;
use std::thread;

/// A worker's share of the actors.
#[derive(Drop)]
pub(crate) enum Share<'a, B: Crew> {
    /// The actors that it takes from the queue.
    Queue {
        queue: &'a Queue<B>,
        /// Its pass of the queue, with what it took from there and put there.
        pass: QueuePass,
        /// The actor that it couldn't put back.
        kept: Option<Actor>,
    },
    /// The actors dealt to it, ascending. No other worker has one of them.
    Dealt(Vec<Actor>),
}

impl<'a, B: Crew> Share<'a, B> {
    /// The number of turns in a round: one with a queue, else one for each of the worker's actors, at least 1.
    pub fn round(&self) -> u64
        ensures { result ≡ round_of self.now }
    {
        match self {
            Share::Queue { .. } => 1,
            Share::Dealt(actors) => (actors.len() as u64).max(1),
        }
    }
}

/// A worker before it starts: one value, which moves to its thread.
#[derive(Drop)]
pub(crate) struct Worker<'a, B: Crew, G: Gate, D> {
    pub shared: &'a Shared<'a, B, G>,
    /// Its number.
    pub number: u64,
    pub share: Share<'a, B>,
    /// Its duties besides the turns of its actors.
    pub duties: D,
}

/// What a worker gives back.
#[derive(Drop)]
pub(crate) struct WorkerResult<'a, B: Crew, D> {
    /// Its actors, if any.
    pub share: Share<'a, B>,
    pub duties: D,
    /// Whether its gate never returned false.
    pub passed: bool,
    /// The number of turns that it made.
    pub turns: u64,
}

/// The actor that was kept, else one from the queue.
fn next_actor<B: Crew>(queue: &Queue<B>, pass: &mut QueuePass, kept: Option<Actor>) -> Option<Actor>
    requires pass { IsPassOf queue.now pass.old }
    requires kept { IfSome kept (IsOurs B.asked.crew) }
    requires has { HasJust (view pass.old) kept }
    ensures pass { IsPassOf queue.now pass.new }
    ensures actor { IfSome result (IsOurs B.asked.crew) }
    ensures has { HasJust (view pass.new) result }
    ensures next { IsNextActor (view pass.old) (view pass.new) kept result }
{
    match kept {
        Some(actor) => Some(actor),
        None => queue.try_pop_as::<Popped<B>>(pass),
    }
}

/// Counts an idle turn. The worker yields after more idle turns in a row than there are actors.
fn count_idle(idle: &mut usize, actors: usize) {
    if *idle < actors {
        *idle += 1;
    } else {
        thread::yield_now();
        *idle = 0;
    }
}

/// Takes an actor, gives it a turn and puts it back. A kept actor has its turn instead of one from the queue, and one
/// that can't be put back is kept. `idle` is the number of idle turns in a row before.
#[inline(never)]
fn turn_by_queue<B: Crew>(
    net: &Net,
    queue: &Queue<B>,
    pass: &mut QueuePass,
    kept: Option<Actor>,
    idle: &mut usize,
) -> Option<Actor>
    requires net { net.now ≡ B.asked.crew.net }
    requires pass { IsPassOf queue.now pass.old }
    requires kept { IfSome kept (IsOurs B.asked.crew) }
    requires has { HasJust (view pass.old) kept }
    ensures pass { IsPassOf queue.now pass.new }
    ensures kept { IfSome result (IsOurs B.asked.crew) }
    ensures turn { MakesOneTurn (view pass.old) (view pass.new) kept result }
{
    let Some(mut actor) = next_actor(queue, pass, kept) else {
        count_idle(idle, queue.capacity());
        return None;
    };
    let turn = actor.turn(net);
    let back = queue.try_push_as::<Pushed<B>>(pass, actor);
    if matches!(turn, Turn::Waiting | Turn::Idle) {
        count_idle(idle, queue.capacity());
    } else {
        *idle = 0;
    }
    back.err()
}

impl<'a, B: Crew, G: Gate> Shared<'a, B, G> {
    /// Begins a turn of a worker, if its gate accepts it. Else it stops all workers.
    #[inline(always)]
    fn begin<D: Duties>(&self, worker: u64, turn: u64, duties: &mut D) -> bool
        requires turn { turn < B.asked.plan.turns }
        requires can { D.can B.asked.crew.net duties.old }
        requires goes_on { D.goes_on duties.old }
        ensures can { D.can B.asked.crew.net duties.new }
        ensures goes_on { D.goes_on duties.new }
        ensures begins { BeginsTurn (D.before turn) (passes B.asked worker turn) (ShutFor B.asked worker) duties.old duties.new result }
    {
        if !self.gate.pass(worker, turn) {
            self.stop.store(true, SeqCst);
            return false;
        }
        duties.begin_turn(self.net, turn);
        true
    }

    /// Makes the turns of a round of a worker with actors of its own: one of each actor, and one if it has none; at
    /// most `most`, from the number `first` on, and fewer if the gate returns false. Returns the number of turns made,
    /// and yields if no actor had anything to do.
    #[inline(always)]
    fn turn_each<D: Duties>(
        &self,
        worker: u64,
        first: u64,
        most: u64,
        actors: &mut Vec<Actor>,
        duties: &mut D,
    ) -> u64
        requires most { (most ≤ max 1 (length actors.old.items)) × (first + most ≤ B.asked.plan.turns) }
        requires first { first % max 1 (length actors.old.items) ≡ 0 }
        requires made { HasDealt B.asked worker first actors.old.items }
        requires can { D.can B.asked.crew.net duties.old }
        requires goes_on { D.goes_on duties.old }
        ensures round { IsRoundOf B.asked worker most result }
        ensures made { HasDealt B.asked worker (first + result) actors.new.items }
        ensures count { length actors.new.items ≡ length actors.old.items }
        ensures can { D.can B.asked.crew.net duties.new }
        ensures goes_on { D.goes_on duties.new }
        ensures done { BeginsEach D.before first result duties.old duties.new }
    {
        // (read once: after an atomic operation it would be read again)
        let net = self.net;
        let mut is_idle = true;
        for place in 0..most {
            if !self.begin(worker, first + place, duties) {
                return place;
            }
            if let Some(actor) = actors.get_mut(place as usize) {
                let answer = actor.turn(net);
                is_idle &= matches!(answer, Turn::Waiting | Turn::Idle);
            }
        }
        if is_idle {
            thread::yield_now();
        }
        most
    }

    /// Makes the turns of a round of a worker, from the number `first` on: at most `most`, and fewer if the gate
    /// returns false. Returns the number of turns made. With a queue it counts on the idle turns in a row before.
    #[inline(always)]
    fn round<D: Duties>(
        &self,
        worker: u64,
        first: u64,
        most: u64,
        share: &mut Share<'a, B>,
        duties: &mut D,
        idle: &mut usize,
    ) -> u64
        requires most { (0 < most) × (most ≤ round_of share.old) × (first + most ≤ B.asked.plan.turns) }
        requires first { first % round_of share.old ≡ 0 }
        requires made { HasMade B.asked worker first share.old }
        requires can { D.can B.asked.crew.net duties.old }
        requires goes_on { D.goes_on duties.old }
        ensures round { IsRoundOf B.asked worker most result }
        ensures made { HasMade B.asked worker (first + result) share.new }
        ensures same { (round_of share.new ≡ round_of share.old) × (queue_of share.new ≡ queue_of share.old) }
        ensures can { D.can B.asked.crew.net duties.new }
        ensures goes_on { D.goes_on duties.new }
        ensures done { BeginsEach D.before first result duties.old duties.new }
    {
        match share {
            Share::Queue { queue, pass, kept } => {
                if !self.begin(worker, first, duties) {
                    return 0;
                }
                *kept = turn_by_queue::<B>(self.net, queue, pass, kept.take(), idle);
                1
            }
            Share::Dealt(actors) => self.turn_each(worker, first, most, actors, duties),
        }
    }
}

impl<'a, B: Crew, G: Gate, D: Duties> Worker<'a, B, G, D> {
    /// Makes its turns, round by round, until it is to stop.
    pub fn work(self) -> WorkerResult<'a, B, D>
        requires made { HasMade B.asked self.number 0 self.share }
        requires can { D.can B.asked.crew.net self.duties }
        requires goes_on { D.goes_on self.duties }
        ensures { HasWorked B.asked D.can D.before D.after self.entry.number self.entry.share self.entry.duties result }
    {
        let Worker {
            shared,
            number,
            mut share,
            mut duties,
        } = self;
        let round = share.round();
        let mut turns = 0;
        let mut idle = 0;
        let mut passed = true;
        // The worker that ordered the stop returns the reason.
        while turns < shared.plan.turns && !shared.stop.load(SeqCst) {
            let most = round.min(shared.plan.turns - turns);
            let made = shared.round(number, turns, most, &mut share, &mut duties, &mut idle);
            turns += made;
            if made < round {
                // The gate returned false, or the plan's turns are used up.
                passed = made == most;
                break;
            }
            if duties.end_round(shared.net, shared.gate, turns - 1) {
                shared.stop.store(true, SeqCst);
                break;
            }
        }
        WorkerResult {
            share,
            duties,
            passed,
            turns,
        }
    }
}
