//! The queue of the actors, and the rule that it keeps.

use chip_net::Actor;
use crossbeam_queue::protocol::{Join, Lesson, Outcome, Protocol, Split};
use crossbeam_queue::{Pass, RuledArrayQueue};
use std::collections::LinkedList;
use std::marker::{Brand, PhantomData};

/// The task of a crew. Only proofs know it.
pub(crate) trait Crew {
    ghost use Rattle.chip_crew.specs.Asked.{Asked};

    ghost asked: { Asked };
}

impl Crew for Brand {
    ghost use Rattle.chip_crew.specs.Asked.{none_asked};

    ghost asked = { none_asked };
}

/// The ghost record of a thread's use of the queue, and what it has. No value of it exists.
pub(crate) struct Ledger {
    /// The number of workers that it speaks for. All ledgers together speak for the workers of the crew.
    pub workers: u64,
    /// The vertices whose actors the thread has.
    pub has: LinkedList<u64>,
    /// The actors that it took from the queue, in their order.
    pub taken: LinkedList<Actor>,
    /// The actors that it put there, in their order.
    pub put: LinkedList<Actor>,
}

/// The rule: this net opened every actor in the queue, and the actor of each vertex is in one place, in the queue or
/// with one thread.
pub(crate) struct Owned<B> {
    of: PhantomData<B>,
}

impl<B: Crew> Protocol<Actor, Ledger> for Owned<B> {
    ghost use Rattle.chip_crew.specs.Ledger.{first_ledger};
    ghost use Rattle.chip_crew.specs.Places.{AreShared};

    ghost holds = { AreShared B.asked.crew };

    ghost first = { first_ledger B.asked.crew };
}

/// Takes an actor out: this net opened it, the thread did not have all actors, and the ledger counts it as taken. If
/// none comes out and the thread speaks for all workers, it has all actors.
pub(crate) struct Popped<B> {
    of: PhantomData<B>,
}

impl<B: Crew> Outcome<Actor, Ledger> for Popped<B> {
    ghost use Rattle.std.specs.Prelude.{◌≡◌, ◌<◌, length};
    ghost use Rattle.chip_crew.specs.Crew.{IsOurs};
    ghost use Rattle.chip_crew.specs.Ledger.{with_actor};

    ghost then = { λ old a new. IsOurs B.asked.crew a × (length old.has < B.asked.crew.net.setting.game.graph.vertices)
        × (new ≡ with_actor old a) };
}

impl<B: Crew> Lesson<Actor, Ledger> for Popped<B> {
    ghost use Rattle.chip_crew.specs.Places.{AreAllThere};

    ghost fact = { AreAllThere B.asked.crew };
}

/// Puts an actor in, the first of the thread's: this net opened it, and the ledger counts it as put. If there is no
/// place for it, the thread has nothing.
pub(crate) struct Pushed<B> {
    of: PhantomData<B>,
}

impl<B: Crew> Outcome<Actor, Ledger> for Pushed<B> {
    ghost use Rattle.std.specs.Prelude.{◌≡◌};
    ghost use Rattle.chip_crew.specs.Crew.{IsOurs};
    ghost use Rattle.chip_crew.specs.Ledger.{with_put};

    ghost then = { λ old a new. IsOurs B.asked.crew a × (new ≡ with_put old a) };
}

impl<B: Crew> Lesson<Actor, Ledger> for Pushed<B> {
    ghost use Rattle.chip_crew.specs.Places.{HaveRoom};

    ghost fact = { HaveRoom B.asked.crew };
}

/// Gives a worker a ledger of its own; the calling thread then speaks for one worker less. A worker that has ended
/// gives its ledger back.
pub(crate) struct SplitLedger;

impl Split<Ledger> for SplitLedger {
    ghost use Rattle.chip_crew.specs.Ledger.{new_ledger, with_fewer};

    ghost left = { with_fewer };

    ghost right = { λ _. new_ledger };
}

impl Join<Ledger> for SplitLedger {
    ghost use Rattle.chip_crew.specs.Ledger.{both_ledgers, no_ledger};

    ghost both = { both_ledgers };

    ghost spent = { no_ledger };
}

/// The queue of the actors that no worker has at the moment.
pub(crate) type Queue<B> = RuledArrayQueue<Actor, Ledger, Owned<B>>;

/// A thread's right to use the queue. Only proofs know its ledger.
pub(crate) type QueuePass = Pass<Actor, Ledger>;
