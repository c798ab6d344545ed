ghost use Rattle.std.specs.Prelude.{◌≡◌, ◌<◌, ◌≤◌, [], Some, IfOk, MatchResult};
ghost use Rattle.chip_part.specs.Setting.{IsSetting};
ghost use Rattle.chip_part.specs.Edges.{root, stopper};
ghost use Rattle.chip_net.specs.Views.{find};
ghost use Rattle.chip_net.specs.Roots.{new_root, with_stopper, IsRootOver, FeedsChips, RefusesFeed, Polls, Ends};
ghost use Rattle.chip_net.specs.Finish.{Finishes, no_readings};

use crate::net::Net;
use crate::poll::{FeedFault, RootState};
use crate::readings::Readings;
use crate::receipt::Receipt;
use crate::root_actor::RootActor;
use crate::rule::PartSeat;
use crate::stopper::Stopper;
use chip_link::Event;
use chip_part::{Reply, Setting};
use chip_sequence::{Outcome, after_from};
use std::alloc::{AllocError, Global};
use std::marker::{Brand, Model};

/// The root of a net. Contracts see its steps.
#[derive(Drop)]
pub struct Root {
    actor: Box<RootActor>,
    readings: Box<Readings>,
}

impl Model for Root {
    ghost use Rattle.std.specs.Prelude.{◌≡◌};
    ghost use Rattle.chip_net.specs.Roots.{RootKnown, HoldsNothing};
    ghost use Rattle.chip_net.specs.Finish.{no_readings};

    ghost Value = { RootKnown };

    ghost view = { λ a. a.actor.value };

    ghost invariant = { λ a. HoldsNothing a.actor.value
        × (a.readings.value ≡ no_readings a.actor.value.net.setting.game.graph.vertices) };
}

impl Root {
    pub(crate) fn new(alloc: Global, setting: &Setting, seat: PartSeat) -> Result<Root, AllocError>
        requires setting { IsSetting setting.now }
        requires part { find (root setting.now) seat.me.0.parts ≡ Some [] }
        ensures { IfOk result (λ r. r ≡ new_root (record { table = seat.table_id; setting = setting.now })
            (find (stopper setting.now) seat.me.0.parts)) }
    {
        Ok(Root {
            readings: Box::new(alloc, Readings::new(alloc, setting.vertices() as usize)?)?,
            actor: Box::new(alloc, RootActor::new(alloc, setting, seat)?)?,
        })
    }

    /// Feeds `count` chips, 1 or more, to a vertex; returns the number of messages that the root sent there before. It
    /// never waits: if the ring to the vertex is full it fails with `Full`, and a later call may succeed.
    #[cold]
    pub fn feed(&mut self, net: &Net, vertex: u64, count: u64) -> Result<u64, FeedFault>
        requires net { self.old.net ≡ net.now }
        requires vertex { vertex < self.old.net.setting.game.graph.vertices }
        requires count { 1 ≤ count }
        ensures cases { MatchResult result (FeedsChips self.old self.new vertex count)
            (RefusesFeed self.old self.new vertex count) }
        ensures same { self.new.net ≡ self.old.net }
    {
        let edge = net.setting().root_edge(vertex);
        let actor: &mut RootActor = &mut self.actor;
        actor.may_feed(vertex, edge, count)?;
        let Reply::Done(place) = actor.make::<Brand>(net, Event::Clear(edge)) else {
            return Err(FeedFault::Full);
        };
        actor.make::<Brand>(net, Event::Feed { edge, count });
        actor.make::<Brand>(net, Event::Put(edge));
        Ok(place)
    }

    /// Notes the end of feeding, which the net needs to close, and polls. A second call only polls.
    #[cold]
    pub fn end(&mut self, net: &Net) -> RootState
        requires net { self.old.net ≡ net.now }
        ensures ends { Ends self.old self.new result }
        ensures same { self.new.net ≡ self.old.net }
    {
        let actor: &mut RootActor = &mut self.actor;
        actor.make::<Brand>(net, Event::End);
        actor.settle_from(net, 1);
        actor.poll_state()
    }

    /// Settles each root edge once; returns whether the game is over.
    #[inline(never)]
    pub fn poll(&mut self, net: &Net) -> RootState
        requires net { self.old.net ≡ net.now }
        ensures polls { Polls self.old self.new result }
        ensures same { self.new.net ≡ self.old.net }
    {
        let actor: &mut RootActor = &mut self.actor;
        actor.settle_from(net, 0);
        actor.poll_state()
    }

    /// Takes back the stopper. Nothing is sealed after that, and the root knows which edges it sealed.
    pub fn take_back(&mut self, net: &Net, stopper: Stopper)
        requires net { self.old.net ≡ net.now }
        requires stopper { stopper.net ≡ net.now }
        ensures { self.new ≡ with_stopper self.old stopper.did }
    {
        let actor: &mut RootActor = &mut self.actor;
        actor.take_back(net, stopper);
    }

    /// Reads how often each vertex fired and whether it halted, and returns the outcome with all chips that were fed.
    /// The chips follow from the counts: chips held back by a sealed edge count as sent. If the game is not over, the
    /// error is the root, unchanged.
    pub fn finish(self, net: &Net) -> Result<(Outcome, Receipt), Root>
        requires net { self.net ≡ net.now }
        ensures { MatchResult result (λ r. IsRootOver self × Finishes self r.1 r.0)
            (λ r. (r ≡ self) × (IsRootOver self → ⊥)) }
    {
        if !self.actor.is_closed() {
            return Err(self);
        }
        let Root { actor, readings } = self;
        Ok(read_outcome(net, Box::into_inner(actor), Box::into_inner(readings)))
    }
}

/// The end of a game that is over: reads the counts and makes the outcome.
fn read_outcome(net: &Net, actor: RootActor, readings: Readings) -> (Outcome, Receipt)
    requires net { actor.net ≡ net.now }
    requires over { IsRootOver actor }
    requires readings { readings ≡ no_readings actor.net.setting.game.graph.vertices }
    ensures { Finishes actor result.1 result.0 }
{
    let (state, mut receipt) = actor.into_receipt();
    let Readings {
        fired,
        over,
        sealed,
        mut chips,
        ..
    } = receipt.read_all(net, readings);
    let graph = net.setting().game().graph();
    match after_from(graph, state.given(), &fired, &mut chips) {
        Ok(()) => {}
        Err(_) => unreachable!(),
    }
    let outcome = Outcome {
        fired,
        chips,
        over,
        sealed,
    };
    (outcome, receipt)
}
