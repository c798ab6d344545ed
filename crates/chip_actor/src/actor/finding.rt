//! The place of an event's edge among the ends of its vertex. It is found once, for the rules, the operation and the
//! books.
//!
//! All functions of an event are inlined: to pass a reply through memory costs as much as the event itself.

ghost use Rattle.std.specs.Prelude.{◌≡◌};

use crate::actor::ActorState;
use crate::actor::turn::perform;
use crate::medium::Medium;
use chip_detect::Slot;
use chip_link::Event;
use chip_part::{Act, Reply};

/// An event of a vertex, with the slot of its edge among those into the vertex or out of it.
#[derive(Clone, Copy)]
pub(crate) enum Found {
    Take(Slot),
    Settle(Slot),
    Ack(Slot),
    Fire(u64),
    Clear(Slot),
    Claim(Slot),
    Put(Slot),
    Halt,
    /// No vertex feeds.
    Feed { edge: u64, count: u64 },
}

impl ActorState {
    ghost use Rattle.chip_part.specs.Steps.{part_of};
    ghost use Rattle.chip_actor.specs.Actor.{SomePart};
    ghost use Rattle.chip_actor.specs.Found.{event_found, IsPlaced, MeetsEvent, MakesEvent};

    /// An event of the vertex, with the slot of its edge.
    #[inline(always)]
    pub(crate) fn find(&self, event: &Event) -> Found
        requires { SomePart self.now (λ g s. part_of g event.now ≡ self.now.vertex) }
        ensures event { event_found self.now.vertex result ≡ event.now }
        ensures placed { IsPlaced self.now result }
    {
        match *event {
            Event::Take(edge) => Found::Take(self.ins.slot_of(edge)),
            Event::Settle(edge) => Found::Settle(self.outs.slot_of(edge)),
            Event::Ack(edge) => Found::Ack(self.ins.slot_of(edge)),
            Event::Fire { k, .. } => Found::Fire(k),
            Event::Clear(edge) => Found::Clear(self.outs.slot_of(edge)),
            Event::Claim(edge) => Found::Claim(self.outs.slot_of(edge)),
            Event::Put(edge) => Found::Put(self.outs.slot_of(edge)),
            Event::Halt(_) => Found::Halt,
            Event::Feed { edge, count } => Found::Feed { edge, count },
            Event::Seal(_) | Event::Read(_) | Event::End => unreachable!(),
        }
    }

    /// Makes an event of the vertex over a medium, or returns the first of its rules that is not met.
    #[inline(always)]
    pub fn step<M: Medium>(&mut self, event: &Event, medium: &mut M) -> Reply
        requires { MeetsEvent (M.holds medium.old) self.old event.now }
        ensures { MakesEvent (M.holds medium.old) self.old event.now (M.holds medium.new) self.new result }
    {
        let found = self.find(event);
        if let Some(rule) = self.broken_rule(found) {
            return Reply::NotNow(rule);
        }
        let act = self.act_at(found);
        let seen = perform(medium, act);
        self.note(found, seen)
    }
}

ghost use Rattle.chip_part.specs.Acting.{event_of};

/// The event that an operation of a vertex makes. For `End`, which is none, it is an event that no vertex makes.
pub(crate) fn event_of(vertex: u64, act: Act) -> Event
    ensures { result ≡ event_of vertex act }
{
    match act {
        Act::Take { edge, .. } => Event::Take(edge),
        Act::Settle { edge } => Event::Settle(edge),
        Act::Fire { k } => Event::Fire { vertex, k },
        Act::Clear { edge, .. } => Event::Clear(edge),
        Act::Claim { edge, .. } => Event::Claim(edge),
        Act::Put { edge, .. } => Event::Put(edge),
        Act::Halt { .. } => Event::Halt(vertex),
        Act::Ack { edge, .. } => Event::Ack(edge),
        Act::End => Event::Seal(0),
    }
}
