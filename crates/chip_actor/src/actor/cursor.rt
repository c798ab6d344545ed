//! The order of a turn. Each function returns what is due in a phase, or goes on to the next phase if nothing is.

ghost use Rattle.std.specs.Prelude.{◌≡◌, ◌==◌, not, true, ⊤};

use crate::actor::ActorState;
use chip_detect::Slot;
use chip_link::Event;
use chip_part::{Act, Cursor};

impl ActorState {
    ghost use Rattle.chip_actor.specs.Turning.{StandsAt, TurnContinues, DueAt, MayBeAt};
    ghost use Rattle.chip_actor.specs.Ends.{IsFirstFrom};
    ghost use Rattle.chip_part.specs.Turn.{may_fire, batch_of, is_at_limit};
    ghost use Rattle.chip_actor.specs.Actor.{WhateverPart, SomePart, is_passive_now};
    ghost use Rattle.chip_detect.specs.Acknowledging.{may_ack};

    /// The next operation of a turn, and the cursor after it; `Act::End` at the end. The cursor is `Cursor::start()`,
    /// or the last one that was returned, with its operation applied: see `IsUnderWay`.
    pub fn next(&self, cursor: Cursor) -> (Act, Cursor)
        requires { StandsAt self.now cursor }
        ensures goes { TurnContinues self.now cursor result.0 result.1 }
        ensures over { result.0 ≡ Act.End → result.1 ≡ Cursor.Over }
    {
        match self.due(cursor) {
            Some((event, next)) => (self.act(&event), next),
            None => (Act::End, Cursor::Over),
        }
    }

    // What is due at a cursor, with the cursor after it; nothing at the end of the turn. A turn over a medium seldom
    // comes here, so that its loops have the registers.
    #[cold]
    pub(crate) fn due(&self, cursor: Cursor) -> Option<(Event, Cursor)>
        requires { MayBeAt self.now cursor }
        ensures { DueAt self.now cursor result }
    {
        match cursor {
            Cursor::Take(place) => self.due_take(place),
            Cursor::Settle(place) => self.due_settle(place),
            Cursor::Fire => self.due_fire(),
            Cursor::Put(place) => self.due_put(place),
            Cursor::Refusal => self.due_refusal(),
            Cursor::Send(place) => self.due_send(place),
            Cursor::Claim(place) => self.due_claim(place),
            Cursor::Store(place) => self.due_store(place),
            Cursor::Limit => self.due_limit(),
            Cursor::Ack(place) => self.due_ack(place),
            Cursor::Parent => self.due_parent(),
            Cursor::Over => None,
        }
    }

    fn due_take(&self, place: usize) -> Option<(Event, Cursor)>
        requires { MayBeAt self.now (Cursor.Take place) }
        ensures { DueAt self.now (Cursor.Take place) result }
    {
        match self.ins.ends().get(place) {
            Some(end) => Some((Event::Take(end.edge()), Cursor::Take(place + 1))),
            None => self.due_settle(0),
        }
    }

    fn due_settle(&self, place: usize) -> Option<(Event, Cursor)>
        requires { MayBeAt self.now (Cursor.Settle place) }
        ensures { DueAt self.now (Cursor.Settle place) result }
    {
        match self.outs.ends().get(place) {
            Some(end) => Some((Event::Settle(end.link.edge()), Cursor::Settle(place + 1))),
            None => self.due_fire(),
        }
    }

    /// Whether the vertex may fire now.
    pub(crate) fn may_fire(&self) -> bool
        ensures { WhateverPart self.now (λ g s. result ≡ may_fire g self.now.vertex s) }
    {
        let is_free = self.halt.is_none() && self.pending == 0 && self.unput == 0;
        is_free && self.is_legal() && self.fired < self.limit
    }

    /// How often the vertex fires if it may: as often as its chips and its limit allow.
    pub(crate) fn batch(&self) -> u64
        requires { SomePart self.now (λ g s. may_fire g self.now.vertex s ≡ true) }
        ensures { WhateverPart self.now (λ g s. result ≡ batch_of g self.now.vertex s) }
    {
        (self.chips / self.degree).min(self.limit - self.fired)
    }

    fn due_fire(&self) -> Option<(Event, Cursor)>
        requires { MayBeAt self.now Cursor.Fire }
        ensures { DueAt self.now Cursor.Fire result }
    {
        if self.may_fire() {
            let vertex = self.vertex;
            let k = self.batch();
            return Some((Event::Fire { vertex, k }, Cursor::Put(0)));
        }
        self.due_put(0)
    }

    fn due_put(&self, place: usize) -> Option<(Event, Cursor)>
        requires { MayBeAt self.now (Cursor.Put place) }
        ensures { DueAt self.now (Cursor.Put place) result }
    {
        if self.unput == 0 {
            return self.due_refusal();
        }
        match self.outs.next_held(place) {
            Some(place) => {
                let edge = self.outs.at(place).link.edge();
                Some((Event::Put(edge), Cursor::Put(place + 1)))
            }
            None => self.due_refusal(),
        }
    }

    fn due_refusal(&self) -> Option<(Event, Cursor)>
        requires { MayBeAt self.now Cursor.Refusal }
        ensures { DueAt self.now Cursor.Refusal result }
    {
        if self.halt.is_some() {
            return self.due_limit();
        }
        if self.refused > 0 {
            return Some((Event::Halt(self.vertex), Cursor::Limit));
        }
        self.due_send(0)
    }

    fn due_send(&self, place: usize) -> Option<(Event, Cursor)>
        requires { MayBeAt self.now (Cursor.Send place) }
        ensures { DueAt self.now (Cursor.Send place) result }
    {
        if self.pending == 0 {
            return self.due_limit();
        }
        match self.outs.next_pending(place) {
            Some(place) => {
                let edge = self.outs.at(place).link.edge();
                Some((Event::Clear(edge), Cursor::Claim(place)))
            }
            None => self.due_limit(),
        }
    }

    fn due_claim(&self, place: usize) -> Option<(Event, Cursor)>
        requires { MayBeAt self.now (Cursor.Claim place) }
        ensures { DueAt self.now (Cursor.Claim place) result }
    {
        let edge = self.outs.at(place).link.edge();
        if self.outs.at(place).link.claim_next().is_some() {
            return Some((Event::Claim(edge), Cursor::Store(place)));
        }
        self.due_send(place + 1)
    }

    fn due_store(&self, place: usize) -> Option<(Event, Cursor)>
        requires { MayBeAt self.now (Cursor.Store place) }
        ensures { DueAt self.now (Cursor.Store place) result }
    {
        let edge = self.outs.at(place).link.edge();
        if self.outs.at(place).link.held().is_some() {
            return Some((Event::Put(edge), Cursor::Send(place + 1)));
        }
        Some((Event::Halt(self.vertex), Cursor::Limit))
    }

    /// Whether the vertex may halt by the limit now.
    pub(crate) fn is_at_limit(&self) -> bool
        ensures { WhateverPart self.now (λ g s. result ≡ is_at_limit g self.now.vertex s) }
    {
        let is_free = self.halt.is_none() && self.pending == 0;
        is_free && self.is_legal() && self.fired == self.limit
    }

    fn due_limit(&self) -> Option<(Event, Cursor)>
        requires { MayBeAt self.now Cursor.Limit }
        ensures { DueAt self.now Cursor.Limit result }
    {
        if self.is_at_limit() {
            return Some((Event::Halt(self.vertex), Cursor::Ack(0)));
        }
        self.due_ack(0)
    }

    fn due_ack(&self, place: usize) -> Option<(Event, Cursor)>
        requires { MayBeAt self.now (Cursor.Ack place) }
        ensures { DueAt self.now (Cursor.Ack place) result }
    {
        match self.next_owed(place) {
            Some(place) => {
                let edge = self.ins.at(place).edge();
                Some((Event::Ack(edge), Cursor::Ack(place + 1)))
            }
            None => self.due_parent(),
        }
    }

    // The first place from this one on with an edge on which something may be acknowledged.
    fn next_owed(&self, place: usize) -> Option<usize>
        requires { SomePart self.now (λ g s. ⊤) }
        ensures { IsFirstFrom (λ e. not (may_ack self.now.detect e (is_passive_now self.now) == 0)) self.now.ins.edges
            place result }
    {
        let ends = self.ins.ends();
        let passive = self.passive();
        for next in place..ends.len() {
            let slot = Slot {
                index: next,
                edge: ends[next].edge(),
            };
            if self.detect.may_ack_at(slot, passive) != 0 {
                return Some(next);
            }
        }
        None
    }

    fn due_parent(&self) -> Option<(Event, Cursor)>
        requires { MayBeAt self.now Cursor.Parent }
        ensures { DueAt self.now Cursor.Parent result }
    {
        let edge = self.detect.parent()?;
        if self.detect.may_ack(edge, self.passive()) == 0 {
            return None;
        }
        Some((Event::Ack(edge), Cursor::Over))
    }
}
