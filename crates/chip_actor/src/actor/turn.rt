//! A whole turn over a medium: loops over the edges in the order of the turn, and the rare cases operation by
//! operation.
//!
//! All functions that take the medium are inlined. Then its address is not needed, so that what it holds stays in
//! registers and is not read again after an atomic operation.

ghost use Rattle.std.specs.Prelude.{◌≡◌, ◌≢◌, ◌^◌, ◌<◌, ◌≤◌, ◌==◌, ◌&&◌, is_none};

use crate::actor::ActorState;
use crate::medium::Medium;
use chip_detect::Slot;
use chip_part::{Act, Cursor, Observed, is_by_limit};

impl ActorState {
    ghost use Rattle.chip_actor.specs.Actor.{is_passive_now};
    ghost use Rattle.chip_actor.specs.Medium.{Meets, Moves, MakesTurnOver};

    /// Takes once from each edge into the vertex.
    #[inline(always)]
    fn take_all<M: Medium>(&mut self, medium: &mut M) -> usize
        requires { Meets (M.holds medium.old) self.old (Cursor.Take 0) }
        ensures moves { Moves (M.holds medium.old) self.old (Cursor.Take 0) (M.holds medium.new) self.new
            (Cursor.Settle 0) result }
        ensures few { result < 2 ^ 60 }
    {
        self.ins.take_all(&mut self.chips, &mut self.detect, medium)
    }

    /// Settles each edge out of the vertex.
    #[inline(always)]
    fn settle_all<M: Medium>(&mut self, medium: &mut M) -> usize
        requires { Meets (M.holds medium.old) self.old (Cursor.Settle 0) }
        ensures moves { Moves (M.holds medium.old) self.old (Cursor.Settle 0)
            (M.holds medium.new) self.new Cursor.Fire result }
        ensures few { result < 2 ^ 60 }
    {
        let detect = &mut self.detect;
        let mut work = 0;
        for (index, out) in self.outs.ends().iter().enumerate() {
            let edge = out.link.edge();
            let slot = Slot { index, edge };
            let seen = medium.settle(edge);
            // (mostly nothing is new)
            if seen == detect.settled_so_far(slot) {
                continue;
            }
            let _more = detect.settled_at(slot, seen);
            work += 1;
        }
        work
    }

    /// Fires, if the vertex may: as often as its chips and its limit allow.
    #[inline(always)]
    fn fire_here<M: Medium>(&mut self, medium: &mut M) -> usize
        requires { Meets (M.holds medium.old) self.old Cursor.Fire }
        ensures moves { Moves (M.holds medium.old) self.old Cursor.Fire (M.holds medium.new) self.new
            (Cursor.Put 0) result }
        ensures few { result ≤ 1 }
    {
        if self.may_fire() {
            let k = self.batch();
            let seen = medium.fire(k);
            self.fire(k, seen);
            return 1;
        }
        0
    }

    /// Sends on each edge out of the vertex on which something is pending, until a claim is refused: then it halts.
    #[inline(always)]
    fn send_all<M: Medium>(&mut self, medium: &mut M) -> usize
        requires { Meets (M.holds medium.old) self.old (Cursor.Send 0) }
        ensures moves { Moves (M.holds medium.old) self.old (Cursor.Send 0)
            (M.holds medium.new) self.new Cursor.Limit result }
        ensures few { result < 2 ^ 61 }
    {
        let (sent, refusal) = self.outs.send_all(
            &mut self.pending,
            &mut self.refused,
            &mut self.detect,
            medium,
        );
        let Some(_index) = refusal else {
            return sent;
        };
        let seen = medium.halt(is_by_limit(self.cause()));
        self.stop(seen);
        sent + 1
    }

    /// Acknowledges on each edge into the vertex.
    #[inline(always)]
    fn ack_all<M: Medium>(&mut self, medium: &mut M, passive: bool) -> usize
        requires passive { passive ≡ is_passive_now self.old }
        requires meets { Meets (M.holds medium.old) self.old (Cursor.Ack 0) }
        ensures moves { Moves (M.holds medium.old) self.old (Cursor.Ack 0)
            (M.holds medium.new) self.new Cursor.Parent result }
        ensures passive { passive ≡ is_passive_now self.new }
        ensures few { result < 2 ^ 60 }
    {
        let detect = &mut self.detect;
        let mut work = 0;
        for (index, end) in self.ins.ends().iter().enumerate() {
            let edge = end.edge();
            let slot = Slot { index, edge };
            let count = detect.may_ack_at(slot, passive);
            if count == 0 {
                continue;
            }
            let _seen = medium.ack(edge, count);
            detect.acked_at(slot, count);
            work += 1;
        }
        work
    }

    /// Acknowledges once more on the edge of the message that engaged the vertex, if it still does.
    #[inline(always)]
    fn ack_parent<M: Medium>(&mut self, medium: &mut M, passive: bool) -> usize
        requires passive { passive ≡ is_passive_now self.old }
        requires meets { Meets (M.holds medium.old) self.old Cursor.Parent }
        ensures moves { Moves (M.holds medium.old) self.old Cursor.Parent
            (M.holds medium.new) self.new Cursor.Over result }
        ensures few { result ≤ 1 }
    {
        let Some(edge) = self.detect.parent() else {
            return 0;
        };
        // This is so after most turns, and then nothing is searched for.
        if self.detect.keeps_last(passive) {
            return 0;
        }
        let slot = self.ins.slot_of(edge);
        let more = self.detect.may_ack_at(slot, passive);
        if more == 0 {
            return 0;
        }
        let seen = medium.ack(slot.edge, more);
        self.acknowledge(slot, more, seen);
        1
    }

    /// Makes what is left of a turn at a cursor, operation by operation.
    #[inline(always)]
    fn finish<M: Medium>(&mut self, medium: &mut M, from: Cursor) -> usize
        requires { Meets (M.holds medium.old) self.old from }
        ensures moves { Moves (M.holds medium.old) self.old from (M.holds medium.new) self.new Cursor.Over result }
        ensures few { result < 2 ^ 32 }
    {
        let mut cursor = from;
        let mut work = 0;
        loop {
            let Some((event, next)) = self.due(cursor) else {
                return work;
            };
            let act = self.act(&event);
            let seen = perform(medium, act);
            let observed = Observed { act, seen };
            let reply = self.apply(observed);
            if observed.counts(&reply) {
                work += 1;
            }
            cursor = next;
        }
    }

    /// Whether it runs, and nothing is left from before the turn: no message that is claimed and not put, no refusal.
    fn may_send(&self) -> bool
        ensures { result ≡ (is_none self.now.halt && self.now.unput == 0 && self.now.refused == 0) }
    {
        self.halt.is_none() && self.unput == 0 && self.refused == 0
    }

    /// Makes the rest of a turn after the firing. A vertex that is halted, or that a schedule left in the middle of a
    /// turn, goes operation by operation, and so does one that halts by the limit, once.
    #[inline(always)]
    fn send_and_acknowledge<M: Medium>(&mut self, medium: &mut M) -> usize
        requires { Meets (M.holds medium.old) self.old (Cursor.Put 0) }
        ensures moves { Moves (M.holds medium.old) self.old (Cursor.Put 0)
            (M.holds medium.new) self.new Cursor.Over result }
        ensures few { result < 2 ^ 62 }
    {
        if !self.may_send() {
            return self.finish(medium, Cursor::Put(0));
        }
        let sent = self.send_all(medium);
        if self.is_at_limit() {
            return sent + self.finish(medium, Cursor::Limit);
        }
        // (a vertex that is not engaged owes nothing)
        if !self.detect.engaged() {
            return sent;
        }
        let passive = self.passive();
        let acked = self.ack_all(medium, passive);
        sent + acked + self.ack_parent(medium, passive)
    }

    /// Makes one whole turn over a medium; the number of its steps that count as work.
    #[inline(always)]
    pub fn turn<M: Medium>(&mut self, medium: &mut M) -> usize
        requires { Meets (M.holds medium.old) self.old (Cursor.Take 0) }
        ensures { MakesTurnOver (M.holds medium.old) self.old (M.holds medium.new) self.new result }
    {
        let taken = self.take_all(medium);
        let settled = self.settle_all(medium);
        let fired = self.fire_here(medium);
        taken + settled + fired + self.send_and_acknowledge(medium)
    }
}

ghost use Rattle.chip_actor.specs.Medium.{MayServe, Serves};

/// Makes an operation on the shared words, and returns the word that it saw.
#[inline(always)]
pub(crate) fn perform<M: Medium>(medium: &mut M, act: Act) -> u64
    requires some { act ≢ Act.End }
    requires may { MayServe (M.holds medium.old) act }
    ensures { Serves (M.holds medium.old) (M.holds medium.new) act result }
{
    match act {
        Act::Take { edge, cell } => medium.take(edge, cell),
        Act::Settle { edge } => medium.settle(edge),
        Act::Fire { k } => medium.fire(k),
        Act::Clear { edge, cell } => medium.clear(edge, cell),
        Act::Claim {
            edge,
            expected,
            new,
        } => medium.claim(edge, expected, new),
        Act::Put { edge, cell, value } => medium.put(edge, cell, value),
        Act::Halt { by_limit } => medium.halt(by_limit),
        Act::Ack { edge, count } => medium.ack(edge, count),
        Act::End => unreachable!(),
    }
}
