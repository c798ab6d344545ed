ghost use Rattle.std.specs.Prelude.{◌≡◌, ◌+◌, ◌<◌, ◌≤◌, length, MatchOption, IfSome, None};

use crate::ends::outs::OutEnd;
use crate::medium::Medium;
use chip_detect::{Detect, Slot};
use chip_part::Cursor;

impl OutEnd {
    ghost use Rattle.chip_link.specs.Ends.{put_of};
    ghost use Rattle.chip_actor.specs.Ends.{AreApart, with_end};
    ghost use Rattle.chip_actor.specs.Actor.{Actor, with_sent};
    ghost use Rattle.chip_actor.specs.Medium.{Meets, Moves};

    /// Sends over a medium all that is pending on the edge at this index, if there is something and its cell is empty,
    /// for the vertex with these books, `pending` chips pending on all edges and `refused` refusals: the number of
    /// steps that count. `None` if the claim was refused.
    #[inline(always)]
    pub(crate) fn send<M: Medium>(
        &mut self,
        index: usize,
        pending: &mut u64,
        refused: &mut u64,
        detect: &mut Detect,
        medium: &mut M,
    ) -> Option<usize>
        requires { (a : Actor) × AreApart a.outs.edges a.outs.ends × (index < length a.outs.edges)
            × Meets (M.holds medium.old)
            (with_sent a (with_end a.outs index self.old) pending.old refused.old detect.old) (Cursor.Send index) }
        ensures moves { (a : Actor) → AreApart a.outs.edges a.outs.ends → index < length a.outs.edges
            → let old = with_sent a (with_end a.outs index self.old) pending.old refused.old detect.old in
            let new = with_sent a (with_end a.outs index self.new) pending.new refused.new detect.new in
            Meets (M.holds medium.old) old (Cursor.Send index)
            → MatchOption result
            (Moves (M.holds medium.old) old (Cursor.Send index) (M.holds medium.new) new (Cursor.Store index) 0)
            (λ work. Moves (M.holds medium.old) old (Cursor.Send index) (M.holds medium.new) new
            (Cursor.Send (index + 1)) work) }
        ensures few { IfSome result (λ work. work ≤ 2) }
        ensures refused { result ≡ None → put_of self.new.link ≡ None }
        ensures edge { self.new.link.edge ≡ self.old.link.edge }
    {
        if self.pending == 0 {
            return Some(0);
        }
        let edge = self.link.edge();
        let cell = self.link.cell();
        let looked = medium.clear(edge, cell);
        let Some(place) = self.link.place_for(looked) else {
            let _is_clear = self.link.cleared(looked);
            return Some(0);
        };
        let seen = medium.claim(edge, place, place + 1);
        let count = self.pending;
        if seen != place {
            let _is_clear = self.link.cleared(looked);
            let _message = self.link.claimed(seen, count);
            *refused += 1;
            return None;
        }
        self.link.sent();
        self.pending = 0;
        *pending -= count;
        detect.sent_at(Slot { index, edge });
        let _stored = medium.put(edge, cell, count);
        Some(2)
    }
}
