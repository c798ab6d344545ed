ghost use Rattle.std.specs.Prelude.{◌≡◌, ℕ, ◌*◌, ◌^◌, ◌<◌, ◌≤◌, length, map, IfOk, Contains, IsTrue, Option};
ghost use Rattle.std.specs.Prelude.{slice_index, slice_index_or, not, is_some, ◌==◌, MatchOption, IfSome, None};
ghost use Rattle.chip_graph.specs.Limits.{max_total};

use crate::medium::Medium;
use chip_detect::{Detect, Slot};
use chip_graph::Graph;
use chip_link::{Message, Ring, TailLink};
use chip_part::Cursor;
use std::alloc::{AllocError, Global};
use std::marker::Model;

/// One edge out of a vertex.
#[derive(Drop)]
pub struct OutEnd {
    /// The chips that one firing sends along it.
    pub mult: u64,
    /// The number of chips of the last batch that are left to send.
    pub pending: u64,
    /// Its tail: what was sent along it.
    pub link: TailLink,
}

/// The edges out of a vertex, by ascending numbers.
#[derive(Drop)]
pub struct Outs {
    ends: Vec<OutEnd>,
}

impl Model for Outs {
    ghost use Rattle.chip_actor.specs.Ends.{OutEnds, out_ends_of, AreApart};

    ghost Value = { OutEnds };

    ghost view = { λ a. out_ends_of a.ends.items };

    ghost invariant = { λ a. AreApart (out_ends_of a.ends.items).edges a.ends.items };
}

impl Outs {
    ghost use Rattle.chip_detect.specs.Slot.{IsSlotOf};
    ghost use Rattle.chip_link.specs.Words.{claims_in};
    ghost use Rattle.chip_actor.specs.Ends.{AreApart, IsFirstFrom};
    ghost use Rattle.chip_link.specs.Ends.{put_of, message_claimed, may_clear, claim_words, tail_after_clear};
    ghost use Rattle.chip_actor.specs.Ends.{OutEnds, OutEnd, out_ends_of, out_on, ChangesOut, ChangesOuts, IsFreshOuts};
    ghost use Rattle.chip_actor.specs.Ends.{out_after_clear, out_after_claim, out_after_put, out_after_fire};
    ghost use Rattle.chip_actor.specs.Actor.{Actor, with_sent};
    ghost use Rattle.chip_actor.specs.Medium.{Meets, Moves};

    /// The slot of an edge.
    pub fn slot_of(&self, edge: u64) -> Slot
        requires { Contains self.now.edges edge }
        ensures slot { IsSlotOf self.now.edges result }
        ensures edge { result.edge ≡ edge }
    {
        let index = self
            .ends
            .binary_search_by_key(&edge, |end| end.link.edge())
            .unwrap();
        Slot { index, edge }
    }

    /// All edges, in order.
    pub fn ends(&self) -> &[OutEnd]
        ensures ends { result.now ≡ self.now.ends }
        ensures edges { (out_ends_of result.now).edges ≡ self.now.edges }
        ensures apart { AreApart self.now.edges result.now }
    {
        self.ends.as_slice()
    }

    /// The edge at this index.
    pub fn at(&self, index: usize) -> &OutEnd
        requires { index < length self.now.edges }
        ensures end { result.now ≡ out_on self.now (slice_index self.now.edges index) }
        ensures edge { result.now.link.edge ≡ slice_index self.now.edges index }
    {
        &self.ends[index]
    }

    /// The first place from this one on with an edge on which a message is claimed and not put.
    pub fn next_held(&self, place: usize) -> Option<usize>
        ensures { IsFirstFrom (λ e. is_some (put_of (out_on self.now e).link)) self.now.edges place result }
    {
        for next in place..self.ends.len() {
            if self.ends[next].link.held().is_some() {
                return Some(next);
            }
        }
        None
    }

    /// The first place from this one on with an edge on which something is pending.
    pub fn next_pending(&self, place: usize) -> Option<usize>
        ensures { IsFirstFrom (λ e. not ((out_on self.now e).pending == 0)) self.now.edges place result }
    {
        for next in place..self.ends.len() {
            if self.ends[next].pending != 0 {
                return Some(next);
            }
        }
        None
    }

    /// Notes what a look at the cell of the edge at this slot found, and returns the words of a claim that may follow:
    /// its place and its new word.
    pub fn clear(&mut self, slot: Slot, cell: u64) -> Option<(u64, u64)>
        requires { IsSlotOf self.old.edges slot }
        ensures words { result ≡ claim_words (tail_after_clear cell (out_on self.old slot.edge).link) }
        ensures after { ChangesOut self.old self.new slot.edge (out_after_clear cell) }
    {
        let out = &mut self.ends[slot.index];
        let _is_clear = out.link.cleared(cell);
        out.link.claim_next()
    }

    /// Notes the word that a claim for all that is pending on the edge at this slot saw.
    pub fn claim(&mut self, slot: Slot, word: u64) -> Option<Message>
        requires slot { IsSlotOf self.old.edges slot }
        requires clear { IsTrue (out_on self.old slot.edge).link.clear }
        requires word { claims_in word ≡ (out_on self.old slot.edge).link.claims }
        requires count { let out = out_on self.old slot.edge in (1 ≤ out.pending) × (out.pending ≤ max_total) }
        ensures message { let out = out_on self.old slot.edge in result ≡ message_claimed word out.pending out.link }
        ensures after { ChangesOut self.old self.new slot.edge (out_after_claim word) }
    {
        let out = &mut self.ends[slot.index];
        let message = out.link.claimed(word, out.pending)?;
        out.pending = 0;
        Some(message)
    }

    /// Notes that what is claimed on the edge at this slot is stored, and returns its cell and its value.
    pub fn put(&mut self, slot: Slot) -> Option<(u64, u64)>
        requires { IsSlotOf self.old.edges slot }
        ensures stored { result ≡ put_of (out_on self.old slot.edge).link }
        ensures after { ChangesOut self.old self.new slot.edge out_after_put }
    {
        let out = &mut self.ends[slot.index];
        out.link.put_value()
    }

    /// Notes that the vertex fired `k` times in a row.
    pub fn fire(&mut self, k: u64)
        requires { (e : ℕ) → Contains self.old.edges e → k * (out_on self.old e).mult < 2 ^ 64 }
        ensures { ChangesOuts self.old self.new (out_after_fire k) }
    {
        for out in self.ends.iter_mut() {
            out.pending = k * out.mult;
        }
    }

    /// Sends over a medium on each edge on which something is pending, for the vertex with these books, `pending` chips
    /// pending and `refused` refusals, until a claim is refused: the number of steps that count, and the index of the
    /// refusal.
    #[inline(always)]
    pub fn send_all<M: Medium>(
        &mut self,
        pending: &mut u64,
        refused: &mut u64,
        detect: &mut Detect,
        medium: &mut M,
    ) -> (usize, Option<usize>)
        requires { (a : Actor)
            × Meets (M.holds medium.old) (with_sent a self.old pending.old refused.old detect.old) (Cursor.Send 0) }
        ensures moves { (a : Actor) → let old = with_sent a self.old pending.old refused.old detect.old in
            let new = with_sent a self.new pending.new refused.new detect.new in
            Meets (M.holds medium.old) old (Cursor.Send 0)
            → MatchOption result.1
            (Moves (M.holds medium.old) old (Cursor.Send 0) (M.holds medium.new) new Cursor.Limit result.0)
            (λ index. Moves (M.holds medium.old) old (Cursor.Send 0) (M.holds medium.new) new (Cursor.Store index)
            result.0) }
        ensures refusal { IfSome result.1 (λ index. (index < length self.new.edges)
            × (put_of (out_on self.new (slice_index self.new.edges index)).link ≡ None)) }
        ensures few { result.0 < 2 ^ 60 }
    {
        let mut work = 0;
        for (index, out) in self.ends.iter_mut().enumerate() {
            let Some(sent) = out.send(index, pending, refused, detect, medium) else {
                return (work, Some(index));
            };
            work += sent;
        }
        (work, None)
    }

    /// The edges out of a vertex, on which nothing was sent.
    pub fn new(alloc: Global, graph: &Graph, vertex: u64, ring: Ring) -> Result<Outs, AllocError>
        requires { vertex < graph.now.vertices }
        ensures { IfOk result (λ outs. IsFreshOuts graph.now ring vertex outs) }
    {
        let numbers = graph.outs(vertex);
        let mut ends = Vec::with_capacity(alloc, numbers.len())?;
        let rows = graph.edges();
        for &edge in numbers {
            ends.push(OutEnd {
                mult: rows[edge as usize].mult,
                pending: 0,
                link: TailLink::new(edge, ring.cells()),
            })?;
        }
        Ok(Outs { ends })
    }
}
