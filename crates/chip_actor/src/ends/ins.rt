ghost use Rattle.std.specs.Prelude.{◌≡◌, ◌^◌, ◌<◌, ◌≤◌, length, slice_index, map, IfOk, Contains};
ghost use Rattle.std.specs.List.Sorted.{IsStrictlyIncreasing};

use crate::medium::Medium;
use chip_detect::{Detect, Slot};
use chip_link::{HeadLink, Message, Ring};
use chip_part::Cursor;
use std::alloc::{AllocError, Global};
use std::marker::Model;

/// The edges into a vertex, its root edge last, by ascending numbers.
#[derive(Drop)]
pub struct Ins {
    ends: Vec<HeadLink>,
}

impl Model for Ins {
    ghost use Rattle.chip_actor.specs.Ends.{InEnds, in_ends_of, AreApart};

    ghost Value = { InEnds };

    ghost view = { λ a. in_ends_of a.ends.items };

    ghost invariant = { λ a. AreApart (in_ends_of a.ends.items).edges a.ends.items };
}

impl Ins {
    ghost use Rattle.chip_detect.specs.Slot.{IsSlotOf};
    ghost use Rattle.chip_link.specs.Ends.{head_cell, new_head, message_taken, head_after_take};
    ghost use Rattle.chip_actor.specs.Ends.{InEnds, in_ends_of, in_on, AreApart, ChangesIn};
    ghost use Rattle.chip_actor.specs.Actor.{Actor, with_taken};
    ghost use Rattle.chip_actor.specs.Medium.{Meets, Moves};

    /// The slot of an edge.
    pub fn slot_of(&self, edge: u64) -> Slot
        requires { Contains self.now.edges edge }
        ensures slot { IsSlotOf self.now.edges result }
        ensures edge { result.edge ≡ edge }
    {
        let index = self
            .ends
            .binary_search_by_key(&edge, |end| end.edge())
            .unwrap();
        Slot { index, edge }
    }

    /// All edges, in order.
    pub fn ends(&self) -> &[HeadLink]
        ensures ends { result.now ≡ self.now.ends }
        ensures edges { (in_ends_of result.now).edges ≡ self.now.edges }
        ensures apart { AreApart self.now.edges result.now }
    {
        self.ends.as_slice()
    }

    /// The edge at this index.
    pub fn at(&self, index: usize) -> &HeadLink
        requires { index < length self.now.edges }
        ensures end { result.now ≡ in_on self.now (slice_index self.now.edges index) }
        ensures edge { result.now.edge ≡ slice_index self.now.edges index }
    {
        &self.ends[index]
    }

    /// The message that was found in that cell of the edge at this slot.
    pub fn take(&mut self, slot: Slot, cell: u64) -> Option<Message>
        requires slot { IsSlotOf self.old.edges slot }
        requires few { (in_on self.old slot.edge).taken < 2 ^ 62 }
        ensures message { result ≡ message_taken cell (in_on self.old slot.edge) }
        ensures after { ChangesIn self.old self.new slot.edge (head_after_take cell) }
    {
        let end = &mut self.ends[slot.index];
        end.taken(cell)
    }

    /// Takes once from each edge over a medium, for the vertex with these chips and books; the number of takes that
    /// count as work.
    #[inline(always)]
    pub fn take_all<M: Medium>(
        &mut self,
        chips: &mut u64,
        detect: &mut Detect,
        medium: &mut M,
    ) -> usize
        requires { (a : Actor)
            × Meets (M.holds medium.old) (with_taken a self.old chips.old detect.old) (Cursor.Take 0) }
        ensures moves { (a : Actor)
            → Meets (M.holds medium.old) (with_taken a self.old chips.old detect.old) (Cursor.Take 0)
            → Moves (M.holds medium.old) (with_taken a self.old chips.old detect.old) (Cursor.Take 0)
            (M.holds medium.new) (with_taken a self.new chips.new detect.new) (Cursor.Settle 0) result }
        ensures few { result < 2 ^ 60 }
    {
        let mut work = 0;
        for (index, end) in self.ends.iter_mut().enumerate() {
            let edge = end.edge();
            let cell = end.cell();
            let seen = medium.take(edge, cell);
            let Some(_message) = end.taken(seen) else {
                continue;
            };
            *chips += seen;
            detect.got_at(Slot { index, edge });
            work += 1;
        }
        work
    }

    /// Edges with these numbers, on which nothing was taken.
    pub fn new(alloc: Global, numbers: &[u64], ring: Ring) -> Result<Ins, AllocError>
        requires { IsStrictlyIncreasing numbers.now }
        ensures edges { IfOk result (λ ins. ins.edges ≡ numbers.now) }
        ensures ends { IfOk result (λ ins. ins.ends ≡ map (λ e. new_head e ring) numbers.now) }
    {
        let mut ends = Vec::with_capacity(alloc, numbers.len())?;
        for &edge in numbers {
            ends.push(HeadLink::new(edge, ring.cells()))?;
        }
        Ok(Ins { ends })
    }
}
