ghost use Rattle.std.specs.Prelude.{◌≡◌, ◌^◌, ◌<◌};
ghost use Rattle.chip_link.specs.Ends.{new_head, head_cell, head_after_take, message_taken};
ghost use Rattle.chip_link.specs.Rings.{IsRing};

use crate::message::Message;
use crate::ring::Ring;
use std::marker::Model;

/// The end of an edge that receives. It swaps the cell of the next place (`cell`) with 0 and notes the old value
/// (`taken`).
#[derive(Drop)]
pub struct HeadLink {
    edge: u64,
    taken: u64,
    ring: Ring,
    // The cell of the next place: counted cyclically, since a division is slow.
    cell: u8,
}

impl Model for HeadLink {
    ghost use Rattle.std.specs.Prelude.{◌≡◌, ◌%◌, ◌<◌};
    ghost use Rattle.chip_link.specs.Ends.{HeadState};

    ghost Value = { HeadState };

    ghost view = { λ a. record { edge = a.edge; ring = a.ring; taken = a.taken } };

    ghost invariant = { λ a. (a.cell ≡ a.taken % a.ring) × (a.cell < a.ring) };
}

impl HeadLink {
    /// The head of an edge from which nothing was taken, whose ring has `ring` cells, 1 to 64.
    pub fn new(edge: u64, ring: u64) -> HeadLink
        requires { IsRing ring }
        ensures { result ≡ new_head edge ring }
    {
        HeadLink {
            edge,
            taken: 0,
            ring: Ring::of(ring),
            cell: 0,
        }
    }

    /// The number of its edge.
    pub fn edge(&self) -> u64
        ensures { result ≡ self.now.edge }
    {
        self.edge
    }

    /// The cell of the next place to take, 0 to below the cells of the ring.
    pub fn cell(&self) -> u64
        ensures cell { result ≡ head_cell self.now }
        ensures inside { result < self.now.ring }
    {
        u64::from(self.cell)
    }

    /// The message found in that cell, or `None` if it was empty. At most 2^62 messages are taken.
    pub fn taken(&mut self, old_cell: u64) -> Option<Message>
        requires { self.old.taken < 2 ^ 62 }
        ensures message { result ≡ message_taken old_cell self.old }
        ensures after { self.new ≡ head_after_take old_cell self.old }
    {
        if old_cell == 0 {
            return None;
        }
        let place = self.taken;
        self.taken += 1;
        self.cell = self.ring.after(self.cell);
        Some(Message {
            edge: self.edge,
            place,
            count: old_cell,
        })
    }
}
