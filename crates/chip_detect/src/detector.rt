ghost use Rattle.std.specs.Prelude.{◌≡◌, ℕ, ◌-◌, if◌then◌else◌, ◌<◌, ◌≤◌, true, Some, length, Contains, IfOk, IsTrue};
ghost use Rattle.chip_detect.specs.Acknowledging.{is_done};

use crate::slot::Slot;
use crate::tallies::Tallies;
use std::alloc::{AllocError, Global};
use std::marker::Model;

/// One vertex's state of the detection. The root needs none: no edge leads to it, so no message ever engages it.
///
/// Contracts see it as plain books: the numbers of messages got and acknowledged on each edge into the vertex, of those
/// sent and settled on each edge out of it, and the parent edge. A call finds an edge by binary search; calls whose
/// names end in `_at` get its slot and search nothing. Only `new` allocates.
#[derive(Drop)]
pub struct Detect {
    /// The vertex owes an acknowledgement for each open message here.
    ins: Tallies,
    /// The vertex waits for the acknowledgement of each open message here.
    outs: Tallies,
    /// The edge of the message that engaged the vertex, until that message is acknowledged.
    parent: Option<u64>,
}

impl Model for Detect {
    ghost use Rattle.chip_detect.specs.Books.{Books, IsSound};

    ghost Value = { Books };

    ghost view = { λ d. record { ins = d.ins; outs = d.outs; parent = d.parent } };

    ghost invariant = { λ d. IsSound (record { ins = d.ins; outs = d.outs; parent = d.parent }) };
}

impl Detect {
    ghost use Rattle.chip_detect.specs.Tally.{edge_limit, message_limit};
    ghost use Rattle.chip_detect.specs.Books.{Books, IsSound, AreFreshBooks, in_edges, out_edges, is_engaged};
    ghost use Rattle.chip_detect.specs.Books.{got_of, sent_of, settled_of, owed, deficit};
    ghost use Rattle.chip_detect.specs.Acknowledging.{may_ack, keeps_last};
    ghost use Rattle.chip_detect.specs.Steps.{Gets, Acknowledges, Sends, Settles};
    ghost use Rattle.chip_detect.specs.Slot.{IsSlotOf};

    /// The books of a neutral vertex with these edges into it and out of it, and no message yet. The lists may be in
    /// any order and repeat an edge. Fails only without memory.
    pub fn new(alloc: Global, ins: &[u64], outs: &[u64]) -> Result<Self, AllocError>
        requires few_ins { length ins.now ≤ edge_limit }
        requires few_outs { length outs.now ≤ edge_limit }
        ensures fresh { IfOk result (λ books. AreFreshBooks books ins.now outs.now) }
        ensures sound { IfOk result IsSound }
    {
        Ok(Detect {
            ins: Tallies::new(alloc, ins)?,
            outs: Tallies::new(alloc, outs)?,
            parent: None,
        })
    }

    /// Notes that a message of the edge was received.
    pub fn got(&mut self, edge: u64)
        requires into { Contains (in_edges self.old) edge }
        requires room { got_of self.old edge < message_limit }
        ensures gets { Gets self.old self.new edge }
        ensures sound { IsSound self.new }
    {
        let slot = self.ins.slot_of(edge);
        self.got_at(slot);
    }

    /// Notes that a message was received on the edge into the vertex at this slot.
    pub fn got_at(&mut self, slot: Slot)
        requires slot { IsSlotOf (in_edges self.old) slot }
        requires room { got_of self.old slot.edge < message_limit }
        ensures gets { Gets self.old self.new slot.edge }
        ensures sound { IsSound self.new }
    {
        self.ins.add_message_at(slot);
        if self.parent.is_none() {
            self.parent = Some(slot.edge);
        }
    }

    /// The number of messages of the edge that may be acknowledged now; `passive` says whether the vertex is passive.
    pub fn may_ack(&self, edge: u64, passive: bool) -> u64
        requires { Contains (in_edges self.now) edge }
        ensures { result ≡ may_ack self.now edge passive }
    {
        self.may_ack_at(self.ins.slot_of(edge), passive)
    }

    /// The number of messages of the edge into the vertex at this slot that may be acknowledged now.
    pub fn may_ack_at(&self, slot: Slot, passive: bool) -> u64
        requires { IsSlotOf (in_edges self.now) slot }
        ensures { result ≡ may_ack self.now slot.edge passive }
    {
        let owed = self.ins.open_at(slot);
        // (mostly nothing is owed on an edge, and then the parent is not read: a turn calls this for each edge)
        if owed == 0 || self.parent != Some(slot.edge) {
            return owed;
        }
        may_ack_on_parent(owed, self.ins.all_open(), self.deficit(), passive)
    }

    /// Whether the vertex owes only the message that engaged it and may not acknowledge it yet. `passive` says whether
    /// the vertex is passive.
    pub fn keeps_last(&self, passive: bool) -> bool
        ensures value { result ≡ keeps_last self.now passive }
        ensures none { IsTrue result → (p : ℕ) → self.now.parent ≡ Some p → may_ack self.now p passive ≡ 0 }
    {
        self.ins.all_open() == 1 && !(passive && self.deficit() == 0)
    }

    /// Notes that `count` messages of the edge were acknowledged.
    pub fn acked(&mut self, edge: u64, count: u64)
        requires into { Contains (in_edges self.old) edge }
        requires allowed { count ≤ may_ack self.old edge true }
        ensures acknowledges { Acknowledges self.old self.new edge count }
        ensures sound { IsSound self.new }
    {
        let slot = self.ins.slot_of(edge);
        self.acked_at(slot, count);
    }

    /// Notes that `count` messages of the edge into the vertex at this slot were acknowledged.
    pub fn acked_at(&mut self, slot: Slot, count: u64)
        requires slot { IsSlotOf (in_edges self.old) slot }
        requires allowed { count ≤ may_ack self.old slot.edge true }
        ensures acknowledges { Acknowledges self.old self.new slot.edge count }
        ensures sound { IsSound self.new }
    {
        self.ins.add_answers_at(slot, count);
        if self.parent == Some(slot.edge) && self.ins.open_at(slot) == 0 {
            self.parent = None;
        }
    }

    /// Notes that a message was sent on the edge.
    pub fn sent(&mut self, edge: u64)
        requires out { Contains (out_edges self.old) edge }
        requires room { sent_of self.old edge < message_limit }
        ensures sends { Sends self.old self.new edge }
        ensures sound { IsSound self.new }
    {
        let slot = self.outs.slot_of(edge);
        self.sent_at(slot);
    }

    /// Notes that a message was sent on the edge out of the vertex at this slot.
    pub fn sent_at(&mut self, slot: Slot)
        requires slot { IsSlotOf (out_edges self.old) slot }
        requires room { sent_of self.old slot.edge < message_limit }
        ensures sends { Sends self.old self.new slot.edge }
        ensures sound { IsSound self.new }
    {
        self.outs.add_message_at(slot);
    }

    /// Notes that the edge's head has acknowledged `word` messages in all; returns the number of new acknowledgements.
    pub fn settled(&mut self, edge: u64, word: u64) -> u64
        requires out { Contains (out_edges self.old) edge }
        requires no_fewer { settled_of self.old edge ≤ word }
        requires sent { word ≤ sent_of self.old edge }
        ensures more { result ≡ word - settled_of self.old edge }
        ensures settles { Settles self.old self.new edge result }
        ensures sound { IsSound self.new }
    {
        let slot = self.outs.slot_of(edge);
        self.settled_at(slot, word)
    }

    /// Notes that the head of the edge out of the vertex at this slot has acknowledged `word` messages in all; returns
    /// the number of new acknowledgements.
    pub fn settled_at(&mut self, slot: Slot, word: u64) -> u64
        requires slot { IsSlotOf (out_edges self.old) slot }
        requires no_fewer { settled_of self.old slot.edge ≤ word }
        requires sent { word ≤ sent_of self.old slot.edge }
        ensures more { result ≡ word - settled_of self.old slot.edge }
        ensures settles { Settles self.old self.new slot.edge result }
        ensures sound { IsSound self.new }
    {
        let more = word - self.outs.answered_at(slot);
        // (mostly nothing is new, and then nothing is written: a turn reads each edge)
        if more > 0 {
            self.outs.add_answers_at(slot, more);
        }
        more
    }

    /// The number of settled acknowledgements of the edge out of the vertex at this slot.
    pub fn settled_so_far(&self, slot: Slot) -> u64
        requires { IsSlotOf (out_edges self.now) slot }
        ensures count { result ≡ settled_of self.now slot.edge }
        ensures sound { IsSound self.now }
    {
        self.outs.answered_at(slot)
    }

    /// The number of acknowledgements that the vertex waits for, in constant time.
    pub fn deficit(&self) -> u64
        ensures { result ≡ deficit self.now }
    {
        self.outs.all_open()
    }

    /// The number of acknowledgements that the vertex owes on the edge.
    pub fn owed(&self, edge: u64) -> u64
        requires { Contains (in_edges self.now) edge }
        ensures { result ≡ owed self.now edge }
    {
        self.owed_at(self.ins.slot_of(edge))
    }

    /// The number of acknowledgements that the vertex owes on the edge into it at this slot.
    pub fn owed_at(&self, slot: Slot) -> u64
        requires { IsSlotOf (in_edges self.now) slot }
        ensures { result ≡ owed self.now slot.edge }
    {
        self.ins.open_at(slot)
    }

    /// Whether a message engaged the vertex and is not acknowledged yet.
    pub fn engaged(&self) -> bool
        ensures { result ≡ is_engaged self.now }
    {
        self.parent.is_some()
    }

    /// The edge of the message that engaged the vertex, if it is engaged.
    pub fn parent(&self) -> Option<u64>
        ensures parent { result ≡ self.now.parent }
        ensures sound { IsSound self.now }
    {
        self.parent
    }
}

/// The number of messages that a vertex may acknowledge on its parent edge, if it owes `owed` messages there. It keeps
/// the one that engaged it until it owes nothing elsewhere, is passive and has no deficit.
pub fn may_ack_on_parent(owed: u64, all_owed: u64, deficit: u64, passive: bool) -> u64
    requires { 0 < owed }
    ensures { result ≡ (if is_done owed all_owed deficit passive then owed else owed - 1) }
{
    let is_done = all_owed == owed && passive && deficit == 0;
    if is_done { owed } else { owed - 1 }
}
