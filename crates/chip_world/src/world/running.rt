ghost use Rattle.std.specs.Prelude.{◌≡◌, ℕ, ◌^◌, ◌<◌, ◌∷◌, [], ◌++◌, length, map, slice_index, IfOk, MatchResult};
ghost use Rattle.std.specs.Vec.{vec_capacity};

use super::World;
use crate::lanes::Lanes;
use chip_link::{Event, Message};
use chip_part::Reply;
use std::alloc::{AllocError, Global};

/// The record of a run of events. Root edges are numbered after the graph's.
#[derive(Drop)]
pub struct Record {
    /// The reply to each event.
    pub replies: Vec<Reply>,
    /// For each edge, the messages sent and not delivered before the run, then those sent in it.
    pub sent: Vec<Vec<Message>>,
    /// For each edge, the messages that the run delivered.
    pub delivered: Vec<Vec<Message>>,
}

/// A record under construction, with room for all that may come.
#[derive(Drop)]
pub(crate) struct Notes {
    pub(crate) replies: Vec<Reply>,
    pub(crate) sent: Lanes,
    pub(crate) delivered: Lanes,
}

impl Notes {
    ghost use Rattle.chip_world.specs.Run.{HasRooms, SentOnEdge, GotOnEdge, sent_after, delivered_after};
    ghost use Rattle.chip_world.specs.Lanes.{lane_at};

    /// Notes the reply to an event.
    pub(crate) fn add(&mut self, event: Event, reply: Reply)
        requires room { HasRooms (event ∷ []) self.old }
        requires sent { SentOnEdge event reply (length self.old.sent) }
        requires delivered { GotOnEdge event reply (length self.old.delivered) }
        ensures replies { self.new.replies.items ≡ self.old.replies.items ++ reply ∷ [] }
        ensures room { vec_capacity self.new.replies ≡ vec_capacity self.old.replies }
        ensures sent { self.new.sent ≡ sent_after event reply self.old.sent }
        ensures delivered { self.new.delivered ≡ delivered_after event reply self.old.delivered }
    {
        match (event, reply) {
            (Event::Claim(edge), Reply::Sent(message)) => self.sent.push(edge, message),
            (Event::Feed { edge, .. }, Reply::Sent(message)) => self.sent.push(edge, message),
            (Event::Take(edge), Reply::Got(message)) => self.delivered.push(edge, message),
            _ => {}
        }
        self.replies.push_reserved(reply);
    }

    /// The finished record.
    pub(crate) fn finish(self) -> Record
        ensures replies { result.replies.items ≡ self.replies.items }
        ensures sent { map (λ t. t.items) result.sent.items ≡ map (λ lane. lane.messages) self.sent }
        ensures delivered { map (λ t. t.items) result.delivered.items ≡ map (λ lane. lane.messages) self.delivered }
    {
        let Notes {
            replies,
            sent,
            delivered,
        } = self;
        Record {
            replies,
            sent: sent.into_lists(),
            delivered: delivered.into_lists(),
        }
    }
}

ghost use Rattle.chip_world.specs.Run.{claimed_edge, taken_edge, is_claim_of, is_take_of, count_among, Counts};
ghost use Rattle.chip_world.specs.Run.{CountsMore};

/// The number of events of a list on each edge.
#[derive(Drop)]
struct Tally {
    claims: Vec<usize>,
    takes: Vec<usize>,
}

impl Tally {
    /// The counts of these events on `all_edges` edges.
    fn new(alloc: Global, all_edges: usize, events: &[Event]) -> Result<Tally, AllocError>
        ensures claims { IfOk result (λ tally. Counts is_claim_of all_edges events.now tally.claims.items) }
        ensures takes { IfOk result (λ tally. Counts is_take_of all_edges events.now tally.takes.items) }
    {
        let mut claims = vec![in alloc; 0; all_edges]?;
        let mut takes = vec![in alloc; 0; all_edges]?;
        for event in events {
            count_one(&mut claims, claimed_edge(event));
            count_one(&mut takes, taken_edge(event));
        }
        Ok(Tally { claims, takes })
    }
}

/// The edge on which an event claims a place, by a vertex or as a feed.
fn claimed_edge(event: &Event) -> Option<u64>
    ensures { result ≡ claimed_edge event.now }
{
    match *event {
        Event::Claim(edge) | Event::Feed { edge, .. } => Some(edge),
        _ => None,
    }
}

/// The edge of a take.
fn taken_edge(event: &Event) -> Option<u64>
    ensures { result ≡ taken_edge event.now }
{
    match *event {
        Event::Take(edge) => Some(edge),
        _ => None,
    }
}

/// Adds one to an edge's count, if the edge is there.
fn count_one(counts: &mut Vec<usize>, edge: Option<u64>)
    requires { (e : ℕ) → e < length counts.old.items → slice_index counts.old.items e < 2 ^ 63 }
    ensures { CountsMore edge counts.old.items counts.new.items }
{
    let Some(edge) = edge else {
        return;
    };
    if (edge as usize) < counts.len() {
        counts[edge as usize] += 1;
    }
}

impl World {
    ghost use Rattle.chip_world.specs.World.{SomeLogLeaves, WhateverLog};
    ghost use Rattle.chip_world.specs.Run.{HasRooms, IsNotedUpTo, RunsEvents};

    /// An empty record, with room for the results of these events.
    fn blank_notes(&self, alloc: Global, events: &[Event]) -> Result<Notes, AllocError>
        ensures some { SomeLogLeaves self.now }
        ensures rooms { IfOk result (HasRooms events.now) }
        ensures begins { IfOk result
            (λ notes. WhateverLog self.now (λ g log. IsNotedUpTo g log events.now log events.now notes)) }
    {
        let all_edges = self.setting.all_edges() as usize;
        let tally = Tally::new(alloc, all_edges, events)?;
        let mut sent = Lanes::new(alloc);
        let mut delivered = Lanes::new(alloc);
        for edge in 0..all_edges {
            sent.add(self.in_flight(alloc, edge as u64, tally.claims[edge])?)?;
            delivered.add(Vec::with_capacity(alloc, tally.takes[edge])?)?;
        }
        Ok(Notes {
            replies: Vec::with_capacity(alloc, events.len())?,
            sent,
            delivered,
        })
    }

    /// Makes these events, in order. All memory is taken before the first one: without it the world is unchanged.
    pub fn run(&mut self, alloc: Global, events: &[Event]) -> Result<Record, AllocError>
        ensures { MatchResult result
            (λ r. WhateverLog self.old (λ g log. RunsEvents g log events.now self.new r))
            (λ _. self.new ≡ self.old) }
    {
        let mut notes = self.blank_notes(alloc, events)?;
        for event in events {
            let reply = self.step(*event);
            notes.add(*event, reply);
        }
        Ok(notes.finish())
    }
}
