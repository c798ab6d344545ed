ghost use Rattle.std.specs.Prelude.{◌≡◌, ◌≢◌, ◌+◌, ◌*◌, ◌<◌, ◌≤◌, ◌==◌, not, ◌&&◌, ◌||◌, nat_le, is_none, length};
ghost use Rattle.std.specs.Prelude.{slice_index, Bool, IfOk, IfSome, None, ⊤};

use crate::ends::{Ins, OutEnd, Outs};
use chip_detect::{Detect, Slot};
use chip_graph::{Game, Graph};
use chip_link::{Event, Ring};
use chip_part::{Act, Cause, Observed, Reply, Rule, first_unmet, is_by_limit};
use finding::{Found, event_of};
use std::alloc::{AllocError, Global};
use std::marker::Model;

mod cursor;
mod finding;
mod turn;

/// The state of one vertex of a running machine.
///
/// Contracts see it as plain data (`specs/Actor.antt`) and say what it does to the part of the core that it stands for.
/// An event takes time at most logarithmic in the vertex's edges, but a firing time linear in the edges out of it.
#[derive(Drop)]
pub struct ActorState {
    vertex: u64,
    limit: u64,
    outs: Outs,
    ins: Ins,
    // What a turn reads and writes is together from here on.
    is_sink: bool,
    halt: Option<Cause>,
    degree: u64,
    fired: u64,
    detect: Detect,
    chips: u64,
    // What is pending on all edges out of the vertex, the number of messages claimed and not put, and the number of
    // edges on which a claim was refused: kept, so that nobody has to add them up.
    pending: u64,
    unput: u64,
    refused: u64,
}

impl Model for ActorState {
    ghost use Rattle.chip_actor.specs.Actor.{Actor};

    ghost Value = { Actor };

    ghost view = { λ a. record {
      vertex = a.vertex;
      is_sink = a.is_sink;
      degree = a.degree;
      limit = a.limit;
      chips = a.chips;
      fired = a.fired;
      halt = a.halt;
      outs = a.outs;
      ins = a.ins;
      detect = a.detect;
      pending = a.pending;
      unput = a.unput;
      refused = a.refused;
    } };
}

impl ActorState {
    ghost use Rattle.chip_detect.specs.Acknowledging.{may_ack};
    ghost use Rattle.chip_detect.specs.Slot.{IsSlotOf};
    ghost use Rattle.chip_link.specs.Rings.{IsRing};
    ghost use Rattle.chip_part.specs.Setting.{setting_with};
    ghost use Rattle.chip_part.specs.Part.{opening_part, is_passive, cause};
    ghost use Rattle.chip_part.specs.Edges.{tail_of, head_of};
    ghost use Rattle.chip_part.specs.Rules.{unmet_rule};
    ghost use Rattle.chip_part.specs.Steps.{part_of};
    ghost use Rattle.chip_part.specs.Acting.{act_of, event_of, verdict, CanDo, IsOperationDue};
    ghost use Rattle.chip_actor.specs.Actor.{Actor, StandsFor, WhateverPart, SomePart, ActorMakes, is_legal_now};
    ghost use Rattle.chip_actor.specs.Actor.{is_passive_now};
    ghost use Rattle.chip_actor.specs.Ends.{out_on};
    ghost use Rattle.chip_actor.specs.Found.{event_found, IsPlaced};
    ghost use Rattle.chip_link.specs.declared.event.Event.TheVariants.{Take, Ack, Fire, Clear, Claim, Put, Halt};
    ghost use Rattle.chip_link.specs.declared.event.Event.TheVariants.{Settle};

    /// The vertex whose state it is.
    pub fn vertex(&self) -> u64
        ensures { result ≡ self.now.vertex }
    {
        self.vertex
    }

    /// How many chips the vertex holds.
    pub fn chips(&self) -> u64
        ensures value { result ≡ self.now.chips }
        ensures part { WhateverPart self.now (λ g s. result ≡ s.chips) }
    {
        self.chips
    }

    /// How often the vertex fired.
    pub fn fired(&self) -> u64
        ensures value { result ≡ self.now.fired }
        ensures part { WhateverPart self.now (λ g s. result ≡ s.fired) }
    {
        self.fired
    }

    /// Why the vertex halted, if it did.
    pub fn halted(&self) -> Option<Cause>
        ensures value { result ≡ self.now.halt }
        ensures part { WhateverPart self.now (λ g s. result ≡ s.halt) }
    {
        self.halt
    }

    /// The vertex's books of the detector.
    pub fn detect(&self) -> &Detect
        ensures { result.now ≡ self.now.detect }
    {
        &self.detect
    }

    /// The number of chips of the last batch that are left to send, on an edge out of the vertex.
    pub fn pending(&self, edge: u64) -> u64
        requires { SomePart self.now (λ g s. tail_of g edge ≡ self.now.vertex) }
        ensures { WhateverPart self.now (λ g s. tail_of g edge ≡ self.now.vertex → result ≡ (s.out edge).pending) }
    {
        self.out_end(self.outs.slot_of(edge)).pending
    }

    /// The chips of the message that is claimed on an edge out of the vertex and not put, if there is one.
    pub fn held(&self, edge: u64) -> Option<u64>
        requires { SomePart self.now (λ g s. tail_of g edge ≡ self.now.vertex) }
        ensures { WhateverPart self.now (λ g s. tail_of g edge ≡ self.now.vertex → result ≡ (s.out edge).link.held) }
    {
        let (_, count) = self.out_end(self.outs.slot_of(edge)).link.held()?;
        Some(count)
    }

    /// Whether the vertex has nothing to do unless a message comes.
    pub fn passive(&self) -> bool
        ensures value { result ≡ is_passive_now self.now }
        ensures part { WhateverPart self.now (λ g s. result ≡ is_passive g self.now.vertex s) }
    {
        self.unput == 0 && (self.halt.is_some() || self.pending == 0 && !self.is_legal())
    }

    // The edge at this slot of those out of the vertex.
    fn out_end(&self, slot: Slot) -> &OutEnd
        requires { IsSlotOf self.now.outs.edges slot }
        ensures { result.now ≡ out_on self.now.outs slot.edge }
    {
        self.outs.at(slot.index)
    }

    // Whether the vertex is not the sink, and has the chips for one firing.
    fn is_legal(&self) -> bool
        ensures { result ≡ is_legal_now self.now }
    {
        !self.is_sink && self.chips >= self.degree
    }

    // Why the vertex may halt now, if it may.
    fn cause(&self) -> Option<Cause>
        ensures { WhateverPart self.now (λ g s. result ≡ cause g self.now.vertex s) }
    {
        if self.refused > 0 {
            Some(Cause::SealedEdge)
        } else if self.pending == 0 && self.is_legal() && self.fired == self.limit {
            Some(Cause::FiringLimit)
        } else {
            None
        }
    }

    // Whether the vertex has the chips for `k` firings.
    fn affords(&self, k: u64) -> bool
        ensures { result ≡ nat_le (k * self.now.degree) self.now.chips }
    {
        let chips = self.chips;
        match k.checked_mul(self.degree) {
            Some(cost) => cost <= chips,
            None => false,
        }
    }

    // Whether nothing is pending, and nothing claimed and not put.
    fn is_idle(&self) -> bool
        ensures { result ≡ (self.now.pending == 0 && self.now.unput == 0) }
    {
        self.pending == 0 && self.unput == 0
    }

    // How many messages of the edge at this slot of those into the vertex may be acknowledged now.
    fn may_ack(&self, slot: Slot) -> u64
        requires slot { IsSlotOf self.now.ins.edges slot }
        requires some { SomePart self.now (λ g s. ⊤) }
        ensures { result ≡ may_ack self.now.detect slot.edge (is_passive_now self.now) }
    {
        self.detect.may_ack_at(slot, self.passive())
    }

    fn ack_rule(&self, slot: Slot) -> Option<Rule>
        requires slot { IsSlotOf self.now.ins.edges slot }
        requires some { SomePart self.now (λ g s. ⊤) }
        ensures { WhateverPart self.now
            (λ g s. head_of g slot.edge ≡ self.now.vertex → result ≡ unmet_rule g (Ack slot.edge) s) }
    {
        first_unmet(&[
            (self.detect.owed_at(slot) != 0, Rule::NothingOwed),
            (self.may_ack(slot) != 0, Rule::Engaged),
        ])
    }

    fn fire_rule(&self, k: u64) -> Option<Rule>
        requires { SomePart self.now (λ g s. ⊤) }
        ensures { WhateverPart self.now (λ g s. result ≡ unmet_rule g (Fire self.now.vertex k) s) }
    {
        first_unmet(&[
            (!self.is_sink, Rule::Sink),
            (self.halt.is_none(), Rule::Halted),
            (self.is_idle(), Rule::Pending),
            (k != 0, Rule::Zero),
            (k <= self.limit - self.fired, Rule::Limit),
            (self.affords(k), Rule::NotLegal),
        ])
    }

    fn clear_rule(&self, slot: Slot) -> Option<Rule>
        requires { IsSlotOf self.now.outs.edges slot }
        ensures { WhateverPart self.now
            (λ g s. tail_of g slot.edge ≡ self.now.vertex → result ≡ unmet_rule g (Clear slot.edge) s) }
    {
        let out = self.out_end(slot);
        first_unmet(&[
            (self.halt.is_none(), Rule::Halted),
            (!out.link.refused(), Rule::Refused),
            (out.pending != 0, Rule::NothingPending),
        ])
    }

    fn claim_rule(&self, slot: Slot) -> Option<Rule>
        requires { IsSlotOf self.now.outs.edges slot }
        ensures { WhateverPart self.now
            (λ g s. tail_of g slot.edge ≡ self.now.vertex → result ≡ unmet_rule g (Claim slot.edge) s) }
    {
        let is_clear = self.out_end(slot).link.claim_next().is_some();
        first_unmet(&[
            (self.halt.is_none(), Rule::Halted),
            (is_clear, Rule::NotCleared),
        ])
    }

    fn put_rule(&self, slot: Slot) -> Option<Rule>
        requires { IsSlotOf self.now.outs.edges slot }
        ensures { WhateverPart self.now
            (λ g s. tail_of g slot.edge ≡ self.now.vertex → result ≡ unmet_rule g (Put slot.edge) s) }
    {
        first_unmet(&[(self.out_end(slot).link.held().is_some(), Rule::NotClaimed)])
    }

    fn halt_rule(&self) -> Option<Rule>
        ensures { WhateverPart self.now (λ g s. result ≡ unmet_rule g (Halt self.now.vertex) s) }
    {
        first_unmet(&[
            (!self.is_sink, Rule::Sink),
            (self.halt.is_none(), Rule::Halted),
            (self.unput == 0, Rule::Unput),
            (self.cause().is_some(), Rule::NoCause),
        ])
    }

    // The first rule of an event of the vertex that is not met.
    #[inline(always)]
    fn broken_rule(&self, found: Found) -> Option<Rule>
        requires placed { IsPlaced self.now found }
        requires some { SomePart self.now (λ g s. ⊤) }
        ensures { let x = event_found self.now.vertex found in WhateverPart self.now
            (λ g s. part_of g x ≡ self.now.vertex → result ≡ unmet_rule g x s) }
    {
        match found {
            Found::Take(_) | Found::Settle(_) => None,
            Found::Ack(slot) => self.ack_rule(slot),
            Found::Fire(k) => self.fire_rule(k),
            Found::Clear(slot) => self.clear_rule(slot),
            Found::Claim(slot) => self.claim_rule(slot),
            Found::Put(slot) => self.put_rule(slot),
            Found::Halt => self.halt_rule(),
            Found::Feed { .. } => Some(Rule::NoSuch),
        }
    }

    // The operation that an event of the vertex needs, whose rules are met.
    #[inline(always)]
    fn act_at(&self, found: Found) -> Act
        requires placed { IsPlaced self.now found }
        requires due { let x = event_found self.now.vertex found in SomePart self.now
            (λ g s. (part_of g x ≡ self.now.vertex) × (unmet_rule g x s ≡ None)) }
        ensures { let x = event_found self.now.vertex found in WhateverPart self.now
            (λ g s. part_of g x ≡ self.now.vertex → unmet_rule g x s ≡ None → result ≡ act_of g x s) }
    {
        match found {
            Found::Take(Slot { index, edge }) => Act::Take {
                edge,
                cell: self.ins.at(index).cell(),
            },
            Found::Settle(slot) => Act::Settle { edge: slot.edge },
            Found::Ack(slot) => Act::Ack {
                edge: slot.edge,
                count: self.may_ack(slot),
            },
            Found::Fire(k) => Act::Fire { k },
            Found::Clear(slot) => Act::Clear {
                edge: slot.edge,
                cell: self.out_end(slot).link.cell(),
            },
            Found::Claim(slot) => {
                let (expected, new) = self.out_end(slot).link.claim_next().unwrap();
                Act::Claim {
                    edge: slot.edge,
                    expected,
                    new,
                }
            }
            Found::Put(slot) => {
                let (cell, value) = self.out_end(slot).link.held().unwrap();
                Act::Put {
                    edge: slot.edge,
                    cell,
                    value,
                }
            }
            Found::Halt => Act::Halt {
                by_limit: is_by_limit(self.cause()),
            },
            Found::Feed { .. } => unreachable!(),
        }
    }

    // The same for an event whose edge is not found yet.
    fn act(&self, event: &Event) -> Act
        requires { SomePart self.now
            (λ g s. (part_of g event.now ≡ self.now.vertex) × (unmet_rule g event.now s ≡ None)) }
        ensures { WhateverPart self.now (λ g s. part_of g event.now ≡ self.now.vertex → unmet_rule g event.now s ≡ None
            → result ≡ act_of g event.now s) }
    {
        self.act_at(self.find(event))
    }

    /// The operation that an event of this vertex needs, or the first of its rules that is not met. Takes and
    /// acknowledgements are of edges into the vertex, all others of the vertex itself or of edges out of it. No vertex
    /// feeds.
    pub fn may(&self, event: &Event) -> Result<Act, Rule>
        requires { SomePart self.now (λ g s. part_of g event.now ≡ self.now.vertex) }
        ensures { WhateverPart self.now (λ g s. part_of g event.now ≡ self.now.vertex
            → result ≡ verdict (unmet_rule g event.now s) (act_of g event.now s)) }
    {
        let found = self.find(event);
        match self.broken_rule(found) {
            Some(rule) => Err(rule),
            None => Ok(self.act_at(found)),
        }
    }

    /// Notes a take of the edge at this slot, with the word that its cell had.
    fn take(&mut self, slot: Slot, seen: u64) -> Reply
        requires slot { IsSlotOf self.old.ins.edges slot }
        requires can { SomePart self.old (λ g s. CanDo g s self.old.vertex (Take slot.edge) seen) }
        ensures { ActorMakes self.old self.new (Take slot.edge) seen result }
    {
        let Some(message) = self.ins.take(slot, seen) else {
            return Reply::Empty;
        };
        self.chips += seen;
        self.detect.got_at(slot);
        Reply::Got(message)
    }

    /// Notes a settle of the edge at this slot, with its word of acknowledgements.
    fn settle(&mut self, slot: Slot, seen: u64) -> Reply
        requires slot { IsSlotOf self.old.outs.edges slot }
        requires can { SomePart self.old (λ g s. CanDo g s self.old.vertex (Settle slot.edge) seen) }
        ensures { ActorMakes self.old self.new (Settle slot.edge) seen result }
    {
        Reply::Done(self.detect.settled_at(slot, seen))
    }

    fn fire(&mut self, k: u64, seen: u64) -> Reply
        requires { SomePart self.old (λ g s. CanDo g s self.old.vertex (Fire self.old.vertex k) seen) }
        ensures { ActorMakes self.old self.new (Fire self.old.vertex k) seen result }
    {
        let cost = k * self.degree;
        self.chips -= cost;
        self.fired += k;
        self.pending = cost;
        self.outs.fire(k);
        Reply::Done(self.fired)
    }

    /// Notes a look at the cell of the edge at this slot, with the word that it had.
    fn clear(&mut self, slot: Slot, seen: u64) -> Reply
        requires slot { IsSlotOf self.old.outs.edges slot }
        requires can { SomePart self.old (λ g s. CanDo g s self.old.vertex (Clear slot.edge) seen) }
        ensures { ActorMakes self.old self.new (Clear slot.edge) seen result }
    {
        let Some((place, _)) = self.outs.clear(slot, seen) else {
            return Reply::Full;
        };
        Reply::Done(place)
    }

    /// Notes a claim of the edge at this slot, with its word.
    fn claim(&mut self, slot: Slot, seen: u64) -> Reply
        requires slot { IsSlotOf self.old.outs.edges slot }
        requires can { SomePart self.old (λ g s. CanDo g s self.old.vertex (Claim slot.edge) seen) }
        ensures { ActorMakes self.old self.new (Claim slot.edge) seen result }
    {
        let Some(message) = self.outs.claim(slot, seen) else {
            self.refused += 1;
            return Reply::Sealed;
        };
        self.pending -= message.count;
        self.unput += 1;
        self.detect.sent_at(slot);
        Reply::Sent(message)
    }

    /// Notes a put on the edge at this slot.
    fn put(&mut self, slot: Slot, seen: u64) -> Reply
        requires slot { IsSlotOf self.old.outs.edges slot }
        requires can { SomePart self.old (λ g s. CanDo g s self.old.vertex (Put slot.edge) seen) }
        ensures { ActorMakes self.old self.new (Put slot.edge) seen result }
    {
        let (_, count) = self.outs.put(slot).unwrap();
        self.unput -= 1;
        Reply::Done(count)
    }

    fn stop(&mut self, seen: u64) -> Reply
        requires { SomePart self.old (λ g s. CanDo g s self.old.vertex (Halt self.old.vertex) seen) }
        ensures { ActorMakes self.old self.new (Halt self.old.vertex) seen result }
    {
        self.halt = self.cause();
        if self.refused == 0 {
            return Reply::Done(1);
        }
        Reply::Done(0)
    }

    /// Notes an acknowledgement of `count` messages of the edge at this slot, all that may be acknowledged there.
    fn acknowledge(&mut self, slot: Slot, count: u64, seen: u64) -> Reply
        requires slot { IsSlotOf self.old.ins.edges slot }
        requires count { count ≡ may_ack self.old.detect slot.edge (is_passive_now self.old) }
        requires can { SomePart self.old (λ g s. CanDo g s self.old.vertex (Ack slot.edge) seen) }
        ensures makes { ActorMakes self.old self.new (Ack slot.edge) seen result }
        ensures passive { is_passive_now self.new ≡ is_passive_now self.old }
    {
        self.detect.acked_at(slot, count);
        Reply::Done(count)
    }

    /// Notes an operation that was made, and returns its reply. The operation is one that `may` gave for this state,
    /// and the word that it saw fits: see `FitsSeen`.
    pub fn apply(&mut self, observed: Observed) -> Reply
        requires { SomePart self.old (λ g s. IsOperationDue g s self.old.vertex observed) }
        ensures { ActorMakes self.old self.new (event_of self.old.vertex observed.act) observed.seen result }
    {
        let event = event_of(self.vertex, observed.act);
        let found = self.find(&event);
        self.note(found, observed.seen)
    }

    // What an event of the vertex does to its state, with the word that its operation saw.
    #[inline(always)]
    fn note(&mut self, found: Found, seen: u64) -> Reply
        requires placed { IsPlaced self.old found }
        requires can { SomePart self.old (λ g s. CanDo g s self.old.vertex (event_found self.old.vertex found) seen) }
        ensures { ActorMakes self.old self.new (event_found self.old.vertex found) seen result }
    {
        match found {
            Found::Take(slot) => self.take(slot, seen),
            Found::Settle(slot) => self.settle(slot, seen),
            Found::Ack(slot) => {
                let count = self.may_ack(slot);
                self.acknowledge(slot, count, seen)
            }
            Found::Fire(k) => self.fire(k, seen),
            Found::Clear(slot) => self.clear(slot, seen),
            Found::Claim(slot) => self.claim(slot, seen),
            Found::Put(slot) => self.put(slot, seen),
            Found::Halt => self.stop(seen),
            Found::Feed { .. } => unreachable!(),
        }
    }

    /// The state of a vertex at the opening, with rings of `ring` cells. It allocates all the memory that the vertex
    /// ever needs.
    pub fn new(alloc: Global, game: &Game, vertex: u64, ring: u64) -> Result<ActorState, AllocError>
        requires vertex { vertex < game.now.graph.vertices }
        requires ring { IsRing ring }
        ensures vertex { IfOk result (λ actor. actor.vertex ≡ vertex) }
        ensures opened { IfOk result (λ actor. (fed : Bool) → let g = setting_with game.now ring fed in
            StandsFor g (opening_part g) actor) }
    {
        let graph = game.graph();
        let is_sink = vertex == graph.sink();
        let degree = graph.out_degree(vertex);
        let limit = game.limit();
        let cells = Ring::of(ring);
        let outs = Outs::new(alloc, graph, vertex, cells)?;
        let (ins, detect) = ins_and_books(alloc, graph, vertex, cells)?;
        Ok(ActorState {
            vertex,
            is_sink,
            degree,
            limit,
            chips: 0,
            fired: 0,
            halt: None,
            outs,
            ins,
            detect,
            pending: 0,
            unput: 0,
            refused: 0,
        })
    }
}

ghost use Rattle.chip_graph.specs.Multigraph.{edges_out};
ghost use Rattle.chip_detect.specs.Books.{AreFreshBooks, IsSound};
ghost use Rattle.chip_actor.specs.Ends.{IsFreshIns};

/// The edges into a vertex, its root edge last, on which nothing was taken, and the books of the neutral vertex.
fn ins_and_books(
    alloc: Global,
    graph: &Graph,
    vertex: u64,
    ring: Ring,
) -> Result<(Ins, Detect), AllocError>
    requires { vertex < graph.now.vertices }
    ensures { IfOk result (λ r. IsFreshIns graph.now ring vertex r.0
        × AreFreshBooks r.1 r.0.edges (edges_out graph.now vertex)
        × IsSound r.1) }
{
    let mut numbers = Vec::from_slice(alloc, graph.ins(vertex))?;
    numbers.push(graph.root_edge(vertex))?;
    let ins = Ins::new(alloc, &numbers, ring)?;
    let detect = Detect::new(alloc, &numbers, graph.outs(vertex))?;
    Ok((ins, detect))
}
