ghost use Rattle.std.specs.Prelude.{◌≡◌, ◌+◌, ◌^◌, ◌<◌, ◌≤◌, ◌↔◌, [], length, sum, slice_index, option_to_list, IsTrue};
ghost use Rattle.std.specs.Prelude.{IfOk, true, false};

mod books;
mod driving;
mod outcome;
mod running;

use crate::turn_words::TurnWords;
use crate::words::Words;
use chip_actor::{ActorState, RootBooks};
use chip_graph::Game;
use chip_link::{EdgeWord, Event, FiredWord, Message, Ring};
use chip_part::{Cause, Reply, Rule, Setting};
pub use driving::Drive;
pub use running::Record;
use std::alloc::{AllocError, Global};
use std::marker::Model;

/// A whole game in play: the core of the machine on one thread.
///
/// Contracts see it as plain data (`specs/World.antt`), and state the effect on the log of the core that it represents.
#[derive(Drop)]
pub struct World {
    setting: Setting,
    actors: Vec<ActorState>,
    shared: TurnWords,
    root: RootBooks,
}

impl Model for World {
    ghost use Rattle.chip_world.specs.World.{WorldState, SomeLogLeaves};

    ghost Value = { WorldState };

    ghost view = { λ a. record {
      setting = a.setting;
      actors = a.actors.items;
      words = a.shared.words;
      root = a.root;
    } };

    ghost invariant = { λ a. SomeLogLeaves (record {
      setting = a.setting;
      actors = a.actors.items;
      words = a.shared.words;
      root = a.root;
    }) };
}

impl World {
    ghost use Rattle.chip_core.specs.Core.{part_in, out_in, into_in, fired_by, IsClosed};
    ghost use Rattle.chip_link.specs.Link.{claims_of, sent_counts};
    ghost use Rattle.chip_link.specs.Rings.{IsRing};
    ghost use Rattle.chip_core.specs.Messages.{in_flight};
    ghost use Rattle.std.specs.Vec.{vec_len, vec_capacity};
    ghost use Rattle.chip_part.specs.Setting.{setting_of, setting_with};
    ghost use Rattle.chip_part.specs.Edges.{graph_edges, all_edges};
    ghost use Rattle.chip_world.specs.Makers.{vertex_of, is_of_others, is_by_act};
    ghost use Rattle.chip_part.specs.Acting.{is_of_root};
    ghost use Rattle.chip_part.specs.Acting.{event_of};
    ghost use Rattle.chip_world.specs.World.{StandsForLog, SomeLogLeaves, WhateverLog, SomeLogWhere, MakesStep};
    ghost use Rattle.chip_world.specs.World.{Steps};
    ghost use Rattle.chip_link.specs.declared.event.Event.TheVariants.{Seal, Settle, Read};

    /// Opens a game: no vertex has chips yet, and its starting chips are on its root edge. Nothing can be fed.
    pub fn open(alloc: Global, game: &Game, ring: u64) -> Result<World, AllocError>
        requires { IsRing ring }
        ensures { IfOk result (StandsForLog (setting_of game.now ring) []) }
    {
        World::of(alloc, Setting::of_copy(alloc, game, Ring::of(ring), false)?)
    }

    /// Opens a game whose root may feed more chips, until it notes the end of feeding.
    pub fn open_fed(alloc: Global, game: &Game, ring: u64) -> Result<World, AllocError>
        requires { IsRing ring }
        ensures { IfOk result (StandsForLog (setting_with game.now ring true) []) }
    {
        World::of(alloc, Setting::of_copy(alloc, game, Ring::of(ring), true)?)
    }

    /// Opens a game in this setting. If it is not fed, the end of feeding is noted from the start.
    pub fn of(alloc: Global, setting: Setting) -> Result<World, AllocError>
        ensures { IfOk result (StandsForLog setting []) }
    {
        let actors = opening_actors(alloc, &setting)?;
        let words = Words::new(alloc, &setting)?;
        let root = RootBooks::new(alloc, &setting)?;
        Ok(World {
            setting,
            actors,
            shared: TurnWords { words, fired: 0 },
            root,
        })
    }

    /// The setting of the game. Some log of it leaves this world.
    pub fn setting(&self) -> &Setting
        ensures value { result.now ≡ self.now.setting }
        ensures some_log { SomeLogLeaves self.now }
    {
        &self.setting
    }

    // The vertex that makes an event, if there is one.
    #[inline(always)]
    fn vertex_of(&self, event: Event) -> Option<u64>
        ensures { result ≡ vertex_of self.now.setting event }
    {
        match event {
            Event::Take(edge) | Event::Ack(edge) => self.setting.head(edge),
            Event::Clear(edge) | Event::Claim(edge) | Event::Put(edge) | Event::Settle(edge) => {
                self.setting.tail(edge)
            }
            Event::Fire { vertex, .. } | Event::Halt(vertex) => {
                if vertex < self.setting.vertices() {
                    Some(vertex)
                } else {
                    None
                }
            }
            Event::Seal(_) | Event::Read(_) | Event::Feed { .. } | Event::End => None,
        }
    }

    // The chips of the message that is claimed on an edge and not put, or 0.
    fn held_count(&self, edge: u64) -> u64
        requires { edge < all_edges self.now.setting }
        ensures { WhateverLog self.now (λ g log. result ≡ sum (option_to_list (out_in g log edge).link.held)) }
    {
        let held = match self.setting.tail(edge) {
            Some(tail) => self.actors[tail as usize].held(edge),
            None => self.root.held(edge),
        };
        held.unwrap_or(0)
    }

    // The chips of a message sent and not delivered.
    fn count_at(&self, edge: u64, place: u64) -> u64
        requires { edge < all_edges self.now.setting }
        ensures { WhateverLog self.now (λ g log. length (into_in g log edge).got ≤ place
            → place < claims_of (out_in g log edge).link
            → result ≡ slice_index (sent_counts (out_in g log edge).link) place) }
    {
        let count = self
            .shared
            .words
            .load(edge, place % self.setting.ring().cells());
        if count == 0 {
            self.held_count(edge)
        } else {
            count
        }
    }

    /// The messages sent on an edge and not delivered, with room for `room` more.
    pub(crate) fn in_flight(
        &self,
        alloc: Global,
        edge: u64,
        room: usize,
    ) -> Result<Vec<Message>, AllocError>
        requires edge { edge < all_edges self.now.setting }
        requires room { room < 2 ^ 63 }
        ensures messages { IfOk result (λ v. WhateverLog self.now (λ g log. v.items ≡ in_flight g log edge)) }
        ensures room { IfOk result (λ v. vec_len v + room ≤ vec_capacity v) }
    {
        let first = self.delivered(edge);
        let claims = self.sent(edge);
        let mut messages = Vec::with_capacity(alloc, (claims - first) as usize + room)?;
        for place in first..claims {
            let count = self.count_at(edge, place);
            messages.push_reserved(Message { edge, place, count });
        }
        Ok(messages)
    }

    // Makes an event of a vertex.
    #[inline(always)]
    fn act(&mut self, event: Event) -> Reply
        requires { is_of_others self.old.setting event ≡ false }
        ensures { Steps self.old self.new event result }
    {
        let Some(vertex) = self.vertex_of(event) else {
            return Reply::NotNow(Rule::NoSuch);
        };
        let actor = &mut self.actors[vertex as usize];
        let fired = fired_word(actor);
        self.shared.fired = fired;
        actor.step(&event, &mut self.shared)
    }

    // Seals an edge, for the stopper.
    fn seal(&mut self, edge: u64) -> Reply
        ensures { Steps self.old self.new (Seal edge) result }
    {
        if edge >= self.setting.graph_edges() {
            return Reply::NotNow(Rule::NoSuch);
        }
        Reply::Done(EdgeWord::from_word(self.shared.words.seal(edge)).claims)
    }

    // Makes an event of the root, other than a read.
    fn of_root(&mut self, event: Event) -> Reply
        requires root { is_of_root self.old.setting event ≡ true }
        requires act { is_by_act event ≡ true }
        ensures { Steps self.old self.new event result }
    {
        match self.root.may(&event) {
            Ok(act) => {
                let seen = self.shared.words.perform(act);
                self.root.apply(&event, seen)
            }
            Err(rule) => Reply::NotNow(rule),
        }
    }

    // Reads for the root how often this vertex fired.
    fn read(&mut self, vertex: u64) -> Reply
        ensures { Steps self.old self.new (Read vertex) result }
    {
        let event = Event::Read(vertex);
        if let Err(rule) = self.root.may(&event) {
            return Reply::NotNow(rule);
        }
        let fired = fired_word(&self.actors[vertex as usize]);
        self.root.apply(&event, fired)
    }

    /// Makes one event, or returns the first of its unmet rules. Takes time at most linear in the edges of its vertex.
    #[inline(always)]
    pub fn step(&mut self, event: Event) -> Reply
        ensures { Steps self.old self.new event result }
    {
        let graph_edges = self.setting.graph_edges();
        match event {
            Event::Seal(edge) => self.seal(edge),
            Event::Read(vertex) => self.read(vertex),
            Event::Feed { .. } | Event::End => self.of_root(event),
            Event::Clear(edge) | Event::Put(edge) | Event::Settle(edge) if edge >= graph_edges => {
                self.of_root(event)
            }
            _ => self.act(event),
        }
    }

    /// Whether feeding has ended, and every message sent on each root edge is settled.
    pub fn closed(&self) -> bool
        ensures { WhateverLog self.now (λ g log. IsTrue result ↔ IsClosed g log) }
    {
        self.root.closed()
    }

    /// The number of messages sent on this edge. Root edges come after the graph's.
    pub fn sent(&self, edge: u64) -> u64
        requires { edge < all_edges self.now.setting }
        ensures { WhateverLog self.now (λ g log. result ≡ claims_of (out_in g log edge).link) }
    {
        EdgeWord::from_word(self.shared.words.word(edge)).claims
    }

    /// The number of messages delivered on this edge.
    pub fn delivered(&self, edge: u64) -> u64
        requires { edge < all_edges self.now.setting }
        ensures value { WhateverLog self.now (λ g log. result ≡ length (into_in g log edge).got) }
        ensures some_log { SomeLogLeaves self.now }
    {
        let head = self.setting.head(edge).unwrap();
        let owed = self.actors[head as usize].detect().owed(edge);
        self.shared.words.acknowledgements(edge) + owed
    }

    /// The number of chips of this vertex.
    pub fn chips(&self, vertex: u64) -> u64
        requires { vertex < self.now.setting.game.graph.vertices }
        ensures { WhateverLog self.now (λ g log. result ≡ (part_in g log vertex).chips) }
    {
        self.actors[vertex as usize].chips()
    }

    /// The number of times it fired.
    pub fn fired(&self, vertex: u64) -> u64
        requires { vertex < self.now.setting.game.graph.vertices }
        ensures { WhateverLog self.now (λ g log. result ≡ fired_by g log vertex) }
    {
        self.actors[vertex as usize].fired()
    }

    /// Why it halted, if it did.
    pub fn halted(&self, vertex: u64) -> Option<Cause>
        requires { vertex < self.now.setting.game.graph.vertices }
        ensures { WhateverLog self.now (λ g log. result ≡ (part_in g log vertex).halt) }
    {
        self.actors[vertex as usize].halted()
    }
}

ghost use Rattle.chip_part.specs.Setting.{IsSetting};
ghost use Rattle.chip_world.specs.World.{AreOpeningActors};
ghost use Rattle.chip_actor.specs.Actor.{SomePart, WhateverPart};
ghost use Rattle.chip_core.specs.Core.{word_of_part};
ghost use Rattle.std.specs.Prelude.{⊤};

/// The word of the firings and the halt of a vertex.
fn fired_word(actor: &ActorState) -> u64
    requires { SomePart actor.now (λ g s. ⊤) }
    ensures { WhateverPart actor.now (λ g s. result ≡ word_of_part s) }
{
    let halt = actor.halted();
    let word = FiredWord {
        fired: actor.fired(),
        halted: halt.is_some(),
        by_limit: halt == Some(Cause::FiringLimit),
    };
    word.to_word()
}

/// An actor for each vertex.
fn opening_actors(alloc: Global, setting: &Setting) -> Result<Vec<ActorState>, AllocError>
    ensures setting { IsSetting setting.now }
    ensures actors { IfOk result
        (λ actors. AreOpeningActors setting.now setting.now.game.graph.vertices actors.items) }
{
    let game = setting.game();
    let ring = setting.ring().cells();
    let vertices = setting.vertices();
    let mut actors = Vec::with_capacity(alloc, vertices as usize)?;
    for vertex in 0..vertices {
        actors.push_reserved(ActorState::new(alloc, game, vertex, ring)?);
    }
    Ok(actors)
}
