ghost use Rattle.std.specs.Prelude.{◌≡◌, ℕ, ◌-◌, ◌<◌, ◌≤◌, ◌==◌, ◌&&◌, true, length, replicate, slice_index, slice_set};
ghost use Rattle.std.specs.Prelude.{IfOk, None, ⊤};

use crate::feeder::FeederState;
use chip_link::{Event, TailLink};
use chip_part::{Act, Reply, Rule, Setting, first_unmet};
use std::alloc::{AllocError, Global};
use std::marker::Model;

/// The root at run time: for each root edge, by vertices, the number of settled messages; the number of outstanding
/// messages on all of them; and the feeder.
#[derive(Drop)]
pub struct RootBooks {
    graph_edges: u64,
    settled: Vec<u64>,
    outstanding: u64,
    feeder: FeederState,
}

impl Model for RootBooks {
    ghost use Rattle.std.specs.Prelude.{◌≤◌};
    ghost use Rattle.std.specs.Vec.{vec_len};
    ghost use Rattle.chip_graph.specs.Limits.{max_edges, max_vertices};
    ghost use Rattle.chip_actor.specs.Root.{Root};

    ghost Value = { Root };

    ghost view = { λ a. record {
      graph_edges = a.graph_edges;
      settled = a.settled.items;
      outstanding = a.outstanding;
      feeder = a.feeder;
    } };

    ghost invariant = { λ a. (a.graph_edges ≤ max_edges) × (vec_len a.settled ≤ max_vertices) };
}

impl RootBooks {
    ghost use Rattle.chip_link.specs.Link.{tail_state};
    ghost use Rattle.chip_part.specs.Edges.{graph_edges, all_edges, root, root_edge};
    ghost use Rattle.chip_part.specs.Part.{opening_part, deficit_of};
    ghost use Rattle.chip_part.specs.Rules.{unmet_rule};
    ghost use Rattle.chip_part.specs.Acting.{act_of, verdict};
    ghost use Rattle.chip_actor.specs.Root.{RootStandsFor, WhateverRoot, SomeRoot, RootCanDo, RootMakes, RootSettles};
    ghost use Rattle.chip_part.specs.Acting.{is_of_root};
    ghost use Rattle.chip_part.specs.Part.{AreGiven};
    ghost use Rattle.chip_actor.specs.Root.{root_vertex, ended_root};
    ghost use Rattle.chip_link.specs.declared.event.Event.TheVariants.{Clear, Put, Settle, Read, Feed, End};

    /// The root at the opening, with one message outstanding for each vertex that starts with chips. If no chips are
    /// fed, the end of feeding is noted. It allocates all the memory that the root ever needs.
    pub fn new(alloc: Global, setting: &Setting) -> Result<RootBooks, AllocError>
        ensures { IfOk result (RootStandsFor setting.now (opening_part setting.now)) }
    {
        let start = setting.game().start();
        Ok(RootBooks {
            graph_edges: setting.graph_edges(),
            settled: vec![in alloc; 0; start.len()]?,
            outstanding: with_chips(start),
            feeder: FeederState::new(alloc, setting)?,
        })
    }

    /// The number of outstanding messages.
    pub fn outstanding(&self) -> u64
        ensures { WhateverRoot self.now (λ g s. result ≡ deficit_of g (root g) s) }
    {
        self.outstanding
    }

    /// Whether feeding has ended, and no message is outstanding.
    pub fn closed(&self) -> bool
        ensures { WhateverRoot self.now (λ g s. result ≡ (deficit_of g (root g) s == 0 && s.ended)) }
    {
        self.outstanding == 0 && self.feeder.has_ended()
    }

    /// How many chips each vertex was given, at the start and by feeds.
    pub fn given(&self) -> &[u64]
        ensures { WhateverRoot self.now (λ g s. AreGiven g s result.now) }
    {
        self.feeder.chips_given()
    }

    // The vertex of a root edge, if it is one.
    fn vertex_of(&self, edge: u64) -> Option<usize>
        ensures { result ≡ root_vertex self.now edge }
    {
        if edge >= self.graph_edges && edge - self.graph_edges < self.settled.len() as u64 {
            Some((edge - self.graph_edges) as usize)
        } else {
            None
        }
    }

    // The first rule that is not met of a look at the next cell of a root edge.
    fn look_rule(&self, edge: u64) -> Option<Rule>
        requires { SomeRoot self.now (λ g s. graph_edges g ≤ edge) }
        ensures { WhateverRoot self.now (λ g s. graph_edges g ≤ edge → result ≡ unmet_rule g (Clear edge) s) }
    {
        match self.vertex_of(edge) {
            Some(vertex) => self.feeder.look_rule(vertex),
            None => Some(Rule::NoSuch),
        }
    }

    // The same for a put there.
    fn put_rule(&self, edge: u64) -> Option<Rule>
        requires { SomeRoot self.now (λ g s. graph_edges g ≤ edge) }
        ensures { WhateverRoot self.now (λ g s. graph_edges g ≤ edge → result ≡ unmet_rule g (Put edge) s) }
    {
        match self.vertex_of(edge) {
            Some(vertex) => self.feeder.put_rule(vertex),
            None => Some(Rule::NoSuch),
        }
    }

    // The same for a feed over an edge.
    fn feed_rule(&self, edge: u64, count: u64) -> Option<Rule>
        requires { SomeRoot self.now (λ g s. ⊤) }
        ensures { WhateverRoot self.now (λ g s. result ≡ unmet_rule g (Feed edge count) s) }
    {
        match self.vertex_of(edge) {
            Some(vertex) => self.feeder.feed_rule(vertex, count),
            None => Some(Rule::NoSuch),
        }
    }

    // The first rule of an event of the root that is not met.
    fn broken_rule(&self, event: &Event) -> Option<Rule>
        requires { SomeRoot self.now (λ g s. is_of_root g event.now ≡ true) }
        ensures { WhateverRoot self.now (λ g s. is_of_root g event.now ≡ true → result ≡ unmet_rule g event.now s) }
    {
        let vertices = self.settled.len() as u64;
        match *event {
            Event::Settle(edge) => {
                first_unmet(&[(edge < self.graph_edges + vertices, Rule::NoSuch)])
            }
            Event::Clear(edge) => self.look_rule(edge),
            Event::Put(edge) => self.put_rule(edge),
            Event::Feed { edge, count } => self.feed_rule(edge, count),
            Event::End => None,
            Event::Read(vertex) => first_unmet(&[
                (vertex < vertices, Rule::NoSuch),
                (self.closed(), Rule::NotClosed),
            ]),
            _ => unreachable!(),
        }
    }

    // The tail of a root edge.
    fn tail(&self, edge: u64) -> &TailLink
        requires { SomeRoot self.now (λ g s. (graph_edges g ≤ edge) × (edge < all_edges g)) }
        ensures { WhateverRoot self.now (λ g s. graph_edges g ≤ edge → edge < all_edges g
            → result.now ≡ tail_state edge g.ring (s.out edge).link) }
    {
        self.feeder.tail((edge - self.graph_edges) as usize)
    }

    /// The chips of the message that is claimed on a root edge and not put, if there is one.
    pub fn held(&self, edge: u64) -> Option<u64>
        requires { SomeRoot self.now (λ g s. (graph_edges g ≤ edge) × (edge < all_edges g)) }
        ensures { WhateverRoot self.now (λ g s. graph_edges g ≤ edge → edge < all_edges g
            → result ≡ (s.out edge).link.held) }
    {
        let (_, count) = self.tail(edge).held()?;
        Some(count)
    }

    // The operation that an event of the root needs, whose rules are met.
    fn act(&self, event: &Event) -> Act
        requires { SomeRoot self.now (λ g s. (is_of_root g event.now ≡ true) × (unmet_rule g event.now s ≡ None)) }
        ensures { WhateverRoot self.now (λ g s. is_of_root g event.now ≡ true → unmet_rule g event.now s ≡ None
            → result ≡ act_of g event.now s) }
    {
        match *event {
            Event::Settle(edge) => Act::Settle { edge },
            Event::Clear(edge) => Act::Clear {
                edge,
                cell: self.tail(edge).cell(),
            },
            Event::Put(edge) => {
                let (cell, value) = self.tail(edge).held().unwrap();
                Act::Put { edge, cell, value }
            }
            Event::Feed { edge, .. } => {
                let (expected, new) = self.tail(edge).claim_next().unwrap();
                Act::Claim {
                    edge,
                    expected,
                    new,
                }
            }
            Event::End => Act::Settle {
                edge: self.graph_edges,
            },
            Event::Read(_) => Act::End,
            _ => unreachable!(),
        }
    }

    /// The operation that an event of the root needs, or the first of its rules that is not met. The event is a look, a
    /// put or a settle of a root edge, a feed, the end of feeding, or a read. A read is no operation on an edge: `End`.
    pub fn may(&self, event: &Event) -> Result<Act, Rule>
        requires { SomeRoot self.now (λ g s. is_of_root g event.now ≡ true) }
        ensures { WhateverRoot self.now (λ g s. is_of_root g event.now ≡ true
            → result ≡ verdict (unmet_rule g event.now s) (act_of g event.now s)) }
    {
        match self.broken_rule(event) {
            Some(rule) => Err(rule),
            None => Ok(self.act(event)),
        }
    }

    /// Notes an event that was made, and returns its reply. The event is one that `may` allows, and the word that it
    /// saw fits: see `FitsRoot`.
    pub fn apply(&mut self, event: &Event, seen: u64) -> Reply
        requires { SomeRoot self.old (λ g s. RootCanDo g s event.now seen) }
        ensures { RootMakes self.old self.new event.now seen result }
    {
        match *event {
            Event::Settle(edge) => self.settle_edge(edge, seen),
            Event::Clear(edge) => self.look(edge, seen),
            Event::Put(edge) => self.put(edge, seen),
            Event::Feed { edge, count } => self.feed(edge, count, seen),
            Event::End => self.end(seen),
            Event::Read(_) => Reply::Done(seen % (1 << 62)),
            _ => unreachable!(),
        }
    }

    /// Notes a look at the next cell of a root edge, with the word that it had.
    fn look(&mut self, edge: u64, seen: u64) -> Reply
        requires { SomeRoot self.old (λ g s. RootCanDo g s (Clear edge) seen) }
        ensures { RootMakes self.old self.new (Clear edge) seen result }
    {
        let vertex = (edge - self.graph_edges) as usize;
        self.feeder.look(vertex, seen)
    }

    /// Notes a put on a root edge.
    fn put(&mut self, edge: u64, seen: u64) -> Reply
        requires { SomeRoot self.old (λ g s. RootCanDo g s (Put edge) seen) }
        ensures { RootMakes self.old self.new (Put edge) seen result }
    {
        let vertex = (edge - self.graph_edges) as usize;
        self.feeder.put(vertex)
    }

    /// Notes a claim of a root edge for `count` chips, with its word.
    fn feed(&mut self, edge: u64, count: u64, seen: u64) -> Reply
        requires { SomeRoot self.old (λ g s. RootCanDo g s (Feed edge count) seen) }
        ensures { RootMakes self.old self.new (Feed edge count) seen result }
    {
        let vertex = (edge - self.graph_edges) as usize;
        self.outstanding += 1;
        self.feeder.feed(vertex, count, seen)
    }

    /// Notes the end of feeding, with the word of acknowledgements of the first root edge.
    fn end(&mut self, seen: u64) -> Reply
        requires { SomeRoot self.old (λ g s. RootCanDo g s End seen) }
        ensures { RootMakes self.old self.new End seen result }
    {
        self.note_end();
        self.settle_edge(self.graph_edges, seen)
    }

    // Notes that nothing more is fed.
    fn note_end(&mut self)
        ensures { self.new ≡ ended_root self.old }
    {
        self.feeder.end();
    }

    /// Counts the acknowledgements of a vertex's root edge up to the word that was seen, and returns the number of new
    /// ones. `apply` does so with a settle of that edge.
    pub fn settle(&mut self, vertex: usize, seen: u64) -> u64
        requires { SomeRoot self.old (λ g s. RootCanDo g s (Settle (root_edge g vertex)) seen) }
        ensures { RootSettles self.old self.new vertex seen result }
    {
        // (mostly nothing is new: a poll reads each root edge)
        if self.settled[vertex] == seen {
            return 0;
        }
        self.count(vertex, seen)
    }

    /// The same for a root edge by its own number.
    fn settle_edge(&mut self, edge: u64, seen: u64) -> Reply
        requires { SomeRoot self.old (λ g s. RootCanDo g s (Settle edge) seen) }
        ensures { RootMakes self.old self.new (Settle edge) seen result }
    {
        let vertex = (edge - self.graph_edges) as usize;
        Reply::Done(self.settle(vertex, seen))
    }

    /// Notes how many messages of a vertex's root edge are settled, and returns the number of new ones.
    #[cold]
    fn count(&mut self, vertex: usize, settled: u64) -> u64
        requires vertex { vertex < length self.old.settled }
        requires more { slice_index self.old.settled vertex ≤ settled }
        requires few { settled - slice_index self.old.settled vertex ≤ self.old.outstanding }
        ensures more { result ≡ settled - slice_index self.old.settled vertex }
        ensures edges { self.new.graph_edges ≡ self.old.graph_edges }
        ensures settled { self.new.settled ≡ slice_set self.old.settled vertex settled }
        ensures outstanding { self.new.outstanding ≡ self.old.outstanding - result }
        ensures feeder { self.new.feeder ≡ self.old.feeder }
    {
        let more = settled - self.settled[vertex];
        self.settled[vertex] = settled;
        self.outstanding -= more;
        more
    }
}

ghost use Rattle.chip_actor.specs.Root.{with_chips};

/// The number of vertices that start with chips.
fn with_chips(start: &[u64]) -> u64
    ensures value { result ≡ with_chips start.now (length start.now) }
    ensures few { result ≤ length start.now }
{
    let mut count = 0;
    for &chips in start {
        if chips > 0 {
            count += 1;
        }
    }
    count
}
