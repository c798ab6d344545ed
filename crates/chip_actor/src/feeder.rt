ghost use Rattle.std.specs.Prelude.{◌≡◌, ℕ, ◌+◌, ◌<◌, ◌≤◌, ◌==◌, if◌then◌else◌, true, false, length, sum, slice_index};
ghost use Rattle.std.specs.Prelude.{slice_set, IfOk, IsSome, option_to_list};
ghost use Rattle.chip_graph.specs.Limits.{max_total};

use chip_graph::MAX_TOTAL;
use chip_link::{Ring, TailLink};
use chip_part::{Reply, Rule, Setting, first_unmet};
use std::alloc::{AllocError, Global};
use std::marker::Model;

/// What the root keeps to feed chips while the machine runs: the tails of the root edges.
#[derive(Drop)]
pub(crate) struct FeederState {
    tails: Vec<TailLink>,
    given: Vec<u64>,
    fed: u64,
    ended: bool,
}

impl Model for FeederState {
    ghost use Rattle.std.specs.Prelude.{◌≡◌, ◌≤◌};
    ghost use Rattle.std.specs.Vec.{vec_len};
    ghost use Rattle.chip_graph.specs.Limits.{max_total};
    ghost use Rattle.chip_actor.specs.Root.{Feeder};

    ghost Value = { Feeder };

    ghost view = { λ a. record {
      tails = a.tails.items;
      given = a.given.items;
      fed = a.fed;
      ended = a.ended;
    } };
}

impl FeederState {
    ghost use Rattle.chip_link.specs.Words.{claims_in};
    ghost use Rattle.chip_link.specs.Ends.{claim_words, tail_after_clear, tail_after_put};
    ghost use Rattle.chip_actor.specs.Root.{tail_at, with_tail, after_feed, look_rule, put_rule, feed_rule};
    ghost use Rattle.chip_actor.specs.Root.{IsOpeningFeeder, look_reply, feed_reply};
    ghost use Rattle.chip_part.specs.declared.reply.Reply.TheVariants.{Done};

    /// The feeder of a game that opens: the starting chips are given, and if no chips are fed the end of feeding is
    /// noted.
    pub(crate) fn new(alloc: Global, setting: &Setting) -> Result<FeederState, AllocError>
        ensures { IfOk result (IsOpeningFeeder setting.now) }
    {
        let game = setting.game();
        let ring = setting.ring();
        let graph_edges = setting.graph_edges();
        let start = game.start();
        let mut tails = Vec::with_capacity(alloc, start.len())?;
        for vertex in 0..start.len() {
            let edge = graph_edges + vertex as u64;
            tails.push_reserved(opened_tail(edge, ring, start[vertex]));
        }
        Ok(FeederState {
            tails,
            given: Vec::from_slice(alloc, start)?,
            fed: game.total(),
            ended: !setting.is_fed(),
        })
    }

    /// How many chips each vertex was given, at the start and by feeds.
    pub(crate) fn chips_given(&self) -> &[u64]
        ensures { result.now ≡ self.now.given }
    {
        &self.given
    }

    /// Whether the end of feeding is noted.
    pub(crate) fn has_ended(&self) -> bool
        ensures { result ≡ self.now.ended }
    {
        self.ended
    }

    /// The tail of the root edge of a vertex.
    pub(crate) fn tail(&self, vertex: usize) -> &TailLink
        requires { vertex < length self.now.tails }
        ensures { result.now ≡ tail_at self.now vertex }
    {
        &self.tails[vertex]
    }

    /// The first rule that is not met of a look at the next cell of a vertex's root edge.
    pub(crate) fn look_rule(&self, vertex: usize) -> Option<Rule>
        requires { vertex < length self.now.tails }
        ensures { result ≡ look_rule vertex self.now }
    {
        let is_free = self.tail(vertex).held().is_none();
        first_unmet(&[(!self.ended, Rule::Ended), (is_free, Rule::Unput)])
    }

    /// The first rule that is not met of a put there.
    pub(crate) fn put_rule(&self, vertex: usize) -> Option<Rule>
        requires { vertex < length self.now.tails }
        ensures { result ≡ put_rule vertex self.now }
    {
        let is_claimed = self.tail(vertex).held().is_some();
        first_unmet(&[(is_claimed, Rule::NotClaimed)])
    }

    /// The first rule that is not met of a feed of `count` chips.
    pub(crate) fn feed_rule(&self, vertex: usize, count: u64) -> Option<Rule>
        requires vertex { vertex < length self.now.tails }
        requires few { self.now.fed ≤ max_total }
        ensures { result ≡ feed_rule vertex count self.now }
    {
        let is_clear = self.tail(vertex).claim_next().is_some();
        first_unmet(&[
            (!self.ended, Rule::Ended),
            (count != 0, Rule::Zero),
            (count <= MAX_TOTAL - self.fed, Rule::TooMuch),
            (is_clear, Rule::NotCleared),
        ])
    }

    /// Notes what a look at the next cell of a vertex's root edge found.
    pub(crate) fn look(&mut self, vertex: usize, seen: u64) -> Reply
        requires { vertex < length self.old.tails }
        ensures reply { result ≡ look_reply (claim_words (tail_after_clear seen (tail_at self.old vertex))) }
        ensures after { self.new ≡ with_tail vertex (tail_after_clear seen) self.old }
    {
        let tail = &mut self.tails[vertex];
        let _is_clear = tail.cleared(seen);
        match tail.claim_next() {
            Some((place, _)) => Reply::Done(place),
            None => Reply::Full,
        }
    }

    /// Notes a claim for `count` chips; the word that it saw is the tail's own number of claims.
    pub(crate) fn feed(&mut self, vertex: usize, count: u64, seen: u64) -> Reply
        requires vertex { (vertex < length self.old.tails) × (vertex < length self.old.given) }
        requires clear { (tail_at self.old vertex).clear ≡ true }
        requires seen { (seen ≡ (tail_at self.old vertex).claims) × (claims_in seen ≡ seen) }
        requires count { (1 ≤ count) × (self.old.fed + count ≤ max_total) }
        requires given { slice_index self.old.given vertex ≤ self.old.fed }
        ensures reply { result ≡ feed_reply count (tail_at self.old vertex) }
        ensures after { self.new ≡ after_feed vertex count seen self.old }
    {
        let tail = &mut self.tails[vertex];
        let message = tail.claimed(seen, count).unwrap();
        self.given[vertex] += count;
        self.fed += count;
        Reply::Sent(message)
    }

    /// Notes that what is claimed on a vertex's root edge is stored.
    pub(crate) fn put(&mut self, vertex: usize) -> Reply
        requires vertex { vertex < length self.old.tails }
        requires claimed { IsSome (tail_at self.old vertex).held }
        ensures reply { result ≡ Done (sum (option_to_list (tail_at self.old vertex).held)) }
        ensures after { self.new ≡ with_tail vertex tail_after_put self.old }
    {
        let tail = &mut self.tails[vertex];
        let (_, count) = tail.put_value().unwrap();
        Reply::Done(count)
    }

    /// Notes that nothing more is fed.
    pub(crate) fn end(&mut self)
        ensures { self.new ≡ record self.old { ended = true } }
    {
        self.ended = true;
    }
}

ghost use Rattle.chip_actor.specs.Root.{opened_tail};

/// The tail of an edge that opens with a message of `chips` chips, or with none if that is 0.
fn opened_tail(edge: u64, ring: Ring, chips: u64) -> TailLink
    requires { chips ≤ max_total }
    ensures { result ≡ opened_tail edge ring chips }
{
    let mut tail = TailLink::new(edge, ring.cells());
    if chips > 0 {
        let _is_clear = tail.cleared(0);
        let _message = tail.claimed(0, chips);
        let _stored = tail.put_value();
    }
    tail
}
