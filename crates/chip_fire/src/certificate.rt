//! The test of counts that every whole play must reach.

ghost use Rattle.std.specs.Prelude.{◌≡◌, ◌≢◌, ℕ, ◌+◌, ◌<◌, ◌≤◌, ◌↔◌, nat_le, max, if◌then◌else◌, length, slice_index};
ghost use Rattle.std.specs.Prelude.{IfNone, IsTrue};
ghost use Rattle.chip_graph.specs.Multigraph.{degree};
ghost use Rattle.chip_graph.specs.ChipGame.{IsGame};
ghost use Rattle.chip_sequence.specs.Counted.{IsAfter};
ghost use Rattle.chip_sequence.specs.Certificate.{AreForced, IsCertified, AreBurnt, in_degree, late_in_degree};
ghost use Rattle.chip_fire.specs.Rounds.{IsBegun, OnlyRise};

use crate::burning::burning_order;
use crate::play::Play;
use chip_graph::{Game, Graph};
use chip_sequence::after;
use std::alloc::Global;

impl Play<'_> {
    /// Goes on at a guess, or at the counts so far if these are more, if a test shows that every play within the limit
    /// that has ended fires each vertex at least as often. `None` if it does not, or if memory runs out: the play is as
    /// it was.
    pub(crate) fn raise_to(&mut self, alloc: Global, guess: &[u64]) -> Option<()>
        ensures same { self.new.game ≡ self.old.game }
        ensures kept { IfNone result (self.new ≡ self.old) }
        ensures rises { OnlyRise self.old.fired self.new.fired }
        ensures raised { (v : ℕ) → slice_index self.new.fired v
            ≤ max (slice_index self.old.fired v) (slice_index guess.now v) }
    {
        let mut counts = Vec::from_slice(alloc, &self.fired).ok()?;
        raise(&mut counts, guess);
        let chips = after(alloc, self.game, &counts).ok()?;
        let graph = self.game.graph();
        let order = burning_order(alloc, graph, &self.fired, &counts, &chips).ok()?;
        if !self.are_certified(&counts, &order, &chips) {
            return None;
        }
        self.chips = chips;
        self.fired = counts;
        Some(())
    }

    /// Whether counts pass a test, by the chips that they leave. One is passed if each vertex that fires more often by
    /// them than it has fired lacks at most one chip then to fire once more; the other is the burning test, by these
    /// ranks, and finds more if no vertex has a greater in-degree than out-degree.
    fn are_certified(&self, counts: &[u64], order: &[u64], chips: &[u64]) -> bool
        requires counts_each { length counts.now ≡ self.now.game.graph.vertices }
        requires order_each { length order.now ≡ self.now.game.graph.vertices }
        requires after { IsAfter self.now.game counts.now chips.now }
        ensures begun { IsTrue result → IsBegun self.now.game chips.now counts.now }
        ensures earned { IsCertified self.now.game.graph (slice_index self.now.game.start) self.now.game.limit
            (slice_index self.now.fired) (slice_index counts.now) → IsTrue result }
        ensures burnt { AreBurnt self.now.game.graph (slice_index self.now.game.start) self.now.game.limit
            (slice_index self.now.fired) (slice_index counts.now) (slice_index order.now) → IsTrue result }
    {
        are_earned(self.game, &self.fired, counts, chips)
            || are_burnt(self.game, &self.fired, counts, order, chips)
    }
}

/// Raises numbers that are below others to these.
fn raise(numbers: &mut [u64], others: &[u64])
    ensures below { (v : ℕ) → slice_index numbers.new v ≤ max (slice_index numbers.old v) (slice_index others.now v) }
    ensures rises { OnlyRise numbers.old numbers.new }
{
    for (index, number) in numbers.iter_mut().enumerate() {
        *number = (*number).max(others.get(index).copied().unwrap_or(0));
    }
}

/// Whether each vertex that fires more often by the counts than it has fired lacks at most one chip
/// then, by the chips that the counts leave.
fn are_earned(game: &Game, fired: &[u64], counts: &[u64], chips: &[u64]) -> bool
    requires fired_each { length fired.now ≡ game.now.graph.vertices }
    requires counts_each { length counts.now ≡ game.now.graph.vertices }
    requires after { IsAfter game.now counts.now chips.now }
    ensures game { IsGame game.now }
    ensures earned { IsTrue result
        ↔ IsCertified game.now.graph (slice_index game.now.start) game.now.limit (slice_index fired.now)
        (slice_index counts.now) }
{
    for vertex in 0..game.graph().vertices() {
        let v = vertex as usize;
        if counts[v] > fired[v] && !is_earned(game, vertex, counts[v], chips[v]) {
            return false;
        }
    }
    true
}

/// Whether this vertex may have fired `times` times, if it has these chips left.
fn is_earned(game: &Game, vertex: u64, times: u64, left: u64) -> bool
    requires { vertex < game.now.graph.vertices }
    ensures game { IsGame game.now }
    ensures earned { IsTrue result
        ↔ ((vertex ≢ game.now.graph.sink) × (times ≤ game.now.limit) × (degree game.now.graph vertex ≤ left + 1)) }
{
    let graph = game.graph();
    let missing = graph.out_degree(vertex).saturating_sub(left);
    vertex != graph.sink() && times <= game.limit() && missing <= 1
}

/// Whether each vertex that fires more often by the counts than it has fired burns in the order of these
/// ranks, by the chips that the counts leave.
fn are_burnt(game: &Game, fired: &[u64], counts: &[u64], order: &[u64], chips: &[u64]) -> bool
    requires fired_each { length fired.now ≡ game.now.graph.vertices }
    requires counts_each { length counts.now ≡ game.now.graph.vertices }
    requires order_each { length order.now ≡ game.now.graph.vertices }
    requires after { IsAfter game.now counts.now chips.now }
    ensures game { IsGame game.now }
    ensures burnt { IsTrue result
        ↔ AreBurnt game.now.graph (slice_index game.now.start) game.now.limit (slice_index fired.now)
        (slice_index counts.now) (slice_index order.now) }
{
    for vertex in 0..game.graph().vertices() {
        let v = vertex as usize;
        if counts[v] > fired[v] && !is_burnt(game, order, vertex, counts[v], chips[v]) {
            return false;
        }
    }
    true
}

/// Whether this vertex may have fired `times` times and burns, if it has these chips left.
fn is_burnt(game: &Game, order: &[u64], vertex: u64, times: u64, left: u64) -> bool
    requires is_vertex { vertex < game.now.graph.vertices }
    requires order_each { length order.now ≡ game.now.graph.vertices }
    ensures game { IsGame game.now }
    ensures burnt { IsTrue result
        ↔ ((vertex ≢ game.now.graph.sink) × (times ≤ game.now.limit)
        × (in_degree game.now.graph vertex ≤ degree game.now.graph vertex)
        × (late_in_degree game.now.graph (slice_index order.now) vertex ≤ left)) }
{
    let graph = game.graph();
    let (all, late) = in_degrees(graph, order, vertex);
    vertex != graph.sink()
        && times <= game.limit()
        && all <= graph.out_degree(vertex)
        && late <= left
}

/// What comes into a vertex if each tail fires once: in all, and from the tails that burn no sooner.
fn in_degrees(graph: &Graph, order: &[u64], vertex: u64) -> (u64, u64)
    requires is_vertex { vertex < graph.now.vertices }
    requires order_each { length order.now ≡ graph.now.vertices }
    ensures all { result.0 ≡ in_degree graph.now vertex }
    ensures late { result.1 ≡ late_in_degree graph.now (slice_index order.now) vertex }
{
    let edges = graph.edges();
    let own = order[vertex as usize];
    let mut all = 0u64;
    let mut late = 0u64;
    for e in graph.ins(vertex) {
        let edge = edges[*e as usize];
        all += edge.mult;
        late += if_late(own, order[edge.tail as usize], edge.mult);
    }
    (all, late)
}

/// What an edge brings, if its tail burns no sooner.
#[inline]
fn if_late(own: u64, tail: u64, mult: u64) -> u64
    ensures { result ≡ (if nat_le own tail then mult else 0) }
{
    if own <= tail { mult } else { 0 }
}
