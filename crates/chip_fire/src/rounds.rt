//! Rounds, in which each vertex has its turn, and which a watcher follows.

ghost use Rattle.std.specs.Prelude.{◌≡◌, ◌+◌, ◌*◌, ◌/◌, ◌<◌, ◌≤◌, false, slice_index};
ghost use Rattle.std.specs.Bool.{OnTrue, OnFalse};
ghost use Rattle.chip_sequence.specs.Firing.{IsLegal};
ghost use Rattle.chip_fire.specs.Rounds.{IsBegun, IsInRange, IsAtRest, StaysOnTheWay, OnlyRise, GoesRound, firings_left};
ghost use Rattle.chip_fire.specs.Rounds.{IsSwept, IsRound, AreRounds};
ghost use Rattle.chip_fire.specs.Search.{FewVisits, places};

use crate::play::Play;
use crate::watch::Watch;
use crate::work_list::Listing;
use chip_graph::{Game, Graph};
use chip_sequence::fire_batch;
use std::alloc::Global;

impl Play<'_> {
    /// Goes on by a queue while few vertices are legal, and unless that ends the play by rounds for what is left of `most`
    /// visits, one round at least; whether each round fired a vertex. The visits are added to `visits`, up to 2^64 - 1.
    #[tactic(auto, using(crate::proofs::VisitsLemmas::visits_more, crate::proofs::VisitsLemmas::goes_after, crate::proofs::VisitsLemmas::visits_at_end))]
    pub(crate) fn stretch<W: Watch>(
        &mut self,
        alloc: Global,
        most: u64,
        visits: &mut u64,
        watch: &mut W,
    ) -> bool
        ensures same { self.new.game ≡ self.old.game }
        ensures round { GoesRound self.old.game self.old.fired self.new.chips self.new.fired result }
        ensures few { FewVisits self.old.game self.old.fired self.new.fired visits.old visits.new result }
        ensures at_most { visits.new ≤ visits.old + most + places self.old.game }
    {
        let before = *visits;
        if let Ok(Listing::Ends) = self.work_off_few(alloc, most, visits) {
            self.tell_end(watch);
            return false;
        }
        let rest = most.saturating_sub(*visits - before);
        self.rounds(rest, visits, watch)
    }

    /// Reports to `watch` that the play has ended.
    pub(crate) fn tell_end<W: Watch>(&self, watch: &mut W)
        requires { IsAtRest self.now.game self.now.chips self.now.fired }
        ensures { GoesRound self.now.game self.now.fired self.now.chips self.now.fired false }
    {
        let _ = &self.game;
        watch.rounds(0, self);
    }

    /// Makes rounds until one fires no vertex or `most` visits are made, one round at least, and reports to `watch` how far
    /// the play has come; whether each fired a vertex. The visits are added to `visits`, up to 2^64 - 1: one at each
    /// vertex in each round, and for each vertex that fires as many as vertices have edges out in the mean.
    pub(crate) fn rounds<W: Watch>(&mut self, most: u64, visits: &mut u64, watch: &mut W) -> bool
        ensures same { self.new.game ≡ self.old.game }
        ensures round { GoesRound self.old.game self.old.fired self.new.chips self.new.fired result }
        ensures few { FewVisits self.old.game self.old.fired self.new.fired visits.old visits.new result }
        ensures at_most { visits.new ≤ visits.old + most + places self.old.game }
    {
        let graph = self.game.graph();
        let vertices = graph.vertices().max(1);
        let edges = graph.edges().len() as u64;
        let most = (most / (vertices + edges)).saturating_add(1);
        let mut turns = 0u64;
        let made = make_rounds(
            self.game,
            most,
            &mut self.chips,
            &mut self.fired,
            &mut turns,
        );
        watch.rounds(made, self);
        let at_vertices = made.saturating_add(1).min(most).saturating_mul(vertices);
        let at_edges = turns.saturating_mul(edges) / vertices;
        *visits = visits.saturating_add(at_vertices).saturating_add(at_edges);
        made == most
    }
}

/// Makes at most `most` rounds, until one fires no vertex; how many fired one. Each time that a vertex fires in a
/// round, as often in a row as it may, is added to `turns`, up to 2^64 - 1.
// A round is so short that a play takes a seventh longer if this is a call.
#[inline(always)]
pub fn make_rounds(
    game: &Game,
    most: u64,
    chips: &mut [u64],
    fired: &mut [u64],
    turns: &mut u64,
) -> u64
    requires begun { IsBegun game.now chips.old fired.old }
    requires some { 0 < most }
    ensures begun { IsBegun game.now chips.new fired.new }
    ensures at_most { result ≤ most }
    ensures rounds { AreRounds game.now fired.old fired.new result turns.old turns.new }
    ensures none_fired { result < most → IsAtRest game.now chips.new fired.new }
{
    for made in 0..most {
        let count = round(game, chips, fired);
        if count == 0 {
            return made;
        }
        *turns = turns.saturating_add(count);
    }
    most
}

/// Lets each vertex fire as often as it may, first those with even numbers and then those with odd
/// ones; how many did.
///
/// Neighbours on paths and grids differ by an odd number, so a sweep over every second vertex seldom
/// reads what it has just written: in ascending order a path takes nearly twice as long.
#[inline(always)]
fn round(game: &Game, chips: &mut [u64], fired: &mut [u64]) -> u64
    requires { IsBegun game.now chips.old fired.old }
    ensures { IsRound game.now fired.old chips.new fired.new result }
{
    let graph = game.graph();
    let limit = game.limit();
    let even = sweep(graph, limit, 0, chips, fired);
    let odd = sweep(graph, limit, 1, chips, fired);
    even + odd
}

/// Lets every second vertex from the first one on fire as often as it may; how many did.
#[inline(always)]
fn sweep(graph: &Graph, limit: u64, first: u64, chips: &mut [u64], fired: &mut [u64]) -> u64
    requires in_range { IsInRange graph.now limit chips.old fired.old }
    requires first_or_second { first ≤ 1 }
    ensures { IsSwept graph.now limit first chips.old fired.old chips.new fired.new result graph.now.vertices }
{
    let sink = graph.sink();
    let mut count = 0u64;
    for step in 0..(graph.vertices() + 1 - first) / 2 {
        let vertex = first + 2 * step;
        if vertex != sink && turn(graph, limit, vertex, chips, fired) {
            count += 1;
        }
    }
    count
}

/// Lets a vertex fire as often in a row as its chips and the limit allow; whether it did.
#[inline]
fn turn(graph: &Graph, limit: u64, vertex: u64, chips: &mut [u64], fired: &mut [u64]) -> bool
    requires is_vertex { vertex < graph.now.vertices }
    requires not_sink { vertex ≡ graph.now.sink → ⊥ }
    requires in_range { IsInRange graph.now limit chips.old fired.old }
    ensures in_range { IsInRange graph.now limit chips.new fired.new }
    ensures stays { StaysOnTheWay graph.now limit chips.old fired.old chips.new fired.new }
    ensures rises { OnlyRise fired.old fired.new }
    ensures fires { OnTrue result ((firings_left graph.now limit fired.new < firings_left graph.now limit fired.old)
        × (firings_left graph.now limit fired.old ≤ firings_left graph.now limit fired.new + limit)) }
    ensures rests { OnFalse result ((chips.new ≡ chips.old) × (fired.new ≡ fired.old)
        × (IsLegal graph.now (slice_index chips.old) vertex → slice_index fired.old vertex ≡ limit)) }
{
    let v = vertex as usize;
    let degree = graph.out_degree(vertex);
    let has = chips[v];
    // (most vertices are left here: their counts are not read)
    if has < degree {
        return false;
    }
    let left = limit - fired[v];
    if left == 0 {
        return false;
    }
    let k = times_in(has, degree).min(left);
    fired[v] += k;
    fire_batch(chips, graph, vertex, k);
    true
}

/// The quotient of numbers of which the first is not the smaller one, without the slow division if that is possible:
/// mostly the quotient is 1, and nearly always both numbers fit 32 bits.
#[tactic(auto, using(crate::proofs::PlayLemmas::within_quotient, chip_sequence::proofs::BatchLemmas::above_quotient))]
#[inline]
pub(crate) fn times_in(chips: u64, degree: u64) -> u64
    requires some { 0 < degree }
    requires enough { degree ≤ chips }
    ensures value { result ≡ chips / degree }
    ensures enough { result * degree ≤ chips }
    ensures no_more { chips < (result + 1) * degree }
{
    if chips - degree < degree {
        1
    } else if chips <= u64::from(u32::MAX) {
        u64::from(chips as u32 / degree as u32)
    } else {
        chips / degree
    }
}
