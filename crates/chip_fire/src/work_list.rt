//! A play by a work list: it visits the vertices that are legal and their edges, and no others.

ghost use Rattle.std.specs.Prelude.{◌≡◌, ◌↔◌, ℕ, ◌+◌, ◌*◌, ◌/◌, ◌<◌, ◌≤◌, ◌⊎◌, ◌∷◌, true, false, length, take, drop};
ghost use Rattle.std.specs.Prelude.{slice_index, slice_set, MatchOption, IfOk, IfErr, Ok, None, ◌==◌, if◌then◌else◌};
ghost use Rattle.chip_graph.specs.Multigraph.{degree, edges_out};
ghost use Rattle.chip_fire.specs.Search.{FewVisits};
ghost use Rattle.chip_sequence.specs.Firing.{IsLegal, legal_vertices};
ghost use Rattle.chip_fire.specs.Rounds.{IsBegun, IsInRange, StaysOnTheWay, OnlyRise, firings_left};
ghost use Rattle.chip_fire.specs.Timed.{AreFound};
ghost use Rattle.chip_fire.specs.declared.work_list.Listing.TheVariants.{GoesOn, Ends, GivesUp};
ghost use Rattle.chip_fire.specs.WorkList.{AreTheLegal, IsStuck, WorksOff, legal_in_all};

use crate::play::Play;
use crate::rounds::times_in;
use crate::soon::visits_at_all;
use crate::tuning::{PLACES_IN_CACHE, VERTICES_PER_PLACE, VISITS_OF_LISTED};
use chip_graph::{Game, Graph};
use std::alloc::{AllocError, Global};

/// Whether a work list goes on.
#[derive(Clone, Copy)]
pub enum Listing {
    /// It has made its visits, and some vertex is legal.
    GoesOn,
    /// No vertex is legal.
    Ends,
    /// Too many vertices are legal, or one would pass the limit or has too many edges.
    GivesUp,
}

impl Play<'_> {
    /// Goes on by a queue of legal vertices if these are few, until about `most` visits are made. The visits are added to
    /// `visits`, up to 2^64 - 1: those at a vertex that fires and at its edges, of which it has as many as vertices
    /// have in the mean. On a graph that no cache holds they count `VISITS_OF_LISTED` times, since they lie anywhere.
    pub fn work_off_few(
        &mut self,
        alloc: Global,
        most: u64,
        visits: &mut u64,
    ) -> Result<Listing, AllocError>
        ensures same { self.new.game ≡ self.old.game }
        ensures rises { OnlyRise self.old.fired self.new.fired }
        ensures few { FewVisits self.old.game self.old.fired self.new.fired visits.old visits.new true }
        ensures at_most { visits.new ≤ visits.old + most }
        ensures works { IfOk result (WorksOff self.old.game (self.old.game.graph.vertices / 8) most
            self.new.chips self.new.fired visits.old visits.new) }
        ensures no_memory { IfErr result (λ _. (self.new ≡ self.old) × (visits.new ≡ visits.old)) }
        ensures many { self.old.game.graph.vertices / 8 < legal_in_all self.old.game.graph self.old.chips
            → (result ≡ Ok GivesUp) × (self.new ≡ self.old) × (visits.new ≡ visits.old) }
    {
        match few_legal(alloc, self.game.graph(), &self.chips)? {
            Some(legal) => self.work_off_listed(legal, most, visits),
            None => Ok(Listing::GivesUp),
        }
    }

    /// Goes on as `work_off_few` does, by the queue of all legal vertices.
    pub(crate) fn work_off_listed(
        &mut self,
        mut queue: Vec<u64>,
        most: u64,
        visits: &mut u64,
    ) -> Result<Listing, AllocError>
        requires { queue.items ≡ legal_vertices self.old.game.graph (slice_index self.old.chips) }
        ensures same { self.new.game ≡ self.old.game }
        ensures rises { OnlyRise self.old.fired self.new.fired }
        ensures few { FewVisits self.old.game self.old.fired self.new.fired visits.old visits.new true }
        ensures at_most { visits.new ≤ visits.old + most }
        ensures works { IfOk result (WorksOff self.old.game (self.old.game.graph.vertices / 8) most
            self.new.chips self.new.fired visits.old visits.new) }
        ensures no_memory { IfErr result (λ _. (self.new ≡ self.old) × (visits.new ≡ visits.old)) }
    {
        let graph = self.game.graph();
        let listed = queue.len();
        queue.resize(listed + 2 * few_of(graph), 0)?;
        let of_turn = visits_of_turn(graph);
        let most = most / of_turn;
        let worked = work_off(
            self.game,
            listed,
            most,
            &[],
            &mut [],
            &mut queue,
            &mut self.chips,
            &mut self.fired,
        );
        *visits = visits.saturating_add(worked.turns.saturating_mul(of_turn));
        Ok(listing_after(worked, most))
    }
}

/// Whether a work list goes on that was given `most` turns.
fn listing_after(worked: Worked, most: u64) -> Listing
    ensures { result ≡ (if worked.legal == 0 then Ends else if worked.turns == most then GoesOn else GivesUp) }
{
    if worked.legal == 0 {
        Listing::Ends
    } else if worked.turns == most {
        Listing::GoesOn
    } else {
        Listing::GivesUp
    }
}

/// How many visits a turn in a work list counts for: those at a vertex and at its edges.
fn visits_of_turn(graph: &Graph) -> u64
    ensures some { 0 < result }
    ensures few { result ≤ graph.now.vertices + length graph.now.edges }
{
    let all = visits_at_all(graph);
    let edges = graph.edges().len() as u64 / graph.vertices().max(1);
    let at_each = edges.saturating_add(1).min(all);
    if all <= PLACES_IN_CACHE {
        return at_each;
    }
    at_each.saturating_mul(VISITS_OF_LISTED).min(all)
}

/// How many vertices are few enough for a work list.
fn few_of(graph: &Graph) -> usize
    ensures { result ≡ graph.now.vertices / 8 }
{
    graph.vertices() as usize / VERTICES_PER_PLACE
}

/// The vertices that are legal, ascending; `None` if they are too many for a work list, even if memory runs out.
pub(crate) fn few_legal(
    alloc: Global,
    graph: &Graph,
    chips: &[u64],
) -> Result<Option<Vec<u64>>, AllocError>
    requires { length chips.now ≡ graph.now.vertices }
    ensures listed { IfOk result (λ found. MatchOption found
        (graph.now.vertices / 8 < legal_in_all graph.now chips.now)
        (λ legal. legal.items ≡ legal_vertices graph.now (slice_index chips.now))) }
    ensures many { graph.now.vertices / 8 < legal_in_all graph.now chips.now → result ≡ Ok None }
{
    let few = few_of(graph);
    match list_few(alloc, graph, chips, few) {
        Err(_) if !are_few(graph, chips, few) => Ok(None),
        found => found,
    }
}

/// The vertices that are legal, ascending; `None` if they are more than `few`.
fn list_few(
    alloc: Global,
    graph: &Graph,
    chips: &[u64],
    few: usize,
) -> Result<Option<Vec<u64>>, AllocError>
    requires { length chips.now ≡ graph.now.vertices }
    ensures { IfOk result (λ found. MatchOption found (few < legal_in_all graph.now chips.now)
        (λ legal. (length legal.items ≤ few) × (legal.items ≡ legal_vertices graph.now (slice_index chips.now)))) }
{
    // (room for the whole queue, so that it never moves)
    let mut legal = Vec::with_capacity(alloc, few.saturating_mul(3))?;
    for vertex in 0..graph.vertices() {
        if is_legal(graph, chips, vertex) {
            if legal.len() == few {
                return Ok(None);
            }
            legal.push(vertex)?;
        }
    }
    Ok(Some(legal))
}

/// Whether at most `few` vertices are legal.
fn are_few(graph: &Graph, chips: &[u64], few: usize) -> bool
    requires { length chips.now ≡ graph.now.vertices }
    ensures { (result ≡ true) ↔ (legal_in_all graph.now chips.now ≤ few) }
{
    let mut found = 0usize;
    for vertex in 0..graph.vertices() {
        if is_legal(graph, chips, vertex) {
            if found == few {
                return false;
            }
            found += 1;
        }
    }
    true
}

/// Where a work list stopped.
#[derive(Clone, Copy)]
pub struct Worked {
    /// The number of turns that it made.
    pub turns: u64,
    /// The number of vertices that are legal.
    pub legal: usize,
    /// The number of vertices that fired, if these were noted and none is legal.
    pub noted: usize,
}

/// Lets the legal vertices of a queue, its first `listed`, fire in turn, and those that become legal by it, first in,
/// first out, each as often as its chips allow, for up to `most` turns. It ends earlier if no vertex is legal, if one
/// would pass the limit, or if the queue is too short. If `before` has the counts with which it begins, the vertices
/// that fire are noted at the front of `support`.
pub fn work_off(
    game: &Game,
    mut listed: usize,
    most: u64,
    before: &[u64],
    support: &mut [u64],
    queue: &mut [u64],
    chips: &mut [u64],
    fired: &mut [u64],
) -> Worked
    requires begun { IsBegun game.now chips.old fired.old }
    requires room { listed ≤ length queue.old }
    requires legal { AreTheLegal game.now.graph chips.old (take listed queue.old) }
    requires before { 0 < length before.now
        → (before.now ≡ fired.old) × (length support.old ≡ game.now.graph.vertices) }
    ensures begun { IsBegun game.now chips.new fired.new }
    ensures at_most { result.turns ≤ most }
    ensures rises { OnlyRise fired.old fired.new }
    ensures each_fires { firings_left game.now.graph game.now.limit fired.new + result.turns
        ≤ firings_left game.now.graph game.now.limit fired.old }
    ensures legal { result.legal ≡ legal_in_all game.now.graph chips.new }
    ensures over { result.turns < most → (result.legal ≡ 0)
        ⊎ IsStuck game.now.graph game.now.limit chips.new fired.new (length queue.old / 2) }
    ensures noted { 0 < length before.now → result.legal ≡ 0
        → AreFound game.now.graph.vertices before.now fired.new support.new result.noted }
{
    let (graph, limit) = (game.graph(), game.limit());
    let mut first = 0usize;
    let mut noted = 0usize;
    for made in 0..most {
        if listed == 0 {
            return Worked {
                turns: made,
                legal: listed,
                noted,
            };
        }
        first = make_room(first, listed, queue);
        let vertex = queue[first];
        let found = note(vertex, before, fired, support, noted);
        let rest = &mut queue[first + 1..];
        match turn(graph, limit, vertex, listed - 1, rest, chips, fired) {
            Some(more) => listed = more,
            None => {
                return Worked {
                    turns: made,
                    legal: listed,
                    noted,
                };
            }
        }
        first += 1;
        noted = found;
    }
    Worked {
        turns: most,
        legal: listed,
        noted,
    }
}

/// Notes a vertex that fires next, if it has not fired since it had the count in `before` and that has any; how many are
/// noted then.
#[inline]
fn note(vertex: u64, before: &[u64], fired: &[u64], support: &mut [u64], noted: usize) -> usize
    requires is_vertex { vertex < length fired.now }
    requires so_far { 0 < length before.now → (length before.now ≡ length fired.now)
        × (length support.old ≡ length fired.now)
        × AreFound (length fired.now) before.now fired.now support.old noted }
    ensures { 0 < length before.now → (k : ℕ) → 0 < k → AreFound (length fired.now) before.now
        (slice_set fired.now vertex (slice_index fired.now vertex + k)) support.new result }
{
    if vertex as usize >= before.len() {
        return noted;
    }
    if fired[vertex as usize] != before[vertex as usize] {
        return noted;
    }
    support[noted] = vertex;
    noted + 1
}

/// Moves what a queue has to its front, if that is not in its first half; where it begins then.
fn make_room(first: usize, listed: usize, queue: &mut [u64]) -> usize
    requires { first + listed ≤ length queue.old }
    ensures each { length queue.new ≡ length queue.old }
    ensures low { result ≤ length queue.old / 2 }
    ensures room { result + listed ≤ length queue.new }
    ensures same { take listed (drop result queue.new) ≡ take listed (drop first queue.old) }
{
    if first < queue.len() / 2 {
        return first;
    }
    queue.copy_within(first..first + listed, 0);
    0
}

/// Whether a vertex is legal.
#[inline]
pub fn is_legal(graph: &Graph, chips: &[u64], vertex: u64) -> bool
    requires is_vertex { vertex < graph.now.vertices }
    requires one_each { length chips.now ≡ graph.now.vertices }
    ensures { (result ≡ true) ↔ IsLegal graph.now (slice_index chips.now) vertex }
{
    vertex != graph.sink() && graph.out_degree(vertex) <= chips[vertex as usize]
}

/// Lets a legal vertex fire as often as its chips allow, and lists in its place those that are legal by it, after the
/// others, which are the first `listed`; how many are listed then. `None` if the limit or the room of the list is too
/// small, and then nothing changes.
#[tactic(auto, using(chip_sequence::proofs::BoundLemmas::some_degree))]
#[inline]
fn turn(
    graph: &Graph,
    limit: u64,
    vertex: u64,
    mut listed: usize,
    list: &mut [u64],
    chips: &mut [u64],
    fired: &mut [u64],
) -> Option<usize>
    requires in_range { IsInRange graph.now limit chips.old fired.old }
    requires legal { IsLegal graph.now (slice_index chips.old) vertex }
    requires listed { AreTheLegal graph.now chips.old (vertex ∷ take listed list.old) }
    requires room { listed ≤ length list.old }
    ensures turned { IsInRange graph.now limit chips.new fired.new
        × StaysOnTheWay graph.now limit chips.old fired.old chips.new fired.new }
    ensures rises { OnlyRise fired.old fired.new }
    ensures fires { MatchOption result (Unit {0})
        (λ n. firings_left graph.now limit fired.new < firings_left graph.now limit fired.old) }
    ensures counted { MatchOption result
        ((chips.new ≡ chips.old) × (fired.new ≡ fired.old)
        × ((limit < slice_index fired.old vertex + slice_index chips.old vertex / degree graph.now vertex)
        ⊎ (length list.old < listed + length (edges_out graph.now vertex))))
        (λ n. fired.new ≡ slice_set fired.old vertex
        (slice_index fired.old vertex + slice_index chips.old vertex / degree graph.now vertex)) }
    ensures listed { MatchOption result (Unit {0})
        (λ n. (n ≤ length list.new) × AreTheLegal graph.now chips.new (take n list.new)) }
{
    let degree = graph.out_degree(vertex);
    let k = times_in(chips[vertex as usize], degree);
    let links = graph.links(vertex);
    if k > limit - fired[vertex as usize] || links.len() > list.len() - listed {
        return None;
    }
    fired[vertex as usize] += k;
    chips[vertex as usize] -= k * degree;
    for link in links {
        let head = link.head as usize;
        let degree = graph.out_degree(head as u64);
        let had = chips[head];
        let has = had + k * u64::from(link.mult);
        chips[head] = has;
        list[listed] = head as u64;
        if had < degree && degree <= has {
            listed += 1;
        }
    }
    Some(listed)
}
