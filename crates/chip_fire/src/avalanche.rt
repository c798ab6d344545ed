//! Avalanches: the play of a game that goes on after a drop, by a work list, and if that gives up by rounds and a search.

ghost use Rattle.std.specs.Prelude.{◌≡◌, ◌↔◌, ℕ, ◌-◌, ◌<◌, ◌≤◌, true, length, min, take, slice_index, IfOk};
ghost use Rattle.chip_graph.specs.Limits.{max_limit, max_vertices};
ghost use Rattle.chip_sequence.specs.Firing.{IsLegal};
ghost use Rattle.chip_fire.specs.Rounds.{IsBegun, IsAtRest};
ghost use Rattle.chip_fire.specs.Pile.{IsRoom, KeepsRoom, IsWorkedOff, sum_between};
ghost use Rattle.chip_sequence.specs.Firing.{IsStable};
ghost use Rattle.chip_fire.specs.WorkList.{HasSupport};
ghost use Rattle.chip_fire.specs.Measured.{IsRow};
ghost use Rattle.chip_fire.specs.Timed.{EndsInRounds};

use crate::durations::rounds_from;
use crate::play::Play;
use crate::tuning::TURNS;
use crate::watch::Watch;
use crate::work_list::{is_legal, work_off};
use chip_graph::{Game, Graph};
use std::alloc::{AllocError, Global};

/// What a drop of chips sets off, in whatever order vertices fire.
#[derive(Clone, Copy, Debug, PartialEq, Eq)]
pub struct Avalanche {
    /// How often all vertices fire.
    pub size: u64,
    /// How many different vertices fire.
    pub extent: u64,
    /// How many chips firings bring to the sink.
    pub lost: u64,
}

/// An avalanche, and for how many rounds it lasts, in each of which each legal vertex fires once.
#[derive(Clone, Copy, Debug, PartialEq, Eq)]
pub struct Measured {
    pub avalanche: Avalanche,
    /// 0 if it was not timed.
    pub duration: u64,
}

/// Room for plays.
#[derive(Drop)]
pub(crate) struct Room {
    /// How often each vertex had fired before the drop that is played.
    pub(crate) before: Vec<u64>,
    /// Whether `before` has the counts of now while no drop is played.
    pub(crate) is_current: bool,
    /// The vertices that fire after a drop. Once it has ended, those of its row stand in front.
    pub(crate) support: Vec<u64>,
    /// A work list. Once a drop has ended, how often each vertex of its row fired.
    pub(crate) list: Vec<u64>,
    /// How many vertices the row of the last drop has.
    pub(crate) row: usize,
}

impl Room {
    /// Room for `vertices` vertices with these counts.
    pub(crate) fn new(alloc: Global, vertices: usize, fired: &[u64]) -> Result<Room, AllocError>
        requires some { 0 < vertices }
        requires few { vertices ≤ max_vertices }
        ensures { IfOk result (IsRoom vertices fired.now) }
    {
        let before = Vec::from_slice(alloc, fired)?;
        let support = vec![in alloc; 0; vertices]?;
        let list = vec![in alloc; 0; 2 * vertices]?;
        Ok(Room {
            before,
            is_current: true,
            support,
            list,
            row: 0,
        })
    }

    /// Makes the counts before a drop those of now.
    #[tactic(auto, using(crate::proofs::DropLemmas::is_current))]
    #[inline]
    pub(crate) fn make_current(&mut self, fired: &[u64])
        requires { KeepsRoom (length fired.now) fired.now self.old }
        ensures { IsRoom (length fired.now) fired.now self.new }
    {
        if !self.is_current {
            self.before.copy_from_slice(fired);
            self.is_current = true;
        }
    }
}

/// Plays on by a work list from these chips and counts, of which no vertex but this one is legal. If it reaches the
/// end, it returns the number of vertices that fired, which are at the front of the support.
fn work_from(
    game: &Game,
    vertex: u64,
    chips: &mut [u64],
    fired: &mut [u64],
    room: &mut Room,
) -> Option<usize>
    requires begun { IsBegun game.now chips.old fired.old }
    requires is_vertex { vertex < game.now.graph.vertices }
    requires legal { (v : ℕ) → IsLegal game.now.graph (slice_index chips.old) v → v ≡ vertex }
    requires room { IsRoom game.now.graph.vertices fired.old room.old }
    ensures begun { IsBegun game.now chips.new fired.new }
    ensures room { IsRoom game.now.graph.vertices fired.old room.new }
    ensures worked { IsWorkedOff game.now.graph chips.new fired.new room.new result }
{
    let Room {
        before,
        support,
        list,
        ..
    } = room;
    list[0] = vertex;
    let graph = game.graph();
    let listed = usize::from(is_legal(graph, chips, vertex));
    let most = graph.vertices() * TURNS;
    let worked = work_off(game, listed, most, before, support, list, chips, fired);
    if worked.legal == 0 {
        Some(worked.noted)
    } else {
        None
    }
}

/// Plays on from these chips and counts, of which no vertex but this one is legal: if the play is timed in rounds, which
/// are counted, and else by a work list, and no rounds are counted.
pub(crate) fn play_from(
    game: &Game,
    vertex: u64,
    timed: bool,
    chips: &mut [u64],
    fired: &mut [u64],
    room: &mut Room,
) -> (Option<usize>, u64)
    requires begun { IsBegun game.now chips.old fired.old }
    requires is_vertex { vertex < game.now.graph.vertices }
    requires legal { (v : ℕ) → IsLegal game.now.graph (slice_index chips.old) v → v ≡ vertex }
    requires room { IsRoom game.now.graph.vertices fired.old room.old }
    ensures begun { IsBegun game.now chips.new fired.new }
    ensures room { IsRoom game.now.graph.vertices fired.old room.new }
    ensures worked { IsWorkedOff game.now.graph chips.new fired.new room.new result.0 }
    ensures rounds { timed ≡ true → EndsInRounds game.now.graph game.now.limit (slice_index chips.old) chips.new
        fired.new result.0 result.1 }
{
    if timed {
        rounds_from(game, vertex, chips, fired, room)
    } else {
        (work_from(game, vertex, chips, fired, room), 0)
    }
}

/// Plays on to the end within the limit, if a work list did not: how many at the front of the support are all vertices
/// that fired, and whether no vertex is legal.
pub(crate) fn play_out<P: Watch>(
    alloc: Global,
    play: &mut Play<'_>,
    worked: Option<usize>,
    room: &mut Room,
    watch: &mut P,
) -> (usize, bool)
    requires before_each { length room.old.before.items ≡ play.old.game.graph.vertices }
    requires room { IsRoom play.old.game.graph.vertices room.old.before.items room.old }
    requires worked { IsWorkedOff play.old.game.graph play.old.chips play.old.fired room.old worked }
    ensures same { play.new.game ≡ play.old.game }
    ensures at_rest { IsAtRest play.new.game play.new.chips play.new.fired }
    ensures room { IsRoom play.old.game.graph.vertices room.old.before.items room.new }
    ensures found { result.0 ≤ length room.new.support.items }
    ensures support { HasSupport play.old.game.graph.vertices room.old.before.items play.new.fired
        (take result.0 room.new.support.items) }
    ensures stable { (result.1 ≡ true) ↔ IsStable play.old.game.graph (slice_index play.new.chips) }
{
    if let Some(found) = worked {
        return (found, true);
    }
    play.play_on(alloc, watch);
    list_all(&mut room.support);
    (
        room.support.len(),
        is_stable(play.game.graph(), &play.chips),
    )
}

/// Lists all vertices.
fn list_all(support: &mut Vec<u64>)
    ensures each { length support.new.items ≡ length support.old.items }
    ensures all { (v : ℕ) → v < length support.new.items → slice_index support.new.items v ≡ v }
{
    for vertex in 0..support.len() {
        support[vertex] = vertex as u64;
    }
}

/// Whether no vertex is legal.
pub(crate) fn is_stable(graph: &Graph, chips: &[u64]) -> bool
    requires { length chips.now ≡ graph.now.vertices }
    ensures { (result ≡ true) ↔ IsStable graph.now (slice_index chips.now) }
{
    for vertex in 0..graph.vertices() {
        if is_legal(graph, chips, vertex) {
            return false;
        }
    }
    true
}

/// How often all vertices fired between these counts, and how many different ones did, if the first `found` of the
/// support are all that did. These stand in front of the support then, each once, and how often each fired in front of
/// `times`. `before` has the later counts then.
#[tactic(auto, using(crate::proofs::DropLemmas::few_between))]
pub(crate) fn tally(
    found: usize,
    fired: &[u64],
    before: &mut [u64],
    support: &mut [u64],
    times: &mut [u64],
) -> (u64, usize)
    requires before_each { length before.old ≡ length fired.now }
    requires found { found ≤ length support.old }
    requires support { HasSupport (length fired.now) before.old fired.now (take found support.old) }
    requires times { found ≤ length times.old }
    requires few_vertices { length fired.now ≤ max_vertices }
    requires low_counts { (v : ℕ) → slice_index fired.now v ≤ max_limit }
    ensures size { result.0 ≡ sum_between (λ k. k) (length fired.now) before.old fired.now }
    ensures extent { result.1 ≡ sum_between (λ k. min k 1) (length fired.now) before.old fired.now }
    ensures fits { result.1 ≤ length fired.now }
    ensures after { before.new ≡ fired.now }
    ensures row { IsRow (λ v. slice_index fired.now v - slice_index before.old v)
        (take result.1 support.new) (take result.1 times.new) }
{
    let mut size = 0u64;
    let mut extent = 0usize;
    for place in 0..found {
        let vertex = support[place];
        let more = fired[vertex as usize].saturating_sub(before[vertex as usize]);
        before[vertex as usize] = fired[vertex as usize];
        support[extent] = vertex;
        times[extent] = more;
        size += more;
        extent += usize::from(more != 0);
    }
    (size, extent)
}
