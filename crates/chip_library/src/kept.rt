//! A pile kept from one call to the next.

ghost use Rattle.std.specs.Prelude.{◌≡◌, ℕ, ◌+◌, ◌<◌, ◌≤◌, length, sum, Some, Ok, MatchResult, MatchOption};
ghost use Rattle.chip_graph.specs.Limits.{max_total};
ghost use Rattle.chip_graph.specs.ChipGame.{IsGame};
ghost use Rattle.chip_sequence.specs.Counted.{game_from};
ghost use Rattle.chip_library.specs.CallFaults.{IsFaultOfGame};
ghost use Rattle.chip_fire.specs.Measured.{row_vertices, row_times};
ghost use Rattle.chip_library.specs.Drops.{CanFall, IsFaultOfColumns};
ghost use Rattle.chip_library.specs.KeptGames.{BeginsGame, MakesPile, PutsChips, Plays, PlaysSome, Drops};
ghost use Rattle.chip_library.specs.KeptGames.{DropsEach, bytes_on};
ghost use Rattle.chip_recurrent.specs.Drawn.{AreRecurrents, IsFaultOfDraws};
ghost use Rattle.chip_library.specs.GroupCalls.{DrawsOn};
ghost use Rattle.chip_library.specs.Measures.{measures_of, MeasuresOnStable, MeasuresEach};

use crate::edges::EdgeLists;
use crate::fault::CallFault;
use crate::game::game_of;
use crate::group::are_rows;
use crate::measures::{are_asked, make_each};
use chip_fire::{Avalanche, Measured, Pile};
use chip_graph::{Game, GameFault, Graph, MAX_LIMIT, MAX_TOTAL, total_of};
use chip_recurrent::{RowFault, random_recurrents};
use core::mem::replace_with;
use std::alloc::Global;
use std::marker::Model;

/// The bytes of a vertex in the arrays of a graph, 20 (its degree, its distance, where its edges begin in both orders),
/// and of a play, 56 (its chips at the start and now, its counts now and before a drop, and work lists).
const VERTEX_BYTES: u64 = 76;

/// The bytes of an edge in the arrays of a graph: in the order of the lists, by its tail twice, and by its head.
const EDGE_BYTES: u64 = 48;

/// The state of a pile's play.
#[derive(Clone, Copy)]
pub enum PileState {
    /// It has not ended yet.
    ToPlay,
    /// It has ended: no vertex is legal.
    Stable,
    /// The limit has stopped it.
    Halted,
}

/// A game on which chips are dropped, and the state of its play.
#[derive(Drop)]
pub struct KeptPile {
    pile: Pile,
    state: PileState,
}

impl Model for KeptPile {
    ghost use Rattle.chip_library.specs.KeptGames.{KeptGame, IsKept};

    ghost Value = { KeptGame };

    ghost view = { λ k. record { pile = k.pile; state = k.state } };

    ghost invariant = { λ k. IsKept k.pile k.state };
}

impl KeptPile {
    /// Makes the pile at the start of a game, without playing. Chips and limit are at most 2^40. Returns the first
    /// fault: of the lengths, the graph or the game.
    pub fn new(
        alloc: Global,
        edges: EdgeLists<'_>,
        limit: u64,
        chips: &[u64],
    ) -> Result<KeptPile, CallFault>
        ensures { MakesPile edges.entry limit chips.now result }
    {
        if !edges.has_whole_rows() {
            return Err(CallFault::Lengths);
        }
        let graph = edges.graph(alloc)?;
        let game = game_of(alloc, graph, limit, chips, 0)?;
        let pile = Pile::begin(alloc, game)?;
        Ok(KeptPile {
            pile,
            state: PileState::ToPlay,
        })
    }

    /// Replaces all chips and the limit, without playing: another game on the graph. On its fault nothing changes.
    pub fn put(self, alloc: Global, limit: u64, chips: &[u64]) -> (KeptPile, Result<(), CallFault>)
        ensures { PutsChips self result.0 limit chips.now result.1 }
    {
        match start_of(alloc, self.pile.game().graph(), limit, chips) {
            Ok(start) => (self.begin(start, limit), Ok(())),
            Err(fault) => (self, Err(fault)),
        }
    }

    /// The pile at the start of another game on its graph.
    fn begin(self, start: Vec<u64>, limit: u64) -> KeptPile
        requires { IsGame (game_from self.pile.game.graph start.items limit) }
        ensures { BeginsGame (game_from self.pile.game.graph start.items limit) result }
    {
        let KeptPile { pile, .. } = self;
        KeptPile {
            pile: pile.put(start, limit),
            state: PileState::ToPlay,
        }
    }

    /// Plays to the end, if that is not done yet. If the limit stops the play, the pile takes no more drops.
    pub fn play(self, alloc: Global) -> (KeptPile, Result<(), CallFault>)
        ensures { Plays self result.0 result.1 }
    {
        let (kept, left) = self.play_some(alloc, u64::MAX);
        match left {
            Ok(_) => (kept, Ok(())),
            Err(fault) => (kept, Err(fault)),
        }
    }

    /// Plays on by about `visits` visits of a vertex or an edge, unless the play has ended. Returns whether it still
    /// has to end. With one visit or more a vertex fires or the play ends; 2^64 - 1 visits are a whole play.
    #[tactic(auto, using(crate::proofs::KeptLemmas::stays_to_play))]
    pub fn play_some(self, alloc: Global, visits: u64) -> (KeptPile, Result<bool, CallFault>)
        ensures { PlaysSome self result.0 visits result.1 }
    {
        match self.state {
            PileState::ToPlay if visits > 0 => self.go_on(alloc, visits),
            PileState::ToPlay => (self, Ok(true)),
            PileState::Stable => (self, Ok(false)),
            PileState::Halted => (self, Err(CallFault::Stopped(0))),
        }
    }

    /// Plays on by about `visits` visits.
    #[tactic(auto, using(crate::proofs::KeptLemmas::goes_on_some, crate::proofs::KeptLemmas::ended_pile))]
    fn go_on(self, alloc: Global, visits: u64) -> (KeptPile, Result<bool, CallFault>)
        requires to_play { self.state ≡ PileState.ToPlay }
        requires some { 0 < visits }
        ensures { PlaysSome self result.0 visits result.1 }
    {
        let KeptPile { pile, .. } = self;
        let (pile, _, goes_on) = pile.go_on(alloc, visits);
        if goes_on {
            let state = PileState::ToPlay;
            return (KeptPile { pile, state }, Ok(true));
        }
        if pile.is_stable() {
            let state = PileState::Stable;
            (KeptPile { pile, state }, Ok(false))
        } else {
            let state = PileState::Halted;
            (KeptPile { pile, state }, Err(CallFault::Stopped(0)))
        }
    }

    /// Plays to the end, drops `count` chips on a vertex, and plays to the end again. A fault of the vertex or the
    /// chips changes nothing. If the limit stops a play, the pile takes no more drops.
    pub fn drop_chips(
        self,
        alloc: Global,
        vertex: u64,
        count: u64,
    ) -> (KeptPile, Result<Avalanche, CallFault>)
        ensures { Drops self result.0 vertex count result.1 }
    {
        if let Some(fault) = fault_of_columns(self.pile.game(), &[vertex], &[count]) {
            return (self, Err(fault));
        }
        let (kept, played) = self.play(alloc);
        if let Err(fault) = played {
            return (kept, Err(fault));
        }
        let (kept, measured) = kept.measure_on_stable(alloc, vertex, count, false);
        match measured {
            Some(measured) => (kept, Ok(measured.avalanche)),
            None => (kept, Err(CallFault::Stopped(0))),
        }
    }

    /// Drops chips on a stable pile and plays to the end. Returns what was measured (`Pile::drop_measured`), or `None`
    /// if the limit stopped the play.
    pub(crate) fn measure_on_stable(
        self,
        alloc: Global,
        vertex: u64,
        count: u64,
        timed: bool,
    ) -> (KeptPile, Option<Measured>)
        requires stable { self.state ≡ PileState.Stable }
        requires is_vertex { vertex < self.pile.game.graph.vertices }
        requires few_chips { sum self.pile.game.start + count ≤ max_total }
        ensures { MeasuresOnStable self result.0 vertex count timed result.1 }
    {
        let KeptPile { pile, .. } = self;
        let (pile, measured) = pile.drop_measured(alloc, vertex, count, timed);
        match measured {
            Some(measured) => {
                let state = PileState::Stable;
                (KeptPile { pile, state }, Some(measured))
            }
            None => {
                let state = PileState::Halted;
                (KeptPile { pile, state }, None)
            }
        }
    }

    /// Plays to the end, then drops `amounts[i]` chips on vertex `at[i]` for each i in order, and plays to the end
    /// after each drop. The other slices get the size, the area and the dissipated chips of each avalanche.
    ///
    /// All drops are checked before the first one falls: a fault of their lengths, vertices or chips changes nothing.
    /// If the limit stops a play, the fault gives the number of drops made, and only their rows are written.
    pub fn drop_each(
        &mut self,
        alloc: Global,
        at: &[u64],
        amounts: &[u64],
        sizes: &mut [u64],
        extents: &mut [u64],
        losts: &mut [u64],
    ) -> Result<(), CallFault>
        ensures { DropsEach self.old self.new at.now amounts.now
            (record { sizes = sizes.old; extents = extents.old; losts = losts.old })
            (record { sizes = sizes.new; extents = extents.new; losts = losts.new }) result }
    {
        let told = self.measure_each(
            alloc,
            at,
            amounts,
            false,
            &[],
            sizes,
            extents,
            losts,
            &mut [],
            &mut [],
            &mut [],
            &mut [],
        );
        match told {
            Ok(_) => Ok(()),
            Err(fault) => Err(fault),
        }
    }

    /// Makes drops as `drop_each` does, and measures more in slices that may be empty. Returns the number made.
    ///
    /// `durations` gets the number of rounds of each avalanche; in a round each legal vertex fires once. `vertices`
    /// gets the vertices that fired and `times` how often, drop after drop; `ends` gets where those of each drop end.
    /// Stops before a drop if `vertices` has less room left than the graph has vertices.
    ///
    /// Stops after the first drop that ends the run: that loses a chip, if `loses` is true; that fires a vertex with
    /// bit 1 in its mark; or that fires one with bit 2 and one with bit 4, or one with bit 8 and one with bit 16.
    /// `marks` has one number per vertex, or is empty.
    pub fn measure_each(
        &mut self,
        alloc: Global,
        at: &[u64],
        amounts: &[u64],
        loses: bool,
        marks: &[u64],
        sizes: &mut [u64],
        extents: &mut [u64],
        losts: &mut [u64],
        durations: &mut [u64],
        ends: &mut [u64],
        vertices: &mut [u64],
        times: &mut [u64],
    ) -> Result<u64, CallFault>
        ensures { MeasuresEach self.old self.new at.now amounts.now loses marks.now
            (measures_of sizes.old extents.old losts.old durations.old ends.old vertices.old times.old)
            (measures_of sizes.new extents.new losts.new durations.new ends.new vertices.new times.new) result }
    {
        if !are_asked(
            self, at, amounts, marks, sizes, extents, losts, durations, ends, vertices, times,
        ) {
            return Err(CallFault::Lengths);
        }
        if let Some(fault) = fault_of_columns(self.game(), at, amounts) {
            return Err(fault);
        }
        replace_with(self, alloc, KeptPile::play)?;
        make_each(
            alloc, self, at, amounts, loses, marks, sizes, extents, losts, durations, ends,
            vertices, times,
        )
    }

    /// Writes random recurrent configurations of its graph, as `random_recurrents` does. The pile is unchanged.
    pub fn draw(
        &mut self,
        alloc: Global,
        seed: u64,
        first: u64,
        rows: usize,
        chips: &mut [u64],
    ) -> Result<(), CallFault>
        ensures pile { self.new ≡ self.old }
        ensures drawn { DrawsOn self.old.pile.game.graph rows chips.old chips.new result }
    {
        if !are_rows(self.game().graph().vertices(), rows, chips) {
            return Err(CallFault::Lengths);
        }
        let found = replace_with(self, (alloc, seed, first, rows), KeptPile::drawn)?;
        chips.copy_from_slice(&found);
        Ok(())
    }

    /// The unchanged pile, and configurations of its graph: so many from this number on.
    fn drawn(self, given: (Global, u64, u64, usize)) -> (KeptPile, Result<Vec<u64>, RowFault>)
        ensures pile { result.0 ≡ self }
        ensures drawn { MatchResult result.1 (λ chips. AreRecurrents self.pile.game.graph given.3 chips.items)
            (IsFaultOfDraws self.pile.game.graph given.3) }
    {
        let (alloc, seed, first, rows) = given;
        let KeptPile { pile, state } = self;
        match pile.lend(alloc) {
            Ok((mut graph, lent)) => {
                let found = random_recurrents(alloc, &mut graph, seed, first, rows);
                let pile = lent.back(graph);
                (KeptPile { pile, state }, found)
            }
            Err(pile) => (KeptPile { pile, state }, Err(RowFault::NoMemory)),
        }
    }

    /// The game, with all dropped chips at its start.
    pub(crate) fn game(&self) -> &Game
        ensures { result.now ≡ self.now.pile.game }
    {
        self.pile.game()
    }

    /// The vertices that fired in the last drop (`Pile::row_vertices`).
    pub(crate) fn row_vertices(&self) -> &[u64]
        requires { self.now.state ≡ PileState.Stable }
        ensures { result.now ≡ row_vertices self.now.pile }
    {
        self.pile.row_vertices()
    }

    /// How often each of them fired in that drop.
    pub(crate) fn row_times(&self) -> &[u64]
        requires { self.now.state ≡ PileState.Stable }
        ensures { result.now ≡ row_times self.now.pile }
    {
        self.pile.row_times()
    }

    /// The chips of each vertex.
    pub fn chips(&self) -> &[u64]
        ensures { result.now ≡ self.now.pile.chips.items }
    {
        self.pile.chips()
    }

    /// How often each vertex has fired since the start of the game.
    pub fn fired(&self) -> &[u64]
        ensures { result.now ≡ self.now.pile.fired.items }
    {
        self.pile.fired()
    }

    /// The number of bytes in the arrays of its graph and its play.
    pub fn bytes(&self) -> u64
        ensures { result ≡ bytes_on self.now.pile.game.graph }
    {
        let graph = self.pile.game().graph();
        VERTEX_BYTES * graph.vertices() + EDGE_BYTES * graph.edges().len() as u64
    }
}

/// A copy of chips with which a game on this graph can begin, or that game's first fault.
fn start_of(alloc: Global, graph: &Graph, limit: u64, chips: &[u64]) -> Result<Vec<u64>, CallFault>
    ensures { MatchResult result
        (λ start. (start.items ≡ chips.now) × IsGame (game_from graph.now chips.now limit))
        (IsFaultOfGame (game_from graph.now chips.now limit) 0) }
{
    if chips.len() as u64 != graph.vertices() {
        return Err(CallFault::Game(GameFault::StartLength, 0));
    }
    if total_of(chips).is_none() {
        return Err(CallFault::Game(GameFault::Total, 0));
    }
    if limit > MAX_LIMIT {
        return Err(CallFault::Game(GameFault::Limit, 0));
    }
    Ok(Vec::from_slice(alloc, chips)?)
}

/// The fault of the first drop on a game that cannot fall: no such vertex, or too many chips.
fn fault_of_columns(game: &Game, at: &[u64], amounts: &[u64]) -> Option<CallFault>
    requires { length amounts.now ≡ length at.now }
    ensures first { MatchOption result (CanFall game.now at.now amounts.now (length at.now))
        (IsFaultOfColumns game.now at.now amounts.now) }
    ensures not_lengths { result ≡ Some CallFault.Lengths → ⊥ }
    ensures not_stopped { (drop : ℕ) → result ≡ Some (CallFault.Stopped drop) → ⊥ }
{
    let vertices = game.graph().vertices();
    let mut room = MAX_TOTAL - game.total();
    for drop in 0..at.len() {
        if at[drop] >= vertices {
            return Some(CallFault::Vertex(drop as u64));
        }
        if amounts[drop] > room {
            return Some(CallFault::Total(drop as u64));
        }
        room -= amounts[drop];
    }
    None
}
