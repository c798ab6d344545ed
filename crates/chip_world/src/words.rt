ghost use Rattle.std.specs.Prelude.{◌≡◌, ◌+◌, ◌^◌, ◌<◌, ◌==◌, if◌then◌else◌, length, slice_index, slice_set, replicate};
ghost use Rattle.std.specs.Prelude.{IfOk};
ghost use Rattle.chip_link.specs.Words.{word_after_exchange};

use chip_graph::{AnyEdge, Game};
use chip_link::{EdgeWord, Ring};
use chip_part::{Act, Setting};
use std::alloc::{AllocError, Global};
use std::marker::Model;

/// The shared words of one edge, as in a net: the edge word, the word of acknowledgements and the ring of cells.
#[derive(Drop)]
pub(crate) struct EdgeWords {
    word: u64,
    acknowledged: u64,
    cells: Vec<u64>,
}

impl Model for EdgeWords {
    ghost use Rattle.chip_world.specs.SharedWords.{EdgeState};

    ghost Value = { EdgeState };

    ghost view = { λ a. record { word = a.word; acknowledged = a.acknowledged; cells = a.cells.items } };
}

impl EdgeWords {
    ghost use Rattle.chip_world.specs.SharedWords.{opening_words};

    /// The words of an edge that opens with a message of `chips` chips, or without one if that is 0.
    fn new(alloc: Global, ring: Ring, chips: u64) -> Result<EdgeWords, AllocError>
        ensures { IfOk result (λ edge. edge ≡ opening_words ring chips) }
    {
        let mut cells = vec![in alloc; 0; ring.cells() as usize]?;
        cells[0] = chips;
        Ok(EdgeWords {
            word: if chips == 0 { 0 } else { 1 },
            acknowledged: 0,
            cells,
        })
    }
}

/// The shared words of all edges, the root edges after the graph's.
#[derive(Drop)]
pub(crate) struct Words {
    edges: Vec<EdgeWords>,
}

impl Model for Words {
    ghost use Rattle.std.specs.Prelude.{List};
    ghost use Rattle.chip_world.specs.SharedWords.{EdgeState};

    ghost Value = { List EdgeState };

    ghost view = { λ a. a.edges.items };
}

impl Words {
    ghost use Rattle.chip_world.specs.SharedWords.{HasCell, cell_of, words_of, with_edge, with_cell, with_claim};
    ghost use Rattle.chip_world.specs.SharedWords.{with_acks, with_seal, opening_words, seen_in, words_after};
    ghost use Rattle.chip_world.specs.SharedWords.{CanPerform};
    ghost use Rattle.chip_part.specs.Edges.{all_edges};
    ghost use Rattle.chip_world.specs.World.{AreOpeningWords};

    /// The words of a game that opens.
    pub(crate) fn new(alloc: Global, setting: &Setting) -> Result<Words, AllocError>
        ensures { IfOk result (AreOpeningWords setting.now (all_edges setting.now)) }
    {
        let game = setting.game();
        let ring = setting.ring();
        let all_edges = setting.all_edges();
        let mut edges = Vec::with_capacity(alloc, all_edges as usize)?;
        for edge in 0..all_edges {
            edges.push_reserved(EdgeWords::new(alloc, ring, first_chips(game, edge))?);
        }
        Ok(Words { edges })
    }

    /// Makes an operation of the root, which uses no fired word; returns the word it found, 0 for a store.
    pub(crate) fn perform(&mut self, act: Act) -> u64
        requires { CanPerform act self.old }
        ensures seen { result ≡ seen_in act 0 self.old }
        ensures after { self.new ≡ words_after act self.old }
    {
        match act {
            Act::Take { edge, cell } => self.take(edge, cell),
            Act::Settle { edge } => self.acknowledgements(edge),
            Act::Clear { edge, cell } => self.load(edge, cell),
            Act::Claim {
                edge,
                expected,
                new,
            } => self.exchange(edge, expected, new),
            Act::Put { edge, cell, value } => {
                self.store(edge, cell, value);
                0
            }
            Act::Ack { edge, count } => self.acknowledge(edge, count),
            Act::Fire { .. } | Act::Halt { .. } | Act::End => 0,
        }
    }

    /// Swaps a cell of an edge with 0; returns the old value.
    pub(crate) fn take(&mut self, edge: u64, cell: u64) -> u64
        requires { HasCell self.old edge cell }
        ensures seen { result ≡ cell_of self.old edge cell }
        ensures after { self.new ≡ with_edge edge (with_cell cell 0) self.old }
    {
        let found = &mut self.edges[edge as usize].cells[cell as usize];
        let count = *found;
        *found = 0;
        count
    }

    /// Stores a value into a cell of an edge.
    pub(crate) fn store(&mut self, edge: u64, cell: u64, value: u64)
        requires { HasCell self.old edge cell }
        ensures { self.new ≡ with_edge edge (with_cell cell value) self.old }
    {
        self.edges[edge as usize].cells[cell as usize] = value;
    }

    /// Tries once to exchange the edge word for `new` if it is `expected`; returns the old word.
    pub(crate) fn exchange(&mut self, edge: u64, expected: u64, new: u64) -> u64
        requires { edge < length self.old }
        ensures seen { result ≡ (words_of self.old edge).word }
        ensures after { self.new ≡ with_edge edge (with_claim expected new) self.old }
    {
        let found = &mut self.edges[edge as usize].word;
        let word = *found;
        if word == expected {
            *found = new;
        }
        word
    }

    /// Adds to the word of acknowledgements of an edge; returns the old word.
    pub(crate) fn acknowledge(&mut self, edge: u64, count: u64) -> u64
        requires edge { edge < length self.old }
        requires room { (words_of self.old edge).acknowledged + count < 2 ^ 64 }
        ensures seen { result ≡ (words_of self.old edge).acknowledged }
        ensures after { self.new ≡ with_edge edge (with_acks count) self.old }
    {
        let found = &mut self.edges[edge as usize].acknowledged;
        let before = *found;
        *found = before + count;
        before
    }

    /// Seals an edge; returns the old edge word.
    pub(crate) fn seal(&mut self, edge: u64) -> u64
        requires { edge < length self.old }
        ensures seen { result ≡ (words_of self.old edge).word }
        ensures after { self.new ≡ with_edge edge with_seal self.old }
    {
        let found = &mut self.edges[edge as usize].word;
        let word = *found;
        *found = word | EdgeWord::SEAL;
        word
    }

    /// A cell of an edge.
    pub(crate) fn load(&self, edge: u64, cell: u64) -> u64
        requires { HasCell self.now edge cell }
        ensures { result ≡ cell_of self.now edge cell }
    {
        self.edges[edge as usize].cells[cell as usize]
    }

    /// The edge word of an edge.
    pub(crate) fn word(&self, edge: u64) -> u64
        requires { edge < length self.now }
        ensures { result ≡ (words_of self.now edge).word }
    {
        self.edges[edge as usize].word
    }

    /// The word of acknowledgements of an edge.
    pub(crate) fn acknowledgements(&self, edge: u64) -> u64
        requires { edge < length self.now }
        ensures { result ≡ (words_of self.now edge).acknowledged }
    {
        self.edges[edge as usize].acknowledged
    }
}

ghost use Rattle.chip_graph.specs.Edges;
ghost use Rattle.chip_world.specs.World.{first_chips};

/// The chips on an edge at the opening: on a root edge those its vertex starts with.
fn first_chips(game: &Game, edge: u64) -> u64
    requires { edge < Edges.edges_and_roots game.now.graph }
    ensures { result ≡ first_chips game.now edge }
{
    match game.graph().edge(edge) {
        Some(AnyEdge::Root { head }) => game.start()[head as usize],
        _ => 0,
    }
}
