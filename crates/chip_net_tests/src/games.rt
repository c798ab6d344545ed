//! Games that several modules play, and their ends.

use chip_graph::{Edge, Game, Graph};
use chip_sequence::Outcome;
use std::process::Abort;

/// Edges by tail, head and multiplicity.
pub(crate) type Edges = &'static [(u64, u64, u64)];

/// Two vertices that send to each other, and both to the sink 2.
pub(crate) const TRIANGLE: Edges = &[(0, 1, 1), (0, 2, 1), (1, 0, 1), (1, 2, 1)];

/// A limit that no vertex reaches, and the largest total.
pub(crate) const LIMIT: u64 = 1 << 40;

/// The end of a game: the firing counts, the chips, and the vertices halted by the limit and by a seal.
pub(crate) struct Ends {
    pub fired: &'static [u64],
    pub chips: &'static [u64],
    pub over: &'static [u64],
    pub sealed: &'static [u64],
}

/// The end of four chips on vertex 0 of the triangle.
pub(crate) const FOUR_CHIPS: Ends = Ends {
    fired: &[2, 1, 0],
    chips: &[1, 0, 3],
    over: &[],
    sealed: &[],
};

/// The game on these edges, with the last vertex as the sink.
pub(crate) fn game_of(
    rt: &(impl AllocGlobal + Abort),
    edges: &[(u64, u64, u64)],
    start: &[u64],
    limit: u64,
) -> Game {
    let mut rows = Vec::new(rt.alloc());
    for &(tail, head, mult) in edges {
        rows.push(Edge { tail, head, mult }).expect(rt, "memory");
    }
    let vertices = start.len() as u64;
    let graph = Graph::new(rt.alloc(), vertices, vertices.saturating_sub(1), rows);
    let start = Vec::from_slice(rt.alloc(), start).expect(rt, "memory");
    Game::new(graph.expect(rt, "a graph"), start, limit).expect(rt, "a game")
}

pub(crate) fn expect_outcome(rt: &impl Abort, outcome: &Outcome, ends: &Ends, name: &str) {
    let same = outcome.fired.as_slice() == ends.fired
        && outcome.chips.as_slice() == ends.chips
        && outcome.over.as_slice() == ends.over
        && outcome.sealed.as_slice() == ends.sealed;
    assert!(rt;
        same,
        "{name}: fired {:?}, chips {:?}, over {:?}, sealed {:?}",
        outcome.fired, outcome.chips, outcome.over, outcome.sealed
    );
}

/// Whether the counts before and after a stop add up to those without one, and the final chips are the same.
pub(crate) fn adds_up(first: &Outcome, more: &Outcome, ends: &Ends) -> bool {
    let mut same = more.chips.as_slice() == ends.chips;
    for ((fired, more), all) in first.fired.iter().zip(&more.fired).zip(ends.fired) {
        same &= fired.checked_add(*more) == Some(*all);
    }
    same
}
