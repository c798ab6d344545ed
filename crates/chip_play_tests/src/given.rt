//! Plays that begin at given counts, and what becomes of these.

use crate::fire::{all_firings, is_same, long_game, long_path_ends};
use crate::games::{Rows, TRIANGLE, game_of};
use chip_fire::{GivenUse, Play, Watch, plain, plain_given};
use chip_graph::Game;
use chip_sequence::Outcome;
use std::process::Abort;

/// What became of given counts, and how often all vertices have fired when the play begins.
#[derive(Drop)]
struct Used {
    last: Option<GivenUse>,
    firings: u64,
}

impl Watch for Used {
    fn used(&mut self, play: &Play<'_>, _given: &[u64], given_use: GivenUse) {
        self.last = Some(given_use);
        self.firings = all_firings(&play.fired);
    }

    fn rounds(&mut self, _more: u64, _play: &Play<'_>) {}
}

/// Plays a game from given counts, and compares the outcome with that of `plain`, and what became of the counts.
fn uses(
    rt: &(impl AllocGlobal + Abort),
    game: &Game,
    given: &[u64],
    expected: Option<GivenUse>,
) -> u64 {
    let outcome = plain(rt.alloc(), game).expect(rt, "memory");
    uses_for(rt, game, given, &outcome, expected)
}

/// The same with the outcome that is expected. How often all vertices have fired when the play begins.
fn uses_for(
    rt: &(impl AllocGlobal + Abort),
    game: &Game,
    given: &[u64],
    expected: &Outcome,
    expected_use: Option<GivenUse>,
) -> u64 {
    let mut used = Used {
        last: None,
        firings: 0,
    };
    let outcome = plain_given(rt.alloc(), game, given, &mut used).expect(rt, "memory");
    assert!(rt; is_same(&outcome, expected), "another outcome");
    assert!(rt; used.last == expected_use, "{:?}", used.last);
    used.firings
}

/// With 6 chips on vertex 0 of the triangle the counts of the end are 3, 1 and 0. By 4 and 2 no chip is left on vertices 0
/// and 1: neither burns, and both lose a firing. By 3 and 2 vertex 0 burns, and vertex 1, which is below 0, does not; by 4
/// and 1 it is the other way round. The sink fires as often as none. So all that are lowered are lowered to 3 and 1.
const SIX_CHIPS: [(&[u64], GivenUse); 12] = [
    (&[3, 1, 0], GivenUse::Certified),
    (&[3, 1], GivenUse::Certified),
    (&[2, 1, 0], GivenUse::PlayedOn),
    (&[3, 0, 0], GivenUse::PlayedOn),
    (&[3], GivenUse::PlayedOn),
    (&[0, 0, 0], GivenUse::PlayedOn),
    (&[4, 2, 0], GivenUse::Lowered),
    (&[3, 2, 0], GivenUse::Lowered),
    (&[4, 1, 0], GivenUse::Lowered),
    (&[3, 1, 7], GivenUse::Lowered),
    (&[1 << 63, 1 << 63, 0], GivenUse::Dropped),
    (&[u64::MAX, u64::MAX, u64::MAX], GivenUse::Dropped),
];

#[test]
fn six_chips(rt: HostRuntime) {
    let game = game_of(&rt, TRIANGLE, &[6, 0, 0], 1 << 40);
    for (given, expected) in SIX_CHIPS {
        let firings = uses(&rt, &game, given, Some(expected));
        assert!(rt; expected != GivenUse::Lowered || firings == 4);
    }
    uses(&rt, &game, &[], None);
}

/// Counts of more vertices than the game has are those of its own.
#[test]
fn more_counts_than_vertices(rt: HostRuntime) {
    let game = game_of(&rt, TRIANGLE, &[6, 0, 0], 1 << 40);
    uses(&rt, &game, &[3, 1, 0, 9], Some(GivenUse::Certified));
}

/// At a limit of 2 vertex 0 fires twice, and vertex 1 once: counts at the limit are those of the end, and counts above it
/// are lowered.
#[test]
fn up_to_a_limit(rt: HostRuntime) {
    let game = game_of(&rt, TRIANGLE, &[6, 0, 0], 2);
    uses(&rt, &game, &[2, 1, 0], Some(GivenUse::Certified));
    uses(&rt, &game, &[3, 1, 0], Some(GivenUse::Lowered));
}

/// Vertex 1 gets 2 chips for each that it sends, so no counts of its own pass the burning test. Those of its end leave it
/// no chip, and its degree is 1: it lacks one chip, and so the other test passes.
const GETS_MORE: Rows = &[(0, 1, 2), (0, 2, 1), (1, 2, 1)];

#[test]
fn a_vertex_that_gets_more(rt: HostRuntime) {
    let game = game_of(&rt, GETS_MORE, &[3, 0, 0], 1 << 40);
    uses(&rt, &game, &[0, 0, 0], Some(GivenUse::PlayedOn));
    uses(&rt, &game, &[1, 2, 0], Some(GivenUse::Dropped));
}

/// Each vertex one firing below, at and above the counts of the end.
#[test]
fn beside_a_long_end(rt: HostRuntime) {
    let game = long_game(&rt, 1 << 40);
    let outcome = plain(rt.alloc(), &game).expect(&rt, "memory");
    long_path_ends(&rt, &outcome);
    let mut given = Vec::from_slice(rt.alloc(), &outcome.fired).expect(&rt, "memory");
    uses_for(&rt, &game, &given, &outcome, Some(GivenUse::Certified));
    for times in &mut given {
        *times = times.saturating_add(1);
    }
    uses_for(&rt, &game, &given, &outcome, Some(GivenUse::Lowered));
    for times in &mut given {
        *times = times.saturating_sub(2);
    }
    uses_for(&rt, &game, &given, &outcome, Some(GivenUse::PlayedOn));
}
