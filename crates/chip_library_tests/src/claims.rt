//! Claimed counts and chips of a game's end.

use crate::graphs::{Lists, NO_GRAPHS, SINK_ALONE, TRIANGLE, told};
use chip_library::verify;
use std::process::Abort;

/// A claim, and what the call returns.
struct Claim {
    name: &'static str,
    lists: &'static Lists,
    limit: u64,
    chips: &'static [u64],
    fired: &'static [u64],
    ends: &'static [u64],
    told: (u64, u64),
}

/// Makes the call and compares its result.
fn calls(rt: &(impl AllocGlobal + Abort), claim: &Claim) {
    let done = verify(
        rt.alloc(),
        claim.lists.edges(),
        claim.limit,
        claim.chips,
        claim.fired,
        claim.ends,
    );
    assert!(rt; told(done) == claim.told, "{}", claim.name);
}

/// The greatest total of a game, and the greatest limit.
const LARGEST: u64 = 1 << 40;

const CALLS: &[&Claim] = &[
    &Claim {
        name: "the outcome",
        lists: TRIANGLE,
        limit: LARGEST,
        chips: &[4, 0, 0],
        fired: &[2, 1, 0],
        ends: &[1, 0, 3],
        told: (0, 0),
    },
    &Claim {
        name: "the outcome within a limit",
        lists: TRIANGLE,
        limit: 1,
        chips: &[4, 0, 0],
        fired: &[1, 0, 0],
        ends: &[2, 1, 1],
        told: (0, 0),
    },
    &Claim {
        name: "one vertex, and the most chips",
        lists: SINK_ALONE,
        limit: 0,
        chips: &[LARGEST],
        fired: &[0],
        ends: &[LARGEST],
        told: (0, 0),
    },
    &Claim {
        name: "another count",
        lists: TRIANGLE,
        limit: LARGEST,
        chips: &[4, 0, 0],
        fired: &[2, 2, 0],
        ends: &[1, 0, 3],
        told: (53, 1),
    },
    &Claim {
        name: "other chips",
        lists: TRIANGLE,
        limit: LARGEST,
        chips: &[4, 0, 0],
        fired: &[2, 1, 0],
        ends: &[1, 0, 2],
        told: (53, 2),
    },
    &Claim {
        name: "one count too few",
        lists: TRIANGLE,
        limit: LARGEST,
        chips: &[4, 0, 0],
        fired: &[2, 1],
        ends: &[1, 0, 3],
        told: (12, 0),
    },
    &Claim {
        name: "one vertex too many at the end",
        lists: TRIANGLE,
        limit: LARGEST,
        chips: &[4, 0, 0],
        fired: &[2, 1, 0],
        ends: &[1, 0, 3, 0],
        told: (12, 0),
    },
    &Claim {
        name: "one vertex too few",
        lists: TRIANGLE,
        limit: LARGEST,
        chips: &[4, 0],
        fired: &[2, 1],
        ends: &[1, 0],
        told: (9, 0),
    },
    &Claim {
        name: "too many chips",
        lists: TRIANGLE,
        limit: LARGEST,
        chips: &[LARGEST, 1, 0],
        fired: &[2, 1, 0],
        ends: &[1, 0, 3],
        told: (10, 0),
    },
    &Claim {
        name: "too great a limit",
        lists: TRIANGLE,
        limit: LARGEST + 1,
        chips: &[4, 0, 0],
        fired: &[2, 1, 0],
        ends: &[1, 0, 3],
        told: (11, 0),
    },
];

#[test]
fn claims_of_a_game(rt: HostRuntime) {
    for claim in CALLS {
        calls(&rt, claim);
    }
}

#[test]
fn claims_on_no_graph(rt: HostRuntime) {
    for &(lists, number, place) in NO_GRAPHS {
        let done = verify(rt.alloc(), lists.edges(), LARGEST, &[], &[], &[]);
        assert!(&rt; told(done) == (number, place));
    }
}
