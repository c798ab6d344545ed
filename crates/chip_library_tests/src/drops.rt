//! Chips dropped on a game.

use crate::graphs::{Lists, NO_GRAPHS, SINK_ALONE, TRIANGLE, told};
use chip_library::avalanches;
use std::process::Abort;

/// A call for drops, and its result: on a fault the numbers are those given.
struct Drops {
    name: &'static str,
    lists: &'static Lists,
    limit: u64,
    at: &'static [u64],
    amounts: &'static [u64],
    chips: &'static [u64],
    columns: &'static [u64],
    told: (u64, u64),
    end: &'static [u64],
    sizes: &'static [u64],
    extents: &'static [u64],
    losts: &'static [u64],
}

/// Makes the call and compares its result.
fn calls(rt: &(impl AllocGlobal + Abort), drops: &Drops) {
    let mut chips = drops.chips.to_vec(rt.alloc()).expect(rt, "memory");
    let mut sizes = drops.columns.to_vec(rt.alloc()).expect(rt, "memory");
    let mut extents = drops.columns.to_vec(rt.alloc()).expect(rt, "memory");
    let mut losts = drops.columns.to_vec(rt.alloc()).expect(rt, "memory");
    let done = avalanches(
        rt.alloc(),
        drops.lists.edges(),
        drops.limit,
        drops.at,
        drops.amounts,
        &mut chips,
        &mut sizes,
        &mut extents,
        &mut losts,
    );
    let same = told(done) == drops.told
        && chips.as_slice() == drops.end
        && sizes.as_slice() == drops.sizes
        && extents.as_slice() == drops.extents
        && losts.as_slice() == drops.losts;
    assert!(rt;
        same,
        "{}: chips {:?}, sizes {:?}, extents {:?}, losts {:?}",
        drops.name, chips, sizes, extents, losts
    );
}

/// The greatest total of a game, and the greatest limit.
const LARGEST: u64 = 1 << 40;

const CALLS: &[&Drops] = &[
    &Drops {
        name: "three drops",
        lists: TRIANGLE,
        limit: LARGEST,
        at: &[0, 0, 2],
        amounts: &[1, 4, 1],
        chips: &[1, 1, 0],
        columns: &[7, 7, 7],
        told: (0, 0),
        end: &[0, 1, 7],
        sizes: &[2, 4, 0],
        extents: &[2, 2, 0],
        losts: &[2, 4, 0],
    },
    &Drops {
        name: "no drop: the game is played",
        lists: TRIANGLE,
        limit: LARGEST,
        at: &[],
        amounts: &[],
        chips: &[4, 0, 0],
        columns: &[],
        told: (0, 0),
        end: &[1, 0, 3],
        sizes: &[],
        extents: &[],
        losts: &[],
    },
    &Drops {
        name: "one vertex, on which nothing more falls than there may be",
        lists: SINK_ALONE,
        limit: 0,
        at: &[0, 0],
        amounts: &[LARGEST - 3, 0],
        chips: &[3],
        columns: &[7, 7],
        told: (0, 0),
        end: &[LARGEST],
        sizes: &[0, 0],
        extents: &[0, 0],
        losts: &[0, 0],
    },
    &Drops {
        name: "one amount too few",
        lists: TRIANGLE,
        limit: LARGEST,
        at: &[0, 0],
        amounts: &[1],
        chips: &[1, 1, 0],
        columns: &[7, 7],
        told: (12, 0),
        end: &[1, 1, 0],
        sizes: &[7, 7],
        extents: &[7, 7],
        losts: &[7, 7],
    },
    &Drops {
        name: "one number too few of each avalanche",
        lists: TRIANGLE,
        limit: LARGEST,
        at: &[0, 0],
        amounts: &[1, 1],
        chips: &[1, 1, 0],
        columns: &[7],
        told: (12, 0),
        end: &[1, 1, 0],
        sizes: &[7],
        extents: &[7],
        losts: &[7],
    },
    &Drops {
        name: "one vertex too few",
        lists: TRIANGLE,
        limit: LARGEST,
        at: &[0],
        amounts: &[1],
        chips: &[1, 1],
        columns: &[7],
        told: (9, 0),
        end: &[1, 1],
        sizes: &[7],
        extents: &[7],
        losts: &[7],
    },
    &Drops {
        name: "too many chips before the drops",
        lists: TRIANGLE,
        limit: LARGEST,
        at: &[0],
        amounts: &[1],
        chips: &[LARGEST, 1, 0],
        columns: &[7],
        told: (10, 0),
        end: &[LARGEST, 1, 0],
        sizes: &[7],
        extents: &[7],
        losts: &[7],
    },
    &Drops {
        name: "too great a limit",
        lists: TRIANGLE,
        limit: LARGEST + 1,
        at: &[0],
        amounts: &[1],
        chips: &[1, 1, 0],
        columns: &[7],
        told: (11, 0),
        end: &[1, 1, 0],
        sizes: &[7],
        extents: &[7],
        losts: &[7],
    },
    &Drops {
        name: "the limit stops the game",
        lists: TRIANGLE,
        limit: 1,
        at: &[5],
        amounts: &[1],
        chips: &[4, 0, 0],
        columns: &[7],
        told: (13, 0),
        end: &[4, 0, 0],
        sizes: &[7],
        extents: &[7],
        losts: &[7],
    },
    &Drops {
        name: "the limit stops the second drop, before one on no vertex",
        lists: TRIANGLE,
        limit: 2,
        at: &[0, 0, 3],
        amounts: &[1, 4, 1],
        chips: &[1, 1, 0],
        columns: &[7, 7, 7],
        told: (13, 1),
        end: &[1, 1, 0],
        sizes: &[7, 7, 7],
        extents: &[7, 7, 7],
        losts: &[7, 7, 7],
    },
    &Drops {
        name: "the second drop is on no vertex",
        lists: TRIANGLE,
        limit: LARGEST,
        at: &[0, 3, 0],
        amounts: &[1, 0, LARGEST],
        chips: &[1, 1, 0],
        columns: &[7, 7, 7],
        told: (26, 1),
        end: &[1, 1, 0],
        sizes: &[7, 7, 7],
        extents: &[7, 7, 7],
        losts: &[7, 7, 7],
    },
    &Drops {
        name: "one chip too many in the second drop",
        lists: TRIANGLE,
        limit: LARGEST,
        at: &[2, 2],
        amounts: &[1, LARGEST - 2],
        chips: &[1, 1, 0],
        columns: &[7, 7],
        told: (10, 1),
        end: &[1, 1, 0],
        sizes: &[7, 7],
        extents: &[7, 7],
        losts: &[7, 7],
    },
];

#[test]
fn drops_on_a_game(rt: HostRuntime) {
    for drops in CALLS {
        calls(&rt, drops);
    }
}

#[test]
fn drops_on_no_graph(rt: HostRuntime) {
    for &(lists, number, place) in NO_GRAPHS {
        let done = avalanches(
            rt.alloc(),
            lists.edges(),
            LARGEST,
            &[],
            &[],
            &mut [],
            &mut [],
            &mut [],
            &mut [],
        );
        assert!(&rt; told(done) == (number, place));
    }
}
