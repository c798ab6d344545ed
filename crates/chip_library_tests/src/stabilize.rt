//! Many games on one graph.

use crate::graphs::{Lists, NO_GRAPHS, SINK_ALONE, TRIANGLE, told};
use chip_library::stabilize_all;
use std::process::Abort;

/// A call for games, and its result: on a fault the numbers are those given.
struct Batch {
    name: &'static str,
    lists: &'static Lists,
    limit: u64,
    guesses: &'static [u64],
    chips: &'static [u64],
    fired: &'static [u64],
    stopped: &'static [u64],
    told: (u64, u64),
    ends: &'static [u64],
    counts: &'static [u64],
    over: &'static [u64],
}

/// Makes the call and compares its result.
fn calls(rt: &(impl AllocGlobal + Abort), batch: &Batch) {
    let mut chips = batch.chips.to_vec(rt.alloc()).expect(rt, "memory");
    let mut fired = batch.fired.to_vec(rt.alloc()).expect(rt, "memory");
    let mut stopped = batch.stopped.to_vec(rt.alloc()).expect(rt, "memory");
    let done = stabilize_all(
        rt.alloc(),
        batch.lists.edges(),
        batch.limit,
        batch.guesses,
        &mut chips,
        &mut fired,
        &mut stopped,
    );
    let same = told(done) == batch.told
        && chips.as_slice() == batch.ends
        && fired.as_slice() == batch.counts
        && stopped.as_slice() == batch.over;
    assert!(rt;
        same,
        "{}: chips {:?}, fired {:?}, stopped {:?}",
        batch.name, chips, fired, stopped
    );
}

/// The greatest total of a game, and the greatest limit.
const LARGEST: u64 = 1 << 40;

const CALLS: &[&Batch] = &[
    &Batch {
        name: "two games",
        lists: TRIANGLE,
        limit: LARGEST,
        guesses: &[],
        chips: &[4, 0, 0, 3, 0, 1],
        fired: &[7, 7, 7, 7, 7, 7],
        stopped: &[7, 7],
        told: (0, 0),
        ends: &[1, 0, 3, 1, 1, 2],
        counts: &[2, 1, 0, 1, 0, 0],
        over: &[0, 0],
    },
    &Batch {
        name: "a right and a wrong guess",
        lists: TRIANGLE,
        limit: LARGEST,
        guesses: &[2, 1, 0, 9, 9, 9],
        chips: &[4, 0, 0, 3, 0, 1],
        fired: &[7, 7, 7, 7, 7, 7],
        stopped: &[7, 7],
        told: (0, 0),
        ends: &[1, 0, 3, 1, 1, 2],
        counts: &[2, 1, 0, 1, 0, 0],
        over: &[0, 0],
    },
    &Batch {
        name: "the limit stops one game and not the other",
        lists: TRIANGLE,
        limit: 1,
        guesses: &[],
        chips: &[4, 0, 0, 3, 0, 1],
        fired: &[7, 7, 7, 7, 7, 7],
        stopped: &[7, 7],
        told: (0, 0),
        ends: &[2, 1, 1, 1, 1, 2],
        counts: &[1, 0, 0, 1, 0, 0],
        over: &[1, 0],
    },
    &Batch {
        name: "no game",
        lists: TRIANGLE,
        limit: LARGEST,
        guesses: &[],
        chips: &[],
        fired: &[],
        stopped: &[],
        told: (0, 0),
        ends: &[],
        counts: &[],
        over: &[],
    },
    &Batch {
        name: "one vertex, and the most chips",
        lists: SINK_ALONE,
        limit: 0,
        guesses: &[3],
        chips: &[LARGEST],
        fired: &[7],
        stopped: &[7],
        told: (0, 0),
        ends: &[LARGEST],
        counts: &[0],
        over: &[0],
    },
    &Batch {
        name: "one count too few",
        lists: TRIANGLE,
        limit: LARGEST,
        guesses: &[],
        chips: &[4, 0, 0],
        fired: &[7, 7],
        stopped: &[7],
        told: (12, 0),
        ends: &[4, 0, 0],
        counts: &[7, 7],
        over: &[7],
    },
    &Batch {
        name: "one game too few",
        lists: TRIANGLE,
        limit: LARGEST,
        guesses: &[],
        chips: &[4, 0, 0, 0, 0, 0],
        fired: &[7, 7, 7, 7, 7, 7],
        stopped: &[7],
        told: (12, 0),
        ends: &[4, 0, 0, 0, 0, 0],
        counts: &[7, 7, 7, 7, 7, 7],
        over: &[7],
    },
    &Batch {
        name: "one guess too few",
        lists: TRIANGLE,
        limit: LARGEST,
        guesses: &[1, 1],
        chips: &[4, 0, 0],
        fired: &[7, 7, 7],
        stopped: &[7],
        told: (12, 0),
        ends: &[4, 0, 0],
        counts: &[7, 7, 7],
        over: &[7],
    },
    &Batch {
        name: "too many chips in the second game",
        lists: TRIANGLE,
        limit: LARGEST,
        guesses: &[],
        chips: &[4, 0, 0, LARGEST, 0, 1],
        fired: &[7, 7, 7, 7, 7, 7],
        stopped: &[7, 7],
        told: (10, 1),
        ends: &[4, 0, 0, LARGEST, 0, 1],
        counts: &[7, 7, 7, 7, 7, 7],
        over: &[7, 7],
    },
    &Batch {
        name: "too great a limit",
        lists: TRIANGLE,
        limit: LARGEST + 1,
        guesses: &[],
        chips: &[4, 0, 0],
        fired: &[7, 7, 7],
        stopped: &[7],
        told: (11, 0),
        ends: &[4, 0, 0],
        counts: &[7, 7, 7],
        over: &[7],
    },
];

#[test]
fn games_on_one_graph(rt: HostRuntime) {
    for batch in CALLS {
        calls(&rt, batch);
    }
}

#[test]
fn games_on_no_graph(rt: HostRuntime) {
    for &(lists, number, place) in NO_GRAPHS {
        let done = stabilize_all(
            rt.alloc(),
            lists.edges(),
            LARGEST,
            &[],
            &mut [],
            &mut [],
            &mut [],
        );
        assert!(&rt; told(done) == (number, place));
    }
}
