//! Burning scripts, recurrent and superstable configurations, and the identity of the sandpile group.

use crate::graphs::{Lists, NO_GRAPHS, SINK_ALONE, TRIANGLE, told};
use chip_library::{Form, are_recurrent, burning, identity, representatives};
use std::process::Abort;

/// The greatest total of a game.
const LARGEST: u64 = 1 << 40;

/// 3 by 3 squares, row by row, and the sink.
const GRID: &Lists = &Lists {
    vertices: 10,
    sink: 9,
    tails: &[
        0, 0, 0, 1, 1, 1, 1, 2, 2, 2, 3, 3, 3, 3, 4, 4, 4, 4, 5, 5, 5, 5, 6, 6, 6, 7, 7, 7, 7, 8,
        8, 8,
    ],
    heads: &[
        1, 3, 9, 0, 2, 4, 9, 1, 5, 9, 0, 4, 6, 9, 1, 3, 5, 7, 2, 4, 8, 9, 3, 7, 9, 4, 6, 8, 9, 5,
        7, 9,
    ],
    mults: &[
        1, 1, 2, 1, 1, 1, 1, 1, 1, 2, 1, 1, 1, 1, 1, 1, 1, 1, 1, 1, 1, 1, 1, 1, 2, 1, 1, 1, 1, 1,
        1, 2,
    ],
};

/// Four vertices, each adjacent to every other.
const COMPLETE: &Lists = &Lists {
    vertices: 4,
    sink: 3,
    tails: &[0, 0, 0, 1, 1, 1, 2, 2, 2],
    heads: &[1, 2, 3, 0, 2, 3, 0, 1, 3],
    mults: &[1, 1, 1, 1, 1, 1, 1, 1, 1],
};

/// A cycle of four vertices, whose last is the sink.
const CYCLE: &Lists = &Lists {
    vertices: 4,
    sink: 3,
    tails: &[0, 0, 1, 1, 2, 2],
    heads: &[3, 1, 0, 2, 1, 3],
    mults: &[1, 1, 1, 1, 1, 1],
};

/// Vertex 0 sends three chips to vertex 1, which sends one back, and both send one to the sink.
const DIRECTED: &Lists = &Lists {
    vertices: 3,
    sink: 2,
    tails: &[0, 0, 1, 1],
    heads: &[1, 2, 0, 2],
    mults: &[3, 1, 1, 1],
};

/// A path from vertex 0 to the sink 3.
const PATH: &Lists = &Lists {
    vertices: 4,
    sink: 3,
    tails: &[0, 1, 1, 2, 2],
    heads: &[1, 0, 2, 1, 3],
    mults: &[1, 1, 1, 1, 1],
};

/// Graphs with their identities, those of squares by Le Borgne and Rossin. If all vertices of a complete graph fire,
/// each loses a chip, so its greatest stable configuration is equivalent to zero. On a cycle the sum of v + 1 times the
/// chips of v is constant modulo 4.
const IDENTITIES: &[(&Lists, &[u64])] = &[
    (TRIANGLE, &[1, 1, 0]),
    (SINK_ALONE, &[0]),
    (GRID, &[2, 1, 2, 1, 0, 1, 2, 1, 2, 0]),
    (COMPLETE, &[2, 2, 2, 0]),
    (CYCLE, &[1, 0, 1, 0]),
    (DIRECTED, &[2, 1, 0]),
];

#[test]
fn identities(rt: HostRuntime) {
    for &(lists, wanted) in IDENTITIES {
        finds(&rt, lists, wanted);
    }
}

/// Finds the identity and compares it.
fn finds(rt: &(impl AllocGlobal + Abort), lists: &Lists, wanted: &[u64]) {
    let mut chips = wanted.to_vec(rt.alloc()).expect(rt, "memory");
    chips.fill(7);
    let done = identity(rt.alloc(), lists.edges(), &mut chips);
    assert!(rt;
        told(done) == (0, 0) && chips.as_slice() == wanted,
        "{:?}",
        chips
    );
}

/// Graphs with their least burning scripts, and the chips that these take from each vertex: the edges from the sink, if
/// each edge leads both ways.
const SCRIPTS: &[(&Lists, &[u64], &[u64])] = &[
    (TRIANGLE, &[1, 1, 0], &[1, 1, 0]),
    (SINK_ALONE, &[0], &[0]),
    (
        GRID,
        &[1, 1, 1, 1, 1, 1, 1, 1, 1, 0],
        &[2, 1, 2, 1, 0, 1, 2, 1, 2, 0],
    ),
    (DIRECTED, &[1, 2, 0], &[2, 1, 0]),
];

#[test]
fn scripts(rt: HostRuntime) {
    for &(lists, script, chips) in SCRIPTS {
        burns(&rt, lists, script, chips);
    }
}

/// Finds the script with its chips and compares them.
fn burns(rt: &(impl AllocGlobal + Abort), lists: &Lists, script: &[u64], chips: &[u64]) {
    let mut times = script.to_vec(rt.alloc()).expect(rt, "memory");
    let mut taken = chips.to_vec(rt.alloc()).expect(rt, "memory");
    times.fill(7);
    taken.fill(7);
    let done = burning(rt.alloc(), lists.edges(), &mut times, &mut taken);
    let same = times.as_slice() == script && taken.as_slice() == chips;
    assert!(rt; told(done) == (0, 0) && same, "{:?}, {:?}", times, taken);
}

/// Rows, and which are recurrent; or the fault, on which the flags stay 7.
const ROWS: &[(&Lists, &[u64], (u64, u64), &[u64])] = &[
    (
        TRIANGLE,
        &[0, 0, 0, 1, 0, 9, 0, 1, 0, 1, 1, 0, 2, 0, 0],
        (0, 0),
        &[0, 1, 1, 1, 0],
    ),
    (DIRECTED, &[1, 1, 0, 0, 1, 0, 3, 0, 0], (0, 0), &[1, 0, 1]),
    (SINK_ALONE, &[0, 5], (0, 0), &[1, 1]),
    (TRIANGLE, &[], (0, 0), &[]),
    (TRIANGLE, &[1, 1, 0], (12, 0), &[7, 7]),
];

#[test]
fn recurrent_rows(rt: HostRuntime) {
    for &(lists, chips, fault, wanted) in ROWS {
        check_rows(&rt, lists, chips, fault, wanted);
    }
}

/// Tests which rows are recurrent, and compares.
fn check_rows(
    rt: &(impl AllocGlobal + Abort),
    lists: &Lists,
    chips: &[u64],
    fault: (u64, u64),
    wanted: &[u64],
) {
    let mut flags = wanted.to_vec(rt.alloc()).expect(rt, "memory");
    flags.fill(7);
    let done = are_recurrent(rt.alloc(), lists.edges(), chips, &mut flags);
    assert!(rt;
        told(done) == fault && flags.as_slice() == wanted,
        "{:?}",
        flags
    );
}

/// Rows, and what replaces them; or the fault, on which they stay.
const CLASSES: &[(&Lists, Form, usize, &[u64], (u64, u64), &[u64])] = &[
    (
        TRIANGLE,
        Form::Recurrent,
        3,
        &[4, 0, 0, 0, 0, 9, 0, 1, 1],
        (0, 0),
        &[1, 0, 0, 1, 1, 0, 0, 1, 0],
    ),
    (
        TRIANGLE,
        Form::Superstable,
        2,
        &[4, 0, 0, 1, 1, 5],
        (0, 0),
        &[1, 0, 0, 0, 0, 0],
    ),
    (
        TRIANGLE,
        Form::Inverse,
        2,
        &[4, 0, 0, 1, 1, 5],
        (0, 0),
        &[0, 1, 0, 1, 1, 0],
    ),
    (DIRECTED, Form::Recurrent, 1, &[0, 1, 0], (0, 0), &[3, 0, 0]),
    (
        TRIANGLE,
        Form::Recurrent,
        2,
        &[0, 0, LARGEST, LARGEST, 1, 0],
        (10, 1),
        &[0, 0, LARGEST, LARGEST, 1, 0],
    ),
    (
        PATH,
        Form::Inverse,
        2,
        &[0, 0, 0, LARGEST, LARGEST, 0, 0, 0],
        (13, 1),
        &[0, 0, 0, LARGEST, LARGEST, 0, 0, 0],
    ),
    (
        TRIANGLE,
        Form::Superstable,
        2,
        &[1, 1, 0],
        (12, 0),
        &[1, 1, 0],
    ),
];

#[test]
fn classes(rt: HostRuntime) {
    for &(lists, form, rows, chips, fault, wanted) in CLASSES {
        represents(&rt, lists, form, rows, chips, fault, wanted);
    }
}

/// Replaces rows by their representatives, and compares.
fn represents(
    rt: &(impl AllocGlobal + Abort),
    lists: &Lists,
    form: Form,
    rows: usize,
    chips: &[u64],
    fault: (u64, u64),
    wanted: &[u64],
) {
    let mut found = chips.to_vec(rt.alloc()).expect(rt, "memory");
    let done = representatives(rt.alloc(), lists.edges(), form, rows, &mut found);
    assert!(rt;
        told(done) == fault && found.as_slice() == wanted,
        "{:?}",
        found
    );
}

#[test]
fn groups_of_no_graph(rt: HostRuntime) {
    for &(lists, number, place) in NO_GRAPHS {
        let mut chips = vec![in rt.alloc(); 0; lists.vertices as usize].expect(&rt, "memory");
        let done = identity(rt.alloc(), lists.edges(), &mut chips);
        assert!(&rt; told(done) == (number, place));
    }
}
