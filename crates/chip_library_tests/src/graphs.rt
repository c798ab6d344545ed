//! Graphs for several modules.

use chip_library::{CallFault, EdgeLists};

/// Edge lists, of a graph or not.
pub(crate) struct Lists {
    pub(crate) vertices: u64,
    pub(crate) sink: u64,
    pub(crate) tails: &'static [u64],
    pub(crate) heads: &'static [u64],
    pub(crate) mults: &'static [u64],
}

impl Lists {
    /// The lists as a call takes them.
    pub(crate) fn edges(&self) -> EdgeLists<'_> {
        EdgeLists {
            vertices: self.vertices,
            sink: self.sink,
            tails: self.tails,
            heads: self.heads,
            mults: self.mults,
        }
    }
}

/// Two vertices that send to each other, and both to the sink 2.
pub(crate) const TRIANGLE: &Lists = &Lists {
    vertices: 3,
    sink: 2,
    tails: &[0, 0, 1, 1],
    heads: &[1, 2, 0, 2],
    mults: &[1, 1, 1, 1],
};

/// The sink alone.
pub(crate) const SINK_ALONE: &Lists = &Lists {
    vertices: 1,
    sink: 0,
    tails: &[],
    heads: &[],
    mults: &[],
};

/// The triangle without a head.
pub(crate) const NO_HEAD: &Lists = &Lists {
    vertices: 3,
    sink: 2,
    tails: &[0, 0, 1, 1],
    heads: &[1, 2, 0],
    mults: &[1, 1, 1, 1],
};

/// The faults of graphs: the lists, the fault's number and its place.
pub(crate) const NO_GRAPHS: &[(&Lists, u64, u64)] = &[
    (NO_HEAD, 12, 0),
    (
        &Lists {
            vertices: 3,
            sink: 2,
            tails: &[0, 1],
            heads: &[2, 2],
            mults: &[1],
        },
        12,
        0,
    ),
    (
        &Lists {
            vertices: 0,
            sink: 0,
            tails: &[],
            heads: &[],
            mults: &[],
        },
        1,
        0,
    ),
    (
        &Lists {
            vertices: 3,
            sink: 3,
            tails: &[0, 1],
            heads: &[2, 2],
            mults: &[1, 1],
        },
        2,
        0,
    ),
    (
        &Lists {
            vertices: 3,
            sink: 2,
            tails: &[0, 1],
            heads: &[2, 3],
            mults: &[1, 1],
        },
        4,
        1,
    ),
    (
        &Lists {
            vertices: 3,
            sink: 2,
            tails: &[0, 1],
            heads: &[2, 2],
            mults: &[1, 0],
        },
        5,
        1,
    ),
    (
        &Lists {
            vertices: 3,
            sink: 2,
            tails: &[0, 1],
            heads: &[2, 1],
            mults: &[1, 1],
        },
        6,
        1,
    ),
    (
        &Lists {
            vertices: 3,
            sink: 2,
            tails: &[0, 2],
            heads: &[2, 1],
            mults: &[1, 1],
        },
        7,
        1,
    ),
    (
        &Lists {
            vertices: 3,
            sink: 2,
            tails: &[0],
            heads: &[2],
            mults: &[1],
        },
        8,
        1,
    ),
];

/// The number and the place of a fault, or 0 and 0.
pub(crate) fn told(done: Result<(), CallFault>) -> (u64, u64) {
    match done {
        Ok(()) => (0, 0),
        Err(fault) => (fault.number(), fault.place()),
    }
}
