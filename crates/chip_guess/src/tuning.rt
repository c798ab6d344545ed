//! The constants of the search that were tuned, on games of `bench/`. A visit is of one vertex or edge.

/// The most visits of each vertex and edge by a search, besides two per visit of the play: as many as reading takes.
pub const AHEAD: u64 = 160;

/// The most visits of each vertex and link before the levels are made, and at the beginning of a search.
pub const VISITS_OF_GRAPH: u64 = 16;

/// The most levels: each has at most half as many vertices as the one before.
pub const MOST_LEVELS: u32 = 64;

/// The weight of a link from a vertex that is in no aggregate yet: grids.
pub const FREE_WEIGHT: i64 = 4;

/// The number of cycles after which the residual must be halved: games with limits.
pub const CYCLES_TO_HALVE: u64 = 8;

/// The part of the sum of degrees that the residuals may have at the end.
pub const TOLERANCE: f64 = 0.0009765625;

/// The number of steps in a row in which no vertex may burn, which leave nearly everything as it was: star.
pub const STALLED_STEPS: u64 = 16;

/// From this number of vertices on, fitting soon and going on from counts that passed pay off: grid-peak has fewer.
pub const GREAT: usize = 1 << 14;

/// The number of steps on `GREAT` vertices or more before heights may be fitted: peak-511.
pub const STEPS_BEFORE_FIT: u64 = 16;

/// The number of steps on fewer: grid-corner takes 284, and a grid of 3 by 1,000 some ten thousand without a fit.
pub const STEPS_BEFORE_LATE_FIT: u64 = 384;

/// The most steps between walls: four-511.
pub const STEPS_OF_FIT: u64 = 32;

/// The distance between walls, in edges from the sink: four-511.
pub const WALL_SPACING: u64 = 64;

/// The remainders of the walls' distances modulo `WALL_SPACING`, one for each fit, so that each count moves in some
/// fit: four-511.
pub const WALL_OFFSETS: [u64; 4] = [0, 32, 16, 48];

/// About the number of vertices in a patch: on four-511 true means of such patches are off by up to 40 firings, and
/// those of 4,096 by up to 400.
pub const PATCH: usize = 256;

/// The number of firings that each vertex of a patch must lose on average in a later fit. Less may be due to rounding.
pub const CLEAR_LOSS: f64 = 8.0;

/// How many more times each vertex fires once counts have passed, twice as many each next time: four-511 is raised
/// three times.
pub const FIRST_RAISE: i64 = 16;
