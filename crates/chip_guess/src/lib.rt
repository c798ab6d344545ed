//! Guesses how often each vertex of a chip-firing game fires before the game ends.
//!
//! Nothing is promised of a guess but its range: callers test whether every play reaches it, and a wrong guess only
//! costs time. So counts are solved for in floating point, and integers wrap, so that no proof has to rule out what
//! does not happen.
//!
//! The counts at the end solve an obstacle problem for the Laplacian of the graph. A multigrid method solves a nearby
//! problem, in which each vertex is left with a target height, and a burning test lowers the solution.
#![tactic(auto)]

pub use given::lower_counts;
pub use hierarchy::Hierarchy;
pub use search::Search;
pub use tuning::AHEAD;

mod burning;
mod cycle;
mod given;
pub mod hierarchy;
mod level;
pub mod search;
mod solver;
mod tuning;
