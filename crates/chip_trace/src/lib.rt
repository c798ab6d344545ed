//! Recorded runs: what each vertex wrote down of its own run, replayed and written as text.
//!
//! A trace is the list of rows of one vertex. `replay` finds an order in which the rows of all vertices are enabled
//! (`specs/Interleaving.antt`), or where they are stuck if there is none (`specs/Progress.antt`); `replay_complete`
//! returns also what is left (`specs/Left.antt`); `write_trace` writes them (`specs/TraceText.antt`).
#![tactic(auto)]

pub use fault::{ReplayFault, TraceFault};
pub use remaining::Left;
pub use replaying::{Replayed, replay, replay_complete};
pub use writing::{write_trace, write_trace_to};

mod agenda;
mod fault;
mod look;
mod progress;
mod remaining;
mod replaying;
mod runner;
mod verdict;
mod writing;
