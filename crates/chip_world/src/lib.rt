//! The whole core of the machine, run on one thread.
//!
//! A `World` is a game with an actor for each vertex, the words that the ends of its edges share, and the root's
//! counters. It makes one event per call, and each contract states the effect on the log of the core that it represents
//! (`specs/World.antt`).
#![tactic(auto)]

mod fault;
mod lanes;
pub mod laws;
mod turn_words;
mod words;
mod world;

pub use chip_part::Cause;
pub use fault::WorldFault;
pub use world::{Drive, Record, World};
