//! `run`: the report of a game that threads play.
//!
//! An engine like those of `chip_engine`, with their faults. It has its own crate, so that a change of one of those
//! need not read the running net.
#![tactic(auto)]

pub use running::{RunOptions, run_engine, run_engine_with};

mod feeding;
pub mod laws;
mod recording;
mod running;
