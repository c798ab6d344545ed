//! The engines of chipfire: each is a command, from the bytes that it reads to the bytes that it writes.
//!
//! An engine takes readers and a writer. Its contract (`specs/`) relates what the readers hold to what the writer gets.
//! It opens no file and knows no command line. Its errors are the `Fault`s of `chip_command`.
#![tactic(auto)]

pub use avalanches::{avalanches_engine, avalanches_engine_with};
pub use check::{check_engine, check_engine_with};
pub use chip_command::PlayOptions;
pub use chip_log::{ClaimWatch, Waits};
pub use drop_rows::write_rows;
pub use explain::explain_engine;
pub use judge::{JudgeOptions, judge_engine_with};
pub use plain::{plain_engine, plain_engine_with, plain_guess_engine_with};
pub use recurrent::{identity_engine, recurrent_engine};
pub use replay::{ReplayOptions, replay_engine, replay_engine_with};
pub use resume::{resume_engine, resume_engine_with};
pub use simulate::{SimulateOptions, simulate_engine, simulate_engine_with};
pub use verify::{verify_engine, verify_engine_with};

mod avalanches;
mod board;
mod check;
pub mod drop_rows;
mod explain;
mod guess;
mod judge;
pub mod laws;
mod lines;
mod plain;
mod recurrent;
mod replay;
mod resume;
mod simulate;
mod verify;
