//! Examples for callers of chipfire's libraries: each function is what a caller writes, and its contract says in the
//! caller's terms what it guarantees (`specs/Answers.antt`).
#![tactic(auto)]

pub mod games;
pub mod machines;
pub mod texts;
