//! One answer on every path: what a call of the library writes of a game is what a command reports of it.
#![tactic(auto)]

pub mod laws;
