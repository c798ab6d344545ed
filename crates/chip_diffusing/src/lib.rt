//! The theorem of Dijkstra and Scholten on the termination of diffusing computations, for every computation whose
//! processes keep the books of `chip_detect`.
//!
//! What `is_over` returns for the root's own books holds of the whole network. `laws` has the theorems on every
//! computation, as the contracts of functions that do nothing.
#![tactic(auto)]

pub use root::{acknowledge, is_over};

pub mod laws;
mod root;
