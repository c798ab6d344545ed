//! Chip-firing by single calls on slices of numbers: what programs in other languages call (`chip_exports`).
//!
//! A call writes its slices, or returns the first fault and changes nothing, except where the limit stops a `KeptPile`.
#![tactic(auto)]

pub use chip_recurrent::Form;
pub use claims::{verify, verify_watched};
pub use drops::avalanches;
pub use edges::EdgeLists;
pub use fault::CallFault;
pub use group::{are_recurrent, burning, identity, random_recurrents, representatives};
pub use kept::KeptPile;
pub use stabilize::{stabilize_all, stabilize_all_watched};

mod claims;
pub mod detector;
mod drops;
pub mod edges;
mod fault;
mod game;
mod group;
mod kept;
pub mod laws;
mod measures;
mod stabilize;
pub mod sums;

/// The version of the library: 1,000,000 * major + 1,000 * minor + patch.
pub const VERSION: u64 = 13_001;
