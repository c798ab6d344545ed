//! Chip-firing by itself: firings, firing sequences and their laws, configurations by counts, and outcomes.
//!
//! Nothing here plays a game. The laws are about every firing sequence, and about counts that every whole play must
//! reach. A player proves its outcome from them, for every order and initial guess.
#![tactic(auto)]

pub use bound::{enough, enough_by_distance, in_degree};
pub use counted::{AfterFault, after, after_from, after_into};
pub use firing::{NotLegal, fire, fire_batch};
pub use outcome::Outcome;
pub use resumed::{MAX_PRIOR, ResumeFault, Resumed};

pub mod bound;
pub mod counted;
pub mod firing;
pub mod laws;
pub mod outcome;
pub mod resumed;
