//! What all commands share: the game of their files, their faults, and how they end.
//!
//! The line of a `Fault` has its number, its name and its place. Number and place are proved right
//! (`specs/FaultNumbers.antt`); what the tables say of faults and rules is tested.
#![tactic(auto)]

pub use answer::{Answer, deliver};
pub use ended::{Ended, conclude, status_of};
pub use fault::{Fault, FaultLine, Location};
pub use inputs::read_game;
pub use options::PlayOptions;
pub use rule_table::rules;
pub use status::Status;
pub use table::{Explanation, Place, explanations};

mod answer;
mod ended;
mod fault;
mod inputs;
pub mod laws;
mod options;
mod rule_table;
mod status;
mod table;
