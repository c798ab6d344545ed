//! A process's counters for the detection of termination, after Dijkstra and Scholten: the messages that it owes
//! acknowledgements for, the acknowledgements that it waits for, and the message that engaged it. `docs/DETECTOR.md`
//! explains the method.
#![tactic(auto)]

pub use detector::{Detect, may_ack_on_parent};
pub use slot::Slot;
pub use tallies::{EDGE_LIMIT, MESSAGE_LIMIT, Tally, add_answers_at, add_message_at, slot_of};

mod detector;
pub mod laws;
mod slot;
mod tallies;
