//! The parts of a running machine. Of a vertex: its state, the events that it may make, and a whole turn of it over any
//! medium. Of the root: its messages, and its feeder if chips may be fed.
//!
//! The definitions are in `specs/`: what an actor keeps, and when it stands for a part of the core (`Actor`), where its
//! turn is (`Turning`), the medium that makes its operations (`Medium`), and the root (`Root`). The part itself, its
//! events and the order of a turn are those of `chip_part`.
#![tactic(auto)]

mod actor;
mod ends;
mod feeder;
mod medium;
mod root;

pub use actor::ActorState;
pub use chip_part::{Act, Cause, Cursor, Observed, Reply, Rule};
pub use medium::Medium;
pub use root::RootBooks;
