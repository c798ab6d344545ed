//! The parts of a running machine: the rules of each event, its effect on the part that makes it, and the order of a
//! turn. Actors and memory are in the crates above.
//!
//! `docs/CORE.md` has the table of events and the turn in words. `specs/` has the definitions: the setting of a game
//! (`Setting`), the edges with the root's among them (`Edges`), the part of the core that one vertex, the root or the
//! stopper keeps (`Part`), the rules of an event in their order (`Rules`), the effect of an event on the part that
//! makes it (`Steps`), its operation (`Acting`), the order of a turn (`Turn`), and what is left of a turn at a cursor
//! (`Cursor`).
#![tactic(auto)]

mod act;
mod cause;
mod cursor;
pub mod laws;
mod reply;
mod rule;
mod setting;

pub use act::{Act, Observed};
pub use cause::{Cause, is_by_limit};
pub use cursor::Cursor;
pub use reply::Reply;
pub use rule::{Rule, first_unmet};
pub use setting::Setting;
