//! Burning scripts, recurrent and superstable configurations, and the sandpile group's identity, by stabilizations.
//!
//! A graph goes from play to play, so none checks it again. Chips on the sink do not count, and results have
//! none there.
#![tactic(auto)]

pub use burning::{Burning, burning_script};
pub use classes::{Form, Represented, identity, representative_of, representatives};
pub use drawn::random_recurrents;
pub use fault::RowFault;
pub use recurrent::are_recurrent;
pub use rows::agree_off_sink;
pub use stabilization::{Stabilized, stabilized_sum};

mod burning;
mod classes;
mod drawn;
mod fault;
mod recurrent;
mod rows;
mod stabilization;
mod tree;
