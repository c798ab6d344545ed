//! Flooding, as an example of a computation with a detector: it marks every process that can be reached from the root,
//! and the root learns from its own books when it is done.
#![tactic(auto)]

pub use flooding::Flood;
pub use process::Topology;
pub use run::Run;

mod flooding;
mod process;
mod run;
