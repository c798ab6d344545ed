//! The work of each worker of a running net. Workers share the net's actors by one bounded queue, or each has its own.
//!
//! The rule of the queue (`queue.rt`): this net opened every actor in it. A worker takes an actor, gives it a turn and
//! puts it back (`worker.rt`); if the actors are partitioned (`dealing.rt`) it gives each of its own a turn, round by
//! round. Its other duties (`duties.rt`) come before each turn and after each round: worker 0 leads (`leader.rt`), it
//! has the root, which it feeds (`feeding.rt`) and polls, and the stopper. Once all workers have ended (`joining.rt`)
//! there is a last poll (`ending.rt`), and the actors are gathered (`gathering.rt`).
#![tactic(auto)]

mod dealing;
mod duties;
mod ending;
mod fault;
mod feeding;
mod gathering;
mod joining;
mod leader;
mod plan;
mod play;
mod queue;
mod shared;
mod worker;

pub use fault::CrewFault;
pub use plan::{Gate, MAX_TRACE_ROWS, MAX_TURNS, MAX_WORKERS, Plan, SealAt, Sharing};
pub use play::{Finished, run, run_fed, run_with};
