//! Logs of a distributed program, and whether its claims "the computation is over" are right.
#![tactic(auto)]

pub use absent::first_absent;
pub use fault::OrderFault;
pub use first::first_early;
pub use judge::judge_log;
pub use judged::{ClaimVerdict, JudgedLog, LogEnd, PastRows};
pub use order::ordered;
pub use past::Sizes;
pub use row::{LogRow, Step, Stream};
pub use verdict::Verdict;
pub use waits::Waits;
pub use watch::{ClaimWatch, Unwatched};

mod absent;
mod agenda;
mod books;
mod claims;
pub mod cut;
mod fault;
mod first;
mod judge;
mod judged;
pub mod laws;
pub mod missing;
mod order;
mod past;
mod queues;
mod row;
mod tally;
mod verdict;
mod waits;
mod watch;
