//! One edge: its messages, the words that its two ends share, and the two ends themselves.
//!
//! An edge has a *word* (the number of claimed messages, and whether it is sealed) and a ring of *cells*, each 0 or the
//! number of chips of one message. The tail reads the next cell; once it is empty it claims a place by one
//! compare-and-exchange of the word, and puts the count into the cell. The head swaps its next cell with 0. A seal sets
//! the top bit of the word: every later claim is refused. `laws` states what follows, for every order of the steps.
#![tactic(auto)]

mod event;
mod head;
pub mod laws;
mod message;
mod ring;
mod tail;
mod trace;
mod words;

pub use event::{Event, Step};
pub use head::HeadLink;
pub use message::Message;
pub use ring::{MAX_RING, Ring};
pub use tail::TailLink;
pub use trace::TraceRow;
pub use words::{EdgeWord, FiredWord};
