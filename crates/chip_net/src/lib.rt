//! The running net: actors on threads of their own, over one table of shared words.
//!
//! `Net::of` returns a net and its tokens: an actor for each vertex, the root, and a stopper if the net is stoppable.
//! Each token may move to a thread of its own; none of their calls waits or allocates. Between any two steps of any
//! threads the rule of the table holds (`specs/Rule.antt`): some legal log of the core leaves exactly these words and
//! has exactly the steps of the tokens. `specs/Layout.antt` defines the place of each word, `specs/Tokens.antt` and
//! `specs/Roots.antt` what a token knows.
#![tactic(auto)]

mod actor;
pub mod laws;
mod layout;
mod net;
mod net_words;
mod open;
mod poll;
mod readings;
mod receipt;
mod root;
mod root_actor;
mod rule;
mod stopper;
mod trace;
mod views;

pub use actor::{Actor, Turn};
pub use net::Net;
pub use open::Opened;
pub use poll::{FeedFault, RootState};
pub use receipt::Receipt;
pub use root::Root;
pub use stopper::{NoEdge, SealedAt, Stopper};
