//! A pile that C keeps from one call to the next: the only memory of the library that outlives a call.
#![tactic(auto)]

pub use calls::{
    bytes_of, chips_of, draw_on, drop_on, drops_on, fired_of, make, measure_on, play_on, put,
    release,
};
pub use handle::Handle;
pub use loose::Loose;
pub use raw::Raw;

mod calls;
mod handle;
mod loose;
mod raw;
