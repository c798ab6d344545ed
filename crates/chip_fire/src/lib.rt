//! The plain player of chip-firing games, its steps, going on with a play that was stopped, and chips dropped one after
//! another on a game that has ended.
#![tactic(auto)]

pub use avalanche::{Avalanche, Measured};
pub use chip_guess::Search;
pub use chip_sequence::{
    AfterFault, NotLegal, Outcome, ResumeFault, Resumed, after, after_into, enough, fire,
};
pub use course::Course;
pub use pile::{BegunDrop, Lent, Pile};
pub use play::Play;
pub use player::{plain, plain_given, plain_watched};
pub use rounds::make_rounds;
pub use stage::{resume, resume_watched};
pub use watch::{GivenUse, Unwatched, Watch};
pub use work_list::{Listing, is_legal};

mod advance;
mod avalanche;
mod burning;
mod certificate;
pub mod course;
mod durations;
mod given;
pub mod laws;
pub mod pile;
mod play;
pub mod player;
mod rounds;
mod soon;
pub mod stage;
mod tuning;
pub mod watch;
mod work_list;
