//! The program's work, and what people see of it: it opens files, calls the commands, and writes progress and the
//! meaning of a fault to standard error.
//!
//! Most of it is tested on the program.
#![tactic(auto)]

pub use console::{Console, Opened, Opener, Reader};
pub use program::respond;

mod commands;
mod console;
mod program;
mod progress;
mod terminal;
mod threads;
mod written;
