//! The arguments of the program: what they ask for, and the help.
//!
//! The crate depends on no engine. Its reading of arguments is tested on the program.
#![tactic(auto)]

pub use arguments::{
    AvalancheArguments, FileArgument, GameArguments, GraphArguments, JudgeArguments,
    PlainArguments, ReplayArguments, Request, RunArguments, SimulationArguments, VerifyArguments,
    parse,
};
pub use fault::ArgumentsFault;

mod arguments;
mod commands;
mod fault;
mod help_texts;
pub mod limits;
