//! Why arguments are refused.

use std::alloc::AllocError;
use thiserror::Error;

/// Why arguments ask for nothing.
#[derive(Debug, Drop, Error)]
pub enum ArgumentsFault {
    /// They are not as the help says. The text is the message of the command-line library, or empty.
    #[error("the arguments are not as `--help` says")]
    Usage(String),
    /// Memory for them ran out.
    #[error("there is no memory for the arguments")]
    NoMemory,
}

impl From<AllocError> for ArgumentsFault {
    fn from(_error: AllocError) -> ArgumentsFault {
        ArgumentsFault::NoMemory
    }
}
