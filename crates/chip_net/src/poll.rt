//! What the root reports: the result of a poll, and why it did not feed.

use thiserror::Error;

/// The result of a poll.
#[derive(Clone, Copy, PartialEq, Eq)]
pub enum RootState {
    /// Feeding has ended, and every message of the root is acknowledged: the game is over.
    Closed,
    /// The number of the root's unacknowledged messages; 0 only if more chips may be fed.
    Running(u64),
}

/// Why nothing was fed.
#[derive(Clone, Copy, Debug, PartialEq, Eq, Error)]
pub enum FeedFault {
    /// The end of feeding is noted, or the net was opened without feeding.
    #[error("the end of feeding is noted")]
    Ended,
    /// More than 2^40 chips would have been given.
    #[error("more than 1099511627776 chips would have been given")]
    Total,
    /// The ring to the vertex is full of messages not yet taken.
    #[error("the next cell of the ring to the vertex is full")]
    Full,
}

impl FeedFault {
    ghost use Rattle.std.specs.Prelude.{◌≡◌};
    ghost use Rattle.chip_net.specs.Roots.{feed_number};

    /// The fault's number.
    pub fn number(&self) -> u64
        ensures { result ≡ feed_number self.now }
    {
        match self {
            FeedFault::Ended => 44,
            FeedFault::Total => 10,
            FeedFault::Full => 45,
        }
    }
}
