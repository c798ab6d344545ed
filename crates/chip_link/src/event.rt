/// An event of a net: one operation on one shared word, by one vertex, the root or the stopper.
#[derive(Clone, Copy, PartialEq, Eq)]
pub enum Event {
    /// The head of this edge takes the next message, if there is one.
    Take(u64),
    /// The head of this edge acknowledges all that it may.
    Ack(u64),
    /// The vertex fires `k` times in a row.
    Fire { vertex: u64, k: u64 },
    /// The tail of this edge reads whether the next cell is empty.
    Clear(u64),
    /// The tail of this edge claims the next place for what is pending on it.
    Claim(u64),
    /// The tail of this edge puts what it claimed into its cell.
    Put(u64),
    /// This vertex stops firing and sending for good.
    Halt(u64),
    /// The tail of this edge, or the root, notes the acknowledgements that came.
    Settle(u64),
    /// The stopper seals this edge.
    Seal(u64),
    /// The root reads how often this vertex fired, after the root closed.
    Read(u64),
    /// The root claims the next place of this root edge for `count` chips, which it feeds to the edge's head.
    Feed { edge: u64, count: u64 },
    /// The root settles its first edge, and notes the end of feeding.
    End,
}

/// An event that was made, with the word that its operation found, 0 for a store.
#[derive(Clone, Copy)]
pub struct Step {
    pub event: Event,
    pub seen: u64,
}
