/// A message that was claimed or taken.
#[derive(Clone, Copy, PartialEq, Eq)]
pub struct Message {
    pub edge: u64,
    /// The number of messages sent on this edge before it.
    pub place: u64,
    /// The number of its chips, 1 or more.
    pub count: u64,
}
