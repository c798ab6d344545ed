/// A row of a vertex's record of its own run, in order.
#[derive(Clone, Copy, PartialEq, Eq)]
pub enum TraceRow {
    /// It took a message of `count` chips from `edge`.
    Take { edge: u64, count: u64 },
    /// It fired `k` times in a row.
    Fire { k: u64 },
}
