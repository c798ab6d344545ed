use crate::verdict::Verdict;

/// How many rows a process has in the past of a claim.
#[derive(Clone, Copy, PartialEq, Eq)]
pub struct PastRows {
    pub process: u32,
    pub rows: u32,
}

/// A claim, and whether it is right.
#[derive(Drop)]
pub struct ClaimVerdict {
    pub process: u32,
    /// The place of the claim among the rows of its process, from 0.
    pub row: u64,
    pub verdict: Verdict,
    /// The rows of each process in the causal past of an early claim, by process, if asked for. A process without a row
    /// there is left out.
    pub past: Vec<PastRows>,
}

/// How a log ends.
#[derive(Clone, Copy, PartialEq, Eq)]
pub enum LogEnd {
    /// A claim is right.
    Claimed,
    /// No claim is right, though after all rows the log is quiescent and each control message is got.
    Missed,
    /// No claim is right. The log is quiescent, but a control message is not got: the log may end too soon.
    Unclaimed,
    /// No claim is right, and after all rows this message is in transit. Messages of a channel count from 0.
    OnItsWay { channel: u32, message: u64 },
    /// No claim is right. After all rows no message is in transit, and this process is active.
    Active { process: u32 },
}

/// The verdicts on all claims of a log, by process and row, and its end.
#[derive(Drop)]
pub struct JudgedLog {
    pub claims: Vec<ClaimVerdict>,
    pub end: LogEnd,
}
