/// The basic messages of a channel, or its control messages.
#[derive(Clone, Copy, PartialEq, Eq)]
pub struct Stream {
    pub channel: u32,
    pub is_control: bool,
}

/// What a process did.
#[derive(Clone, Copy, PartialEq, Eq)]
pub enum Step {
    /// It sent a message: `send`, or `tell` on a control stream.
    Out(Stream),
    /// It got a message: `receive`, or `hear` on a control stream.
    In(Stream),
    Passive,
    /// As the first row of a process: it begins active.
    Active,
    /// It says that the computation is over.
    Over,
}

/// A row of a log.
#[derive(Clone, Copy, PartialEq, Eq)]
pub struct LogRow {
    pub process: u32,
    pub step: Step,
}
