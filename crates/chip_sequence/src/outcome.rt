/// The outcome of a game (its stabilization): a number for each vertex in `fired` and `chips`, and the halted vertices.
#[derive(Drop)]
pub struct Outcome {
    /// How often each vertex fired (the odometer), 0 to the game's limit.
    pub fired: Vec<u64>,
    /// The chips of each vertex at the end, at most 2^40 in all.
    pub chips: Vec<u64>,
    /// The vertices that the limit halted while they were legal, ascending.
    pub over: Vec<u64>,
    /// The vertices that a seal halted, ascending.
    pub sealed: Vec<u64>,
}
