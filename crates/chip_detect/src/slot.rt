/// The place of an edge among the ascending edges on one side of a vertex.
#[derive(Clone, Copy)]
pub struct Slot {
    /// The index of the edge among them, from 0.
    pub index: usize,
    /// The number of the edge.
    pub edge: u64,
}
