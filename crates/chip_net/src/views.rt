//! What a seat knows. Values of these types never exist at run time: only proofs use them.

use chip_link::Step;
use std::collections::LinkedList;

/// A part and its steps, in order. Vertices have their own numbers; the root and the stopper follow them.
pub struct History {
    pub part: u64,
    pub did: LinkedList<Step>,
}

/// The parts of a seat.
pub struct View {
    pub parts: LinkedList<History>,
}
