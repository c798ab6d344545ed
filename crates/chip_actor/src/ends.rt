//! The ends of a vertex's edges, found by the number of an edge or by its place.

mod ins;
mod outs;
mod sending;

pub use ins::Ins;
pub use outs::{OutEnd, Outs};
