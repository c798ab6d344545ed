//! Directed multigraphs with a global sink, and chip-firing games on them.
//!
//! A `Graph` is valid by its type: within the greatest limits, without loops, without edges out of the sink,
//! and every vertex reaches the sink. Contracts see it as its vertices, sink and edges
//! (`specs/Multigraph.antt`), and a `Game` as graph, start and limit (`specs/ChipGame.antt`).
#![tactic(auto)]

pub use edge::{AnyEdge, Edge, Link};
pub use fault::{GameFault, GraphFault};
pub use game::{Game, MAX_LIMIT, MAX_TOTAL, total_of};
pub use graph::{Graph, MAX_MULT};
pub use limits::{Limits, MAX_EDGES, MAX_TEXT, MAX_VERTICES};

mod distance;
pub mod edge;
pub mod fault;
pub mod game;
pub mod graph;
mod index;
pub mod laws;
pub mod limits;
mod packed_lists;
