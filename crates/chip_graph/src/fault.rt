use std::alloc::{AllocError, AllocFailed};
use thiserror::Error;

/// Why rows of edges are no graph: the first of these that applies.
#[derive(Clone, Copy, Debug, PartialEq, Eq, Error)]
pub enum GraphFault {
    /// There are no vertices, or more than the limits allow.
    #[error("there are no vertices, or too many")]
    Vertices,
    /// The sink is no vertex.
    #[error("the sink is no vertex")]
    Sink,
    /// There are more edges than the limits allow.
    #[error("there are too many edges")]
    EdgeCount,
    /// An end of this edge is no vertex.
    #[error("edge {0} has an end that is no vertex")]
    Endpoint(u64),
    /// This edge sends no chips, or more than 1,048,576.
    #[error("edge {0} must send 1 to 1048576 chips")]
    Mult(u64),
    /// This edge leads back to its tail.
    #[error("edge {0} is a loop")]
    Loop(u64),
    /// This edge leaves the sink.
    #[error("edge {0} leaves the sink")]
    FromSink(u64),
    /// This vertex, the least such one, has no walk to the sink.
    #[error("no walk leads from vertex {0} to the sink")]
    Unreached(u64),
    /// Memory ran out.
    #[error("out of memory")]
    NoMemory,
}

impl GraphFault {
    ghost use Rattle.std.specs.Prelude.{◌≡◌};
    ghost use Rattle.chip_graph.specs.FaultNumbers.{graph_fault_number, graph_fault_place};

    /// The fault's number in the table of faults.
    pub fn number(&self) -> u64
        ensures { result ≡ graph_fault_number self.now }
    {
        match self {
            GraphFault::Vertices => 1,
            GraphFault::Sink => 2,
            GraphFault::EdgeCount => 3,
            GraphFault::Endpoint(_) => 4,
            GraphFault::Mult(_) => 5,
            GraphFault::Loop(_) => 6,
            GraphFault::FromSink(_) => 7,
            GraphFault::Unreached(_) => 8,
            GraphFault::NoMemory => 90,
        }
    }

    /// The edge or the vertex of the fault, if it has one.
    pub fn place(&self) -> Option<u64>
        ensures { result ≡ graph_fault_place self.now }
    {
        match self {
            GraphFault::Endpoint(edge)
            | GraphFault::Mult(edge)
            | GraphFault::Loop(edge)
            | GraphFault::FromSink(edge) => Some(*edge),
            GraphFault::Unreached(vertex) => Some(*vertex),
            _ => None,
        }
    }
}

impl<T: Drop> From<AllocFailed<T>> for GraphFault {
    ghost use Rattle.std.specs.Prelude.{◌≡◌};
    ghost use Rattle.chip_graph.specs.declared.fault.GraphFault.TheVariants.{NoMemory};

    ghost from_gives = { λ _ fault. fault ≡ NoMemory };

    fn from(_error: AllocFailed<T>) -> GraphFault {
        GraphFault::NoMemory
    }
}

impl From<AllocError> for GraphFault {
    ghost use Rattle.std.specs.Prelude.{◌≡◌};
    ghost use Rattle.chip_graph.specs.declared.fault.GraphFault.TheVariants.{NoMemory};

    ghost from_gives = { λ _ fault. fault ≡ NoMemory };

    fn from(_error: AllocError) -> GraphFault {
        GraphFault::NoMemory
    }
}

/// Why a graph, a start and a limit are no game: the first of these that applies.
#[derive(Clone, Copy, Debug, PartialEq, Eq, Error)]
pub enum GameFault {
    /// The start does not have one number for each vertex.
    #[error("the start must have one number for each vertex")]
    StartLength,
    /// There are more than 1,099,511,627,776 chips in all.
    #[error("there are more than 1099511627776 chips")]
    Total,
    /// The firing limit is above 1,099,511,627,776.
    #[error("the firing limit is above 1099511627776")]
    Limit,
}

impl GameFault {
    ghost use Rattle.std.specs.Prelude.{◌≡◌};
    ghost use Rattle.chip_graph.specs.FaultNumbers.{game_fault_number};

    /// The fault's number in the table of faults.
    pub fn number(&self) -> u64
        ensures { result ≡ game_fault_number self.now }
    {
        match self {
            GameFault::StartLength => 9,
            GameFault::Total => 10,
            GameFault::Limit => 11,
        }
    }
}
