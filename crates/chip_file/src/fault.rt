use chip_graph::{GameFault, GraphFault};
use std::alloc::{AllocError, AllocFailed};
use thiserror::Error;

/// Why a file was not read: the first reason in the order of its reader. Each message states one.
#[derive(Clone, Copy, Debug, PartialEq, Eq, Error)]
pub enum FileFault {
    /// The bytes are no UTF-8, or no JSON.
    #[error("the text is no JSON")]
    NotJson,
    /// The JSON is not an object of the four members of a graph.
    #[error("the JSON has not the shape of a graph")]
    Shape,
    #[error("the version is not 1")]
    Version,
    /// The rows are no graph. Want of memory is never reported here: it is a fault of its own.
    #[error("{0}")]
    Graph(GraphFault),
    /// The first record is not the header, or there is none.
    #[error("the first record is not the header")]
    Header,
    #[error("row {0} has another number of fields than the header")]
    Row(u64),
    #[error("a field of row {0} is no number")]
    Number(u64),
    #[error("row {0} names no vertex")]
    Vertex(u64),
    #[error("row {0} names a vertex again")]
    Repeated(u64),
    #[error("row {0} has no such kind")]
    Kind(u64),
    #[error("row {0} is at an end of a stream that another process has")]
    End(u64),
    #[error("row {0} sends while its process is passive")]
    Passive(u64),
    #[error("row {0} begins active, and is not the first of its process")]
    Woken(u64),
    #[error("there are more than 1099511627776 chips")]
    Total,
    #[error("a read failed")]
    Read,
    #[error("there are more bytes than the limits allow")]
    TooLong,
    #[error("out of memory")]
    NoMemory,
}

impl FileFault {
    ghost use Rattle.std.specs.Prelude.{◌≡◌};
    ghost use Rattle.chip_file.specs.FaultNumbers.{file_fault_number, file_fault_place};

    /// The number of this fault in the table of faults.
    pub fn number(&self) -> u64
        ensures { result ≡ file_fault_number self.now }
    {
        match self {
            FileFault::Graph(fault) => fault.number(),
            FileFault::Total => GameFault::Total.number(),
            FileFault::NotJson => 20,
            FileFault::Shape => 21,
            FileFault::Version => 22,
            FileFault::Header => 23,
            FileFault::Row(_) => 24,
            FileFault::Number(_) => 25,
            FileFault::Vertex(_) => 26,
            FileFault::Repeated(_) => 27,
            FileFault::Kind(_) => 28,
            FileFault::Read => 29,
            FileFault::TooLong => 30,
            FileFault::End(_) => 31,
            FileFault::Passive(_) => 32,
            FileFault::Woken(_) => 33,
            FileFault::NoMemory => 90,
        }
    }

    /// The row, edge or vertex that it names, if any.
    pub fn place(&self) -> Option<u64>
        ensures { result ≡ file_fault_place self.now }
    {
        match self {
            FileFault::Graph(fault) => fault.place(),
            FileFault::Row(row)
            | FileFault::Number(row)
            | FileFault::Vertex(row)
            | FileFault::Repeated(row)
            | FileFault::Kind(row)
            | FileFault::End(row)
            | FileFault::Passive(row)
            | FileFault::Woken(row) => Some(*row),
            _ => None,
        }
    }
}

impl From<AllocError> for FileFault {
    ghost use Rattle.std.specs.Prelude.{◌≡◌};
    ghost use Rattle.chip_file.specs.declared.fault.FileFault.TheVariants.{NoMemory};

    ghost from_gives = { λ _ fault. fault ≡ NoMemory };

    fn from(_error: AllocError) -> FileFault {
        FileFault::NoMemory
    }
}

impl<T: Drop> From<AllocFailed<T>> for FileFault {
    ghost use Rattle.std.specs.Prelude.{◌≡◌};
    ghost use Rattle.chip_file.specs.declared.fault.FileFault.TheVariants.{NoMemory};

    ghost from_gives = { λ _ fault. fault ≡ NoMemory };

    fn from(_error: AllocFailed<T>) -> FileFault {
        FileFault::NoMemory
    }
}

impl From<GraphFault> for FileFault {
    ghost use Rattle.std.specs.Prelude.{◌≡◌};
    ghost use Rattle.chip_file.specs.GraphFaults.{of_graph_fault};

    ghost from_gives = { λ graph_fault fault. fault ≡ of_graph_fault graph_fault };

    fn from(fault: GraphFault) -> FileFault {
        match fault {
            GraphFault::NoMemory => FileFault::NoMemory,
            fault => FileFault::Graph(fault),
        }
    }
}
