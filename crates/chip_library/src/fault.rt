use chip_graph::{GameFault, GraphFault};
use std::alloc::{AllocError, AllocFailed};

/// Why a call is refused.
#[derive(Clone, Copy, Debug, PartialEq, Eq)]
pub enum CallFault {
    /// A slice does not have the required length.
    Lengths,
    /// The edges make no graph.
    Graph(GraphFault),
    /// The chips and the limit make no game; the game's number.
    Game(GameFault, u64),
    /// The drop with this number is on no vertex.
    Vertex(u64),
    /// There are too many chips with this drop, or in a stabilization of this row.
    Total(u64),
    /// The limit stopped the play of this drop, or a stabilization of this row. 0 is also the game before all drops.
    Stopped(u64),
    /// The least vertex at which the claim and the outcome differ.
    Differs(u64),
    /// There is no pile.
    NoPile,
    /// Memory ran out.
    NoMemory,
}

impl CallFault {
    ghost use Rattle.std.specs.Prelude.{◌≡◌};
    ghost use Rattle.chip_library.specs.CallFaults.{call_fault_number, place_of};

    /// The number of this fault in the table of faults.
    pub fn number(&self) -> u64
        ensures { result ≡ call_fault_number self.now }
    {
        match self {
            CallFault::Lengths => 12,
            CallFault::Graph(fault) => fault.number(),
            CallFault::Game(fault, _) => fault.number(),
            CallFault::Vertex(_) => 26,
            CallFault::Total(_) => 10,
            CallFault::Stopped(_) => 13,
            CallFault::Differs(_) => 53,
            CallFault::NoPile => 14,
            CallFault::NoMemory => 90,
        }
    }

    /// The edge, vertex, game, drop or row of the fault, or 0.
    pub fn place(&self) -> u64
        ensures { result ≡ place_of self.now }
    {
        match self {
            CallFault::Graph(fault) => fault.place().unwrap_or(0),
            CallFault::Game(_, place)
            | CallFault::Vertex(place)
            | CallFault::Total(place)
            | CallFault::Stopped(place)
            | CallFault::Differs(place) => *place,
            CallFault::Lengths | CallFault::NoPile | CallFault::NoMemory => 0,
        }
    }
}

impl From<GraphFault> for CallFault {
    ghost use Rattle.std.specs.Prelude.{◌≡◌};
    ghost use Rattle.chip_library.specs.declared.fault.CallFault.TheVariants.{Graph};

    ghost from_gives = { λ fault call. call ≡ Graph fault };

    fn from(fault: GraphFault) -> CallFault {
        CallFault::Graph(fault)
    }
}

impl From<AllocError> for CallFault {
    ghost use Rattle.std.specs.Prelude.{◌≡◌};
    ghost use Rattle.chip_library.specs.declared.fault.CallFault.TheVariants.{NoMemory};

    ghost from_gives = { λ _ fault. fault ≡ NoMemory };

    fn from(_error: AllocError) -> CallFault {
        CallFault::NoMemory
    }
}

impl<T: Drop> From<AllocFailed<T>> for CallFault {
    ghost use Rattle.std.specs.Prelude.{◌≡◌};
    ghost use Rattle.chip_library.specs.declared.fault.CallFault.TheVariants.{NoMemory};

    ghost from_gives = { λ _ fault. fault ≡ NoMemory };

    fn from(_error: AllocFailed<T>) -> CallFault {
        CallFault::NoMemory
    }
}
