use chip_graph::GameFault;
use chip_net::Root;
use std::alloc::AllocError;

/// Why a crew didn't finish: the first of these that applies.
#[derive(Drop)]
pub enum CrewFault {
    /// A number of the plan is out of its range, the edge to seal is not in the graph, or a feed has no chips or a
    /// vertex that is not in the graph.
    Plan,
    /// The chips of the start and of all feeds are more than `MAX_TOTAL`.
    Total,
    /// Memory ran out before a worker was started.
    NoMemory,
    /// A thread could not be started. The started ones have ended.
    Spawn,
    /// A gate returned false.
    GateShut,
    /// Two actors of this vertex were gathered. Never returned, since a crew has one actor of each vertex.
    Doubled(u64),
    /// No actor of this vertex was gathered. Never returned, for the same reason.
    Lost(u64),
    /// All turns were made and the root isn't closed. Feeds not made by then are dropped.
    Unfinished {
        /// The number of its unacknowledged messages at the last poll: 1 or more, or 0 if some feeds were dropped.
        deficit: u64,
        /// The root.
        root: Root,
    },
}

impl CrewFault {
    ghost use Rattle.std.specs.Prelude.{◌≡◌};
    ghost use Rattle.chip_crew.specs.FaultNumbers.{crew_fault_number};

    /// The fault's number.
    pub fn number(&self) -> u64
        ensures { result ≡ crew_fault_number self.now }
    {
        match self {
            CrewFault::Plan => 60,
            CrewFault::Total => GameFault::Total.number(),
            CrewFault::NoMemory => 90,
            CrewFault::Spawn => 65,
            CrewFault::GateShut => 62,
            CrewFault::Doubled(_) => 64,
            CrewFault::Lost(_) => 63,
            CrewFault::Unfinished { .. } => 61,
        }
    }
}

impl From<AllocError> for CrewFault {
    ghost use Rattle.std.specs.Prelude.{◌≡◌};
    ghost use Rattle.chip_crew.specs.declared.fault.CrewFault.TheVariants.{NoMemory};

    ghost from_gives = { λ _ fault. fault ≡ NoMemory };

    fn from(_: AllocError) -> CrewFault {
        CrewFault::NoMemory
    }
}
