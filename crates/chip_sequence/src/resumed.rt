use crate::outcome::Outcome;
use chip_graph::GameFault;
use std::alloc::{AllocError, Global};
use thiserror::Error;

/// The most firings of a vertex before a stage: 2^60.
pub const MAX_PRIOR: u64 = 1 << 60;

/// The outcome of a stage, and how often each vertex fired in the stages before it.
#[derive(Drop)]
pub struct Resumed {
    /// The last stage's own outcome.
    pub outcome: Outcome,
    /// A number for each vertex, 0 to `MAX_PRIOR`.
    pub prior: Vec<u64>,
}

impl Resumed {
    ghost use Rattle.std.specs.Prelude.{◌≡◌, IfOk, length, replicate};
    ghost use Rattle.chip_sequence.specs.Outcomes.{IsOutcome};
    ghost use Rattle.chip_sequence.specs.Stages.{IsResumed};

    /// A first stage: nothing was fired before it.
    pub fn first(alloc: Global, outcome: Outcome) -> Result<Resumed, AllocError>
        requires { IsOutcome outcome }
        ensures outcome { IfOk result (λ resumed. resumed.outcome ≡ outcome) }
        ensures prior { IfOk result (λ resumed. resumed.prior.items ≡ replicate (length outcome.fired.items) 0) }
        ensures in_range { IfOk result IsResumed }
    {
        let prior = vec![in alloc; 0; outcome.fired.len()]?;
        Ok(Resumed { outcome, prior })
    }
}

/// Why a play does not go on: the first of these that applies.
#[derive(Clone, Copy, Debug, PartialEq, Eq, Error)]
pub enum ResumeFault {
    /// The earlier stage was on a graph with another number of vertices.
    #[error("the earlier play has another number of vertices")]
    Mismatch,
    /// The earlier stage left more than 1,099,511,627,776 chips.
    #[error("there are more than 1099511627776 chips")]
    Total,
    /// The firing limit is above 1,099,511,627,776.
    #[error("the firing limit is above 1099511627776")]
    Limit,
    /// This vertex, the least such one, fired more than 1,152,921,504,606,846,976 times in all.
    #[error("vertex {0} fired more than 1152921504606846976 times before")]
    Prior(u64),
    /// Memory ran out.
    #[error("out of memory")]
    NoMemory,
}

impl ResumeFault {
    ghost use Rattle.std.specs.Prelude.{◌≡◌};
    ghost use Rattle.chip_sequence.specs.Faults.{resume_fault_number, resume_fault_place};

    /// The fault's number in the table of faults.
    pub fn number(&self) -> u64
        ensures { result ≡ resume_fault_number self.now }
    {
        match self {
            ResumeFault::Mismatch => 52,
            ResumeFault::Total => GameFault::Total.number(),
            ResumeFault::Limit => GameFault::Limit.number(),
            ResumeFault::Prior(_) => 51,
            ResumeFault::NoMemory => 90,
        }
    }

    /// The vertex of the fault, if it has one.
    pub fn place(&self) -> Option<u64>
        ensures { result ≡ resume_fault_place self.now }
    {
        match self {
            ResumeFault::Prior(vertex) => Some(*vertex),
            _ => None,
        }
    }
}

impl From<AllocError> for ResumeFault {
    ghost use Rattle.std.specs.Prelude.{◌≡◌};
    ghost use Rattle.chip_sequence.specs.declared.resumed.ResumeFault.TheVariants.{NoMemory};

    ghost from_gives = { λ _ fault. fault ≡ NoMemory };

    fn from(_error: AllocError) -> ResumeFault {
        ResumeFault::NoMemory
    }
}

impl From<GameFault> for ResumeFault {
    ghost use Rattle.std.specs.Prelude.{◌≡◌};
    ghost use Rattle.chip_sequence.specs.Resume.{resume_fault};

    ghost from_gives = { λ game fault. fault ≡ resume_fault game };

    fn from(fault: GameFault) -> ResumeFault {
        match fault {
            GameFault::StartLength => ResumeFault::Mismatch,
            GameFault::Total => ResumeFault::Total,
            GameFault::Limit => ResumeFault::Limit,
        }
    }
}
