use std::alloc::{AllocError, AllocFailed};
use thiserror::Error;

/// Why recorded runs have no interleaving.
#[derive(Clone, Copy, Debug, PartialEq, Eq, Error)]
pub enum ReplayFault {
    /// After maximal progress this is the least vertex whose next row is wrong, or the least with a row left if none is
    /// wrong.
    #[error("vertex {vertex} is stuck at its row {row}")]
    Stuck {
        vertex: u64,
        /// The place of the row in its trace, from 0.
        row: u64,
    },
    #[error("out of memory")]
    NoMemory,
}

impl ReplayFault {
    ghost use Rattle.std.specs.Prelude.{◌≡◌};
    ghost use Rattle.chip_trace.specs.FaultNumbers.{replay_fault_number};

    /// The number of this fault in the table of faults.
    pub fn number(&self) -> u64
        ensures { result ≡ replay_fault_number self.now }
    {
        match self {
            ReplayFault::Stuck { .. } => 70,
            ReplayFault::NoMemory => 90,
        }
    }
}

impl From<AllocError> for ReplayFault {
    ghost use Rattle.std.specs.Prelude.{◌≡◌};
    ghost use Rattle.chip_trace.specs.declared.fault.ReplayFault.TheVariants.{NoMemory};

    ghost from_gives = { λ _ fault. fault ≡ NoMemory };

    fn from(_error: AllocError) -> ReplayFault {
        ReplayFault::NoMemory
    }
}

impl<T: Drop> From<AllocFailed<T>> for ReplayFault {
    ghost use Rattle.std.specs.Prelude.{◌≡◌};
    ghost use Rattle.chip_trace.specs.declared.fault.ReplayFault.TheVariants.{NoMemory};

    ghost from_gives = { λ _ fault. fault ≡ NoMemory };

    fn from(_error: AllocFailed<T>) -> ReplayFault {
        ReplayFault::NoMemory
    }
}

/// Why recorded runs were not written.
#[derive(Clone, Copy, Debug, PartialEq, Eq, Error)]
pub enum TraceFault {
    /// A write failed. The first bytes of the text may have been written before, but not all of them.
    #[error("a write failed")]
    Write,
    #[error("out of memory")]
    NoMemory,
}

impl TraceFault {
    ghost use Rattle.std.specs.Prelude.{◌≡◌};
    ghost use Rattle.chip_trace.specs.FaultNumbers.{trace_fault_number};

    /// The number of this fault in the table of faults.
    pub fn number(&self) -> u64
        ensures { result ≡ trace_fault_number self.now }
    {
        match self {
            TraceFault::Write => 93,
            TraceFault::NoMemory => 90,
        }
    }
}

impl From<AllocError> for TraceFault {
    ghost use Rattle.std.specs.Prelude.{◌≡◌};
    ghost use Rattle.chip_trace.specs.declared.fault.TraceFault.TheVariants.{NoMemory};

    ghost from_gives = { λ _ fault. fault ≡ NoMemory };

    fn from(_error: AllocError) -> TraceFault {
        TraceFault::NoMemory
    }
}
