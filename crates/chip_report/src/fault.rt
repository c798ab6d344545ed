use std::alloc::{AllocError, AllocFailed};
use thiserror::Error;

/// Why bytes were not read as a report.
#[derive(Clone, Copy, Debug, PartialEq, Eq, Error)]
pub enum ReportFault {
    /// The bytes are the report of no outcome.
    #[error("the bytes are no report")]
    NotReport,
    #[error("out of memory")]
    NoMemory,
}

impl ReportFault {
    ghost use Rattle.std.specs.Prelude.{◌≡◌};
    ghost use Rattle.chip_report.specs.FaultNumbers.{report_fault_number};

    /// The number of this fault in the table of faults.
    pub fn number(&self) -> u64
        ensures { result ≡ report_fault_number self.now }
    {
        match self {
            ReportFault::NotReport => 50,
            ReportFault::NoMemory => 90,
        }
    }
}

impl From<AllocError> for ReportFault {
    ghost use Rattle.std.specs.Prelude.{◌≡◌};
    ghost use Rattle.chip_report.specs.declared.fault.ReportFault.TheVariants.{NoMemory};

    ghost from_gives = { λ _ fault. fault ≡ NoMemory };

    fn from(_error: AllocError) -> ReportFault {
        ReportFault::NoMemory
    }
}

impl<T: Drop> From<AllocFailed<T>> for ReportFault {
    ghost use Rattle.std.specs.Prelude.{◌≡◌};
    ghost use Rattle.chip_report.specs.declared.fault.ReportFault.TheVariants.{NoMemory};

    ghost from_gives = { λ _ fault. fault ≡ NoMemory };

    fn from(_error: AllocFailed<T>) -> ReportFault {
        ReportFault::NoMemory
    }
}
