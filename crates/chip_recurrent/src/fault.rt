use std::alloc::{AllocError, AllocFailed};

/// Why a stabilization is not found. A place is the number of its row, or 0.
#[derive(Clone, Copy)]
pub enum RowFault {
    /// There are more than 2^40 chips off the sink.
    Total(u64),
    /// A vertex fires more than 2^40 times.
    Stopped(u64),
    /// Memory ran out.
    NoMemory,
}

impl From<AllocError> for RowFault {
    ghost use Rattle.std.specs.Prelude.{◌≡◌};
    ghost use Rattle.chip_recurrent.specs.declared.fault.RowFault.TheVariants.{NoMemory};

    ghost from_gives = { λ _ fault. fault ≡ NoMemory };

    fn from(_error: AllocError) -> RowFault {
        RowFault::NoMemory
    }
}

impl<T: Drop> From<AllocFailed<T>> for RowFault {
    ghost use Rattle.std.specs.Prelude.{◌≡◌};
    ghost use Rattle.chip_recurrent.specs.declared.fault.RowFault.TheVariants.{NoMemory};

    ghost from_gives = { λ _ fault. fault ≡ NoMemory };

    fn from(_error: AllocFailed<T>) -> RowFault {
        RowFault::NoMemory
    }
}
