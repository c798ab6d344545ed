use std::alloc::AllocError;
use thiserror::Error;

/// Why a world gives no outcome.
#[derive(Clone, Copy, Debug, PartialEq, Eq, Error)]
pub enum WorldFault {
    /// The root is not closed: something may still happen.
    #[error("the root is not closed")]
    NotClosed = 42,
    #[error("out of memory")]
    NoMemory = 90,
}

impl WorldFault {
    ghost use Rattle.std.specs.Prelude.{◌≡◌};

    /// The fault's number in the program's table of faults.
    pub fn number(&self) -> u64
        ensures not_closed { self.now ≡ WorldFault.NotClosed → result ≡ 42 }
        ensures no_memory { self.now ≡ WorldFault.NoMemory → result ≡ 90 }
    {
        *self as u64
    }
}

impl From<AllocError> for WorldFault {
    ghost use Rattle.std.specs.Prelude.{◌≡◌};
    ghost use Rattle.chip_world.specs.declared.fault.WorldFault.TheVariants.{NoMemory};

    ghost from_gives = { λ _ fault. fault ≡ NoMemory };

    fn from(_error: AllocError) -> WorldFault {
        WorldFault::NoMemory
    }
}
