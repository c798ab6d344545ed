use std::alloc::AllocError;

/// Why the rows of a log were not put in an order in which each is enabled.
#[derive(Clone, Copy, PartialEq, Eq)]
pub enum OrderFault {
    /// There is no such order. This is the least process with a row left after maximal progress; that row gets a
    /// message that is not there.
    Stuck {
        process: u32,
        /// The place of the row among those of its process, from 0.
        row: u64,
    },
    NoMemory,
}

impl From<AllocError> for OrderFault {
    ghost use Rattle.std.specs.Prelude.{◌≡◌};
    ghost use Rattle.chip_log.specs.declared.fault.OrderFault.TheVariants.{NoMemory};

    ghost from_gives = { λ _ fault. fault ≡ NoMemory };

    fn from(_error: AllocError) -> OrderFault {
        OrderFault::NoMemory
    }
}
