ghost use Rattle.std.specs.Prelude.{◌≡◌};

use crate::reply::Reply;

/// One atomic operation of a vertex on one word of the machine. A `cell` is a place in the edge's ring, from 0.
#[derive(Clone, Copy)]
pub enum Act {
    /// Swap the cell with 0.
    Take { edge: u64, cell: u64 },
    /// Load the edge's word of acknowledgements.
    Settle { edge: u64 },
    /// Add `k` to the vertex's fired word.
    Fire { k: u64 },
    /// Load the cell.
    Clear { edge: u64, cell: u64 },
    /// Exchange the edge word for `new` if it is `expected`, in one try.
    Claim { edge: u64, expected: u64, new: u64 },
    /// Store `value` into the cell.
    Put { edge: u64, cell: u64, value: u64 },
    /// Set the bits of a halt in the vertex's fired word.
    Halt { by_limit: bool },
    /// Add `count` to the edge's word of acknowledgements.
    Ack { edge: u64, count: u64 },
    /// No operation: the turn is over.
    End,
}

/// An operation that was made, with the word that it found.
#[derive(Clone, Copy)]
pub struct Observed {
    pub act: Act,
    pub seen: u64,
}

impl Observed {
    ghost use Rattle.chip_part.specs.Counting.{is_work};

    /// Whether a step with this reply counts as work of a turn: it took a message, fired, sent, put, halted,
    /// acknowledged, or settled something new.
    pub fn counts(&self, reply: &Reply) -> bool
        ensures { result ≡ is_work self.now.act reply.now }
    {
        match self.act {
            Act::Take { .. } => matches!(reply, Reply::Got(_)),
            Act::Settle { .. } => match *reply {
                Reply::Done(more) => more > 0,
                _ => false,
            },
            Act::Claim { .. } => matches!(reply, Reply::Sent(_)),
            Act::Fire { .. } | Act::Put { .. } | Act::Halt { .. } | Act::Ack { .. } => true,
            Act::Clear { .. } | Act::End => false,
        }
    }
}
