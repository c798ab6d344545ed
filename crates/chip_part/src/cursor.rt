ghost use Rattle.std.specs.Prelude.{◌≡◌};

/// A position in a turn: the next step. A place is an index in the list of the edges that it visits, from 0.
#[derive(Clone, Copy)]
pub enum Cursor {
    /// Take from the edges into the vertex, from this place on.
    Take(usize),
    /// Settle the edges out of it, from this place on.
    Settle(usize),
    /// Fire, if it may.
    Fire,
    /// Put what was claimed before, on the edges out of it from this place on.
    Put(usize),
    /// Halt if a claim was refused before, else send.
    Refusal,
    /// Send on the edges out of it, from this place on.
    Send(usize),
    /// Claim the edge at this place, if its cell was found empty.
    Claim(usize),
    /// Put what was claimed on the edge at this place, or halt if the claim was refused.
    Store(usize),
    /// Halt by the firing limit, if it may.
    Limit,
    /// Acknowledge on the edges into it, from this place on.
    Ack(usize),
    /// Acknowledge on the parent edge once more.
    Parent,
    /// Nothing: the turn is over.
    Over,
}

impl Cursor {
    ghost use Rattle.chip_part.specs.Cursor.{Begins};

    /// The start of a turn.
    pub fn start() -> Cursor
        ensures first { result ≡ Cursor.Take 0 }
        ensures begins { Begins result }
    {
        Cursor::Take(0)
    }
}
