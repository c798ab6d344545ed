ghost use Rattle.std.specs.Prelude.{◌≡◌};
ghost use Rattle.chip_part.specs.Rules.{first_unmet};

/// Why an event may not be made: the unmet rule, named by what holds instead. `number` returns these numbers.
#[derive(Clone, Copy, PartialEq, Eq)]
pub enum Rule {
    /// There is no such vertex or edge.
    NoSuch = 1,
    /// The vertex is the sink.
    Sink = 2,
    /// The vertex is halted; for an edge, its tail is.
    Halted = 3,
    /// Something is pending on an edge out of the vertex, or claimed and not put.
    Pending = 4,
    /// The number of firings is 0.
    Zero = 5,
    /// It would fire more often than the game allows.
    Limit = 6,
    /// It has too few chips for these firings.
    NotLegal = 7,
    /// Nothing is pending on the edge.
    NothingPending = 8,
    /// A claim of the edge was refused.
    Refused = 9,
    /// Something is claimed and not put.
    Unput = 10,
    /// The next cell of the edge was not seen empty.
    NotCleared = 11,
    /// No message is claimed on the edge and not put.
    NotClaimed = 12,
    /// There is no cause to halt.
    NoCause = 13,
    /// Nothing is owed on the edge.
    NothingOwed = 14,
    /// All that is owed on the edge has to wait, since the vertex is engaged by it.
    Engaged = 15,
    /// The root isn't closed.
    NotClosed = 16,
    /// The end of feeding is noted.
    Ended = 17,
    /// With these chips, more than `MAX_TOTAL` would have been fed.
    TooMuch = 18,
}

impl Rule {
    ghost use Rattle.chip_part.specs.Numbers.{rule_number};

    /// The rule's number in outputs, 1 to 18.
    pub fn number(self) -> u8
        ensures { result ≡ rule_number self }
    {
        self as u8
    }
}

/// The first unmet one of some rules, each with whether it is met.
pub fn first_unmet(rules: &[(bool, Rule)]) -> Option<Rule>
    ensures { result ≡ first_unmet rules.now }
{
    for &(is_met, rule) in rules {
        if !is_met {
            return Some(rule);
        }
    }
    None
}
