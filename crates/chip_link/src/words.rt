ghost use Rattle.std.specs.Prelude.{◌≡◌, ◌^◌, ◌<◌, IsTrue, IfSome, is_some};
ghost use Rattle.chip_link.specs.Words.{edge_word, claims_in, is_sealed_in, fired_word, fired_in, is_halted_in};
ghost use Rattle.chip_link.specs.Words.{is_by_limit_in, is_fired_word, halt_bits};

/// The contents of an edge's word.
#[derive(Clone, Copy)]
pub struct EdgeWord {
    /// The number of messages claimed on the edge.
    pub claims: u64,
    /// Whether the edge is sealed: every later claim is refused.
    pub sealed: bool,
    pub ghost in_range: { claims < 2 ^ 63 },
}

impl EdgeWord {
    /// The bit that a seal sets in the word, by a `fetch_or`.
    pub const SEAL: u64 = 1 << 63;

    /// The word with these contents.
    pub fn to_word(self) -> u64
        ensures word { result ≡ edge_word self.claims self.sealed }
        ensures claims { claims_in result ≡ self.claims }
        ensures sealed { is_sealed_in result ≡ self.sealed }
    {
        if self.sealed {
            self.claims | Self::SEAL
        } else {
            self.claims
        }
    }

    /// The contents of a word. Every word is one of some edge.
    pub fn from_word(word: u64) -> EdgeWord
        ensures claims { result.claims ≡ claims_in word }
        ensures sealed { result.sealed ≡ is_sealed_in word }
        ensures word { edge_word result.claims result.sealed ≡ word }
    {
        EdgeWord {
            claims: word & !Self::SEAL,
            sealed: word & Self::SEAL != 0,
        }
    }
}

/// The contents of a vertex's word.
#[derive(Clone, Copy)]
pub struct FiredWord {
    /// The number of times the vertex fired.
    pub fired: u64,
    /// Whether it has stopped firing for good.
    pub halted: bool,
    /// Whether it halted by its firing limit. The other cause is a seal.
    pub by_limit: bool,
    pub ghost in_range: { fired < 2 ^ 62 },
    pub ghost has_cause: { IsTrue by_limit → IsTrue halted },
}

impl FiredWord {
    /// The bits that a halt after a refused claim sets in the word, by a `fetch_or`.
    pub const HALT: u64 = 1 << 63;

    /// The bits that a halt by the limit sets in the word, by a `fetch_or`.
    pub const HALT_BY_LIMIT: u64 = Self::HALT | Self::LIMIT;

    const LIMIT: u64 = 1 << 62;

    /// The bits that a halt sets in the word, by a `fetch_or`: more if the limit is its cause.
    pub fn halt_bits(by_limit: bool) -> u64
        ensures { result ≡ halt_bits by_limit }
    {
        if by_limit {
            Self::HALT_BY_LIMIT
        } else {
            Self::HALT
        }
    }

    /// The word with these contents.
    pub fn to_word(self) -> u64
        ensures word { result ≡ fired_word self.fired self.halted self.by_limit }
        ensures fired { fired_in result ≡ self.fired }
        ensures halted { is_halted_in result ≡ self.halted }
        ensures by_limit { is_by_limit_in result ≡ self.by_limit }
    {
        if self.by_limit {
            self.fired | Self::HALT_BY_LIMIT
        } else if self.halted {
            self.fired | Self::HALT
        } else {
            self.fired
        }
    }

    /// The contents of a word, or `None` if it has the limit's bit and no halt.
    #[tactic(auto, using(crate::proofs::WordLawsLemmas::limit_stands))]
    pub fn from_word(word: u64) -> Option<FiredWord>
        ensures some { is_some result ≡ is_fired_word word }
        ensures fired { IfSome result (λ value. value.fired ≡ fired_in word) }
        ensures halted { IfSome result (λ value. value.halted ≡ is_halted_in word) }
        ensures by_limit { IfSome result (λ value. value.by_limit ≡ is_by_limit_in word) }
        ensures word { IfSome result (λ value. fired_word value.fired value.halted value.by_limit ≡ word) }
    {
        let halted = word & Self::HALT != 0;
        let by_limit = word & Self::LIMIT != 0;
        if by_limit && !halted {
            return None;
        }
        Some(FiredWord {
            fired: word & !Self::HALT_BY_LIMIT,
            halted,
            by_limit,
        })
    }
}
