//! Theorems on every edge and every word, as the contracts of functions that do nothing.

ghost use Rattle.chip_link.specs.Laws.{TakesPrefix, ClaimsInOrder, NothingAfterSeal, WordTells, SealsAllClaims};
ghost use Rattle.chip_link.specs.WordLaws.{EdgeWordReads, EdgeWordStands, AddsClaims, AddedReads, SealsWord};
ghost use Rattle.chip_link.specs.WordLaws.{SealedReads, ExchangesWord, ExpectsUnsealed};
ghost use Rattle.chip_link.specs.WordLaws.{FiredWordReads, FiredWordStands, AddsFirings, AddedFiringsRead, HaltsWord};
ghost use Rattle.chip_link.specs.WordLaws.{HaltReads, HaltsByLimit, HaltByLimitReads};
ghost use Rattle.chip_link.specs.Worked.{OneCellTail, OneCellHead, RingOfTwo, SealedBetween};

/// One edge, end to end, for every ring and every list of steps: reads, claims, puts, takes and seals in any order.
pub fn one_edge()
    ensures prefix { TakesPrefix }
    ensures in_order { ClaimsInOrder }
    ensures sealed { NothingAfterSeal }
    ensures word { WordTells }
    ensures all_claims { SealsAllClaims }
{}

/// The contents of an edge's word, and the effect of the atomic operations on them.
pub fn edge_words()
    ensures reads { EdgeWordReads }
    ensures stands { EdgeWordStands }
    ensures adds { AddsClaims }
    ensures added { AddedReads }
    ensures seals { SealsWord }
    ensures sealed { SealedReads }
    ensures exchanges { ExchangesWord }
    ensures expected { ExpectsUnsealed }
{}

/// The contents of a vertex's word, and the effect of the atomic operations on them.
pub fn fired_words()
    ensures reads { FiredWordReads }
    ensures stands { FiredWordStands }
    ensures adds { AddsFirings }
    ensures added { AddedFiringsRead }
    ensures halts { HaltsWord }
    ensures halted { HaltReads }
    ensures halts_by_limit { HaltsByLimit }
    ensures halted_by_limit { HaltByLimitReads }
{}

/// Small runs of one edge, as the definitions compute them.
pub fn worked_edges()
    ensures one_cell_tail { OneCellTail }
    ensures one_cell_head { OneCellHead }
    ensures ring_of_two { RingOfTwo }
    ensures sealed_between { SealedBetween }
{}
