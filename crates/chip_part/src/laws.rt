//! Theorems on every part and every event, as the contracts of functions that do nothing.

ghost use Rattle.chip_part.specs.Worked.{SentWithFullRing, SealedHalfWay, SinkAcknowledgesLast, FirstTurn};
ghost use Rattle.chip_part.specs.Worked.{TurnBegunInTheMiddle};
ghost use Rattle.chip_part.specs.Laws.{RulesMean, OpeningKeeps, EventsKeep, SumsAddRootEdges, TurnIsBounded};
ghost use Rattle.chip_part.specs.Laws.{IdleTurnRests};
ghost use Rattle.chip_part.specs.Cursor.{UnderWayIsBounded};

/// Small runs of one vertex, as the definitions compute them.
pub fn worked_parts()
    ensures full_ring { SentWithFullRing }
    ensures sealed_half_way { SealedHalfWay }
    ensures engaging_message_last { SinkAcknowledgesLast }
{}

/// The meaning of an event's rules, and the invariants of a part under every event that it may make.
pub fn parts()
    ensures rules { RulesMean }
    ensures opening { OpeningKeeps }
    ensures events { EventsKeep }
{}

/// The edges, with the root's among them.
pub fn edges()
    ensures sums { SumsAddRootEdges }
{}

/// Two worked turns of one vertex.
pub fn worked_turns()
    ensures first { FirstTurn }
    ensures in_the_middle { TurnBegunInTheMiddle }
{}

/// Bounds on the length of a turn, wherever it begins, and on the rest of a turn under way.
pub fn turns()
    ensures bounded { TurnIsBounded }
    ensures under_way { UnderWayIsBounded }
{}

/// The state of a vertex after an idle turn.
pub fn idle_turns()
    ensures { IdleTurnRests }
{}
