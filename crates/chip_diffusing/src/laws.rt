//! Theorems on every diffusing computation, as the contracts of functions that do nothing.

ghost use Rattle.chip_diffusing.specs.Worked.{AtWork, ToTheEnd, ThreeAdvance, InTwoRounds};

/// A small run, as the definitions compute it.
pub fn worked()
    ensures at_work { AtWork }
    ensures to_the_end { ToTheEnd }
    ensures three_advance { ThreeAdvance }
    ensures in_two_rounds { InTwoRounds }
{}

ghost use Rattle.chip_diffusing.specs.Laws.{ClosedIsSettled, DepthCloses, DepthIsCounted, NoWasteCloses};
ghost use Rattle.chip_diffusing.specs.Laws.{CallsMayBeMade, ClosedIsQuiescent, ClosedForGood, EngagedIsATree};
ghost use Rattle.chip_diffusing.specs.Laws.{NeverStuck, NotOverYet, FewAreLeft};

/// Whoever makes an event may make the call of `Detect` that notes it.
pub fn calls()
    ensures { CallsMayBeMade }
{}

/// The theorem of Dijkstra and Scholten: if the root is closed, no message is in transit and every process is passive,
/// now and ever after, and on each edge all is settled.
pub fn closed_roots()
    ensures quiescent { ClosedIsQuiescent }
    ensures for_good { ClosedForGood }
    ensures settled { ClosedIsSettled }
{}

/// The engaged processes form a tree below the root, and all other processes are neutral.
pub fn trees()
    ensures { EngagedIsATree }
{}

/// If it is over and the root is not closed, some event is due and few are left. Until the root is closed, a process is
/// at work, a message is in transit, or an event is due.
pub fn endings()
    ensures never_stuck { NeverStuck }
    ensures not_over_yet { NotOverYet }
    ensures few_are_left { FewAreLeft }
{}

/// At most three events advance for each message sent: it is got, acknowledged and settled. Once none is left and all
/// processes are passive, the root is closed.
pub fn no_waste()
    ensures { NoWasteCloses }
{}

/// If it is over, the root closes after as many rounds as the tree is deep and one more, once it has read what was
/// acknowledged in them.
pub fn soon_after_the_end()
    ensures depth { DepthCloses }
    ensures counted { DepthIsCounted }
{}
