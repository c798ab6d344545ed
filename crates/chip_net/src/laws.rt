//! Theorems on a net at every moment, and worked words and records, as the contracts of functions that do nothing.

ghost use Rattle.chip_net.specs.Worked.{TriangleWords, TriangleOpens, PartTakenOut, RowsOfATurn, RootOfTheTriangle};
ghost use Rattle.chip_net.specs.Worked.{FeedOfTheTriangle};
ghost use Rattle.chip_net.specs.Laws.{EveryMomentIsReached, AlwaysDue, EveryMomentDiffuses};
ghost use Rattle.chip_net.specs.Meeting.{OneRun, SealsTellAll};

/// The small triangle as a net, as the definitions compute it.
pub fn worked_nets()
    ensures words { TriangleWords }
    ensures opening { TriangleOpens }
    ensures taken_out { PartTakenOut }
    ensures rows { RowsOfATurn }
    ensures root { RootOfTheTriangle }
    ensures feed { FeedOfTheTriangle }
{}

/// Whatever threads do, words and views are a world that grows from the opening's by one event at a time. Exactly one
/// view has the steps of each part. The head of an edge has got a prefix of what its tail put, and nothing is sent
/// after a seal. So whatever the core proves of every log holds of a running net between any two steps.
#[tactic(auto, using(crate::proofs::ReachingLemmas::every_moment))]
pub fn every_moment()
    ensures { EveryMomentIsReached }
{}

/// In each of these states some legal log of a diffusing computation has the steps of the parts. So whatever holds of
/// the detector in every computation holds between any two steps of threads.
#[tactic(auto, using(crate::proofs::ReachingLemmas::every_moment_diffuses))]
pub fn every_moment_diffuses()
    ensures { EveryMomentDiffuses }
{}

/// From the end of feeding until the root is closed, some part has an event that advances.
pub fn always_due()
    ensures { AlwaysDue }
{}

/// One legal log, which is closed, has the steps of the root, the stopper and all actors. The outcome that the root
/// read is that log's.
pub fn one_run()
    ensures { OneRun }
{}

/// A seal returns the number of all messages ever sent on its edge, in the run that a receipt shows.
pub fn seals_tell_all()
    ensures { SealsTellAll }
{}
