//! Theorems on every game, every ring and every list of events, as the contracts of functions that do nothing.
//!
//! The core theorem comes last. Those before it are on the legal logs, which are the logs of the runs from the opening.

ghost use Rattle.chip_core.specs.Worked.{ChipsOnTheSink, FullRing, CoreSealedHalfWay, EngagingMessageLast, CoreRingOfTwo};
ghost use Rattle.chip_core.specs.Worked.{TwoEngaged, WholeSchedule, StoppedByLimit, StoppedBySeal};
ghost use Rattle.chip_core.specs.Worked.{FedOnce, RefusedFeeds, FedUncleared, ClosedByTheEnd};
ghost use Rattle.chip_core.specs.Outcomes.{OutcomesTell};
ghost use Rattle.chip_core.specs.Laws.{LegalLogsAreRuns, PartsByTheirOwnEvents, PartsAreKept, SeenFits, CountsOfEdges};
ghost use Rattle.chip_core.specs.Laws.{RootSeenFits};
ghost use Rattle.chip_core.specs.Laws.{ChipsOfEdges, NumbersAreSmall, CellsTell, WordsTell, SealsStand, SentStands};
ghost use Rattle.chip_core.specs.Laws.{OpeningMessages, InOrderFromTheOpening, HeldFromTheOpening, NothingInFlight};
ghost use Rattle.chip_core.specs.Laws.{ReadsTell, GivenIsFed, UnfedIsTheStart, FeedsAreSent, GivenIsAGame};
ghost use Rattle.chip_core.specs.Laws.{GivenByTheRecord, UnfedRecordsNone};
ghost use Rattle.chip_core.specs.Replies.{IdleStepsLeave, RunsGoOn};
ghost use Rattle.chip_core.specs.Words.{OperationsFind, WordsGoOn};
ghost use Rattle.chip_core.specs.Reached.{ReachedByLegalLogs};
ghost use Rattle.chip_core.specs.Headline.{CoreTheorem};
ghost use Rattle.chip_core.specs.Instance.{CoreDiffuses};
ghost use Rattle.chip_core.specs.Work.{FewSteps, DistancesBound, FewRefusals};
ghost use Rattle.chip_core.specs.Closing.{CoreNeverStuck, IdleAttemptsClose, IdleRoundsClose};
ghost use Rattle.chip_core.specs.Closing.{FairSchedulesClose, RoundsAreStretches, FairRoundsClose, NothingStirs};
ghost use Rattle.chip_core.specs.Wasting.{CoreNoWasteCloses};
ghost use Rattle.chip_core.specs.Playing.{UnsealedHaltsNone, FairSchedulesPlay, FairRoundsPlay};
ghost use Rattle.chip_core.specs.Soon.{CoreDepthCloses, DepthClosesLater, CoreDepthIsCounted, CoreFewAreLeft};
ghost use Rattle.chip_core.specs.WorkedClosing.{TriangleBounds, OneRefused, ThreeStretches};
ghost use Rattle.chip_core.specs.WorkedClosing.{FiveStretches, BatchesAsk, ThreeSteps, TrianglePlays};
ghost use Rattle.chip_core.specs.WorkedSoon.{ChainCloses, StarCloses, PairCloses};

/// Small runs, as the definitions compute them.
pub fn worked_runs()
    ensures chips_on_the_sink { ChipsOnTheSink }
    ensures full_ring { FullRing }
    ensures sealed_half_way { CoreSealedHalfWay }
    ensures engaging_message_last { EngagingMessageLast }
    ensures ring_of_two { CoreRingOfTwo }
    ensures two_engaged { TwoEngaged }
{}

/// Small runs in which the root feeds, as the definitions compute them.
pub fn worked_feeding()
    ensures once { FedOnce }
    ensures refused { RefusedFeeds }
    ensures uncleared { FedUncleared }
    ensures closed_by_the_end { ClosedByTheEnd }
{}

/// Whole runs of a small game until the root closes: with no vertex halted, with one halted by its limit, and with one
/// halted by a seal.
pub fn worked_closes()
    ensures none_halted { WholeSchedule }
    ensures stopped_by_limit { StoppedByLimit }
    ensures stopped_by_seal { StoppedBySeal }
{}

/// The legal logs are those of runs, and the state of a part follows from its own events.
pub fn logs()
    ensures runs { LegalLogsAreRuns }
    ensures own_events { PartsByTheirOwnEvents }
{}

/// What replies report, and what a reply leaves by which nothing was done.
pub fn replies()
    ensures go_on { RunsGoOn }
    ensures idle { IdleStepsLeave }
{}

/// The invariants of one part in every legal log, also those on what its events see of the others.
pub fn parts()
    ensures kept { PartsAreKept }
    ensures seen { SeenFits }
    ensures root_seen { RootSeenFits }
{}

/// The counts and the chips of every edge, and their bounds.
pub fn edges()
    ensures counts { CountsOfEdges }
    ensures chips { ChipsOfEdges }
    ensures numbers { NumbersAreSmall }
{}

/// The contents of the shared cells and words.
pub fn words()
    ensures cells { CellsTell }
    ensures words { WordsTell }
    ensures seals { SealsStand }
{}

/// Words that show a log: an operation finds in its word what its event sees, and the words it leaves show the longer
/// log.
pub fn shown_words()
    ensures find { OperationsFind }
    ensures go_on { WordsGoOn }
{}

/// The worlds that grow by one event at a time are those of the legal logs.
pub fn reached_worlds()
    ensures { ReachedByLegalLogs }
{}

/// The messages in the replies are those of the parts.
pub fn messages()
    ensures sent { SentStands }
    ensures opening { OpeningMessages }
    ensures in_order { InOrderFromTheOpening }
    ensures held { HeldFromTheOpening }
{}

/// The chips given to each vertex, at the opening and by feeding.
pub fn given_chips()
    ensures fed { GivenIsFed }
    ensures unfed { UnfedIsTheStart }
    ensures sent { FeedsAreSent }
    ensures game { GivenIsAGame }
    ensures recorded { GivenByTheRecord }
    ensures unfed_record { UnfedRecordsNone }
{}

/// The legal logs are legal logs of a diffusing computation.
pub fn diffuses()
    ensures { CoreDiffuses }
{}

/// What holds once the root is closed.
pub fn closed_roots()
    ensures in_flight { NothingInFlight }
    ensures reads { ReadsTell }
    ensures stirs { NothingStirs }
{}

/// The outcome of a log: a firing sequence leads to it, a report accepts it, and if the root is closed and no seal
/// halted a vertex it is every player's.
pub fn outcomes()
    ensures { OutcomesTell }
{}

/// The bounds and the number of steps of a small game; a schedule that has to try three times and one that tries often
/// enough; batches, steps without waste, and a schedule that plays the game.
pub fn worked_closing()
    ensures bounds { TriangleBounds }
    ensures refused { OneRefused }
    ensures stretches { ThreeStretches }
    ensures premise { FiveStretches }
    ensures batches { BatchesAsk }
    ensures no_waste { ThreeSteps }
    ensures plays { TrianglePlays }
{}

/// The last rounds of small games, whose trees are three and two deep.
pub fn worked_ends()
    ensures chain { ChainCloses }
    ensures star { StarCloses }
    ensures pair { PairCloses }
{}

/// Bounds on the steps of a log that count as work, and on the refused claims.
pub fn few_steps_count()
    ensures steps { FewSteps }
    ensures distances { DistancesBound }
    ensures refusals { FewRefusals }
{}

/// After the end of feeding some event advances until the root is closed; if every enabled event is tried and none does
/// work or is refused, the root is closed.
pub fn never_stuck()
    ensures advances { CoreNeverStuck }
    ensures idle { IdleAttemptsClose }
    ensures rounds { IdleRoundsClose }
{}

/// Under every order of steps: if every event is tried often enough after the end of feeding, the root is closed.
/// Rounds of whole turns are such an order.
pub fn fair_schedules()
    ensures stretches { FairSchedulesClose }
    ensures turns { RoundsAreStretches }
    ensures rounds { FairRoundsClose }
{}

/// Schedules without wasted steps are short, and once no step is due the root is closed.
pub fn no_waste()
    ensures { CoreNoWasteCloses }
{}

/// Without a seal, a schedule that tries every event often enough plays the game.
pub fn fair_schedules_play()
    ensures unsealed { UnsealedHaltsNone }
    ensures stretches { FairSchedulesPlay }
    ensures rounds { FairRoundsPlay }
{}

/// If only acknowledgements are left, the root closes after as many rounds as the tree of engaged vertices is deep, and
/// one more; and no more steps advance than acknowledgements are not given or not settled.
pub fn soon_after_the_end()
    ensures depth { CoreDepthCloses }
    ensures later { DepthClosesLater }
    ensures counted { CoreDepthIsCounted }
    ensures few { CoreFewAreLeft }
{}

/// For every list of actor steps, each edge has delivered a prefix of what was sent on it, each message once and in
/// order, and nothing is sent after its seal. If the root closes, every edge has delivered everything and, unless a
/// vertex halted, chips and firing counts are those of every legal firing on one thread that ends with no legal vertex.
pub fn core_theorem()
    ensures { CoreTheorem }
{}
