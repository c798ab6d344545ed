//! The laws of logs: functions without code, whose contracts are the laws.

ghost use Rattle.chip_log.specs.Laws.{CausalPast, MaximalProgress, OneAbsent, OneFirst, OneJudgment, OnePlace};
ghost use Rattle.chip_log.specs.Laws.{OneVerdict};
ghost use Rattle.chip_log.specs.Laws.{SameFirst, SameJudgment, SameStuck, QuiescentPast, StuckOrder};
ghost use Rattle.chip_log.specs.Worked.{WorkedLog};

/// Which processes are active in a small log, by the definitions.
pub fn worked()
    ensures { WorkedLog }
{}

/// Each claim of an interleaving has a causal past.
pub fn causal_past()
    ensures { CausalPast }
{}

/// A claim is right if the log is quiescent after its causal past.
pub fn quiescent_past()
    ensures { QuiescentPast }
{}

/// No claim has two verdicts.
pub fn one_verdict()
    ensures { OneVerdict }
{}

/// No progress has more rows of a process than maximal progress.
pub fn maximal_progress()
    ensures { MaximalProgress }
{}

/// A log that is stuck has no interleaving.
pub fn stuck_order()
    ensures { StuckOrder }
{}

/// A log is stuck in one place.
pub fn one_place()
    ensures { OnePlace }
{}

/// The judgment does not depend on how the rows of processes are mixed.
pub fn same_judgment()
    ensures { SameJudgment }
{}

/// A log has one judgment: of its claims, in one order, and of its end.
pub fn one_judgment()
    ensures { OneJudgment }
{}

/// The first early claim does not depend on how the rows of processes are mixed.
pub fn same_first()
    ensures { SameFirst }
{}

/// A log has one first early claim, with one judgment.
pub fn one_first()
    ensures { OneFirst }
{}

/// Where a log is stuck does not depend on how the rows of processes are mixed.
pub fn same_stuck()
    ensures { SameStuck }
{}

/// A log has one first process without a row, however its rows are mixed.
pub fn one_absent()
    ensures { OneAbsent }
{}
