//! Theorems on logs of diffusing computations.

ghost use Rattle.chip_judged.specs.Laws.{EveryAnswerIsRight, EveryLogIsJudgedRight};
ghost use Rattle.chip_judged.specs.Worked.{EventRows, OneIsJudgedRight, SomeMayBeMissing, WholeRows};

/// The rows of a legal log whose root is closed are a well-formed log of the judge, and in some order each row is
/// enabled. For every order of the rows of different processes, each claim in them is right. So whatever `judge_log`
/// returns for them, its verdict on each claim is right, and the log ends with a claim.
pub fn every_log_is_judged_right()
    ensures rows { EveryLogIsJudgedRight }
    ensures answers { EveryAnswerIsRight }
{}

/// The rows of a small run and of single events, as the definitions compute them; how some are judged; and which
/// may be missing.
pub fn worked()
    ensures whole { WholeRows }
    ensures events { EventRows }
    ensures judged { OneIsJudgedRight }
    ensures missing { SomeMayBeMissing }
{
    every_log_is_judged_right();
}
