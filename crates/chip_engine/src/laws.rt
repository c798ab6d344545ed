//! Laws of the commands: functions without code, whose contracts are the laws.

ghost use Rattle.chip_engine.specs.Worked.{TriangleGoesOn, TriangleLeaves, OneFeedIsSent, RefusalsAreNumbered, LoopIsExplained};
ghost use Rattle.chip_engine.specs.SimulatedBytes.{SimulatedBytes};
ghost use Rattle.chip_engine.specs.Stages.{PlainTellsPlay, SimulateTellsPlay, ResumedPlaysAddUp};
ghost use Rattle.chip_engine.specs.JudgeLaws.{OneAnswer, SameTexts};

use chip_log::laws::{
    one_absent, one_first, one_judgment, one_place, same_first, same_judgment, same_stuck,
    stuck_order,
};

/// A stage that went on, and the refusals of `resume`, as the definitions compute them.
pub fn worked_stage()
    ensures triangle { TriangleGoesOn }
    ensures refusals { RefusalsAreNumbered }
{}

/// A table of one row, as the definitions read it.
pub fn worked_row()
    ensures { LoopIsExplained }
{}

/// A replay that is not over, and what it leaves by the definitions.
pub fn worked_replay()
    ensures { TriangleLeaves }
{}

/// The lines of a simulation with feeds, as the definitions read them.
pub fn worked_feeds()
    ensures { OneFeedIsSent }
{}

/// The reports of a play in several stages add up, however many there are and whatever stopped each: `plain` or
/// `simulate` writes the first, and `resume` each later one, given the one before it.
pub fn stages()
    ensures plain { PlainTellsPlay }
    ensures simulate { SimulateTellsPlay }
    ensures resume { ResumedPlaysAddUp }
{}

/// A simulation that closed wrote, after the lines of its replies, the report of the plain player, unless it names a
/// sealed vertex: for the same files, or, if chips were fed, for files that have all these chips at the start.
pub fn simulated_bytes()
    ensures { SimulatedBytes }
{}

/// Logs with the same rows of each process have the same text and status, however the rows are mixed.
pub fn one_answer()
    ensures { OneAnswer }
{
    same_judgment();
    one_judgment();
    same_first();
    one_first();
}

/// Texts of such logs have the same bytes and status, or the same fault.
pub fn same_texts()
    ensures { SameTexts }
{
    one_answer();
    one_absent();
    same_stuck();
    one_place();
    stuck_order();
}
