//! The law of logs that are cut off.

ghost use Rattle.chip_log.specs.Cut.{CutKeepsVerdicts};
ghost use Rattle.chip_log.specs.Worked.{WorkedCut};

/// Whether a process begins active, by the rows of it that are left.
pub fn worked()
    ensures { WorkedCut }
{}

/// The judgment of a claim by the rows of a cut log that maximal progress uses is its judgment in the whole log.
pub fn cut_keeps_verdicts()
    ensures { CutKeepsVerdicts }
{}
