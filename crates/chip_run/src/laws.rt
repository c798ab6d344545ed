//! Laws of `run`: functions without code, whose contracts are the laws.

ghost use Rattle.chip_run.specs.Laws.{SameBytes, SameBytesFed, RunTellsPlay, LogsFit, UnfedLogsFit, RowsFit, UncutTracesFit, FedRowsFit};
ghost use Rattle.chip_run.specs.Worked.{RowsOfFirstSteps};

/// A run on threads that wrote a report wrote the bytes of the plain player, with its status: for the same files, or,
/// if chips were fed, for files that have all these chips at the start.
pub fn same_bytes()
    ensures alike { SameBytes }
    ensures fed { SameBytesFed }
{}

/// The report of a run is that of a first stage, which `resume` continues: its counts lead to its chips, from the start
/// of the game that has all chips at the start, those that were fed too.
pub fn first_stage()
    ensures { RunTellsPlay }
{}

/// The rows of a log, as the definitions compute them.
pub fn worked_rows()
    ensures { RowsOfFirstSteps }
{}

/// The rows of a run without feeds have an interleaving, those that were cut too, and its firings are the counts of the
/// report. So have the rows that were written, if no trace was cut, and those of each legal log, in its order. If chips
/// are fed and no vertex is given any more than once, the rows also have an interleaving in the game that has all of
/// them at the start.
pub fn rows_fit()
    ensures logs { LogsFit }
    ensures unfed { UnfedLogsFit }
    ensures runs { RowsFit }
    ensures uncut { UncutTracesFit }
    ensures fed { FedRowsFit }
{}
