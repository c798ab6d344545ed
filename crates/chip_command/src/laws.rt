//! The laws of what commands share: functions without code, whose contracts are the laws.

ghost use Rattle.chip_command.specs.Laws.{WrittenIsRead, FileIsReadBack, ReadIsInGraph};
ghost use Rattle.chip_command.specs.OneReport.{OneReport};
ghost use Rattle.chip_command.specs.Worked.{TwoTracesComeBack, StatusesAreNumbered};

/// `read_trace` reads back what `write_trace` writes: all traces in the graph. It reads no other traces.
pub fn written_traces()
    ensures meaning { WrittenIsRead }
    ensures answer { FileIsReadBack }
    ensures only { ReadIsInGraph }
{}

/// A game has one report, however it is played.
pub fn one_report()
    ensures { OneReport }
{}

/// Two traces, as the definitions write and read them.
pub fn worked_traces()
    ensures { TwoTracesComeBack }
{}

/// The exit statuses by their numbers.
pub fn worked_statuses()
    ensures { StatusesAreNumbered }
{}
