//! The laws of files.

ghost use Rattle.chip_file.specs.ChipsText.{WrittenChips};
ghost use Rattle.chip_file.specs.LogLaws.{MixedLogs};

/// How the rows of processes are mixed changes neither whether a row of a log has a fault nor what each process did.
pub fn mixed_logs()
    ensures { MixedLogs }
{}

/// The text of chips means these chips.
pub fn written_chips()
    ensures { WrittenChips }
{}
