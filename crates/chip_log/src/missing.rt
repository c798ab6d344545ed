//! The laws of logs in which rows are missing.

ghost use Rattle.chip_log.specs.Missing.{RightWithoutRows, SentWhileActive, WorkedRows};

/// The rows that stay, by the definitions.
pub fn worked()
    ensures { WorkedRows }
{}

/// A claim that is right in a log in which rows are missing is right in the whole log.
pub fn right_without_rows()
    ensures { RightWithoutRows }
{}

/// In a log with an interleaving each basic message is sent by an active process.
pub fn sent_while_active()
    ensures { SentWhileActive }
{}
