//! The laws of reports: functions without code, whose contracts are the laws.

ghost use Rattle.chip_report.specs.Laws.{OneOutcome, RoundTrip, OneStage, RoundTripTwo, NotBoth};

/// A report has one outcome.
pub fn one_outcome()
    ensures { OneOutcome }
{}

/// What was reported is read back.
pub fn round_trip()
    ensures { RoundTrip }
{}

/// A report of a later stage has that stage alone, is read back as it, and is no report of a first one.
pub fn stages()
    ensures one_stage { OneStage }
    ensures round_trip { RoundTripTwo }
    ensures not_both { NotBoth }
{}
