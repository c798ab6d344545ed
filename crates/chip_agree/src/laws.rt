//! The laws: theorems, as the contracts of functions that do nothing.

ghost use Rattle.chip_agree.specs.Reported.{AvalanchesAgree, StoppedDropsAgree, KeptDropsAgree, KeptStopsAgree};
ghost use Rattle.chip_agree.specs.Reported.{RowsAgree, ClaimsAgree, DifferencesAgree, PilesAgree, GamesAreRefused};
ghost use Rattle.chip_agree.specs.Worked.{WorkedDrops, WorkedEnds, WorkedLogs, WorkedOutcome};

use chip_graph::laws::one_answer;

/// Of a game that is played to its end, a call returns what `plain` reports: in a row of many games, in counts and chips
/// that it accepts or refuses, and in a kept pile.
pub fn rows_agree()
    ensures rows { RowsAgree }
    ensures accepted { ClaimsAgree }
    ensures refused { DifferencesAgree }
    ensures piles { PilesAgree }
{}

/// The avalanches of a call are the rows that `avalanches` writes, also where the limit stops a play; and so are those
/// on a kept pile.
pub fn avalanches_agree()
    ensures all { AvalanchesAgree }
    ensures stopped { StoppedDropsAgree }
    ensures kept { KeptDropsAgree }
    ensures kept_stopped { KeptStopsAgree }
{}

/// Both refuse what is no game, with the same number.
pub fn games_are_refused()
    ensures { GamesAreRefused }
{
    one_answer();
}

/// Values of these definitions, and of those of texts of logs that mean the same, worked out by hand.
pub fn worked()
    ensures logs { WorkedLogs }
    ensures ends { WorkedEnds }
    ensures outcome { WorkedOutcome }
    ensures drops { WorkedDrops }
{}
