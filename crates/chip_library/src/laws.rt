//! Laws of the definitions: functions without code, whose contracts are theorems.

ghost use Rattle.chip_library.specs.KeptGames.{PilesAreOutcomes, DropsFollow, MoreDrops};
ghost use Rattle.chip_library.specs.Worked.{WorkedCalls};

/// Lists, rows, drops and books worked out by hand.
pub fn worked_calls()
    ensures { WorkedCalls }
{}

/// A pile played to its end is the outcome of its game.
pub fn piles_are_outcomes()
    ensures { PilesAreOutcomes }
{}

/// Drops made by successive calls on a pile are made on the game put there, as by one call.
pub fn drops_follow()
    ensures { DropsFollow }
{}

/// Drops on the pile that earlier drops left continue these.
pub fn more_drops()
    ensures { MoreDrops }
{}
