//! Laws of drops: functions that do nothing, whose contracts are the laws.

ghost use Rattle.chip_fire.specs.Avalanches.{DropsAddUp};
ghost use Rattle.chip_fire.specs.Worked.{MeasuredDrops, ThreeDrops};

/// Three drops on the triangle, by the definitions.
pub fn three_drops()
    ensures { ThreeDrops }
{}

/// Rounds and a row on the triangle, as the definitions have them.
pub fn measured_drops()
    ensures { MeasuredDrops }
{}

/// The avalanches of drops, one after another, are together the play of all chips at the start.
pub fn drops_add_up()
    ensures { DropsAddUp }
{}
