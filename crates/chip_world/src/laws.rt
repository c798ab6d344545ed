//! Theorems on drives, as the contracts of functions that do nothing.

ghost use Rattle.chip_world.specs.Enough.{EndIsNoted};
ghost use Rattle.chip_world.specs.Worked.{TriangleRootEdges, TriangleRounds, OneRoundCloses, NoRoundLeavesOpen};

/// Small drives, as the definitions compute them.
pub fn worked_drives()
    ensures triangle_root_edges { TriangleRootEdges }
    ensures triangle_rounds { TriangleRounds }
    ensures one_round_closes { OneRoundCloses }
    ensures no_round_leaves_open { NoRoundLeavesOpen }
{}

/// The end of feeding can be noted at any time, so that a drive closes.
pub fn end_is_noted()
    ensures { EndIsNoted }
{}
