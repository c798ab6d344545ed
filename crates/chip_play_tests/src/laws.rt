//! Values of definitions, worked out by hand.

ghost use Rattle.chip_play_tests.specs.Worked.{WorkedBounds};

/// How often a vertex fires at most, by its distance from the sink.
pub fn bounds()
    ensures { WorkedBounds }
{}
