//! The laws of chip-firing: theorems, as the contracts of functions that do nothing.
//!
//! They hold for any directed multigraph and any configuration, limit and firing sequence on it. A law that needs the
//! global sink says so. `docs/GAME.md` explains them in this order.

ghost use Rattle.chip_sequence.specs.Worked.{SmallTriangle, OneChipShort};
ghost use Rattle.chip_sequence.specs.Laws.{LegalVertices, PositionByCounts, Batch, Diamond, LeastAction, OneEnd};
ghost use Rattle.chip_sequence.specs.Laws.{Continuation, ChipsAreKept, FiringBound, Enough, FewFirings, EnoughByDistance};
ghost use Rattle.chip_sequence.specs.Laws.{AbelianProperty, MoreChips, CertifiedCounts, BurntCounts, FiredBurn, ScriptCounts};
ghost use Rattle.chip_sequence.specs.Laws.{PlayingOn, EndOfTheWay};
ghost use Rattle.chip_sequence.specs.Stages.{StagesAddUp, PlayedIsStage};

/// The game on the smallest graph on which a vertex sends chips back, played by hand.
pub fn triangle()
    ensures small_triangle { SmallTriangle }
    ensures one_chip_short { OneChipShort }
{}

/// The list of the legal vertices has exactly these.
pub fn legal_vertices()
    ensures { LegalVertices }
{}

/// The configuration after a firing sequence depends on how often each vertex fired, and not on the order.
pub fn position_by_counts()
    ensures { PositionByCounts }
{}

/// `k` firings of one vertex in a row are `k` single firings.
pub fn batch()
    ensures { Batch }
{}

/// Two legal vertices may fire in either order, to the same configuration.
pub fn diamond()
    ensures { Diamond }
{}

/// A sequence that has ended fires each vertex at least as often as any other.
pub fn least_action()
    ensures { LeastAction }
{}

/// All sequences that have ended agree, in their counts and in their final configuration.
pub fn one_end()
    ensures { OneEnd }
{}

/// Every sequence can be continued to one that has ended.
pub fn continuation()
    ensures { Continuation }
{}

/// No chip is created or destroyed.
pub fn chips_are_kept()
    ensures { ChipsAreKept }
{}

/// No vertex fires more often than the bound at its distance from the sink.
pub fn firing_bound()
    ensures { FiringBound }
{}

/// A limit of at least the bound at the greatest distance stops no vertex.
pub fn enough_limit()
    ensures { Enough }
{}

/// If no in-degree is above the degree, a vertex fires at most as often as the number of chips times its distance from
/// the sink. So a limit of all chips times the greatest distance stops no vertex.
pub fn few_firings()
    ensures bound { FewFirings }
    ensures enough { EnoughByDistance }
{}

/// The game without a limit: each sequence can be played to an end, and all ends agree.
pub fn abelian_property()
    ensures { AbelianProperty }
{}

/// Adding chips to a configuration keeps a sequence legal.
pub fn more_chips()
    ensures { MoreChips }
{}

/// Every sequence that has ended reaches the counts that whole numbers at each vertex certify.
pub fn certified_counts()
    ensures { CertifiedCounts }
{}

/// If no in-degree is above the degree, every sequence that has ended reaches counts that pass the burning test at each
/// vertex.
pub fn burnt_counts()
    ensures { BurntCounts }
{}

/// If no in-degree is above the degree, a sequence's counts pass the burning test, by the order in which its vertices
/// fire for the last time.
pub fn fired_burn()
    ensures { FiredBurn }
{}

/// The burning test for any graph: a firing script that could be played last replaces a firing of each vertex.
pub fn script_counts()
    ensures { ScriptCounts }
{}

/// From counts that must be reached, each firing that is legal there leads to counts that must be reached.
pub fn playing_on()
    ensures { PlayingOn }
{}

/// If no vertex may go on, counts that must be reached are the counts of every whole play.
pub fn end_of_the_way()
    ensures { EndOfTheWay }
{}

/// The stages of a play add up, for every number of stages and whatever stopped each.
pub fn stages()
    ensures add_up { StagesAddUp }
    ensures played { PlayedIsStage }
{}
