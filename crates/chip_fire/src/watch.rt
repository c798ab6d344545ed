//! Who watches how a play goes on.

ghost use Rattle.chip_fire.specs.Given.{IsUse, IsBelow};
ghost use Rattle.chip_fire.specs.Search.{IsShort};

use crate::play::Play;
use chip_graph::Game;
use chip_guess::Search;

/// What becomes of counts that are given to a play.
#[derive(Clone, Copy, Debug, PartialEq, Eq)]
pub enum GivenUse {
    /// They are certified as they stand, and nothing is left to play.
    Certified,
    /// They are certified as they stand, and the play goes on from them.
    PlayedOn,
    /// They were lowered until they were certified, and the play goes on from there.
    Lowered,
    /// They are left out: the play begins at the start.
    Dropped,
}

/// Gets the progress of a play. Each call returns, and none changes the play.
pub trait Watch {
    /// Gets the game once it is read, before it is played.
    fn plays(&mut self, _game: &Game) {}

    /// Gets the play as it begins, and how it used the counts that were given.
    fn used(&mut self, _play: &Play<'_>, _given: &[u64], _use: GivenUse)
        requires told { IsUse _play.now.game _given.now _play.now.chips _play.now.fired _use }
        requires below { IsBelow _given.now _play.now.fired }
    {}

    /// Gets a search for counts while it goes on. No vertex fires meanwhile.
    fn searches(&mut self, _search: &Search) {}

    /// Gets the visits to vertices and edges of a search that is over, those of its levels' making too, and the
    /// visits of the play before it (`alone`) and beside it.
    fn searched(&mut self, _play: &Play<'_>, _alone: u64, _beside: u64, _searched: u64)
        requires { IsShort _play.now.game _play.now.fired _alone _beside _searched }
    {}

    /// Gets the play after `more` further rounds, in each of which some vertex fired.
    ///
    /// If counts were found and certified, the play went on from these, and they are among the firings. In any case
    /// every whole play of the game fires each vertex at least as often.
    fn rounds(&mut self, more: u64, play: &Play<'_>);

    /// Gets the number of bytes of the report that is written next.
    fn writes(&mut self, _bytes: u64) {}
}

/// Nobody watches.
#[derive(Clone, Copy)]
pub struct Unwatched;

impl Watch for Unwatched {
    fn rounds(&mut self, _more: u64, _play: &Play<'_>) {}
}
