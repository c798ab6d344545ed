ghost use Rattle.std.specs.Prelude.{◌≡◌, IfOk};
ghost use Rattle.chip_fire.specs.Rounds.{IsAtRest};
ghost use Rattle.chip_fire.specs.Player.{PlaysOut};

use crate::course::Course;
use crate::play::Play;
use crate::watch::{Unwatched, Watch};
use chip_graph::Game;
use chip_sequence::Outcome;
use std::alloc::{AllocError, Global};

/// Plays a game to its end within the limit, on one thread.
///
/// It takes the course of `Course`, and at last each vertex in turn fires as often in a row as its chips and the
/// limit allow, round after round until none fires. The way is this function's own: the outcome is
/// that of every order.
pub fn plain(alloc: Global, game: &Game) -> Result<Outcome, AllocError>
    ensures { IfOk result (PlaysOut game.now) }
{
    plain_watched(alloc, game, &mut Unwatched)
}

/// Plays a game as `plain` does, and reports its progress to `watch`. The outcome is the same, whoever
/// watches.
pub fn plain_watched<W: Watch>(
    alloc: Global,
    game: &Game,
    watch: &mut W,
) -> Result<Outcome, AllocError>
    ensures { IfOk result (PlaysOut game.now) }
{
    plain_given(alloc, game, &[], watch)
}

/// Plays a game as `plain_watched` does, and begins at the given counts of its vertices, or below them, as far as it is
/// certain that every play reaches these: a count that is not given is 0. The outcome is the same, whatever is given.
pub fn plain_given<W: Watch>(
    alloc: Global,
    game: &Game,
    given: &[u64],
    watch: &mut W,
) -> Result<Outcome, AllocError>
    ensures { IfOk result (PlaysOut game.now) }
{
    let mut play = Play::at_given(alloc, game, given, watch)?;
    let (course, _) = play.go_on(alloc, Course::Begins, u64::MAX, &mut 0, watch);
    play.outcome_at(alloc, &course)
}

impl Play<'_> {
    /// Goes on to the end within the limit, by rounds and a search.
    pub fn play_on<W: Watch>(&mut self, alloc: Global, watch: &mut W)
        ensures same { self.new.game ≡ self.old.game }
        ensures ended { IsAtRest self.new.game self.new.chips self.new.fired }
    {
        let course = self.soon();
        let _ = self.go_on(alloc, course, u64::MAX, &mut 0, watch);
    }
}
