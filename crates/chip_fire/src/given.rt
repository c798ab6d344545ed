//! Counts that are given to a play.

ghost use Rattle.std.specs.Prelude.{◌≡◌, ◌↔◌, IsTrue, IfOk};
ghost use Rattle.chip_fire.specs.Given.{IsUse, TakesAll, TakesNone};

use crate::play::Play;
use crate::watch::{GivenUse, Watch};
use chip_graph::Game;
use chip_guess::lower_counts;
use std::alloc::{AllocError, Global};

impl<'a> Play<'a> {
    /// The play that begins at the counts that were given, if any were, or at lower ones that are certified. Tells which
    /// these are.
    pub(crate) fn at_given<W: Watch>(
        alloc: Global,
        game: &'a Game,
        given: &[u64],
        watch: &mut W,
    ) -> Result<Play<'a>, AllocError>
        ensures { IfOk result (λ play. play.game ≡ game.now) }
    {
        let mut play = Play::new(alloc, game)?;
        if given.is_empty() {
            return Ok(play);
        }
        if play.raise_to(alloc, given).is_none()
            && let Some(lowered) = lower_counts(alloc, game, given)
        {
            let _ = play.raise_to(alloc, &lowered);
        }
        watch.used(&play, given, play.use_of(given));
        Ok(play)
    }

    /// What became of counts that were given, if the play begins here.
    fn use_of(&self, given: &[u64]) -> GivenUse
        ensures { IsUse self.now.game given.now self.now.chips self.now.fired result }
    {
        if takes_all(given, &self.fired) {
            if self.is_at_rest() {
                GivenUse::Certified
            } else {
                GivenUse::PlayedOn
            }
        } else if takes_none(&self.fired) {
            GivenUse::Dropped
        } else {
            GivenUse::Lowered
        }
    }
}

/// Whether each vertex fires as often as was given.
fn takes_all(given: &[u64], fired: &[u64]) -> bool
    ensures { IsTrue result ↔ TakesAll given.now fired.now }
{
    for (vertex, times) in fired.iter().enumerate() {
        if given.get(vertex).copied().unwrap_or(0) != *times {
            return false;
        }
    }
    true
}

/// Whether no vertex fires.
fn takes_none(fired: &[u64]) -> bool
    ensures { IsTrue result ↔ TakesNone fired.now }
{
    for times in fired {
        if *times > 0 {
            return false;
        }
    }
    true
}
