//! The duties of a worker besides the turns of its actors.

use crate::plan::Gate;
use chip_net::Net;

/// The duties of a worker besides the turns of its actors, done on its own thread.
pub(crate) trait Duties {
    ghost use Rattle.std.specs.Prelude.{◌≡◌, ℕ, Bool, false};
    ghost use Rattle.chip_net.specs.Tokens.{NetId};

    // Whether they can be done on this net.
    ghost can: { NetId → Self → Type 0 };

    // Whether no round so far ended with the order to stop.
    ghost goes_on: { Self → Type 0 };

    // What was done before the turn of this number.
    ghost before: { ℕ → Self → Self → Type 0 };

    // What was done after a round.
    ghost after: { Self → Self → Type 0 };

    // What holds then if the crew is to stop, and if it is not.
    ghost stops: { Bool → Self → Type 0 };

    /// Done before each turn.
    fn begin_turn(&mut self, net: &Net, turn: u64)
        requires can { can net.now self.old }
        requires goes_on { goes_on self.old }
        ensures can { can net.now self.new }
        ensures goes_on { goes_on self.new }
        ensures done { before turn self.old self.new };

    /// Done after each whole round, whose last turn was `turn`. Returns whether the crew is to stop.
    fn end_round<G: Gate>(&mut self, net: &Net, gate: &G, turn: u64) -> bool
        requires can { can net.now self.old }
        requires goes_on { goes_on self.old }
        ensures can { can net.now self.new }
        ensures goes_on { result ≡ false → goes_on self.new }
        ensures done { after self.old self.new }
        ensures stops { stops result self.new };
}

/// The duties of every worker but worker 0: none.
#[derive(Drop)]
pub(crate) struct NoDuties;

impl Duties for NoDuties {
    ghost use Rattle.std.specs.Prelude.{◌≡◌, false, ⊤};

    ghost can = { λ _ _. ⊤ };

    ghost goes_on = { λ _. ⊤ };

    ghost before = { λ _ old new. new ≡ old };

    ghost after = { λ old new. new ≡ old };

    ghost stops = { λ answer _. answer ≡ false };

    #[inline(always)]
    fn begin_turn(&mut self, _net: &Net, _turn: u64) {}

    #[inline(always)]
    fn end_round<G: Gate>(&mut self, _net: &Net, _gate: &G, _turn: u64) -> bool {
        false
    }
}
