//! The duties of worker 0 besides the turns of its actors: it seals, feeds and polls the root.

ghost use Rattle.std.specs.Prelude.{◌≡◌, ◌⊎◌};
ghost use Rattle.chip_net.specs.Roots.{IsRootOver};
ghost use Rattle.chip_crew.specs.Leading.{HasLed};
ghost use Rattle.chip_crew.specs.Sealing.{MaySeal, SealsBefore};

use crate::duties::Duties;
use crate::feeding::feed_once;
use crate::plan::{Gate, SealAt};
use crate::queue::Crew;
use crate::shared::Shared;
use chip_net::{Net, Root, RootState, Stopper};

/// The state of worker 0 besides its actors.
#[derive(Drop)]
pub(crate) struct Leader<'a> {
    /// The root, which it polls after each of its rounds.
    pub root: Root,
    /// The feeds left before it notes the end, a vertex and its chips each; `None` once the end is noted.
    pub feeds: Option<&'a [(u64, u64)]>,
    /// The stopper, and when it seals which edge.
    pub seal: Option<(Stopper, SealAt)>,
    /// Whether a poll found the root closed.
    pub is_closed: bool,
}

/// Seals, if the plan seals before this turn.
fn seal_before(net: &Net, seal: &mut Option<(Stopper, SealAt)>, turn: u64)
    requires { MaySeal net.now seal.old }
    ensures { SealsBefore turn seal.old seal.new }
{
    if let Some((stopper, at)) = seal {
        if at.turn == turn {
            // The plan names an edge of the graph, so nothing is refused.
            let _ = stopper.seal(net, at.edge);
        }
    }
}

impl<'a> Duties for Leader<'a> {
    ghost use Rattle.std.specs.Prelude.{◌≡◌, false};
    ghost use Rattle.chip_crew.specs.Leading.{CanLead, LeadsTurn, LeadsRound, Stops};

    ghost can = { CanLead };

    ghost goes_on = { λ leader. leader.is_closed ≡ false };

    ghost before = { LeadsTurn };

    ghost after = { LeadsRound };

    ghost stops = { Stops };

    /// Seals and feeds.
    #[inline(always)]
    fn begin_turn(&mut self, net: &Net, turn: u64) {
        seal_before(net, &mut self.seal, turn);
        feed_once(net, &mut self.root, &mut self.feeds);
    }

    /// Polls the root, and reports its unacknowledged messages to the gate. The crew stops once the root is closed.
    #[inline(always)]
    fn end_round<G: Gate>(&mut self, net: &Net, gate: &G, turn: u64) -> bool {
        match self.root.poll(net) {
            RootState::Running(0) => false,
            RootState::Running(deficit) => {
                gate.polled(turn, deficit);
                false
            }
            RootState::Closed => {
                self.is_closed = true;
                true
            }
        }
    }
}

impl<'a> Leader<'a> {
    /// Continues for worker 0, which made `made` turns, `round` in each round: without actors and without calling the
    /// gate, until the plan's turns are used up or the root is closed. Returns the number of turns made in all.
    pub fn go_on<B: Crew, G: Gate>(&mut self, shared: &Shared<B, G>, round: u64, made: u64) -> u64
        requires led { HasLed B.asked round made self.old }
        ensures led { HasLed B.asked round result self.new }
        ensures lasts { (result ≡ B.asked.plan.turns) ⊎ IsRootOver self.new.root }
    {
        let mut turns = made;
        while turns < shared.plan.turns && !self.is_closed {
            self.begin_turn(shared.net, turns);
            turns += 1;
            if turns % round == 0 {
                self.end_round(shared.net, shared.gate, turns - 1);
            }
        }
        turns
    }
}
