//! The last use of the root, once all workers have ended.

ghost use Rattle.std.specs.Prelude.{◌≡◌, MatchResult, IfOk, IfSome};
ghost use Rattle.chip_crew.specs.Ending.{EndsWell, StaysOpen};
ghost use Rattle.chip_crew.specs.Sealing.{HasBack};

use crate::plan::SealAt;
use chip_net::{Net, Receipt, Root, RootState, Stopper};
use chip_sequence::Outcome;

/// Gives the stopper, if there is one, back to the root: nothing is sealed from then on.
pub(crate) fn take_back(net: &Net, root: &mut Root, seal: Option<(Stopper, SealAt)>)
    requires net { root.old.net ≡ net.now }
    requires stopper { IfSome seal (λ s. s.0.net ≡ net.now) }
    ensures back { HasBack seal root.old root.new }
    ensures net { root.new.net ≡ net.now }
{
    if let Some((stopper, _)) = seal {
        root.take_back(net, stopper);
    }
}

/// Makes the last poll and finishes. If messages are open it returns their number and the root.
pub(crate) fn last_poll(net: &Net, mut root: Root) -> Result<(Outcome, Receipt), (u64, Root)>
    requires net { root.net ≡ net.now }
    ensures ends { MatchResult result (λ r. EndsWell root r.1 r.0) (λ r. StaysOpen root r.1 r.0) }
    ensures net { IfOk result (λ r. r.1.net ≡ net.now) }
{
    let state = root.poll(net);
    match root.finish(net) {
        Ok(ended) => Ok(ended),
        Err(root) => match state {
            RootState::Running(deficit) => Err((deficit, root)),
            RootState::Closed => unreachable!(),
        },
    }
}
