ghost use Rattle.std.specs.Prelude.{◌≡◌, ◌↔◌, IfOk, IsErrOf};

use super::World;
use crate::fault::WorldFault;
use chip_part::Cause;
use chip_sequence::{Outcome, after_from};
use std::alloc::{AllocError, Global};

impl World {
    ghost use Rattle.chip_sequence.specs.Outcomes.{IsOutcome};
    ghost use Rattle.chip_sequence.specs.Counted.{IsAfter};
    ghost use Rattle.chip_sequence.specs.Play.{IsPlayed};
    ghost use Rattle.chip_core.specs.Core.{IsClosed};
    ghost use Rattle.chip_core.specs.Positions.{chips_given, played_game, firings};
    ghost use Rattle.chip_core.specs.Headline.{NoneHaltedBySeal};
    ghost use Rattle.chip_world.specs.World.{SomeLogLeaves, WhateverLog};
    ghost use Rattle.chip_core.specs.Outcomes.{halted_by, AreFired, IsOutcomeOf, ComesTo};
    ghost use Rattle.chip_world.specs.declared.fault.WorldFault.TheVariants.{NotClosed};

    /// The outcome of a game whose root is closed: the counts of the vertices, the chips by these counts, and the
    /// halted vertices.
    ///
    /// The chips are those that the firings made: chips held back by a sealed edge count as sent. Takes time linear in
    /// vertices and edges. Fails without memory and while the root is open.
    pub fn outcome(&self, alloc: Global) -> Result<Outcome, WorldFault>
        ensures not_closed { WhateverLog self.now (λ g log. IsErrOf result NotClosed ↔ (IsClosed g log → ⊥)) }
        ensures closed { IfOk result (λ o. WhateverLog self.now (λ g log. IsClosed g log)) }
        ensures outcome { IfOk result (λ o. WhateverLog self.now (λ g log. IsOutcomeOf g log o)) }
        ensures in_range { IfOk result IsOutcome }
        ensures comes { IfOk result
            (λ o. WhateverLog self.now (λ g log. ComesTo g (chips_given g log) (firings log) o)) }
        ensures played { IfOk result
            (λ o. WhateverLog self.now (λ g log. NoneHaltedBySeal g log → IsPlayed (played_game g log) o)) }
    {
        if !self.closed() {
            return Err(WorldFault::NotClosed);
        }
        let fired = self.firing_counts(alloc)?;
        let chips = self.chips_after(alloc, &fired)?;
        Ok(Outcome {
            fired,
            chips,
            over: self.halted_by(alloc, Cause::FiringLimit)?,
            sealed: self.halted_by(alloc, Cause::SealedEdge)?,
        })
    }

    // The chips of each vertex by all firing counts, from the chips given at the start and by feeds.
    fn chips_after(&self, alloc: Global, fired: &[u64]) -> Result<Vec<u64>, AllocError>
        requires { WhateverLog self.now (λ g log. AreFired g log g.game.graph.vertices fired.now) }
        ensures some { SomeLogLeaves self.now }
        ensures chips { IfOk result (λ chips. WhateverLog self.now
            (λ g log. IsAfter (played_game g log) fired.now chips.items)) }
    {
        let graph = self.setting().game().graph();
        let given = self.root.given();
        let mut chips = vec![in alloc; 0; fired.len()]?;
        match after_from(graph, given, fired, &mut chips) {
            Ok(()) => Ok(chips),
            Err(_) => unreachable!(),
        }
    }

    // The firing counts of the vertices.
    fn firing_counts(&self, alloc: Global) -> Result<Vec<u64>, AllocError>
        ensures { IfOk result (λ fired. WhateverLog self.now (λ g log. AreFired g log g.game.graph.vertices fired.items)) }
    {
        let vertices = self.setting().vertices();
        let mut fired = Vec::with_capacity(alloc, vertices as usize)?;
        for vertex in 0..vertices {
            fired.push_reserved(self.fired(vertex));
        }
        Ok(fired)
    }

    // The vertices that halted for this cause, ascending.
    fn halted_by(&self, alloc: Global, cause: Cause) -> Result<Vec<u64>, AllocError>
        ensures { IfOk result (λ halted. WhateverLog self.now
            (λ g log. halted.items ≡ halted_by g log cause g.game.graph.vertices)) }
    {
        let mut halted = Vec::new(alloc);
        for vertex in 0..self.setting().vertices() {
            if self.halted(vertex) == Some(cause) {
                halted.push(vertex)?;
            }
        }
        Ok(halted)
    }
}
