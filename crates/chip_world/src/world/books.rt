//! The books of the detector, vertex by vertex: parents, deficits, and owed acknowledgements.

ghost use Rattle.std.specs.Prelude.{◌≡◌, ◌<◌};

use super::World;

impl World {
    ghost use Rattle.chip_part.specs.Part.{deficit_of, owed_on};
    ghost use Rattle.chip_part.specs.Edges.{all_edges, root};
    ghost use Rattle.chip_core.specs.Core.{part_in, into_in};
    ghost use Rattle.chip_world.specs.World.{WhateverLog};

    /// The edge of the message that engaged this vertex, if it is engaged.
    pub fn parent(&self, vertex: u64) -> Option<u64>
        requires { vertex < self.now.setting.game.graph.vertices }
        ensures { WhateverLog self.now (λ g log. result ≡ (part_in g log vertex).parent) }
    {
        self.actors[vertex as usize].detect().parent()
    }

    /// The number of acknowledgements this vertex waits for, on all edges out of it.
    pub fn deficit(&self, vertex: u64) -> u64
        requires { vertex < self.now.setting.game.graph.vertices }
        ensures { WhateverLog self.now (λ g log. result ≡ deficit_of g vertex (part_in g log vertex)) }
    {
        self.actors[vertex as usize].detect().deficit()
    }

    /// The number of acknowledgements the root waits for.
    pub fn root_deficit(&self) -> u64
        ensures { WhateverLog self.now (λ g log. result ≡ deficit_of g (root g) (part_in g log (root g))) }
    {
        self.root.outstanding()
    }

    /// The number of acknowledgements the head of this edge owes on it. Root edges come after the graph's.
    pub fn owed(&self, edge: u64) -> u64
        requires { edge < all_edges self.now.setting }
        ensures { WhateverLog self.now (λ g log. result ≡ owed_on (into_in g log edge)) }
    {
        let head = self.setting.head(edge).unwrap();
        self.actors[head as usize].detect().owed(edge)
    }
}
