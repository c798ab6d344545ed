ghost use Rattle.std.specs.Prelude.{◌<◌};

use super::{World, fired_word};
use chip_link::Event;

/// The result of a drive.
#[derive(Clone, Copy, PartialEq, Eq)]
pub enum Drive {
    /// The root is closed.
    Closed,
    /// The root is still open after this number of rounds.
    Unfinished(u64),
}

impl World {
    ghost use Rattle.chip_world.specs.World.{SomeLogWhere};
    ghost use Rattle.chip_world.specs.Rounds.{LeadsWorld, IsTurnAfter, AreTurns, AreRootsSettled, IsWorldRound, IsDrive};
    ghost use Rattle.chip_world.specs.Rounds.{NoOtherDrive, ClosesBy};
    ghost use Rattle.chip_world.specs.Enough.{ClosesIn};

    /// Makes one whole turn of a vertex, over the shared words.
    fn turn(&mut self, vertex: u64)
        requires { SomeLogWhere self.old (λ g log. vertex < g.game.graph.vertices) }
        ensures { LeadsWorld self.old self.new (λ g before after. IsTurnAfter g vertex before after) }
    {
        let actor = &mut self.actors[vertex as usize];
        let fired = fired_word(actor);
        self.shared.fired = fired;
        actor.turn(&mut self.shared);
    }

    /// Makes a turn of each vertex.
    fn turns(&mut self)
        ensures { LeadsWorld self.old self.new (λ g before after. AreTurns g g.game.graph.vertices before after) }
    {
        for vertex in 0..self.setting.vertices() {
            self.turn(vertex);
        }
    }

    /// Settles each root edge.
    fn settle_roots(&mut self)
        ensures { LeadsWorld self.old self.new AreRootsSettled }
    {
        for vertex in 0..self.setting.vertices() {
            let edge = self.setting.root_edge(vertex);
            self.of_root(Event::Settle(edge));
        }
    }

    /// Makes a turn of each vertex, and then settles each root edge.
    fn round(&mut self)
        ensures { LeadsWorld self.old self.new IsWorldRound }
    {
        self.turns();
        self.settle_roots();
    }

    /// Makes rounds until the root is closed, at most `rounds`: in each, every vertex makes one whole turn, and then
    /// the root settles each of its edges. Once the end is noted and the root has put what it claimed,
    /// `rounds_to_close` rounds close it (`specs/Enough.antt`), and so do more rounds than steps that can count.
    pub fn drive(&mut self, rounds: u64) -> Drive
        ensures drives { LeadsWorld self.old self.new (λ g before after. IsDrive g rounds before after result) }
        ensures no_other { NoOtherDrive self.old self.new rounds result }
        ensures closes { ClosesBy self.old rounds result }
        ensures closes_in { ClosesIn self.old rounds result }
    {
        for _ in 0..rounds {
            if self.closed() {
                return Drive::Closed;
            }
            self.round();
        }
        if self.closed() {
            Drive::Closed
        } else {
            Drive::Unfinished(rounds)
        }
    }
}
