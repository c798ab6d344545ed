//! A pile: a game that has ended, on which chips are dropped.

ghost use Rattle.std.specs.Prelude.{◌≡◌, ◌↔◌, ℕ, ◌+◌, ◌*◌, ◌<◌, ◌≤◌, true, List, [], ◌∷◌, sum, slice_index, is_none};
ghost use Rattle.std.specs.Prelude.{IfOk, IfSome, MatchResult};
ghost use Rattle.chip_graph.specs.Limits.{max_total};
ghost use Rattle.chip_graph.specs.ChipGame.{ChipGame, IsGame};
ghost use Rattle.chip_graph.specs.More.{HasMore};
ghost use Rattle.chip_sequence.specs.Play.{IsPlayed};
ghost use Rattle.chip_fire.specs.Player.{PlaysOut};
ghost use Rattle.chip_fire.specs.Avalanches.{dropped, TellsAvalanche};
ghost use Rattle.chip_fire.specs.Pile.{IsPile, IsBegunDrop};
ghost use Rattle.chip_fire.specs.Lent.{pile_on};
ghost use Rattle.chip_sequence.specs.Firing.{IsStable};
ghost use Rattle.chip_fire.specs.BegunPile.{IsBegunPile, IsAtStart, PlaysOn};
ghost use Rattle.chip_fire.specs.Measured.{HasRow, TellsMeasured, row_vertices, row_times};
ghost use Rattle.chip_fire.specs.Timed.{EndsInRounds};
ghost use Rattle.chip_fire.specs.Search.{places};

use crate::avalanche::{Avalanche, Measured, Room, is_stable, play_from, play_out, tally};
use crate::course::Course;
use crate::play::Play;
use crate::watch::{Unwatched, Watch};
use chip_graph::{Game, Graph};
use chip_sequence::Outcome;
use std::alloc::{AllocError, Global};

/// A game with all chips at its start that were dropped, played to its end.
#[derive(Drop)]
pub struct Pile {
    game: Game,
    /// By vertex.
    chips: Vec<u64>,
    /// How often each vertex has fired in all.
    fired: Vec<u64>,
    room: Room,
    /// What its play is at.
    course: Course,
}

impl Pile {
    /// A pile on which nothing was dropped, of a game and its outcome. Drops take no more memory than it has then, but
    /// for what a search takes if there is some.
    #[tactic(auto, using(crate::proofs::DropLemmas::played_begun, crate::proofs::DropLemmas::played_rests, crate::proofs::DropLemmas::keeps_room))]
    pub fn new(alloc: Global, game: Game, outcome: Outcome) -> Result<Pile, AllocError>
        requires game { IsGame game }
        requires played { IsPlayed game outcome }
        ensures pile { IfOk result IsPile }
        ensures game { IfOk result (λ pile. pile.game ≡ game) }
        ensures chips { IfOk result (λ pile. pile.chips.items ≡ outcome.chips.items) }
    {
        let vertices = game.graph().vertices() as usize;
        let Outcome { fired, chips, .. } = outcome;
        let room = Room::new(alloc, vertices, &fired)?;
        Ok(Pile {
            game,
            chips,
            fired,
            room,
            course: Course::Rounds,
        })
    }

    /// A pile at the start of a game, which is still to be played.
    pub fn begin(alloc: Global, game: Game) -> Result<Pile, AllocError>
        requires { IsGame game }
        ensures begun { IfOk result IsBegunPile }
        ensures start { IfOk result (IsAtStart game) }
    {
        let vertices = game.graph().vertices() as usize;
        let chips = Vec::from_slice(alloc, game.start())?;
        let fired = vec![in alloc; 0; vertices]?;
        let room = Room::new(alloc, vertices, &fired)?;
        Ok(Pile {
            game,
            chips,
            fired,
            room,
            course: Course::Begins,
        })
    }

    /// The pile at the start of another game on its graph, which is still to be played. This takes no memory.
    pub fn put(self, start: Vec<u64>, limit: u64) -> Pile
        requires begun { IsBegunPile self }
        requires game { IsGame (record { graph = self.game.graph; start = start.items; limit = limit }) }
        ensures begun { IsBegunPile result }
        ensures start { IsAtStart (record { graph = self.game.graph; start = start.items; limit = limit }) result }
    {
        let Pile {
            game,
            mut chips,
            mut fired,
            mut room,
            ..
        } = self;
        chips.copy_from_slice(&start);
        fired.fill(0);
        room.is_current = false;
        Pile {
            game: game_on(game.into_graph(), start, limit),
            chips,
            fired,
            room,
            course: Course::Begins,
        }
    }

    /// Takes the graph out, until `Lent::back`; or returns the unchanged pile if memory ran out.
    pub fn lend(self, alloc: Global) -> Result<(Graph, Lent), Pile>
        ensures { MatchResult result (λ lent. self ≡ pile_on lent.0 lent.1) (λ pile. pile ≡ self) }
    {
        let Ok(start) = Vec::from_slice(alloc, self.game.start()) else {
            return Err(self);
        };
        let Pile {
            game,
            chips,
            fired,
            room,
            course,
        } = self;
        let limit = game.limit();
        let lent = Lent {
            start,
            limit,
            chips,
            fired,
            room,
            course,
        };
        Ok((game.into_graph(), lent))
    }

    /// Whether no vertex is legal.
    pub fn is_stable(&self) -> bool
        requires { IsBegunPile self.now }
        ensures { (result ≡ true) ↔ IsStable self.now.game.graph (slice_index self.now.chips.items) }
    {
        matches!(self.course, Course::Stable) || is_stable(self.game.graph(), &self.chips)
    }

    /// Plays on by `visits` visits (`Play::go_on`); how many it made, and whether the play goes on.
    #[tactic(auto, using(crate::proofs::CourseLemmas::plays_on))]
    pub fn go_on(self, alloc: Global, visits: u64) -> (Pile, u64, bool)
        requires { IsBegunPile self }
        ensures plays { PlaysOn self result.0 visits result.2 }
        ensures at_most { result.1 ≤ visits + 161 * places self.game }
    {
        let Pile {
            game,
            chips,
            fired,
            mut room,
            course,
        } = self;
        let mut play = Play {
            game: &game,
            chips,
            fired,
        };
        let mut made = 0;
        let (course, goes_on) = play.go_on(alloc, course, visits, &mut made, &mut Unwatched);
        let Play { chips, fired, .. } = play;
        room.is_current = false;
        let pile = Pile {
            game,
            chips,
            fired,
            room,
            course,
        };
        (pile, made, goes_on)
    }

    /// Drops `count` chips on a vertex and plays to the end: the avalanche, or `None` if the limit has stopped it.
    pub fn drop_chips(self, alloc: Global, vertex: u64, count: u64) -> (Pile, Option<Avalanche>)
        requires pile { IsPile self }
        requires stable { IsStable self.game.graph (slice_index self.chips.items) }
        requires is_vertex { vertex < self.game.graph.vertices }
        requires few_chips { sum self.game.start + count ≤ max_total }
        ensures pile { IsPile result.0 }
        ensures game { HasMore self.game ((vertex, count) ∷ []) result.0.game }
        ensures avalanche { TellsAvalanche self.game.graph (dropped (slice_index self.chips.items) vertex count)
            result.0 result.1 }
    {
        self.begin_drop(vertex, count).finish(alloc, &mut Unwatched)
    }

    /// `drop_chips`, which counts the rounds of the avalanche too if it is timed. Then it is played in rounds,
    /// in each of which each legal vertex fires once: a vertex with many chips fires one time after another.
    pub fn drop_measured(
        self,
        alloc: Global,
        vertex: u64,
        count: u64,
        timed: bool,
    ) -> (Pile, Option<Measured>)
        requires pile { IsPile self }
        requires stable { IsStable self.game.graph (slice_index self.chips.items) }
        requires is_vertex { vertex < self.game.graph.vertices }
        requires few_chips { sum self.game.start + count ≤ max_total }
        ensures pile { IsPile result.0 }
        ensures game { HasMore self.game ((vertex, count) ∷ []) result.0.game }
        ensures measured { TellsMeasured self.game.graph (dropped (slice_index self.chips.items) vertex count)
            result.0 timed result.1 }
    {
        let (begun, duration) = self.begin_with(vertex, count, timed);
        let (pile, avalanche) = begun.finish(alloc, &mut Unwatched);
        match avalanche {
            Some(avalanche) => {
                let measured = Measured {
                    avalanche,
                    duration,
                };
                (pile, Some(measured))
            }
            None => (pile, None),
        }
    }

    /// Drops `count` chips on a vertex, and plays on by a work list. `drop_chips` is this and `finish`.
    pub fn begin_drop(self, vertex: u64, count: u64) -> BegunDrop
        requires pile { IsPile self }
        requires stable { IsStable self.game.graph (slice_index self.chips.items) }
        requires is_vertex { vertex < self.game.graph.vertices }
        requires few_chips { sum self.game.start + count ≤ max_total }
        ensures { IsBegunDrop self.game ((vertex, count) ∷ []) (dropped (slice_index self.chips.items) vertex count)
            result }
    {
        self.begin_with(vertex, count, false).0
    }

    /// Drops `count` chips on a vertex, and plays on as `play_from`, which counts the rounds.
    fn begin_with(self, vertex: u64, count: u64, timed: bool) -> (BegunDrop, u64)
        requires pile { IsPile self }
        requires stable { IsStable self.game.graph (slice_index self.chips.items) }
        requires is_vertex { vertex < self.game.graph.vertices }
        requires few_chips { sum self.game.start + count ≤ max_total }
        ensures begun { IsBegunDrop self.game ((vertex, count) ∷ []) (dropped (slice_index self.chips.items) vertex count)
            result.0 }
        ensures rounds { timed ≡ true → EndsInRounds self.game.graph self.game.limit
            (dropped (slice_index self.chips.items) vertex count) result.0.pile.chips.items result.0.pile.fired.items
            result.0.worked result.1 }
    {
        let Pile {
            game,
            mut chips,
            mut fired,
            mut room,
            ..
        } = self;
        let game = with_drop(game, vertex, count);
        chips[vertex as usize] += count;
        let arrived = chips[game.graph().sink() as usize];
        room.make_current(&fired);
        let (worked, rounds) = play_from(&game, vertex, timed, &mut chips, &mut fired, &mut room);
        let pile = Pile {
            game,
            chips,
            fired,
            room,
            course: Course::Rounds,
        };
        let begun = BegunDrop {
            pile,
            arrived,
            worked,
        };
        (begun, rounds)
    }

    /// The game, with all chips at its start that were dropped.
    pub fn game(&self) -> &Game
        ensures { result.now ≡ self.now.game }
    {
        &self.game
    }

    /// How many chips each vertex has.
    pub fn chips(&self) -> &[u64]
        ensures { result.now ≡ self.now.chips.items }
    {
        &self.chips
    }

    /// How often each vertex has fired, from the start of the game on.
    pub fn fired(&self) -> &[u64]
        ensures { result.now ≡ self.now.fired.items }
    {
        &self.fired
    }

    /// The vertices that fired in the last drop, each once: in the order in which they fired first, or ascending if its
    /// work list gave up.
    pub fn row_vertices(&self) -> &[u64]
        requires { IsPile self.now }
        ensures { result.now ≡ row_vertices self.now }
    {
        &self.room.support[..self.room.row]
    }

    /// How often each vertex of `row_vertices` fired in the last drop.
    pub fn row_times(&self) -> &[u64]
        requires { IsPile self.now }
        ensures { result.now ≡ row_times self.now }
    {
        &self.room.list[..self.room.row]
    }

    /// The outcome of the game that has all chips at its start.
    pub fn outcome(self, alloc: Global) -> Result<Outcome, AllocError>
        requires { IsPile self }
        ensures { IfOk result (PlaysOut self.game) }
    {
        let Pile {
            game,
            chips,
            fired,
            ..
        } = self;
        let play = Play {
            game: &game,
            chips,
            fired,
        };
        play.outcome(alloc)
    }
}

/// A pile whose graph is lent.
#[derive(Drop)]
pub struct Lent {
    start: Vec<u64>,
    limit: u64,
    chips: Vec<u64>,
    fired: Vec<u64>,
    room: Room,
    course: Course,
}

impl Lent {
    /// The pile, with the graph back in its place.
    pub fn back(self, graph: Graph) -> Pile
        requires { IsGame (pile_on graph self).game }
        ensures { result ≡ pile_on graph self }
    {
        let Lent {
            start,
            limit,
            chips,
            fired,
            room,
            course,
        } = self;
        Pile {
            game: game_on(graph, start, limit),
            chips,
            fired,
            room,
            course,
        }
    }
}

/// A drop that a work list has played to the end, or given up.
#[derive(Drop)]
pub struct BegunDrop {
    /// With the counts from before the drop in its room.
    pub pile: Pile,
    /// How many chips the sink had with the drop.
    arrived: u64,
    /// How many at the front of the support are all vertices that fired, if the work list came to the end.
    worked: Option<usize>,
}

impl BegunDrop {
    /// Whether the work list gave up, and the play goes on by rounds and a search.
    pub fn is_slow(&self) -> bool
        ensures { result ≡ is_none self.now.worked }
    {
        self.worked.is_none()
    }

    /// Plays to the end: the avalanche, or `None` if the limit has stopped it.
    #[tactic(auto, using(crate::proofs::DropLemmas::keeps_room))]
    pub fn finish<P: Watch>(self, alloc: Global, watch: &mut P) -> (Pile, Option<Avalanche>)
        requires { (g : ChipGame) × (ds : List (ℕ × ℕ)) × (x : ℕ → ℕ) × IsBegunDrop g ds x self }
        ensures pile { IsPile result.0 }
        ensures avalanche { (g : ChipGame) (ds : List (ℕ × ℕ)) (x : ℕ → ℕ) → IsBegunDrop g ds x self
            → HasMore g ds result.0.game × TellsAvalanche g.graph x result.0 result.1 }
        ensures row { (g : ChipGame) (ds : List (ℕ × ℕ)) (x : ℕ → ℕ) → IsBegunDrop g ds x self
            → IfSome result.1 (λ _. HasRow g.graph x (row_vertices result.0) (row_times result.0)) }
        ensures same_game { result.0.game ≡ self.pile.game }
    {
        let BegunDrop {
            pile,
            arrived,
            worked,
        } = self;
        let Pile {
            game,
            chips,
            fired,
            mut room,
            ..
        } = pile;
        let mut play = Play {
            game: &game,
            chips,
            fired,
        };
        let (found, stable) = play_out(alloc, &mut play, worked, &mut room, watch);
        let Play { chips, fired, .. } = play;
        let (size, extent) = tally(
            found,
            &fired,
            &mut room.before,
            &mut room.support,
            &mut room.list,
        );
        room.row = extent;
        let lost = chips[game.graph().sink() as usize].saturating_sub(arrived);
        let pile = Pile {
            game,
            chips,
            fired,
            room,
            course: Course::Rounds,
        };
        if stable {
            (
                pile,
                Some(Avalanche {
                    size,
                    extent: extent as u64,
                    lost,
                }),
            )
        } else {
            (pile, None)
        }
    }
}

/// The game that begins with these chips.
fn game_on(graph: Graph, start: Vec<u64>, limit: u64) -> Game
    requires { IsGame (record { graph = graph; start = start.items; limit = limit }) }
    ensures { result ≡ record { graph = graph; start = start.items; limit = limit } }
{
    match Game::new(graph, start, limit) {
        Ok(game) => game,
        Err(_) => unreachable!(),
    }
}

/// The game with a drop on it.
fn with_drop(game: Game, vertex: u64, count: u64) -> Game
    requires is_game { IsGame game }
    requires is_vertex { vertex < game.graph.vertices }
    requires few_chips { sum game.start + count ≤ max_total }
    ensures { HasMore game ((vertex, count) ∷ []) result }
{
    match game.with_more(&[(vertex, count)]) {
        Ok(game) => game,
        Err(_) => unreachable!(),
    }
}
