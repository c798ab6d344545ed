//! A play of a game: its state, and its outcome once it has ended.

ghost use Rattle.std.specs.Prelude.{◌≡◌, ℕ, ◌↔◌, IfOk, IsTrue, length, slice_index};
ghost use Rattle.chip_sequence.specs.Firing.{IsStable, legal_vertices};
ghost use Rattle.chip_fire.specs.Rounds.{IsAtRest};
ghost use Rattle.chip_fire.specs.Course.{IsCourse};
ghost use Rattle.chip_fire.specs.Player.{PlaysOut};
ghost use Rattle.chip_fire.specs.declared.course.Course.TheVariants.{Stable};

use crate::course::Course;
use crate::work_list::is_legal;
use chip_graph::{Game, Graph};
use chip_sequence::Outcome;
use std::alloc::{AllocError, Global};
use std::marker::Model;

/// A play of a game on one thread. Whatever is done with it, it stays on the way to the one end (`specs/Rounds.antt`).
#[derive(Drop)]
pub struct Play<'a> {
    pub game: &'a Game,
    /// The chips of each vertex.
    pub chips: Vec<u64>,
    /// How often each vertex has fired.
    pub fired: Vec<u64>,
}

impl<'a> Model for Play<'a> {
    ghost use Rattle.chip_fire.specs.Rounds.{PlayState, IsBegun};

    ghost Value = { PlayState };

    ghost view = { λ a. record { game = a.game.now; chips = a.chips.items; fired = a.fired.items } };

    ghost invariant = { λ a. IsBegun a.game.now a.chips.items a.fired.items };
}

impl<'a> Play<'a> {
    /// The start, if no vertex has fired. The memory of these two lists is all that a play needs.
    pub fn new(alloc: Global, game: &'a Game) -> Result<Play<'a>, AllocError>
        ensures game { IfOk result (λ play. play.game ≡ game.now) }
        ensures unfired { IfOk result (λ play. (v : ℕ) → slice_index play.fired v ≡ 0) }
    {
        let chips = Vec::from_slice(alloc, game.start())?;
        let fired = vec![in alloc; 0; game.graph().vertices() as usize]?;
        Ok(Play { game, chips, fired })
    }

    /// Whether no vertex may fire within the limit.
    pub fn is_at_rest(&self) -> bool
        ensures { IsTrue result ↔ IsAtRest self.now.game self.now.chips self.now.fired }
    {
        let (graph, limit) = (self.game.graph(), self.game.limit());
        for vertex in 0..graph.vertices() {
            if is_legal(graph, &self.chips, vertex) && self.fired[vertex as usize] != limit {
                return false;
            }
        }
        true
    }

    /// The outcome, if no vertex may fire within the limit.
    pub fn outcome(self, alloc: Global) -> Result<Outcome, AllocError>
        requires { IsAtRest self.game self.chips self.fired }
        ensures { IfOk result (PlaysOut self.entry.game) }
    {
        self.outcome_at(alloc, &Course::Rounds)
    }

    /// The outcome, if no vertex may fire within the limit and the play is at this course.
    pub(crate) fn outcome_at(self, alloc: Global, course: &Course) -> Result<Outcome, AllocError>
        requires rests { IsAtRest self.game self.chips self.fired }
        requires course { IsCourse self.game self.chips self.fired course.now }
        ensures { IfOk result (PlaysOut self.entry.game) }
    {
        let Play { game, chips, fired } = self;
        let over = over_at(alloc, game.graph(), &chips, course)?;
        Ok(Outcome {
            fired,
            chips,
            over,
            sealed: Vec::new(alloc),
        })
    }
}

/// The vertices that are legal, ascending: none at `Course::Stable`.
fn over_at(
    alloc: Global,
    graph: &Graph,
    chips: &[u64],
    course: &Course,
) -> Result<Vec<u64>, AllocError>
    requires each { length chips.now ≡ graph.now.vertices }
    requires stable { course.now ≡ Stable → IsStable graph.now (slice_index chips.now) }
    ensures { IfOk result (λ over. over.items ≡ legal_vertices graph.now (slice_index chips.now)) }
{
    match course {
        Course::Stable => Ok(Vec::new(alloc)),
        _ => legal_vertices(alloc, graph, chips),
    }
}

/// The vertices that are legal, ascending.
fn legal_vertices(alloc: Global, graph: &Graph, chips: &[u64]) -> Result<Vec<u64>, AllocError>
    requires { length chips.now ≡ graph.now.vertices }
    ensures { IfOk result (λ legal. legal.items ≡ legal_vertices graph.now (slice_index chips.now)) }
{
    let mut legal = Vec::new(alloc);
    for vertex in 0..graph.vertices() {
        if is_legal(graph, chips, vertex) {
            legal.push(vertex)?;
        }
    }
    Ok(legal)
}
