ghost use Rattle.std.specs.Prelude.{◌≡◌, ◌≤◌, ℕ, length, slice_index, IfSome};

use crate::burning::Burning;
use crate::given::floats_of;
use crate::hierarchy::{Hierarchy, Kind, spend};
use crate::solver::{Progress, Solver, Target};
use crate::tuning::{
    FIRST_RAISE, GREAT, STEPS_BEFORE_FIT, STEPS_BEFORE_LATE_FIT, STEPS_OF_FIT, WALL_OFFSETS,
    WALL_SPACING,
};
use chip_graph::{Game, Graph};
use std::alloc::{AllocError, Global};
use std::mem;
use std::num::saturating_f64_to_u64;

mod fit;

/// The stage of a search.
#[derive(Clone, Copy)]
enum Stage {
    /// The counts approach those that leave the target heights.
    Solving,
    /// They are burnt between walls, to see at what heights the vertices of a patch stay.
    Fitting,
    /// They are burnt until they pass the test.
    Burning,
    /// They passed, and the search is over.
    Found,
    /// Nothing was found, and the search is over.
    GivenUp,
}

/// A step-by-step search for counts: how often each vertex of a game has fired at the end, nearly and mostly not more.
///
/// It solves an obstacle problem on aggregates of vertices and on their aggregates, and burns the solution until it
/// passes a test that every play reaches it. If that takes long, it fits target heights to what patches of vertices
/// keep, and solves the problem again.
#[derive(Drop)]
pub struct Search {
    hierarchy: Hierarchy,
    /// The number of chips of the game.
    chips: u64,
    /// The last solution.
    counts: Vec<f64>,
    /// The target height of each vertex.
    heights: Vec<f64>,
    stage: Stage,
    solver: Box<Solver>,
    burning: Box<Burning>,
    /// The number of kinds of target heights tried before this one.
    tried: usize,
    /// How often heights were fitted.
    fits: usize,
    /// Whether another fit may help.
    may_fit: bool,
    /// The sum of the last counts that passed; 0 if none did.
    passed: i64,
    /// How many more times each vertex fires when counts pass.
    raise: i64,
    /// The number of steps made.
    steps: u64,
    /// The number of changes of phase.
    phases: u64,
}

impl Search {
    /// Begins the search for a game played up to the counts `fired`.
    pub fn new(
        alloc: Global,
        hierarchy: Hierarchy,
        game: &Game,
        fired: &[u64],
    ) -> Result<Search, AllocError> {
        let may_fit = hierarchy.kind == Kind::Symmetric && has_walls(game.graph());
        let mut search = Search {
            hierarchy,
            chips: game.total(),
            counts: floats_of(alloc, game, fired)?,
            heights: vec![in alloc; 0.0; fired.len()]?,
            stage: Stage::GivenUp,
            solver: Box::new(alloc, Solver::new(alloc))?,
            burning: Box::new(alloc, Burning::new(alloc))?,
            tried: 0,
            fits: 0,
            may_fit,
            passed: 0,
            raise: FIRST_RAISE,
            steps: 0,
            phases: 0,
        };
        search.stage = search.try_heights(alloc, Target { game, fired })?;
        Ok(search)
    }

    /// Makes steps until the search is over, or `most` visits in all may not suffice for the next one. Returns whether
    /// it is over. Game and counts must be those of `new`. Adds its visits of vertices and links to `visits`.
    pub fn go_on(
        &mut self,
        alloc: Global,
        game: &Game,
        fired: &[u64],
        visits: &mut u64,
        most: u64,
    ) -> Result<bool, AllocError>
        requires { visits.old ≤ most }
        ensures more { visits.old ≤ visits.new }
        ensures at_most { visits.new ≤ most }
    {
        let target = Target { game, fired };
        'steps: for _ in 0..u64::MAX {
            if self.stage == Stage::Found || self.stage == Stage::GivenUp {
                return Ok(true);
            }
            let phase = self.visits_of_phase();
            let rest = most.saturating_sub(phase).max(*visits);
            let before = *visits;
            if !spend(visits, self.visits_of_step(), rest) {
                return Ok(false);
            }
            self.steps = self.steps.saturating_add(1);
            let (phases, is_burning) = (self.phases, self.stage != Stage::Solving);
            self.stage = match mem::replace(&mut self.stage, Stage::GivenUp) {
                Stage::Solving => self.solve(alloc, target)?,
                Stage::Fitting => self.fit(alloc, target)?,
                _ => self.burn(alloc, target)?,
            };
            if is_burning {
                *visits = before.saturating_add(self.burning.visited).min(*visits);
            }
            if self.phases != phases {
                spend(visits, phase, most);
            }
        }
        Ok(false)
    }

    /// The counts found, including those of `fired`, up to this limit; `None` if none were found, or memory runs out.
    pub fn found(&self, alloc: Global, fired: &[u64], limit: u64) -> Option<Vec<u64>>
        ensures each { IfSome result (λ counts. length counts.items ≡ length fired.now) }
        ensures within { IfSome result (λ counts. (v : ℕ) → slice_index counts.items v ≤ limit) }
    {
        if self.stage == Stage::Found {
            self.burning.counts(alloc, fired, limit).ok()
        } else {
            None
        }
    }

    /// The most visits of the next step, with a change of phase.
    pub fn visits_of_next(&self) -> u64 {
        self.visits_of_step().saturating_add(self.visits_of_phase())
    }

    /// The visits between two phases: three of the whole graph, and ten more of its vertices.
    fn visits_of_phase(&self) -> u64 {
        let finest = &self.hierarchy.finest;
        let vertices = (finest.rows.len() as u64).saturating_mul(10);
        finest.size().saturating_mul(3).saturating_add(vertices)
    }

    /// The number of steps made, up to 2^64 - 1: cycles, and lowerings of the counts.
    pub fn steps(&self) -> u64 {
        self.steps
    }

    /// About how many chips still have to move until the counts are found: from 1 to the chips of the game, and 0 once
    /// the search is over. While solving, the chips above or below the target heights; while burning, those that
    /// vertices lack to pass the test. Reads the whole graph.
    pub fn chips_to_move(&self) -> u64 {
        let chips = match self.stage {
            Stage::Solving => saturating_f64_to_u64(self.solver.norm(&self.hierarchy)),
            Stage::Fitting | Stage::Burning => self.burning.lacking_chips(&self.hierarchy),
            Stage::Found | Stage::GivenUp => return 0,
        };
        chips.min(self.chips).max(1)
    }

    /// The most visits of a step. A cycle visits each level five times, its vertices three more times, and the finest
    /// level once or twice more. All levels have at most twice the vertices of the finest.
    fn visits_of_step(&self) -> u64 {
        if self.stage != Stage::Solving {
            return self.burning.visits;
        }
        let finest = &self.hierarchy.finest;
        let vertices = (finest.rows.len() as u64).saturating_mul(6);
        let is_once = self.hierarchy.kind == Kind::Symmetric;
        let more = finest.size().saturating_mul(if is_once { 1 } else { 2 });
        let all = self.hierarchy.size().saturating_mul(5);
        all.saturating_add(vertices).saturating_add(more)
    }

    /// Begins to solve for the next target heights, or gives up if all were tried.
    fn try_heights(&mut self, alloc: Global, target: Target<'_>) -> Result<Stage, AllocError> {
        let Some(kept) = self.hierarchy.kind.heights().get(self.tried) else {
            return Ok(Stage::GivenUp);
        };
        for (vertex, height) in self.heights.iter_mut().enumerate() {
            *height = kept.of(self.hierarchy.finest.degree(vertex));
        }
        self.begin_to_solve(alloc, target)
    }

    /// Begins to solve for the target heights.
    fn begin_to_solve(&mut self, alloc: Global, target: Target<'_>) -> Result<Stage, AllocError> {
        self.phases = self.phases.wrapping_add(1);
        let counts = mem::replace(&mut self.counts, Vec::new(alloc));
        self.solver
            .begin(alloc, &self.hierarchy, target, &self.heights, counts)?;
        Ok(Stage::Solving)
    }

    /// Makes a cycle, and begins to burn the counts once they are near.
    fn solve(&mut self, alloc: Global, target: Target<'_>) -> Result<Stage, AllocError> {
        match self.solver.step(&self.hierarchy) {
            Progress::Going => return Ok(Stage::Solving),
            Progress::Diverged => return Ok(Stage::GivenUp),
            Progress::Converged => {}
        }
        self.counts = self.solver.end(alloc);
        self.begin_to_burn(alloc, target, Stage::Burning)
    }

    /// Begins to burn the counts, if the position that they give is not too great.
    fn begin_to_burn(
        &mut self,
        alloc: Global,
        target: Target<'_>,
        stage: Stage,
    ) -> Result<Stage, AllocError> {
        self.phases = self.phases.wrapping_add(1);
        if self
            .burning
            .begin(alloc, &self.hierarchy, target, &self.counts)?
        {
            Ok(stage)
        } else {
            Ok(Stage::GivenUp)
        }
    }

    /// Burns the counts between walls once. After some times, solves for heights that are fitted to what is left.
    fn fit(&mut self, alloc: Global, target: Target<'_>) -> Result<Stage, AllocError> {
        let progress = self.burning.step(&self.hierarchy);
        if progress == Progress::Going && self.burning.steps < STEPS_OF_FIT {
            return Ok(Stage::Fitting);
        }
        // Counts that pass the test between walls leave little to fit.
        self.may_fit = progress != Progress::Converged;
        self.fit_heights(alloc, target)?;
        self.fits = self.fits.saturating_add(1);
        self.burning.end(alloc);
        self.begin_to_solve(alloc, target)
    }

    /// Burns the counts once.
    fn burn(&mut self, alloc: Global, target: Target<'_>) -> Result<Stage, AllocError> {
        let steps_before_fit = if self.is_great() {
            STEPS_BEFORE_FIT
        } else {
            STEPS_BEFORE_LATE_FIT
        };
        match self.burning.step(&self.hierarchy) {
            Progress::Converged => return Ok(self.pass(target)),
            // Counts raised above some that passed fall back to these.
            Progress::Diverged if self.passed == 0 => {
                self.burning.end(alloc);
                self.may_fit = false;
                self.tried = self.tried.saturating_add(1);
                return self.try_heights(alloc, target);
            }
            Progress::Going if self.may_fit && self.burning.steps >= steps_before_fit => {
                match WALL_OFFSETS.get(self.fits) {
                    Some(offset) if self.burning.unburnt > self.burning.unfired / 4 => {
                        let stage = self.begin_to_burn(alloc, target, Stage::Fitting)?;
                        self.burning
                            .pin(&self.hierarchy, target.game.graph(), *offset);
                        return Ok(stage);
                    }
                    _ => self.may_fit = false,
                }
            }
            Progress::Going | Progress::Diverged => {}
        }
        Ok(Stage::Burning)
    }

    /// Whether the graph is so large that it pays to fit heights soon, and to go on from counts that passed.
    fn is_great(&self) -> bool {
        self.counts.len() >= GREAT
    }

    /// Keeps the counts that passed, and goes on from greater ones if they may be too low.
    fn pass(&mut self, target: Target<'_>) -> Stage {
        self.phases = self.phases.wrapping_add(1);
        let passed = self.burning.firings();
        let is_same = passed == self.passed;
        self.may_fit = false;
        let may_rise = self.fits > 0 || (self.is_great() && self.hierarchy.kind != Kind::General);
        if !may_rise || is_same || !self.burning.leaves_some_legal(&self.hierarchy) {
            return Stage::Found;
        }
        self.passed = passed;
        self.burning.raise(&self.hierarchy, self.raise, target);
        self.raise = self.raise.saturating_mul(2);
        Stage::Burning
    }
}

/// Whether some vertex is as far from the sink as walls are from each other.
fn has_walls(graph: &Graph) -> bool {
    for vertex in 0..graph.vertices() {
        if graph.distance(vertex) >= WALL_SPACING {
            return true;
        }
    }
    false
}
