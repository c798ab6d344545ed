use crate::cycle::{Problem, v_cycle};
use crate::hierarchy::{Hierarchy, Kind};
use crate::level::Level;
use crate::tuning::{CYCLES_TO_HALVE, TOLERANCE};
use chip_graph::Game;
use std::alloc::{AllocError, Global};
use std::mem;
use std::num::{nearest_i64_to_f64, nearest_u64_to_f64};

/// The number of chips that each vertex is to keep, from few to many.
#[derive(Clone, Copy)]
pub(crate) enum TargetHeight {
    /// The mean on a grid at the end, 17/8: at every degree one eighth of the range.
    Stationary,
    /// Halfway from there to the next one.
    Middle,
    /// One less than its degree.
    Full,
    /// Half a firing above that, so that firings rounded down are still earned.
    Margin,
}

impl TargetHeight {
    /// The height of a vertex of this degree.
    pub(crate) fn of(self, degree: i64) -> f64 {
        let HeightRange { least, full } = HeightRange::of(degree);
        match self {
            TargetHeight::Stationary => least + (full - least) / 8.0,
            TargetHeight::Middle => least + (full - least) * 9.0 / 16.0,
            TargetHeight::Full => full,
            TargetHeight::Margin => full + nearest_i64_to_f64(degree) / 2.0,
        }
    }
}

/// The range of a vertex's height at the end, averaged over a part of a graph.
#[derive(Clone, Copy)]
pub(crate) struct HeightRange {
    /// Half its degree: a position that passes the burning test has a chip for each edge.
    pub(crate) least: f64,
    /// One less than its degree, as everywhere on a tree.
    pub(crate) full: f64,
}

impl HeightRange {
    /// The range of a vertex of this degree.
    pub(crate) fn of(degree: i64) -> HeightRange {
        let degree = nearest_i64_to_f64(degree);
        let full = (degree - 1.0).max(0.0);
        let least = (degree / 2.0).min(full);
        HeightRange { least, full }
    }
}

/// Which counts are sought: those at the end of a game, or at its limit, from the counts that it has reached.
#[derive(Clone, Copy)]
pub(crate) struct Target<'a> {
    pub(crate) game: &'a Game,
    /// How often each vertex has fired.
    pub(crate) fired: &'a [u64],
}

/// The progress of something made step by step.
#[derive(Clone, Copy)]
pub(crate) enum Progress {
    /// It has not ended.
    Going,
    /// It has reached its end.
    Converged,
    /// It will not reach its end soon.
    Diverged,
}

/// V-cycles that bring counts near to those that leave each vertex its target height.
#[derive(Drop)]
pub(crate) struct Solver {
    /// The problem of the counts, and those of their corrections.
    problems: Vec<Problem>,
    /// The residual allowed at the end.
    tolerance: f64,
    /// The number of cycles made.
    cycles: u64,
    /// The residual when it was last compared.
    norm: f64,
}

impl Solver {
    /// Nothing to solve yet.
    pub(crate) fn new(alloc: Global) -> Solver {
        Solver {
            problems: Vec::new(alloc),
            tolerance: 0.0,
            cycles: 0,
            norm: f64::INFINITY,
        }
    }

    /// Begins with these counts, to leave these heights.
    pub(crate) fn begin(
        &mut self,
        alloc: Global,
        hierarchy: &Hierarchy,
        target: Target<'_>,
        heights: &[f64],
        counts: Vec<f64>,
    ) -> Result<(), AllocError> {
        let mut finest = Problem::new(alloc, &hierarchy.finest, counts)?;
        self.tolerance = TOLERANCE * ask(&mut finest, &hierarchy.finest, target, heights);
        self.cycles = 0;
        self.norm = f64::INFINITY;
        self.problems.push(finest)?;
        for level in &hierarchy.coarser {
            let counts = vec![in alloc; 0.0; level.rows.len()]?;
            self.problems.push(Problem::new(alloc, level, counts)?)?;
        }
        Ok(())
    }

    /// Makes a cycle, unless the residual is small. It diverges if some cycles do not halve the residual: on symmetric
    /// graphs that after the first cycle, which may spread a heap too far.
    pub(crate) fn step(&mut self, hierarchy: &Hierarchy) -> Progress {
        let norm = self.norm(hierarchy);
        if norm <= self.tolerance {
            return Progress::Converged;
        }
        let first = u64::from(hierarchy.kind == Kind::Symmetric);
        if self.cycles % CYCLES_TO_HALVE == first {
            let is_halved = norm <= self.norm / 2.0;
            if !is_halved {
                return Progress::Diverged;
            }
            self.norm = norm;
        }
        self.cycles = self.cycles.saturating_add(1);
        v_cycle(
            &hierarchy.finest,
            &hierarchy.coarser,
            &mut self.problems,
            hierarchy.kind,
        );
        if hierarchy.kind != Kind::Symmetric {
            if let Some(finest) = self.problems.first_mut() {
                finest.rescale(&hierarchy.finest);
            }
        }
        Progress::Going
    }

    /// The number of chips above or below their heights.
    pub(crate) fn norm(&self, hierarchy: &Hierarchy) -> f64 {
        match self.problems.first() {
            Some(finest) => finest.free_sums(&hierarchy.finest).0,
            None => 0.0,
        }
    }

    /// Ends, and returns the counts.
    pub(crate) fn end(&mut self, alloc: Global) -> Vec<f64> {
        let mut counts = Vec::new(alloc);
        if let Some(finest) = self.problems.first_mut() {
            counts = mem::replace(&mut finest.counts, counts);
        }
        self.problems = Vec::new(alloc);
        counts
    }
}

/// Asks for the counts that leave these heights. Returns the sum of all degrees.
fn ask(problem: &mut Problem, level: &Level, target: Target<'_>, heights: &[f64]) -> f64 {
    let (chips, fired) = (target.game.start(), target.fired);
    let mut degrees = 0.0;
    for (vertex, unknown) in problem.unknowns.iter_mut().enumerate() {
        let degree = level.degree(vertex);
        if degree > 0 && vertex < chips.len() && vertex < fired.len() && vertex < heights.len() {
            degrees += nearest_i64_to_f64(degree);
            unknown.rhs = nearest_u64_to_f64(chips[vertex]) - heights[vertex];
            unknown.low = nearest_u64_to_f64(fired[vertex]);
            unknown.high = nearest_u64_to_f64(target.game.limit());
        }
    }
    degrees
}
