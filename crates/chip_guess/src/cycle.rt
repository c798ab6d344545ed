ghost use Rattle.std.specs.Prelude.{◌≡◌, ◌<◌, length};

use crate::hierarchy::Kind;
use crate::level::{Level, Link, Row, gather};
use std::alloc::{AllocError, Global};

/// The constraints on the count of a vertex.
#[derive(Clone, Copy)]
pub(crate) struct Unknown {
    /// By how much its outflow must exceed its inflow.
    pub(crate) rhs: f64,
    /// The least count allowed.
    pub(crate) low: f64,
    /// The greatest count allowed.
    pub(crate) high: f64,
}

/// The state of a vertex before its aggregate was corrected.
#[derive(Clone, Copy, Default)]
struct Before {
    residual: f64,
    count: f64,
}

/// An obstacle problem on a level: counts within bounds, whose residuals are 0 except where a bound stops them.
#[derive(Drop)]
pub(crate) struct Problem {
    pub(crate) unknowns: Vec<Unknown>,
    pub(crate) counts: Vec<f64>,
    before: Vec<Before>,
}

/// The order in which a smoother visits the vertices.
#[derive(Clone, Copy)]
enum Order {
    /// First the even numbers, then the odd ones.
    RedBlack,
    Ascending,
    Descending,
}

impl Unknown {
    /// Any count within these bounds.
    fn within(low: f64, high: f64) -> Unknown {
        Unknown {
            rhs: 0.0,
            low,
            high,
        }
    }

    /// A count, or the bound that it exceeds.
    #[inline]
    fn clamp(&self, count: f64) -> f64 {
        if count < self.low {
            self.low
        } else if count > self.high {
            self.high
        } else {
            count
        }
    }
}

/// A V-cycle over these problems: the first is on this level, and each other one is on the next coarser level, whose
/// vertices are the aggregates of the one before. It smooths the counts, corrects them by a cycle on the aggregates,
/// and smooths again.
pub(crate) fn v_cycle(level: &Level, coarser: &[Level], problems: &mut [Problem], kind: Kind) {
    let Some((fine, others)) = problems.split_first_mut() else {
        return;
    };
    fine.smooth(level, Order::RedBlack);
    let Some((next, coarsest)) = coarser.split_first() else {
        return;
    };
    let Some(coarse) = others.first_mut() else {
        return;
    };
    fine.restrict(level, coarse);
    v_cycle(next, coarsest, others, kind);
    if let Some(coarse) = others.first() {
        fine.prolong(level, &coarse.counts);
    }
    fine.smooth(level, Order::Ascending);
    fine.over_correct(level, kind);
    fine.smooth(level, Order::Descending);
}

/// The residual of a right-hand side with these counts.
#[inline]
fn residual(rows: &[Row], links: &[Link], counts: &[f64], rhs: f64, vertex: usize) -> f64
    requires is_row { vertex < length rows.now }
    requires is_vertex { vertex < length counts.now }
{
    gather(rows, links, counts, rhs, vertex) - f64::from(rows[vertex].degree) * counts[vertex]
}

/// Sets the count of a vertex so that its residual is 0, as far as its bounds allow.
#[inline]
fn relax(rows: &[Row], links: &[Link], unknowns: &[Unknown], counts: &mut [f64], vertex: usize)
    requires rows_each { length rows.now ≡ length counts.old }
    requires unknowns_each { length unknowns.now ≡ length counts.old }
    requires is_vertex { vertex < length counts.old }
{
    let unknown = &unknowns[vertex];
    let solved = gather(rows, links, counts, unknown.rhs, vertex) * rows[vertex].inverse;
    counts[vertex] = unknown.clamp(solved);
}

impl Problem {
    /// A problem that begins with these counts, which have right-hand side 0 and may not move.
    pub(crate) fn new(
        alloc: Global,
        level: &Level,
        counts: Vec<f64>,
    ) -> Result<Problem, AllocError> {
        let vertices = level.rows.len();
        Ok(Problem {
            unknowns: vec![in alloc; Unknown::within(0.0, 0.0); vertices]?,
            counts,
            before: vec![in alloc; Before::default(); vertices]?,
        })
    }

    /// Relaxes each vertex once: a sweep of projected Gauss-Seidel.
    fn smooth(&mut self, level: &Level, order: Order) {
        let rows = level.rows.as_slice();
        let links = level.links.as_slice();
        let unknowns = self.unknowns.as_slice();
        let counts = self.counts.as_mut_slice();
        let vertices = rows.len();
        if vertices != counts.len() || vertices != unknowns.len() {
            return;
        }
        match order {
            Order::Ascending => {
                for vertex in 0..vertices {
                    relax(rows, links, unknowns, counts, vertex);
                }
            }
            Order::Descending => {
                for vertex in (0..vertices).rev() {
                    relax(rows, links, unknowns, counts, vertex);
                }
            }
            Order::RedBlack => {
                for pair in 0..vertices.div_ceil(2) {
                    relax(rows, links, unknowns, counts, 2 * pair);
                }
                for pair in 0..vertices / 2 {
                    relax(rows, links, unknowns, counts, 2 * pair + 1);
                }
            }
        }
    }

    /// Gives the aggregates the residuals of their members, within the bounds that all members have.
    fn restrict(&mut self, level: &Level, coarse: &mut Problem) {
        coarse.counts.fill(0.0);
        let sums = coarse.unknowns.as_mut_slice();
        sums.fill(Unknown::within(f64::NEG_INFINITY, f64::INFINITY));
        let rows = level.rows.as_slice();
        let aggregates = level.aggregates.as_slice();
        let unknowns = self.unknowns.as_slice();
        let counts = self.counts.as_slice();
        let vertices = rows.len().min(unknowns.len()).min(counts.len());
        for (vertex, before) in self.before.iter_mut().enumerate() {
            if vertex < vertices && vertex < aggregates.len() {
                let unknown = &unknowns[vertex];
                before.count = counts[vertex];
                before.residual = residual(rows, &level.links, counts, unknown.rhs, vertex);
                if let Some(sum) = sums.get_mut(aggregates[vertex] as usize) {
                    sum.rhs += before.residual;
                    sum.low = sum.low.max(unknown.low - before.count);
                    sum.high = sum.high.min(unknown.high - before.count);
                }
            }
        }
    }

    /// Adds the count of its aggregate to each member.
    fn prolong(&mut self, level: &Level, coarse: &[f64]) {
        let aggregates = level.aggregates.as_slice();
        let unknowns = self.unknowns.as_slice();
        for (vertex, count) in self.counts.iter_mut().enumerate() {
            if vertex < aggregates.len() && vertex < unknowns.len() {
                if let Some(more) = coarse.get(aggregates[vertex] as usize) {
                    *count = unknowns[vertex].clamp(*count + *more);
                }
            }
        }
    }

    /// Scales a correction by one factor, since aggregates that fire as one move too little. On symmetric graphs the
    /// factor has the least energy; on others it leaves residuals whose sum is 0.
    fn over_correct(&mut self, level: &Level, kind: Kind) {
        let rows = level.rows.as_slice();
        let unknowns = self.unknowns.as_slice();
        let before = self.before.as_slice();
        let counts = self.counts.as_mut_slice();
        let vertices = rows
            .len()
            .min(unknowns.len())
            .min(before.len())
            .min(counts.len());
        let mut had = 0.0;
        let mut sent = 0.0;
        for vertex in 0..vertices {
            let left = residual(rows, &level.links, counts, unknowns[vertex].rhs, vertex);
            let weight = match kind {
                Kind::Symmetric => counts[vertex] - before[vertex].count,
                Kind::Balanced | Kind::General => 1.0,
            };
            had += weight * before[vertex].residual;
            sent += weight * (before[vertex].residual - left);
        }
        if let Some(factor) = ratio(had, sent) {
            for vertex in 0..vertices {
                let from = before[vertex].count;
                counts[vertex] = unknowns[vertex].clamp(from + factor * (counts[vertex] - from));
            }
        }
    }

    /// Three sums over the vertices whose counts may move as their residuals demand: of the residuals' absolute values,
    /// of the right-hand sides, and of the net outflows.
    pub(crate) fn free_sums(&self, level: &Level) -> (f64, f64, f64) {
        let rows = level.rows.as_slice();
        let unknowns = self.unknowns.as_slice();
        let counts = self.counts.as_slice();
        let mut sums = (0.0, 0.0, 0.0);
        for vertex in 0..rows.len().min(unknowns.len()).min(counts.len()) {
            let unknown = &unknowns[vertex];
            let left = residual(rows, &level.links, counts, unknown.rhs, vertex);
            let (own, rises) = (counts[vertex], left > 0.0);
            if (rises && own < unknown.high) || (!rises && own > unknown.low) {
                sums.0 += left.abs();
                sums.1 += unknown.rhs;
                sums.2 += unknown.rhs - left;
            }
        }
        sums
    }

    /// Scales all counts by one factor, so that the free residuals sum to 0. On graphs that are not symmetric,
    /// aggregates that fire together seldom find that amount.
    pub(crate) fn rescale(&mut self, level: &Level) {
        let (_, asked, sent) = self.free_sums(level);
        if let Some(factor) = ratio(asked, sent) {
            for (vertex, count) in self.counts.iter_mut().enumerate() {
                if let Some(unknown) = self.unknowns.get(vertex) {
                    *count = unknown.clamp(factor * *count);
                }
            }
        }
    }
}

/// A quotient, clamped to between 1/4 and 8, if both numbers are positive.
fn ratio(a: f64, b: f64) -> Option<f64> {
    (a > 0.0 && b > 0.0).then_some((a / b).max(0.25).min(8.0))
}
