ghost use Rattle.std.specs.Prelude.{◌≡◌, ◌≤◌, ℕ, length, slice_index, IfOk};

use crate::hierarchy::{Hierarchy, Kind};
use crate::level::{Level, Link, NONE, narrow};
use crate::solver::{Progress, Target};
use crate::tuning::{STALLED_STEPS, WALL_SPACING};
use chip_graph::Graph;
use std::alloc::{AllocError, Global};
use std::mem;
use std::num::saturating_f64_to_i64;

/// The state of a vertex while counts are burnt.
#[derive(Clone, Copy, Default)]
pub(crate) struct Vertex {
    /// How often it fires beyond its count when the search began; 0 if its count is to stay.
    pub(crate) fires: i64,
    /// Its chips less what its neighbours have taken back: it burns if this is at least 0.
    slack: i64,
    /// The inflow if each vertex that fires does so once.
    comes: i64,
    /// The vertex to burn after it, while it waits to burn.
    next: u32,
    /// Whether it burnt.
    is_burnt: bool,
}

/// Counts that are lowered until they pass a test.
///
/// On general graphs each vertex that fires must lack at most one chip to fire once more. On others the test is the
/// burning test in reverse: each vertex that fires takes a firing back, then those with enough chips fire again, one
/// after another: they burn. The counts of those that do not burn stay lower by one.
#[derive(Drop)]
pub(crate) struct Burning {
    vertices: Vec<Vertex>,
    /// The range of the vertices that fire or have an inflow: its first vertex and its end.
    first: usize,
    end: usize,
    /// The most visits of one step.
    pub(crate) visits: u64,
    /// The visits of the last step, up to that.
    pub(crate) visited: u64,
    /// The number of steps made.
    pub(crate) steps: u64,
    /// The number of last steps in a row in which no vertex burnt.
    stalled: u64,
    /// The number of vertices that took a firing back in the last step.
    pub(crate) unfired: u64,
    /// The number of these that did not burn.
    pub(crate) unburnt: u64,
}

impl Vertex {
    /// Whether it took a firing back and did not burn.
    #[inline]
    fn is_unburnt(&self) -> bool {
        !self.is_burnt && self.fires > 0
    }

    /// Its chips if it takes a firing back, by its degree.
    pub(crate) fn chips(&self, degree: i64) -> i64 {
        self.slack
            .wrapping_add(if self.is_burnt { 0 } else { degree })
    }
}

impl Burning {
    /// Nothing to burn yet.
    pub(crate) fn new(alloc: Global) -> Burning {
        Burning {
            vertices: Vec::new(alloc),
            first: 0,
            end: 0,
            visits: 0,
            visited: 0,
            steps: 0,
            stalled: 0,
            unfired: 0,
            unburnt: 0,
        }
    }

    /// Begins with these counts, rounded down. Returns whether the position that they give fits 64 bits.
    pub(crate) fn begin(
        &mut self,
        alloc: Global,
        hierarchy: &Hierarchy,
        target: Target<'_>,
        counts: &[f64],
    ) -> Result<bool, AllocError> {
        self.end(alloc);
        let finest = &hierarchy.finest;
        self.vertices = vec![in alloc; Vertex::default(); finest.rows.len()]?;
        let (chips, fired) = (target.game.start(), target.fired);
        for (vertex, own) in self.vertices.iter_mut().enumerate() {
            if vertex < chips.len() && vertex < fired.len() {
                let (fires, left) = left_by(finest, chips[vertex], counts, vertex);
                let Ok(slack) = i64::try_from(left) else {
                    return Ok(false);
                };
                own.fires = fires.wrapping_sub(fired[vertex].cast_signed());
                own.slack = slack;
            }
        }
        self.begin_steps(hierarchy);
        Ok(true)
    }

    /// Drops all vertices.
    pub(crate) fn end(&mut self, alloc: Global) {
        self.vertices = Vec::new(alloc);
    }

    /// Finds the inflow from all that fire, none of which is unburnt.
    fn begin_steps(&mut self, hierarchy: &Hierarchy) {
        self.steps = 0;
        self.stalled = 0;
        self.end = 0;
        self.visits = 0;
        let mut visits = 0u64;
        for vertex in 0..self.vertices.len() {
            let mut comes = 0i64;
            for link in hierarchy.finest.links_of(vertex) {
                if self.at(link.vertex as usize).fires > 0 {
                    comes = comes.wrapping_add(i64::from(link.mult));
                }
            }
            let own = &mut self.vertices[vertex];
            own.comes = comes;
            own.is_burnt = true;
            let is_needed = comes > 0 || own.fires > 0;
            if self.end == 0 {
                self.first = vertex;
                visits = 0;
            }
            let links = hierarchy.outs().links_of(vertex).len() as u64;
            visits = visits.saturating_add(links).saturating_add(2);
            if is_needed {
                self.end = vertex.saturating_add(1);
                self.visits = visits;
            }
        }
    }

    /// The state of a vertex.
    #[inline]
    pub(crate) fn at(&self, vertex: usize) -> Vertex {
        self.vertices
            .get(vertex)
            .copied()
            .unwrap_or(Vertex::default())
    }

    /// Lowers the counts once, if they do not pass the test.
    pub(crate) fn step(&mut self, hierarchy: &Hierarchy) -> Progress {
        self.steps = self.steps.saturating_add(1);
        if hierarchy.kind == Kind::General {
            self.visited = self.visits;
            return if self.earn_all(hierarchy) {
                Progress::Going
            } else {
                Progress::Converged
            };
        }
        self.burn(hierarchy);
        self.stalled = if self.unburnt == self.unfired {
            self.stalled.saturating_add(1)
        } else {
            0
        };
        if self.unburnt == 0 {
            Progress::Converged
        } else if self.stalled >= STALLED_STEPS {
            Progress::Diverged
        } else {
            Progress::Going
        }
    }

    /// Makes each vertex that fires take a firing back; an unburnt one first loses the firing that it took back before.
    /// Once a vertex and all before it have done so, those with enough chips burn, so that what burns lies near.
    fn burn(&mut self, hierarchy: &Hierarchy) {
        let outs = hierarchy.outs();
        // (what is reached through `self` is read anew at each link)
        let vertices = self.vertices.as_mut_slice();
        let (mut unfired, mut unburnt) = (0u64, 0u64);
        let mut visited = 0u64;
        let mut next = NONE;
        for vertex in self.first..self.end.min(vertices.len()) {
            visited = visited.wrapping_add(1);
            let own = &mut vertices[vertex];
            if own.is_unburnt() {
                own.slack = own.slack.wrapping_add(hierarchy.finest.degree(vertex));
                own.fires = own.fires.wrapping_sub(1);
                if own.fires == 0 {
                    stop(vertices, outs.links_of(vertex), vertex, &mut next);
                }
            }
            let own = &mut vertices[vertex];
            own.is_burnt = false;
            own.slack = own.slack.wrapping_sub(own.comes);
            if own.fires > 0 {
                unfired = unfired.wrapping_add(1);
                unburnt = unburnt.wrapping_add(1);
                if own.slack >= 0 {
                    own.next = mem::replace(&mut next, narrow(vertex));
                }
            }
            for _ in 0..vertices.len() {
                let Some(burns) = vertices.get_mut(next as usize) else {
                    break;
                };
                burns.is_burnt = true;
                unburnt = unburnt.wrapping_sub(1);
                let links = outs.links_of(next as usize);
                visited = visited.wrapping_add(1).wrapping_add(links.len() as u64);
                next = burns.next;
                for link in links {
                    bring(vertices, *link, vertex, &mut next);
                }
            }
        }
        self.unfired = unfired;
        self.unburnt = unburnt;
        self.visited = visited.min(self.visits);
    }

    /// Fires a vertex `k` times, or takes `-k` firings back if `k` is negative.
    fn fire(&mut self, hierarchy: &Hierarchy, vertex: usize, k: i64) {
        let sent = hierarchy.finest.degree(vertex).wrapping_mul(k);
        if let Some(own) = self.vertices.get_mut(vertex) {
            own.fires = own.fires.wrapping_add(k);
            own.slack = own.slack.wrapping_sub(sent);
        }
        for link in hierarchy.outs().links_of(vertex) {
            if let Some(head) = self.vertices.get_mut(link.vertex as usize) {
                let comes = i64::from(link.mult).wrapping_mul(k);
                head.slack = head.slack.wrapping_add(comes);
            }
        }
    }

    /// Takes firings back from each vertex that fires and lacks more than one chip to fire once more. Returns whether
    /// it did.
    fn earn_all(&mut self, hierarchy: &Hierarchy) -> bool {
        let mut any = false;
        for vertex in self.first..self.end {
            let degree = hierarchy.finest.degree(vertex);
            let own = self.at(vertex);
            let (fires, lacks) = (
                own.fires,
                self.needed(hierarchy, vertex).wrapping_sub(own.slack),
            );
            if fires > 0 && lacks > 0 && degree > 0 {
                let firings = ((lacks - 1) / degree).wrapping_add(1);
                self.fire(hierarchy, vertex, firings.min(fires).wrapping_neg());
                any = true;
            }
        }
        any
    }

    /// Pins walls: the vertices whose distance from the sink leaves this remainder modulo `WALL_SPACING`.
    pub(crate) fn pin(&mut self, hierarchy: &Hierarchy, graph: &Graph, rest: u64) {
        for (vertex, own) in self.vertices.iter_mut().enumerate() {
            let vertex = vertex as u64;
            if vertex < graph.vertices() && graph.distance(vertex) % WALL_SPACING == rest {
                own.fires = 0;
            }
        }
        self.begin_steps(hierarchy);
    }

    /// The chips that firing vertices lack to pass the test, up to 2^64 - 1; before the first step, to be at least 0.
    pub(crate) fn lacking_chips(&self, hierarchy: &Hierarchy) -> u64 {
        let mut chips = 0u64;
        for (vertex, own) in self.vertices.iter().enumerate() {
            if own.fires > 0 {
                let lacks = self
                    .needed(hierarchy, vertex)
                    .saturating_sub(own.slack)
                    .max(0);
                chips = chips.saturating_add(lacks.cast_unsigned());
            }
        }
        chips
    }

    /// The slack with which a vertex passes the test.
    fn needed(&self, hierarchy: &Hierarchy, vertex: usize) -> i64 {
        match hierarchy.kind {
            Kind::General => hierarchy.finest.degree(vertex).wrapping_sub(1),
            Kind::Symmetric | Kind::Balanced => 0,
        }
    }

    /// Whether some vertex is legal, once the test is passed.
    pub(crate) fn leaves_some_legal(&self, hierarchy: &Hierarchy) -> bool {
        for (vertex, own) in self.vertices.iter().enumerate() {
            let degree = hierarchy.finest.degree(vertex);
            if degree > 0 && own.slack >= degree {
                return true;
            }
        }
        false
    }

    /// Fires each vertex `k` more times, once the test is passed, up to the limit.
    pub(crate) fn raise(&mut self, hierarchy: &Hierarchy, k: i64, target: Target<'_>) {
        for (vertex, fired) in target.fired.iter().enumerate() {
            if hierarchy.finest.degree(vertex) > 0 {
                let room = target.game.limit().saturating_sub(*fired).cast_signed();
                self.fire(
                    hierarchy,
                    vertex,
                    k.min(room.wrapping_sub(self.at(vertex).fires)),
                );
            }
        }
        self.begin_steps(hierarchy);
    }

    /// The sum of all firings.
    pub(crate) fn firings(&self) -> i64 {
        let mut firings = 0i64;
        for own in &self.vertices {
            firings = firings.wrapping_add(own.fires);
        }
        firings
    }

    /// The counts of all firings, including those of `fired`, up to a limit.
    pub(crate) fn counts(
        &self,
        alloc: Global,
        fired: &[u64],
        limit: u64,
    ) -> Result<Vec<u64>, AllocError>
        ensures each { IfOk result (λ counts. length counts.items ≡ length fired.now) }
        ensures within { IfOk result (λ counts. (v : ℕ) → slice_index counts.items v ≤ limit) }
    {
        let mut counts = Vec::new(alloc);
        for (vertex, fired) in fired.iter().enumerate() {
            let more = self.at(vertex).fires.max(0).cast_unsigned();
            let count = fired.saturating_add(more);
            counts.push(count.min(limit))?;
        }
        Ok(counts)
    }
}

/// Makes a vertex whose firings are used up, with these links, take none back from now on; those below it already have.
fn stop(vertices: &mut [Vertex], links: &[Link], vertex: usize, next: &mut u32) {
    for link in links {
        if let Some(head) = vertices.get_mut(link.vertex as usize) {
            head.comes = head.comes.wrapping_sub(i64::from(link.mult));
        }
        if (link.vertex as usize) < vertex {
            bring(vertices, *link, vertex, next);
        }
    }
}

/// Brings a vertex what another one sends it along a link. It burns next if that gives it enough chips, and all up to
/// the last one have taken a firing back.
#[inline]
fn bring(vertices: &mut [Vertex], link: Link, last: usize, next: &mut u32) {
    if let Some(head) = vertices.get_mut(link.vertex as usize) {
        let before = head.slack;
        head.slack = before.wrapping_add(i64::from(link.mult));
        let may_burn = before < 0 && head.slack >= 0 && link.vertex as usize <= last;
        if may_burn && head.fires > 0 {
            head.next = mem::replace(next, link.vertex);
        }
    }
}

/// How often a vertex fires by these counts, rounded down, and the chips that they leave on it.
fn left_by(level: &Level, chips: u64, counts: &[f64], vertex: usize) -> (i64, i128) {
    let own = floor(counts, vertex);
    let sent = i128::from(level.degree(vertex)).wrapping_mul(i128::from(own));
    let mut left = i128::from(chips).wrapping_sub(sent);
    for link in level.links_of(vertex) {
        let times = i128::from(floor(counts, link.vertex as usize));
        left = left.wrapping_add(i128::from(link.mult).wrapping_mul(times));
    }
    (own, left)
}

/// The count of a vertex, rounded down.
fn floor(counts: &[f64], vertex: usize) -> i64 {
    saturating_f64_to_i64(counts.get(vertex).copied().unwrap_or(0.0).floor())
}
