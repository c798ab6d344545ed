ghost use Rattle.std.specs.Prelude.{◌≡◌, ◌+◌, ◌*◌, ◌≤◌, length};

use crate::level::{Level, Link, NONE, Row, links_of, narrow};
use crate::solver::TargetHeight::{self, Full, Margin, Middle, Stationary};
use crate::tuning::{FREE_WEIGHT, MOST_LEVELS, VISITS_OF_GRAPH};
use chip_graph::Graph;
use std::alloc::{AllocError, Global};

/// What the links of a graph imply for the guess.
#[derive(Clone, Copy)]
pub(crate) enum Kind {
    /// Between any two vertices but the sink as much goes there as comes back.
    Symmetric,
    /// No vertex but the sink gets more than it sends.
    Balanced,
    /// Any other graph.
    General,
}

impl Kind {
    /// The target heights to try, in order.
    pub(crate) fn heights(self) -> &'static [TargetHeight] {
        match self {
            Kind::Symmetric => &[Stationary, Middle, Full],
            Kind::Balanced => &[Full],
            Kind::General => &[Margin],
        }
    }
}

/// A graph, its aggregates, their aggregates, and so on down to one vertex: what a search works on.
#[derive(Drop)]
pub struct Hierarchy {
    pub(crate) kind: Kind,
    /// The graph by the links into each vertex.
    pub(crate) finest: Box<Level>,
    /// The coarser levels, each with the aggregates of the one before.
    pub(crate) coarser: Vec<Level>,
    /// The graph by the links out of each vertex, if these differ.
    outs: Option<Box<Level>>,
}

impl Hierarchy {
    /// The hierarchy of a graph; `None` if memory runs out, or `most` visits in all do not suffice. Adds its visits of
    /// vertices and links to `visits`.
    pub fn new(alloc: Global, graph: &Graph, visits: &mut u64, most: u64) -> Option<Hierarchy>
        requires { visits.old ≤ most }
        ensures more { visits.old ≤ visits.new }
        ensures at_most { visits.new ≤ most }
        ensures begun { let end = visits.old + 16 * (graph.now.vertices + length graph.now.edges) in
            end ≤ most → end ≤ visits.new }
    {
        let size = graph.vertices().saturating_add(graph.edges().len() as u64);
        if !spend(visits, size.saturating_mul(VISITS_OF_GRAPH), most) {
            return None;
        }
        let mut hierarchy = Hierarchy::flat(alloc, graph).ok()?;
        hierarchy.coarsen(alloc, visits, most).ok()?;
        Some(hierarchy)
    }

    /// Whether the graph is undirected, but for its edges into the sink.
    pub fn is_symmetric(&self) -> bool {
        self.kind == Kind::Symmetric
    }

    /// The graph alone, without aggregates.
    pub(crate) fn flat(alloc: Global, graph: &Graph) -> Result<Hierarchy, AllocError> {
        let finest = Box::new(alloc, Level::of(alloc, graph, true)?)?;
        let outs = Box::new(alloc, Level::of(alloc, graph, false)?)?;
        let kind = kind_of(alloc, &finest, &outs)?;
        Ok(Hierarchy {
            kind,
            finest,
            coarser: Vec::new(alloc),
            outs: (kind != Kind::Symmetric).then_some(outs),
        })
    }

    /// Adds the coarser levels that `most` visits in all allow. A level is visited four times: once for its aggregates,
    /// once for their members, and twice for their links.
    fn coarsen(&mut self, alloc: Global, visits: &mut u64, most: u64) -> Result<(), AllocError>
        requires { visits.old ≤ most }
        ensures more { visits.old ≤ visits.new }
        ensures at_most { visits.new ≤ most }
    {
        let mut next = next_level(alloc, &mut self.finest)?;
        'levels: for _ in 0..MOST_LEVELS {
            let Some(level) = next else {
                break;
            };
            next = None;
            self.coarser.push(level)?;
            if let Some(level) = self.coarser.last_mut() {
                if spend(visits, level.size().saturating_mul(4), most) {
                    next = next_level(alloc, level)?;
                }
            }
        }
        Ok(())
    }

    /// The graph by the links out of each vertex.
    pub(crate) fn outs(&self) -> &Level {
        match &self.outs {
            Some(outs) => outs,
            None => &self.finest,
        }
    }

    /// The number of vertices and links on all levels.
    pub(crate) fn size(&self) -> u64 {
        let mut size = self.finest.size();
        for level in &self.coarser {
            size = size.saturating_add(level.size());
        }
        size
    }
}

/// The kind of a graph.
fn kind_of(alloc: Global, ins: &Level, outs: &Level) -> Result<Kind, AllocError> {
    let mut surplus = vec![in alloc; 0i64; ins.rows.len()]?;
    let mut kind = Kind::Symmetric;
    for vertex in 0..ins.rows.len() {
        let coming = ins.links_of(vertex);
        let going = outs.links_of(vertex);
        let comes = add(&mut surplus, coming, 1);
        add(&mut surplus, going, -1);
        if comes > ins.degree(vertex) {
            return Ok(Kind::General);
        }
        if !are_zero(&surplus, coming) || !are_zero(&surplus, going) {
            kind = Kind::Balanced;
        }
    }
    Ok(kind)
}

/// Adds `times` times the multiplicity of each link to the number of its vertex. Returns the sum of the multiplicities.
fn add(numbers: &mut [i64], links: &[Link], times: i64) -> i64 {
    let mut sum = 0i64;
    for link in links {
        sum = sum.wrapping_add(i64::from(link.mult));
        if let Some(number) = numbers.get_mut(link.vertex as usize) {
            *number = number.wrapping_add(i64::from(link.mult).wrapping_mul(times));
        }
    }
    sum
}

/// Whether the number of each link's vertex is 0.
fn are_zero(numbers: &[i64], links: &[Link]) -> bool {
    for link in links {
        if let Some(number) = numbers.get(link.vertex as usize) {
            if *number != 0 {
                return false;
            }
        }
    }
    true
}

/// Adds `more` visits to `visits`, unless the sum exceeds `most`. Returns whether it did.
pub(crate) fn spend(visits: &mut u64, more: u64, most: u64) -> bool
    requires { visits.old ≤ most }
    ensures more { visits.old ≤ visits.new }
    ensures at_most { visits.new ≤ most }
    ensures spent { visits.old + more ≤ most → visits.new ≡ visits.old + more }
{
    let all = visits.saturating_add(more);
    if all > most {
        return false;
    }
    *visits = all;
    true
}

/// The level of a level's aggregates. If small aggregates do not thin out the links, all vertices make one aggregate.
fn next_level(alloc: Global, fine: &mut Level) -> Result<Option<Level>, AllocError> {
    fine.aggregates = vec![in alloc; NONE; fine.rows.len()]?;
    let count = aggregate(&fine.rows, &fine.links, &mut fine.aggregates);
    if count == 0 {
        return Ok(None);
    }
    let coarse = galerkin(alloc, fine, count)?;
    if count == 1 || coarse.links.len() / 3 < fine.links.len() / 4 {
        return Ok(Some(coarse));
    }
    drop(coarse);
    for aggregate in &mut fine.aggregates {
        if *aggregate != NONE {
            *aggregate = 0;
        }
    }
    Ok(Some(galerkin(alloc, fine, 1)?))
}

/// Finds aggregates: each vertex in turn joins the one that sends it most; if that one is in no aggregate yet, the two
/// make one. A vertex without inflow stays alone: it needs no correction. Returns the number of aggregates.
fn aggregate(rows: &[Row], links: &[Link], aggregates: &mut [u32]) -> usize {
    let mut count = 0usize;
    for vertex in 0..rows.len() {
        let own = narrow(vertex);
        if at(aggregates, own) != NONE {
            continue;
        }
        let strongest = strongest(links_of(rows, links, vertex), aggregates);
        if strongest != NONE {
            let mut aggregate = at(aggregates, strongest);
            if aggregate == NONE {
                aggregate = narrow(count);
                count = count.saturating_add(1);
                put(aggregates, strongest, aggregate);
            }
            put(aggregates, own, aggregate);
        }
    }
    count
}

/// The vertex that sends most along these links, or `NONE`. One that is in no aggregate counts more.
fn strongest(links: &[Link], aggregates: &[u32]) -> u32 {
    let mut strongest = NONE;
    let mut most = 0i64;
    for link in links {
        let is_free = at(aggregates, link.vertex) == NONE;
        let weight = if is_free { FREE_WEIGHT } else { 1 };
        let sends = i64::from(link.mult).saturating_mul(weight);
        if sends > most {
            strongest = link.vertex;
            most = sends;
        }
    }
    strongest
}

/// The number of a vertex or an aggregate, or `NONE`.
#[inline]
fn at(numbers: &[u32], index: u32) -> u32 {
    numbers.get(index as usize).copied().unwrap_or(NONE)
}

/// Writes a number into a list, if the index is in range.
#[inline]
fn put(numbers: &mut [u32], index: u32, number: u32) {
    if let Some(slot) = numbers.get_mut(index as usize) {
        *slot = number;
    }
}

/// The level of these aggregates: links within one vanish, and those from one to another are merged.
fn galerkin(alloc: Global, fine: &Level, count: usize) -> Result<Level, AllocError> {
    let mut coarse = Level::new(alloc, count, 0)?;
    // The members of each aggregate, ascending, as linked lists: the first of each, and the next after each vertex.
    let mut first = vec![in alloc; NONE; count]?;
    let mut next = vec![in alloc; NONE; fine.rows.len()]?;
    let mut places = vec![in alloc; NONE; count]?;
    for vertex in (0..fine.rows.len()).rev() {
        let vertex = narrow(vertex);
        let aggregate = at(&fine.aggregates, vertex);
        put(&mut next, vertex, at(&first, aggregate));
        put(&mut first, aggregate, vertex);
    }
    for aggregate in 0..count {
        coarse.add_aggregate(fine, narrow(aggregate), &first, &next, &mut places)?;
    }
    Ok(coarse)
}

impl Level {
    /// Adds an aggregate of another level, by the linked lists of members.
    fn add_aggregate(
        &mut self,
        fine: &Level,
        aggregate: u32,
        first: &[u32],
        next: &[u32],
        places: &mut [u32],
    ) -> Result<(), AllocError> {
        let begin = narrow(self.links.len());
        let mut degree = 0i64;
        let mut vertex = at(first, aggregate);
        for _ in 0..fine.rows.len() {
            if vertex == NONE {
                break;
            }
            degree = degree.wrapping_add(fine.degree(vertex as usize));
            for link in fine.links_of(vertex as usize) {
                let other = at(&fine.aggregates, link.vertex);
                if other == aggregate {
                    degree = degree.wrapping_sub(i64::from(link.mult));
                } else if other != NONE {
                    self.add_link(places, begin, other, link.mult)?;
                }
            }
            vertex = at(next, vertex);
        }
        self.close_row(degree.max(0).cast_unsigned())
    }

    /// Adds a link to those from this place on, or adds to the one among them with its vertex.
    fn add_link(
        &mut self,
        places: &mut [u32],
        begin: u32,
        vertex: u32,
        mult: u32,
    ) -> Result<(), AllocError> {
        let place = at(places, vertex);
        if place >= begin {
            if let Some(same) = self.links.get_mut(place as usize) {
                same.mult = same.mult.saturating_add(mult);
                return Ok(());
            }
        }
        put(places, vertex, narrow(self.links.len()));
        self.links.push(Link { vertex, mult })?;
        Ok(())
    }
}
