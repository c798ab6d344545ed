ghost use Rattle.std.specs.Prelude.{◌<◌, length};

use chip_graph::Graph;
use std::alloc::{AllocError, Global};

/// No vertex, no place, or no aggregate: that of the sink and of vertices into which no link leads.
pub(crate) const NONE: u32 = u32::MAX;

/// An off-diagonal entry: what a firing brings along a link.
#[derive(Clone, Copy)]
pub(crate) struct Link {
    /// The vertex at the other end.
    pub(crate) vertex: u32,
    /// The number of chips that a firing brings along it, up to 2^32 - 1.
    pub(crate) mult: u32,
}

/// The row of a vertex.
#[derive(Clone, Copy)]
pub(crate) struct Row {
    /// Where its links end in the level's list. They begin where those of the vertex before it end.
    end: u32,
    /// The diagonal entry: what one firing sends away, up to 2^32 - 1; 0 for the sink.
    pub(crate) degree: u32,
    /// The reciprocal of the degree; 0 for the sink.
    pub(crate) inverse: f64,
}

/// The Laplacian of a graph, or of another level's aggregates, whose vertices fire together. The sink has no links.
#[derive(Drop)]
pub(crate) struct Level {
    pub(crate) rows: Vec<Row>,
    pub(crate) links: Vec<Link>,
    /// The aggregate of each vertex, which is a vertex of the next level; empty on the last level.
    pub(crate) aggregates: Vec<u32>,
}

/// A number as a u32, clamped to the greatest one.
#[inline]
pub(crate) fn narrow(number: usize) -> u32 {
    number.min(u32::MAX as usize) as u32
}

/// The links of a vertex.
#[inline]
pub(crate) fn links_of<'a>(rows: &[Row], links: &'a [Link], vertex: usize) -> &'a [Link]
    requires { vertex < length rows.now }
{
    let first = if vertex > 0 { rows[vertex - 1].end } else { 0 };
    links
        .get(first as usize..rows[vertex].end as usize)
        .unwrap_or(&[])
}

/// A right-hand side plus the inflow of a vertex by these counts.
#[inline]
pub(crate) fn gather(rows: &[Row], links: &[Link], counts: &[f64], rhs: f64, vertex: usize) -> f64
    requires { vertex < length rows.now }
{
    let mut sum = rhs;
    for link in links_of(rows, links, vertex) {
        if let Some(count) = counts.get(link.vertex as usize) {
            sum += f64::from(link.mult) * *count;
        }
    }
    sum
}

impl Level {
    /// No vertices, with room for `vertices` vertices and `links` links.
    pub(crate) fn new(alloc: Global, vertices: usize, links: usize) -> Result<Level, AllocError> {
        let links = Vec::with_capacity(alloc, links)?;
        Ok(Level {
            rows: Vec::with_capacity(alloc, vertices)?,
            links,
            aggregates: Vec::new(alloc),
        })
    }

    /// A graph by the links into each vertex, or by those out of it, without the links to the sink.
    pub(crate) fn of(alloc: Global, graph: &Graph, by_ins: bool) -> Result<Level, AllocError> {
        let mut level = Level::new(alloc, graph.vertices() as usize, graph.edges().len())?;
        for vertex in 0..graph.vertices() {
            let numbers = if by_ins {
                graph.ins(vertex)
            } else {
                graph.outs(vertex)
            };
            for number in numbers {
                let Some(edge) = graph.edges().get(*number as usize) else {
                    continue;
                };
                if edge.head != graph.sink() {
                    let other = if by_ins { edge.tail } else { edge.head };
                    level.links.push(Link {
                        vertex: narrow(other as usize),
                        mult: narrow(edge.mult as usize),
                    })?;
                }
            }
            level.close_row(graph.out_degree(vertex))?;
        }
        Ok(level)
    }

    /// Appends a vertex, with the links after those of the last one.
    pub(crate) fn close_row(&mut self, degree: u64) -> Result<(), AllocError> {
        let degree = narrow(degree as usize);
        self.rows.push(Row {
            end: narrow(self.links.len()),
            degree,
            inverse: if degree > 0 {
                1.0 / f64::from(degree)
            } else {
                0.0
            },
        })?;
        Ok(())
    }

    /// The links of a vertex, if it exists.
    #[inline]
    pub(crate) fn links_of(&self, vertex: usize) -> &[Link] {
        if vertex < self.rows.len() {
            links_of(&self.rows, &self.links, vertex)
        } else {
            &[]
        }
    }

    /// What one firing of a vertex sends away.
    #[inline]
    pub(crate) fn degree(&self, vertex: usize) -> i64 {
        match self.rows.get(vertex) {
            Some(row) => i64::from(row.degree),
            None => 0,
        }
    }

    /// The number of vertices and links.
    pub(crate) fn size(&self) -> u64 {
        (self.rows.len() as u64).saturating_add(self.links.len() as u64)
    }
}
