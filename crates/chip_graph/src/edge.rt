ghost use Rattle.std.specs.Prelude.{◌≡◌};

/// One row of a graph: `mult` parallel edges from `tail` to `head`.
///
/// Several rows may join the same two vertices: each is an edge of its own. Its number is its index in the list, from
/// 0.
#[derive(Clone, Copy, PartialEq, Eq)]
pub struct Edge {
    /// The vertex that it leaves.
    pub tail: u64,
    /// The vertex that it goes into.
    pub head: u64,
    /// The number of chips that one firing of the tail sends along it, 1 to 2^20 in a graph.
    pub mult: u64,
}

/// An edge out of a vertex, as stored for firing: a third of an `Edge`'s size.
#[derive(Clone, Copy)]
pub struct Link {
    /// The vertex that it goes into.
    pub head: u32,
    /// The number of chips that one firing sends along it, 1 to 2^20 in a graph.
    pub mult: u32,
}

/// An edge of a running game.
#[derive(Clone, Copy, PartialEq, Eq)]
pub enum AnyEdge {
    /// One of the graph's own.
    Own(Edge),
    /// The root edge into a vertex, which brings its first chips.
    Root {
        /// The vertex that it goes into.
        head: u64,
    },
}

/// One of the two ends of an edge.
#[derive(Clone, Copy)]
pub(crate) enum End {
    /// The vertex that it leaves.
    Tail,
    /// The vertex that it goes into.
    Head,
}

impl Edge {
    ghost use Rattle.chip_graph.specs.Ends.{end_of};

    /// The vertex at this end.
    pub(crate) fn at(&self, end: End) -> u64
        ensures { result ≡ end_of end self.now }
    {
        match end {
            End::Tail => self.tail,
            End::Head => self.head,
        }
    }
}

/// The part of an edge that a list of edges keeps beside its number.
pub(crate) trait Part: Copy {
    ghost use Rattle.chip_graph.specs.declared.edge.Edge.{Edge};
    ghost use Rattle.chip_graph.specs.Ends.{FitsWords};

    ghost part_of: { Edge → Self };

    /// This part of an edge.
    fn part(edge: &Edge) -> Self
        requires { FitsWords edge.now }
        ensures { result ≡ part_of edge.now };
}

/// The tail.
impl Part for u32 {
    ghost part_of = { λ edge. edge.tail };

    fn part(edge: &Edge) -> u32 {
        edge.tail as u32
    }
}

impl Part for Link {
    ghost use Rattle.chip_graph.specs.Multigraph.{link_of};

    ghost part_of = { link_of };

    fn part(edge: &Edge) -> Link {
        Link {
            head: edge.head as u32,
            mult: edge.mult as u32,
        }
    }
}
