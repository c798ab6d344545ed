//! The sizes of a graph and of the texts of its game.

ghost use Rattle.std.specs.Prelude.{◌≡◌};

use std::marker::Model;

/// The most vertices of any graph: 2^21.
pub const MAX_VERTICES: u64 = 1 << 21;
/// The most edges of any graph: 2^23.
pub const MAX_EDGES: u64 = 1 << 23;
/// The most bytes of any text of a game: 2^28.
pub const MAX_TEXT: u64 = 1 << 28;

/// The most vertices and edges of a graph, and the most bytes of each text of its game.
#[derive(Clone, Copy)]
pub struct Limits {
    vertices: u64,
    edges: u64,
    bytes: u64,
}

impl Model for Limits {
    ghost use Rattle.chip_graph.specs.Limits.{SizeLimits, AreLimits};

    ghost Value = { SizeLimits };

    ghost view = { λ a. record { vertices = a.vertices; edges = a.edges; bytes = a.bytes } };

    ghost invariant = { λ a. AreLimits (record { vertices = a.vertices; edges = a.edges; bytes = a.bytes }) };

    ghost inverse = { λ l. record { vertices = l.vertices; edges = l.edges; bytes = l.bytes } };
}

impl Limits {
    ghost use Rattle.chip_graph.specs.Limits.{checked_limits, standard, large, AreLimits};

    /// These limits, or `None` if one of them is above the greatest.
    pub fn new(vertices: u64, edges: u64, bytes: u64) -> Option<Limits>
        ensures { result ≡ checked_limits vertices edges bytes }
    {
        if vertices > MAX_VERTICES || edges > MAX_EDGES || bytes > MAX_TEXT {
            return None;
        }
        Some(Limits {
            vertices,
            edges,
            bytes,
        })
    }

    /// The default: 4,096 vertices, 65,536 edges and 2^24 bytes.
    pub fn standard() -> Limits
        ensures { result ≡ standard }
    {
        Limits {
            vertices: 4_096,
            edges: 65_536,
            bytes: 1 << 24,
        }
    }

    /// The greatest limits: 2^21 vertices, 2^23 edges and 2^28 bytes.
    pub fn large() -> Limits
        ensures { result ≡ large }
    {
        Limits {
            vertices: MAX_VERTICES,
            edges: MAX_EDGES,
            bytes: MAX_TEXT,
        }
    }

    /// The most vertices.
    pub fn vertices(self) -> u64
        ensures value { result ≡ self.vertices }
        ensures limits { AreLimits self }
    {
        self.vertices
    }

    /// The most edges.
    pub fn edges(self) -> u64
        ensures value { result ≡ self.edges }
        ensures limits { AreLimits self }
    {
        self.edges
    }

    /// The most bytes of a text.
    pub fn bytes(self) -> u64
        ensures value { result ≡ self.bytes }
        ensures limits { AreLimits self }
    {
        self.bytes
    }
}
