//! The place of each shared word of a net.

ghost use Rattle.std.specs.Prelude.{◌≡◌, ℕ, ◌+◌, ◌^◌, ◌<◌};
ghost use Rattle.chip_part.specs.Edges.{root_edge};
ghost use Rattle.chip_core.specs.Words.{of_edge, of_acks, of_cell, of_vertex, IsWord};
ghost use Rattle.chip_net.specs.Layout.{index_of, word_count};

use chip_part::Setting;

/// The index of the edge word of an edge.
pub(crate) fn edge_word(setting: &Setting, edge: u64) -> usize
    requires { IsWord setting.now (of_edge edge) }
    ensures { result ≡ index_of setting.now (of_edge edge) }
{
    let _edges = setting.all_edges();
    edge as usize
}

/// The index of the word of acknowledgements of an edge.
pub(crate) fn acks_word(setting: &Setting, edge: u64) -> usize
    requires { IsWord setting.now (of_acks edge) }
    ensures { result ≡ index_of setting.now (of_acks edge) }
{
    (setting.all_edges() + edge) as usize
}

/// The index of the first vertex's word of acknowledgements for its root edge; those of the other vertices follow it.
pub(crate) fn root_acks(setting: &Setting) -> usize
    ensures words { (v : ℕ) → result + v ≡ index_of setting.now (of_acks (root_edge setting.now v)) }
    ensures few { result < 2 ^ 25 }
{
    (setting.all_edges() + setting.graph_edges()) as usize
}

/// The index of a cell of an edge.
pub(crate) fn cell_word(setting: &Setting, edge: u64, cell: u64) -> usize
    requires { IsWord setting.now (of_cell edge cell) }
    ensures { result ≡ index_of setting.now (of_cell edge cell) }
{
    let edges = setting.all_edges();
    let ring = setting.ring().cells();
    (edges + edges + (edge * ring + cell)) as usize
}

/// The index of the fired word of a vertex.
pub(crate) fn fired_word(setting: &Setting, vertex: u64) -> usize
    requires { IsWord setting.now (of_vertex vertex) }
    ensures { result ≡ index_of setting.now (of_vertex vertex) }
{
    let edges = setting.all_edges();
    let ring = setting.ring().cells();
    let _vertices = setting.vertices();
    (edges + edges + edges * ring + vertex) as usize
}

/// The number of words of a net.
pub(crate) fn word_count(setting: &Setting) -> usize
    ensures value { result ≡ word_count setting.now }
    ensures few { result < 2 ^ 30 }
{
    let edges = setting.all_edges();
    let ring = setting.ring().cells();
    (edges + edges + edges * ring + setting.vertices()) as usize
}
