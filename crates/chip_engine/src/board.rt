//! The board: the books of the detector, as lines.

ghost use Rattle.std.specs.Prelude.{◌≡◌, ◌++◌, ◌<◌, IfOk, flat_map, string_bytes};
ghost use Rattle.std.specs.List.{All};
ghost use Rattle.chip_part.specs.Edges.{all_edges};
ghost use Rattle.chip_core.specs.Core.{part_in};
ghost use Rattle.chip_world.specs.World.{WhateverLog};
ghost use Rattle.chip_engine.specs.Board.{board_text, root_line, books_text, vertex_line, owed_text};

use chip_world::World;
use std::alloc::AllocError;

/// Appends the board of a world: the root's deficit, and a line for each engaged vertex.
pub(crate) fn push_board(lines: &mut String, world: &World) -> Result<(), AllocError>
    ensures { IfOk result (λ _. WhateverLog world.now
        (λ g log. string_bytes lines.new ≡ string_bytes lines.old ++ board_text g log)) }
{
    push_root(lines, world.root_deficit())?;
    for vertex in 0..world.setting().vertices() {
        push_vertex(lines, world, vertex)?;
    }
    Ok(())
}

/// Appends the line of a vertex, if it is engaged.
fn push_vertex(lines: &mut String, world: &World, vertex: u64) -> Result<(), AllocError>
    requires { vertex < world.now.setting.game.graph.vertices }
    ensures { IfOk result (λ _. WhateverLog world.now (λ g log. string_bytes lines.new
        ≡ string_bytes lines.old ++ vertex_line g log vertex (part_in g log vertex).parent)) }
{
    let Some(parent) = world.parent(vertex) else {
        return Ok(());
    };
    push_books(lines, vertex, parent, world.deficit(vertex))?;
    let setting = world.setting();
    push_all_owed(lines, world, setting.game().graph().ins(vertex))?;
    push_owed(lines, world, setting.root_edge(vertex))?;
    lines.push_str("\n")?;
    Ok(())
}

/// Appends the line of the root.
fn push_root(lines: &mut String, deficit: u64) -> Result<(), AllocError>
    ensures { IfOk result (λ _. string_bytes lines.new ≡ string_bytes lines.old ++ root_line deficit) }
{
    write!(lines, "  root deficit {deficit}\n")
}

/// Appends the start of a vertex's line.
fn push_books(lines: &mut String, vertex: u64, parent: u64, deficit: u64) -> Result<(), AllocError>
    ensures { IfOk result
        (λ _. string_bytes lines.new ≡ string_bytes lines.old ++ books_text vertex parent deficit) }
{
    write!(
        lines,
        "  vertex {vertex} parent {parent} deficit {deficit} owes"
    )
}

/// Appends what is owed on each of these edges.
fn push_all_owed(lines: &mut String, world: &World, edges: &[u64]) -> Result<(), AllocError>
    requires { All (λ e. e < all_edges world.now.setting) edges.now }
    ensures { IfOk result (λ _. WhateverLog world.now
        (λ g log. string_bytes lines.new ≡ string_bytes lines.old ++ flat_map (owed_text g log) edges.now)) }
{
    for edge in edges {
        push_owed(lines, world, *edge)?;
    }
    Ok(())
}

/// Appends what is owed on this edge, if anything.
fn push_owed(lines: &mut String, world: &World, edge: u64) -> Result<(), AllocError>
    requires { edge < all_edges world.now.setting }
    ensures { IfOk result (λ _. WhateverLog world.now
        (λ g log. string_bytes lines.new ≡ string_bytes lines.old ++ owed_text g log edge)) }
{
    let owed = world.owed(edge);
    if owed == 0 {
        return Ok(());
    }
    write!(lines, " {edge}:{owed}")
}
