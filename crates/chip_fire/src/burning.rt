//! The order of a burning test.

ghost use Rattle.std.specs.Prelude.{◌≡◌, length, IfOk};

use chip_graph::Graph;
use std::alloc::{AllocError, Global};

/// An order in which the vertices burn that fire more often by the counts than they have `fired`, by the chips that the
/// counts leave: ranks from 1 on, and 0 for the others. It visits each vertex about once, and each edge out of these.
pub(crate) fn burning_order(
    alloc: Global,
    graph: &Graph,
    fired: &[u64],
    counts: &[u64],
    chips: &[u64],
) -> Result<Vec<u64>, AllocError>
    ensures { IfOk result (λ order. length order.items ≡ graph.now.vertices) }
{
    // What does not fire has far less than comes in, so it does not burn.
    let mut slacks = vec![in alloc; i64::MIN / 2; graph.vertices() as usize]?;
    take_back(&mut slacks, graph, fired, counts, chips);
    let mut order = vec![in alloc; 0; graph.vertices() as usize]?;
    burn(alloc, graph, &mut slacks, &mut order)?;
    Ok(order)
}

/// Gives each vertex that fires the chips that the counts leave it, less what comes in if each of these fires once.
fn take_back(slacks: &mut [i64], graph: &Graph, fired: &[u64], counts: &[u64], chips: &[u64]) {
    for (vertex, slack) in slacks.iter_mut().enumerate() {
        if vertex < chips.len() && fires(fired, counts, vertex) {
            *slack = chips[vertex].cast_signed();
        }
    }
    for vertex in 0..graph.vertices() {
        if fires(fired, counts, vertex as usize) {
            for link in graph.links(vertex) {
                if let Some(slack) = slacks.get_mut(link.head as usize) {
                    *slack = slack.wrapping_sub(i64::from(link.mult));
                }
            }
        }
    }
}

/// Whether a vertex fires more often by the counts than it has fired.
fn fires(fired: &[u64], counts: &[u64], vertex: usize) -> bool {
    vertex < fired.len() && vertex < counts.len() && counts[vertex] > fired[vertex]
}

/// Ranks the vertices in the order in which they burn.
fn burn(
    alloc: Global,
    graph: &Graph,
    slacks: &mut [i64],
    order: &mut [u64],
) -> Result<(), AllocError> {
    let mut waiting = Vec::new(alloc);
    for (vertex, slack) in slacks.iter().enumerate() {
        if *slack >= 0 {
            waiting.push(vertex as u64)?;
        }
    }
    for rank in 1..u64::MAX {
        let Some(vertex) = waiting.pop() else {
            break;
        };
        if let Some(own) = order.get_mut(vertex as usize) {
            *own = rank;
        }
        if vertex < graph.vertices() {
            for link in graph.links(vertex) {
                if let Some(slack) = slacks.get_mut(link.head as usize) {
                    let before = *slack;
                    *slack = before.wrapping_add(i64::from(link.mult));
                    if before < 0 && *slack >= 0 {
                        waiting.push(u64::from(link.head))?;
                    }
                }
            }
        }
    }
    Ok(())
}
