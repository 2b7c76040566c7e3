//! The first node that is on a cycle.
ghost use Rattle.std.specs.Prelude.{◌≡◌, ℕ, ◌↔◌, ◌<◌, ◌≤◌, ◌^◌, length, All, Contains, IfOk, IsTrue};
ghost use Rattle.ds_graph.specs.Graph.{IsClosed, IsFirstOnCycle, IsOnCycle};
ghost use Rattle.ds_graph.specs.Ranks.{IsMonotone, rank_of};

use crate::graph::Graph;
use crate::ranks::ranks_of;
use crate::reach::reach;
use std::alloc::{AllocError, Global};

/// Whether each edge leads above a rank.
fn rises(ranks: &[u32], rank: u32, edges: &[u32]) -> bool
    requires { All (λ a. a < length ranks.now) edges.now }
    ensures { IsTrue result ↔ ((b : ℕ) → Contains edges.now b → rank < rank_of ranks.now b) }
{
    for node in edges {
        if ranks[*node as usize] <= rank {
            return false;
        }
    }
    true
}

/// Whether edges lead from the node to itself.
fn reaches_itself(alloc: Global, graph: &Graph, node: usize) -> Result<bool, AllocError>
    requires closed { IsClosed graph.now }
    requires within { node < length graph.now }
    ensures { IfOk result (λ found. IsTrue found ↔ IsOnCycle graph.now node) }
{
    let marks = reach(alloc, graph, graph.edges(node), None)?;
    Ok(marks[node])
}

/// Whether the node is on a cycle. One whose edges all lead to higher ranks is not, which is told at once.
fn is_on_cycle(alloc: Global, graph: &Graph, ranks: &[u32], node: usize) -> Result<bool, AllocError>
    requires closed { IsClosed graph.now }
    requires within { node < length graph.now }
    requires many { length ranks.now ≡ length graph.now }
    requires monotone { IsMonotone graph.now ranks.now }
    ensures { IfOk result (λ found. IsTrue found ↔ IsOnCycle graph.now node) }
{
    if rises(ranks, ranks[node], graph.edges(node)) {
        return Ok(false);
    }
    reaches_itself(alloc, graph, node)
}

/// The least node that is on a cycle, of a graph that has one.
///
/// The time is linear where the order is one in which a depth-first search finishes all nodes.
pub fn first_on_cycle(alloc: Global, graph: &Graph, order: &[u32]) -> Result<u32, AllocError>
    requires closed { IsClosed graph.now }
    requires few { length graph.now < 2 ^ 32 }
    requires cyclic { (a : ℕ) × IsOnCycle graph.now a }
    ensures { IfOk result (λ found. IsFirstOnCycle graph.now found) }
{
    let ranks = ranks_of(alloc, graph, order)?;
    for node in 0..graph.len() {
        if is_on_cycle(alloc, graph, ranks.as_slice(), node)? {
            return Ok(node as u32);
        }
    }
    unreachable!()
}
