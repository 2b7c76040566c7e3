//! An order of a graph's nodes, or the first node that is on a cycle.
ghost use Rattle.std.specs.Prelude.{◌<◌, ◌^◌, length, IfOk};
ghost use Rattle.ds_graph.specs.Graph.{IsClosed};
ghost use Rattle.ds_graph.specs.Ordered.{IsOrdered};

use crate::cycle::first_on_cycle;
use crate::graph::Graph;
use crate::search::finish_order;
use std::alloc::{AllocError, Global};

/// An order of a graph's nodes, or why there is none.
#[derive(Drop)]
pub enum Ordered {
    /// Each node once, behind all nodes to which its edges lead.
    Order(Vec<u32>),
    /// The least node that is on a cycle.
    Cycle(u32),
}

/// An order of the graph's nodes, each behind all nodes to which its edges lead, or the least node that is on a cycle.
///
/// Time and memory are linear in the number of nodes and edges. Fails only for want of memory.
pub fn order(alloc: Global, graph: &Graph) -> Result<Ordered, AllocError>
    requires closed { IsClosed graph.now }
    requires few { length graph.now < 2 ^ 32 }
    ensures { IfOk result (λ found. IsOrdered graph.now found) }
{
    let found = finish_order(alloc, graph)?;
    if found.has_cycle {
        let node = first_on_cycle(alloc, graph, found.order.as_slice())?;
        return Ok(Ordered::Cycle(node));
    }
    Ok(Ordered::Order(found.order))
}
