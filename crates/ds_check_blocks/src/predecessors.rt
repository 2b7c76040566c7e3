//! The blocks from which an edge leads to each block.
ghost use Rattle.std.specs.Prelude.{◌≡◌, ◌<◌, ◌^◌, ◌↔◌, ◌⊎◌, ℕ, [], Contains, length, get_or, replicate, IfOk, OnOk};
ghost use Rattle.ds_graph.specs.Graph.{HasEdge, IsClosed};
ghost use Rattle.ds_check_blocks.specs.Predecessors.{AreReversed, AddsEdge, AddsEdges};

use ds_graph::Graph;
use std::alloc::{AllocError, Global};
use std::collections::BTreeSet;
use std::marker::Model;

/// The blocks from which an edge leads to each block of a function. Contracts see, for each block from 0 on, the list
/// of
/// the numbers of those.
#[derive(Drop)]
pub struct Predecessors {
    rows: Vec<BTreeSet<u32>>,
}

impl Model for Predecessors {
    ghost use Rattle.std.specs.Prelude.{List, ℕ, map};

    ghost Value = { List (List ℕ) };

    ghost view = { λ predecessors. map (λ row. row.keys) predecessors.rows.items };
}

impl Predecessors {
    /// Those of so many blocks to which no edge leads.
    fn none(alloc: Global, count: usize) -> Result<Predecessors, AllocError>
        ensures { IfOk result (λ none. none ≡ replicate count []) }
    {
        let mut rows = Vec::new(alloc);
        for block in 0..count {
            rows.push(BTreeSet::new(alloc))?;
        }
        Ok(Predecessors { rows })
    }

    /// One edge more.
    fn add(&mut self, from: u32, to: usize) -> Result<(), AllocError>
        requires { to < length self.old }
        ensures { OnOk result (AddsEdge from to self.old self.new) }
    {
        self.rows[to].insert(from)?;
        Ok(())
    }

    /// The blocks from which an edge leads to this one.
    pub(crate) fn row(&self, block: usize) -> &BTreeSet<u32>
        requires { block < length self.now }
        ensures { result.now.keys ≡ get_or self.now block [] }
    {
        &self.rows[block]
    }
}

/// Adds the edges that lead from a block.
fn add_all(predecessors: &mut Predecessors, from: u32, targets: &[u32]) -> Result<(), AllocError>
    requires { (b : ℕ) → Contains targets.now b → b < length predecessors.old }
    ensures { OnOk result (AddsEdges from targets.now predecessors.old predecessors.new) }
{
    for to in targets {
        predecessors.add(from, *to as usize)?;
    }
    Ok(())
}

/// The blocks from which an edge of this graph leads to each block.
pub fn predecessors_of(alloc: Global, graph: &Graph) -> Result<Predecessors, AllocError>
    requires closed { IsClosed graph.now }
    requires few { length graph.now < 2 ^ 32 }
    ensures { IfOk result (λ predecessors. AreReversed graph.now predecessors) }
{
    let mut all = Predecessors::none(alloc, graph.len())?;
    for from in 0..graph.len() {
        add_all(&mut all, from as u32, graph.edges(from))?;
    }
    Ok(all)
}
