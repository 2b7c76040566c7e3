//! Graphs.
ghost use Rattle.std.specs.Prelude.{◌≡◌, ◌<◌, [], ◌∷◌, ◌++◌, length, get_or, OnOk, OnErr};

use std::alloc::{AllocError, Global};
use std::marker::Model;

/// A graph on the numbers below its length. Contracts see, for each node from 0 on, the list of nodes to which its
/// edges lead.
#[derive(Drop)]
pub struct Graph {
    edges: Vec<Vec<u32>>,
}

impl Model for Graph {
    ghost use Rattle.std.specs.Prelude.{List, ℕ, map};

    ghost Value = { List (List ℕ) };

    ghost view = { λ graph. map (λ row. row.items) graph.edges.items };
}

impl Graph {
    /// No nodes.
    pub fn new(alloc: Global) -> Graph
        ensures { result ≡ [] }
    {
        Graph {
            edges: Vec::new(alloc),
        }
    }

    /// One edge more, where its start is a node.
    pub(crate) fn add_edge(&mut self, from: u32, to: u32) -> Result<(), AllocError> {
        if let Some(row) = self.edges.get_mut(from as usize) {
            row.push(to)?;
        }
        Ok(())
    }

    /// How many nodes there are.
    pub fn len(&self) -> usize
        ensures { result ≡ length self.now }
    {
        self.edges.len()
    }

    /// One node more, with the nodes to which its edges lead. Without memory the nodes stay.
    pub fn push(&mut self, edges: Vec<u32>) -> Result<(), AllocError>
        ensures ok { OnOk result (self.new ≡ self.old ++ edges.items ∷ []) }
        ensures err { OnErr result (self.new ≡ self.old) }
    {
        self.edges.push(edges)?;
        Ok(())
    }

    /// The nodes to which the edges of this one lead.
    pub fn edges(&self, node: usize) -> &[u32]
        requires { node < length self.now }
        ensures { result.now ≡ get_or self.now node [] }
    {
        self.edges[node].as_slice()
    }
}
