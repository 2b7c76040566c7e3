//! Graphs, an order of their nodes along their edges, the first node that is on a cycle, and which nodes stand on
//! every path to which others.
#![tactic(auto)]

mod certificate;
mod cycle;
mod dominators;
mod graph;
mod numbering;
mod ordering;
mod paths;
mod ranks;
mod reach;
mod search;
mod tables;
#[cfg(test)]
mod tests;
mod tree;

pub use graph::Graph;
pub use ordering::{Ordered, order};
pub use paths::Paths;
