//! Whether each value of a function is assigned on every path to its use.
#![tactic(auto)]

mod flow;
mod unassigned;

pub use unassigned::first_unassigned;

#[cfg(test)]
mod tests;
