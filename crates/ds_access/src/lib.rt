//! One access to program memory as a machine that makes rows 14 to 19 of the step table.
//!
//! A whole word is loaded, stored, combined or replaced in one step. A part of a word is changed by a load of its word
//! and a compare-and-swap, which is tried again where another thread came between.
#![tactic(auto)]

mod outcome;
mod parts;
mod steps;
#[cfg(test)]
mod tests;
mod walk;

pub use walk::AccessWalk;
