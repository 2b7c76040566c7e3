//! One `free` as a machine that makes rows 61 to 63 and 74 of the step table, one after another.
//!
//! It finds the block that starts at its address, takes it with a compare-and-swap, so that no other `free` can, and
//! gives it back.
#![tactic(auto)]

mod outcome;
mod seen;
mod steps;
#[cfg(test)]
mod tests;
mod walk;

pub use outcome::FreeOutcome;
pub use walk::FreeWalk;
