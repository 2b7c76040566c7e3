//! One note as a machine that makes rows 24 to 31, 38 and 39 of the step table, one after another.
//!
//! It finds the live block that holds the value, and in that thread's own log of the block it writes the location to
//! the first entry that is not used; then it counts the entry.
#![tactic(auto)]

mod outcome;
mod seen;
mod steps;
#[cfg(test)]
mod tests;
mod walk;

pub use outcome::NoteOutcome;
pub use walk::NoteWalk;
