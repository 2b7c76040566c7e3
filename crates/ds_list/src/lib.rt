//! A thread that looks for its own log of a block, as a machine that makes rows 26 to 30 of the step table, one after
//! another.
//!
//! The home word of the block's place says which log the thread has for the place, whatever the life of the block
//! there is. A thread that has none draws one; of its own it loads the header.
#![tactic(auto)]

mod outcome;
mod seen;
mod steps;
#[cfg(test)]
mod tests;
mod walk;

pub use outcome::ListOutcome;
pub use walk::ListWalk;
