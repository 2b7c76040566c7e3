//! Whose turn it is in a replay, as code.
//!
//! A schedule begins with cues, and from then on each turn is drawn from a seed.
#![tactic(auto)]

mod listed;
mod lists;
mod passing;
mod progress;
#[cfg(test)]
mod tests;

pub use lists::{Cues, Schedule};
pub use progress::Progress;
