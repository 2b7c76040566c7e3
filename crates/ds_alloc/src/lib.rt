//! One `malloc` as a machine that makes rows 20 to 23 of the step table, one after another.
//!
//! It looks at the places of its size class, page by page, until it takes a block or has seen each
//! to be unavailable.
#![tactic(auto)]

mod outcome;
mod places;
mod seen;
mod steps;
#[cfg(test)]
mod tests;
mod walk;

pub use outcome::AllocOutcome;
pub use places::place_behind;
pub use walk::AllocWalk;
