//! One thread of a run: an actor makes the rows of the step table for what its code asks, one row a turn.
#![tactic(auto)]

mod actor;
mod cursors;
mod join;
mod make;
mod outcome;
mod place;
mod spawn;
mod start;
mod table;
#[cfg(test)]
mod tests;

pub use actor::Actor;
pub use make::turn;
pub use outcome::Turn;
