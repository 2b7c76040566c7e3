//! Names in a row, and the place of each.
#![tactic(auto)]

mod laws;
mod names;
mod places;

pub use laws::{places_are_exact, places_are_unique};
pub use names::Names;

#[cfg(test)]
mod tests;
