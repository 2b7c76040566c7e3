//! The pass that adds a note behind each instruction that writes a pointer to memory.
#![tactic(auto)]

mod laws;
mod pass;

pub use laws::notes_keep_bounds;
pub use pass::instrument;

#[cfg(test)]
mod tests;
