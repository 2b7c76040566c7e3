//! The top call of `dangsan`: reads a module that keeps all rules, and tells how much it has, writes it with its
//! notes, or runs it on shared words and reports what happened.
#![tactic(auto)]

mod accept;
mod accepted;
mod check;
mod deliver;
mod entry;
mod input;
mod instrument;
mod job;
mod laws;
mod no_module;
mod pace;
mod refuse;
mod replay;
mod run;
mod status;
#[cfg(test)]
mod tests;

pub use entry::dangsan_main;
pub use job::{ArgsFault, Job, read_words};
pub use pace::{FreePace, Pace};
