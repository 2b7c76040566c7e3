//! What the program writes: the report of a run, and the line of a fault.
#![tactic(auto)]

mod counts;
mod fault;
mod prints;
mod report;
mod stop;
#[cfg(test)]
mod tests;
mod text;
mod trace;

pub use counts::Tally;
pub use fault::{Fault, fault_line};
pub use prints::Print;
pub use report::render;
