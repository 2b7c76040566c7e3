//! Whether a module is accepted, and else its first fault.
#![tactic(auto)]

mod bodies;
mod checks;
mod counts;
mod externals;
mod fault;
mod fronts;
mod functions;
mod instr;
mod instructions;
mod kept_names;
mod laws;
mod limits;
mod main_function;
mod names;
mod operands;
mod words;

pub use checks::check;
pub use fault::{CountKind, TypeFault};
pub use laws::{accepted_are_not_refused, one_type_fault};

#[cfg(test)]
mod tests;
