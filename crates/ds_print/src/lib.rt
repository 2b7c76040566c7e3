//! The canonical text of a module: it says what the module says, in the one way in which the program writes it.
#![tactic(auto)]

mod arithmetic;
mod atomic;
mod control;
mod functions;
mod globals;
mod lines;
mod memory;
mod module;
mod names;
mod ops;
mod selection;
mod structs;
mod text;
mod types;
mod values;
mod words;

pub use module::print;
pub use names::{push_global, push_local};

#[cfg(test)]
mod tests;
