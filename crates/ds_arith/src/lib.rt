//! Arithmetic on the integers of a module, as the LLVM Language Reference means it.
//!
//! An integer of `bits` bits is kept as a number below 2 to the power `bits`. It stands for that number, or in two's
//! complement for a signed one.
#![tactic(auto)]

mod comparisons;
mod fault;
mod numbers;
mod operations;
#[cfg(test)]
mod tests;

pub use comparisons::compare;
pub use fault::ArithFault;
pub use numbers::sign_extend;
pub use operations::apply;
