//! Whether instructions and initialisers keep the rules of types.
#![tactic(auto)]

mod addresses;
mod calls;
mod initial;
mod numbers;
mod operands;
mod rules;
mod scalars;
mod values;

pub use initial::is_initial;
pub use rules::is_typed;

#[cfg(test)]
mod tests;
