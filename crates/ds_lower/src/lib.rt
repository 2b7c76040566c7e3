//! Lowering: a module becomes code, with one instruction for each of its own.
#![tactic(auto)]

mod calls;
mod edges;
mod instrs;
mod local;
mod lowering;
mod ops;
mod phis;
mod rows;
mod strides;
mod values;

pub use lowering::lower;
