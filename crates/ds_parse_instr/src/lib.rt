//! From tokens to an instruction.
#![tactic(auto)]

mod arithmetic;
mod calls;
mod control;
mod dispatch;
mod listed;
mod memory;
mod ops;
mod parser;
mod trails;

pub use dispatch::{head_of, row_of};
pub use parser::parse_instr;
