//! From tokens to the struct types and the globals of a module.
#![tactic(auto)]

mod globals;
mod heads;
mod lists;
mod nested;
mod places;
mod same;
mod structs;

pub use globals::global_line;
pub use lists::struct_line;
pub use structs::Structs;
