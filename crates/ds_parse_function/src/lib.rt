//! From tokens to a function.
#![tactic(auto)]

mod body;
mod declared;
mod functions;
mod names;
mod ops;
mod parameters;

pub use declared::declare_line;
pub use functions::define_line;
