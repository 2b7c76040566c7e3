//! That all which an accepted module asks has a row of the step table.
#![tactic(auto)]

mod laws;

pub use laws::accepted_modules_ask_rows;
