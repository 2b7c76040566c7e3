//! The blocks of a function: where its instructions stand, which edges lead where, and what stands on every path.
#![tactic(auto)]

mod edges;
mod labels;
mod phis;
mod predecessors;
mod sites;
mod targets;
mod uses;

pub use edges::edges_of;
pub use labels::{first_bad_label, instr_at};
pub use phis::{is_good_phi, is_phi};
pub use predecessors::{Predecessors, predecessors_of};
pub use sites::{Site, Sites};
pub use uses::{Used, arms, use_at, use_count};
