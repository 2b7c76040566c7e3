//! What names mean in a module and in its functions.
#![tactic(auto)]

mod called;
mod defined;
mod entities;
mod fault;
mod locals;
mod meaning;
mod put;
mod results;
mod row;

pub use called::is_called;
pub use defined::is_defined;
pub use entities::Entities;
pub use fault::ScopeFault;
pub use locals::Locals;
pub use meaning::Meaning;
pub use results::result_type;

#[cfg(test)]
mod tests;
